// A reader of words: the bytes of a file, and the place of the next word.
ghost use Rattle.std.specs.Prelude.{◌≡◌, ◌+◌, ◌≤◌, length};
ghost use Rattle.plane_file.specs.Words.{word_at};

use crate::word::word_at;

#[derive(Clone, Copy)]
pub struct WordReader<'a> {
    pub bytes: &'a [u8],
    pub at: usize,
}

impl<'a> WordReader<'a> {
    // The next word, which the reader then stands behind.
    pub fn next(&mut self) -> u32
        requires { self.old.at + 4 ≤ length self.old.bytes.now }
        ensures word { result ≡ word_at self.old.bytes.now self.old.at }
        ensures at { self.new.at ≡ self.old.at + 4 }
        ensures bytes { self.new.bytes ≡ self.old.bytes }
    {
        let word = word_at(self.bytes, self.at);
        self.at += 4;
        word
    }
}
