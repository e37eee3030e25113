// Words of four bytes, little-endian, and the numbers that they stand for: signed ones in two's complement.
ghost use Rattle.std.specs.Prelude.{◌≡◌, ℕ, ◌++◌, ◌+◌, ◌*◌, ◌≤◌, map, length, take, drop};
ghost use Rattle.lifting.specs.Wrap.{low32};
ghost use Rattle.plane_file.specs.Words.{word, words, word_at, number_at};

// The word whose first byte is the one at `at`.
pub fn word_at(bytes: &[u8], at: usize) -> u32
    requires { at + 4 ≤ length bytes.now }
    ensures { result ≡ word_at bytes.now at }
{
    u32::from_le_bytes([bytes[at], bytes[at + 1], bytes[at + 2], bytes[at + 3]])
}

// The signed number whose word is the one at `at`.
pub fn number_at(bytes: &[u8], at: usize) -> i32
    requires { at + 4 ≤ length bytes.now }
    ensures { result ≡ number_at bytes.now at }
{
    word_at(bytes, at).cast_signed()
}

// Writes x as the word at `at`.
pub fn put_word(bytes: &mut [u8], at: usize, x: u32)
    requires { at + 4 ≤ length bytes.old }
    ensures { bytes.new ≡ take at bytes.old ++ word x ++ drop (at + 4) bytes.old }
{
    let end = at + 4;
    bytes[at..end].copy_from_slice(&x.to_le_bytes());
}

// A number that is written as a word.
pub trait Word: Copy {
    ghost as_word: { Self → ℕ };

    fn as_word(self) -> u32
        ensures { result ≡ as_word self };
}

impl Word for u32 {
    ghost as_word = { λ x. x };

    fn as_word(self) -> u32 {
        self
    }
}

impl Word for i32 {
    ghost as_word = { low32 };

    fn as_word(self) -> u32 {
        self.cast_unsigned()
    }
}

// Writes numbers one after another, from `at` on.
pub fn put_words<W: Word>(numbers: &[W], bytes: &mut [u8], at: usize)
    requires { at + 4 * length numbers.now ≤ length bytes.old }
    ensures { bytes.new ≡
        take at bytes.old ++ words (map W.as_word numbers.now) ++ drop (at + 4 * length numbers.now) bytes.old }
{
    for (i, number) in numbers.iter().enumerate() {
        put_word(bytes, at + 4 * i, number.as_word());
    }
}
