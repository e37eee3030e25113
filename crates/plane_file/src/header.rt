// The header of a plane file: its words, their checks and what they answer.
ghost use Rattle.std.specs.Prelude.{◌≡◌, ◌≤◌, length, IfOk};
ghost use Rattle.picture.specs.Numbers.{first_of};
ghost use Rattle.picture.specs.Refusals.{number_of};
ghost use Rattle.plane_file.specs.Header.{words_of, size_of, start_of, header_of, layout_said, GivesHeader};
ghost use Rattle.plane_file.specs.Layout.{header_bytes};
ghost use Rattle.plane_file.specs.Calls.{header_answer};
ghost use Rattle.plane_file.specs.Numbers.{word_checks, start_checks, header_number};

use crate::layout::{HEADER_BYTES, Layout};
use crate::reader::WordReader;
use picture::counts::Macroblocks;
use picture::frame::Frame;
use picture::picture_size::PictureSize;
use picture::refusals::Refusal;
use picture::size::Size;

// The words in their order; the last is to be zero.
#[derive(Clone, Copy)]
pub struct Words {
    pub mode: u32,
    pub width: u32,
    pub height: u32,
    pub dc: u32,
    pub low: u32,
    pub high: u32,
    pub total: u32,
    pub last: u32,
}

// The mode and the size of a header whose words are checked.
#[derive(Clone, Copy)]
pub struct Start {
    pub mode: u32,
    pub size: PictureSize,
}

// The number of an operation, and, where that is 0, the mode and the size that the header says.
#[repr(C)]
#[derive(Clone, Copy)]
pub struct Header {
    pub number: u32,
    pub mode: u32,
    pub size: Size,
}

impl Words {
    // The words of a header, read one after another.
    pub fn read(bytes: &[u8]) -> Words
        requires { header_bytes ≤ length bytes.now }
        ensures { result ≡ words_of bytes.now }
    {
        let mut reader = WordReader { bytes, at: 0 };
        Words {
            mode: reader.next(),
            width: reader.next(),
            height: reader.next(),
            dc: reader.next(),
            low: reader.next(),
            high: reader.next(),
            total: reader.next(),
            last: reader.next(),
        }
    }

    pub fn size(self) -> Size
        ensures { result ≡ size_of self.width self.height }
    {
        Size {
            width: Macroblocks(self.width),
            height: Macroblocks(self.height),
        }
    }

    fn layout(self) -> Layout
        ensures { result ≡ layout_said self }
    {
        Layout {
            dc: self.dc,
            low: self.low,
            high: self.high,
            total: self.total,
        }
    }

    // The mode and the size that the words say.
    pub fn check(self) -> Result<Start, Refusal>
        ensures number { number_of result ≡ first_of (word_checks self) }
        ensures said { IfOk result (λ start. start ≡ start_of self) }
    {
        let frame = Frame::new(self.mode, self.size())?;
        if self.last != 0 {
            return Err(Refusal::LastWord);
        }
        if self.layout() != Layout::new(frame.size.macroblocks()) {
            return Err(Refusal::Offsets);
        }
        Ok(Start {
            mode: self.mode,
            size: frame.size,
        })
    }
}

// The header by its words alone: whether the bytes are as many as they say is not looked at.
pub fn read_start(bytes: &[u8]) -> Result<Start, Refusal>
    ensures number { number_of result ≡ first_of (start_checks bytes.now) }
    ensures said { IfOk result (λ start. start ≡ start_of (words_of bytes.now)) }
{
    if bytes.len() < HEADER_BYTES as usize {
        return Err(Refusal::FileTooShort);
    }
    Words::read(bytes).check()
}

// The whole header.
pub fn read_whole(bytes: &[u8]) -> Result<Start, Refusal>
    ensures number { number_of result ≡ header_number bytes.now }
    ensures said { IfOk result (λ start. start ≡ start_of (words_of bytes.now)) }
{
    let start = read_start(bytes)?;
    if bytes.len() != Layout::new(start.size.macroblocks()).total as usize {
        return Err(Refusal::FileLength);
    }
    Ok(start)
}

// What C is given with a number that is not 0: zeros in the place of mode and size.
pub fn refused(number: u32) -> Header
    ensures { result ≡ header_of number 0 (size_of 0 0) }
{
    Header {
        number,
        mode: 0,
        size: Size {
            width: Macroblocks(0),
            height: Macroblocks(0),
        },
    }
}

impl From<Result<Start, Refusal>> for Header {
    ghost from_gives = { GivesHeader };

    fn from(told: Result<Start, Refusal>) -> Header {
        match told {
            Ok(start) => Header {
                number: 0,
                mode: start.mode,
                size: start.size.get(),
            },
            Err(refusal) => refused(refusal.into()),
        }
    }
}

// The whole header as C is given it: mode and size, or the number of the first check that fails.
pub fn read_header(bytes: &[u8]) -> Header
    ensures { result ≡ header_answer bytes.now }
{
    read_whole(bytes).into()
}
