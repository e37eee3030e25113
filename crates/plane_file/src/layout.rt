// The layout of a plane file: the header's length, where each plane starts, and the file's length, in bytes.
ghost use Rattle.std.specs.Prelude.{◌≡◌};
ghost use Rattle.plane_file.specs.Header.{layout_of};

use picture::area::Area;

pub const HEADER_WORDS: usize = 8;

// The DC plane starts where the header ends.
pub const HEADER_BYTES: u32 = 4 * HEADER_WORDS as u32;

#[derive(Clone, Copy, PartialEq, Eq)]
pub struct Layout {
    pub dc: u32,
    pub low: u32,
    pub high: u32,
    pub total: u32,
}

impl Layout {
    // That of a picture of n macroblocks, each number of which takes four bytes.
    pub fn new(n: Area) -> Layout
        ensures { result ≡ layout_of n }
    {
        let n = n.get();
        Layout {
            dc: HEADER_BYTES,
            low: HEADER_BYTES + 4 * n,
            high: HEADER_BYTES + 64 * n,
            total: HEADER_BYTES + 1024 * n,
        }
    }
}
