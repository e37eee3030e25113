// A macroblock of a picture: its row and column, the place of its first sample, and what the strip takes of its row.
ghost use Rattle.std.specs.Prelude.{◌≡◌, ◌+◌, ◌*◌, ◌<◌};
ghost use Rattle.picture.specs.Sizes.{Sized};
ghost use Rattle.forward_two_edges.specs.Rows.{Top, Bottom};

use picture::picture_size::PictureSize;

#[derive(Drop)]
pub struct Macroblock {
    pub size: PictureSize,
    pub r: usize,
    pub c: usize,
    pub at: usize,
    // The first row of the strip that no row of macroblocks above has made, and the windows down.
    pub first: usize,
    pub down: usize,
    pub ghost sized: { Sized size },
    pub ghost below: { r < size.height.0 },
    pub ghost beside: { c < size.width.0 },
    pub ghost place: { at ≡ r * (256 * size.width.0) + 16 * c },
    pub ghost top: { Top r first },
    pub ghost bottom: { Bottom r size.height.0 down },
}

impl Macroblock {
    // The first of row r, which begins at place `at` of the samples.
    pub fn first_of(size: PictureSize, r: usize, at: usize) -> Macroblock
        requires below { r < size.height.0 }
        requires place { at ≡ r * (256 * size.width.0) }
        ensures size { result.size ≡ size }
        ensures r { result.r ≡ r }
        ensures c { result.c ≡ 0 }
    {
        let height = size.blocks().height.0 as usize;
        Macroblock {
            size,
            r,
            c: 0,
            at,
            first: if r == 0 { 0 } else { 2 },
            down: if 4 * r + 4 == height { 3 } else { 4 },
        }
    }

    // The macroblocks of a row of the picture, and its samples.
    pub fn columns(&self) -> usize
        ensures { result ≡ self.now.size.width.0 }
    {
        self.size.across()
    }

    pub fn row_samples(&self) -> usize
        ensures { result ≡ 16 * self.now.size.width.0 }
    {
        self.size.samples().width.0 as usize
    }

    // The one c columns after it.
    pub fn after(&self, c: usize) -> Macroblock
        requires { self.now.c + c < self.now.size.width.0 }
        ensures size { result.size ≡ self.now.size }
        ensures r { result.r ≡ self.now.r }
        ensures c { result.c ≡ self.now.c + c }
        ensures first { result.first ≡ self.now.first }
        ensures down { result.down ≡ self.now.down }
    {
        Macroblock {
            size: self.size,
            r: self.r,
            c: self.c + c,
            at: self.at + 16 * c,
            first: self.first,
            down: self.down,
        }
    }
}
