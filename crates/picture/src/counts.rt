// Counts that carry their unit: macroblocks, blocks and samples along one direction. A macroblock is 4 blocks across and a block 4 samples, so the
// conversions by 4 are those of a direction.
ghost use Rattle.std.specs.Prelude.{◌≡◌, ◌*◌, ◌≤◌};

#[repr(C)]
#[derive(Clone, Copy)]
pub struct Macroblocks(pub u32);

#[derive(Clone, Copy)]
pub struct Blocks(pub u32);

#[derive(Clone, Copy)]
pub struct Samples(pub u32);

impl Macroblocks {
    pub fn blocks(self) -> Blocks
        requires { self.0 ≤ 268435455 }
        ensures { result.0 ≡ 4 * self.0 }
    {
        Blocks(4 * self.0)
    }
}

impl Blocks {
    pub fn samples(self) -> Samples
        requires { self.0 ≤ 1073741823 }
        ensures { result.0 ≡ 4 * self.0 }
    {
        Samples(4 * self.0)
    }
}
