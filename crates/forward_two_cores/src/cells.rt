// Where a macroblock's numbers begin in each of the three planes.
ghost use Rattle.std.specs.Prelude.{◌≡◌, ◌+◌, ◌*◌, ◌<◌};
ghost use Rattle.forward_two_cores.specs.Cells.{OfOne};

#[derive(Clone, Copy)]
pub struct Cells {
    pub dc: usize,
    pub low: usize,
    pub high: usize,
    pub ghost of_one: { OfOne dc low high },
}

impl Cells {
    // Those of a picture's first macroblock.
    pub fn first() -> Cells
        ensures { result.dc ≡ 0 }
    {
        Cells {
            dc: 0,
            low: 0,
            high: 0,
        }
    }

    // Those of the macroblock n after this one. Loops over rows carry the cells along by it, as they do the place in the samples.
    pub fn after(self, n: usize) -> Cells
        requires { self.high + 240 * n < 18446744073709551616 }
        ensures { result.dc ≡ self.dc + n }
    {
        Cells {
            dc: self.dc + n,
            low: self.low + 15 * n,
            high: self.high + 240 * n,
        }
    }
}
