// A place of the picture, in the samples and in the strip.
ghost use Rattle.std.specs.Prelude.{◌≡◌, ◌+◌, ◌*◌, ◌<◌};

#[derive(Clone, Copy)]
pub struct Place {
    pub samples: usize,
    pub strip: usize,
}

impl Place {
    // The place n rows below, where a row has w samples. Loops over rows carry a place along by it, so that no row number is multiplied by the width.
    pub fn below(self, n: usize, w: usize) -> Place
        requires w_bound { self.samples + n * w < 18446744073709551616 }
        requires n_bound { self.strip + 72 * n < 18446744073709551616 }
        ensures { (result.samples ≡ self.samples + n * w) × (result.strip ≡ self.strip + 72 * n) }
    {
        Place {
            samples: self.samples + n * w,
            strip: self.strip + 72 * n,
        }
    }
}
