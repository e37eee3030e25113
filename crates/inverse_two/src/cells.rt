// Where a part of the picture begins: its first sample, its first number from level one, and its first high-pass number.
ghost use Rattle.std.specs.Prelude.{◌≡◌, ◌+◌, ◌^◌, ◌<◌};

#[derive(Clone, Copy)]
pub struct Cells {
    pub samples: usize,
    pub numbers: usize,
    pub high: usize,
}

impl Cells {
    // So many samples, numbers from level one and high-pass numbers on.
    pub fn after(self, samples: usize, numbers: usize, high: usize) -> Cells
        requires samples_fit { self.samples + samples < 2 ^ 64 }
        requires numbers_fit { self.numbers + numbers < 2 ^ 64 }
        requires high_fit { self.high + high < 2 ^ 64 }
        ensures samples_after { result.samples ≡ self.samples + samples }
        ensures numbers_after { result.numbers ≡ self.numbers + numbers }
        ensures high_after { result.high ≡ self.high + high }
    {
        Cells {
            samples: self.samples + samples,
            numbers: self.numbers + numbers,
            high: self.high + high,
        }
    }
}
