// n, the macroblocks of a picture: at most 525 times 413. Contracts see it as the plain number.
ghost use Rattle.std.specs.Prelude.{◌≡◌, ◌*◌, ◌≤◌};

use std::marker::Model;

#[derive(Clone, Copy)]
pub struct Area {
    macroblocks: u32,
}

impl Model for Area {
    ghost use Rattle.std.specs.Prelude.{ℕ, ◌≤◌};

    ghost Value = { ℕ };

    ghost view = { λ area. area.macroblocks };

    ghost invariant = { λ area. area.macroblocks ≤ 216825 };

    ghost inverse = { λ n. record { macroblocks = n } };
}

impl Area {
    pub fn new(macroblocks: u32) -> Area
        requires { macroblocks ≤ 216825 }
        ensures { result ≡ macroblocks }
    {
        Area { macroblocks }
    }

    pub fn get(self) -> u32
        ensures value { result ≡ self }
        ensures most { self ≤ 216825 }
    {
        self.macroblocks
    }

    // How many numbers there are, `each` of a macroblock.
    pub fn numbers(self, each: usize) -> usize
        requires { each ≤ 1024 }
        ensures value { result ≡ each * self }
        ensures most { self ≤ 216825 }
    {
        each * (self.macroblocks as usize)
    }
}
