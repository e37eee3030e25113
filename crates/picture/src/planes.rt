// The three planes of a picture, lent to be read, and the checks of their lengths. Contracts see them as lists of numbers.
ghost use Rattle.std.specs.Prelude.{◌≡◌};
ghost use Rattle.picture.specs.Refusals.{number_of};
ghost use Rattle.picture.specs.Numbers.{first_of, low_checks, plane_checks};

use crate::area::Area;
use crate::refusals::Refusal;
use std::marker::Model;

#[derive(Drop)]
pub struct Planes<'a> {
    pub dc: &'a [i32],
    pub low: &'a [i32],
    pub high: &'a [i32],
}

impl<'a> Model for Planes<'a> {
    ghost use Rattle.picture.specs.Planes.{Planes, planes};

    ghost Value = { Planes };

    ghost view = { λ lent. planes lent.dc.now lent.low.now lent.high.now };
}

// The lengths of a DC and a low-pass plane of n macroblocks.
pub fn check_low(n: Area, dc: &[i32], low: &[i32]) -> Result<(), Refusal>
    ensures { number_of result ≡ first_of (low_checks n dc.now low.now) }
{
    if dc.len() != n.numbers(1) {
        return Err(Refusal::DcLength);
    }
    if low.len() != n.numbers(15) {
        return Err(Refusal::LowPassLength);
    }
    Ok(())
}

impl<'a> Planes<'a> {
    // The lengths of the planes of n macroblocks.
    pub fn check(&self, n: Area) -> Result<(), Refusal>
        ensures { number_of result ≡ first_of (plane_checks n self.now) }
    {
        check_low(n, self.dc, self.low)?;
        if self.high.len() != n.numbers(240) {
            return Err(Refusal::HighPassLength);
        }
        Ok(())
    }
}
