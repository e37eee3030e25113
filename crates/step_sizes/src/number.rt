// One coefficient quantised, and one level restored.
ghost use Rattle.std.specs.Prelude.{◌≡◌, false, ◌||◌, ◌≤◌, ◌<◌};
ghost use Rattle.step_sizes.specs.Steps.{largest_step};
ghost use Rattle.std.specs.Int.Signed.{lt_z};
ghost use Rattle.lifting.specs.Wrap.{wrap};
ghost use Rattle.step_sizes.specs.Levels.{signed, quantised, restored, is_out_of_range};
ghost use Rattle.step_sizes.specs.Parts.{LimitsOf};

use crate::division::{Divisor, divide};

// The sign of x with another magnitude, reduced into the signed 32-bit range.
pub(crate) fn with_sign(x: i32, magnitude: u32) -> i32
    ensures { result ≡ wrap (signed x magnitude) }
{
    let value = magnitude.cast_signed();
    if x < 0 { value.wrapping_neg() } else { value }
}

pub fn quantise_number(x: i32, by: &Divisor) -> i32
    ensures { result ≡ quantised by.now.step x }
{
    with_sign(x, divide(x.unsigned_abs() + by.step.get() / 2, by))
}

// The least and the greatest number of a range.
#[derive(Clone, Copy)]
pub struct Limits {
    pub least: i32,
    pub most: i32,
}

impl Limits {
    // Whether x is outside. Both ends are looked at, so that walks go by fours.
    pub fn exclude(self, x: i32) -> bool
        ensures { result ≡ (lt_z x self.least || lt_z self.most x) }
    {
        (x < self.least) | (self.most < x)
    }
}

// The levels whose product with the step is in the signed 32-bit range.
pub fn limits_of(step: u32) -> Limits
    requires { 0 < step }
    ensures { LimitsOf step result }
{
    Limits {
        least: with_sign(-1, 2147483648 / step),
        most: (2147483647 / step) as i32,
    }
}

pub fn restore_number(level: i32, step: u32) -> i32
    requires step_le_largest_step { step ≤ largest_step }
    requires level_value { is_out_of_range (restored step level) ≡ false }
    ensures { result ≡ restored step level }
{
    level * (step as i32)
}
