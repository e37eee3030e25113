// Division by a step as a multiplication and a shift, which a processor does to four numbers at once.
ghost use Rattle.std.specs.Prelude.{◌≡◌, ◌+◌, ◌/◌, ◌≤◌};
ghost use Rattle.step_sizes.specs.Steps.{step_of};
ghost use Rattle.step_sizes.specs.Reciprocal.{Divides};

use crate::table::{StepSize, step};

#[derive(Clone, Copy)]
pub struct Divisor {
    pub step: StepSize,
    pub multiplier: u32,
    pub shift: u32,
    pub ghost divides: { Divides step multiplier shift },
}

// The multiplier is 2^shift / step, rounded up. The shift is 31 and the bits of step - 1: with fewer, some quotient would be one too large,
// and with more the multiplier would not fit 32 bits.
pub fn divisor_of(index: u8) -> Divisor
    ensures { result.step ≡ step_of index }
{
    let step = step(index);
    let size = step.get();
    let shift = 63 - (size - 1).leading_zeros();
    let multiplier = (1u64 << shift).div_ceil(size as u64) as u32;
    Divisor {
        step,
        multiplier,
        shift,
    }
}

// n divided by the step, for a magnitude of 32 bits and half a step more.
pub fn divide(n: u32, by: &Divisor) -> u32
    requires { n ≤ 2147483648 + by.now.step / 2 }
    ensures { result ≡ n / by.now.step }
{
    (((n as u64) * (by.multiplier as u64)) >> by.shift) as u32
}
