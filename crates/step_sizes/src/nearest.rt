// One coefficient quantised and restored at once, which rounds it to the nearest multiple of the step.
ghost use Rattle.std.specs.Prelude.{◌≡◌, ◌+◌, ◌-◌, ◌*◌, ◌/◌, ◌%◌, ◌≤◌};
ghost use Rattle.lifting.specs.Wrap.{wrap};
ghost use Rattle.step_sizes.specs.Levels.{quantised, restored};
ghost use Rattle.step_sizes.specs.Parts.{RoundLimits};

use crate::division::{Divisor, divide};
use crate::number::{Limits, with_sign};
use crate::table::StepSize;

// The greatest multiple of the step up to n. It is made as half of a product with twice the step: of a product that is not asked for its upper half
// the compiler makes one of 32 bits, which takes a processor longer where it works on four numbers at once.
fn multiple(n: u32, by: &Divisor) -> u32
    requires { n ≤ 2147483648 + by.now.step / 2 }
    ensures { result ≡ n / by.now.step * by.now.step }
{
    let twice = 2 * by.step.get();
    (((divide(n, by) as u64) * (twice as u64)) >> 1) as u32
}

// The product of a coefficient's level and the step, reduced into the signed 32-bit range.
pub fn round_number(x: i32, by: &Divisor) -> i32
    ensures { result ≡ wrap (restored by.now.step (quantised by.now.step x)) }
{
    with_sign(x, multiple(x.unsigned_abs() + by.step.get() / 2, by))
}

// How far below a bound the magnitudes end whose nearest multiple of the step is not above the bound.
fn excess(bound: u32, step: StepSize) -> u32
    ensures { result ≡ bound % step - (step - 1 - step / 2) }
{
    let step = step.get();
    (bound % step).saturating_sub(step - 1 - step / 2)
}

// The coefficients whose level has a product with the step in the signed 32-bit range.
pub fn round_limits(step: StepSize) -> Limits
    ensures { RoundLimits step result }
{
    let below = excess(2147483648, step);
    let above = excess(2147483647, step);
    Limits {
        least: i32::MIN + below as i32,
        most: i32::MAX - above as i32,
    }
}
