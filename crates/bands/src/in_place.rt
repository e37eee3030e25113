// One plane quantised and restored in its own cells.
ghost use Rattle.std.specs.Prelude.{◌≡◌, false, map};
ghost use Rattle.step_sizes.specs.Steps.{step_of};
ghost use Rattle.step_sizes.specs.Levels.{quantised, restored};
ghost use Rattle.bands.specs.Bands.{any_out};

use step_sizes::division::divisor_of;
use step_sizes::nearest::{round_limits, round_number};

// Whether the product of any level and the step is outside the signed 32-bit range; where none is, the plane has the products. The walk has no
// early end, so that it goes by fours.
pub fn round_plane(index: u8, plane: &mut [i32]) -> bool
    ensures value { result ≡ any_out (map (restored (step_of index)) (map (quantised (step_of index)) plane.old)) }
    ensures plane_after { result ≡ false → plane.new ≡ map (restored (step_of index)) (map (quantised (step_of index)) plane.old) }
{
    let by = divisor_of(index);
    let limits = round_limits(by.step);
    let mut out = false;
    for x in plane.iter_mut() {
        out |= limits.exclude(*x);
        *x = round_number(*x, &by);
    }
    out
}
