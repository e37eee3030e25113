// One plane quantised, and one restored, by the step of an index.
ghost use Rattle.std.specs.Prelude.{◌≡◌, false, map, length};
ghost use Rattle.step_sizes.specs.Steps.{step_of};
ghost use Rattle.step_sizes.specs.Levels.{quantised, restored};
ghost use Rattle.bands.specs.Bands.{any_out};

use step_sizes::division::divisor_of;
use step_sizes::number::{limits_of, quantise_number, restore_number};
use step_sizes::table::step;

pub fn quantise_plane(index: u8, plane: &[i32], levels: &mut [i32])
    requires { length plane.now ≡ length levels.old }
    ensures { levels.new ≡ map (quantised (step_of index)) plane.now }
{
    let by = divisor_of(index);
    // The plane is read by its index: of what is written through a `zip` of `iter_mut` a proof would know nothing.
    for (i, level) in levels.iter_mut().enumerate() {
        *level = quantise_number(plane[i], &by);
    }
}

// Whether the product of any level and the step is outside the signed 32-bit range. The walk has no early end, so that it goes by fours.
pub fn any_leaves_range(index: u8, levels: &[i32]) -> bool
    ensures { result ≡ any_out (map (restored (step_of index)) levels.now) }
{
    let limits = limits_of(step(index).get());
    let mut out = false;
    for level in levels {
        out |= limits.exclude(*level);
    }
    out
}

pub fn restore_plane(index: u8, levels: &[i32], plane: &mut [i32])
    requires levels_value { any_out (map (restored (step_of index)) levels.now) ≡ false }
    requires levels_len { length levels.now ≡ length plane.old }
    ensures { plane.new ≡ map (restored (step_of index)) levels.now }
{
    let step = step(index).get();
    for (i, x) in plane.iter_mut().enumerate() {
        *x = restore_number(levels[i], step);
    }
}
