// The call that restores: planes of levels to coefficient planes.
#![tactic(auto)]

ghost use Rattle.std.specs.Prelude.{◌≡◌, false};
ghost use Rattle.picture.specs.Planes.{planes};
ghost use Rattle.picture.specs.Refusals.{number_of};
ghost use Rattle.picture.specs.Numbers.{settled};
ghost use Rattle.bands.specs.Bands.{SameLengths};
ghost use Rattle.restore.specs.Restore.{restored_planes, any_out_of, restore_number};

use bands::plane::{any_leaves_range, restore_plane};
use bands::steps::{Indices, Steps, check_call};
use picture::planes::Planes;
use picture::refusals::Refusal;
use picture::size::Size;

// Whether a product of any band is outside the signed 32-bit range.
#[tactic(auto, unfolding(crate::specs::Restore::restored_planes))]
pub fn products_leave_range(steps: Indices, levels: &Planes) -> bool
    ensures { result ≡ any_out_of (restored_planes steps levels.now) }
{
    any_leaves_range(steps.dc, levels.dc)
        || any_leaves_range(steps.low, levels.low)
        || any_leaves_range(steps.high, levels.high)
}

// Each band by its own step, on slices of the right lengths, where every product is in the range.
#[tactic(auto, unfolding(crate::specs::Restore::restored_planes))]
pub fn restore_planes(
    steps: Indices,
    levels: &Planes,
    dc: &mut [i32],
    low: &mut [i32],
    high: &mut [i32],
)
    requires levels_value { any_out_of (restored_planes steps levels.now) ≡ false }
    requires same_lengths { SameLengths levels.now (planes dc.old low.old high.old) }
    ensures { planes dc.new low.new high.new ≡ restored_planes steps levels.now }
{
    restore_plane(steps.dc, levels.dc, dc);
    restore_plane(steps.low, levels.low, low);
    restore_plane(steps.high, levels.high, high);
}

#[tactic(auto, unfolding(crate::specs::Restore::restore_number))]
pub fn restore(
    mode: u32,
    size: Size,
    steps: Steps,
    levels: &Planes,
    dc: &mut [i32],
    low: &mut [i32],
    high: &mut [i32],
) -> Result<(), Refusal>
    ensures number { number_of result ≡ restore_number mode size steps levels.now (planes dc.old low.old high.old) }
    ensures high_after { planes dc.new low.new high.new ≡
        settled (number_of result) (restored_planes steps levels.now) (planes dc.old low.old high.old) }
{
    let written = Planes { dc, low, high };
    let indices = check_call(mode, size, steps, levels, &written)?;
    if products_leave_range(indices, levels) {
        return Err(Refusal::Product);
    }
    restore_planes(indices, levels, dc, low, high);
    Ok(())
}
