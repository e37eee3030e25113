// The call that quantises: coefficient planes to planes of levels.
#![tactic(auto)]

ghost use Rattle.std.specs.Prelude.{◌≡◌};
ghost use Rattle.picture.specs.Planes.{planes};
ghost use Rattle.picture.specs.Refusals.{number_of};
ghost use Rattle.picture.specs.Numbers.{settled};
ghost use Rattle.bands.specs.Bands.{SameLengths};
ghost use Rattle.quantise.specs.Quantise.{quantised_planes, quantise_number};

use bands::plane::quantise_plane;
use bands::steps::{Indices, Steps, check_call};
use picture::planes::Planes;
use picture::refusals::Refusal;
use picture::size::Size;

// Each band by its own step, on slices of the right lengths.
#[tactic(auto, unfolding(crate::specs::Quantise::quantised_planes))]
pub fn quantise_planes(
    steps: Indices,
    read: &Planes,
    dc_levels: &mut [i32],
    low_levels: &mut [i32],
    high_levels: &mut [i32],
)
    requires { SameLengths read.now (planes dc_levels.old low_levels.old high_levels.old) }
    ensures { planes dc_levels.new low_levels.new high_levels.new ≡ quantised_planes steps read.now }
{
    quantise_plane(steps.dc, read.dc, dc_levels);
    quantise_plane(steps.low, read.low, low_levels);
    quantise_plane(steps.high, read.high, high_levels);
}

#[tactic(auto, unfolding(crate::specs::Quantise::quantise_number))]
pub fn quantise(
    mode: u32,
    size: Size,
    steps: Steps,
    read: &Planes,
    dc_levels: &mut [i32],
    low_levels: &mut [i32],
    high_levels: &mut [i32],
) -> Result<(), Refusal>
    ensures number { number_of result ≡ quantise_number mode size steps read.now
        (planes dc_levels.old low_levels.old high_levels.old) }
    ensures high_levels_after { planes dc_levels.new low_levels.new high_levels.new ≡
        settled (number_of result) (quantised_planes steps read.now)
        (planes dc_levels.old low_levels.old high_levels.old) }
{
    let written = Planes {
        dc: dc_levels,
        low: low_levels,
        high: high_levels,
    };
    let indices = check_call(mode, size, steps, read, &written)?;
    quantise_planes(indices, read, dc_levels, low_levels, high_levels);
    Ok(())
}
