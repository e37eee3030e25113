// The step indices of the three bands, and the checks that quantising and restoring share.
ghost use Rattle.std.specs.Prelude.{◌≡◌, ◌++◌, IfOk, OnOk};
ghost use Rattle.picture.specs.Sizes.{macroblocks};
ghost use Rattle.picture.specs.Refusals.{number_of};
ghost use Rattle.picture.specs.Numbers.{first_of, shape_checks};
ghost use Rattle.bands.specs.Bands.{SameLengths};
ghost use Rattle.bands.specs.Numbers.{GivesIndices, band_checks};

use picture::area::Area;
use picture::frame::Frame;
use picture::planes::Planes;
use picture::refusals::Refusal;
use picture::size::Size;
use std::marker::Model;

// Step indices as anyone may fill them in.
#[repr(C)]
#[derive(Clone, Copy)]
pub struct Steps {
    pub dc: u32,
    pub low: u32,
    pub high: u32,
}

// Step indices of the table. Contracts see them as the plain ones.
#[derive(Clone, Copy)]
pub struct Indices {
    pub dc: u8,
    pub low: u8,
    pub high: u8,
}

impl Model for Indices {
    ghost use Rattle.bands.specs.declared.steps.Steps.{Steps};

    ghost Value = { Steps };

    ghost view = { λ indices. record { dc = indices.dc; low = indices.low; high = indices.high } };

    ghost inverse = { λ steps. record { dc = steps.dc; low = steps.low; high = steps.high } };
}

impl TryFrom<Steps> for Indices {
    type Error = Refusal;

    ghost try_from_gives = { GivesIndices };

    fn try_from(steps: Steps) -> Result<Indices, Refusal> {
        match (
            u8::try_from(steps.dc),
            u8::try_from(steps.low),
            u8::try_from(steps.high),
        ) {
            (Ok(dc), Ok(low), Ok(high)) => Ok(Indices { dc, low, high }),
            _ => Err(Refusal::StepIndex),
        }
    }
}

// The step indices, once they and the lengths of the planes read and of those written are checked, for n macroblocks.
pub fn check_bands(
    n: Area,
    steps: Steps,
    read: &Planes,
    written: &Planes,
) -> Result<Indices, Refusal>
    ensures number { number_of result ≡ first_of (band_checks n steps read.now written.now) }
    ensures same { IfOk result (λ indices. indices ≡ steps) }
    ensures alike { OnOk result (SameLengths read.now written.now) }
{
    let indices = Indices::try_from(steps)?;
    read.check(n)?;
    written.check(n)?;
    Ok(indices)
}

// The same behind the checks of mode and size: all that quantising and restoring share.
pub fn check_call(
    mode: u32,
    size: Size,
    steps: Steps,
    read: &Planes,
    written: &Planes,
) -> Result<Indices, Refusal>
    ensures number { number_of result ≡
        first_of (shape_checks mode size ++ band_checks (macroblocks size) steps read.now written.now) }
    ensures same { IfOk result (λ indices. indices ≡ steps) }
    ensures alike { OnOk result (SameLengths read.now written.now) }
{
    let frame = Frame::new(mode, size)?;
    check_bands(frame.size.macroblocks(), steps, read, written)
}
