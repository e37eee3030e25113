// From planes to samples: the inverse transform, and its quarter view. Both tell whether a sum wrapped.
#![tactic(auto)]

mod told; // told.rt: the levels, and whether a sum of them wrapped

ghost use Rattle.std.specs.Prelude.{◌≡◌, ◌*◌, length, IfOk};
ghost use Rattle.picture.specs.Sizes.{macroblocks};
ghost use Rattle.picture.specs.Planes.{Lengths};
ghost use Rattle.picture.specs.Refusals.{number_of};
ghost use Rattle.transform.specs.Transform.{inverse_by, quarter, inverse as samples_of};
ghost use Rattle.transform.specs.Wraps.{quarter_wraps, inverse_wraps};
ghost use Rattle.picture.specs.Numbers.{settled, inverse_number, quarter_number};

use crate::told::{inverse_told, level_one_told};
use inverse_one::level_one;
use inverse_two::level_two;
use picture::frame::Frame;
use picture::planes::{Planes, check_low};
use picture::refusals::Refusal;
use picture::size::Size;

// Both levels, the first in the front of the samples: the whole inverse on slices of the right lengths, for those who do not ask whether a sum wrapped.
pub fn inverse_samples(frame: Frame, planes: &Planes, samples: &mut [i32])
    requires lengths { Lengths (macroblocks frame.size) planes.now }
    requires samples_len { length samples.old ≡ 256 * macroblocks frame.size }
    ensures { samples.new ≡ inverse_by frame.mode frame.size planes.now }
{
    let mode = frame.mode;
    let size = frame.size;
    let front = size.macroblocks().numbers(16);
    level_one(
        &mut samples[..front],
        mode.first,
        size,
        planes.dc,
        planes.low,
    );
    level_two(samples, mode.second, size, planes.high);
}

pub fn inverse(mode: u32, size: Size, planes: &Planes, samples: &mut [i32]) -> Result<bool, Refusal>
    ensures number { number_of result ≡ inverse_number mode size planes.now samples.old }
    ensures samples_after { samples.new ≡ settled (number_of result) (samples_of mode size planes.now) samples.old }
    ensures wrapped { IfOk result (λ wrapped. wrapped ≡ inverse_wraps mode size planes.now) }
{
    let frame = Frame::new(mode, size)?;
    let n = frame.size.macroblocks();
    planes.check(n)?;
    if samples.len() != n.numbers(256) {
        return Err(Refusal::SamplesLength);
    }
    Ok(inverse_told(frame, planes, samples))
}

pub fn quarter_view(
    mode: u32,
    size: Size,
    dc: &[i32],
    low: &[i32],
    view: &mut [i32],
) -> Result<bool, Refusal>
    ensures number { number_of result ≡ quarter_number mode size dc.now low.now view.old }
    ensures view_after { view.new ≡ settled (number_of result) (quarter mode size dc.now low.now) view.old }
    ensures wrapped { IfOk result (λ wrapped. wrapped ≡ quarter_wraps mode size dc.now low.now) }
{
    let frame = Frame::new(mode, size)?;
    let n = frame.size.macroblocks();
    check_low(n, dc, low)?;
    if view.len() != n.numbers(16) {
        return Err(Refusal::ViewLength);
    }
    Ok(level_one_told(view, frame.mode.first, frame.size, dc, low))
}
