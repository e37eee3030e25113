// The forward call: samples to coefficient planes, in the lent planes alone, and whether a sum wrapped.
#![tactic(auto)]

mod told; // told.rt: the levels undone, and whether a sum of them wrapped

ghost use Rattle.std.specs.Prelude.{◌≡◌, ◌*◌, length, IfOk};
ghost use Rattle.picture.specs.Sizes.{macroblocks};
ghost use Rattle.picture.specs.Planes.{Lengths, planes};
ghost use Rattle.picture.specs.Refusals.{number_of};
ghost use Rattle.transform.specs.Transform.{forward_by, forward as planes_of};
ghost use Rattle.transform.specs.Wraps.{forward_wraps};
ghost use Rattle.picture.specs.Numbers.{settled, forward_number};

use crate::told::forward_told;
use forward_one::undo_level_one;
use forward_two::undo_level_two;
use picture::frame::Frame;
use picture::planes::Planes;
use picture::refusals::Refusal;
use picture::size::Size;

// Level two undone, and then level one in DC and low-pass: the whole forward transform on slices of the right lengths, for those who do not ask whether a sum wrapped.
pub fn forward_planes(
    frame: Frame,
    samples: &[i32],
    dc: &mut [i32],
    low: &mut [i32],
    high: &mut [i32],
)
    requires samples_len { length samples.now ≡ 256 * macroblocks frame.size }
    requires lengths { Lengths (macroblocks frame.size) (planes dc.old low.old high.old) }
    ensures { planes dc.new low.new high.new ≡ forward_by frame.mode frame.size samples.now }
{
    let mode = frame.mode;
    let size = frame.size;
    let _ = size.get(); // for the proof: the size is one that a picture may have
    undo_level_two(mode.second, size, samples, dc, low, high);
    undo_level_one(mode.first, size, dc, low);
}

pub fn forward(
    mode: u32,
    size: Size,
    samples: &[i32],
    dc: &mut [i32],
    low: &mut [i32],
    high: &mut [i32],
) -> Result<bool, Refusal>
    ensures number { number_of result ≡ forward_number mode size samples.now (planes dc.old low.old high.old) }
    ensures high_after { planes dc.new low.new high.new ≡
        settled (number_of result) (planes_of mode size samples.now) (planes dc.old low.old high.old) }
    ensures wrapped { IfOk result (λ wrapped. wrapped ≡ forward_wraps mode size samples.now) }
{
    let frame = Frame::new(mode, size)?;
    let n = frame.size.macroblocks();
    if samples.len() != n.numbers(256) {
        return Err(Refusal::SamplesLength);
    }
    Planes { dc, low, high }.check(n)?;
    Ok(forward_told(frame, samples, dc, low, high))
}
