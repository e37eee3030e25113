// The call that finds a step: one index for all bands that leaves every sample within a tolerance.
#![tactic(auto)]

pub mod found; // found.rt: what C is given

ghost use Rattle.std.specs.Prelude.{◌≡◌, ◌*◌, length, IfOk};
ghost use Rattle.picture.specs.Sizes.{macroblocks};
ghost use Rattle.picture.specs.Planes.{Lengths, planes};
ghost use Rattle.picture.specs.Refusals.{number_of};
ghost use Rattle.picture.specs.Numbers.{first_of, settled};
ghost use Rattle.tries.specs.Tries.{tried_planes_by, tried_samples_by, passes_by, tried_planes, tried_samples, passes};
ghost use Rattle.find_step.specs.FindStep.{Answer, index_in, length_checks, find_number};

use picture::area::Area;
use picture::frame::Frame;
use picture::planes::Planes;
use picture::refusals::Refusal;
use picture::size::Size;
use tries::{take_zero, try_index};

// From 255 downward to the first index that passes; index 0, which always does, where none from 2 on did.
fn find_index(
    frame: Frame,
    tolerance: u32,
    samples: &[i32],
    dc: &mut [i32],
    low: &mut [i32],
    high: &mut [i32],
    second: &mut [i32],
) -> u8
    requires samples_len { length samples.now ≡ 256 * macroblocks frame.size }
    requires lengths { Lengths (macroblocks frame.size) (planes dc.old low.old high.old) }
    requires second_len { length second.old ≡ 256 * macroblocks frame.size }
    ensures answer { Answer (passes_by frame.mode frame.size samples.now tolerance) result }
    ensures high_after { planes dc.new low.new high.new ≡ tried_planes_by frame.mode frame.size samples.now result }
    ensures second_after { second.new ≡ tried_samples_by frame.mode frame.size samples.now result }
{
    let mode = frame.mode;
    let size = frame.size;
    for index in (2..=255u8).rev() {
        let frame = Frame { mode, size };
        if try_index(frame, tolerance, index, samples, dc, low, high, second) {
            return index;
        }
    }
    take_zero(Frame { mode, size }, samples, dc, low, high, second);
    0
}

// The lengths of both samples, and of the planes.
fn check_lengths(n: Area, samples: &[i32], second: &[i32], lent: &Planes) -> Result<(), Refusal>
    ensures { number_of result ≡ first_of (length_checks n samples.now second.now lent.now) }
{
    if samples.len() != n.numbers(256) {
        return Err(Refusal::SamplesLength);
    }
    if second.len() != n.numbers(256) {
        return Err(Refusal::SamplesLength);
    }
    lent.check(n)
}

#[tactic(auto, unfolding(crate::specs::FindStep::find_number))]
pub fn find_step(
    mode: u32,
    size: Size,
    tolerance: u32,
    samples: &[i32],
    dc: &mut [i32],
    low: &mut [i32],
    high: &mut [i32],
    second: &mut [i32],
) -> Result<u8, Refusal>
    ensures number { number_of result ≡ find_number mode size samples.now second.old (planes dc.old low.old high.old) }
    ensures index { IfOk result (Answer (passes mode size samples.now tolerance)) }
    ensures high_after { planes dc.new low.new high.new ≡
        settled (number_of result) (tried_planes mode size samples.now (index_in result)) (planes dc.old low.old high.old) }
    ensures second_after { second.new ≡
        settled (number_of result) (tried_samples mode size samples.now (index_in result)) second.old }
{
    let frame = Frame::new(mode, size)?;
    check_lengths(
        frame.size.macroblocks(),
        samples,
        second,
        &Planes { dc, low, high },
    )?;
    Ok(find_index(frame, tolerance, samples, dc, low, high, second))
}
