// One try of an index: forward, quantise and restore in place, inverse, and a look at every sample.
#![tactic(auto)]

ghost use Rattle.std.specs.Prelude.{◌≡◌, true, false, ◌*◌, length};
ghost use Rattle.picture.specs.Sizes.{macroblocks};
ghost use Rattle.picture.specs.Planes.{Lengths, planes};
ghost use Rattle.quantise.specs.Quantise.{quantised_planes};
ghost use Rattle.restore.specs.Restore.{restored_planes, any_out_of};
ghost use Rattle.tries.specs.Tries.{all_bands, tried_planes_by, tried_samples_by, passes_by};

use bands::in_place::round_plane;
use differences::all_near;
use forward::forward_planes;
use inverse::inverse_samples;
use picture::frame::Frame;
use picture::planes::Planes;

// Whether a product of any band is outside the signed 32-bit range; where none is, the planes have the products.
fn round_planes(index: u8, dc: &mut [i32], low: &mut [i32], high: &mut [i32]) -> bool
    ensures value { result ≡
        any_out_of (restored_planes (all_bands index) (quantised_planes (all_bands index) (planes dc.old low.old high.old))) }
    ensures high_after { result ≡ false → planes dc.new low.new high.new ≡
        restored_planes (all_bands index) (quantised_planes (all_bands index) (planes dc.old low.old high.old)) }
{
    if round_plane(index, dc) {
        return true;
    }
    if round_plane(index, low) {
        return true;
    }
    round_plane(index, high)
}

// Whether the index passes; where it does, the planes and the second samples are what it gives.
pub fn try_index(
    frame: Frame,
    tolerance: u32,
    index: u8,
    samples: &[i32],
    dc: &mut [i32],
    low: &mut [i32],
    high: &mut [i32],
    second: &mut [i32],
) -> bool
    requires samples_len { length samples.now ≡ 256 * macroblocks frame.size }
    requires lengths { Lengths (macroblocks frame.size) (planes dc.old low.old high.old) }
    requires second_len { length second.old ≡ 256 * macroblocks frame.size }
    ensures value { result ≡ passes_by frame.mode frame.size samples.now tolerance index }
    ensures high_after { result ≡ true → planes dc.new low.new high.new ≡ tried_planes_by frame.mode frame.size samples.now index }
    ensures second_after { result ≡ true → second.new ≡ tried_samples_by frame.mode frame.size samples.now index }
{
    let mode = frame.mode;
    let size = frame.size;
    forward_planes(Frame { mode, size }, samples, dc, low, high);
    if round_planes(index, dc, low, high) {
        return false;
    }
    inverse_samples(Frame { mode, size }, &Planes { dc, low, high }, second);
    all_near(size.macroblocks(), tolerance, samples, second)
}

// Index 0, whose step is 1: it always passes, and quantising and restoring would change nothing.
pub fn take_zero(
    frame: Frame,
    samples: &[i32],
    dc: &mut [i32],
    low: &mut [i32],
    high: &mut [i32],
    second: &mut [i32],
)
    requires samples_len { length samples.now ≡ 256 * macroblocks frame.size }
    requires lengths { Lengths (macroblocks frame.size) (planes dc.old low.old high.old) }
    requires second_len { length second.old ≡ 256 * macroblocks frame.size }
    ensures high_after { planes dc.new low.new high.new ≡ tried_planes_by frame.mode frame.size samples.now 0 }
    ensures second_after { second.new ≡ tried_samples_by frame.mode frame.size samples.now 0 }
{
    let mode = frame.mode;
    let size = frame.size;
    forward_planes(Frame { mode, size }, samples, dc, low, high);
    inverse_samples(Frame { mode, size }, &Planes { dc, low, high }, second);
}
