// Inverse, forward, quarter view and forecast, as they are used.
ghost use Rattle.std.specs.Prelude.{◌≡◌, false, ◌*◌, length};
ghost use Rattle.picture.specs.Planes.{planes};
ghost use Rattle.transform.specs.Transform.{inverse as samples_of, quarter, forward as planes_of};
ghost use Rattle.transform.specs.Wraps.{inverse_wraps, quarter_wraps, forward_wraps};
ghost use Rattle.clients.specs.Right.{Right, Room, count};
ghost use Rattle.clients.specs.Faults.{InverseFaults, QuarterFaults, ForwardFaults, ForecastFaults};
ghost use Rattle.clients.specs.Work.{Forecast, NoForecast};

use crate::ranges::in_range;
use forecast::Work;
use lapped::{lapped_forecast, lapped_forward, lapped_inverse, lapped_quarter};
use picture::answer::Answer;
use picture::size::Size;

// Inverse gives the samples of the planes and says whether a sum wrapped, or leaves the samples as they were and says no.
pub fn client_inverse(
    mode: u32,
    size: Size,
    dc: &[i32],
    low: &[i32],
    high: &[i32],
    samples: &mut [i32],
) -> Answer
    ensures number { InverseFaults mode size (planes dc.now low.now high.now) samples.old result.number }
    ensures done { result.number ≡ 0 → (samples.new ≡ samples_of mode size (planes dc.now low.now high.now))
        × (result.wrapped ≡ inverse_wraps mode size (planes dc.now low.now high.now)) }
    ensures refused { (result.number ≡ 0 → ⊥) → (samples.new ≡ samples.old) × (result.wrapped ≡ false) }
{
    lapped_inverse(mode, size, dc, low, high, samples)
}

// The quarter view gives the grid after level one, in the same way.
pub fn client_quarter(mode: u32, size: Size, dc: &[i32], low: &[i32], view: &mut [i32]) -> Answer
    ensures number { QuarterFaults mode size dc.now low.now view.old result.number }
    ensures done { result.number ≡ 0 → (view.new ≡ quarter mode size dc.now low.now)
        × (result.wrapped ≡ quarter_wraps mode size dc.now low.now) }
    ensures refused { (result.number ≡ 0 → ⊥) → (view.new ≡ view.old) × (result.wrapped ≡ false) }
{
    lapped_quarter(mode, size, dc, low, view)
}

// Forward gives the planes of the samples, in the same way.
pub fn client_forward(
    mode: u32,
    size: Size,
    samples: &[i32],
    dc: &mut [i32],
    low: &mut [i32],
    high: &mut [i32],
) -> Answer
    ensures number { ForwardFaults mode size samples.now (planes dc.old low.old high.old) result.number }
    ensures done { result.number ≡ 0 → (planes dc.new low.new high.new ≡ planes_of mode size samples.now)
        × (result.wrapped ≡ forward_wraps mode size samples.now) }
    ensures refused { (result.number ≡ 0 → ⊥)
        → (planes dc.new low.new high.new ≡ planes dc.old low.old high.old) × (result.wrapped ≡ false) }
{
    lapped_forward(mode, size, samples, dc, low, high)
}

// A forecast counts what the inverse will use, and its bytes, or has zeros.
pub fn client_forecast(mode: u32, size: Size) -> Work
    ensures number { ForecastFaults mode size result.number }
    ensures done { result.number ≡ 0 → Forecast mode size result }
    ensures refused { (result.number ≡ 0 → ⊥) → NoForecast result }
{
    lapped_forecast(mode, size)
}

// The planes that an inverse was made of come back by forward.
pub fn client_there_and_back(
    mode: u32,
    size: Size,
    dc: &[i32],
    low: &[i32],
    high: &[i32],
    samples: &mut [i32],
    dc_again: &mut [i32],
    low_again: &mut [i32],
    high_again: &mut [i32],
) -> Answer
    ensures { Right mode size
        → Room (count size) (planes dc.now low.now high.now)
        → Room (count size) (planes dc_again.old low_again.old high_again.old)
        → length samples.old ≡ 256 * count size
        → (result.number ≡ 0)
        × (planes dc_again.new low_again.new high_again.new ≡ planes dc.now low.now high.now)
        × (result.wrapped ≡ inverse_wraps mode size (planes dc.now low.now high.now)) }
{
    in_range(dc);
    in_range(low);
    in_range(high);
    let there = lapped_inverse(mode, size, dc, low, high, samples);
    if there.number != 0 {
        return there;
    }
    lapped_forward(mode, size, samples, dc_again, low_again, high_again)
}
