// Steps, quantise, restore and the step finder, as they are used.
ghost use Rattle.std.specs.Prelude.{◌≡◌, ℕ, ◌+◌, ◌-◌, ◌*◌, ◌/◌, ◌%◌, ◌^◌, ◌<◌, ◌≤◌, nat_abs, ◌-ℤ◌, false, ◌⊎◌};
ghost use Rattle.lifting.specs.Program.{at};
ghost use Rattle.picture.specs.Planes.{planes};
ghost use Rattle.transform.specs.Transform.{inverse as samples_of, forward as planes_of};
ghost use Rattle.quantise.specs.Quantise.{quantised_planes};
ghost use Rattle.restore.specs.Restore.{restored_planes};
ghost use Rattle.tries.specs.Tries.{all_bands, passes};
ghost use Rattle.step_sizes.specs.Steps.{step_of};
ghost use Rattle.clients.specs.Right.{Right, Indices, Room, count};
ghost use Rattle.clients.specs.Faults.{QuantiseFaults, RestoreFaults, FindFaults};

use crate::ranges::in_range;
use bands::steps::Steps;
use find_step::found::Found;
use lapped::{lapped_find_step, lapped_quantise, lapped_restore, lapped_step};
use picture::size::Size;

// A step by its index: 1, the index itself, or 16 to 31 doubled; 0 for an index above 255.
pub fn client_step(index: u32) -> u32
    ensures zero { index ≡ 0 → result ≡ 1 }
    ensures small { 1 ≤ index → index ≤ 15 → result ≡ index }
    ensures large { 16 ≤ index → index ≤ 255 → result ≡ (16 + index % 16) * 2 ^ (index / 16 - 1) }
    ensures none { 255 < index → result ≡ 0 }
{
    lapped_step(index)
}

// Quantise gives the levels of the planes, each band by its own index, or leaves the planes lent for them as they were.
pub fn client_quantise(
    mode: u32,
    size: Size,
    steps: Steps,
    dc: &[i32],
    low: &[i32],
    high: &[i32],
    dc_levels: &mut [i32],
    low_levels: &mut [i32],
    high_levels: &mut [i32],
) -> u32
    ensures number { QuantiseFaults mode size steps (planes dc.now low.now high.now)
        (planes dc_levels.old low_levels.old high_levels.old) result }
    ensures done { result ≡ 0 → (planes dc_levels.new low_levels.new high_levels.new) ≡
        quantised_planes steps (planes dc.now low.now high.now) }
    ensures refused { (result ≡ 0 → ⊥) → (planes dc_levels.new low_levels.new high_levels.new) ≡
        (planes dc_levels.old low_levels.old high_levels.old) }
{
    lapped_quantise(
        mode,
        size,
        steps,
        dc,
        low,
        high,
        dc_levels,
        low_levels,
        high_levels,
    )
}

// Restore gives the coefficients of the levels, in the same way.
pub fn client_restore(
    mode: u32,
    size: Size,
    steps: Steps,
    dc_levels: &[i32],
    low_levels: &[i32],
    high_levels: &[i32],
    dc: &mut [i32],
    low: &mut [i32],
    high: &mut [i32],
) -> u32
    ensures number { RestoreFaults mode size steps (planes dc_levels.now low_levels.now high_levels.now)
        (planes dc.old low.old high.old) result }
    ensures done { result ≡ 0 → (planes dc.new low.new high.new) ≡
        restored_planes steps (planes dc_levels.now low_levels.now high_levels.now) }
    ensures refused { (result ≡ 0 → ⊥) → (planes dc.new low.new high.new) ≡
        (planes dc.old low.old high.old) }
{
    lapped_restore(
        mode,
        size,
        steps,
        dc_levels,
        low_levels,
        high_levels,
        dc,
        low,
        high,
    )
}

// What was quantised is restored to within half a step of each band, or a product leaves the range.
pub fn client_quantise_and_restore(
    mode: u32,
    size: Size,
    steps: Steps,
    dc: &mut [i32],
    low: &mut [i32],
    high: &mut [i32],
    dc_levels: &mut [i32],
    low_levels: &mut [i32],
    high_levels: &mut [i32],
) -> u32
    ensures number { Right mode size → Indices steps
        → Room (count size) (planes dc.old low.old high.old)
        → Room (count size) (planes dc_levels.old low_levels.old high_levels.old)
        → (result ≡ 0) ⊎ (result ≡ 15) }
    ensures near { Indices steps → result ≡ 0 → (i : ℕ)
        → (nat_abs (at dc.old i -ℤ at dc.new i) ≤ step_of steps.dc / 2)
        × (nat_abs (at low.old i -ℤ at low.new i) ≤ step_of steps.low / 2)
        × (nat_abs (at high.old i -ℤ at high.new i) ≤ step_of steps.high / 2) }
{
    let number = lapped_quantise(
        mode,
        size,
        steps,
        dc,
        low,
        high,
        dc_levels,
        low_levels,
        high_levels,
    );
    if number != 0 {
        return number;
    }
    lapped_restore(
        mode,
        size,
        steps,
        dc_levels,
        low_levels,
        high_levels,
        dc,
        low,
        high,
    )
}

// The index found is from 2 to 255, or 0 where none of those passes; the planes and the second samples left are its own, and every sample is within the tolerance.
pub fn client_find_step(
    mode: u32,
    size: Size,
    tolerance: u32,
    samples: &[i32],
    dc: &mut [i32],
    low: &mut [i32],
    high: &mut [i32],
    second: &mut [i32],
) -> Found
    ensures number { FindFaults mode size samples.now second.old (planes dc.old low.old high.old) result.number }
    ensures planes { result.number ≡ 0 → planes dc.new low.new high.new ≡
        restored_planes (all_bands result.index) (quantised_planes (all_bands result.index) (planes_of mode size samples.now)) }
    ensures samples { result.number ≡ 0 → second.new ≡ samples_of mode size (planes dc.new low.new high.new) }
    ensures index { result.number ≡ 0 → (result.index ≡ 0) ⊎ ((2 ≤ result.index) × (result.index ≤ 255)) }
    ensures none { result.number ≡ 0 → result.index ≡ 0 → (k : ℕ) → 2 ≤ k → k ≤ 255 → passes mode size samples.now tolerance k ≡ false }
    ensures refused { (result.number ≡ 0 → ⊥) → (result.index ≡ 0) × (second.new ≡ second.old)
        × (planes dc.new low.new high.new ≡ planes dc.old low.old high.old) }
    ensures near { result.number ≡ 0 → (i : ℕ) → i < 256 * count size → nat_abs (at samples.now i -ℤ at second.new i) ≤ tolerance }
{
    in_range(samples);
    lapped_find_step(mode, size, tolerance, samples, dc, low, high, second)
}
