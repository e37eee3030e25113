// The C interface: the static library's exports, each a call of its function in lapped, with the same promises.
#![tactic(auto)]

ghost use Rattle.std.specs.Prelude.{◌≡◌, false};
ghost use Rattle.picture.specs.Planes.{planes};
ghost use Rattle.picture.specs.Numbers.{settled, inverse_number, forward_number, quarter_number};
ghost use Rattle.transform.specs.Transform.{inverse as samples_of, forward as planes_of, quarter};
ghost use Rattle.transform.specs.Wraps.{inverse_wraps, forward_wraps, quarter_wraps};
ghost use Rattle.plane_file.specs.Numbers.{save_number};
ghost use Rattle.plane_file.specs.Calls.{header_answer, load_answer, loaded, saved};
ghost use Rattle.forecast.specs.Forecast.{forecast_answer};
ghost use Rattle.step_sizes.specs.Steps.{step_answer};
ghost use Rattle.quantise.specs.Quantise.{quantised_planes, quantise_number};
ghost use Rattle.restore.specs.Restore.{restored_planes, restore_number};
ghost use Rattle.tries.specs.Tries.{tried_planes, tried_samples, passes};
ghost use Rattle.find_step.specs.FindStep.{IndexBeside, find_number};

use bands::steps::Steps;
use find_step::found::Found;
use forecast::Work;
use picture::answer::Answer;
use picture::size::Size;
use plane_file::header::Header;

#[unsafe(no_mangle)]
pub extern "C" fn lapped_inverse(
    mode: u32,
    size: Size,
    dc: &[i32],
    low: &[i32],
    high: &[i32],
    samples: &mut [i32],
) -> Answer
    ensures number_value { result.number ≡ inverse_number mode size (planes dc.now low.now high.now) samples.old }
    ensures wrapped_value { result.wrapped ≡ settled result.number (inverse_wraps mode size (planes dc.now low.now high.now)) false }
    ensures samples_after { samples.new ≡
        settled result.number (samples_of mode size (planes dc.now low.now high.now)) samples.old }
{
    lapped::lapped_inverse(mode, size, dc, low, high, samples)
}

#[unsafe(no_mangle)]
pub extern "C" fn lapped_quarter(
    mode: u32,
    size: Size,
    dc: &[i32],
    low: &[i32],
    view: &mut [i32],
) -> Answer
    ensures number_value { result.number ≡ quarter_number mode size dc.now low.now view.old }
    ensures wrapped_value { result.wrapped ≡ settled result.number (quarter_wraps mode size dc.now low.now) false }
    ensures view_after { view.new ≡ settled result.number (quarter mode size dc.now low.now) view.old }
{
    lapped::lapped_quarter(mode, size, dc, low, view)
}

#[unsafe(no_mangle)]
pub extern "C" fn lapped_forward(
    mode: u32,
    size: Size,
    samples: &[i32],
    dc: &mut [i32],
    low: &mut [i32],
    high: &mut [i32],
) -> Answer
    ensures number_value { result.number ≡ forward_number mode size samples.now (planes dc.old low.old high.old) }
    ensures wrapped_value { result.wrapped ≡ settled result.number (forward_wraps mode size samples.now) false }
    ensures high_after { planes dc.new low.new high.new ≡
        settled result.number (planes_of mode size samples.now) (planes dc.old low.old high.old) }
{
    lapped::lapped_forward(mode, size, samples, dc, low, high)
}

#[unsafe(no_mangle)]
pub extern "C" fn lapped_forecast(mode: u32, size: Size) -> Work
    ensures { result ≡ forecast_answer mode size }
{
    lapped::lapped_forecast(mode, size)
}

#[unsafe(no_mangle)]
pub extern "C" fn lapped_read_header(bytes: &[u8]) -> Header
    ensures { result ≡ header_answer bytes.now }
{
    lapped::lapped_read_header(bytes)
}

#[unsafe(no_mangle)]
pub extern "C" fn lapped_load(
    bytes: &[u8],
    dc: &mut [i32],
    low: &mut [i32],
    high: &mut [i32],
) -> Header
    ensures value { result ≡ load_answer bytes.now (planes dc.old low.old high.old) }
    ensures high_after { planes dc.new low.new high.new ≡
        loaded bytes.now (planes dc.old low.old high.old) }
{
    lapped::lapped_load(bytes, dc, low, high)
}

#[unsafe(no_mangle)]
pub extern "C" fn lapped_save(
    mode: u32,
    size: Size,
    dc: &[i32],
    low: &[i32],
    high: &[i32],
    bytes: &mut [u8],
) -> u32
    ensures value { result ≡ save_number mode size (planes dc.now low.now high.now) bytes.old }
    ensures bytes_after { bytes.new ≡ saved mode size (planes dc.now low.now high.now) bytes.old }
{
    lapped::lapped_save(mode, size, dc, low, high, bytes)
}

#[unsafe(no_mangle)]
pub extern "C" fn lapped_step(index: u32) -> u32
    ensures { result ≡ step_answer index }
{
    lapped::lapped_step(index)
}

#[unsafe(no_mangle)]
pub extern "C" fn lapped_quantise(
    mode: u32,
    size: Size,
    steps: Steps,
    dc: &[i32],
    low: &[i32],
    high: &[i32],
    dc_levels: &mut [i32],
    low_levels: &mut [i32],
    high_levels: &mut [i32],
) -> u32
    ensures value { result ≡ quantise_number mode size steps (planes dc.now low.now high.now)
        (planes dc_levels.old low_levels.old high_levels.old) }
    ensures high_levels_after { planes dc_levels.new low_levels.new high_levels.new ≡
        settled result (quantised_planes steps (planes dc.now low.now high.now))
        (planes dc_levels.old low_levels.old high_levels.old) }
{
    lapped::lapped_quantise(
        mode,
        size,
        steps,
        dc,
        low,
        high,
        dc_levels,
        low_levels,
        high_levels,
    )
}

#[unsafe(no_mangle)]
pub extern "C" fn lapped_restore(
    mode: u32,
    size: Size,
    steps: Steps,
    dc_levels: &[i32],
    low_levels: &[i32],
    high_levels: &[i32],
    dc: &mut [i32],
    low: &mut [i32],
    high: &mut [i32],
) -> u32
    ensures value { result ≡ restore_number mode size steps (planes dc_levels.now low_levels.now high_levels.now)
        (planes dc.old low.old high.old) }
    ensures high_after { planes dc.new low.new high.new ≡
        settled result (restored_planes steps (planes dc_levels.now low_levels.now high_levels.now))
        (planes dc.old low.old high.old) }
{
    lapped::lapped_restore(
        mode,
        size,
        steps,
        dc_levels,
        low_levels,
        high_levels,
        dc,
        low,
        high,
    )
}

#[unsafe(no_mangle)]
pub extern "C" fn lapped_find_step(
    mode: u32,
    size: Size,
    tolerance: u32,
    samples: &[i32],
    dc: &mut [i32],
    low: &mut [i32],
    high: &mut [i32],
    second: &mut [i32],
) -> Found
    ensures number_value { result.number ≡ find_number mode size samples.now second.old (planes dc.old low.old high.old) }
    ensures index_beside { IndexBeside result.number (passes mode size samples.now tolerance) result.index }
    ensures high_after { planes dc.new low.new high.new ≡
        settled result.number (tried_planes mode size samples.now result.index) (planes dc.old low.old high.old) }
    ensures second_after { second.new ≡ settled result.number (tried_samples mode size samples.now result.index) second.old }
{
    lapped::lapped_find_step(mode, size, tolerance, samples, dc, low, high, second)
}
