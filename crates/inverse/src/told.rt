// The levels of the inverse transform, and whether a sum of them wrapped. Only a large number can make one wrap, so most pictures pay one look at each number.
// Where there is one, cores are judged from their coefficients and filters from what they gave.
ghost use Rattle.std.specs.Prelude.{◌≡◌, ◌*◌, length, take};
ghost use Rattle.lifting.specs.Program.{run};
ghost use Rattle.lifting.specs.Wraps.{wraps};
ghost use Rattle.transform.specs.Level.{level};
ghost use Rattle.picture.specs.Planes.{Lengths};
ghost use Rattle.transform.specs.Grids.{first_grid, second_grid};
ghost use Rattle.picture.specs.Sizes.{macroblocks};
ghost use Rattle.transform.specs.Transform.{inverse_by};
ghost use Rattle.transform.specs.Wraps.{inverse_wraps_by};

use cores_told::{first_cores_wrap, second_cores_wrap};
use filters_told::filters_wrap_if;
use grid::size::Squares;
use inverse_one::level_one;
use inverse_two::level_two;
use large_numbers::any_large;
use picture::frame::Frame;
use picture::picture_size::PictureSize;
use picture::planes::Planes;

pub fn level_one_told(
    view: &mut [i32],
    filtered: bool,
    size: PictureSize,
    dc: &[i32],
    low: &[i32],
) -> bool
    requires view_len { length view.old ≡ 16 * macroblocks size }
    requires dc_len { (length dc.now ≡ macroblocks size) × (length low.now ≡ 15 * macroblocks size) }
    ensures view_after { view.new ≡
        run (level filtered size.width.0 size.height.0) (first_grid size.width.0 size.height.0 dc.now low.now) }
    ensures value { result ≡
        wraps (level filtered size.width.0 size.height.0) (first_grid size.width.0 size.height.0 dc.now low.now) }
{
    level_one(view, filtered, size, dc, low);
    let counts = size.get();
    let large_dc = any_large(dc);
    let large_low = any_large(low);
    if large_dc | large_low {
        if first_cores_wrap(size, dc, low) {
            return true;
        }
        let squares = Squares {
            across: counts.width.0 as usize,
            down: counts.height.0 as usize,
        };
        return filters_wrap_if(view, filtered, squares);
    }
    false
}

// Level two, whose cores are judged before it runs, for it overwrites what level one left. It looks at its numbers itself: whoever has looked at them knows that they are
// of 32 bits, and only then do filters wrap as they do when they are undone.
fn level_two_told(samples: &mut [i32], filtered: bool, size: PictureSize, high: &[i32]) -> bool
    requires samples_len { length samples.old ≡ 256 * macroblocks size }
    requires high_len { length high.now ≡ 240 * macroblocks size }
    ensures samples_after { samples.new ≡
        run (level filtered (4 * size.width.0) (4 * size.height.0)) (second_grid size.width.0 size.height.0 (take (16 * macroblocks size) samples.old) high.now) }
    ensures value { result ≡
        wraps (level filtered (4 * size.width.0) (4 * size.height.0)) (second_grid size.width.0 size.height.0 (take (16 * macroblocks size) samples.old) high.now) }
{
    let front = size.macroblocks().numbers(16);
    let large_view = any_large(&samples[..front]);
    let large_high = any_large(high);
    let cores = second_cores_wrap(size, &samples[..front], high);
    level_two(samples, filtered, size, high);
    if large_view | large_high {
        if cores {
            return true;
        }
        let blocks = size.blocks();
        let squares = Squares {
            across: blocks.width.0 as usize,
            down: blocks.height.0 as usize,
        };
        return filters_wrap_if(samples, filtered, squares);
    }
    false
}

// Both levels. That level two has a large number is seen only when it has run; then both run again.
pub fn inverse_told(frame: Frame, planes: &Planes, samples: &mut [i32]) -> bool
    requires lengths { Lengths (macroblocks frame.size) planes.now }
    requires samples_len { length samples.old ≡ 256 * macroblocks frame.size }
    ensures samples_after { samples.new ≡ inverse_by frame.mode frame.size planes.now }
    ensures value { result ≡ inverse_wraps_by frame.mode frame.size planes.now }
{
    let mode = frame.mode;
    let size = frame.size;
    let front = size.macroblocks().numbers(16);
    let first = level_one_told(
        &mut samples[..front],
        mode.first,
        size,
        planes.dc,
        planes.low,
    );
    let large_front = any_large(&samples[..front]);
    let large_high = level_two(samples, mode.second, size, planes.high);
    if first {
        return true;
    }
    if large_front | large_high {
        level_one(
            &mut samples[..front],
            mode.first,
            size,
            planes.dc,
            planes.low,
        );
        return level_two_told(samples, mode.second, size, planes.high);
    }
    false
}
