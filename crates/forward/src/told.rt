// The levels of the forward transform, and whether a sum of them wrapped. Only a large number can make one wrap, so most pictures pay one look at each number.
// Where there is one, filters are judged from the numbers that they are undone from, and cores from the coefficients that they were undone to.
ghost use Rattle.std.specs.Prelude.{◌≡◌, ◌*◌, length};
ghost use Rattle.lifting.specs.Program.{undo};
ghost use Rattle.lifting.specs.Wraps.{undo_wraps};
ghost use Rattle.transform.specs.Level.{level};
ghost use Rattle.picture.specs.Planes.{Lengths, planes};
ghost use Rattle.transform.specs.Grids.{second_grid};
ghost use Rattle.picture.specs.Sizes.{macroblocks};
ghost use Rattle.transform.specs.Transform.{forward_by};
ghost use Rattle.transform.specs.Wraps.{forward_wraps_by};
ghost use Rattle.forward_one_grid.specs.Held.{numbers, over};

use cores_told::{first_cores_wrap, plane_cores_wrap};
use filters_told::filters_wrap_if;
use forward_one::undo_level_one;
use forward_one_filters::told::held_filters_wrap_if;
use forward_two::undo_level_two;
use grid::size::Squares;
use large_numbers::any_large;
use picture::frame::Frame;
use picture::picture_size::PictureSize;
use picture::planes::Planes;

// Whether a sum wrapped when level two was undone from the samples to these planes.
fn level_two_wraps(filtered: bool, size: PictureSize, samples: &[i32], planes: &Planes) -> bool
    requires samples_len { length samples.now ≡ 256 * macroblocks size }
    requires lengths { Lengths (macroblocks size) planes.now }
    requires high_value { second_grid size.width.0 size.height.0 (numbers size planes.now.dc planes.now.low) planes.now.high ≡
        undo (level filtered (4 * size.width.0) (4 * size.height.0)) samples.now }
    ensures { result ≡ undo_wraps (level filtered (4 * size.width.0) (4 * size.height.0)) samples.now }
{
    let blocks = size.blocks();
    if any_large(samples) {
        if plane_cores_wrap(size, planes) {
            return true;
        }
        let squares = Squares {
            across: blocks.width.0 as usize,
            down: blocks.height.0 as usize,
        };
        return filters_wrap_if(samples, filtered, squares);
    }
    false
}

// Level one undone, and whether a sum of it wrapped.
fn level_one_told(filtered: bool, size: PictureSize, dc: &mut [i32], low: &mut [i32]) -> bool
    requires { (length dc.old ≡ macroblocks size) × (length low.old ≡ 15 * macroblocks size) }
    ensures low_after { numbers size dc.new low.new ≡ undo (over size (level filtered)) (numbers size dc.old low.old) }
    ensures value { result ≡ undo_wraps (over size (level filtered)) (numbers size dc.old low.old) }
{
    let _ = size.get(); // for the proof: the size is one that a picture may have
    let large_dc = any_large(dc);
    let large_low = any_large(low);
    let filters = held_filters_wrap_if(filtered, size, dc, low);
    undo_level_one(filtered, size, dc, low);
    if large_dc | large_low {
        if filters {
            return true;
        }
        return first_cores_wrap(size, dc, low);
    }
    false
}

// Both levels undone.
pub fn forward_told(
    frame: Frame,
    samples: &[i32],
    dc: &mut [i32],
    low: &mut [i32],
    high: &mut [i32],
) -> bool
    requires samples_len { length samples.now ≡ 256 * macroblocks frame.size }
    requires lengths { Lengths (macroblocks frame.size) (planes dc.old low.old high.old) }
    ensures high_after { planes dc.new low.new high.new ≡ forward_by frame.mode frame.size samples.now }
    ensures value { result ≡ forward_wraps_by frame.mode frame.size samples.now }
{
    let mode = frame.mode;
    let size = frame.size;
    let _ = size.get(); // for the proof: the size is one that a picture may have
    let large = undo_level_two(mode.second, size, samples, dc, low, high);
    let large_dc = any_large(dc);
    let large_low = any_large(low);
    if large | large_dc | large_low {
        let second = level_two_wraps(mode.second, size, samples, &Planes { dc, low, high });
        let first = level_one_told(mode.first, size, dc, low);
        return second | first;
    }
    undo_level_one(mode.first, size, dc, low);
    false
}
