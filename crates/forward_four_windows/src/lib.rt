// Overlap filters of squares undone, four windows side by side at a time, from a grid into a strip of 72 columns. Both levels use it: the compiler takes
// the filter into the loop over the lanes, and makes vectors of it, only while nobody else calls the filter.
#![tactic(auto)]

ghost use Rattle.std.specs.Prelude.{◌+◌, ◌<◌, length};
ghost use Rattle.forward_four_windows.specs.Windows.{Windows};

use lanes::{each_square, move_squares};
use square_filter::undo_square_filter;

// Four windows of a grid of `w` columns, the first at `at`, to place `to` of the strip.
pub fn undo_four_windows(grid: &[i32], w: usize, at: usize, strip: &mut [i32], to: usize)
    requires w_in_bounds { at + w + w + w + 15 < length grid.now }
    requires to_in_bounds { to + 231 < length strip.old }
    ensures { Windows grid.now w at to strip.old strip.new }
{
    let out = each_square(grid, w, at, undo_square_filter);
    move_squares(&out, strip, 72, to);
}
