// The filters of level one undone, from the last use to the first.
ghost use Rattle.std.specs.Prelude.{◌≡◌, ◌+◌, ◌*◌, ◌<◌};
ghost use Rattle.lifting.specs.Program.{undo};
ghost use Rattle.transform.specs.Level.{square_filters, filters};
ghost use Rattle.picture.specs.Sizes.{macroblocks};
ghost use Rattle.forward_one_grid.specs.Held.{numbers, over, Held};
ghost use Rattle.forward_one_filters.specs.Edges.{line, edges, corners};
ghost use Rattle.forward_one_filters.specs.Windows.{filters_of_row};

use crate::lines::{Edges, Line};
use crate::uses::undo_four_filter;
use crate::windows::undo_group;
use forward_one_grid::places::{Pairs, Window};
use picture::picture_size::PictureSize;

// A line of uses, whose squares end with `last`. Taken into its callers, where its step and most of its places are known.
#[inline(always)]
fn undo_line(size: PictureSize, dc: &mut [i32], low: &mut [i32], uses: Line, last: usize)
    requires held { Held size dc.old low.old }
    requires last_value { (last ≡ uses.from + uses.pace * uses.n) × (last < macroblocks size) × (uses.l + 3 * uses.step < 16) }
    ensures { numbers size dc.new low.new ≡ undo (line size uses) (numbers size dc.old low.old) }
{
    let mut t = last;
    for i in (0..uses.n).rev() {
        t -= uses.pace;
        undo_four_filter(size, dc, low, uses.at(t));
    }
}

// The two lines at the far edge, whose squares end with the grid's last, and the two at the near one, whose squares end at `near`.
#[inline(always)]
fn undo_edges(size: PictureSize, dc: &mut [i32], low: &mut [i32], lines: Edges, near: usize)
    requires held { Held size dc.old low.old }
    requires n_value { (lines.far + lines.pace * lines.n + 1 ≡ macroblocks size) × (near ≡ lines.pace * lines.n) × (3 * lines.side + 3 * lines.step < 16) }
    ensures { numbers size dc.new low.new ≡ undo (edges size lines) (numbers size dc.old low.old) }
{
    let last = dc.len() - 1;
    undo_line(size, dc, low, lines.line(lines.far, 3), last);
    undo_line(size, dc, low, lines.line(lines.far, 2), last);
    undo_line(size, dc, low, lines.line(0, 1), near);
    undo_line(size, dc, low, lines.line(0, 0), near);
}

// The corners of the grid: those of its last square, of the first in the bottom row, of the last in the top row, and of the first.
fn undo_corners(
    size: PictureSize,
    dc: &mut [i32],
    low: &mut [i32],
    right: usize,
    bottom: usize,
    last: usize,
)
    requires held { Held size dc.old low.old }
    requires right_bound { (right < macroblocks size) × (bottom < macroblocks size) × (last < macroblocks size) }
    ensures { numbers size dc.new low.new ≡
        undo (corners size right bottom last) (numbers size dc.old low.old) }
{
    undo_four_filter(size, dc, low, Pairs::corner(last, 10));
    undo_four_filter(size, dc, low, Pairs::corner(bottom, 8));
    undo_four_filter(size, dc, low, Pairs::corner(right, 2));
    undo_four_filter(size, dc, low, Pairs::corner(0, 0));
}

// The square filters between the squares in rows j, which begins with square t, and j + 1: up to four at a time.
fn undo_squares_across(size: PictureSize, dc: &mut [i32], low: &mut [i32], j: usize, t: usize)
    requires held { Held size dc.old low.old }
    requires j_bound { (j + 1 < size.height.0) × (t ≡ j * size.width.0) }
    ensures { numbers size dc.new low.new ≡ undo (filters_of_row size j) (numbers size dc.old low.old) }
{
    let windows = (size.get().width.0 as usize) - 1;
    for k in (0..windows.div_ceil(4)).rev() {
        let i = 4 * k;
        let n = (windows - i).min(4);
        undo_group(size, dc, low, Window { j, i, t: t + i }, n);
    }
}

fn undo_square_filters(size: PictureSize, dc: &mut [i32], low: &mut [i32])
    requires { Held size dc.old low.old }
    ensures { numbers size dc.new low.new ≡ undo (over size square_filters) (numbers size dc.old low.old) }
{
    let known = size.get();
    let width = known.width.0 as usize;
    let rows = (known.height.0 as usize) - 1;
    let mut t = dc.len() - width;
    for j in (0..rows).rev() {
        t -= width;
        undo_squares_across(size, dc, low, j, t);
    }
}

// The corners, the two rightmost and the two leftmost columns, the bottom two and the top two rows, and then the squares.
pub fn undo_filters(size: PictureSize, dc: &mut [i32], low: &mut [i32])
    requires { Held size dc.old low.old }
    ensures { numbers size dc.new low.new ≡ undo (over size filters) (numbers size dc.old low.old) }
{
    let known = size.get();
    let width = known.width.0 as usize;
    let height = known.height.0 as usize;
    let last = dc.len() - 1;
    let bottom = dc.len() - width;
    undo_corners(size, dc, low, width - 1, bottom, last);
    undo_edges(size, dc, low, Edges::columns(width, height), bottom);
    undo_edges(size, dc, low, Edges::rows(width, bottom), width - 1);
    undo_square_filters(size, dc, low);
}
