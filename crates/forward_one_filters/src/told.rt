// Whether undoing the filters of level one wraps, where the level's grid lies in DC and low-pass: each is judged on its own numbers, and nothing is stored.
ghost use Rattle.std.specs.Prelude.{◌≡◌, ◌+◌, ◌*◌, ◌<◌, length};
ghost use Rattle.lifting.specs.Wraps.{undo_wraps};
ghost use Rattle.lifting.specs.AnyUse.{any_use};
ghost use Rattle.transform.specs.Level.{square_filters, filters_if, filters as filterProgram};
ghost use Rattle.picture.specs.Sizes.{macroblocks};
ghost use Rattle.forward_one_grid.specs.Held.{numbers, over};
ghost use Rattle.forward_one_grid.specs.Places.{Inside, Meets};
ghost use Rattle.forward_one_filters.specs.Edges.{filter_of, line, edges, corners};
ghost use Rattle.forward_one_filters.specs.Windows.{filter_on, filters_of_row};

use crate::lines::{Edges, Line};
use forward_one_grid::lent::LevelOne;
use forward_one_grid::places::{Pairs, Window};
use four_filter::unfiltered_wraps;
use picture::picture_size::PictureSize;
use square_filter::undo_square_filter_wraps;

// ---- one use

fn window_wraps(level: &LevelOne, w: Window) -> bool
    requires { Meets level.now.size w }
    ensures { result ≡ any_use undo_wraps (filter_on level.now.size w.j w.i) level.now.numbers }
{
    undo_square_filter_wraps(level.get_window(w))
}

fn four_wraps(level: &LevelOne, p: Pairs) -> bool
    requires { Inside level.now.size p }
    ensures { result ≡ any_use undo_wraps (filter_of level.now.size p) level.now.numbers }
{
    unfiltered_wraps(level.get_pairs(p))
}

// ---- uses in a line

fn line_wraps(level: &LevelOne, uses: Line) -> bool
    requires { (uses.from + uses.pace * uses.n < macroblocks level.now.size) × (uses.l + 3 * uses.step < 16) }
    ensures { result ≡ any_use undo_wraps (line level.now.size uses) level.now.numbers }
{
    let _ = level.squares(); // squares of a picture are few: their numbers fit
    (0..uses.n).any(|i| four_wraps(level, uses.at(uses.from + uses.pace * i)))
}

// The windows between the squares in rows j, which begins with square t, and j + 1.
fn window_row_wraps(level: &LevelOne, j: usize, t: usize) -> bool
    requires { (j + 1 < level.now.size.height.0) × (t ≡ j * level.now.size.width.0) }
    ensures { result ≡ any_use undo_wraps (filters_of_row level.now.size j) level.now.numbers }
{
    let windows = level.width() - 1;
    (0..windows).any(|i| window_wraps(level, Window { j, i, t: t + i }))
}

// ---- the filters of the level, stage by stage

// Two lines at each of two edges, as `edges` has them.
fn edges_wrap(level: &LevelOne, lines: Edges) -> bool
    requires { (lines.far + lines.pace * lines.n + 1 ≡ macroblocks level.now.size) × (3 * lines.side + 3 * lines.step < 16) }
    ensures { result ≡ any_use undo_wraps (edges level.now.size lines) level.now.numbers }
{
    let first = line_wraps(level, lines.line(0, 0));
    let second = line_wraps(level, lines.line(0, 1));
    let third = line_wraps(level, lines.line(lines.far, 2));
    let fourth = line_wraps(level, lines.line(lines.far, 3));
    first | second | third | fourth
}

// The corners, as `corners` has them.
fn corners_wrap(level: &LevelOne, right: usize, bottom: usize, last: usize) -> bool
    requires { (right < macroblocks level.now.size) × (bottom < macroblocks level.now.size) × (last < macroblocks level.now.size) }
    ensures { result ≡ any_use undo_wraps (corners level.now.size right bottom last) level.now.numbers }
{
    let top_left = four_wraps(level, Pairs::corner(0, 0));
    let top_right = four_wraps(level, Pairs::corner(right, 2));
    let bottom_left = four_wraps(level, Pairs::corner(bottom, 8));
    let bottom_right = four_wraps(level, Pairs::corner(last, 10));
    top_left | top_right | bottom_left | bottom_right
}

fn windows_wrap(level: &LevelOne) -> bool
    ensures { result ≡ any_use undo_wraps (over level.now.size square_filters) level.now.numbers }
{
    let width = level.width();
    let rows = level.height() - 1;
    (0..rows).any(|j| window_row_wraps(level, j, j * width))
}

fn filters_wrap(level: &LevelOne) -> bool
    ensures { result ≡ undo_wraps (over level.now.size filterProgram) level.now.numbers }
{
    let width = level.width();
    let height = level.height();
    let squares = level.squares();
    let bottom = squares - width;
    if windows_wrap(level) {
        return true;
    }
    if edges_wrap(level, Edges::rows(width, bottom)) {
        return true;
    }
    edges_wrap(level, Edges::columns(width, height))
        || corners_wrap(level, width - 1, bottom, squares - 1)
}

// The same where the level is filtered.
pub fn held_filters_wrap_if(filtered: bool, size: PictureSize, dc: &[i32], low: &[i32]) -> bool
    requires { (length dc.now ≡ macroblocks size) × (length low.now ≡ 15 * macroblocks size) }
    ensures { result ≡ undo_wraps (over size (filters_if filtered)) (numbers size dc.now low.now) }
{
    filtered && filters_wrap(&LevelOne::new(size, dc, low))
}
