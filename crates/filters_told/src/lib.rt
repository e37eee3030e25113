// Whether a filter of a level wrapped, told from what the filters gave, on a grid of squares: each is undone on its own numbers, windows
// only where one of these is large, and nothing is stored. The walk ends at the first that wrapped.
#![tactic(auto)]

ghost use Rattle.std.specs.Prelude.{◌≡◌, ◌+◌, ◌-◌, ◌*◌, ◌<◌, ◌≤◌, length};
ghost use Rattle.lifting.specs.Program.{each};
ghost use Rattle.lifting.specs.Wraps.{undo_wraps};
ghost use Rattle.lifting.specs.AnyUse.{any_use};
ghost use Rattle.transform.specs.Level.{cell, square_filter_at, four_filter_at, corner_filter_at, square_filters, row_filters, column_filters, along_edges, corner_filters, filters_if, filters as filterProgram};

use four_filter::unfiltered_wraps;
use grid::size::Squares;
use grid::{get_corner, get_four, get_square};
use large_numbers::{SQUARE_LIMIT, some_above};
use square_filter::undo_square_filter_wraps;

// ---- one use

// A window. It is judged step by step only where it can have wrapped: a window that gave numbers of at most 2^27 in magnitude has not.
fn window_wraps(grid: &[i32], w: usize, at: usize) -> bool
    requires { at + w + w + w + 3 < length grid.now }
    ensures { result ≡ any_use undo_wraps (square_filter_at w at) grid.now }
{
    let second = at + w;
    let third = second + w;
    let fourth = third + w;
    let large = some_above(grid, at, 4, SQUARE_LIMIT)
        | some_above(grid, second, 4, SQUARE_LIMIT)
        | some_above(grid, third, 4, SQUARE_LIMIT)
        | some_above(grid, fourth, 4, SQUARE_LIMIT);
    large && undo_square_filter_wraps(get_square(grid, w, at))
}

fn four_wraps(grid: &[i32], step: usize, at: usize) -> bool
    requires { at + step + step + step < length grid.now }
    ensures { result ≡ any_use undo_wraps (four_filter_at step at) grid.now }
{
    unfiltered_wraps(get_four(grid, step, at))
}

fn corner_wraps(grid: &[i32], w: usize, at: usize) -> bool
    requires { at + w + 1 < length grid.now }
    ensures { result ≡ any_use undo_wraps (corner_filter_at w at) grid.now }
{
    unfiltered_wraps(get_corner(grid, w, at))
}

// ---- uses in a line

// The windows between the squares of row j and of row j + 1.
fn window_row_wraps(grid: &[i32], squares: Squares, j: usize) -> bool
    requires long { 16 * (squares.across * squares.down) ≤ length grid.now }
    requires j_bound { j + 1 < squares.down }
    ensures { result ≡ any_use undo_wraps (each (squares.across - 1) (λ i. square_filter_at (4 * squares.across) (cell squares.across (4 * j + 2) (4 * i + 2)))) grid.now }
{
    let w = 4 * squares.across;
    let first = (4 * j + 2) * w + 2;
    (0..squares.across - 1).any(|i| window_wraps(grid, w, first + 4 * i))
}

fn row_wraps(grid: &[i32], squares: Squares, r: usize) -> bool
    requires long { 16 * (squares.across * squares.down) ≤ length grid.now }
    requires r_bound { r < 4 * squares.down }
    ensures { result ≡ any_use undo_wraps (row_filters squares.across r) grid.now }
{
    let first = r * (4 * squares.across) + 2;
    (0..squares.across - 1).any(|i| four_wraps(grid, 1, first + 4 * i))
}

fn column_wraps(grid: &[i32], squares: Squares, c: usize) -> bool
    requires long { 16 * (squares.across * squares.down) ≤ length grid.now }
    requires c_bound { c < 4 * squares.across }
    ensures { result ≡ any_use undo_wraps (column_filters squares.across squares.down c) grid.now }
{
    let w = 4 * squares.across;
    let first = 2 * w + c;
    (0..squares.down - 1).any(|j| four_wraps(grid, w, first + j * (4 * w)))
}

// ---- the filters of a level, stage by stage

fn windows_wrap(grid: &[i32], squares: Squares) -> bool
    requires { 16 * (squares.across * squares.down) ≤ length grid.now }
    ensures { result ≡ any_use undo_wraps (square_filters squares.across squares.down) grid.now }
{
    (0..squares.down - 1).any(|j| window_row_wraps(grid, squares, j))
}

fn edge_rows_wrap(grid: &[i32], squares: Squares) -> bool
    requires { 16 * (squares.across * squares.down) ≤ length grid.now }
    ensures { result ≡ any_use undo_wraps (along_edges squares.down (row_filters squares.across)) grid.now }
{
    let first = row_wraps(grid, squares, 0);
    let second = row_wraps(grid, squares, 1);
    let third = row_wraps(grid, squares, 4 * squares.down - 2);
    let fourth = row_wraps(grid, squares, 4 * squares.down - 1);
    first | second | third | fourth
}

fn edge_columns_wrap(grid: &[i32], squares: Squares) -> bool
    requires { 16 * (squares.across * squares.down) ≤ length grid.now }
    ensures { result ≡ any_use undo_wraps (along_edges squares.across (column_filters squares.across squares.down)) grid.now }
{
    let first = column_wraps(grid, squares, 0);
    let second = column_wraps(grid, squares, 1);
    let third = column_wraps(grid, squares, 4 * squares.across - 2);
    let fourth = column_wraps(grid, squares, 4 * squares.across - 1);
    first | second | third | fourth
}

fn corners_wrap(grid: &[i32], squares: Squares) -> bool
    requires { 16 * (squares.across * squares.down) ≤ length grid.now }
    ensures { result ≡ any_use undo_wraps (corner_filters squares.across squares.down) grid.now }
{
    let w = 4 * squares.across;
    let right = w - 2;
    let bottom = (4 * squares.down - 2) * w;
    let top_left = corner_wraps(grid, w, 0);
    let top_right = corner_wraps(grid, w, right);
    let bottom_left = corner_wraps(grid, w, bottom);
    let bottom_right = corner_wraps(grid, w, bottom + right);
    top_left | top_right | bottom_left | bottom_right
}

fn filters_wrap(grid: &[i32], squares: Squares) -> bool
    requires { 16 * (squares.across * squares.down) ≤ length grid.now }
    ensures { result ≡ undo_wraps (filterProgram squares.across squares.down) grid.now }
{
    if windows_wrap(grid, squares) {
        return true;
    }
    if edge_rows_wrap(grid, squares) {
        return true;
    }
    edge_columns_wrap(grid, squares) || corners_wrap(grid, squares)
}

// The same where the level is filtered.
pub fn filters_wrap_if(grid: &[i32], filtered: bool, squares: Squares) -> bool
    requires { 16 * (squares.across * squares.down) ≤ length grid.now }
    ensures { result ≡ undo_wraps (filters_if filtered squares.across squares.down) grid.now }
{
    filtered && filters_wrap(grid, squares)
}
