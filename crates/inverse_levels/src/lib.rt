// The overlap filters of the inverse transform over one level, in place on a grid of squares. A square is a macroblock at level one and a block at level two.
#![tactic(auto)]

mod windows; // windows.rt: windows of the square filter, up to four at a time

ghost use Rattle.std.specs.Prelude.{◌≡◌, ◌+◌, ◌-◌, ◌*◌, ◌<◌, ◌≤◌, length};
ghost use Rattle.lifting.specs.Program.{run, each, ◌then◌};
ghost use Rattle.transform.specs.Level.{four_filter_at, corner_filter_at, row_filters, column_filters, along_edges, corner_filters, edge_filters};
ghost use Rattle.inverse_levels.specs.Stages.{window_row, windows_if, edges_if};

use crate::windows::four_windows;
use four_filter::four_filter;
use grid::size::Squares;
use grid::{get_corner, get_four, put_corner, put_four};

// ---- one use

fn four_filter_at(grid: &mut [i32], step: usize, at: usize)
    requires { at + step + step + step < length grid.old }
    ensures { grid.new ≡ run (four_filter_at step at) grid.old }
{
    let [a, b, c, d] = get_four(grid, step, at);
    put_four(grid, step, at, four_filter(a, b, c, d).into());
}

fn four_filter_pair(grid: &mut [i32], step: usize, at: usize)
    requires { at + 1 + step + step + step < length grid.old }
    ensures { grid.new ≡ run (four_filter_at step at then four_filter_at step (at + 1)) grid.old }
{
    four_filter_at(grid, step, at);
    four_filter_at(grid, step, at + 1);
}

fn corner_filter_at(grid: &mut [i32], w: usize, at: usize)
    requires { at + w + 1 < length grid.old }
    ensures { grid.new ≡ run (corner_filter_at w at) grid.old }
{
    let [a, b, c, d] = get_corner(grid, w, at);
    put_corner(grid, w, at, four_filter(a, b, c, d).into());
}

// ---- n uses in a line

// The windows between the squares of row j and of row j + 1.
fn square_filters_across(grid: &mut [i32], squares: Squares, j: usize)
    requires long { 16 * (squares.across * squares.down) ≤ length grid.old }
    requires j_bound { j + 1 < squares.down }
    ensures { grid.new ≡ run (window_row squares.across j) grid.old }
{
    let w = 4 * squares.across;
    let first = (4 * j + 2) * w + 2;
    let windows = squares.across - 1;
    for k in 0..(windows + 3) / 4 {
        four_windows(grid, w, first + 16 * k, (windows - 4 * k).min(4));
    }
}

// ---- the filters of a level, stage by stage

// The n rows of windows from b on.
fn window_rows(grid: &mut [i32], squares: Squares, b: usize, n: usize)
    requires long { 16 * (squares.across * squares.down) ≤ length grid.old }
    requires n_bound { b + n < squares.down }
    ensures { grid.new ≡ run (each n (λ k. window_row squares.across (b + k))) grid.old }
{
    for k in 0..n {
        square_filters_across(grid, squares, b + k);
    }
}

fn row_filters(grid: &mut [i32], squares: Squares, r: usize)
    requires long { 16 * (squares.across * squares.down) ≤ length grid.old }
    requires r_bound { r < 4 * squares.down }
    ensures { grid.new ≡ run (row_filters squares.across r) grid.old }
{
    let first = r * (4 * squares.across) + 2;
    for i in 0..squares.across - 1 {
        four_filter_at(grid, 1, first + 4 * i);
    }
}

// Columns c and c + 1 in one walk down the grid: their numbers stand in the same lines of memory.
fn column_pair(grid: &mut [i32], squares: Squares, c: usize)
    requires long { 16 * (squares.across * squares.down) ≤ length grid.old }
    requires c_bound { c + 1 < 4 * squares.across }
    ensures { grid.new ≡ run (column_filters squares.across squares.down c then column_filters squares.across squares.down (c + 1)) grid.old }
{
    let w = 4 * squares.across;
    let first = 2 * w + c;
    for j in 0..squares.down - 1 {
        four_filter_pair(grid, w, first + j * (4 * w));
    }
}

fn edge_rows(grid: &mut [i32], squares: Squares)
    requires { 16 * (squares.across * squares.down) ≤ length grid.old }
    ensures { grid.new ≡ run (along_edges squares.down (row_filters squares.across)) grid.old }
{
    row_filters(grid, squares, 0);
    row_filters(grid, squares, 1);
    row_filters(grid, squares, 4 * squares.down - 2);
    row_filters(grid, squares, 4 * squares.down - 1);
}

fn edge_columns(grid: &mut [i32], squares: Squares)
    requires { 16 * (squares.across * squares.down) ≤ length grid.old }
    ensures { grid.new ≡ run (along_edges squares.across (column_filters squares.across squares.down)) grid.old }
{
    column_pair(grid, squares, 0);
    column_pair(grid, squares, 4 * squares.across - 2);
}

fn corners(grid: &mut [i32], squares: Squares)
    requires { 16 * (squares.across * squares.down) ≤ length grid.old }
    ensures { grid.new ≡ run (corner_filters squares.across squares.down) grid.old }
{
    let w = 4 * squares.across;
    let right = w - 2;
    let bottom = (4 * squares.down - 2) * w;
    corner_filter_at(grid, w, 0);
    corner_filter_at(grid, w, right);
    corner_filter_at(grid, w, bottom);
    corner_filter_at(grid, w, bottom + right);
}

fn edges(grid: &mut [i32], squares: Squares)
    requires { 16 * (squares.across * squares.down) ≤ length grid.old }
    ensures { grid.new ≡ run (edge_filters squares.across squares.down) grid.old }
{
    edge_rows(grid, squares);
    edge_columns(grid, squares);
    corners(grid, squares);
}

// ---- the same where the level is filtered

pub fn windows_if(grid: &mut [i32], filtered: bool, squares: Squares, b: usize, n: usize)
    requires long { 16 * (squares.across * squares.down) ≤ length grid.old }
    requires n_bound { b + n < squares.down }
    ensures { grid.new ≡ run (windows_if filtered squares.across b n) grid.old }
{
    if filtered {
        window_rows(grid, squares, b, n);
    }
}

pub fn edges_if(grid: &mut [i32], filtered: bool, squares: Squares)
    requires { 16 * (squares.across * squares.down) ≤ length grid.old }
    ensures { grid.new ≡ run (edges_if filtered squares.across squares.down) grid.old }
{
    if filtered {
        edges(grid, squares);
    }
}
