// The core transforms of level one, in place on a grid of macroblocks.
ghost use Rattle.std.specs.Prelude.{◌≡◌, ◌+◌, ◌*◌, ◌<◌, ◌≤◌, length};
ghost use Rattle.lifting.specs.Program.{run, each};
ghost use Rattle.transform.specs.Level.{cell, core_at, cores as coreProgram};

use core_transform::core;
use grid::size::Squares;
use grid::{get_square, put_square};

fn core_at(grid: &mut [i32], w: usize, at: usize)
    requires { at + w + w + w + 3 < length grid.old }
    ensures { grid.new ≡ run (core_at w at) grid.old }
{
    let b = core(get_square(grid, w, at));
    put_square(grid, w, at, b);
}

// The squares of row j. The remainders change nothing: by them the compiler knows that no address wraps, and makes vectors of short rows too.
fn cores_across(grid: &mut [i32], squares: Squares, j: usize)
    requires long { 16 * (squares.across * squares.down) ≤ length grid.old }
    requires j_bound { j < squares.down }
    ensures { grid.new ≡ run (each squares.across (λ i. core_at (4 * squares.across) (cell squares.across (4 * j) (4 * i)))) grid.old }
{
    let across = squares.across % 4096;
    let w = 4 * across;
    let first = 4 * (j % 2048) * w;
    for i in 0..across {
        core_at(grid, w, first + 4 * i);
    }
}

pub fn cores(grid: &mut [i32], squares: Squares)
    requires { 16 * (squares.across * squares.down) ≤ length grid.old }
    ensures { grid.new ≡ run (coreProgram squares.across squares.down) grid.old }
{
    for j in 0..squares.down {
        cores_across(grid, squares, j);
    }
}
