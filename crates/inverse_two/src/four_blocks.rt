// Four blocks side by side: their coefficients held in lanes, the core transform in each lane, and the results moved to their squares.
ghost use Rattle.std.specs.Prelude.{◌≡◌, false, ◌+◌, ◌-◌, ◌*◌, ◌<◌, ◌≤◌, length};
ghost use Rattle.figures.specs.Block.{flat};
ghost use Rattle.large_numbers.specs.Small.{Small};
ghost use Rattle.inverse_two.specs.Blocks.{block_from, FourBlocks};

use crate::cells::Cells;
use core_transform::core;
use grid::{get_four, put_square};
use lanes::{lane, move_squares, row};
use large_numbers::some_large;

// The block of the lane whose numbers stand from `at` on: coefficient 0, then coefficients 1 to 4, 4 to 7, 8 to 11 and 12 to 15, of which 4 stands there twice.
fn block(
    zero: i32,
    a: &[i32; 16],
    b: &[i32; 16],
    c: &[i32; 16],
    d: &[i32; 16],
    at: usize,
) -> [[i32; 4]; 4]
    requires { at + 3 < 16 }
    ensures { flat result ≡ block_from zero a.now b.now c.now d.now at }
{
    let [first, second, third, fourth] = lane(a, b, c, d, at);
    [[zero, first[0], first[1], first[2]], second, third, fourth]
}

// Four blocks side by side of a grid of w columns, which begin at these cells: their squares, the numbers that level one left for them, and their
// high-pass numbers.
// Whether one of these is large is seen here, where they are on their way through the cache.
pub fn four_blocks(grid: &mut [i32], w: usize, cells: Cells, high: &[i32]) -> bool
    requires le_w { (16 ≤ w) × (cells.samples + w + w + w + 15 < length grid.old) × (cells.numbers + 3 < length grid.old) }
    requires from_in_bounds { cells.high + 59 < length high.now }
    ensures four_blocks { FourBlocks grid.old high.now w cells.samples cells.numbers cells.high grid.new }
    ensures small { result ≡ false → Small high.now cells.high (cells.high + 60) }
{
    let large = some_large(high, cells.high, 60);
    let zeros = get_four(grid, 1, cells.numbers);
    let first = row(high, 15, cells.high);
    let second = row(high, 15, cells.high + 3);
    let third = row(high, 15, cells.high + 7);
    let fourth = row(high, 15, cells.high + 11);
    let mut out = [0; 64];
    for l in 0..4 {
        let b = block(zeros[l], &first, &second, &third, &fourth, 12 - 4 * l);
        put_square(&mut out, 16, 4 * l, core(b));
    }
    move_squares(&out, grid, w, cells.samples);
    large
}
