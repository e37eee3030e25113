// The core transforms of level two undone from a grid into the three planes, four blocks at a time: a macroblock, and all of a picture from its samples.
#![tactic(auto)]

pub mod cells; // cells.rt: where a macroblock's numbers begin in the planes

ghost use Rattle.std.specs.Prelude.{◌≡◌, false, ◌+◌, ◌*◌, ◌/◌, ◌%◌, ◌<◌, length};
ghost use Rattle.lifting.specs.Program.{at as number, undo};
ghost use Rattle.lifting.specs.Wraps.{Within};
ghost use Rattle.figures.specs.Figures.{core};
ghost use Rattle.transform.specs.Level.{cores};
ghost use Rattle.transform.specs.Grids.{first_grid, second_grid};
ghost use Rattle.picture.specs.Sizes.{macroblocks};
ghost use Rattle.picture.specs.Planes.{Lengths, planes};
ghost use Rattle.large_numbers.specs.Small.{Small};
ghost use Rattle.forward_two_cores.specs.Blocks.{zero_of, block_of, square_in, undone_in, Among, InRows, Replaced};

use crate::cells::Cells;
use forward_kernel::undo_four_cores;
use grid::put_four;
use large_numbers::some_large;
use picture::picture_size::PictureSize;

// The coefficients 0 of row k of the blocks of the macroblock with these cells. The first of row 0 is its DC number, and the others are its low-pass numbers.
fn put_zeros(dc: &mut [i32], low: &mut [i32], cells: Cells, k: usize, z: [i32; 4])
    requires { (cells.dc < length dc.old) × (cells.low + 14 < length low.old) × (k < 4) }
    ensures { Replaced (InRows k (k + 1) cells.dc (cells.dc + 1)) (λ t. number z (t % 4)) (zero_of dc.old low.old) (zero_of dc.new low.new) }
{
    let from = cells.low;
    if k == 0 {
        dc[cells.dc] = z[0];
        low[from] = z[1];
        low[from + 1] = z[2];
        low[from + 2] = z[3];
        return;
    }
    put_four(low, 1, from + (4 * k - 1), z);
}

// The blocks of the macroblock with these cells from their squares in a grid of `w` columns, of which the first number stands at `at`.
pub fn undo_macroblock(
    grid: &[i32],
    w: usize,
    at: usize,
    dc: &mut [i32],
    low: &mut [i32],
    high: &mut [i32],
    cells: Cells,
)
    requires w_in_bounds { at + 15 * w + 15 < length grid.now }
    requires dc_in_bounds { (cells.dc < length dc.old) × (cells.low + 14 < length low.old) × (cells.high + 239 < length high.old) }
    ensures { Replaced (λ t. t / 16 ≡ cells.dc) (λ t. undone_in w at grid.now (t % 16))
        (block_of dc.old low.old high.old) (block_of dc.new low.new high.new) }
{
    let mut row = at;
    let mut from = cells.high;
    for k in 0..4 {
        let z = undo_four_cores(grid, w, row, high, from);
        put_zeros(dc, low, cells, k, z);
        row += 4 * w;
        from += 60;
    }
}

// Row y of a picture's blocks, which begins at place `at` of the samples and in the macroblock with these cells, and whether one of its samples is large.
// They are looked at when they have been read: they follow one another, and are still in the cache.
fn undo_block_row(
    size: PictureSize,
    y: usize,
    samples: &[i32],
    at: usize,
    dc: &mut [i32],
    low: &mut [i32],
    high: &mut [i32],
    cells: Cells,
) -> bool
    requires below { y < 4 * size.height.0 }
    requires at_value { (at ≡ y * (64 * size.width.0)) × (cells.dc ≡ y / 4 * size.width.0) }
    requires samples_len { length samples.now ≡ 256 * macroblocks size }
    requires lengths { Lengths (macroblocks size) (planes dc.old low.old high.old) }
    ensures replaced { Replaced (InRows (y % 4) (y % 4 + 1) cells.dc (cells.dc + size.width.0)) (λ t. undo core (square_in size.width.0 samples.now t))
        (block_of dc.old low.old high.old) (block_of dc.new low.new high.new) }
    ensures small { result ≡ false → Small samples.now at (at + 64 * size.width.0) }
{
    let columns = size.across();
    let w = size.samples().width.0 as usize;
    let k = y % 4;
    for c in 0..columns {
        let here = cells.after(c);
        let z = undo_four_cores(samples, w, at + 16 * c, high, here.high + 60 * k);
        put_zeros(dc, low, here, k, z);
    }
    some_large(samples, at, 4 * w)
}

// Row r of a picture's macroblocks, which begins at place `at` of the samples and with these cells of the planes, row of blocks by row of blocks, and whether
// one of its samples is large. So four rows of samples are read at a time, and not a macroblock's sixteen, which in a wide picture are far apart in memory.
fn undo_row(
    size: PictureSize,
    r: usize,
    samples: &[i32],
    at: usize,
    dc: &mut [i32],
    low: &mut [i32],
    high: &mut [i32],
    cells: Cells,
) -> bool
    requires below { r < size.height.0 }
    requires at_value { (at ≡ r * (256 * size.width.0)) × (cells.dc ≡ r * size.width.0) }
    requires samples_len { length samples.now ≡ 256 * macroblocks size }
    requires lengths { Lengths (macroblocks size) (planes dc.old low.old high.old) }
    ensures replaced { Replaced (Among (r * size.width.0) (r * size.width.0 + size.width.0)) (λ t. undo core (square_in size.width.0 samples.now t))
        (block_of dc.old low.old high.old) (block_of dc.new low.new high.new) }
    ensures small { result ≡ false → Small samples.now at (at + 256 * size.width.0) }
{
    let w = size.samples().width.0 as usize;
    let mut row = at;
    let mut large = false;
    for k in 0..4 {
        large |= undo_block_row(size, 4 * r + k, samples, row, dc, low, high, cells);
        row += 4 * w;
    }
    large
}

// All macroblocks of a picture, from its samples, and whether one of these is large.
pub fn undo_cores(
    size: PictureSize,
    samples: &[i32],
    dc: &mut [i32],
    low: &mut [i32],
    high: &mut [i32],
) -> bool
    requires samples_len { length samples.now ≡ 256 * macroblocks size }
    requires lengths { Lengths (macroblocks size) (planes dc.old low.old high.old) }
    ensures high_after { second_grid size.width.0 size.height.0 (first_grid size.width.0 size.height.0 dc.new low.new) high.new ≡
        undo (cores (4 * size.width.0) (4 * size.height.0)) samples.now }
    ensures within { result ≡ false → Within 33554432 samples.now }
{
    let columns = size.across();
    let rows = size.down();
    let w = size.samples().width.0 as usize;
    let mut at = 0;
    let mut cells = Cells::first();
    let mut large = false;
    for r in 0..rows {
        large |= undo_row(size, r, samples, at, dc, low, high, cells);
        at += 16 * w;
        cells = cells.after(columns);
    }
    large
}
