// Level two of the inverse transform, in place: from the numbers that level one left and the high-pass plane to samples.
#![tactic(auto)]

mod four_blocks; // four_blocks.rt: four blocks side by side, filled and transformed
mod cells; // cells.rt: where a part of the picture begins

ghost use Rattle.std.specs.Prelude.{◌≡◌, false, ℕ, ◌+◌, ◌*◌, ◌<◌, ◌≤◌, length, take};
ghost use Rattle.lifting.specs.Program.{run};
ghost use Rattle.lifting.specs.Wraps.{Within};
ghost use Rattle.transform.specs.Level.{level};
ghost use Rattle.transform.specs.Grids.{second_grid};
ghost use Rattle.picture.specs.Sizes.{macroblocks};
ghost use Rattle.large_numbers.specs.Small.{Small};
ghost use Rattle.inverse_two.specs.Blocks.{RowsCored, BlocksCored};

use crate::cells::Cells;
use crate::four_blocks::four_blocks;
use grid::size::Squares;
use inverse_levels::{edges_if, windows_if};
use picture::picture_size::PictureSize;

// Macroblock c of row r, from its last row of blocks to its first. The cells are those of its beginning.
fn macroblock(
    samples: &mut [i32],
    size: PictureSize,
    r: usize,
    c: usize,
    cells: Cells,
    high: &[i32],
) -> bool
    requires inside { (c < size.width.0) × (r < size.height.0) }
    requires cells_value { (cells.samples ≡ r * (256 * size.width.0) + 16 * c) × (cells.numbers ≡ r * (16 * size.width.0) + 4 * c) × (cells.high ≡ r * (240 * size.width.0) + 240 * c) }
    requires samples_len { length samples.old ≡ 256 * macroblocks size }
    requires high_len { length high.now ≡ 240 * macroblocks size }
    ensures blocks_cored { BlocksCored size.width.0 high.now samples.old (4 * r) (4 * r + 4) c (c + 1) samples.new }
    ensures small { result ≡ false → Small high.now cells.high (cells.high + 240) }
{
    let across = size.blocks().width.0 as usize;
    let w = size.samples().width.0 as usize;
    let mut row = cells.after(16 * w, 4 * across, 240);
    let mut large = false;
    for k in (0..4usize).rev() {
        row.samples -= 4 * w;
        row.numbers -= across;
        row.high -= 60;
        let found = four_blocks(samples, w, row, high);
        large = large | found;
    }
    large
}

// Row r of the macroblocks, which is not the topmost, from its last to its first: the order of the rows too, so that memory is gone through in one direction.
// The cells are those of its beginning.
fn macroblock_row(
    samples: &mut [i32],
    size: PictureSize,
    r: usize,
    cells: Cells,
    high: &[i32],
) -> bool
    requires inside { (0 < r) × (r < size.height.0) }
    requires cells_value { (cells.samples ≡ r * (256 * size.width.0)) × (cells.numbers ≡ r * (16 * size.width.0)) × (cells.high ≡ r * (240 * size.width.0)) }
    requires samples_len { length samples.old ≡ 256 * macroblocks size }
    requires high_len { length high.now ≡ 240 * macroblocks size }
    ensures rows_cored { RowsCored size.width.0 high.now samples.old (4 * r) (4 * r + 4) samples.new }
    ensures small { result ≡ false → Small high.now cells.high (cells.high + 240 * size.width.0) }
{
    let p = size.get().width.0 as usize;
    let mut large = false;
    for c in (0..p).rev() {
        let its = cells.after(16 * c, 4 * c, 240 * c);
        let found = macroblock(samples, size, r, c, its, high);
        large = large | found;
    }
    large
}

// Row y of the blocks, in the topmost row of macroblocks, from the last block to the first. The cells are those of its beginning.
fn block_row(samples: &mut [i32], size: PictureSize, y: usize, cells: Cells, high: &[i32]) -> bool
    requires y_bound { y < 4 }
    requires cells_value { (cells.samples ≡ y * (64 * size.width.0)) × (cells.numbers ≡ y * (4 * size.width.0)) × (cells.high ≡ 60 * y) }
    requires samples_len { length samples.old ≡ 256 * macroblocks size }
    requires high_len { length high.now ≡ 240 * macroblocks size }
    ensures blocks_cored { BlocksCored size.width.0 high.now samples.old y (y + 1) 0 size.width.0 samples.new }
    ensures small { result ≡ false → (c : ℕ) → c < size.width.0 → Small high.now (cells.high + 240 * c) (cells.high + 240 * c + 60) }
{
    let p = size.get().width.0 as usize;
    let w = size.samples().width.0 as usize;
    let mut large = false;
    for c in (0..p).rev() {
        let found = four_blocks(samples, w, cells.after(16 * c, 4 * c, 240 * c), high);
        large = large | found;
    }
    large
}

// The topmost row of macroblocks. Its numbers from level one lie in the first row of samples, which its first blocks cover:
// row of blocks by row of blocks, from the last to the first, none is overwritten before it is read.
fn top_row(samples: &mut [i32], size: PictureSize, high: &[i32]) -> bool
    requires samples_len { length samples.old ≡ 256 * macroblocks size }
    requires high_len { length high.now ≡ 240 * macroblocks size }
    ensures rows_cored { RowsCored size.width.0 high.now samples.old 0 4 samples.new }
    ensures small { result ≡ false → Small high.now 0 (240 * size.width.0) }
{
    let across = size.blocks().width.0 as usize;
    let w = size.samples().width.0 as usize;
    let mut cells = Cells {
        samples: 16 * w,
        numbers: 4 * across,
        high: 240,
    };
    let mut large = false;
    for y in (0..4).rev() {
        cells.samples -= 4 * w;
        cells.numbers -= across;
        cells.high -= 60;
        let found = block_row(samples, size, y, cells, high);
        large = large | found;
    }
    large
}

// The numbers that level one left stand at the front, and go with the high-pass numbers to their blocks' squares, row of macroblocks by row of macroblocks from the last.
// The windows between rows of blocks run as soon as both rows are transformed, while they are in the cache: in the last row of macroblocks three rows of windows, in the others four.
// Whether a high-pass number is large is answered.
pub fn level_two(samples: &mut [i32], filtered: bool, size: PictureSize, high: &[i32]) -> bool
    requires samples_len { length samples.old ≡ 256 * macroblocks size }
    requires high_len { length high.now ≡ 240 * macroblocks size }
    ensures samples_after { samples.new ≡
        run (level filtered (4 * size.width.0) (4 * size.height.0)) (second_grid size.width.0 size.height.0 (take (16 * macroblocks size) samples.old) high.now) }
    ensures within { result ≡ false → Within 33554432 high.now }
{
    let counts = size.get();
    let width = counts.width.0 as usize;
    let w = size.samples().width.0 as usize;
    let blocks = size.blocks();
    let squares = Squares {
        across: blocks.width.0 as usize,
        down: blocks.height.0 as usize,
    };
    let mut cells = Cells {
        samples: samples.len(),
        numbers: samples.len() / 16,
        high: high.len(),
    };
    let mut windows = 3;
    let mut large = false;
    for r in (1..counts.height.0 as usize).rev() {
        cells.samples -= 16 * w;
        cells.numbers -= 4 * squares.across;
        cells.high -= 240 * width;
        let found = macroblock_row(samples, size, r, cells, high);
        large = large | found;
        windows_if(samples, filtered, squares, 4 * r, windows);
        windows = 4;
    }
    let found = top_row(samples, size, high);
    windows_if(samples, filtered, squares, 0, windows);
    edges_if(samples, filtered, squares);
    large | found
}
