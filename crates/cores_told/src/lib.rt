// Whether a core transform of a level wraps, told from the coefficients: each that has a large number is judged on its own, and nothing is stored.
// The walk ends at the first that wraps.
#![tactic(auto)]

ghost use Rattle.std.specs.Prelude.{◌≡◌, ◌+◌, ◌*◌, ◌/◌, ◌%◌, ◌<◌, ◌≤◌, length};
ghost use Rattle.lifting.specs.Program.{at as number};
ghost use Rattle.lifting.specs.Wraps.{wraps};
ghost use Rattle.transform.specs.Level.{cores};
ghost use Rattle.picture.specs.Planes.{Lengths};
ghost use Rattle.transform.specs.Grids.{block_order, first_grid, second_grid};
ghost use Rattle.picture.specs.Sizes.{macroblocks};
ghost use Rattle.cores_told.specs.Blocks.{block_wraps as blockWraps, held_zero};

use core_transform::core_wraps;
use grid::coefficient_block;
use large_numbers::{SQUARE_LIMIT, above, some_above};
use picture::picture_size::PictureSize;
use picture::planes::Planes;

// The core of one block: its coefficient 0, and its coefficients 1 to 15 from their plane, of which the first stands at `from`. It is judged step by step
// only where it can wrap: a core whose numbers are at most 2^27 in magnitude does not.
fn block_wraps(zero: i32, rest: &[i32], from: usize) -> bool
    requires { from + 14 < length rest.now }
    ensures { result ≡ blockWraps zero rest.now from }
{
    let large = above(zero, SQUARE_LIMIT) | some_above(rest, from, 15, SQUARE_LIMIT);
    large && core_wraps(coefficient_block(zero, rest, from))
}

// Level one. A macroblock's place in the planes does not depend on the size, but for how many there are.
pub fn first_cores_wrap(size: PictureSize, dc: &[i32], low: &[i32]) -> bool
    requires { (length dc.now ≡ macroblocks size) × (length low.now ≡ 15 * macroblocks size) }
    ensures { result ≡ wraps (cores size.width.0 size.height.0) (first_grid size.width.0 size.height.0 dc.now low.now) }
{
    let n = size.macroblocks().numbers(1);
    (0..n).any(|m| block_wraps(dc[m], low, 15 * m))
}

// The place in the high-pass plane of block b, which is counted in raster order.
fn block_order(size: PictureSize, b: usize) -> usize
    requires { b < 16 * macroblocks size }
    ensures value { result ≡ block_order size.width.0 b }
    ensures inside { result < 16 * macroblocks size }
{
    let p = size.get().width.0 as usize;
    let w = 4 * p;
    let y = b / w;
    let x = b % w;
    16 * (y / 4 * p + x / 4) + (y % 4 * 4 + x % 4)
}

// Block b of level two, where the numbers that level one left stand in raster order.
fn view_block_wraps(size: PictureSize, view: &[i32], high: &[i32], b: usize) -> bool
    requires { (b < 16 * macroblocks size) × (length view.now ≡ 16 * macroblocks size) × (length high.now ≡ 240 * macroblocks size) }
    ensures { result ≡ blockWraps (number view.now b) high.now (15 * block_order size.width.0 b) }
{
    block_wraps(view[b], high, 15 * block_order(size, b))
}

// Level two from there.
pub fn second_cores_wrap(size: PictureSize, view: &[i32], high: &[i32]) -> bool
    requires { (length view.now ≡ 16 * macroblocks size) × (length high.now ≡ 240 * macroblocks size) }
    ensures { result ≡ wraps (cores (4 * size.width.0) (4 * size.height.0)) (second_grid size.width.0 size.height.0 view.now high.now) }
{
    let blocks = size.macroblocks().numbers(16);
    (0..blocks).any(|b| view_block_wraps(size, view, high, b))
}

// The coefficient 0 of block t, in the order of the high-pass plane, where those of a macroblock's sixteen blocks are its DC and low-pass numbers.
fn zero_of(dc: &[i32], low: &[i32], t: usize) -> i32
    requires { (t < 16 * length dc.now) × (length low.now ≡ 15 * length dc.now) }
    ensures { result ≡ held_zero dc.now low.now t }
{
    let m = t / 16;
    match t % 16 {
        0 => dc[m],
        k => low[15 * m + (k - 1)],
    }
}

// Block b of level two, where the numbers that level one takes over stand in the DC and low-pass planes.
fn plane_block_wraps(size: PictureSize, planes: &Planes, b: usize) -> bool
    requires { (b < 16 * macroblocks size) × Lengths (macroblocks size) planes.now }
    ensures { result ≡ (let t = block_order size.width.0 b in blockWraps (held_zero planes.now.dc planes.now.low t) planes.now.high (15 * t)) }
{
    let t = block_order(size, b);
    block_wraps(zero_of(planes.dc, planes.low, t), planes.high, 15 * t)
}

// Level two from there.
pub fn plane_cores_wrap(size: PictureSize, planes: &Planes) -> bool
    requires { Lengths (macroblocks size) planes.now }
    ensures { result ≡ wraps (cores (4 * size.width.0) (4 * size.height.0))
        (second_grid size.width.0 size.height.0 (first_grid size.width.0 size.height.0 planes.now.dc planes.now.low) planes.now.high) }
{
    let blocks = size.macroblocks().numbers(16);
    (0..blocks).any(|b| plane_block_wraps(size, planes, b))
}
