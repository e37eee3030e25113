// Rows of the strip parked in the planes' cells of the macroblock row below, and fetched again when that row is made.
#![tactic(auto)]

ghost use Rattle.std.specs.Prelude.{◌≡◌, ℕ, ◌+◌, ◌*◌, ◌/◌, ◌%◌, ◌<◌, ◌≤◌, length};
ghost use Rattle.lifting.specs.Program.{at as number};
ghost use Rattle.transform.specs.Grids.{coefficients};
ghost use Rattle.forward_kernel.specs.Placed.{Placed, block_in};
ghost use Rattle.forward_two_cores.specs.Blocks.{block_of};
ghost use Rattle.forward_two_edges.specs.Strip.{Kept};
ghost use Rattle.forward_two_parked.specs.Parked.{place_in, Parked, Fetched, ZerosParked, RestParked};

use forward_two_cores::cells::Cells;
use grid::{get_four, put_four};
use picture::planes::Planes;

// The first eight coefficients of a block to two rows of the strip, from column x on.
fn fetch_block(zero: i32, high: &[i32], from: usize, strip: &mut [i32; 1296], x: usize)
    requires { (from + 6 < length high.now) × (x ≤ 68) }
    ensures by_index { (j : ℕ) → j < 8 → number strip.new (72 * (j / 4) + x + j % 4) ≡ coefficients zero (λ k. number high.now (from + k)) j }
    ensures kept { Kept 0 2 x (x + 4) strip.old strip.new }
{
    let top = [zero, high[from], high[from + 1], high[from + 2]];
    let second = get_four(high, 1, from + 3);
    put_four(strip, 1, x, top);
    put_four(strip, 1, 72 + x, second);
}

// The upper four blocks of the macroblock with these cells, the b-th of the strip.
fn fetch_macroblock(planes: &Planes, cells: Cells, b: usize, strip: &mut [i32; 1296])
    requires dc_in_bounds { (cells.dc < length planes.now.dc) × (cells.low + 14 < length planes.now.low) × (cells.high + 239 < length planes.now.high) }
    requires b_bound { b < 4 }
    ensures by_index { (k j : ℕ) → k < 4 → j < 8 → number strip.new (place_in 0 b k j) ≡ number (block_of planes.now.dc planes.now.low planes.now.high (16 * cells.dc + k)) j }
    ensures kept { Kept 0 2 (16 * b) (16 * b + 16) strip.old strip.new }
{
    let m = cells.dc;
    let from = cells.low;
    let zeros = [
        planes.dc[m],
        planes.low[from],
        planes.low[from + 1],
        planes.low[from + 2],
    ];
    for k in 0..4 {
        fetch_block(
            zeros[k],
            planes.high,
            cells.high + 15 * k,
            strip,
            16 * b + 4 * k,
        );
    }
}

// The upper blocks of n macroblocks, of which the first has these cells.
pub fn fetch(planes: &Planes, cells: Cells, n: usize, strip: &mut [i32; 1296])
    requires n_in_bounds { (cells.dc + n ≤ length planes.now.dc) × (cells.low + 15 * n ≤ length planes.now.low) × (cells.high + 240 * n ≤ length planes.now.high) }
    requires n_bound { n ≤ 4 }
    ensures fetched { Fetched cells.dc n (block_of planes.now.dc planes.now.low planes.now.high) strip.new }
    ensures kept { Kept 0 2 0 (16 * n) strip.old strip.new }
{
    let _ = planes.high.len(); // for the proof: a length is below 2 ^ 64
    for b in 0..n {
        fetch_macroblock(planes, cells.after(b), b, strip);
    }
}

// The coefficients 0 of the upper blocks of the macroblock with these cells, the b-th of the strip.
fn park_zeros(dc: &mut [i32], low: &mut [i32], cells: Cells, strip: &[i32; 1296], b: usize)
    requires cells_in_bounds { (cells.dc < length dc.old) × (cells.low + 14 < length low.old) }
    requires b_bound { b < 4 }
    ensures { ZerosParked cells.dc b strip.now (block_in dc.old low.old) (block_in dc.new low.new) }
{
    let x = 1152 + 16 * b;
    let from = cells.low;
    dc[cells.dc] = strip[x];
    low[from] = strip[x + 4];
    low[from + 1] = strip[x + 8];
    low[from + 2] = strip[x + 12];
}

// Coefficients 1 to 7 of a block from two rows of the strip, from column x on.
fn park_block(high: &mut [i32], from: usize, strip: &[i32; 1296], x: usize)
    requires { (from + 6 < length high.old) × (x ≤ 68) }
    ensures { Placed from 7 (λ j. number strip.now (72 * (16 + (j + 1) / 4) + x + (j + 1) % 4)) high.old high.new }
{
    high[from] = strip[1153 + x];
    high[from + 1] = strip[1154 + x];
    high[from + 2] = strip[1155 + x];
    put_four(high, 1, from + 3, get_four(strip, 1, 1224 + x));
}

// The coefficients 1 to 7 of the same blocks, in the macroblock's part of the high-pass plane.
fn park_rest(high: &mut [i32], from: usize, strip: &[i32; 1296], b: usize)
    requires from_in_bounds { from + 239 < length high.old }
    requires b_bound { b < 4 }
    ensures { RestParked from b 4 strip.now high.old high.new }
{
    for k in 0..4 {
        park_block(high, from + 15 * k, strip, 16 * b + 4 * k);
    }
}

// Rows 16 and 17 to the upper blocks of n macroblocks, of which the first has these cells.
pub fn park(
    dc: &mut [i32],
    low: &mut [i32],
    high: &mut [i32],
    cells: Cells,
    n: usize,
    strip: &[i32; 1296],
)
    requires n_in_bounds { (cells.dc + n ≤ length dc.old) × (cells.low + 15 * n ≤ length low.old) × (cells.high + 240 * n ≤ length high.old) }
    requires n_bound { n ≤ 4 }
    ensures { Parked cells.dc n strip.now (block_of dc.old low.old high.old) (block_of dc.new low.new high.new) }
{
    for b in 0..n {
        let own = cells.after(b);
        park_zeros(dc, low, own, strip, b);
        park_rest(high, own.high, strip, b);
    }
}
