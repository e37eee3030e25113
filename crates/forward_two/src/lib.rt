// Level two of the forward call: the samples with its filters and cores undone, in the three planes.
// Where the mode has filters, a strip of 18 rows and 72 columns goes over the picture, four macroblocks at a time: the windows go from the samples into it,
// and the cores from it to the planes. Two of its rows are left over for the macroblocks below and parked in their cells, two columns for those on the right.
#![tactic(auto)]

ghost use Rattle.std.specs.Prelude.{◌≡◌, ℕ, ◌+◌, ◌*◌, ◌/◌, ◌%◌, ◌<◌, ◌≤◌, false, length};
ghost use Rattle.lifting.specs.Program.{undo, at as number};
ghost use Rattle.lifting.specs.Wraps.{Within};
ghost use Rattle.transform.specs.Level.{level, cores as coresOf};
ghost use Rattle.transform.specs.Grids.{first_grid, second_grid};
ghost use Rattle.picture.specs.Sizes.{macroblocks};
ghost use Rattle.picture.specs.Planes.{Lengths, planes};
ghost use Rattle.forward_two_cores.specs.Blocks.{block_of, undone_in, Among};
ghost use Rattle.forward_two_edges.specs.Unfiltered.{unfiltered};
ghost use Rattle.forward_two_edges.specs.Strip.{Holds, Kept};
ghost use Rattle.forward_two.specs.Strips.{Carried, Through, Lowered};

use forward_two_cores::cells::Cells;
use forward_two_cores::{undo_cores, undo_macroblock};
use forward_two_edges::macroblock::Macroblock;
use forward_two_edges::place::Place;
use forward_two_edges::{edge_columns, edge_rows};
use forward_two_parked::{fetch, park};
use forward_two_windows::windows;
use large_numbers::some_large;
use picture::picture_size::PictureSize;
use picture::planes::Planes;

// The two columns after the last macroblock of the group before become the first two.
fn carry(strip: &mut [i32; 1296])
    ensures by_index { (y x : ℕ) → y < 18 → x < 2 → number strip.new (72 * y + x) ≡ number strip.old (72 * y + 64 + x) }
    ensures kept { Kept 0 18 0 2 strip.old strip.new }
{
    let mut row = 0;
    for y in 0..18usize {
        strip[row] = strip[row + 64];
        strip[row + 1] = strip[row + 65];
        row += 72;
    }
}

// Columns 0 and 1.
fn left(here: &Macroblock, samples: &[i32], strip: &mut [i32; 1296])
    requires samples_len { length samples.now ≡ 256 * macroblocks here.now.size }
    requires carried { 0 < here.now.c → Carried here.now.size samples.now here.now.r here.now.c here.now.first strip.old }
    ensures { Holds here.now.size samples.now here.now.r here.now.c here.now.first 18 0 2 strip.new }
{
    if here.c == 0 {
        edge_columns(here, samples, strip, 0);
    } else {
        carry(strip);
    }
}

// The columns of n windows.
fn middle(here: &Macroblock, n: usize, samples: &[i32], strip: &mut [i32; 1296])
    requires samples_len { length samples.now ≡ 256 * macroblocks here.now.size }
    requires n_bound { (n ≤ 16) × (4 * here.now.c + n < 4 * here.now.size.width.0) }
    ensures holds { Holds here.now.size samples.now here.now.r here.now.c here.now.first 18 2 (4 * n + 2) strip.new }
    ensures kept { Kept here.now.first 18 2 72 strip.old strip.new }
{
    let w = here.row_samples();
    let top = Place {
        samples: here.at,
        strip: 0,
    };
    let end = 4 * here.down + 2;
    let second = top.below(2, w);
    edge_rows(here, samples, top, here.first, 2, n, strip);
    let last = windows(here, samples, second, here.down, n, strip);
    edge_rows(here, samples, last, end, 16, n, strip);
}

// All columns of n macroblocks and the two after them, from the first row on that no row of macroblocks above has made.
fn fill(here: &Macroblock, n: usize, samples: &[i32], strip: &mut [i32; 1296])
    requires samples_len { length samples.now ≡ 256 * macroblocks here.now.size }
    requires carried { 0 < here.now.c → Carried here.now.size samples.now here.now.r here.now.c here.now.first strip.old }
    requires n_nonzero { (0 < n) × (n ≤ 4) × (here.now.c + n ≤ here.now.size.width.0) }
    ensures { Holds here.now.size samples.now here.now.r here.now.c here.now.first 18 0 (16 * n + 2) strip.new }
{
    left(here, samples, strip);
    if here.c + n == here.columns() {
        middle(here, 4 * n - 1, samples, strip);
        edge_columns(here, samples, strip, 16 * n - 2);
    } else {
        middle(here, 4 * n, samples, strip);
    }
}

// The cores of the strip's n macroblocks, of which the first has these cells.
fn cores(
    strip: &[i32; 1296],
    dc: &mut [i32],
    low: &mut [i32],
    high: &mut [i32],
    cells: Cells,
    n: usize,
)
    requires n_bound { n ≤ 4 }
    requires n_in_bounds { (cells.dc + n ≤ length dc.old) × (cells.low + 15 * n ≤ length low.old) × (cells.high + 240 * n ≤ length high.old) }
    ensures by_index { (t b : ℕ) → b < n → t / 16 ≡ cells.dc + b → block_of dc.new low.new high.new t ≡ undone_in 72 (16 * b) strip.now (t % 16) }
    ensures by_index_2 { (t : ℕ) → (Among cells.dc (cells.dc + n) t → ⊥) → block_of dc.new low.new high.new t ≡ block_of dc.old low.old high.old t }
{
    for b in 0..n {
        undo_macroblock(strip, 72, 16 * b, dc, low, high, cells.after(b));
    }
}

// Rows 0 and 1 of the strip, where a row of macroblocks above has parked them.
fn upper(
    here: &Macroblock,
    n: usize,
    samples: &[i32],
    planes: &Planes,
    cells: Cells,
    strip: &mut [i32; 1296],
)
    requires lengths { Lengths (macroblocks here.now.size) planes.now }
    requires n_nonzero { (0 < n) × (n ≤ 4) × (here.now.c + n ≤ here.now.size.width.0) }
    requires dc_value { cells.dc ≡ here.now.r * here.now.size.width.0 + here.now.c }
    requires holds { Holds here.now.size samples.now here.now.r here.now.c here.now.first 18 0 (16 * n + 2) strip.old }
    requires through { Through here.now.size samples.now (here.now.r * here.now.size.width.0 + here.now.c) (block_of planes.now.dc planes.now.low planes.now.high) }
    ensures holds_2 { Holds here.now.size samples.now here.now.r here.now.c 0 18 0 (16 * n) strip.new }
    ensures holds_3 { Holds here.now.size samples.now here.now.r here.now.c here.now.first 18 0 (16 * n + 2) strip.new }
{
    if here.first > 0 {
        fetch(planes, cells, n, strip);
    }
}

// Rows 16 and 17 of the strip, where there is a row of macroblocks below.
fn lower(
    here: &Macroblock,
    n: usize,
    dc: &mut [i32],
    low: &mut [i32],
    high: &mut [i32],
    cells: Cells,
    strip: &[i32; 1296],
)
    requires dc_value { cells.dc ≡ here.now.r * here.now.size.width.0 + here.now.c }
    requires n_bound { (n ≤ 4) × (here.now.c + n ≤ here.now.size.width.0) }
    requires lengths { Lengths (macroblocks here.now.size) (planes dc.old low.old high.old) }
    ensures { Lowered here.now.size (here.now.r * here.now.size.width.0 + here.now.c + here.now.size.width.0) n strip.now (block_of dc.old low.old high.old) (block_of dc.new low.new high.new) }
{
    if here.down == 4 {
        park(dc, low, high, cells.after(here.columns()), n, strip);
    }
}

// n macroblocks, of which the first has these cells of the planes.
fn group(
    here: &Macroblock,
    n: usize,
    samples: &[i32],
    dc: &mut [i32],
    low: &mut [i32],
    high: &mut [i32],
    cells: Cells,
    strip: &mut [i32; 1296],
)
    requires samples_len { length samples.now ≡ 256 * macroblocks here.now.size }
    requires dc_value { cells.dc ≡ here.now.r * here.now.size.width.0 + here.now.c }
    requires lengths { Lengths (macroblocks here.now.size) (planes dc.old low.old high.old) }
    requires n_nonzero { (0 < n) × (n ≤ 4) × (here.now.c + n ≤ here.now.size.width.0) }
    requires carried { 0 < here.now.c → Carried here.now.size samples.now here.now.r here.now.c here.now.first strip.old }
    requires through { Through here.now.size samples.now (here.now.r * here.now.size.width.0 + here.now.c) (block_of dc.old low.old high.old) }
    ensures through_2 { Through here.now.size samples.now (here.now.r * here.now.size.width.0 + here.now.c + n) (block_of dc.new low.new high.new) }
    ensures carried_2 { n ≡ 4 → here.now.c + n < here.now.size.width.0 → Carried here.now.size samples.now here.now.r (here.now.c + n) here.now.first strip.new }
{
    fill(here, n, samples, strip);
    upper(here, n, samples, &Planes { dc, low, high }, cells, strip);
    cores(strip, dc, low, high, cells, n);
    lower(here, n, dc, low, high, cells, strip);
}

// The row of macroblocks that begins with this one and with these cells of the planes.
fn undo_row(
    first: &Macroblock,
    samples: &[i32],
    dc: &mut [i32],
    low: &mut [i32],
    high: &mut [i32],
    cells: Cells,
    strip: &mut [i32; 1296],
)
    requires samples_len { length samples.now ≡ 256 * macroblocks first.now.size }
    requires c_value { first.now.c ≡ 0 }
    requires dc_value { cells.dc ≡ first.now.r * first.now.size.width.0 }
    requires lengths { Lengths (macroblocks first.now.size) (planes dc.old low.old high.old) }
    requires through { Through first.now.size samples.now (first.now.r * first.now.size.width.0) (block_of dc.old low.old high.old) }
    ensures { Through first.now.size samples.now (first.now.r * first.now.size.width.0 + first.now.size.width.0) (block_of dc.new low.new high.new) }
{
    let columns = first.columns();
    for c in (0..columns).step_by(4) {
        let here = first.after(c);
        let n = (columns - c).min(4);
        group(&here, n, samples, dc, low, high, cells.after(c), strip);
    }
}

// A level with filters: the strip goes over the picture. Whether a row of macroblocks has a large sample is seen before the strip goes over it: the look
// brings the samples into the cache in the order of memory, which in a wide picture saves more time than the look takes.
fn undo_filtered(
    size: PictureSize,
    samples: &[i32],
    dc: &mut [i32],
    low: &mut [i32],
    high: &mut [i32],
) -> bool
    requires samples_len { length samples.now ≡ 256 * macroblocks size }
    requires lengths { Lengths (macroblocks size) (planes dc.old low.old high.old) }
    ensures high_after { second_grid size.width.0 size.height.0 (first_grid size.width.0 size.height.0 dc.new low.new) high.new ≡ undo (coresOf (4 * size.width.0) (4 * size.height.0)) (unfiltered size samples.now) }
    ensures within { result ≡ false → Within 33554432 samples.now }
{
    let columns = size.across();
    let rows = size.down();
    let w = size.samples().width.0 as usize;
    let mut strip = [0i32; 1296];
    let mut large = false;
    let mut at = 0;
    let mut cells = Cells::first();
    for r in 0..rows {
        let first = Macroblock::first_of(size, r, at);
        large |= some_large(samples, at, 16 * w);
        undo_row(&first, samples, dc, low, high, cells, &mut strip);
        at += 16 * w;
        cells = cells.after(columns);
    }
    large
}

// Level two undone, its filters, where the mode has them, and its cores; and whether a sample is large.
pub fn undo_level_two(
    filtered: bool,
    size: PictureSize,
    samples: &[i32],
    dc: &mut [i32],
    low: &mut [i32],
    high: &mut [i32],
) -> bool
    requires samples_len { length samples.now ≡ 256 * macroblocks size }
    requires dc_len { (length dc.old ≡ macroblocks size) × (length low.old ≡ 15 * macroblocks size) × (length high.old ≡ 240 * macroblocks size) }
    ensures high_after { second_grid size.width.0 size.height.0 (first_grid size.width.0 size.height.0 dc.new low.new) high.new ≡
        undo (level filtered (4 * size.width.0) (4 * size.height.0)) samples.now }
    ensures within { result ≡ false → Within 33554432 samples.now }
{
    if filtered {
        undo_filtered(size, samples, dc, low, high)
    } else {
        undo_cores(size, samples, dc, low, high)
    }
}
