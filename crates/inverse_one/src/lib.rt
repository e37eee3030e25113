// Level one of the inverse transform: from the DC and low-pass planes to the numbers from which level two goes on, which are also the quarter view.
#![tactic(auto)]

mod cores; // cores.rt: the core transforms

ghost use Rattle.std.specs.Prelude.{◌≡◌, ◌+◌, ◌*◌, ◌<◌, length};
ghost use Rattle.lifting.specs.Program.{run};
ghost use Rattle.transform.specs.Level.{level};
ghost use Rattle.transform.specs.Grids.{first_grid};
ghost use Rattle.picture.specs.Sizes.{macroblocks};
ghost use Rattle.inverse_levels.specs.Filled.{Filled};
ghost use Rattle.inverse_one.specs.Rows.{plane_numbers, Between};

use crate::cores::cores;
use grid::size::Squares;
use grid::{coefficient_block, put_square};
use inverse_levels::{edges_if, windows_if};
use picture::picture_size::PictureSize;

// Row r of the macroblocks, which begins at place `at` of the grid and with macroblock m of the planes; its low-pass numbers stand from `from` on.
fn grid_row(
    view: &mut [i32],
    size: PictureSize,
    r: usize,
    at: usize,
    dc: &[i32],
    low: &[i32],
    m: usize,
    from: usize,
)
    requires r_bound { r < size.height.0 }
    requires at_value { (at ≡ r * (16 * size.width.0)) × (m ≡ r * size.width.0) × (from ≡ r * (15 * size.width.0)) }
    requires view_len { length view.old ≡ 16 * macroblocks size }
    requires dc_len { (length dc.now ≡ macroblocks size) × (length low.now ≡ 15 * macroblocks size) }
    ensures { Filled size.width.0 (plane_numbers dc.now low.now) view.old (Between m (m + size.width.0)) view.new }
{
    let across = size.get().width;
    let p = across.0 as usize;
    let w = across.blocks().0 as usize;
    for c in 0..p {
        let block = coefficient_block(dc[m + c], low, from + 15 * c);
        put_square(view, w, at + 4 * c, block);
    }
}

// Each macroblock's square holds its DC number and then its low-pass numbers.
fn first_grid(view: &mut [i32], size: PictureSize, dc: &[i32], low: &[i32])
    requires view_len { length view.old ≡ 16 * macroblocks size }
    requires dc_len { (length dc.now ≡ macroblocks size) × (length low.now ≡ 15 * macroblocks size) }
    ensures { view.new ≡ first_grid size.width.0 size.height.0 dc.now low.now }
{
    let counts = size.get();
    let across = counts.width.0 as usize;
    let down = counts.height.0 as usize;
    let w = 4 * across;
    let mut at = 0;
    let mut m = 0;
    let mut from = 0;
    for r in 0..down {
        grid_row(view, size, r, at, dc, low, m, from);
        at += 4 * w;
        m += across;
        from += 15 * across;
    }
}

pub fn level_one(view: &mut [i32], filtered: bool, size: PictureSize, dc: &[i32], low: &[i32])
    requires view_len { length view.old ≡ 16 * macroblocks size }
    requires dc_len { (length dc.now ≡ macroblocks size) × (length low.now ≡ 15 * macroblocks size) }
    ensures { view.new ≡
        run (level filtered size.width.0 size.height.0) (first_grid size.width.0 size.height.0 dc.now low.now) }
{
    first_grid(view, size, dc, low);
    let counts = size.get();
    let squares = Squares {
        across: counts.width.0 as usize,
        down: counts.height.0 as usize,
    };
    cores(view, squares);
    windows_if(view, filtered, squares, 0, squares.down - 1);
    edges_if(view, filtered, squares);
}
