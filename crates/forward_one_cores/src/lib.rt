// The core transforms of level one undone in DC and low-pass, up to four macroblocks at a time.
#![tactic(auto)]

ghost use Rattle.std.specs.Prelude.{◌≡◌, ℕ, ◌+◌, ◌-◌, ◌*◌, ◌<◌, ◌≤◌};
ghost use Rattle.lifting.specs.Program.{undo, get};
ghost use Rattle.figures.specs.Figures.{core};
ghost use Rattle.transform.specs.Level.{square, cores};
ghost use Rattle.forward_one_grid.specs.Held.{numbers, over, Held};
ghost use Rattle.forward_kernel.specs.Placed.{block_in};
ghost use Rattle.forward_one_cores.specs.Blocks.{Room, Replaced};

use forward_kernel::undo_four_cores;
use grid::{coefficient_block, put_square};
use picture::picture_size::PictureSize;

// The n macroblocks from t on, whose low-pass numbers stand from `from` on, side by side in an array of 16 columns.
fn get_blocks(dc: &[i32], low: &[i32], t: usize, from: usize, n: usize, held: &mut [i32; 64])
    requires room { Room (t + n) dc.now low.now × (from ≡ 15 * t) }
    requires n_bound { n ≤ 4 }
    ensures { (l : ℕ) → l < n → get (square 16 (4 * l)) held.new ≡ block_in dc.now low.now (t + l) }
{
    for l in 0..n {
        put_square(
            held,
            16,
            4 * l,
            coefficient_block(dc[t + l], low, from + 15 * l),
        );
    }
}

// The first n blocks of two lists become the macroblocks from t on, whose low-pass numbers stand from `to` on: block by block, since a move whose length the
// compiler does not know is a call of memcpy, and the archive for C is to need none.
fn move_blocks(
    zeros: &[i32; 4],
    rest: &[i32; 60],
    n: usize,
    dc: &mut [i32],
    low: &mut [i32],
    t: usize,
    to: usize,
)
    requires n_bound { n ≤ 4 }
    requires room { Room (t + n) dc.old low.old × (to ≡ 15 * t) }
    ensures { Replaced t n (λ s. block_in zeros.now rest.now (s - t)) (block_in dc.old low.old) (block_in dc.new low.new) }
{
    for l in 0..n {
        let from = 15 * l;
        let at = to + from;
        dc[t + l] = zeros[l];
        low[at..at + 15].copy_from_slice(&rest[from..from + 15]);
    }
}

// The n macroblocks from t on, whose low-pass numbers stand from `from` on, their cores undone. Lanes without a macroblock are undone too, and nothing is stored of them.
fn undo_group(dc: &mut [i32], low: &mut [i32], t: usize, from: usize, n: usize)
    requires room { Room (t + n) dc.old low.old × (from ≡ 15 * t) }
    requires n_bound { n ≤ 4 }
    ensures { Replaced t n (λ s. undo core (block_in dc.old low.old s)) (block_in dc.old low.old) (block_in dc.new low.new) }
{
    let mut held = [0i32; 64];
    get_blocks(dc, low, t, from, n, &mut held);
    let mut rest = [0i32; 60];
    let zeros = undo_four_cores(&held, 16, 0, &mut rest, 0);
    move_blocks(&zeros, &rest, n, dc, low, t, from);
}

pub fn undo_cores(size: PictureSize, dc: &mut [i32], low: &mut [i32])
    requires { Held size dc.old low.old }
    ensures { numbers size dc.new low.new ≡ undo (over size cores) (numbers size dc.old low.old) }
{
    let all = dc.len();
    let mut from = 0;
    for t in (0..all).step_by(4) {
        undo_group(dc, low, t, from, (all - t).min(4));
        from += 60;
    }
}
