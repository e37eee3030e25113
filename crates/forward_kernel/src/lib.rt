// Four blocks side by side in a grid, their core transforms undone in four lanes, as coefficients 0 and coefficients 1 to 15.
#![tactic(auto)]

ghost use Rattle.std.specs.Prelude.{◌≡◌, List, ℕ, ◌+◌, ◌*◌, ◌/◌, ◌%◌, ◌<◌, length, ℤ};
ghost use Rattle.lifting.specs.Program.{at as number};
ghost use Rattle.figures.specs.Block.{flat};
ghost use Rattle.forward_kernel.specs.Placed.{Placed, InLane, undone_at};

use core_transform::undo_core;
use grid::{get_four, put_four};
use lanes::{lane, row};

// A block goes to lane l. Its coefficient 4 is stored twice, so that each row of a lane is four numbers that stand together in the plane.
fn put_lane(b: [[i32; 4]; 4], l: usize, zeros: &mut [i32; 4], out: &mut [i32; 64])
    requires { l < 4 }
    ensures placed { Placed l 1 (number (flat b)) zeros.old zeros.new }
    ensures in_lane { InLane l (flat b) out.new }
    ensures by_index { (i : ℕ) → (i % 16 / 4 ≡ l → ⊥) → number out.new i ≡ number out.old i }
{
    let [top, second, third, fourth] = b;
    zeros[l] = top[0];
    put_four(out, 1, 4 * l, [top[1], top[2], top[3], second[0]]);
    put_four(out, 1, 16 + 4 * l, second);
    put_four(out, 1, 32 + 4 * l, third);
    put_four(out, 1, 48 + 4 * l, fourth);
}

// The coefficients 1 to 15 of the block in lane l, from its rows: the number three places on is stored twice.
fn move_lane(out: &[i32; 64], l: usize, rest: &mut [i32], from: usize)
    requires l_bound { l < 4 }
    requires from_in_bounds { from + 14 < length rest.old }
    ensures { (b : List ℤ) → InLane l b out.now → Placed from 15 (λ k. number b (k + 1)) rest.old rest.new }
{
    put_four(rest, 1, from, get_four(out, 1, 4 * l));
    put_four(rest, 1, from + 3, get_four(out, 1, 16 + 4 * l));
    put_four(rest, 1, from + 7, get_four(out, 1, 32 + 4 * l));
    put_four(rest, 1, from + 11, get_four(out, 1, 48 + 4 * l));
}

// The four blocks of the lanes one after another.
fn move_lanes(out: &[i32; 64], rest: &mut [i32], from: usize)
    requires { from + 59 < length rest.old }
    ensures { (b : ℕ → List ℤ) → ((l : ℕ) → l < 4 → InLane l (b l) out.now) → Placed from 60 (λ k. number (b (k / 15)) (k % 15 + 1)) rest.old rest.new }
{
    move_lane(out, 0, rest, from);
    move_lane(out, 1, rest, from + 15);
    move_lane(out, 2, rest, from + 30);
    move_lane(out, 3, rest, from + 45);
}

// The four blocks of a grid of `w` columns whose first number stands at `at`: their coefficients 0, and their coefficients 1 to 15 from place `from` on.
pub fn undo_four_cores(grid: &[i32], w: usize, at: usize, rest: &mut [i32], from: usize) -> [i32; 4]
    requires w_in_bounds { at + w + w + w + 15 < length grid.now }
    requires from_in_bounds { from + 59 < length rest.old }
    ensures by_index { (l : ℕ) → l < 4 → number result l ≡ number (undone_at w (at + 4 * l) grid.now) 0 }
    ensures placed { Placed from 60 (λ k. number (undone_at w (at + 4 * (k / 15)) grid.now) (k % 15 + 1)) rest.old rest.new }
{
    let a = row(grid, 4, at);
    let b = row(grid, 4, at + w);
    let c = row(grid, 4, at + w + w);
    let d = row(grid, 4, at + w + w + w);
    let mut zeros = [0; 4];
    let mut out = [0; 64];
    for l in 0..4 {
        let block = undo_core(lane(&a, &b, &c, &d, 12 - 4 * l));
        put_lane(block, l, &mut zeros, &mut out);
    }
    move_lanes(&out, rest, from);
    zeros
}
