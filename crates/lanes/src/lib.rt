// Four squares side by side as four lanes, for loops over the lanes, and what comes of them moved out by rows of sixteen.
// Each row of the squares is held in a local array of sixteen numbers, lane 0's four last and lane 3's first. So the compiler reads fours, turns them in
// registers, and the arrays vanish. Where four more numbers follow those of lane 0, as in one array or struct of all four rows, it reads across them, and
// the rows stay in memory.
#![tactic(auto)]

ghost use Rattle.std.specs.Prelude.{◌≡◌, ℕ, ◌+◌, ◌*◌, ◌<◌, ◌≤◌, length};
ghost use Rattle.figures.specs.Block.{flat};
ghost use Rattle.lanes.specs.Lanes.{rows_at, InLanes, SquareBy, Moved, Placed};

use grid::{get_four, put_four, put_square};

// Four numbers for each lane: those of lane l are the four from `from` + step * l on.
pub fn row(s: &[i32], step: usize, from: usize) -> [i32; 16]
    requires { from + step + step + step + 3 < length s.now }
    ensures { InLanes s.now step from result }
{
    let mut row = [0; 16];
    put_four(&mut row, 1, 12, get_four(s, 1, from));
    put_four(&mut row, 1, 8, get_four(s, 1, from + step));
    put_four(&mut row, 1, 4, get_four(s, 1, from + step + step));
    put_four(&mut row, 1, 0, get_four(s, 1, from + step + step + step));
    row
}

// The square of the lane whose numbers stand from `at` on in each row: lane l's at 12 - 4 l.
pub fn lane(a: &[i32; 16], b: &[i32; 16], c: &[i32; 16], d: &[i32; 16], at: usize) -> [[i32; 4]; 4]
    requires { at + 3 < 16 }
    ensures { flat result ≡ rows_at a.now b.now c.now d.now at }
{
    [
        get_four(a, 1, at),
        get_four(b, 1, at),
        get_four(c, 1, at),
        get_four(d, 1, at),
    ]
}

// Four squares of a grid of w columns, side by side, the first at `at`, each put through f. The four results are side by side too, in rows of sixteen.
pub fn each_square<F: Fn([[i32; 4]; 4]) -> [[i32; 4]; 4]>(
    grid: &[i32],
    w: usize,
    at: usize,
    f: F,
) -> [i32; 64]
    requires w_in_bounds { at + w + w + w + 15 < length grid.now }
    requires callable { F.IsAlwaysCallable f }
    ensures { (l : ℕ) → l < 4 → SquareBy (F.post f) grid.now w at result l }
{
    let a = row(grid, 4, at);
    let b = row(grid, 4, at + w);
    let c = row(grid, 4, at + w + w);
    let d = row(grid, 4, at + w + w + w);
    let mut out = [0; 64];
    for l in 0..4 {
        put_square(&mut out, 16, 4 * l, f(lane(&a, &b, &c, &d, 12 - 4 * l)));
    }
    out
}

// Sixteen numbers, by fours: four are read before four are stored, so that the compiler asks nothing of the two slices.
pub fn move_row(s: &[i32; 64], from: usize, out: &mut [i32], to: usize)
    requires from_in_bounds { from + 15 < 64 }
    requires to_in_bounds { to + 15 < length out.old }
    ensures { Moved s.now from 16 out.old to out.new }
{
    put_four(out, 1, to, get_four(s, 1, from));
    put_four(out, 1, to + 4, get_four(s, 1, from + 4));
    put_four(out, 1, to + 8, get_four(s, 1, from + 8));
    put_four(out, 1, to + 12, get_four(s, 1, from + 12));
}

// Four squares side by side, one row of sixteen after another, to the places from `at` on of a grid of w columns.
pub fn move_squares(s: &[i32; 64], grid: &mut [i32], w: usize, at: usize)
    requires { (16 ≤ w) × (at + w + w + w + 15 < length grid.old) }
    ensures { Placed s.now grid.old w at grid.new }
{
    move_row(s, 0, grid, at);
    move_row(s, 16, grid, at + w);
    move_row(s, 32, grid, at + w + w);
    move_row(s, 48, grid, at + w + w + w);
}
