// Windows of the overlap filter of squares, side by side, up to four at a time: the filter runs in four lanes, and each lane that is a window moves back to its place.
ghost use Rattle.std.specs.Prelude.{◌≡◌, ◌+◌, ◌*◌, ◌<◌, ◌≤◌, length};
ghost use Rattle.lifting.specs.Program.{run, get, put, each};
ghost use Rattle.transform.specs.Level.{square, square_filter_at};

use grid::{get_square, put_square};
use lanes::each_square;
use square_filter::square_filter;

// Square l of four to its place.
fn move_square(s: &[i32; 64], l: usize, grid: &mut [i32], w: usize, at: usize)
    requires { (l < 4) × (at + 4 * l + w + w + w + 3 < length grid.old) }
    ensures { grid.new ≡ put (square w (at + 4 * l)) (get (square 16 (4 * l)) s.now) grid.old }
{
    put_square(grid, w, at + 4 * l, get_square(s, 16, 4 * l));
}

// n windows of a grid of w columns, the first at `at`. Four are read and filtered whatever n is, and n are stored.
// Each is stored from fixed places of the array, so that the array vanishes into registers.
pub fn four_windows(grid: &mut [i32], w: usize, at: usize, n: usize)
    requires { (0 < n) × (n ≤ 4) × (4 * n ≤ w) × (at + w + w + w + 15 < length grid.old) }
    ensures { grid.new ≡ run (each n (λ i. square_filter_at w (at + 4 * i))) grid.old }
{
    let out = each_square(grid, w, at, square_filter);
    move_square(&out, 0, grid, w, at);
    if n == 1 {
        return;
    }
    move_square(&out, 1, grid, w, at);
    if n == 2 {
        return;
    }
    move_square(&out, 2, grid, w, at);
    if n == 3 {
        return;
    }
    move_square(&out, 3, grid, w, at);
}
