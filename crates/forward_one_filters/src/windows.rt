// Up to four windows side by side in level one's grid, their filters undone: they are read before any is stored, and no two overlap.
ghost use Rattle.std.specs.Prelude.{◌≡◌, ℕ, ◌+◌, ◌*◌, ◌<◌};
ghost use Rattle.lifting.specs.Program.{get, undo};
ghost use Rattle.figures.specs.Figures.{square_filter};
ghost use Rattle.transform.specs.Level.{square};
ghost use Rattle.forward_one_grid.specs.Held.{numbers, Held, window};
ghost use Rattle.forward_one_filters.specs.Windows.{filters_on, Group};

use forward_four_windows::undo_four_windows;
use forward_one_grid::lent::LevelOne;
use forward_one_grid::places::Window;
use forward_one_grid::stored::put_window;
use grid::{get_square, put_square};
use picture::picture_size::PictureSize;

// The n windows from w on, side by side in an array of 16 columns.
#[inline(always)]
fn get_windows(level: &LevelOne, w: Window, n: usize, held: &mut [i32; 64])
    requires { Group level.now.size w n }
    ensures { (l : ℕ) → l < n → get (square 16 (4 * l)) held.new ≡ get (window level.now.size w.j (w.i + l)) level.now.numbers }
{
    let _ = level.squares(); // squares of a picture are few: their numbers fit
    for l in 0..n {
        put_square(held, 16, 4 * l, level.get_window(w.right(l)));
    }
}

// The same windows, from the last to the first, as they stand undone side by side in `out`, which has 72 columns.
#[inline(always)]
fn put_windows(
    size: PictureSize,
    dc: &mut [i32],
    low: &mut [i32],
    w: Window,
    n: usize,
    out: &[i32; 288],
)
    requires held { Held size dc.old low.old }
    requires beside { Group size w n }
    requires by_index { (l : ℕ) → l < n → get (square 72 (4 * l)) out.now ≡ undo square_filter (get (window size w.j (w.i + l)) (numbers size dc.old low.old)) }
    ensures { numbers size dc.new low.new ≡ undo (filters_on size w.j w.i n) (numbers size dc.old low.old) }
{
    for l in (0..n).rev() {
        put_window(size, dc, low, w.right(l), get_square(out, 72, 4 * l));
    }
}

// The function that undoes the windows undoes those of the samples too: the compiler takes the filter into its loop, and makes vectors of it,
// only while nobody else uses the filter. What goes into it and comes out is read and stored in the loop over a row.
#[inline(always)]
pub fn undo_group(size: PictureSize, dc: &mut [i32], low: &mut [i32], w: Window, n: usize)
    requires held { Held size dc.old low.old }
    requires beside { Group size w n }
    ensures { numbers size dc.new low.new ≡ undo (filters_on size w.j w.i n) (numbers size dc.old low.old) }
{
    let mut held = [0i32; 64];
    get_windows(&LevelOne::new(size, dc, low), w, n, &mut held);
    let mut out = [0i32; 288];
    undo_four_windows(&held, 16, 0, &mut out, 0);
    put_windows(size, dc, low, w, n, &out);
}
