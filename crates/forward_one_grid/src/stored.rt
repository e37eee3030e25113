// Numbers of level one's grid stored. The two slices stay two parameters: a struct that holds a `&mut` needs, in each contract, that its size and the names of both
// borrows stay what they were, and under a model its lender learns nothing of the numbers.
ghost use Rattle.std.specs.Prelude.{◌≡◌, ◌*◌, ◌<◌, set};
ghost use Rattle.lifting.specs.Program.{put};
ghost use Rattle.figures.specs.Block.{four, flat};
ghost use Rattle.transform.specs.Grids.{place};
ghost use Rattle.picture.specs.Sizes.{macroblocks};
ghost use Rattle.forward_one_grid.specs.Held.{numbers, Held, window};
ghost use Rattle.forward_one_grid.specs.Places.{pairs, Inside, Meets};

use crate::places::{Pairs, Window};
use picture::picture_size::PictureSize;

// Coefficient k of square t becomes x. The contract alone speaks of the size: a number's place in the slices does not depend on it.
fn put_number(size: PictureSize, dc: &mut [i32], low: &mut [i32], t: usize, k: usize, x: i32)
    requires held { Held size dc.old low.old }
    requires t_bound { (t < macroblocks size) × (k < 16) }
    ensures { numbers size dc.new low.new ≡
        set (numbers size dc.old low.old) (place size.width.0 t k) x }
{
    if k == 0 {
        dc[t] = x;
        return;
    }
    low[15 * t + (k - 1)] = x;
}

pub fn put_pairs(size: PictureSize, dc: &mut [i32], low: &mut [i32], p: Pairs, v: [i32; 4])
    requires held { Held size dc.old low.old }
    requires inside { Inside size p }
    ensures { numbers size dc.new low.new ≡
        put (pairs size p) (four v) (numbers size dc.old low.old) }
{
    put_number(size, dc, low, p.t, p.k, v[0]);
    put_number(size, dc, low, p.t, p.k + p.step, v[1]);
    put_number(size, dc, low, p.u, p.l, v[2]);
    put_number(size, dc, low, p.u, p.l + p.step, v[3]);
}

// Two lines across the edge between the upper two squares, and two between the lower two.
pub fn put_window(size: PictureSize, dc: &mut [i32], low: &mut [i32], w: Window, b: [[i32; 4]; 4])
    requires held { Held size dc.old low.old }
    requires meets { Meets size w }
    ensures { numbers size dc.new low.new ≡
        put (window size w.j w.i) (flat b) (numbers size dc.old low.old) }
{
    let below = w.t + (size.get().width.0 as usize);
    put_pairs(size, dc, low, Pairs::along(w.t, 2), b[0]);
    put_pairs(size, dc, low, Pairs::along(w.t, 3), b[1]);
    put_pairs(size, dc, low, Pairs::along(below, 0), b[2]);
    put_pairs(size, dc, low, Pairs::along(below, 1), b[3]);
}
