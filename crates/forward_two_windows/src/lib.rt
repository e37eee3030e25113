// The windows of level two in the strip: the filters over the corners that four blocks share, undone from the samples.
#![tactic(auto)]

ghost use Rattle.std.specs.Prelude.{◌≡◌, ℕ, ◌+◌, ◌*◌, ◌<◌, ◌≤◌, length};
ghost use Rattle.picture.specs.Sizes.{macroblocks};
ghost use Rattle.forward_two_edges.specs.Strip.{Holds, Kept, Stands};

use forward_four_windows::undo_four_windows;
use forward_two_edges::macroblock::Macroblock;
use forward_two_edges::place::Place;

// Four windows of window row v, from window l on; the row begins at place `at`. Where the picture ends sooner, those that it has are right, and no sample outside it is read.
fn windows_at(
    here: &Macroblock,
    samples: &[i32],
    at: Place,
    v: usize,
    l: usize,
    strip: &mut [i32; 1296],
)
    requires samples_len { length samples.now ≡ 256 * macroblocks here.now.size }
    requires stands { Stands here.now.size here.now.r here.now.c (4 * v + 2) 0 at }
    requires v_bound { (v < 4) × (l ≤ 12) }
    requires v_bound_2 { (4 * here.now.r + v + 1 < 4 * here.now.size.height.0) × (4 * here.now.c + l + 1 < 4 * here.now.size.width.0) }
    ensures by_index { (k : ℕ) → k ≤ 4 * l + 18 → 16 * here.now.c + k + 2 ≤ 16 * here.now.size.width.0 → Holds here.now.size samples.now here.now.r here.now.c (4 * v + 2) (4 * v + 6) (4 * l + 2) k strip.new }
    ensures kept { Kept (4 * v + 2) (4 * v + 6) (4 * l + 2) (4 * l + 18) strip.old strip.new }
{
    let w = here.row_samples();
    let x = 4 * l + 2;
    undo_four_windows(samples, w, at.samples + x, strip, at.strip + x);
}

// n windows of window row v, four at a time: the last four may have some that the picture has not, in columns that nobody reads.
fn window_row(
    here: &Macroblock,
    samples: &[i32],
    at: Place,
    v: usize,
    n: usize,
    strip: &mut [i32; 1296],
)
    requires samples_len { length samples.now ≡ 256 * macroblocks here.now.size }
    requires stands { Stands here.now.size here.now.r here.now.c (4 * v + 2) 0 at }
    requires v_bound { (v < 4) × (n ≤ 16) }
    requires v_bound_2 { (4 * here.now.r + v + 1 < 4 * here.now.size.height.0) × (4 * here.now.c + n < 4 * here.now.size.width.0) }
    ensures holds { Holds here.now.size samples.now here.now.r here.now.c (4 * v + 2) (4 * v + 6) 2 (4 * n + 2) strip.new }
    ensures kept { Kept (4 * v + 2) (4 * v + 6) 2 72 strip.old strip.new }
{
    for l in (0..n).step_by(4) {
        windows_at(here, samples, at, v, l, strip);
    }
}

// The first n windows of each of `down` window rows, of which the first begins at place `at`. The place where the next would begin is given back.
pub fn windows(
    here: &Macroblock,
    samples: &[i32],
    at: Place,
    down: usize,
    n: usize,
    strip: &mut [i32; 1296],
) -> Place
    requires samples_len { length samples.now ≡ 256 * macroblocks here.now.size }
    requires stands { Stands here.now.size here.now.r here.now.c 2 0 at }
    requires down_bound { (down ≤ 4) × (n ≤ 16) }
    requires down_bound_2 { (4 * here.now.r + down < 4 * here.now.size.height.0) × (4 * here.now.c + n < 4 * here.now.size.width.0) }
    ensures holds { Holds here.now.size samples.now here.now.r here.now.c 2 (4 * down + 2) 2 (4 * n + 2) strip.new }
    ensures kept { Kept 2 (4 * down + 2) 2 72 strip.old strip.new }
    ensures stands_2 { Stands here.now.size here.now.r here.now.c (4 * down + 2) 0 result }
{
    let w = here.row_samples();
    let mut row = at;
    for v in 0..down {
        window_row(here, samples, row, v, n, strip);
        row = row.below(4, w);
    }
    row
}
