// The edges of a picture in the strip: the filters of four along them, and at the corners, undone from the samples.
#![tactic(auto)]

pub mod macroblock; // macroblock.rt: a macroblock of a picture
pub mod place; // place.rt: a place of the picture, in the samples and in the strip

ghost use Rattle.std.specs.Prelude.{◌≡◌, ℕ, ◌+◌, ◌*◌, ◌/◌, ◌%◌, ◌<◌, ◌≤◌, length};
ghost use Rattle.lifting.specs.Program.{at as number};
ghost use Rattle.picture.specs.Sizes.{macroblocks};
ghost use Rattle.forward_two_edges.specs.Unfiltered.{Edge, First};
ghost use Rattle.forward_two_edges.specs.Strip.{Holds, Kept, Stands, Spread, Columns, unfiltered_at};

use crate::macroblock::Macroblock;
use crate::place::Place;
use four_filter::unfiltered;
use grid::{get_corner, get_four, put_corner, put_four};

// One four of samples `step` apart, unfiltered to numbers of the strip that are `far` apart.
fn unfilter_four(
    samples: &[i32],
    step: usize,
    at: usize,
    strip: &mut [i32; 1296],
    far: usize,
    to: usize,
)
    requires step_in_bounds { at + step + step + step < length samples.now }
    requires far_nonzero { (0 < far) × (to + far + far + far < 1296) }
    ensures { Spread to far 4 (number (unfiltered_at samples.now step at)) strip.old strip.new }
{
    let v = unfiltered(get_four(samples, step, at));
    put_four(strip, far, to, v);
}

// n fours of row y, which begins at place `at` and lies at an edge.
fn edge_row(
    here: &Macroblock,
    samples: &[i32],
    at: Place,
    y: usize,
    n: usize,
    strip: &mut [i32; 1296],
)
    requires samples_len { length samples.now ≡ 256 * macroblocks here.now.size }
    requires stands { Stands here.now.size here.now.r here.now.c y 0 at }
    requires y_bound { (y < 18) × (n ≤ 16) × (4 * here.now.c + n < 4 * here.now.size.width.0) }
    requires edge { Edge (4 * here.now.size.height.0) (16 * here.now.r + y) × (16 * here.now.r + y < 16 * here.now.size.height.0) }
    ensures holds { Holds here.now.size samples.now here.now.r here.now.c y (y + 1) 2 (4 * n + 2) strip.new }
    ensures kept { Kept y (y + 1) 2 (4 * n + 2) strip.old strip.new }
{
    for l in 0..n {
        let x = 4 * l + 2;
        unfilter_four(samples, 1, at.samples + x, strip, 1, at.strip + x);
    }
}

// n fours of each row from `top`, which begins at place `at`, to `bottom`; they lie at an edge.
pub fn edge_rows(
    here: &Macroblock,
    samples: &[i32],
    at: Place,
    top: usize,
    bottom: usize,
    n: usize,
    strip: &mut [i32; 1296],
)
    requires samples_len { length samples.now ≡ 256 * macroblocks here.now.size }
    requires stands { top < bottom → Stands here.now.size here.now.r here.now.c top 0 at }
    requires bottom_bound { (bottom ≤ 18) × (n ≤ 16) × (4 * here.now.c + n < 4 * here.now.size.width.0) }
    requires by_index { (y : ℕ) → top ≤ y → y < bottom → Edge (4 * here.now.size.height.0) (16 * here.now.r + y) × (16 * here.now.r + y < 16 * here.now.size.height.0) }
    ensures holds { Holds here.now.size samples.now here.now.r here.now.c top bottom 2 (4 * n + 2) strip.new }
    ensures kept { Kept top bottom 2 (4 * n + 2) strip.old strip.new }
{
    let w = here.row_samples();
    let mut row = at;
    for y in top..bottom {
        edge_row(here, samples, row, y, n, strip);
        row = row.below(1, w);
    }
}

// Columns x and x + 1 of the rows from `top`, which begins there at place `at`, to `bottom`: a corner of the picture, unfiltered, or no rows at all.
fn corner(
    here: &Macroblock,
    samples: &[i32],
    at: Place,
    top: usize,
    bottom: usize,
    strip: &mut [i32; 1296],
    x: usize,
)
    requires samples_len { length samples.now ≡ 256 * macroblocks here.now.size }
    requires stands { top < bottom → Stands here.now.size here.now.r here.now.c top x at }
    requires bottom_bound { (bottom ≤ 16) × (x ≤ 70) × First (4 * here.now.size.width.0) (16 * here.now.c + x) }
    requires bottom_value { top < bottom → (bottom ≡ top + 2) × First (4 * here.now.size.height.0) (16 * here.now.r + top) }
    ensures holds { Holds here.now.size samples.now here.now.r here.now.c top bottom x (x + 2) strip.new }
    ensures kept { Kept top bottom x (x + 2) strip.old strip.new }
{
    if top < bottom {
        let w = here.row_samples();
        let filtered = get_corner(samples, w, at.samples);
        let undone = unfiltered(filtered);
        put_corner(strip, 72, at.strip, undone);
    }
}

// n fours one below the other in each of two columns of samples side by side, `w` of which make a row, from place `at` on.
// Both go in one walk, since their numbers stand in the same lines of memory. The place below the last four of the first is given back.
fn column_fours(samples: &[i32], w: usize, at: Place, n: usize, strip: &mut [i32; 1296]) -> Place
    requires { (0 < w) × (at.samples + 1 + 4 * w * n ≤ length samples.now) × (at.strip + 1 + 288 * n < 1368) }
    ensures columns { Columns at.strip (4 * n) (λ b j. number (unfiltered_at samples.now w (at.samples + b + 4 * w * (j / 4))) (j % 4)) strip.old strip.new }
    ensures samples_value { (result.samples ≡ at.samples + 4 * w * n) × (result.strip ≡ at.strip + 288 * n) }
{
    let mut next = at;
    for l in 0..n {
        unfilter_four(samples, w, next.samples, strip, 72, next.strip);
        unfilter_four(samples, w, next.samples + 1, strip, 72, next.strip + 1);
        next = next.below(4, w);
    }
    next
}

// Two columns from x on, which lie at an edge.
pub fn edge_columns(here: &Macroblock, samples: &[i32], strip: &mut [i32; 1296], x: usize)
    requires samples_len { length samples.now ≡ 256 * macroblocks here.now.size }
    requires x_bound { (x ≤ 70) × First (4 * here.now.size.width.0) (16 * here.now.c + x) }
    ensures holds { Holds here.now.size samples.now here.now.r here.now.c here.now.first 18 x (x + 2) strip.new }
    ensures kept { Kept here.now.first 18 x (x + 2) strip.old strip.new }
{
    let w = here.row_samples();
    let top = Place {
        samples: here.at + x,
        strip: x,
    };
    let end = 4 * here.down + 2;
    let second = top.below(2, w);
    corner(here, samples, top, here.first, 2, strip, x);
    let last = column_fours(samples, w, second, here.down, strip);
    corner(here, samples, last, end, 16, strip, x);
}
