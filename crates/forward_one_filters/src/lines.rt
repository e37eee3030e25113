// Lines of uses across the edges between squares, and the lines of two opposite edges of the grid.
ghost use Rattle.std.specs.Prelude.{◌≡◌, ◌+◌, ◌-◌, ◌*◌, ◌<◌, ◌≤◌};
ghost use Rattle.forward_one_filters.specs.Edges.{use_at, edges_of, line_of};

use forward_one_grid::places::Pairs;

// n uses across edges, along a row or down a column: the squares from `from` on, each `pace` after the one before, on the line of coefficient l.
#[derive(Clone, Copy)]
pub struct Line {
    pub from: usize,
    pub pace: usize,
    pub l: usize,
    pub step: usize,
    pub n: usize,
}

impl Line {
    // The use across the edge between square t and the next.
    pub fn at(self, t: usize) -> Pairs
        requires { (t + self.pace ≤ usize.MAX) × (self.l + 3 * self.step < 16) }
        ensures { result ≡ use_at self t }
    {
        Pairs {
            t,
            k: self.l + 2 * self.step,
            u: t + self.pace,
            l: self.l,
            step: self.step,
        }
    }
}

// Two lines at each of two edges, the far one in the squares from `far` on: rows or columns, as `side` and `step` say.
#[derive(Clone, Copy)]
pub struct Edges {
    pub far: usize,
    pub pace: usize,
    pub side: usize,
    pub step: usize,
    pub n: usize,
}

impl Edges {
    // The two top and the two bottom rows, where the bottom row of squares begins with square `bottom`.
    pub fn rows(width: usize, bottom: usize) -> Edges
        requires { 0 < width }
        ensures { result ≡ edges_of bottom 1 4 1 (width - 1) }
    {
        Edges {
            far: bottom,
            pace: 1,
            side: 4,
            step: 1,
            n: width - 1,
        }
    }

    // The two leftmost and the two rightmost columns.
    pub fn columns(width: usize, height: usize) -> Edges
        requires { (0 < width) × (0 < height) }
        ensures { result ≡ edges_of (width - 1) width 1 4 (height - 1) }
    {
        Edges {
            far: width - 1,
            pace: width,
            side: 1,
            step: 4,
            n: height - 1,
        }
    }

    // Line k of the squares from `from` on.
    pub fn line(self, from: usize, k: usize) -> Line
        requires { (k < 4) × (self.side < 16) }
        ensures { result ≡ line_of self from k }
    {
        Line {
            from,
            pace: self.pace,
            l: k * self.side,
            step: self.step,
            n: self.n,
        }
    }
}
