// Places of level one's grid: two numbers of one square and two of another, and windows over four squares.
ghost use Rattle.std.specs.Prelude.{◌≡◌, ◌+◌, ◌*◌, ◌<◌};
ghost use Rattle.forward_one_grid.specs.Places.{from_to, right_of};

// Two numbers of square t, from its coefficient k on, and two of square u, from its coefficient l on, in each `step` apart: 1 along a row, 4 down a column.
// They are four in a line across the edge between t and u, or, where t is u, a corner of the square.
#[derive(Clone, Copy)]
pub struct Pairs {
    pub t: usize,
    pub k: usize,
    pub u: usize,
    pub l: usize,
    pub step: usize,
}

impl Pairs {
    // The line along a row of squares t and t + 1.
    pub fn along(t: usize, row: usize) -> Pairs
        requires { (t < 216825) × (row < 4) }
        ensures { result ≡ from_to t (4 * row + 2) (t + 1) (4 * row) 1 }
    {
        Pairs {
            t,
            k: 4 * row + 2,
            u: t + 1,
            l: 4 * row,
            step: 1,
        }
    }

    // The corner of square t from its coefficient k on.
    pub fn corner(t: usize, k: usize) -> Pairs
        requires { k < 16 }
        ensures { result ≡ from_to t k t (k + 4) 1 }
    {
        Pairs {
            t,
            k,
            u: t,
            l: k + 4,
            step: 1,
        }
    }
}

// Window (j, i), over the corner of squares (j, i), (j, i + 1), (j + 1, i) and (j + 1, i + 1), of which the first is square t.
#[derive(Clone, Copy)]
pub struct Window {
    pub j: usize,
    pub i: usize,
    pub t: usize,
}

impl Window {
    // The window l places to the right.
    pub fn right(self, l: usize) -> Window
        requires { (self.i + l < 216825) × (self.t + l < 216825) }
        ensures { result ≡ right_of self l }
    {
        Window {
            j: self.j,
            i: self.i + l,
            t: self.t + l,
        }
    }
}
