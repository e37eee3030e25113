// Level one's grid lent to be read. Contracts see its size and its numbers, in raster order.
ghost use Rattle.std.specs.Prelude.{◌≡◌, ◌*◌, ◌<◌};
ghost use Rattle.lifting.specs.Program.{at, get};
ghost use Rattle.figures.specs.Block.{four, flat};
ghost use Rattle.transform.specs.Grids.{place};
ghost use Rattle.picture.specs.Sizes.{macroblocks, Sized};
ghost use Rattle.forward_one_grid.specs.Held.{Held, grid, window};
ghost use Rattle.forward_one_grid.specs.Places.{pairs, Inside, Meets};

use crate::places::{Pairs, Window};
use picture::picture_size::PictureSize;
use std::marker::Model;

#[derive(Drop)]
pub struct LevelOne<'a> {
    size: PictureSize,
    dc: &'a [i32],
    low: &'a [i32],
}

impl<'a> Model for LevelOne<'a> {
    ghost use Rattle.forward_one_grid.specs.Held.{Grid, Held, grid};

    ghost Value = { Grid };

    ghost view = { λ lent. grid lent.size lent.dc.now lent.low.now };

    ghost invariant = { λ lent. Held lent.size lent.dc.now lent.low.now };
}

impl<'a> LevelOne<'a> {
    pub fn new(size: PictureSize, dc: &'a [i32], low: &'a [i32]) -> LevelOne<'a>
        requires { Held size dc.now low.now }
        ensures { result ≡ grid size dc.now low.now }
    {
        LevelOne { size, dc, low }
    }

    // How many squares stand in a row.
    pub fn width(&self) -> usize
        ensures value { result ≡ self.now.size.width.0 }
        ensures sized { Sized self.now.size }
    {
        self.size.across()
    }

    // How many rows of squares there are.
    pub fn height(&self) -> usize
        ensures value { result ≡ self.now.size.height.0 }
        ensures sized { Sized self.now.size }
    {
        self.size.down()
    }

    pub fn squares(&self) -> usize
        ensures value { result ≡ macroblocks self.now.size }
        ensures sized { Sized self.now.size }
    {
        self.size.macroblocks().numbers(1)
    }

    // Coefficient k of square t.
    fn number(&self, t: usize, k: usize) -> i32
        requires { (t < macroblocks self.now.size) × (k < 16) }
        ensures { result ≡ at self.now.numbers (place self.now.size.width.0 t k) }
    {
        if k == 0 {
            return self.dc[t];
        }
        self.low[15 * t + (k - 1)]
    }

    pub fn get_pairs(&self, p: Pairs) -> [i32; 4]
        requires { Inside self.now.size p }
        ensures { four result ≡ get (pairs self.now.size p) self.now.numbers }
    {
        [
            self.number(p.t, p.k),
            self.number(p.t, p.k + p.step),
            self.number(p.u, p.l),
            self.number(p.u, p.l + p.step),
        ]
    }

    // Two lines across the edge between the upper two squares, and two between the lower two.
    pub fn get_window(&self, w: Window) -> [[i32; 4]; 4]
        requires { Meets self.now.size w }
        ensures { flat result ≡ get (window self.now.size w.j w.i) self.now.numbers }
    {
        let below = w.t + self.width();
        [
            self.get_pairs(Pairs::along(w.t, 2)),
            self.get_pairs(Pairs::along(w.t, 3)),
            self.get_pairs(Pairs::along(below, 0)),
            self.get_pairs(Pairs::along(below, 1)),
        ]
    }
}
