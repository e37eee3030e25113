// One use of the filter of four numbers in level one's grid, across an edge or at a corner, undone.
ghost use Rattle.std.specs.Prelude.{◌≡◌};
ghost use Rattle.lifting.specs.Program.{undo};
ghost use Rattle.forward_one_grid.specs.Held.{numbers, Held};
ghost use Rattle.forward_one_grid.specs.Places.{Inside};
ghost use Rattle.forward_one_filters.specs.Edges.{filter_of};

use forward_one_grid::lent::LevelOne;
use forward_one_grid::places::Pairs;
use forward_one_grid::stored::put_pairs;
use four_filter::unfiltered;
use picture::picture_size::PictureSize;

#[inline(always)]
pub fn undo_four_filter(size: PictureSize, dc: &mut [i32], low: &mut [i32], p: Pairs)
    requires held { Held size dc.old low.old }
    requires inside { Inside size p }
    ensures { numbers size dc.new low.new ≡ undo (filter_of size p) (numbers size dc.old low.old) }
{
    let v = unfiltered(LevelOne::new(size, dc, low).get_pairs(p));
    put_pairs(size, dc, low, p, v);
}
