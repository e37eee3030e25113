// Level one of the forward call: DC and low-pass numbers in place, its filters undone, where the mode has them, and then its cores.
#![tactic(auto)]

ghost use Rattle.std.specs.Prelude.{◌≡◌, ◌*◌, length};
ghost use Rattle.lifting.specs.Program.{undo};
ghost use Rattle.transform.specs.Level.{level};
ghost use Rattle.picture.specs.Sizes.{macroblocks};
ghost use Rattle.forward_one_grid.specs.Held.{numbers, over};

use forward_one_cores::undo_cores;
use forward_one_filters::filters::undo_filters;
use picture::picture_size::PictureSize;

pub fn undo_level_one(filtered: bool, size: PictureSize, dc: &mut [i32], low: &mut [i32])
    requires { (length dc.old ≡ macroblocks size) × (length low.old ≡ 15 * macroblocks size) }
    ensures { numbers size dc.new low.new ≡ undo (over size (level filtered)) (numbers size dc.old low.old) }
{
    if filtered {
        undo_filters(size, dc, low);
    }
    undo_cores(size, dc, low);
}
