// The first stage of Figure 4.8, which takes the quarters of a block: places 0 1 4 5, 2 3 6 7, 8 12 9 13 and 10 11 14 15.
ghost use Rattle.std.specs.Prelude.{◌≡◌, ◌&&◌, pos};
ghost use Rattle.lifting.specs.Program.{run, undo};
ghost use Rattle.lifting.specs.Wraps.{wraps, undo_wraps};
ghost use Rattle.figures.specs.Figures.{hadamard as hadamardLines, odd as oddLines, odd_odd as oddOddLines};
ghost use Rattle.blocks.specs.Quads.{OnFours, on_some};

use blocks::{Quads, joined};
use core_operators::transform::{
    hadamard_told, odd_odd_told, odd_told, undo_odd_odd_told, undo_odd_told,
};
use lifting::told::Told;

pub fn quarter_stage_told(tell: bool, v: Quads) -> Told<Quads>
    ensures done { OnFours (run (hadamardLines (pos 1))) (run oddLines) (run oddLines) (run oddOddLines) v result.value }
    ensures told { result.wrapped ≡ tell && on_some (wraps (hadamardLines (pos 1))) (wraps oddLines) (wraps oddLines) (wraps oddOddLines) v }
{
    joined(
        hadamard_told(tell, v.p, 1),
        odd_told(tell, v.q),
        odd_told(tell, v.r),
        odd_odd_told(tell, v.s),
    )
}

pub fn undo_quarter_stage_told(tell: bool, v: Quads) -> Told<Quads>
    ensures done { OnFours (undo (hadamardLines (pos 1))) (undo oddLines) (undo oddLines) (undo oddOddLines) v result.value }
    ensures told { result.wrapped ≡ tell && on_some (undo_wraps (hadamardLines (pos 1))) (undo_wraps oddLines) (undo_wraps oddLines) (undo_wraps oddOddLines) v }
{
    joined(
        hadamard_told(tell, v.p, 1),
        undo_odd_told(tell, v.q),
        undo_odd_told(tell, v.r),
        undo_odd_odd_told(tell, v.s),
    )
}
