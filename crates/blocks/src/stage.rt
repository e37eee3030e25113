// The stage that Figures 4.8 and 4.14 share: Figure 4.4 with R = 0 on each mirrored four, which is its own undoing.
ghost use Rattle.std.specs.Prelude.{◌≡◌, ◌&&◌, pos};
ghost use Rattle.lifting.specs.Program.{run, undo};
ghost use Rattle.lifting.specs.Wraps.{wraps, undo_wraps};
ghost use Rattle.figures.specs.Figures.{hadamard as hadamardLines};
ghost use Rattle.blocks.specs.Quads.{OnEach, on_any};

use crate::{Quads, joined};
use core_operators::transform::hadamard_told;
use lifting::told::Told;

// The order of the calls is free, and this one makes the fastest loops.
pub fn hadamards_told(tell: bool, v: Quads) -> Told<Quads>
    ensures done { OnEach (run (hadamardLines (pos 0))) v result.value }
    ensures undone { OnEach (undo (hadamardLines (pos 0))) v result.value }
    ensures told { result.wrapped ≡ tell && on_any (wraps (hadamardLines (pos 0))) v }
    ensures untold { result.wrapped ≡ tell && on_any (undo_wraps (hadamardLines (pos 0))) v }
{
    let q = hadamard_told(tell, v.q, 0);
    let p = hadamard_told(tell, v.p, 0);
    let r = hadamard_told(tell, v.r, 0);
    let s = hadamard_told(tell, v.s, 0);
    joined(p, q, r, s)
}
