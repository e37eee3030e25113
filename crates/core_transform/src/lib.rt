// The core transform of a block of four rows of four numbers (Figure 4.8).
#![tactic(auto)]

mod core_stages; // core_stages.rt: the first stage of Figure 4.8
mod tables; // tables.rt: the reorder that begins Figure 4.8, and its undoing

ghost use Rattle.std.specs.Prelude.{◌≡◌};
ghost use Rattle.lifting.specs.Program.{run, undo, get};
ghost use Rattle.lifting.specs.Wraps.{wraps, undo_wraps};
ghost use Rattle.figures.specs.Block.{flat};
ghost use Rattle.figures.specs.Figures.{core as coreLines, forward_reorder, inverse_reorder};
ghost use Rattle.figures.specs.Pieces.{quarter_stage, core_mirrored_stage};

use crate::core_stages::{quarter_stage_told, undo_quarter_stage_told};
use crate::tables::{FORWARD_REORDER, INVERSE_REORDER};
use blocks::stage::hadamards_told;
use blocks::{mirrored, pick, quartered, quarters, split};

// A block reordered as Figure 4.8 begins: place i takes the coefficient at the forward table's entry i.
fn reorder(b: [[i32; 4]; 4]) -> [[i32; 4]; 4]
    ensures { flat result ≡ get forward_reorder (flat b) }
{
    let t = FORWARD_REORDER;
    let p = pick(b, t[0], t[1], t[2], t[3]);
    let q = pick(b, t[4], t[5], t[6], t[7]);
    let r = pick(b, t[8], t[9], t[10], t[11]);
    let s = pick(b, t[12], t[13], t[14], t[15]);
    [p.into(), q.into(), r.into(), s.into()]
}

// The stages take and give blocks; inside, a block is four fours.
fn first_stage(b: [[i32; 4]; 4]) -> [[i32; 4]; 4]
    ensures { flat result ≡ run quarter_stage (flat b) }
{
    quartered(quarter_stage_told(false, quarters(b)).value)
}

fn undo_first_stage(b: [[i32; 4]; 4]) -> [[i32; 4]; 4]
    ensures { flat result ≡ undo quarter_stage (flat b) }
{
    quartered(undo_quarter_stage_told(false, quarters(b)).value)
}

fn second_stage(b: [[i32; 4]; 4]) -> [[i32; 4]; 4]
    ensures done { flat result ≡ run core_mirrored_stage (flat b) }
    ensures undone { flat result ≡ undo core_mirrored_stage (flat b) }
{
    mirrored(hadamards_told(false, split(b)).value)
}

// The reorder undone: place i takes the coefficient at the inverse table's entry i.
// A text of its own: one function that takes the table does not go into the loops over lanes.
fn undo_reorder(b: [[i32; 4]; 4]) -> [[i32; 4]; 4]
    ensures { flat result ≡ get inverse_reorder (flat b) }
{
    let t = INVERSE_REORDER;
    let p = pick(b, t[0], t[1], t[2], t[3]);
    let q = pick(b, t[4], t[5], t[6], t[7]);
    let r = pick(b, t[8], t[9], t[10], t[11]);
    let s = pick(b, t[12], t[13], t[14], t[15]);
    [p.into(), q.into(), r.into(), s.into()]
}

// Figure 4.8
pub fn core(b: [[i32; 4]; 4]) -> [[i32; 4]; 4]
    ensures { flat result ≡ run coreLines (flat b) }
{
    second_stage(first_stage(reorder(b)))
}

// Figure 4.8 undone
pub fn undo_core(b: [[i32; 4]; 4]) -> [[i32; 4]; 4]
    ensures { flat result ≡ undo coreLines (flat b) }
{
    undo_reorder(undo_first_stage(second_stage(b)))
}

// Whether a reduction changes a number in Figure 4.8
// It goes through the stages in a text of its own: one text for numbers and flag would have two callers, and not go into the loops over lanes.
pub fn core_wraps(b: [[i32; 4]; 4]) -> bool
    ensures { result ≡ wraps coreLines (flat b) }
{
    let first = quarter_stage_told(true, quarters(reorder(b)));
    let last = hadamards_told(true, split(quartered(first.value)));
    first.wrapped | last.wrapped
}

// And in Figure 4.8 undone
pub fn undo_core_wraps(b: [[i32; 4]; 4]) -> bool
    ensures { result ≡ undo_wraps coreLines (flat b) }
{
    let first = hadamards_told(true, split(b));
    let last = undo_quarter_stage_told(true, quarters(mirrored(first.value)));
    first.wrapped | last.wrapped
}
