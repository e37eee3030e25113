// The overlap filter of a square of four rows of four numbers (Figure 4.14).
#![tactic(auto)]

mod filter_stages; // filter_stages.rt: the stages of Figure 4.14 after its first

ghost use Rattle.std.specs.Prelude.{◌≡◌, pos};
ghost use Rattle.lifting.specs.Program.{Hadamard, PostHadamard, run, undo};
ghost use Rattle.lifting.specs.Wraps.{wraps, undo_wraps};
ghost use Rattle.figures.specs.Block.{flat};
ghost use Rattle.figures.specs.Figures.{square_filter as squareFilterLines, hadamard as hadamardLines, post_hadamard as postHadamardLines};
ghost use Rattle.figures.specs.Pieces.{mirrored_stage, crossed_stage};

use crate::filter_stages::{
    crossed_told, post_hadamards_told, undo_crossed, undo_crossed_told, undo_post_hadamards_told,
};
use blocks::stage::hadamards_told;
use blocks::{mirrored, split};

// The stages take and give blocks; inside, a block is four fours.
fn first_stage(b: [[i32; 4]; 4]) -> [[i32; 4]; 4]
    ensures done { flat result ≡ run (mirrored_stage Hadamard (hadamardLines (pos 0))) (flat b) }
    ensures undone { flat result ≡ undo (mirrored_stage Hadamard (hadamardLines (pos 0))) (flat b) }
{
    mirrored(hadamards_told(false, split(b)).value)
}

fn crossed_stage(b: [[i32; 4]; 4]) -> [[i32; 4]; 4]
    ensures { flat result ≡ run crossed_stage (flat b) }
{
    mirrored(crossed_told(false, split(b)).value)
}

fn last_stage(b: [[i32; 4]; 4]) -> [[i32; 4]; 4]
    ensures { flat result ≡ run (mirrored_stage PostHadamard postHadamardLines) (flat b) }
{
    mirrored(post_hadamards_told(false, split(b)).value)
}

fn undo_crossed_stage(b: [[i32; 4]; 4]) -> [[i32; 4]; 4]
    ensures { flat result ≡ undo crossed_stage (flat b) }
{
    mirrored(undo_crossed(split(b)))
}

fn undo_last_stage(b: [[i32; 4]; 4]) -> [[i32; 4]; 4]
    ensures { flat result ≡ undo (mirrored_stage PostHadamard postHadamardLines) (flat b) }
{
    mirrored(undo_post_hadamards_told(false, split(b)).value)
}

// Figure 4.14
pub fn square_filter(b: [[i32; 4]; 4]) -> [[i32; 4]; 4]
    ensures { flat result ≡ run squareFilterLines (flat b) }
{
    last_stage(crossed_stage(first_stage(b)))
}

// Figure 4.14 undone
pub fn undo_square_filter(b: [[i32; 4]; 4]) -> [[i32; 4]; 4]
    ensures { flat result ≡ undo squareFilterLines (flat b) }
{
    first_stage(undo_crossed_stage(undo_last_stage(b)))
}

// Whether a reduction changes a number in Figure 4.14
// It goes through the stages in a text of its own: one text for numbers and flag would have two callers, and not go into the loops over lanes.
pub fn square_filter_wraps(b: [[i32; 4]; 4]) -> bool
    ensures { result ≡ wraps squareFilterLines (flat b) }
{
    let first = hadamards_told(true, split(b));
    let second = crossed_told(true, first.value);
    let third = post_hadamards_told(true, second.value);
    first.wrapped | second.wrapped | third.wrapped
}

// And in Figure 4.14 undone
pub fn undo_square_filter_wraps(b: [[i32; 4]; 4]) -> bool
    ensures { result ≡ undo_wraps squareFilterLines (flat b) }
{
    let first = undo_post_hadamards_told(true, split(b));
    let second = undo_crossed_told(first.value);
    let third = hadamards_told(true, second.value);
    first.wrapped | second.wrapped | third.wrapped
}
