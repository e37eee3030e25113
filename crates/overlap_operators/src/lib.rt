// What the overlap filters are made of (Figures 4.9 to 4.12): beside its numbers each operator says, where `tell` asks, whether a reduction changed a number.
#![tactic(auto)]

ghost use Rattle.std.specs.Prelude.{◌≡◌, ◌&&◌, [], ◌∷◌};
ghost use Rattle.lifting.specs.Program.{run, undo};
ghost use Rattle.lifting.specs.Wraps.{wraps, undo_wraps};
ghost use Rattle.figures.specs.Block.{list};
ghost use Rattle.figures.specs.Figures.{rotation as rotationLines, scale as scaleLines, post_hadamard as postHadamardLines, post_odd_odd as postOddOddLines};

use core_operators::steps::{rounded_told, scaled_told};
use core_operators::transform::{odd_odd_rounded_told, undo_odd_odd_rounded_told};
use figures::{Four, Pair};
use lifting::shift;
use lifting::told::{Told, add_told, sub_told};

// Figure 4.9
pub fn rotation_told(tell: bool, a: i32, b: i32) -> Told<Pair>
    ensures done { result.value.a ∷ result.value.b ∷ [] ≡ run rotationLines (a ∷ b ∷ []) }
    ensures told { result.wrapped ≡ tell && wraps rotationLines (a ∷ b ∷ []) }
{
    let e1 = rounded_told(tell, b, 1, 1);
    let a1 = sub_told(tell, a, e1.value);
    let e2 = rounded_told(tell, a1.value, 1, 1);
    let b1 = add_told(tell, b, e2.value);
    let value = Pair {
        a: a1.value,
        b: b1.value,
    };
    Told {
        value,
        wrapped: e1.wrapped | a1.wrapped | e2.wrapped | b1.wrapped,
    }
}

// Figure 4.9 undone
pub fn undo_rotation_told(tell: bool, a: i32, b: i32) -> Told<Pair>
    ensures done { result.value.a ∷ result.value.b ∷ [] ≡ undo rotationLines (a ∷ b ∷ []) }
    ensures told { result.wrapped ≡ tell && undo_wraps rotationLines (a ∷ b ∷ []) }
{
    let e1 = rounded_told(tell, a, 1, 1);
    let b1 = sub_told(tell, b, e1.value);
    let e2 = rounded_told(tell, b1.value, 1, 1);
    let a1 = add_told(tell, a, e2.value);
    let value = Pair {
        a: a1.value,
        b: b1.value,
    };
    Told {
        value,
        wrapped: e1.wrapped | b1.wrapped | e2.wrapped | a1.wrapped,
    }
}

// Figure 4.10
pub fn scale_told(tell: bool, a: i32, b: i32) -> Told<Pair>
    ensures done { result.value.a ∷ result.value.b ∷ [] ≡ run scaleLines (a ∷ b ∷ []) }
    ensures told { result.wrapped ≡ tell && wraps scaleLines (a ∷ b ∷ []) }
{
    let a1 = add_told(tell, a, b);
    let b1 = sub_told(tell, shift(a1.value, 1), b);
    let e1 = scaled_told(tell, b1.value, 0, 3);
    let a2 = add_told(tell, a1.value, e1.value);
    let e2 = scaled_told(tell, a2.value, 0, 4);
    let b2 = add_told(tell, b1.value, e2.value);
    let value = Pair {
        a: a2.value,
        b: b2.value,
    };
    Told {
        value,
        wrapped: a1.wrapped | b1.wrapped | e1.wrapped | a2.wrapped | e2.wrapped | b2.wrapped,
    }
}

// Figure 4.10 undone
pub fn undo_scale_told(tell: bool, a: i32, b: i32) -> Told<Pair>
    ensures done { result.value.a ∷ result.value.b ∷ [] ≡ undo scaleLines (a ∷ b ∷ []) }
    ensures told { result.wrapped ≡ tell && undo_wraps scaleLines (a ∷ b ∷ []) }
{
    let e1 = scaled_told(tell, a, 0, 4);
    let b1 = sub_told(tell, b, e1.value);
    let e2 = scaled_told(tell, b1.value, 0, 3);
    let a1 = sub_told(tell, a, e2.value);
    let b2 = sub_told(tell, shift(a1.value, 1), b1.value);
    let a2 = sub_told(tell, a1.value, b2.value);
    let value = Pair {
        a: a2.value,
        b: b2.value,
    };
    Told {
        value,
        wrapped: e1.wrapped | b1.wrapped | e2.wrapped | a1.wrapped | b2.wrapped | a2.wrapped,
    }
}

// Figure 4.11
pub fn post_hadamard_told(tell: bool, v: Four) -> Told<Four>
    ensures done { list result.value ≡ run postHadamardLines (list v) }
    ensures told { result.wrapped ≡ tell && wraps postHadamardLines (list v) }
{
    let Four { a, b, c, d } = v;
    let b1 = sub_told(tell, b, c);
    let e1 = scaled_told(tell, d, 4, 3);
    let a1 = add_told(tell, a, e1.value);
    let c1 = sub_told(tell, d, shift(b1.value, 1));
    let e2 = sub_told(tell, a1.value, b1.value);
    let d1 = sub_told(tell, shift(e2.value, 1), c);
    let a2 = sub_told(tell, a1.value, d1.value);
    let b2 = add_told(tell, b1.value, c1.value);
    let value = Four {
        a: a2.value,
        b: b2.value,
        c: c1.value,
        d: d1.value,
    };
    Told {
        value,
        wrapped: b1.wrapped
            | e1.wrapped
            | a1.wrapped
            | c1.wrapped
            | e2.wrapped
            | d1.wrapped
            | a2.wrapped
            | b2.wrapped,
    }
}

// Figure 4.11 undone
pub fn undo_post_hadamard_told(tell: bool, v: Four) -> Told<Four>
    ensures done { list result.value ≡ undo postHadamardLines (list v) }
    ensures told { result.wrapped ≡ tell && undo_wraps postHadamardLines (list v) }
{
    let Four { a, b, c, d } = v;
    let b1 = sub_told(tell, b, c);
    let a1 = add_told(tell, a, d);
    let e1 = sub_told(tell, a1.value, b1.value);
    let c1 = sub_told(tell, shift(e1.value, 1), d);
    let d1 = add_told(tell, c, shift(b1.value, 1));
    let e2 = scaled_told(tell, d1.value, 4, 3);
    let a2 = sub_told(tell, a1.value, e2.value);
    let b2 = add_told(tell, b1.value, c1.value);
    let value = Four {
        a: a2.value,
        b: b2.value,
        c: c1.value,
        d: d1.value,
    };
    Told {
        value,
        wrapped: b1.wrapped
            | a1.wrapped
            | e1.wrapped
            | c1.wrapped
            | d1.wrapped
            | e2.wrapped
            | a2.wrapped
            | b2.wrapped,
    }
}

// Figure 4.12
pub fn post_odd_odd_told(tell: bool, v: Four) -> Told<Four>
    ensures done { list result.value ≡ run postOddOddLines (list v) }
    ensures told { result.wrapped ≡ tell && wraps postOddOddLines (list v) }
{
    odd_odd_rounded_told(tell, v, 6, 2)
}

// Figure 4.12 undone
pub fn undo_post_odd_odd_told(tell: bool, v: Four) -> Told<Four>
    ensures done { list result.value ≡ undo postOddOddLines (list v) }
    ensures told { result.wrapped ≡ tell && undo_wraps postOddOddLines (list v) }
{
    undo_odd_odd_rounded_told(tell, v, 6, 2)
}
