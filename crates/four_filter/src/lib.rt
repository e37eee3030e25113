// The overlap filter of four numbers (Figure 4.13). The told form is the filter's text: beside the numbers it says, where `tell` asks, whether a reduction
// changed a number.
#![tactic(auto)]

ghost use Rattle.std.specs.Prelude.{◌≡◌, ◌&&◌, [], ◌∷◌};
ghost use Rattle.lifting.specs.Program.{run, undo};
ghost use Rattle.lifting.specs.Wraps.{wraps, undo_wraps};
ghost use Rattle.figures.specs.Block.{four, list};
ghost use Rattle.figures.specs.Figures.{four_filter as fourFilterLines};
ghost use Rattle.figures.specs.Pieces.{four_rotation, pair_scale};

use core_operators::steps::{rounded_told, scaled_told};
use figures::{Four, Pair};
use lifting::told::{Told, add_told, sub_told};
use overlap_operators::{rotation_told, undo_rotation_told};

// The lines of Figure 4.13 up to its second pair of half sums
fn four_rotation_told(tell: bool, a: i32, b: i32, c: i32, d: i32) -> Told<Four>
    ensures done { list result.value ≡ run four_rotation (a ∷ b ∷ c ∷ d ∷ []) }
    ensures told { result.wrapped ≡ tell && wraps four_rotation (a ∷ b ∷ c ∷ d ∷ []) }
{
    let a1 = add_told(tell, a, d);
    let b1 = add_told(tell, b, c);
    let e1 = rounded_told(tell, a1.value, 1, 1);
    let d1 = sub_told(tell, d, e1.value);
    let e2 = rounded_told(tell, b1.value, 1, 1);
    let c1 = sub_told(tell, c, e2.value);
    let turned = rotation_told(tell, c1.value, d1.value);
    let cd = turned.value;
    let e3 = rounded_told(tell, a1.value, 1, 1);
    let d2 = add_told(tell, cd.b, e3.value);
    let e4 = rounded_told(tell, b1.value, 1, 1);
    let c2 = add_told(tell, cd.a, e4.value);
    let value = Four {
        a: a1.value,
        b: b1.value,
        c: c2.value,
        d: d2.value,
    };
    Told {
        value,
        wrapped: a1.wrapped
            | b1.wrapped
            | e1.wrapped
            | d1.wrapped
            | e2.wrapped
            | c1.wrapped
            | turned.wrapped
            | e3.wrapped
            | d2.wrapped
            | e4.wrapped
            | c2.wrapped,
    }
}

// The same undone
fn undo_four_rotation_told(tell: bool, a: i32, b: i32, c: i32, d: i32) -> Told<Four>
    ensures done { list result.value ≡ undo four_rotation (a ∷ b ∷ c ∷ d ∷ []) }
    ensures told { result.wrapped ≡ tell && undo_wraps four_rotation (a ∷ b ∷ c ∷ d ∷ []) }
{
    let e1 = rounded_told(tell, b, 1, 1);
    let c1 = sub_told(tell, c, e1.value);
    let e2 = rounded_told(tell, a, 1, 1);
    let d1 = sub_told(tell, d, e2.value);
    let turned = undo_rotation_told(tell, c1.value, d1.value);
    let cd = turned.value;
    let e3 = rounded_told(tell, b, 1, 1);
    let c2 = add_told(tell, cd.a, e3.value);
    let e4 = rounded_told(tell, a, 1, 1);
    let d2 = add_told(tell, cd.b, e4.value);
    let b1 = sub_told(tell, b, c2.value);
    let a1 = sub_told(tell, a, d2.value);
    let value = Four {
        a: a1.value,
        b: b1.value,
        c: c2.value,
        d: d2.value,
    };
    Told {
        value,
        wrapped: e1.wrapped
            | c1.wrapped
            | e2.wrapped
            | d1.wrapped
            | turned.wrapped
            | e3.wrapped
            | c2.wrapped
            | e4.wrapped
            | d2.wrapped
            | b1.wrapped
            | a1.wrapped,
    }
}

// What the last lines of Figure 4.13 do to a with d, and to b with c
fn pair_scale_told(tell: bool, a: i32, b: i32) -> Told<Pair>
    ensures done { result.value.a ∷ result.value.b ∷ [] ≡ run pair_scale (a ∷ b ∷ []) }
    ensures told { result.wrapped ≡ tell && wraps pair_scale (a ∷ b ∷ []) }
{
    let e1 = scaled_told(tell, b, 16, 5);
    let e2 = sub_told(tell, b, e1.value);
    let a1 = sub_told(tell, a, e2.value);
    let e3 = scaled_told(tell, a1.value, 8, 4);
    let b1 = add_told(tell, b, e3.value);
    let e4 = scaled_told(tell, b1.value, 16, 5);
    let a2 = add_told(tell, a1.value, e4.value);
    let value = Pair {
        a: a2.value,
        b: b1.value,
    };
    Told {
        value,
        wrapped: e1.wrapped
            | e2.wrapped
            | a1.wrapped
            | e3.wrapped
            | b1.wrapped
            | e4.wrapped
            | a2.wrapped,
    }
}

// The same undone
fn undo_pair_scale_told(tell: bool, a: i32, b: i32) -> Told<Pair>
    ensures done { result.value.a ∷ result.value.b ∷ [] ≡ undo pair_scale (a ∷ b ∷ []) }
    ensures told { result.wrapped ≡ tell && undo_wraps pair_scale (a ∷ b ∷ []) }
{
    let e1 = scaled_told(tell, b, 16, 5);
    let a1 = sub_told(tell, a, e1.value);
    let e2 = scaled_told(tell, a1.value, 8, 4);
    let b1 = sub_told(tell, b, e2.value);
    let e3 = scaled_told(tell, b1.value, 16, 5);
    let e4 = sub_told(tell, b1.value, e3.value);
    let a2 = add_told(tell, a1.value, e4.value);
    let value = Pair {
        a: a2.value,
        b: b1.value,
    };
    Told {
        value,
        wrapped: e1.wrapped
            | a1.wrapped
            | e2.wrapped
            | b1.wrapped
            | e3.wrapped
            | e4.wrapped
            | a2.wrapped,
    }
}

// Figure 4.13
pub fn four_filter_told(tell: bool, a: i32, b: i32, c: i32, d: i32) -> Told<Four>
    ensures done { list result.value ≡ run fourFilterLines (a ∷ b ∷ c ∷ d ∷ []) }
    ensures told { result.wrapped ≡ tell && wraps fourFilterLines (a ∷ b ∷ c ∷ d ∷ []) }
{
    let v = four_rotation_told(tell, a, b, c, d);
    let f = v.value;
    let outer = pair_scale_told(tell, f.a, f.d);
    let inner = pair_scale_told(tell, f.b, f.c);
    let ad = outer.value;
    let bc = inner.value;
    let value = Four {
        a: ad.a,
        b: bc.a,
        c: bc.b,
        d: ad.b,
    };
    Told {
        value,
        wrapped: v.wrapped | outer.wrapped | inner.wrapped,
    }
}

pub fn four_filter(a: i32, b: i32, c: i32, d: i32) -> Four
    ensures { result.a ∷ result.b ∷ result.c ∷ result.d ∷ [] ≡ run fourFilterLines (a ∷ b ∷ c ∷ d ∷ []) }
{
    four_filter_told(false, a, b, c, d).value
}

// Figure 4.13 undone
pub fn undo_four_filter_told(tell: bool, a: i32, b: i32, c: i32, d: i32) -> Told<Four>
    ensures done { list result.value ≡ undo fourFilterLines (a ∷ b ∷ c ∷ d ∷ []) }
    ensures told { result.wrapped ≡ tell && undo_wraps fourFilterLines (a ∷ b ∷ c ∷ d ∷ []) }
{
    let outer = undo_pair_scale_told(tell, a, d);
    let inner = undo_pair_scale_told(tell, b, c);
    let ad = outer.value;
    let bc = inner.value;
    let v = undo_four_rotation_told(tell, ad.a, bc.a, bc.b, ad.b);
    let value = v.value;
    Told {
        value,
        wrapped: outer.wrapped | inner.wrapped | v.wrapped,
    }
}

// Figure 4.13 undone on an array of four numbers
pub fn unfiltered(v: [i32; 4]) -> [i32; 4]
    ensures { four result ≡ undo fourFilterLines (four v) }
{
    undo_four_filter_told(false, v[0], v[1], v[2], v[3])
        .value
        .into()
}

// Whether a reduction changes a number in it
pub fn unfiltered_wraps(v: [i32; 4]) -> bool
    ensures { result ≡ undo_wraps fourFilterLines (four v) }
{
    undo_four_filter_told(true, v[0], v[1], v[2], v[3]).wrapped
}
