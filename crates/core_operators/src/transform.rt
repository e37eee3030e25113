// What the core transform is made of: the 2 x 2 Hadamard, odd and odd-odd operators (Figures 4.4 to 4.6). Beside its four numbers each says, where `tell`
// asks, whether a reduction changed a number.
ghost use Rattle.std.specs.Prelude.{◌≡◌, ◌&&◌};
ghost use Rattle.lifting.specs.Program.{run, undo};
ghost use Rattle.lifting.specs.Wraps.{wraps, undo_wraps};
ghost use Rattle.figures.specs.Figures.{hadamard as hadamardLines, odd as oddLines, odd_odd as oddOddLines};
ghost use Rattle.figures.specs.Block.{list};
ghost use Rattle.figures.specs.Pieces.{odd_odd_rounded};

use crate::steps::{rounded_told, scaled_told};
use figures::Four;
use lifting::shift;
use lifting::told::{Told, add_told, negate_told, sub_told};

// Figure 4.4. Undone from its last line to its first it takes the same steps, so that it is its own undoing.
pub fn hadamard_told(tell: bool, v: Four, r: i32) -> Told<Four>
    ensures done { list result.value ≡ run (hadamardLines r) (list v) }
    ensures undone { list result.value ≡ undo (hadamardLines r) (list v) }
    ensures told { result.wrapped ≡ tell && wraps (hadamardLines r) (list v) }
    ensures untold { result.wrapped ≡ tell && undo_wraps (hadamardLines r) (list v) }
{
    let Four { a, b, c, d } = v;
    let a1 = add_told(tell, a, d);
    let b1 = sub_told(tell, b, c);
    let e1 = sub_told(tell, a1.value, b1.value);
    let t = rounded_told(tell, e1.value, r, 1);
    let c1 = sub_told(tell, t.value, d);
    let d1 = sub_told(tell, t.value, c);
    let a2 = sub_told(tell, a1.value, d1.value);
    let b2 = add_told(tell, b1.value, c1.value);
    let value = Four {
        a: a2.value,
        b: b2.value,
        c: c1.value,
        d: d1.value,
    };
    Told {
        value,
        wrapped: a1.wrapped
            | b1.wrapped
            | e1.wrapped
            | t.wrapped
            | c1.wrapped
            | d1.wrapped
            | a2.wrapped
            | b2.wrapped,
    }
}

// Figure 4.5
pub fn odd_told(tell: bool, v: Four) -> Told<Four>
    ensures done { list result.value ≡ run oddLines (list v) }
    ensures told { result.wrapped ≡ tell && wraps oddLines (list v) }
{
    let Four { a, b, c, d } = v;
    let b1 = add_told(tell, b, d);
    let a1 = sub_told(tell, a, c);
    let d1 = sub_told(tell, d, shift(b1.value, 1));
    let e1 = rounded_told(tell, a1.value, 1, 1);
    let c1 = add_told(tell, c, e1.value);
    let e2 = scaled_told(tell, b1.value, 4, 3);
    let a2 = sub_told(tell, a1.value, e2.value);
    let e3 = scaled_told(tell, a2.value, 4, 3);
    let b2 = add_told(tell, b1.value, e3.value);
    let e4 = scaled_told(tell, d1.value, 4, 3);
    let c2 = sub_told(tell, c1.value, e4.value);
    let e5 = scaled_told(tell, c2.value, 4, 3);
    let d2 = add_told(tell, d1.value, e5.value);
    let e6 = rounded_told(tell, b2.value, 1, 1);
    let c3 = sub_told(tell, c2.value, e6.value);
    let e7 = rounded_told(tell, a2.value, 1, 1);
    let d3 = sub_told(tell, e7.value, d2.value);
    let b3 = add_told(tell, b2.value, c3.value);
    let a3 = sub_told(tell, a2.value, d3.value);
    let value = Four {
        a: a3.value,
        b: b3.value,
        c: c3.value,
        d: d3.value,
    };
    Told {
        value,
        wrapped: b1.wrapped
            | a1.wrapped
            | d1.wrapped
            | e1.wrapped
            | c1.wrapped
            | e2.wrapped
            | a2.wrapped
            | e3.wrapped
            | b2.wrapped
            | e4.wrapped
            | c2.wrapped
            | e5.wrapped
            | d2.wrapped
            | e6.wrapped
            | c3.wrapped
            | e7.wrapped
            | d3.wrapped
            | b3.wrapped
            | a3.wrapped,
    }
}

// Figure 4.5 undone
pub fn undo_odd_told(tell: bool, v: Four) -> Told<Four>
    ensures done { list result.value ≡ undo oddLines (list v) }
    ensures told { result.wrapped ≡ tell && undo_wraps oddLines (list v) }
{
    let Four { a, b, c, d } = v;
    let a1 = add_told(tell, a, d);
    let b1 = sub_told(tell, b, c);
    let e1 = rounded_told(tell, a1.value, 1, 1);
    let d1 = sub_told(tell, e1.value, d);
    let e2 = rounded_told(tell, b1.value, 1, 1);
    let c1 = add_told(tell, c, e2.value);
    let e3 = scaled_told(tell, c1.value, 4, 3);
    let d2 = sub_told(tell, d1.value, e3.value);
    let e4 = scaled_told(tell, d2.value, 4, 3);
    let c2 = add_told(tell, c1.value, e4.value);
    let e5 = scaled_told(tell, a1.value, 4, 3);
    let b2 = sub_told(tell, b1.value, e5.value);
    let e6 = scaled_told(tell, b2.value, 4, 3);
    let a2 = add_told(tell, a1.value, e6.value);
    let e7 = rounded_told(tell, a2.value, 1, 1);
    let c3 = sub_told(tell, c2.value, e7.value);
    let d3 = add_told(tell, d2.value, shift(b2.value, 1));
    let a3 = add_told(tell, a2.value, c3.value);
    let b3 = sub_told(tell, b2.value, d3.value);
    let value = Four {
        a: a3.value,
        b: b3.value,
        c: c3.value,
        d: d3.value,
    };
    Told {
        value,
        wrapped: a1.wrapped
            | b1.wrapped
            | e1.wrapped
            | d1.wrapped
            | e2.wrapped
            | c1.wrapped
            | e3.wrapped
            | d2.wrapped
            | e4.wrapped
            | c2.wrapped
            | e5.wrapped
            | b2.wrapped
            | e6.wrapped
            | a2.wrapped
            | e7.wrapped
            | c3.wrapped
            | d3.wrapped
            | a3.wrapped
            | b3.wrapped,
    }
}

// The lines that Figures 4.6 and 4.12 share, with their two roundings
pub fn odd_odd_rounded_told(tell: bool, v: Four, k: i32, l: i32) -> Told<Four>
    ensures done { list result.value ≡ run (odd_odd_rounded k l) (list v) }
    ensures told { result.wrapped ≡ tell && wraps (odd_odd_rounded k l) (list v) }
{
    let Four { a, b, c, d } = v;
    let d1 = add_told(tell, d, a);
    let c1 = sub_told(tell, c, b);
    let t1 = shift(d1.value, 1);
    let t2 = shift(c1.value, 1);
    let a1 = sub_told(tell, a, t1);
    let b1 = add_told(tell, b, t2);
    let e1 = scaled_told(tell, b1.value, k, 3);
    let a2 = sub_told(tell, a1.value, e1.value);
    let e2 = scaled_told(tell, a2.value, l, 2);
    let b2 = add_told(tell, b1.value, e2.value);
    let e3 = scaled_told(tell, b2.value, 4, 3);
    let a3 = sub_told(tell, a2.value, e3.value);
    let b3 = sub_told(tell, b2.value, t2);
    let a4 = add_told(tell, a3.value, t1);
    let c2 = add_told(tell, c1.value, b3.value);
    let d2 = sub_told(tell, d1.value, a4.value);
    let value = Four {
        a: a4.value,
        b: b3.value,
        c: c2.value,
        d: d2.value,
    };
    Told {
        value,
        wrapped: d1.wrapped
            | c1.wrapped
            | a1.wrapped
            | b1.wrapped
            | e1.wrapped
            | a2.wrapped
            | e2.wrapped
            | b2.wrapped
            | e3.wrapped
            | a3.wrapped
            | b3.wrapped
            | a4.wrapped
            | c2.wrapped
            | d2.wrapped,
    }
}

// The same undone
pub fn undo_odd_odd_rounded_told(tell: bool, v: Four, k: i32, l: i32) -> Told<Four>
    ensures done { list result.value ≡ undo (odd_odd_rounded k l) (list v) }
    ensures told { result.wrapped ≡ tell && undo_wraps (odd_odd_rounded k l) (list v) }
{
    let Four { a, b, c, d } = v;
    let d1 = add_told(tell, d, a);
    let c1 = sub_told(tell, c, b);
    let t1 = shift(d1.value, 1);
    let t2 = shift(c1.value, 1);
    let a1 = sub_told(tell, a, t1);
    let b1 = add_told(tell, b, t2);
    let e1 = scaled_told(tell, b1.value, 4, 3);
    let a2 = add_told(tell, a1.value, e1.value);
    let e2 = scaled_told(tell, a2.value, l, 2);
    let b2 = sub_told(tell, b1.value, e2.value);
    let e3 = scaled_told(tell, b2.value, k, 3);
    let a3 = add_told(tell, a2.value, e3.value);
    let b3 = sub_told(tell, b2.value, t2);
    let a4 = add_told(tell, a3.value, t1);
    let c2 = add_told(tell, c1.value, b3.value);
    let d2 = sub_told(tell, d1.value, a4.value);
    let value = Four {
        a: a4.value,
        b: b3.value,
        c: c2.value,
        d: d2.value,
    };
    Told {
        value,
        wrapped: d1.wrapped
            | c1.wrapped
            | a1.wrapped
            | b1.wrapped
            | e1.wrapped
            | a2.wrapped
            | e2.wrapped
            | b2.wrapped
            | e3.wrapped
            | a3.wrapped
            | b3.wrapped
            | a4.wrapped
            | c2.wrapped
            | d2.wrapped,
    }
}

// Figure 4.6
pub fn odd_odd_told(tell: bool, v: Four) -> Told<Four>
    ensures done { list result.value ≡ run oddOddLines (list v) }
    ensures told { result.wrapped ≡ tell && wraps oddOddLines (list v) }
{
    let o = odd_odd_rounded_told(tell, v, 3, 3);
    let f = o.value;
    let b = negate_told(tell, f.b);
    let c = negate_told(tell, f.c);
    let value = Four {
        a: f.a,
        b: b.value,
        c: c.value,
        d: f.d,
    };
    Told {
        value,
        wrapped: o.wrapped | b.wrapped | c.wrapped,
    }
}

// Figure 4.6 undone
pub fn undo_odd_odd_told(tell: bool, v: Four) -> Told<Four>
    ensures done { list result.value ≡ undo oddOddLines (list v) }
    ensures told { result.wrapped ≡ tell && undo_wraps oddOddLines (list v) }
{
    let c = negate_told(tell, v.c);
    let b = negate_told(tell, v.b);
    let negated = Four {
        a: v.a,
        b: b.value,
        c: c.value,
        d: v.d,
    };
    let o = undo_odd_odd_rounded_told(tell, negated, 3, 3);
    let value = o.value;
    Told {
        value,
        wrapped: c.wrapped | b.wrapped | o.wrapped,
    }
}
