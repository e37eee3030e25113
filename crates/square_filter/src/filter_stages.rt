// The stages of Figure 4.14 after its first, on mirrored fours: p is a d m p of the figure, q is b c n o, r is e h i l, s is f g j k.
ghost use Rattle.std.specs.Prelude.{◌≡◌, ◌&&◌};
ghost use Rattle.lifting.specs.Program.{run, undo};
ghost use Rattle.lifting.specs.Wraps.{wraps, undo_wraps};
ghost use Rattle.figures.specs.Figures.{post_hadamard as postHadamardLines};
ghost use Rattle.figures.specs.Pieces.{crossed_stage};
ghost use Rattle.blocks.specs.Quads.{mirrored, OnEach, on_any};

use blocks::{Quads, joined};
use figures::Four;
use lifting::told::Told;
use overlap_operators::{
    post_hadamard_told, post_odd_odd_told, rotation_told, scale_told, undo_post_hadamard_told,
    undo_post_odd_odd_told, undo_rotation_told, undo_scale_told,
};

// The rotations, Figure 4.12 and the scalings, which go across the fours
pub fn crossed_told(tell: bool, v: Quads) -> Told<Quads>
    ensures done { mirrored result.value ≡ run crossed_stage (mirrored v) }
    ensures told { result.wrapped ≡ tell && wraps crossed_stage (mirrored v) }
{
    let admp = v.p;
    let bcno = v.q;
    let ehil = v.r;
    let fgjk = v.s;
    let nm_told = rotation_told(tell, bcno.c, admp.c);
    let nm = nm_told.value;
    let ji_told = rotation_told(tell, fgjk.c, ehil.c);
    let ji = ji_told.value;
    let hd_told = rotation_told(tell, ehil.b, admp.b);
    let hd = hd_told.value;
    let gc_told = rotation_told(tell, fgjk.b, bcno.b);
    let gc = gc_told.value;
    let klop_told = post_odd_odd_told(
        tell,
        Four {
            a: fgjk.d,
            b: ehil.d,
            c: bcno.d,
            d: admp.d,
        },
    );
    let klop = klop_told.value;
    let ap_told = scale_told(tell, admp.a, klop.d);
    let ap = ap_told.value;
    let bo_told = scale_told(tell, bcno.a, klop.c);
    let bo = bo_told.value;
    let el_told = scale_told(tell, ehil.a, klop.b);
    let el = el_told.value;
    let fk_told = scale_told(tell, fgjk.a, klop.a);
    let fk = fk_told.value;
    let p = Four {
        a: ap.a,
        b: hd.b,
        c: nm.b,
        d: ap.b,
    };
    let q = Four {
        a: bo.a,
        b: gc.b,
        c: nm.a,
        d: bo.b,
    };
    let r = Four {
        a: el.a,
        b: hd.a,
        c: ji.b,
        d: el.b,
    };
    let s = Four {
        a: fk.a,
        b: gc.a,
        c: ji.a,
        d: fk.b,
    };
    let value = Quads { p, q, r, s };
    Told {
        value,
        wrapped: nm_told.wrapped
            | ji_told.wrapped
            | hd_told.wrapped
            | gc_told.wrapped
            | klop_told.wrapped
            | ap_told.wrapped
            | bo_told.wrapped
            | el_told.wrapped
            | fk_told.wrapped,
    }
}

// The same undone
pub fn undo_crossed(v: Quads) -> Quads
    ensures { mirrored result ≡ undo crossed_stage (mirrored v) }
{
    let admp = v.p;
    let bcno = v.q;
    let ehil = v.r;
    let fgjk = v.s;
    let fk = undo_scale_told(false, fgjk.a, fgjk.d).value;
    let el = undo_scale_told(false, ehil.a, ehil.d).value;
    let bo = undo_scale_told(false, bcno.a, bcno.d).value;
    let ap = undo_scale_told(false, admp.a, admp.d).value;
    let ends = Four {
        a: fk.b,
        b: el.b,
        c: bo.b,
        d: ap.b,
    };
    let klop = undo_post_odd_odd_told(false, ends).value;
    let gc = undo_rotation_told(false, fgjk.b, bcno.b).value;
    let hd = undo_rotation_told(false, ehil.b, admp.b).value;
    let ji = undo_rotation_told(false, fgjk.c, ehil.c).value;
    let nm = undo_rotation_told(false, bcno.c, admp.c).value;
    let p = Four {
        a: ap.a,
        b: hd.b,
        c: nm.b,
        d: klop.d,
    };
    let q = Four {
        a: bo.a,
        b: gc.b,
        c: nm.a,
        d: klop.c,
    };
    let r = Four {
        a: el.a,
        b: hd.a,
        c: ji.b,
        d: klop.b,
    };
    let s = Four {
        a: fk.a,
        b: gc.a,
        c: ji.a,
        d: klop.a,
    };
    Quads { p, q, r, s }
}

// The undoing told: a second text, because the plain one goes into its loop only as a text of its own
pub fn undo_crossed_told(v: Quads) -> Told<Quads>
    ensures done { mirrored result.value ≡ undo crossed_stage (mirrored v) }
    ensures told { result.wrapped ≡ undo_wraps crossed_stage (mirrored v) }
{
    let admp = v.p;
    let bcno = v.q;
    let ehil = v.r;
    let fgjk = v.s;
    let fk_told = undo_scale_told(true, fgjk.a, fgjk.d);
    let fk = fk_told.value;
    let el_told = undo_scale_told(true, ehil.a, ehil.d);
    let el = el_told.value;
    let bo_told = undo_scale_told(true, bcno.a, bcno.d);
    let bo = bo_told.value;
    let ap_told = undo_scale_told(true, admp.a, admp.d);
    let ap = ap_told.value;
    let klop_told = undo_post_odd_odd_told(
        true,
        Four {
            a: fk.b,
            b: el.b,
            c: bo.b,
            d: ap.b,
        },
    );
    let klop = klop_told.value;
    let gc_told = undo_rotation_told(true, fgjk.b, bcno.b);
    let gc = gc_told.value;
    let hd_told = undo_rotation_told(true, ehil.b, admp.b);
    let hd = hd_told.value;
    let ji_told = undo_rotation_told(true, fgjk.c, ehil.c);
    let ji = ji_told.value;
    let nm_told = undo_rotation_told(true, bcno.c, admp.c);
    let nm = nm_told.value;
    let p = Four {
        a: ap.a,
        b: hd.b,
        c: nm.b,
        d: klop.d,
    };
    let q = Four {
        a: bo.a,
        b: gc.b,
        c: nm.a,
        d: klop.c,
    };
    let r = Four {
        a: el.a,
        b: hd.a,
        c: ji.b,
        d: klop.b,
    };
    let s = Four {
        a: fk.a,
        b: gc.a,
        c: ji.a,
        d: klop.a,
    };
    let value = Quads { p, q, r, s };
    Told {
        value,
        wrapped: fk_told.wrapped
            | el_told.wrapped
            | bo_told.wrapped
            | ap_told.wrapped
            | klop_told.wrapped
            | gc_told.wrapped
            | hd_told.wrapped
            | ji_told.wrapped
            | nm_told.wrapped,
    }
}

// Figure 4.11 on each four
pub fn post_hadamards_told(tell: bool, v: Quads) -> Told<Quads>
    ensures done { OnEach (run postHadamardLines) v result.value }
    ensures told { result.wrapped ≡ tell && on_any (wraps postHadamardLines) v }
{
    joined(
        post_hadamard_told(tell, v.p),
        post_hadamard_told(tell, v.q),
        post_hadamard_told(tell, v.r),
        post_hadamard_told(tell, v.s),
    )
}

// The same undone
pub fn undo_post_hadamards_told(tell: bool, v: Quads) -> Told<Quads>
    ensures done { OnEach (undo postHadamardLines) v result.value }
    ensures told { result.wrapped ≡ tell && on_any (undo_wraps postHadamardLines) v }
{
    let s = undo_post_hadamard_told(tell, v.s);
    let r = undo_post_hadamard_told(tell, v.r);
    let q = undo_post_hadamard_told(tell, v.q);
    let p = undo_post_hadamard_told(tell, v.p);
    joined(p, q, r, s)
}
