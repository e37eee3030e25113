// Blocks of four rows of four numbers as four fours, and back.
#![tactic(auto)]

pub mod stage; // stage.rt: the stage that Figures 4.8 and 4.14 share

ghost use Rattle.std.specs.Prelude.{◌≡◌, ◌||◌, [], ◌∷◌, ◌<◌};
ghost use Rattle.lifting.specs.Program.{get, at as number};
ghost use Rattle.figures.specs.Block.{flat, list};
ghost use Rattle.blocks.specs.Quads.{quartered as quarteredList, mirrored as mirroredList};

use figures::Four;
use lifting::told::Told;

#[derive(Clone, Copy)]
pub struct Quads {
    pub p: Four,
    pub q: Four,
    pub r: Four,
    pub s: Four,
}

// Coefficient k of a block
fn at(b: [[i32; 4]; 4], k: usize) -> i32
    requires { k < 16 }
    ensures { result ≡ number (flat b) k }
{
    b[k / 4][k % 4]
}

// Four coefficients of a block
pub fn pick(b: [[i32; 4]; 4], i: usize, j: usize, k: usize, l: usize) -> Four
    requires { (i < 16) × (j < 16) × (k < 16) × (l < 16) }
    ensures { list result ≡ get (i ∷ j ∷ k ∷ l ∷ []) (flat b) }
{
    Four {
        a: at(b, i),
        b: at(b, j),
        c: at(b, k),
        d: at(b, l),
    }
}

// A block as its mirrored fours
pub fn split(b: [[i32; 4]; 4]) -> Quads
    ensures { mirroredList result ≡ flat b }
{
    let p = pick(b, 0, 3, 12, 15);
    let q = pick(b, 1, 2, 13, 14);
    let r = pick(b, 4, 7, 8, 11);
    let s = pick(b, 5, 6, 9, 10);
    Quads { p, q, r, s }
}

// The block of these mirrored fours
pub fn mirrored(f: Quads) -> [[i32; 4]; 4]
    ensures { flat result ≡ mirroredList f }
{
    let p = f.p;
    let q = f.q;
    let r = f.r;
    let s = f.s;
    [
        [p.a, q.a, q.b, p.b],
        [r.a, s.a, s.b, r.b],
        [r.c, s.c, s.d, r.d],
        [p.c, q.c, q.d, p.d],
    ]
}

// The block of these quarters
pub fn quartered(f: Quads) -> [[i32; 4]; 4]
    ensures { flat result ≡ quarteredList f }
{
    let p = f.p;
    let q = f.q;
    let r = f.r;
    let s = f.s;
    [
        [p.a, p.b, q.a, q.b],
        [p.c, p.d, q.c, q.d],
        [r.a, r.c, s.a, s.b],
        [r.b, r.d, s.c, s.d],
    ]
}

// A block as its quarters
pub fn quarters(b: [[i32; 4]; 4]) -> Quads
    ensures { quarteredList result ≡ flat b }
{
    let p = pick(b, 0, 1, 4, 5);
    let q = pick(b, 2, 3, 6, 7);
    let r = pick(b, 8, 12, 9, 13);
    let s = pick(b, 10, 11, 14, 15);
    Quads { p, q, r, s }
}

// Four told fours as one told value
pub fn joined(p: Told<Four>, q: Told<Four>, r: Told<Four>, s: Told<Four>) -> Told<Quads>
    ensures fours { (result.value.p ≡ p.value) × (result.value.q ≡ q.value) × (result.value.r ≡ r.value) × (result.value.s ≡ s.value) }
    ensures told { result.wrapped ≡ p.wrapped || q.wrapped || r.wrapped || s.wrapped }
{
    let value = Quads {
        p: p.value,
        q: q.value,
        r: r.value,
        s: s.value,
    };
    Told {
        value,
        wrapped: p.wrapped | q.wrapped | r.wrapped | s.wrapped,
    }
}
