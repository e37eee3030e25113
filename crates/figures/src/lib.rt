// Two and four numbers, which operators take and answer. The figures themselves are the definitions in specs/.
#![tactic(auto)]

ghost use Rattle.std.specs.Prelude.{◌≡◌};
ghost use Rattle.figures.specs.Block.{list};

#[derive(Clone, Copy)]
pub struct Pair {
    pub a: i32,
    pub b: i32,
}

#[derive(Clone, Copy)]
pub struct Four {
    pub a: i32,
    pub b: i32,
    pub c: i32,
    pub d: i32,
}

impl From<Four> for [i32; 4] {
    ghost from_gives = { λ f v. v ≡ list f };

    fn from(f: Four) -> [i32; 4] {
        [f.a, f.b, f.c, f.d]
    }
}

impl From<[i32; 4]> for Four {
    ghost from_gives = { λ v f. list f ≡ v };

    fn from(v: [i32; 4]) -> Four {
        let [a, b, c, d] = v;
        Four { a, b, c, d }
    }
}
