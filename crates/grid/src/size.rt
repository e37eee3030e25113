// The size of a grid in squares of four by four numbers: no level of a picture has more than 2100 across or 1652 down.
ghost use Rattle.std.specs.Prelude.{◌<◌, ◌≤◌};

#[derive(Clone, Copy)]
pub struct Squares {
    pub across: usize,
    pub down: usize,
    pub ghost wide: { 0 < across },
    pub ghost most_wide: { across ≤ 2100 },
    pub ghost tall: { 0 < down },
    pub ghost most_tall: { down ≤ 1652 },
}
