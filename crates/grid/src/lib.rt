// Four numbers in a line, corners of two by two, and squares of four by four, of a grid that is a slice in raster order; and a block from its planes.
#![tactic(auto)]

pub mod size; // size.rt: the size of a grid in squares

ghost use Rattle.std.specs.Prelude.{◌≡◌, ◌+◌, ◌<◌, [], ◌∷◌, length};
ghost use Rattle.lifting.specs.Program.{at as number, get, put};
ghost use Rattle.figures.specs.Block.{four, flat};
ghost use Rattle.transform.specs.Level.{strip, square, corner};
ghost use Rattle.picture.specs.Table.{table};
ghost use Rattle.transform.specs.Grids.{coefficients};

// The numbers at four places.
fn get_at(grid: &[i32], a: usize, b: usize, c: usize, d: usize) -> [i32; 4]
    requires a_in_bounds { a < length grid.now }
    requires b_in_bounds { b < length grid.now }
    requires c_in_bounds { c < length grid.now }
    requires d_in_bounds { d < length grid.now }
    ensures { four result ≡ get (a ∷ b ∷ c ∷ d ∷ []) grid.now }
{
    [grid[a], grid[b], grid[c], grid[d]]
}

fn put_at(grid: &mut [i32], a: usize, b: usize, c: usize, d: usize, v: [i32; 4])
    requires a_in_bounds { a < length grid.old }
    requires b_in_bounds { b < length grid.old }
    requires c_in_bounds { c < length grid.old }
    requires d_in_bounds { d < length grid.old }
    ensures { grid.new ≡ put (a ∷ b ∷ c ∷ d ∷ []) (four v) grid.old }
{
    let [first, second, third, fourth] = v;
    grid[a] = first;
    grid[b] = second;
    grid[c] = third;
    grid[d] = fourth;
}

// The numbers at four places from `at` on, each `step` after the one before.
pub fn get_four(grid: &[i32], step: usize, at: usize) -> [i32; 4]
    requires { at + step + step + step < length grid.now }
    ensures { four result ≡ get (strip step at) grid.now }
{
    get_at(
        grid,
        at,
        at + step,
        at + step + step,
        at + step + step + step,
    )
}

pub fn put_four(grid: &mut [i32], step: usize, at: usize, v: [i32; 4])
    requires { at + step + step + step < length grid.old }
    ensures { grid.new ≡ put (strip step at) (four v) grid.old }
{
    put_at(
        grid,
        at,
        at + step,
        at + step + step,
        at + step + step + step,
        v,
    );
}

// The corner whose first place is `at`, row by row, in a grid of `w` columns.
pub fn get_corner(grid: &[i32], w: usize, at: usize) -> [i32; 4]
    requires { at + w + 1 < length grid.now }
    ensures { four result ≡ get (corner w at) grid.now }
{
    get_at(grid, at, at + 1, at + w, at + w + 1)
}

pub fn put_corner(grid: &mut [i32], w: usize, at: usize, v: [i32; 4])
    requires { at + w + 1 < length grid.old }
    ensures { grid.new ≡ put (corner w at) (four v) grid.old }
{
    put_at(grid, at, at + 1, at + w, at + w + 1, v);
}

// The square whose first place is `at`, in a grid of `w` columns.
pub fn get_square(grid: &[i32], w: usize, at: usize) -> [[i32; 4]; 4]
    requires { at + w + w + w + 3 < length grid.now }
    ensures { flat result ≡ get (square w at) grid.now }
{
    [
        get_four(grid, 1, at),
        get_four(grid, 1, at + w),
        get_four(grid, 1, at + w + w),
        get_four(grid, 1, at + w + w + w),
    ]
}

pub fn put_square(grid: &mut [i32], w: usize, at: usize, b: [[i32; 4]; 4])
    requires { at + w + w + w + 3 < length grid.old }
    ensures { grid.new ≡ put (square w at) (flat b) grid.old }
{
    let [first, second, third, fourth] = b;
    put_four(grid, 1, at, first);
    put_four(grid, 1, at + w, second);
    put_four(grid, 1, at + w + w, third);
    put_four(grid, 1, at + w + w + w, fourth);
}

// A block: its coefficient 0, and its coefficients 1 to 15 from their plane, of which the first stands at `from`.
pub fn coefficient_block(zero: i32, rest: &[i32], from: usize) -> [[i32; 4]; 4]
    requires { from + 14 < length rest.now }
    ensures { flat result ≡ table 16 (coefficients zero (λ k. number rest.now (from + k))) }
{
    [
        [zero, rest[from], rest[from + 1], rest[from + 2]],
        get_four(rest, 1, from + 3),
        get_four(rest, 1, from + 7),
        get_four(rest, 1, from + 11),
    ]
}
