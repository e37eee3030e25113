// The numbers of a slice are of 32 bits, as a look at each of them tells.
ghost use Rattle.std.specs.Prelude.{length};
ghost use Rattle.lifting.specs.Row.{Row};

use large_numbers::any_large;

pub fn in_range(s: &[i32]) -> bool
    ensures { Row (length s.now) s.now }
{
    any_large(s)
}
