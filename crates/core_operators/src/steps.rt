// The expressions that the figures' lines share, told: with whether a reduction changed a number.
ghost use Rattle.std.specs.Prelude.{◌≡◌, ◌&&◌, ◌||◌, ◌^◌, ◌<◌, pos, ◌+ℤ◌, ◌*ℤ◌};
ghost use Rattle.std.specs.Int.Signed.{shr_z};
ghost use Rattle.lifting.specs.Wrap.{wrap};
ghost use Rattle.lifting.specs.Wraps.{changes};

use lifting::shift;
use lifting::told::{Told, add_told, thrice_told};

// (y + k) >> s
pub fn rounded_told(tell: bool, y: i32, k: i32, s: u32) -> Told<i32>
    requires { s < 32 }
    ensures value { result.value ≡ shr_z (wrap (y +ℤ k)) (2 ^ s) }
    ensures told { result.wrapped ≡ tell && changes (y +ℤ k) }
{
    let sum = add_told(tell, y, k);
    Told {
        value: shift(sum.value, s),
        wrapped: sum.wrapped,
    }
}

// (3 y + k) >> s
pub fn scaled_told(tell: bool, y: i32, k: i32, s: u32) -> Told<i32>
    requires { s < 32 }
    ensures value { result.value ≡ shr_z (wrap (wrap (pos 3 *ℤ y) +ℤ k)) (2 ^ s) }
    ensures told { result.wrapped ≡ tell && (changes (pos 3 *ℤ y) || changes (wrap (pos 3 *ℤ y) +ℤ k)) }
{
    let three = thrice_told(tell, y);
    let sum = rounded_told(tell, three.value, k, s);
    Told {
        value: sum.value,
        wrapped: three.wrapped | sum.wrapped,
    }
}
