// Signed 32-bit arithmetic that wraps, and division by a power of two that rounds down: the steps of a lifting line.
#![tactic(auto)]

pub mod told; // told.rt: the same steps, with whether a reduction changed a number

ghost use Rattle.std.specs.Prelude.{◌≡◌, ◌+ℤ◌, ◌-ℤ◌, ◌^◌, ◌<◌};
ghost use Rattle.std.specs.Int.Signed.{shr_z};
ghost use Rattle.lifting.specs.Wrap.{wrap};

// a + b
pub fn add(a: i32, b: i32) -> i32
    ensures { result ≡ wrap (a +ℤ b) }
{
    a.wrapping_add(b)
}

// a - b
pub fn sub(a: i32, b: i32) -> i32
    ensures { result ≡ wrap (a -ℤ b) }
{
    a.wrapping_sub(b)
}

// a >> k: a divided by 2^k, rounded toward minus infinity
pub fn shift(a: i32, k: u32) -> i32
    requires { k < 32 }
    ensures { result ≡ shr_z a (2 ^ k) }
{
    a >> k
}
