// The same steps told: beside its result, each says whether a reduction changed a number. Where nobody asks (`tell` is false) that is not looked
// for: with the constant false a step costs what the plain step costs, and the operators go into their loops as before.
ghost use Rattle.std.specs.Prelude.{◌≡◌, ◌&&◌, pos, neg_ℤ, ◌+ℤ◌, ◌-ℤ◌, ◌*ℤ◌};
ghost use Rattle.lifting.specs.Wrap.{wrap};
ghost use Rattle.lifting.specs.Wraps.{changes};

use crate::{add, sub};

// A value, with whether a reduction changed a number on the way to it
#[derive(Clone, Copy)]
pub struct Told<T> {
    pub value: T,
    pub wrapped: bool,
}

// Whether s is outside the range
fn outside(s: i64) -> bool
    ensures { result ≡ changes s }
{
    if s > 2147483647 {
        true
    } else {
        s < -2147483648
    }
}

fn sum_wraps(a: i32, b: i32) -> bool
    ensures { result ≡ changes (a +ℤ b) }
{
    outside((a as i64) + (b as i64))
}

fn difference_wraps(a: i32, b: i32) -> bool
    ensures { result ≡ changes (a -ℤ b) }
{
    outside((a as i64) - (b as i64))
}

// a + b. The sum is formed a second time, in 64 bits, for the flag: value and flag of one sum would keep the loops from becoming vectors. So would the
// flag of `overflowing_add`, which is cheap enough for the compiler to make it where nobody asks.
pub fn add_told(tell: bool, a: i32, b: i32) -> Told<i32>
    ensures value { result.value ≡ wrap (a +ℤ b) }
    ensures told { result.wrapped ≡ tell && changes (a +ℤ b) }
{
    let value = add(a, b);
    let wrapped = tell && sum_wraps(a, b);
    Told { value, wrapped }
}

// a - b
pub fn sub_told(tell: bool, a: i32, b: i32) -> Told<i32>
    ensures value { result.value ≡ wrap (a -ℤ b) }
    ensures told { result.wrapped ≡ tell && changes (a -ℤ b) }
{
    let value = sub(a, b);
    let wrapped = tell && difference_wraps(a, b);
    Told { value, wrapped }
}

// -a
pub fn negate_told(tell: bool, a: i32) -> Told<i32>
    ensures value { result.value ≡ wrap (neg_ℤ a) }
    ensures told { result.wrapped ≡ tell && changes (neg_ℤ a) }
{
    sub_told(tell, 0, a)
}

// 3 * a
pub fn thrice_told(tell: bool, a: i32) -> Told<i32>
    ensures value { result.value ≡ wrap (pos 3 *ℤ a) }
    ensures told { result.wrapped ≡ tell && changes (pos 3 *ℤ a) }
{
    let twice = add_told(tell, a, a);
    let all = add_told(tell, twice.value, a);
    Told {
        value: all.value,
        wrapped: twice.wrapped | all.wrapped,
    }
}
