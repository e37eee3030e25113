// The look for large numbers: where a level's numbers are all at most 2^25 in magnitude, or those of a block or window at most 2^27, no sum of it wraps.
#![tactic(auto)]

ghost use Rattle.std.specs.Prelude.{◌≡◌, false, ◌+◌, ◌*◌, ◌<◌, ◌≤◌, length, pos, nat_abs, ◌+ℤ◌};
ghost use Rattle.lifting.specs.Row.{Row};
ghost use Rattle.lifting.specs.Wrap.{low32};
ghost use Rattle.lifting.specs.Wraps.{Within};
ghost use Rattle.large_numbers.specs.Small.{AtMost, Small, Fit};

use std::marker::Model;

// A limit for magnitudes, of which twice as much fits 31 bits. Contracts see it as the plain number.
#[derive(Clone, Copy)]
pub struct Limit {
    pub most: u32,
}

impl Model for Limit {
    ghost use Rattle.std.specs.Prelude.{ℕ, ◌≤◌};

    ghost Value = { ℕ };

    ghost view = { λ limit. limit.most };

    ghost invariant = { λ limit. limit.most ≤ 1073741824 };

    ghost inverse = { λ most. record { most = most } };
}

// Up to this magnitude the numbers of a level make no sum of it wrap. A power of two, as the next is, so that marks can be joined by bits.
pub const LEVEL_LIMIT: Limit = Limit { most: 33554432 };

// Up to this one the sixteen numbers of a block or window make no sum of it wrap.
pub const SQUARE_LIMIT: Limit = Limit { most: 134217728 };

impl Limit {
    // x + limit as 32 bits without a sign: below twice the limit only if x is at most the limit in magnitude. It compiles to one sum.
    fn mark(self, x: i32) -> u32
        ensures { result ≡ low32 (x +ℤ pos self) }
    {
        x.cast_unsigned().wrapping_add(self.most)
    }

    // Whether a mark, or marks joined by bits, are of a number above the limit.
    fn passed_by(self, marks: u32) -> bool
        ensures { result ≡ false → marks < 2 * self }
    {
        2 * self.most <= marks
    }
}

// Whether one number is above the limit in magnitude.
pub fn above(x: i32, limit: Limit) -> bool
    ensures { result ≡ false → nat_abs x ≤ limit }
{
    limit.passed_by(limit.mark(x))
}

// The marks of numbers joined by bits, so that the walk goes by fours and its end is compared once: below twice the limit only if none of the numbers
// is above the limit in magnitude. Whoever has looked at a number knows that it is one of 32 bits.
fn joined_marks(s: &[i32], limit: Limit) -> u32
    ensures at_most { result < 2 * limit → AtMost limit s.now 0 (length s.now) }
    ensures fit { Fit s.now 0 (length s.now) }
{
    let mut joined = 0;
    for x in s {
        joined |= limit.mark(*x);
    }
    joined
}

// Whether one of n numbers, from a place on, is above the limit in magnitude. With a power of two for the limit the marks tell of no smaller number.
// The place is one of the whole slice, of which the contracts of those who ask speak.
pub fn some_above(s: &[i32], from: usize, n: usize, limit: Limit) -> bool
    requires { from + n ≤ length s.now }
    ensures at_most { result ≡ false → AtMost limit s.now from (from + n) }
    ensures fit { Fit s.now from (from + n) }
{
    limit.passed_by(joined_marks(&s[from..from + n], limit))
}

// The same with a level's limit.
pub fn some_large(s: &[i32], from: usize, n: usize) -> bool
    requires { from + n ≤ length s.now }
    ensures small { result ≡ false → Small s.now from (from + n) }
    ensures fit { Fit s.now from (from + n) }
{
    some_above(s, from, n, LEVEL_LIMIT)
}

pub fn any_large(s: &[i32]) -> bool
    ensures within { result ≡ false → Within 33554432 s.now }
    ensures row { Row (length s.now) s.now }
{
    some_large(s, 0, s.len())
}
