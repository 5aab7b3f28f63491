//! Shifts, sums and products of whole numbers of 128 bits.
//!
//! Rust's shifts are defined for amounts below 128 alone, and the left one drops what it pushes out. Here every amount
//! has an answer: the floor or the ceiling to the right, and to the left the product or None.
//! The trap: what a left shift drops is lost on an edge too, as in 1 * 2^127, which is 2^127 and doesn't fit.

ghost use Rattle.std.specs.Prelude.{◌≡◌, ◌*◌, ◌^◌, ◌<◌, ◌≤◌, pos, unsigned_abs, ◌+ℤ◌, ◌-ℤ◌, ◌*ℤ◌, IsTrue};
ghost use Rattle.std.specs.Option.{SomeIff};
ghost use Rattle.fx_rational.specs.Rational.{floor_div, ceil_div};
ghost use Rattle.fx_rational.specs.Dyadic.{fits_128};

/// The floor of `v / 2^s`.
pub fn floor_shift(v: i128, s: u32) -> i128
    ensures { result ≡ floor_div v (2 ^ s) }
{
    if s < 128 {
        v >> s
    } else if v < 0 {
        -1
    } else {
        0
    }
}

/// The ceiling of `v / 2^s`.
pub fn ceil_shift(v: i128, s: u32) -> i128
    ensures { result ≡ ceil_div v (2 ^ s) }
{
    if s == 0 {
        v
    } else if 128 <= s {
        if 0 < v { 1 } else { 0 }
    } else if 0 < v {
        ((v - 1) >> s) + 1
    } else {
        // 2^127 is too great for the cast, but s isn't 0
        -((v.unsigned_abs() >> s) as i128)
    }
}

/// `a + b`, or None where it leaves 128 bits.
pub fn add_fits(a: i128, b: i128) -> Option<i128>
    ensures { SomeIff result (IsTrue (fits_128 (a +ℤ b))) (a +ℤ b) }
{
    a.checked_add(b)
}

/// `a - b`, or None where it leaves 128 bits.
pub fn subtract_fits(a: i128, b: i128) -> Option<i128>
    ensures { SomeIff result (IsTrue (fits_128 (a -ℤ b))) (a -ℤ b) }
{
    a.checked_sub(b)
}

/// `a * b`, or None where it leaves 128 bits.
pub fn mul_fits(a: i128, b: i128) -> Option<i128>
    ensures { SomeIff result (IsTrue (fits_128 (a *ℤ b))) (a *ℤ b) }
{
    a.checked_mul(b)
}

/// `v * 2^s`, or None where it leaves 128 bits.
pub fn left_fits(v: i128, s: u32) -> Option<i128>
    ensures { SomeIff result (IsTrue (fits_128 (v *ℤ pos (2 ^ s)))) (v *ℤ pos (2 ^ s)) }
{
    if s < 128 {
        // it fits exactly where all that is shifted out is the sign
        if v >> (127 - s) == v >> 127 {
            Some(v << s)
        } else {
            None
        }
    } else if v == 0 {
        Some(0)
    } else {
        None
    }
}

/// How many bits a size has.
pub fn bits(size: u128) -> u32
    ensures { result ≤ 128 }
{
    128_u32.saturating_sub(size.leading_zeros())
}

/// `2^s`.
pub fn two_to(s: u32) -> u128
    requires { s ≤ 126 }
    ensures value { result ≡ 2 ^ s }
    ensures some { 0 < result }
    ensures few { result ≤ 2 ^ 126 }
{
    1 << s
}

/// `2^s`, with a sign.
pub fn signed_two_to(s: u32) -> i128
    requires { s ≤ 64 }
    ensures value { result ≡ pos (2 ^ s) }
    ensures few { unsigned_abs result ≤ 2 ^ 64 }
{
    two_to(s) as i128
}

/// `2^s`, in 64 bits.
pub fn short_two_to(s: u32) -> i64
    requires { s ≤ 62 }
    ensures value { result ≡ pos (2 ^ s) }
    ensures few { unsigned_abs result ≤ 2 ^ 62 }
{
    1 << s
}

/// `b * 2^s`.
pub fn raised(b: u64, s: u32) -> u128
    requires few { b < 2 ^ 62 }
    requires shift { s ≤ 64 }
    ensures value { result ≡ b * 2 ^ s }
    ensures few { result < 2 ^ 126 }
    ensures some { 0 < b → 0 < result }
{
    u128::from(b) * two_to(s)
}
