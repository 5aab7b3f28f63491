//! The two whole numbers of a node, in units of the point.

ghost use Rattle.std.specs.Prelude.{◌≡◌, ◌+◌, ◌*◌, ◌^◌, ◌≤◌, pos};
ghost use Rattle.fx_rational.specs.Rational.{whole, AtMost};
ghost use Rattle.fx_rational.specs.Decimal.{decimal_value};
ghost use Rattle.fx_expr.specs.Parts.{input_of};
ghost use Rattle.fx_plan_laws.specs.Bounds.{error_box, state_bound, input_bound, const_bound, sum_bound, product_bound, shifted_up};
ghost use Rattle.fx_calm.specs.NumbersOf.{numbers_view};
ghost use Rattle.fx_calm.specs.BoundOf.{bound_of, IsShort, HasPlace};

use crate::magnitude::{magnitude_of, magnitude_of_decimal, reach, units};
use crate::numbers::Numbers;
use fx_expr::Input;
use fx_fraction::Fraction;
use fx_num::two_to;

/// The value lies from `-r` to `r` units, its error from `-e` to `e`.
#[derive(Clone, Copy, Debug)]
pub struct Bound {
    /// Of the range.
    pub r: u64,
    /// Of the error.
    pub e: u64,
}

/// `2^k`.
fn power(k: u32) -> u64
    requires { k ≤ 61 }
    ensures { result ≡ 2 ^ k }
{
    1 << k
}

/// The exponent of a state's error, in units.
fn error_box(c: Numbers) -> u32
    requires { HasPlace (numbers_view c) }
    ensures value { result ≡ error_box (numbers_view c) }
    ensures few { result ≤ 61 }
{
    ((c.p + 4 + c.f) as i32 + c.v) as u32
}

/// Of a state.
pub fn state_of(c: Numbers) -> Bound
    requires { HasPlace (numbers_view c) }
    ensures value { bound_of result ≡ state_bound (numbers_view c) }
    ensures short { IsShort (bound_of result) }
{
    Bound {
        r: power(c.q + 2 + c.f),
        e: power(error_box(c)),
    }
}

/// Of an input: a unit more, which the reading of a row may lose.
pub fn input_of(input: &Input, f: u32) -> Bound
    requires error { AtMost (whole (pos 0)) (decimal_value input.now.err) }
    requires point { f ≤ 58 }
    requires short { IsShort (input_bound f (input_of input.now)) }
    ensures { bound_of result ≡ input_bound f (input_of input.now) }
{
    let r = units(reach(input), f);
    let e = units(magnitude_of_decimal(input.err), f);
    Bound {
        r: r as u64,
        e: e as u64 + 1,
    }
}

/// Of a literal: its size in units, and one unit that its word may lose.
pub fn literal_of(c: Fraction, f: u32) -> Bound
    requires point { f ≤ 58 }
    requires short { IsShort (const_bound f c) }
    ensures { bound_of result ≡ const_bound f c }
{
    let r = units(magnitude_of(c), f);
    Bound { r: r as u64, e: 1 }
}

/// Of a sum or a difference.
pub fn sum_of(a: Bound, b: Bound) -> Bound
    requires left { IsShort (bound_of a) }
    requires right { IsShort (bound_of b) }
    ensures { bound_of result ≡ sum_bound (bound_of a) (bound_of b) }
{
    Bound {
        r: a.r + b.r,
        e: a.e + b.e,
    }
}

/// The product of two numbers of 61 bits.
fn times(a: u64, b: u64) -> u128
    requires left { a ≤ 2 ^ 61 }
    requires right { b ≤ 2 ^ 61 }
    ensures value { result ≡ a * b }
    ensures few { result ≤ 2 ^ 122 }
{
    u128::from(a) * u128::from(b)
}

/// `n / 2^f`, rounded upward.
fn shift_up(n: u128, f: u32) -> u128
    requires few { n ≤ 2 ^ 126 }
    requires point { f ≤ 58 }
    ensures { result ≡ shifted_up f n }
{
    let unit = two_to(f);
    (n + (unit - 1)) / unit
}

/// Of a product: rounded upward, and a unit more that the shift may lose.
pub fn product_of(a: Bound, b: Bound, f: u32) -> Bound
    requires left { IsShort (bound_of a) }
    requires right { IsShort (bound_of b) }
    requires point { f ≤ 58 }
    requires short { IsShort (product_bound f (bound_of a) (bound_of b)) }
    ensures { bound_of result ≡ product_bound f (bound_of a) (bound_of b) }
{
    let r = shift_up(times(a.r, b.r), f);
    let e = shift_up(times(a.r, b.e) + times(b.r, a.e) + times(a.e, b.e), f);
    Bound {
        r: r as u64,
        e: e as u64 + 1,
    }
}
