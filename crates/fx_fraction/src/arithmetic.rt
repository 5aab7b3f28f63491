//! Exact arithmetic of fractions.
//!
//! Each operation forms its textbook fraction in 128 bits, where nothing can overflow, and lowers its terms. So `None`
//! says one thing: that the result, in lowest terms, leaves the limits of `Fraction`.

ghost use Rattle.std.specs.Prelude.{◌≡◌, ◌≢◌, ◌<◌, ◌*◌, ◌^◌, ◌+ℤ◌, ◌*ℤ◌, neg_ℤ, pos, unsigned_abs, IsSomeAnd};
ghost use Rattle.fx_rational.specs.Rational.{bottom, plus, minus, times, negative, quotient, lowest};
ghost use Rattle.fx_rational.specs.Decimal.{decimal_value};
ghost use Rattle.fx_fraction.specs.Fractions.{GivesLowest};

use crate::decimal::{Decimal, ten_to};
use crate::fraction::{Fraction, denominator, numerator, reduced};

/// A numerator or denominator times another.
fn product(x: i128, y: i128) -> i128
    requires left { unsigned_abs x < 2 ^ 62 }
    requires right { unsigned_abs y < 2 ^ 62 }
    ensures value { result ≡ x *ℤ y }
    ensures small { unsigned_abs result < 2 ^ 124 }
{
    x * y
}

fn sum(x: i128, y: i128) -> i128
    requires left { unsigned_abs x < 2 ^ 124 }
    requires right { unsigned_abs y < 2 ^ 124 }
    ensures { result ≡ x +ℤ y }
{
    x + y
}

/// The product of the denominators.
fn bottoms(a: Fraction, b: Fraction) -> u128
    ensures value { result ≡ bottom a * bottom b }
    ensures some { 0 < result }
{
    a.q.unsigned_abs() * b.q.unsigned_abs()
}

/// The denominator times the size of a divisor's numerator.
fn crossed(a: Fraction, b: Fraction) -> u128
    requires { b.top ≢ pos 0 }
    ensures value { result ≡ bottom a * unsigned_abs b.top }
    ensures some { 0 < result }
{
    a.q.unsigned_abs() * b.p.unsigned_abs()
}

fn opposite(x: i128) -> i128
    requires { unsigned_abs x < 2 ^ 124 }
    ensures { result ≡ neg_ℤ x }
{
    -x
}

/// The sum, and `None` exactly where it leaves the limits of `Fraction` in lowest terms.
#[tactic(auto, unfolding(fx_rational::specs::Rational::plus))]
pub fn fadd(a: Fraction, b: Fraction) -> Option<Fraction>
    ensures { GivesLowest result (plus a b) }
{
    let top = sum(
        product(numerator(a), denominator(b)),
        product(numerator(b), denominator(a)),
    );
    reduced(top, bottoms(a, b))
}

/// The difference, and `None` exactly where it leaves the limits of `Fraction` in lowest terms.
#[tactic(auto, unfolding(fx_rational::specs::Rational::minus))]
pub fn fsub(a: Fraction, b: Fraction) -> Option<Fraction>
    ensures { GivesLowest result (minus a b) }
{
    fadd(a, fneg(b))
}

/// The product, and `None` exactly where it leaves the limits of `Fraction` in lowest terms.
#[tactic(auto, unfolding(fx_rational::specs::Rational::times))]
pub fn fmul(a: Fraction, b: Fraction) -> Option<Fraction>
    ensures { GivesLowest result (times a b) }
{
    reduced(product(numerator(a), numerator(b)), bottoms(a, b))
}

/// The quotient, and `None` exactly where it leaves the limits of `Fraction` in lowest terms.
pub fn fdiv(a: Fraction, b: Fraction) -> Option<Fraction>
    requires { b.top ≢ pos 0 }
    ensures { IsSomeAnd (quotient a b) (GivesLowest result) }
{
    let top_product = product(numerator(a), denominator(b));
    if numerator(b) < 0 {
        reduced(opposite(top_product), crossed(a, b))
    } else {
        reduced(top_product, crossed(a, b))
    }
}

/// The number with the other sign.
pub fn fneg(a: Fraction) -> Fraction
    ensures { result ≡ negative a }
{
    Fraction { p: -a.p, q: a.q }
}

/// The fraction of the same value.
pub fn to_fraction(d: Decimal) -> Fraction
    ensures { result ≡ lowest (decimal_value d) }
{
    match reduced(i128::from(d.a), u128::from(ten_to(d.b))) {
        Some(fraction) => fraction,
        None => unreachable!(),
    }
}

impl From<Decimal> for Fraction {
    ghost from_gives = { λ d fraction. fraction ≡ lowest (decimal_value d) };

    fn from(d: Decimal) -> Fraction {
        to_fraction(d)
    }
}
