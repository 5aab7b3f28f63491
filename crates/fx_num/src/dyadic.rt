//! Dyadics `m / 2^e`, their exact operations, their order, and their rounding to fewer binary places.
//!
//! A dyadic stays as it was formed: 2/2^1 and 1/2^0 are equal numbers and two dyadics, since a certificate's limits are
//! on mantissas. Zero alone has one spelling, 0/2^0, so that it never costs an alignment.

ghost use Rattle.std.specs.Prelude.{◌≡◌, ◌+◌, ◌≤◌, ◌^◌, IsTrue};
ghost use Rattle.std.specs.Option.{SomeIff};
ghost use Rattle.fx_rational.specs.Dyadic.{dyadic, zero_dyadic, fits_128, sum_fits, dyadic_sum, difference_fits, dyadic_difference, product_fits, dyadic_product, is_dyadic_at_most, rounded_down, rounded_up};

use crate::shift::{add_fits, ceil_shift, floor_shift, left_fits, mul_fits, subtract_fits};
use std::marker::Model;

/// `m / 2^e`, where zero has e = 0 and e is at most 2^20.
#[derive(Clone, Copy, Debug, PartialEq, Eq)]
pub struct Dyadic {
    /// The mantissa.
    pub m: i128,
    /// The exponent: how many binary places.
    pub e: u32,
}

impl Model for Dyadic {
    ghost use Rattle.fx_rational.specs.Dyadic as model;

    ghost Value = { model.Dyadic };

    ghost view = { λ d. record { m = d.m; e = d.e } };

    ghost invariant = { λ d. model.IsDyadic d.m d.e };

    ghost inverse = { λ d. record { m = d.m; e = d.e } };
}

impl Dyadic {
    /// Zero.
    pub fn zero() -> Dyadic
        ensures { result ≡ zero_dyadic }
    {
        Dyadic { m: 0, e: 0 }
    }

    /// `m / 2^e`, with the exponent 0 where m is zero.
    pub fn new(m: i128, e: u32) -> Dyadic
        requires { e ≤ 2 ^ 20 }
        ensures { result ≡ dyadic m e }
    {
        if m == 0 {
            Dyadic { m: 0, e: 0 }
        } else {
            Dyadic { m, e }
        }
    }

    /// `m / 2^e` of any exponent, with the exponent 0 where m is zero. None where it is above 2^20.
    pub fn checked(m: i128, e: u32) -> Option<Dyadic>
        ensures { SomeIff result (e ≤ 2 ^ 20) (dyadic m e) }
    {
        if e <= 1 << 20 {
            Some(Dyadic::new(m, e))
        } else {
            None
        }
    }

    /// What each dyadic keeps: a mantissa of 128 bits.
    pub fn keeps(&self)
        ensures { IsTrue (fits_128 self.now.m) }
    {
        let _m = self.m;
    }
}

/// `m / 2^e` in lowest terms, for guesses: an exponent that is still above 2^20 then becomes that.
pub fn lowest(m: i128, e: u32) -> Dyadic {
    let places = m.trailing_zeros().min(e);
    Dyadic::new(
        floor_shift(m, places),
        e.saturating_sub(places).min(1 << 20),
    )
}

/// `a + b`, both mantissas brought to the greater exponent. None where a mantissa leaves 128 bits, after that or in the
/// sum.
#[tactic(auto, unfolding(fx_rational::specs::Dyadic::sum_fits, fx_rational::specs::Dyadic::dyadic_sum))]
pub fn dadd(a: Dyadic, b: Dyadic) -> Option<Dyadic>
    ensures { SomeIff result (IsTrue (sum_fits a b)) (dyadic_sum a b) }
{
    let e = a.e.max(b.e);
    let x = left_fits(a.m, e - a.e)?;
    let y = left_fits(b.m, e - b.e)?;
    let m = add_fits(x, y)?;
    Some(Dyadic::new(m, e))
}

/// `a - b`, both mantissas brought to the greater exponent. None as in `dadd`.
#[tactic(auto, unfolding(fx_rational::specs::Dyadic::difference_fits, fx_rational::specs::Dyadic::dyadic_difference))]
pub fn dsub(a: Dyadic, b: Dyadic) -> Option<Dyadic>
    ensures { SomeIff result (IsTrue (difference_fits a b)) (dyadic_difference a b) }
{
    let e = a.e.max(b.e);
    let minuend = left_fits(a.m, e - a.e)?;
    let subtrahend = left_fits(b.m, e - b.e)?;
    let m = subtract_fits(minuend, subtrahend)?;
    Some(Dyadic::new(m, e))
}

/// `a * b`: the mantissas' product, with the exponents' sum. None where that mantissa leaves 128 bits.
#[tactic(auto, unfolding(fx_rational::specs::Dyadic::product_fits, fx_rational::specs::Dyadic::dyadic_product))]
pub fn dmul(a: Dyadic, b: Dyadic) -> Option<Dyadic>
    requires { a.e + b.e ≤ 2 ^ 20 }
    ensures { SomeIff result (IsTrue (product_fits a b)) (dyadic_product a b) }
{
    let m = mul_fits(a.m, b.m)?;
    Some(Dyadic::new(m, a.e + b.e))
}

/// Whether `a <= b`, for every pair.
pub fn dle(a: Dyadic, b: Dyadic) -> bool
    ensures { result ≡ is_dyadic_at_most a b }
{
    // b.m * 2^(a.e - b.e) may not fit, so the other mantissa is brought down: a whole number is at least x exactly
    // where it is at least the ceiling of x
    if b.e < a.e {
        ceil_shift(a.m, a.e - b.e) <= b.m
    } else {
        a.m <= floor_shift(b.m, b.e - a.e)
    }
}

/// The greatest dyadic not above `a` of those whose exponent is at most `e`.
#[tactic(auto, unfolding(fx_rational::specs::Dyadic::rounded_down))]
pub fn round_down(a: Dyadic, e: u32) -> Dyadic
    ensures { result ≡ rounded_down a e }
{
    if a.e <= e {
        a
    } else {
        Dyadic::new(floor_shift(a.m, a.e - e), e)
    }
}

/// The least dyadic not below `a` of those whose exponent is at most `e`.
#[tactic(auto, unfolding(fx_rational::specs::Dyadic::rounded_up))]
pub fn round_up(a: Dyadic, e: u32) -> Dyadic
    ensures { result ≡ rounded_up a e }
{
    if a.e <= e {
        a
    } else {
        Dyadic::new(ceil_shift(a.m, a.e - e), e)
    }
}
