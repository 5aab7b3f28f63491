//! Fractions in lowest terms.
//!
//! Lowest terms make the spelling unique, so `==` compares values and an operation's result is one definite pair. The
//! limits keep every product of two numerators or denominators below 2^124, so that no sum leaves 128 bits.

ghost use Rattle.std.specs.Prelude.{◌≡◌, ◌<◌, ◌^◌, pos, pred, unsigned_abs};
ghost use Rattle.std.specs.Int.{IsGcd};
ghost use Rattle.fx_rational.specs.Rational.{bottom, lowest, over};
ghost use Rattle.fx_fraction.specs.Numeral.{signed};
ghost use Rattle.fx_fraction.specs.Fractions.{GivesLowest};

use crate::decimal::signed;
use std::fmt;
use std::marker::Model;

/// The fraction `p / q` in lowest terms, where |p| and `q` are below 2^62 and `q` is above zero.
#[derive(Clone, Copy, Debug, PartialEq, Eq)]
pub struct Fraction {
    pub p: i128,
    pub q: i128,
}

impl Model for Fraction {
    ghost use Rattle.std.specs.Prelude.{pos, pred};
    ghost use Rattle.std.specs.Int.RustNames.{unsigned_abs};
    ghost use Rattle.fx_rational.specs.Rational.{Rational, bottom};
    ghost use Rattle.fx_fraction.specs.Fractions.{IsFraction};

    ghost Value = { Rational };

    ghost view = { λ c. record { top = c.p; less = pred (unsigned_abs c.q) } };

    ghost invariant = { λ c. IsFraction c.p c.q };

    ghost inverse = { λ r. record { p = r.top; q = pos (bottom r) } };

    ghost use Rattle.fx_fraction.specs.Back.{fraction_back};

    ghost inverse_ok = { λ c h. fraction_back c h };
}

impl Fraction {
    /// What each fraction keeps: its terms are the lowest.
    pub fn keeps(&self)
        ensures { self.now ≡ lowest self.now }
    {
        let _p = self.p;
    }
}

impl fmt::Display for Fraction {
    fn fmt<W: fmt::Write>(&self, f: &mut fmt::Formatter<W>) -> fmt::Result {
        write!(f, "{}/{}", self.p, self.q)
    }
}

/// The numerator, with the limit that the type keeps.
pub fn numerator(a: Fraction) -> i128
    ensures value { result ≡ a.top }
    ensures small { unsigned_abs result < 2 ^ 62 }
{
    a.p
}

/// The denominator, with the limits that the type keeps.
pub fn denominator(a: Fraction) -> i128
    ensures value { result ≡ pos (bottom a) }
    ensures small { unsigned_abs result < 2 ^ 62 }
{
    a.q
}

fn short_gcd(a: u64, b: u64) -> u64
    ensures { IsGcd a b result }
{
    let mut x = a;
    let mut y = b;
    while y != 0 {
        let rest = x % y;
        x = y;
        y = rest;
    }
    x
}

/// The greatest common divisor, by 64 bits as soon as the lesser number has no more: a division by 128 bits costs many
/// times as much.
fn gcd(a: u128, b: u128) -> u128
    ensures { IsGcd a b result }
{
    let mut x = a;
    let mut y = b;
    while y >= 1 << 64 {
        let rest = x % y;
        x = y;
        y = rest;
    }
    if y == 0 {
        return x;
    }
    let rest = (x % y) as u64;
    u128::from(short_gcd(y as u64, rest))
}

/// The fraction `top / bottom` with a sign.
fn made(is_negative: bool, top: u64, bottom: u64) -> Fraction
    requires above { 0 < bottom }
    requires top { top < 2 ^ 62 }
    requires bottom { bottom < 2 ^ 62 }
    requires coprime { IsGcd top bottom 1 }
    ensures { result ≡ record { top = signed is_negative top; less = pred bottom } }
{
    Fraction {
        p: i128::from(signed(is_negative, top)),
        q: i128::from(bottom),
    }
}

/// The fraction `p / q`, if it keeps the limits in lowest terms.
pub fn reduced(p: i128, q: u128) -> Option<Fraction>
    requires { 0 < q }
    ensures { GivesLowest result (over p q) }
{
    let size = p.unsigned_abs();
    let divisor = gcd(size, q);
    let top = size / divisor;
    let bottom = q / divisor;
    if top >= 1 << 62 {
        return None;
    }
    if bottom >= 1 << 62 {
        return None;
    }
    Some(made(p < 0, top as u64, bottom as u64))
}
