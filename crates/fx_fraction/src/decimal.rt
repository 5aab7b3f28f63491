//! Exact decimals.
//!
//! A decimal has one spelling as a struct, since `b` is the least: so `==` compares values. The bounds on `a` and `b`
//! keep every comparison of two decimals, and a scaling by up to 2^64, inside 128 bits.

ghost use Rattle.std.specs.Prelude.{◌≡◌, ◌^◌, ◌<◌, ◌≤◌};
ghost use Rattle.fx_fraction.specs.Numeral.{signed};

use std::fmt;
use std::marker::Model;

/// The decimal `a / 10^b`, where |a| is below 2^62, `b` is at most 18, and `b` is the least for this value.
#[derive(Clone, Copy, Debug, PartialEq, Eq)]
pub struct Decimal {
    pub a: i64,
    pub b: u8,
}

impl Model for Decimal {
    ghost use Rattle.fx_rational.specs.Decimal as rational;

    ghost Value = { rational.Decimal };

    ghost view = { λ d. record { a = d.a; b = d.b } };

    ghost invariant = { λ d. rational.IsDecimal d.a d.b };

    ghost inverse = { λ d. record { a = d.a; b = d.b } };
}

impl fmt::Display for Decimal {
    fn fmt<W: fmt::Write>(&self, f: &mut fmt::Formatter<W>) -> fmt::Result {
        if self.b == 0 {
            return write!(f, "{}", self.a);
        }
        let size = self.a.unsigned_abs();
        let power = ten_to(self.b);
        let sign = if self.a < 0 { "-" } else { "" };
        let width = usize::from(self.b);
        write!(f, "{sign}{}.{:0width$}", size / power, size % power)
    }
}

/// The powers of ten: a look-up, since each decimal that is read, compared or scaled needs one.
const TENS: [u64; 19] = [
    1,
    10,
    100,
    1_000,
    10_000,
    100_000,
    1_000_000,
    10_000_000,
    100_000_000,
    1_000_000_000,
    10_000_000_000,
    100_000_000_000,
    1_000_000_000_000,
    10_000_000_000_000,
    100_000_000_000_000,
    1_000_000_000_000_000,
    10_000_000_000_000_000,
    100_000_000_000_000_000,
    1_000_000_000_000_000_000,
];

/// `10^places`.
pub fn ten_to(places: u8) -> u64
    requires { places ≤ 18 }
    ensures value { result ≡ 10 ^ places }
    ensures some { 0 < result }
    ensures few { result ≤ 10 ^ 18 }
{
    TENS[usize::from(places)]
}

/// The number of a size and a sign.
#[inline]
pub fn signed(is_negative: bool, size: u64) -> i64
    requires { size < 2 ^ 62 }
    ensures { result ≡ signed is_negative size }
{
    if is_negative {
        -(size as i64)
    } else {
        size as i64
    }
}
