//! A decimal as a whole number of units of a power of two.
//!
//! Every cell of every row comes through here. A shift to the right goes before the division, where it is the same as
//! one division by the product, so that no divisor has more than 64 bits; most dividends have no more either.

ghost use Rattle.std.specs.Prelude.{◌≡◌, ◌<◌, ◌^◌, ◌≤◌, pos, negsuc, ◌*ℤ◌, ◌≤ℤ◌, FitsSigned};
ghost use Rattle.std.specs.Int.{w128};
ghost use Rattle.fx_rational.specs.Rational.{floor_div};
ghost use Rattle.fx_rational.specs.Decimal.{quantised};

use crate::decimal::{Decimal, ten_to};
use fx_num::floor_shift;

/// `v * 2^s`.
fn left(v: i128, s: u32) -> i128
    requires few { s < 127 }
    requires fits { FitsSigned w128 (v *ℤ pos (2 ^ s)) }
    ensures { result ≡ v *ℤ pos (2 ^ s) }
{
    v << s
}

/// The floor of `n / d`.
fn floor_quotient(n: i128, d: u64) -> i128
    requires some { 0 < d }
    requires few { d < 2 ^ 63 }
    ensures { result ≡ floor_div n d }
{
    match i64::try_from(n) {
        Ok(short) => i128::from(short.div_euclid(d as i64)),
        Err(_) => n.div_euclid(i128::from(d)),
    }
}

/// The floor of `d * 2^f`.
pub fn quantise(d: Decimal, f: i32) -> i128
    requires low { negsuc 63 ≤ℤ f }
    requires high { f ≤ℤ pos 62 }
    ensures { result ≡ quantised d f }
{
    let a = i128::from(d.a);
    let power = ten_to(d.b);
    if f < 0 {
        floor_quotient(floor_shift(a, f.unsigned_abs()), power)
    } else {
        floor_quotient(left(a, f.unsigned_abs()), power)
    }
}
