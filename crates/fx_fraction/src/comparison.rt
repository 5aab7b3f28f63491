//! A dyadic beside a fraction.
//!
//! Of `m / 2^e` and `p / q` only `m * q` is formed: `p * 2^e` could have a million bits, but `m * q <= p * 2^e` says
//! the same as that the ceiling of `m * q / 2^e` is at most `p`.

ghost use Rattle.std.specs.Prelude.{◌*ℤ◌, pos, IsTrue};
ghost use Rattle.std.specs.Option.{SomeIff};
ghost use Rattle.fx_rational.specs.Rational.{bottom, is_at_most};
ghost use Rattle.fx_rational.specs.Dyadic.{dyadic_value, fits_128};

use crate::fraction::{Fraction, denominator, numerator};
use fx_num::{Dyadic, ceil_shift, floor_shift, mul_fits};

/// The mantissa times the denominator.
fn scaled(d: Dyadic, c: Fraction) -> Option<i128>
    ensures { SomeIff result (IsTrue (fits_128 (d.m *ℤ pos (bottom c)))) (d.m *ℤ pos (bottom c)) }
{
    mul_fits(d.m, denominator(c))
}

/// Whether `d <= c`; `None` exactly where the mantissa times the denominator leaves 128 bits.
pub fn dyadic_le(d: Dyadic, c: Fraction) -> Option<bool>
    ensures { SomeIff result (IsTrue (fits_128 (d.m *ℤ pos (bottom c)))) (is_at_most (dyadic_value d) c) }
{
    let product = scaled(d, c)?;
    Some(ceil_shift(product, d.e) <= numerator(c))
}

/// Whether `d >= c`; `None` exactly where the mantissa times the denominator leaves 128 bits.
pub fn dyadic_ge(d: Dyadic, c: Fraction) -> Option<bool>
    ensures { SomeIff result (IsTrue (fits_128 (d.m *ℤ pos (bottom c)))) (is_at_most c (dyadic_value d)) }
{
    let product = scaled(d, c)?;
    Some(numerator(c) <= floor_shift(product, d.e))
}
