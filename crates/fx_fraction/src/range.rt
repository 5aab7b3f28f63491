//! A range that is widened by an error, made once for all the numbers that are compared with it.
//!
//! Its ends are whole numbers of 10^-18, the least place of a decimal: the bounds of a decimal keep those, and the sum
//! of two, inside 128 bits.

ghost use Rattle.std.specs.Prelude.{◌≡◌, ◌≤◌, ◌^◌, ◌*◌, ◌&&◌, unsigned_abs, int_le};
ghost use Rattle.fx_rational.specs.Rational.{is_at_most, minus, plus};
ghost use Rattle.fx_rational.specs.Decimal.{Decimal as Number, is_within, decimal_value};
ghost use Rattle.fx_fraction.specs.Units.{IsRangeOf, holds, smallest_units};

use crate::decimal::{Decimal, ten_to};

/// The numbers from `lo - err` to `hi + err`.
#[derive(Clone, Copy, Debug)]
pub struct Range {
    least: i128,
    most: i128,
}

/// `d` in units of 10^-18.
fn smallest_units(d: Decimal) -> i128
    ensures value { result ≡ smallest_units d }
    ensures small { unsigned_abs result ≤ 2 ^ 62 * 10 ^ 18 }
    ensures places { d.b ≤ 18 }
{
    i128::from(d.a) * i128::from(ten_to(18 - d.b) as i64)
}

fn least_of(lo: Decimal, err: Decimal) -> i128
    ensures { (g : Number) → g.b ≤ 18 →
        int_le result (smallest_units g) ≡ is_at_most (minus (decimal_value lo) (decimal_value err)) (decimal_value g) }
{
    smallest_units(lo) - smallest_units(err)
}

fn most_of(hi: Decimal, err: Decimal) -> i128
    ensures { (g : Number) → g.b ≤ 18 →
        int_le (smallest_units g) result ≡ is_at_most (decimal_value g) (plus (decimal_value hi) (decimal_value err)) }
{
    smallest_units(hi) + smallest_units(err)
}

impl Range {
    /// The numbers from `lo - err` to `hi + err`.
    pub fn new(lo: Decimal, hi: Decimal, err: Decimal) -> Range
        ensures { IsRangeOf lo hi err result }
    {
        Range {
            least: least_of(lo, err),
            most: most_of(hi, err),
        }
    }

    /// Whether a number lies in the range.
    #[inline]
    pub fn contains(&self, number: Decimal) -> bool
        ensures value { result ≡ holds self.now number }
        ensures places { number.b ≤ 18 }
    {
        let units = smallest_units(number);
        self.least <= units && units <= self.most
    }
}

/// Whether `lo - err <= g <= hi + err`. Who compares many numbers with the same ends makes a `Range` of them once.
pub fn within(g: Decimal, lo: Decimal, hi: Decimal, err: Decimal) -> bool
    ensures { result ≡ is_within g lo hi err }
{
    Range::new(lo, hi, err).contains(g)
}
