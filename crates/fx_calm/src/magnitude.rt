//! Numbers without their sign.

ghost use Rattle.std.specs.Prelude.{◌≡◌, ◌+◌, ◌*◌, ◌/◌, ◌-◌, ◌^◌, ◌<◌, ◌≤◌, pos, unsigned_abs};
ghost use Rattle.fx_rational.specs.Rational.{bottom, whole, is_at_most};
ghost use Rattle.fx_rational.specs.Decimal.{decimal_value};
ghost use Rattle.fx_model.specs.Function as model;
ghost use Rattle.fx_expr.specs.Parts.{input_of};
ghost use Rattle.fx_plan_laws.specs.Powers.{magnitude, greater, is_below_power};
ghost use Rattle.fx_plan_laws.specs.Calm.{reach_of, reach_at};
ghost use Rattle.fx_plan_laws.specs.Bounds.{units_up};
ghost use Rattle.fx_calm.specs.MagnitudeOf.{IsMagnitude, magnitude_value};
ghost use Rattle.fx_calm.specs.SumOf.{IsWeight};

use fx_expr::{Function, Input};
use fx_fraction::{Decimal, Fraction, ten_to};
use fx_num::raised;
use fx_outward::{denominator, numerator};

/// The number `top / bottom`, which isn't negative.
#[derive(Clone, Copy, Debug)]
pub struct Magnitude {
    /// What is divided.
    pub top: u64,
    /// By what it is divided, which isn't zero.
    pub bottom: u64,
}

/// A whole number.
pub fn whole(n: u64) -> Magnitude
    requires { n < 2 ^ 62 }
    ensures weight { IsWeight result }
    ensures value { magnitude_value result ≡ whole (pos n) }
{
    Magnitude { top: n, bottom: 1 }
}

/// The numerator without its sign.
fn top(c: Fraction) -> u64
    ensures value { result ≡ unsigned_abs c.top }
    ensures small { result < 2 ^ 62 }
{
    numerator(c).unsigned_abs() as u64
}

/// A fraction without its sign.
pub fn magnitude_of(c: Fraction) -> Magnitude
    ensures size { IsMagnitude result }
    ensures value { magnitude_value result ≡ magnitude c }
{
    Magnitude {
        top: top(c),
        bottom: denominator(c),
    }
}

/// The digits of a decimal, without its sign.
fn decimal_top(d: Decimal) -> u64
    ensures value { result ≡ unsigned_abs d.a }
    ensures small { result < 2 ^ 62 }
{
    d.a.unsigned_abs()
}

/// The power of ten that they are divided by.
fn decimal_bottom(d: Decimal) -> u64
    ensures value { result ≡ 10 ^ d.b }
    ensures some { 0 < result }
    ensures few { result ≤ 10 ^ 18 }
{
    ten_to(d.b)
}

/// A decimal without its sign.
pub fn magnitude_of_decimal(d: Decimal) -> Magnitude
    ensures weight { IsWeight result }
    ensures value { magnitude_value result ≡ magnitude (decimal_value d) }
{
    Magnitude {
        top: decimal_top(d),
        bottom: decimal_bottom(d),
    }
}

/// Whether the one isn't above the other.
fn is_at_most(x: Magnitude, y: Magnitude) -> bool
    requires left { IsMagnitude x }
    requires right { IsMagnitude y }
    ensures { result ≡ is_at_most (magnitude_value x) (magnitude_value y) }
{
    u128::from(x.top) * u128::from(y.bottom) <= u128::from(y.top) * u128::from(x.bottom)
}

/// The greater of two, the first of equals.
fn greater(x: Magnitude, y: Magnitude) -> Magnitude
    requires left { IsWeight x }
    requires right { IsWeight y }
    ensures weight { IsWeight result }
    ensures value { magnitude_value result ≡ greater (magnitude_value x) (magnitude_value y) }
{
    if is_at_most(y, x) { x } else { y }
}

/// What no true value of an input is above, without its sign.
pub fn reach(input: &Input) -> Magnitude
    ensures weight { IsWeight result }
    ensures value { magnitude_value result ≡ reach_of (input_of input.now) }
{
    greater(
        magnitude_of_decimal(input.lo),
        magnitude_of_decimal(input.hi),
    )
}

/// What no true value of input `k` is above, without its sign; nothing where there is none.
pub fn reach_at(function: &Function, k: u32) -> Magnitude
    ensures weight { IsWeight result }
    ensures value { magnitude_value result ≡ reach_at function.now k }
{
    match function.inputs.as_slice().get(k as usize) {
        Some(input) => reach(input),
        None => whole(0),
    }
}

/// Whether it is at most `2^w`.
pub fn is_below(x: Magnitude, w: u32) -> bool
    requires size { IsMagnitude x }
    requires few { w ≤ 64 }
    ensures { result ≡ is_below_power (magnitude_value x) (pos w) }
{
    u128::from(x.top) <= raised(x.bottom, w)
}

/// In units `2^-f`, rounded upward.
pub fn units(x: Magnitude, f: u32) -> u128
    requires size { IsMagnitude x }
    requires point { f ≤ 58 }
    ensures { result ≡ units_up f (magnitude_value x) }
{
    (raised(x.top, f) + u128::from(x.bottom - 1)) / u128::from(x.bottom)
}
