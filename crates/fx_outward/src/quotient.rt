//! Quotients of intervals, and intervals of fractions.

ghost use Rattle.std.specs.Prelude.{◌≡◌, ◌∷◌, [], ◌&&◌, neg_ℤ, ◌<◌, ◌≤◌, ◌^◌, ◌+◌, ◌*ℤ◌, pos, true, unsigned_abs, Some};
ghost use Rattle.fx_rational.specs.Rational.{Rational, lowest, above_zero, below_zero};
ghost use Rattle.fx_rational.specs.Dyadic.{dyadic, dyadic_value, least, greatest};
ghost use Rattle.fx_inequalities.specs.Formula.{Num, Span, span};
ghost use Rattle.fx_inequalities.specs.Claim.{BelowFraction, AboveFraction};
ghost use Rattle.fx_inequalities.specs.NodeConditions.{positive_quotient_claims};
ghost use Rattle.fx_outward.specs.Grid.{grid_down, grid_up};
ghost use Rattle.fx_outward.specs.Narrow.{ratio, narrowest, positive_bounds};
ghost use Rattle.fx_formulas.specs.Judging.{FormsSpan};
ghost use Rattle.fx_outward.specs.Narrowed.{IsPlainEnd, IsPlainInterval, plain_quotient};

use crate::fault::Why;
use crate::grid::exponent;
use crate::number::{
    denominator, down_fraction, down_quotient, left, negate, up_fraction, up_quotient,
};
use crate::rounding::{answer, keep};
use fx_fraction::Fraction;
use fx_num::{Dyadic, Interval, greatest, least};

/// The narrowest on grid `e` from one fraction to another.
pub fn between(lo: Fraction, hi: Fraction, e: u32) -> Result<Interval, Why>
    requires { e ≤ 64 }
    ensures { (x y : Rational) → lo ≡ lowest x → hi ≡ lowest y →
        result ≡ narrowest e record {
          lo = x;
          hi = y;
        } (λ g. BelowFraction (Num g.lo) x ∷ AboveFraction y (Num g.hi) ∷ []) }
{
    let _p = denominator(lo);
    let _q = denominator(hi);
    let kept = keep(Interval {
        lo: down_fraction(lo, e),
        hi: up_fraction(hi, e),
    });
    answer(kept)
}

/// Whether it is above zero.
pub fn is_above(d: Dyadic) -> bool
    ensures { result ≡ above_zero d.m }
{
    d.m > 0
}

/// Whether it is below zero.
pub fn is_below(d: Dyadic) -> bool
    ensures { result ≡ below_zero d.m }
{
    d.m < 0
}

/// The lower end.
pub fn low(i: Interval) -> Dyadic
    ensures { result ≡ i.lo }
{
    i.lo
}

/// The upper end.
pub fn high(i: Interval) -> Dyadic
    ensures { result ≡ i.hi }
{
    i.hi
}

/// The mantissa, which has at most 62 bits.
fn small_mantissa(d: Dyadic) -> i128
    requires { IsPlainEnd d }
    ensures value { result ≡ d.m }
    ensures small { unsigned_abs result < 2 ^ 62 }
{
    d.m
}

/// A quotient in units of grid 24: one whole number over another.
fn ratio_parts(a: Dyadic, b: Dyadic) -> (i128, u128)
    requires a { IsPlainEnd a }
    requires b { IsPlainEnd b }
    requires above { above_zero b.m ≡ true }
    ensures top { result.0 ≡ a.m *ℤ pos (2 ^ (24 + b.e)) }
    ensures small { unsigned_abs result.0 < 2 ^ 126 }
    ensures bottom { result.1 ≡ unsigned_abs (b.m *ℤ pos (2 ^ a.e)) }
    ensures some { 0 < result.1 }
    ensures few { result.1 < 2 ^ 126 }
{
    let am = small_mantissa(a);
    let bm = small_mantissa(b);
    let ae = exponent(a);
    let be = exponent(b);
    let top = left(am, 24 + be);
    let bottom = left(bm, ae);
    (top, bottom.unsigned_abs())
}

/// The greatest of grid 24 that isn't above a quotient.
fn ratio_down(a: Dyadic, b: Dyadic) -> Dyadic
    requires a { IsPlainEnd a }
    requires b { IsPlainEnd b }
    requires above { above_zero b.m ≡ true }
    ensures { result ≡ grid_down 24 (ratio (dyadic_value a) (dyadic_value b)) }
{
    let (top, bottom) = ratio_parts(a, b);
    down_quotient(top, bottom, 24)
}

/// The least of grid 24 that isn't below a quotient.
fn ratio_up(a: Dyadic, b: Dyadic) -> Dyadic
    requires a { IsPlainEnd a }
    requires b { IsPlainEnd b }
    requires above { above_zero b.m ≡ true }
    ensures { result ≡ grid_up 24 (ratio (dyadic_value a) (dyadic_value b)) }
{
    let (top, bottom) = ratio_parts(a, b);
    up_quotient(top, bottom, 24)
}

/// The narrowest round a quotient whose divisor is above zero.
fn positive(a: Interval, b: Interval) -> Result<Interval, Why>
    requires a { IsPlainInterval a }
    requires b { IsPlainInterval b }
    requires lo { above_zero b.lo.m ≡ true }
    requires hi { above_zero b.hi.m ≡ true }
    ensures { (s t : Span) → FormsSpan (Some a) s → FormsSpan (Some b) t →
        result ≡ narrowest 24 (positive_bounds s t) (λ g. positive_quotient_claims s t (span g)) }
{
    let al = low(a);
    let ah = high(a);
    let bl = low(b);
    let bh = high(b);
    let d1 = ratio_down(al, bl);
    let d2 = ratio_down(al, bh);
    let u1 = ratio_up(ah, bl);
    let u2 = ratio_up(ah, bh);
    let kept = keep(Interval {
        lo: least(d1, d2),
        hi: greatest(u1, u2),
    });
    answer(kept)
}

/// The other sign.
fn opposite_end(d: Dyadic) -> Dyadic
    requires { IsPlainEnd d }
    ensures { result ≡ dyadic (neg_ℤ d.m) d.e }
{
    let m = small_mantissa(d);
    let n = negate(m);
    Dyadic::new(n, exponent(d))
}

/// The interval of the other signs.
fn opposite(a: Interval) -> Interval
    requires { IsPlainInterval a }
    ensures { result ≡ record { lo = dyadic (neg_ℤ a.hi.m) a.hi.e; hi = dyadic (neg_ℤ a.lo.m) a.lo.e } }
{
    let al = low(a);
    let ah = high(a);
    Interval {
        lo: opposite_end(ah),
        hi: opposite_end(al),
    }
}

/// Whether both ends are above zero.
pub fn both_above(i: Interval) -> bool
    ensures { result ≡ (above_zero i.lo.m && above_zero i.hi.m) }
{
    is_above(low(i)) && is_above(high(i))
}

/// Whether both ends are below zero.
pub fn both_below(i: Interval) -> bool
    ensures { result ≡ (below_zero i.lo.m && below_zero i.hi.m) }
{
    is_below(low(i)) && is_below(high(i))
}

/// The narrowest of a quotient of plain ranges.
pub fn quotient(a: Interval, b: Interval) -> Result<Interval, Why>
    requires a { IsPlainInterval a }
    requires b { IsPlainInterval b }
    ensures { result ≡ plain_quotient a b }
{
    if both_above(b) {
        return positive(a, b);
    }
    if both_below(b) {
        return positive(opposite(a), opposite(b));
    }
    Err(Why::Zero)
}
