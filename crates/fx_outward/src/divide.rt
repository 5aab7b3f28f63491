//! The error of a quotient.
//!
//! Of the four quotients of ends only the least and the greatest are formed: the sign of the dividend's end says which
//! end of the divisor gives them.

ghost use Rattle.std.specs.Prelude.{◌≡◌, ◌*◌, ◌<◌, ◌≤◌, ◌^◌, ◌*ℤ◌, ◌-ℤ◌, neg_ℤ, pos, ltb, true, ◌&&◌, if◌then◌else◌, unsigned_abs, Some};
ghost use Rattle.fx_rational.specs.Rational.{floor_div, minus, plus, above_zero, below_zero};
ghost use Rattle.fx_rational.specs.Dyadic.{dyadic_value, greatest, least};
ghost use Rattle.fx_model.specs.LawfulProgram.{IsPoint};
ghost use Rattle.fx_inequalities.specs.Formula.{Span, span, zero_span, span_difference};
ghost use Rattle.fx_inequalities.specs.OperationSpans as spans;
ghost use Rattle.fx_formulas.specs.Judging.{FormsSpan};
ghost use Rattle.fx_formulas.specs.Places.{IsShortSpan};
ghost use Rattle.fx_outward.specs.Narrow.{Bounds, ratio, narrow, positive_bounds, unit_value, widened};
ghost use Rattle.fx_outward.specs.Grid.{lowest_dyadic, grid_down, grid_up, error_grid};
ghost use Rattle.fx_outward.specs.Narrowed.{IsIfSmall, HasFewPlaces};
ghost use Rattle.fx_outward.specs.Wide.{IsEnd, units_below};
ghost use Rattle.fx_outward.specs.Dividing as dividing;

use crate::fault::Why;
use crate::grid::{exponent, mantissa};
use crate::number::negate;
use crate::parts::quotient_less;
use crate::quotient::{both_above, both_below, high, is_below, low};
use crate::rounding::ends;
use crate::wide::opposite;
use fx_formulas::{
    Judgement, clear, difference, interval, minus, number, plus, quotient, sum, times, unit, zero,
};
use fx_num::{Dyadic, Interval, greatest, least};

/// Whether it stays a number of 128 bits with the other sign.
fn is_turnable(m: i128) -> bool
    ensures { result ≡ ltb (unsigned_abs m) (2 ^ 127) }
{
    m.unsigned_abs() < 1 << 127
}

/// `2^126`.
fn half_limit() -> i128
    ensures { result ≡ pos (2 ^ 126) }
{
    1 << 126
}

/// What `quotient_less` gives of the mantissa with the other sign.
fn opposite_less(m: i128, p: u32, d: u128, c: u32, point: i32) -> Option<Dyadic>
    requires point { IsPoint point }
    requires some { 0 < d }
    requires few { d < 2 ^ 127 }
    requires places { p ≤ 2 ^ 20 }
    ensures { IsEnd result (lowest_dyadic
        (floor_div ((neg_ℤ m *ℤ pos (2 ^ p)) *ℤ pos (2 ^ error_grid point)) (d * 2 ^ c) -ℤ pos (units_below point))
        (error_grid point)) }
{
    if is_turnable(m) {
        return quotient_less(negate(m), p, d, c, point);
    }
    // the one mantissa that isn't is -2^127, and 2^127 is twice 2^126
    quotient_less(half_limit(), p + 1, d, c, point)
}

/// A mantissa above zero.
fn positive_mantissa(b: Dyadic) -> u128
    requires { above_zero b.m ≡ true }
    ensures value { result ≡ unsigned_abs b.m }
    ensures some { 0 < result }
    ensures few { result < 2 ^ 127 }
{
    mantissa(b).unsigned_abs()
}

/// The greatest on the grid that isn't above a quotient less a unit.
fn below(a: Dyadic, b: Dyadic, point: i32) -> Option<Dyadic>
    requires point { IsPoint point }
    requires above { above_zero b.m ≡ true }
    ensures { IsEnd result (grid_down (error_grid point)
        (minus (ratio (dyadic_value a) (dyadic_value b)) (unit_value point))) }
{
    let d = positive_mantissa(b);
    let p = exponent(b);
    let c = exponent(a);
    quotient_less(mantissa(a), p, d, c, point)
}

/// The least on the grid that isn't below a quotient and a unit.
fn above(a: Dyadic, b: Dyadic, point: i32) -> Option<Dyadic>
    requires point { IsPoint point }
    requires above { above_zero b.m ≡ true }
    ensures { IsEnd result (grid_up (error_grid point)
        (plus (ratio (dyadic_value a) (dyadic_value b)) (unit_value point))) }
{
    let d = positive_mantissa(b);
    let p = exponent(b);
    let c = exponent(a);
    opposite(opposite_less(mantissa(a), p, d, c, point))
}

/// The least end of a divisor above zero, or the greatest.
fn divisor_end(is_least: bool, b: Interval) -> Dyadic
    requires lo { above_zero b.lo.m ≡ true }
    requires hi { above_zero b.hi.m ≡ true }
    ensures value { result ≡ (if is_least then least b.lo b.hi else greatest b.lo b.hi) }
    ensures above { above_zero result.m ≡ true }
{
    if is_least {
        least(low(b), high(b))
    } else {
        greatest(low(b), high(b))
    }
}

/// From the least quotient less a unit to the greatest and a unit.
fn unit_ends(a: Interval, b: Interval, point: i32) -> Option<Interval>
    requires point { IsPoint point }
    requires lo { above_zero b.lo.m ≡ true }
    requires hi { above_zero b.hi.m ≡ true }
    ensures { (s t : Span) → FormsSpan (Some a) s → FormsSpan (Some b) t →
        IsIfSmall result (narrow (error_grid point) (widened point (positive_bounds s t))) }
{
    let al = low(a);
    let ah = high(a);
    let l = divisor_end(is_below(al), b);
    let g = divisor_end(!is_below(ah), b);
    ends(below(al, l, point), above(ah, g, point))
}

/// An error less a unit on either side.
fn without_unit(h: Interval, point: i32) -> Option<Interval>
    requires { IsPoint point }
    ensures { FormsSpan result (spans.without_unit point (span h)) }
{
    let lo = sum(number(low(h)), unit(point));
    let hi = difference(number(high(h)), unit(point));
    fx_formulas::ends(lo, hi)
}

/// What is kept, where the claims of the quotient fit.
fn fitted(
    kept: Option<Interval>,
    a: Option<Interval>,
    b: Option<Interval>,
    point: i32,
) -> Result<Interval, Why>
    requires { IsPoint point }
    ensures { (bounds : Bounds) (s t : Span) → FormsSpan a s → FormsSpan b t → IsShortSpan 512 t →
        IsIfSmall kept (narrow (error_grid point) bounds) →
        result ≡ dividing.around_quotient point bounds s t }
{
    match kept {
        None => Err(Why::Beyond),
        Some(h) => match quotient(a, b, without_unit(h, point)) {
            Judgement::Beyond => Err(Why::Beyond),
            _ => Ok(h),
        },
    }
}

/// The error of a quotient whose divisor is above zero.
fn over(a: Option<Interval>, b: Interval, point: i32) -> Result<Interval, Why>
    requires point { IsPoint point }
    requires lo { above_zero b.lo.m ≡ true }
    requires hi { above_zero b.hi.m ≡ true }
    ensures { (s t : Span) → FormsSpan a s → FormsSpan (Some b) t → IsShortSpan 512 t →
        result ≡ dividing.unit_quotient point s t }
{
    match a {
        None => Err(Why::Beyond),
        Some(x) => fitted(unit_ends(x, b, point), Some(x), Some(b), point),
    }
}

/// The error of a quotient whose divisor is below zero, both with the other sign being `y` and `z`.
fn turned(x: Interval, b: Interval, y: Interval, z: Interval, point: i32) -> Result<Interval, Why>
    requires point { IsPoint point }
    ensures { (s t : Span) → FormsSpan (Some x) s → FormsSpan (Some b) t →
        FormsSpan (Some y) (span_difference zero_span s) → FormsSpan (Some z) (span_difference zero_span t) →
        IsShortSpan 512 t → (below_zero b.lo.m && below_zero b.hi.m) ≡ true →
        result ≡ dividing.unit_quotient point s t }
{
    if both_above(z) {
        fitted(unit_ends(y, z, point), Some(x), Some(b), point)
    } else {
        Err(Why::Zero)
    }
}

/// The error of a quotient whose divisor is below zero.
fn under(a: Option<Interval>, b: Interval, point: i32) -> Result<Interval, Why>
    requires point { IsPoint point }
    requires below { (below_zero b.lo.m && below_zero b.hi.m) ≡ true }
    ensures { (s t : Span) → FormsSpan a s → FormsSpan (Some b) t → IsShortSpan 512 t →
        result ≡ dividing.unit_quotient point s t }
{
    match a {
        None => Err(Why::Beyond),
        Some(x) => match minus(zero(), Some(x)) {
            None => Err(Why::Beyond),
            Some(y) => match minus(zero(), Some(b)) {
                None => Err(Why::Beyond),
                Some(z) => turned(x, b, y, z, point),
            },
        },
    }
}

/// The error of a quotient of what lies in `a` by what lies in `b`.
fn unit_quotient(a: Option<Interval>, b: Interval, point: i32) -> Result<Interval, Why>
    requires point { IsPoint point }
    ensures { (s t : Span) → FormsSpan a s → FormsSpan (Some b) t → IsShortSpan 512 t →
        result ≡ dividing.unit_quotient point s t }
{
    if both_above(b) {
        over(a, b, point)
    } else if both_below(b) {
        under(a, b, point)
    } else {
        Err(Why::Zero)
    }
}

/// The error of a quotient, after the test of the exact divisor `g` and the machine's `b`.
fn cleared(g: Interval, a: Option<Interval>, b: Interval, point: i32) -> Result<Interval, Why>
    requires point { IsPoint point }
    ensures { (s t : Span) → FormsSpan a s → FormsSpan (Some b) t → IsShortSpan 512 t →
        result ≡ dividing.cleared_quotient point (span g) s t }
{
    match clear(interval(g), Some(b)) {
        Judgement::Holds => unit_quotient(a, b, point),
        Judgement::Fails => Err(Why::Zero),
        Judgement::Beyond => Err(Why::Beyond),
    }
}

/// The error of a quotient of range `g`, from the divisor's range and both errors.
pub fn quotient_error(
    g: Interval,
    gb: Interval,
    ha: Interval,
    hb: Interval,
    point: i32,
) -> Result<Interval, Why>
    requires point { IsPoint point }
    requires g { HasFewPlaces g }
    requires gb { HasFewPlaces gb }
    requires hb { HasFewPlaces hb }
    ensures { result ≡ dividing.cleared_quotient point (span gb) (spans.quotient_error (span g) (span ha) (span hb))
        (spans.machine_range (span gb) (span hb)) }
{
    match plus(interval(gb), interval(hb)) {
        None => Err(Why::Beyond),
        Some(b) => {
            let a = minus(interval(ha), times(interval(g), interval(hb)));
            cleared(gb, a, b, point)
        }
    }
}
