//! Comparing what the formulas of conditions come to.
//!
//! A sum or a difference is None where it leaves 128 bits, and such a comparison is Beyond, whatever it says.

ghost use Rattle.std.specs.Prelude.{◌≡◌, ◌≤◌, ◌-◌, ◌^◌, [], ◌∷◌, pos, neg_ℤ, ◌+ℤ◌, ◌*ℤ◌, List, IsTrue, ◌&&◌, ◌||◌};
ghost use Rattle.std.specs.List.{list_all};
ghost use Rattle.std.specs.Option.{SomeIff};
ghost use Rattle.fx_rational.specs.Rational.{Rational, is_negative, is_positive, lowest, negative};
ghost use Rattle.fx_rational.specs.Dyadic.{dyadic_product, dyadic_value, fits_128, product_fits, unit_dyadic, word_dyadic};
ghost use Rattle.fx_rational.specs.Interval.{interval_product, interval_product_fits};
ghost use Rattle.fx_model.specs.LawfulProgram.{IsPoint};
ghost use Rattle.fx_inequalities.specs.Formula.{Formula, Num, Sum, Difference, Product, Span, roundoff_at, minus_unit_at, point, span, span_sum, span_difference, span_product, unit_at, word_at, zero_span};
ghost use Rattle.fx_inequalities.specs.OperationSpans.{roundoff_of};
ghost use Rattle.fx_model.specs.Machine.{Nearest};
ghost use Rattle.fx_inequalities.specs.Claim.{Claim, Below, BelowFraction, AboveFraction, Clear, inside, fits, holds};
ghost use Rattle.fx_inequalities.specs.NodeConditions.{positive_quotient_claims, quotient_claims};
ghost use Rattle.fx_formulas.specs.Places.{IsShort, IsShortSpan};
ghost use Rattle.fx_word.specs.Words.{IsWidth};
ghost use Rattle.fx_formulas.specs.Judging.{judged, Forms, FormsSpan, IsNarrowInterval};

use crate::judgement::Judgement;
use fx_fraction::{Fraction, dyadic_ge, dyadic_le, fneg};
use fx_num::{Dyadic, Interval, dadd, dle, dmul, dsub, iadd, imul, inside, isub, signed_two_to};
use fx_word::ends_at;

/// A mantissa, with the limit that the type keeps.
fn mantissa(d: Dyadic) -> i128
    ensures { IsTrue (fits_128 d.m) }
{
    d.m
}

/// Both ends' mantissas, with the limit that the type keeps.
pub fn narrow(value: Interval)
    ensures { IsNarrowInterval value }
{
    let _lo = mantissa(value.lo);
    let _hi = mantissa(value.hi);
}

/// A word times `2^places`.
fn raised(word: i64, places: u32) -> i128
    requires { places ≤ 64 }
    ensures { result ≡ word *ℤ pos (2 ^ places) }
{
    i128::from(word) * signed_two_to(places)
}

/// 2^-point.
fn unit_dyadic(point: i32) -> Dyadic
    requires { IsPoint point }
    ensures { result ≡ unit_dyadic point }
{
    if point >= 0 {
        Dyadic {
            m: 1,
            e: point as u32,
        }
    } else {
        Dyadic {
            m: signed_two_to(point.unsigned_abs()),
            e: 0,
        }
    }
}

/// -2^-point.
fn minus_unit(point: i32) -> Dyadic
    requires { IsPoint point }
    ensures { Num result ≡ minus_unit_at point }
{
    if point >= 0 {
        Dyadic {
            m: -1,
            e: point as u32,
        }
    } else {
        Dyadic {
            m: -signed_two_to(point.unsigned_abs()),
            e: 0,
        }
    }
}

/// 2^-(point+1), half of what a word is finer by.
fn half_unit(point: i32) -> Dyadic
    requires { IsPoint point }
    ensures { Num result ≡ unit_at (point +ℤ pos 1) }
{
    if point >= -1 {
        Dyadic {
            m: 1,
            e: (point + 1) as u32,
        }
    } else {
        Dyadic {
            m: signed_two_to(point.unsigned_abs() - 1),
            e: 0,
        }
    }
}

/// -2^-(point+1).
fn minus_half_unit(point: i32) -> Dyadic
    requires { IsPoint point }
    ensures { Num result ≡ minus_unit_at (point +ℤ pos 1) }
{
    if point >= -1 {
        Dyadic {
            m: -1,
            e: (point + 1) as u32,
        }
    } else {
        Dyadic {
            m: -signed_two_to(point.unsigned_abs() - 1),
            e: 0,
        }
    }
}

/// What a word stands for at this point.
fn word_dyadic(word: i64, point: i32) -> Dyadic
    requires { IsPoint point }
    ensures { result ≡ word_dyadic word point }
{
    if point >= 0 {
        Dyadic::new(i128::from(word), point as u32)
    } else {
        Dyadic {
            m: raised(word, point.unsigned_abs()),
            e: 0,
        }
    }
}

/// From the least to the greatest word of this width.
fn all_words(width: u32, point: i32) -> Interval
    requires width { IsWidth width }
    requires point { IsPoint point }
    ensures { span result ≡ record {
      lo = word_at (neg_ℤ (pos (2 ^ (width - 1)))) point;
      hi = word_at (pos (2 ^ (width - 1) - 1)) point;
    } }
{
    let (least, greatest) = ends_at(width);
    Interval {
        lo: word_dyadic(least, point),
        hi: word_dyadic(greatest, point),
    }
}

/// Zero alone.
fn zero_interval() -> Interval
    ensures { span result ≡ zero_span }
{
    let zero = Dyadic { m: 0, e: 0 };
    Interval { lo: zero, hi: zero }
}

/// What a shift loses at this point: one to the left loses nothing.
fn lost(point: i32, shift: i32) -> Interval
    requires { IsPoint point }
    ensures { span result ≡ roundoff_at point shift }
{
    if shift <= 0 {
        return zero_interval();
    }
    Interval {
        lo: minus_unit(point),
        hi: Dyadic { m: 0, e: 0 },
    }
}

/// What rounding to the nearest loses at this point.
fn near_lost(point: i32) -> Interval
    requires { IsPoint point }
    ensures { span result ≡ roundoff_of Nearest point (pos 1) }
{
    Interval {
        lo: minus_half_unit(point),
        hi: half_unit(point),
    }
}

/// A number.
pub fn number(d: Dyadic) -> Option<Dyadic>
    ensures { Forms result (Num d) }
{
    let _m = mantissa(d);
    Some(d)
}

/// The sum of two numbers.
#[tactic(auto, unfolding(fx_inequalities::specs::Formula::formula_fits))]
pub fn sum(a: Option<Dyadic>, b: Option<Dyadic>) -> Option<Dyadic>
    ensures { (f g : Formula) → Forms a f → Forms b g → Forms result (Sum f g) }
{
    match a {
        Some(x) => match b {
            Some(y) => dadd(x, y),
            None => None,
        },
        None => None,
    }
}

/// The difference of two numbers.
#[tactic(auto, unfolding(fx_inequalities::specs::Formula::formula_fits))]
pub fn difference(a: Option<Dyadic>, b: Option<Dyadic>) -> Option<Dyadic>
    ensures { (f g : Formula) → Forms a f → Forms b g → Forms result (Difference f g) }
{
    match a {
        Some(x) => match b {
            Some(y) => dsub(x, y),
            None => None,
        },
        None => None,
    }
}

/// The product of two dyadics of at most 512 binary places each.
fn near_product(x: Dyadic, y: Dyadic) -> Option<Dyadic>
    ensures { x.e ≤ 512 → y.e ≤ 512 → SomeIff result (IsTrue (product_fits x y)) (dyadic_product x y) }
{
    if x.e <= 512 && y.e <= 512 {
        dmul(x, y)
    } else {
        None
    }
}

/// The product of two numbers of at most 512 binary places each.
pub fn product(a: Option<Dyadic>, b: Option<Dyadic>) -> Option<Dyadic>
    ensures { (f g : Formula) → IsShort 512 f → IsShort 512 g → Forms a f → Forms b g → Forms result (Product f g) }
{
    match a {
        Some(x) => match b {
            Some(y) => near_product(x, y),
            None => None,
        },
        None => None,
    }
}

/// An interval.
pub fn interval(a: Interval) -> Option<Interval>
    ensures { FormsSpan result (span a) }
{
    narrow(a);
    Some(a)
}

/// 2^-point.
pub fn unit(point: i32) -> Option<Dyadic>
    requires { IsPoint point }
    ensures { Forms result (unit_at point) }
{
    number(unit_dyadic(point))
}

/// What a word stands for at this point.
pub fn word_value(word: i64, point: i32) -> Option<Dyadic>
    requires { IsPoint point }
    ensures { Forms result (word_at word point) }
{
    number(word_dyadic(word, point))
}

/// From the least to the greatest word of this width.
pub fn words(width: u32, point: i32) -> Option<Interval>
    requires width { IsWidth width }
    requires point { IsPoint point }
    ensures { FormsSpan result (record {
      lo = word_at (neg_ℤ (pos (2 ^ (width - 1)))) point;
      hi = word_at (pos (2 ^ (width - 1) - 1)) point;
    }) }
{
    interval(all_words(width, point))
}

/// Zero alone.
pub fn zero() -> Option<Interval>
    ensures { FormsSpan result zero_span }
{
    interval(zero_interval())
}

/// What a shift loses at this point: one to the left loses nothing.
pub fn roundoff(point: i32, shift: i32) -> Option<Interval>
    requires { IsPoint point }
    ensures { FormsSpan result (roundoff_at point shift) }
{
    interval(lost(point, shift))
}

/// What rounding to the nearest loses at this point: half a unit to either side.
pub fn near_roundoff(point: i32) -> Option<Interval>
    requires { IsPoint point }
    ensures { FormsSpan result (roundoff_of Nearest point (pos 1)) }
{
    interval(near_lost(point))
}

/// A number in an interval's place.
pub fn point(a: Option<Dyadic>) -> Option<Interval>
    ensures { (f : Formula) → Forms a f → FormsSpan result (point f) }
{
    match a {
        Some(x) => Some(Interval { lo: x, hi: x }),
        None => None,
    }
}

/// From one number to another.
pub fn ends(lo: Option<Dyadic>, hi: Option<Dyadic>) -> Option<Interval>
    ensures { (f g : Formula) → Forms lo f → Forms hi g → FormsSpan result (record { lo = f; hi = g }) }
{
    match lo {
        Some(x) => match hi {
            Some(y) => Some(Interval { lo: x, hi: y }),
            None => None,
        },
        None => None,
    }
}

/// The ends are added.
#[tactic(auto, unfolding(fx_inequalities::specs::Formula::formula_fits))]
pub fn plus(a: Option<Interval>, b: Option<Interval>) -> Option<Interval>
    ensures { (s t : Span) → FormsSpan a s → FormsSpan b t → FormsSpan result (span_sum s t) }
{
    match a {
        Some(x) => match b {
            Some(y) => iadd(x, y),
            None => None,
        },
        None => None,
    }
}

/// From each end the other end is taken away.
#[tactic(auto, unfolding(fx_inequalities::specs::Formula::formula_fits))]
pub fn minus(a: Option<Interval>, b: Option<Interval>) -> Option<Interval>
    ensures { (s t : Span) → FormsSpan a s → FormsSpan b t → FormsSpan result (span_difference s t) }
{
    match a {
        Some(x) => match b {
            Some(y) => isub(x, y),
            None => None,
        },
        None => None,
    }
}

/// The product of two intervals of at most 512 binary places each.
fn near_times(x: Interval, y: Interval) -> Option<Interval>
    ensures { x.lo.e ≤ 512 → x.hi.e ≤ 512 → y.lo.e ≤ 512 → y.hi.e ≤ 512 →
        SomeIff result (IsTrue (interval_product_fits x y)) (interval_product x y) }
{
    if x.lo.e <= 512 && x.hi.e <= 512 && y.lo.e <= 512 && y.hi.e <= 512 {
        imul(x, y)
    } else {
        None
    }
}

/// From the least to the greatest of the four products of ends, of at most 512 binary places each.
pub fn times(a: Option<Interval>, b: Option<Interval>) -> Option<Interval>
    ensures { (s t : Span) → IsShortSpan 512 s → IsShortSpan 512 t → FormsSpan a s → FormsSpan b t →
        FormsSpan result (span_product s t) }
{
    match a {
        Some(x) => match b {
            Some(y) => near_times(x, y),
            None => None,
        },
        None => None,
    }
}

/// What comparisons come to of which a test has answered, and None where they don't fit.
fn judgement(test: Option<bool>) -> Judgement
    ensures { (cs : List Claim) → SomeIff test (IsTrue (list_all fits cs)) (list_all holds cs) → result ≡ judged cs }
{
    match test {
        Some(true) => Judgement::Holds,
        Some(false) => Judgement::Fails,
        None => Judgement::Beyond,
    }
}

/// Whether one number is at most another.
pub fn is_at_most(a: Option<Dyadic>, b: Option<Dyadic>) -> Judgement
    ensures { (f g : Formula) → Forms a f → Forms b g → result ≡ judged (Below f g ∷ []) }
{
    match a {
        Some(x) => match b {
            Some(y) => judgement(Some(dle(x, y))),
            None => Judgement::Beyond,
        },
        None => Judgement::Beyond,
    }
}

/// Whether an interval lies in a limit.
pub fn lies_in(value: Option<Interval>, limit: Option<Interval>) -> Judgement
    ensures { (s t : Span) → FormsSpan value s → FormsSpan limit t → result ≡ judged (inside s t) }
{
    match value {
        Some(x) => match limit {
            Some(y) => judgement(Some(inside(x, y))),
            None => Judgement::Beyond,
        },
        None => Judgement::Beyond,
    }
}

/// Whether it is above zero.
fn is_above_zero(d: Dyadic) -> bool
    ensures { result ≡ is_positive (dyadic_value d) }
{
    d.m > 0
}

/// Whether it is below zero.
fn is_below_zero(d: Dyadic) -> bool
    ensures { result ≡ is_negative (dyadic_value d) }
{
    d.m < 0
}

/// Whether two intervals lie on the same side of zero.
fn is_clear(x: Interval, y: Interval) -> bool
    ensures { result ≡ ((is_positive (dyadic_value x.lo) && is_positive (dyadic_value y.lo)) ||
        (is_negative (dyadic_value x.hi) && is_negative (dyadic_value y.hi))) }
{
    is_above_zero(x.lo) && is_above_zero(y.lo) || is_below_zero(x.hi) && is_below_zero(y.hi)
}

/// Whether two intervals, which may not fit, lie on the same side of zero.
pub fn clear(a: Option<Interval>, b: Option<Interval>) -> Judgement
    ensures { (s t : Span) → FormsSpan a s → FormsSpan b t → result ≡ judged (Clear s t ∷ []) }
{
    match a {
        Some(x) => match b {
            Some(y) => judgement(Some(is_clear(x, y))),
            None => Judgement::Beyond,
        },
        None => Judgement::Beyond,
    }
}

/// Whether a product is at most a number.
fn is_product_at_most(x: Dyadic, y: Dyadic, z: Dyadic) -> Judgement
    ensures { (f g h : Formula) → IsShort 512 f → IsShort 512 g → Forms (Some x) f → Forms (Some y) g →
        Forms (Some z) h → result ≡ judged (Below (Product f g) h ∷ []) }
{
    is_at_most(near_product(x, y), Some(z))
}

/// Whether a product is at least a number.
fn is_product_at_least(x: Dyadic, y: Dyadic, z: Dyadic) -> Judgement
    ensures { (f g h : Formula) → IsShort 512 f → IsShort 512 g → Forms (Some x) f → Forms (Some y) g →
        Forms (Some z) h → result ≡ judged (Below h (Product f g) ∷ []) }
{
    is_at_most(Some(z), near_product(x, y))
}

/// Whether each quotient of what lies in `a` by what lies in `b`, above zero, lies in `c`.
fn positive_quotient(a: Interval, b: Interval, c: Interval) -> Judgement
    ensures { (s t u : Span) → IsShortSpan 512 t → IsShortSpan 512 u → FormsSpan (Some a) s → FormsSpan (Some b) t →
        FormsSpan (Some c) u →
        result ≡ judged (positive_quotient_claims s t u) }
{
    let first = is_product_at_most(c.lo, b.lo, a.lo);
    let second = is_product_at_most(c.lo, b.hi, a.lo);
    let third = is_product_at_least(c.hi, b.lo, a.hi);
    let fourth = is_product_at_least(c.hi, b.hi, a.hi);
    first.and(second.and(third.and(fourth)))
}

/// Whether each quotient above zero lies in `c`, of intervals that may not fit.
fn above_zero_quotient(a: Option<Interval>, b: Option<Interval>, c: Option<Interval>) -> Judgement
    ensures { (s t u : Span) → IsShortSpan 512 t → IsShortSpan 512 u → FormsSpan a s → FormsSpan b t → FormsSpan c u →
        result ≡ judged (positive_quotient_claims s t u) }
{
    match a {
        Some(x) => match b {
            Some(y) => match c {
                Some(z) => positive_quotient(x, y, z),
                None => Judgement::Beyond,
            },
            None => Judgement::Beyond,
        },
        None => Judgement::Beyond,
    }
}

/// Whether each quotient of what lies in `a` by what lies in `b`, on one side of zero, lies in `c`.
pub fn quotient(a: Option<Interval>, b: Option<Interval>, c: Option<Interval>) -> Judgement
    ensures { (s t u : Span) → IsShortSpan 512 t → IsShortSpan 512 u → FormsSpan a s → FormsSpan b t → FormsSpan c u →
        result ≡ judged (quotient_claims s t u) }
{
    match b {
        Some(y) => {
            if is_above_zero(y.lo) {
                above_zero_quotient(a, Some(y), c)
            } else {
                above_zero_quotient(minus(zero(), a), minus(zero(), Some(y)), c)
            }
        }
        None => Judgement::Beyond,
    }
}

/// Whether a number is at most a fraction, which is in lowest terms.
pub fn is_below(value: Option<Dyadic>, c: Fraction) -> Judgement
    ensures { (f : Formula) (r : Rational) → Forms value f → c ≡ lowest r → result ≡ judged (BelowFraction f r ∷ []) }
{
    match value {
        Some(value) => judgement(dyadic_le(value, c)),
        None => Judgement::Beyond,
    }
}

/// Whether a number is at least a fraction, which is in lowest terms.
pub fn is_above(value: Option<Dyadic>, c: Fraction) -> Judgement
    ensures { (f : Formula) (r : Rational) → Forms value f → c ≡ lowest r → result ≡ judged (AboveFraction r f ∷ []) }
{
    match value {
        Some(value) => judgement(dyadic_ge(value, c)),
        None => Judgement::Beyond,
    }
}

/// Whether a fraction is at least one number and another at most one.
pub fn reaches(lo: Option<Dyadic>, a: Fraction, b: Fraction, hi: Option<Dyadic>) -> Judgement
    ensures { (f g : Formula) (r s : Rational) → Forms lo f → Forms hi g → a ≡ lowest r → b ≡ lowest s →
        result ≡ judged (BelowFraction f r ∷ AboveFraction s g ∷ []) }
{
    is_below(lo, a).and(is_above(hi, b))
}

/// What the type says of a fraction: its terms are the lowest.
pub fn reduced(c: Fraction)
    ensures { c ≡ lowest c }
{
    let _p = c.p;
}

/// The other sign, of a fraction in lowest terms.
pub fn opposite(c: Fraction) -> Fraction
    ensures { (r : Rational) → c ≡ lowest r → result ≡ lowest (negative r) }
{
    fneg(c)
}
