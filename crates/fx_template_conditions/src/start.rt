//! The condition Start: of each state, and of each template over the boxes of all.

ghost use Rattle.std.specs.Prelude.{◌≡◌, [], ◌∷◌};
ghost use Rattle.fx_model.specs.LawfulProgram.{IsPoint};
ghost use Rattle.fx_rational.specs.Rational.{Rational, lowest};
ghost use Rattle.fx_inequalities.specs.Accepted.{start_of};
ghost use Rattle.fx_inequalities.specs.Claim.{AboveFraction, BelowFraction, inside};
ghost use Rattle.fx_inequalities.specs.Formula.{Difference, Num, point, span, span_product, word_at, zero_span};
ghost use Rattle.fx_inequalities.specs.Affine.{weighted_sum};
ghost use Rattle.fx_formulas.specs.Judging.{FormsSpan, judged};
ghost use Rattle.fx_cert.specs.CertificateView.{boxes_in};
ghost use Rattle.fx_conditions.specs.Limits.{AreShortBoxes};
ghost use Rattle.fx_cert.specs.declared.side.Side.TheVariants as sides;
ghost use Rattle.fx_template_conditions.specs.Boxes.{box_at};
ghost use Rattle.fx_template_conditions.specs.CertificateSide.{templates_on};

use crate::side::CertificateSide;
use fx_cert::{Side, StartBox};
use fx_conditions::zero_fraction;
use fx_expr::Function;
use fx_formulas::{
    Judgement, difference, interval, lies_in, number, plus, point, reaches, times, word_value, zero,
};
use fx_fraction::{Fraction, to_fraction};
use fx_num::Interval;

/// The box of state `s`.
fn box_of(starts: &[StartBox], side: &Side, s: u32) -> Option<Interval>
    ensures { FormsSpan result (box_at side.now (boxes_in starts.now) s) }
{
    interval(box_interval(starts, side, s))
}

/// The box of state `s`, as it is written.
fn box_interval(starts: &[StartBox], side: &Side, s: u32) -> Interval
    ensures { span result ≡ box_at side.now (boxes_in starts.now) s }
{
    match starts.get(s as usize) {
        Some(start) => match side {
            Side::Value => start.range,
            Side::Error => start.error,
        },
        None => Interval::zero(),
    }
}

/// Coefficient `s` of template `i` times the box of state `s`.
fn box_summand(side: &CertificateSide<'_>, starts: &[StartBox], i: u32, s: u32) -> Option<Interval>
    requires starts { AreShortBoxes (boxes_in starts.now) }
    ensures { FormsSpan result
        (span_product (point ((templates_on side.now).coef i s)) (box_at side.now.which (boxes_in starts.now) s)) }
{
    side.keeps();
    times(point(side.coef(i, s)), box_of(starts, side.which(), s))
}

/// Template `i` of the boxes.
fn box_sum(side: &CertificateSide<'_>, starts: &[StartBox], i: u32) -> Option<Interval>
    requires starts { AreShortBoxes (boxes_in starts.now) }
    ensures { FormsSpan result
        (weighted_sum zero_span side.now.states ((templates_on side.now).coef i)
        (box_at side.now.which (boxes_in starts.now))) }
{
    let mut total = zero();
    for s in 0..side.states() {
        total = plus(total, box_summand(side, starts, i, s));
    }
    total
}

/// The start meets template `i`.
pub fn start_template_judgement(
    side: &CertificateSide<'_>,
    starts: &[StartBox],
    i: u32,
) -> Judgement
    requires starts { AreShortBoxes (boxes_in starts.now) }
    ensures { let rs = templates_on side.now in
        result ≡ judged (inside
        (weighted_sum zero_span side.now.states (rs.coef i) (box_at side.now.which (boxes_in starts.now)))
        (rs.bound i)) }
{
    lies_in(box_sum(side, starts, i), side.bound(i))
}

/// The declared start of state `k`.
fn start_fraction(function: &Function, k: u32) -> Fraction
    ensures { result ≡ lowest (start_of function.now k) }
{
    match function.states.as_slice().get(k as usize) {
        Some(state) => to_fraction(state.start),
        None => zero_fraction(),
    }
}

/// A fraction lies in an interval.
fn fraction_within(x: Fraction, limit: Interval) -> Judgement
    ensures { (r : Rational) → x ≡ lowest r →
        result ≡ judged (BelowFraction (Num limit.lo) r ∷ AboveFraction r (Num limit.hi) ∷ []) }
{
    reaches(number(limit.lo), x, x, number(limit.hi))
}

/// The difference of a word's value and a fraction lies in an interval.
fn word_near(x: Fraction, word: i64, place: i32, limit: Interval) -> Judgement
    requires { IsPoint place }
    ensures { (r : Rational) → x ≡ lowest r →
        result ≡ judged (BelowFraction (Difference (word_at word place) (Num limit.hi)) r
        ∷ AboveFraction r (Difference (word_at word place) (Num limit.lo)) ∷ []) }
{
    reaches(
        difference(word_value(word, place), number(limit.hi)),
        x,
        x,
        difference(word_value(word, place), number(limit.lo)),
    )
}

/// State `k` starts in its boxes.
pub fn start_judgement(
    function: &Function,
    starts: &[StartBox],
    k: u32,
    word: i64,
    place: i32,
) -> Judgement
    requires { IsPoint place }
    ensures { let a = box_at sides.Value (boxes_in starts.now) k in
        let b = box_at sides.Error (boxes_in starts.now) k in let x = start_of function.now k in
        result ≡ judged (BelowFraction a.lo x ∷ AboveFraction x a.hi
        ∷ BelowFraction (Difference (word_at word place) b.hi) x
        ∷ AboveFraction x (Difference (word_at word place) b.lo) ∷ []) }
{
    let x = start_fraction(function, k);
    let value = fraction_within(x, box_interval(starts, &Side::Value, k));
    let error = word_near(x, word, place, box_interval(starts, &Side::Error, k));
    value.and(error)
}
