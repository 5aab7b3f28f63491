//! Errors of literals and inputs.

ghost use Rattle.std.specs.Prelude.{◌≡◌, ◌*◌, ◌+◌, ◌<◌, ◌^◌, ◌∷◌, [], ◌-ℤ◌, ◌*ℤ◌, neg_ℤ, pos, unsigned_abs, ℕ};
ghost use Rattle.fx_rational.specs.Rational.{Rational, bottom, lowest, negative, minus, scaled, floor, floor_div};
ghost use Rattle.fx_model.specs.LawfulProgram.{IsPoint};
ghost use Rattle.fx_inequalities.specs.Formula.{Formula, Num, Sum, Difference, formula_value, word_at, unit_at};
ghost use Rattle.fx_inequalities.specs.Claim.{BelowFraction, AboveFraction, fits_over};
ghost use Rattle.fx_expr.specs.Parts.{input_of};
ghost use Rattle.fx_outward.specs.Narrow.{Bounds, narrow, narrowest, single, unit_value};
ghost use Rattle.fx_outward.specs.Narrowed.{IsIfSmall, if_fitting};
ghost use Rattle.fx_formulas.specs.Judging.{Forms};
ghost use Rattle.fx_outward.specs.Grid.{error_grid};
ghost use Rattle.fx_outward.specs.Exact.{scaled_top, scaled_bottom, unit_bottom};

use crate::fault::Why;
use crate::number::{denominator, left, negate, numerator, whole};
use crate::place::{Place, grid as error_grid, split};
use crate::quotient::{high, low};
use crate::rounding::ends;
use crate::wide::{rest, signed, wide_down, wide_up};
use fx_expr::Input;
use fx_formulas::{difference, number, reduced, sum, unit};
use fx_fraction::{Fraction, dyadic_le, fneg, to_fraction};
use fx_num::{Dyadic, Interval, left_fits, raised};

/// The numerator of `c * 2^f`.
fn top_of(c: Fraction, f: i32) -> i128
    requires { IsPoint f }
    ensures value { result ≡ scaled_top c f }
    ensures small { unsigned_abs result < 2 ^ 126 }
{
    let p = numerator(c);
    match split(f) {
        Place::High(k) => left(p, k),
        Place::Low(_) => p,
    }
}

/// Its denominator.
fn bottom_of(c: Fraction, f: i32) -> u128
    requires { IsPoint f }
    ensures value { result ≡ scaled_bottom c f }
    ensures some { 0 < result }
    ensures few { result < 2 ^ 126 }
{
    let q = denominator(c);
    match split(f) {
        Place::High(_) => u128::from(q),
        Place::Low(k) => raised(q, k + 1),
    }
}

/// The denominator of units at point `f` over that of `c`.
fn unit_of(c: Fraction, f: i32) -> u128
    requires { IsPoint f }
    ensures value { result ≡ unit_bottom c f }
    ensures some { 0 < result }
    ensures few { result < 2 ^ 126 }
{
    let q = denominator(c);
    match split(f) {
        Place::High(k) => raised(q, k),
        Place::Low(_) => u128::from(q),
    }
}

/// The floor of `c * 2^f`.
pub fn floor_at(c: Fraction, f: i32) -> i128
    requires { IsPoint f }
    ensures { result ≡ floor (scaled c f) }
{
    let top = top_of(c, f);
    let bottom = bottom_of(c, f);
    whole(top, bottom)
}

/// The interval, where both claims of it fit.
fn if_fitting(g: Interval, a: bool, b: bool) -> Result<Interval, Why>
    ensures { result ≡ if_fitting g a b }
{
    if a && b { Ok(g) } else { Err(Why::Beyond) }
}

/// A difference from what a formula comes to.
fn less(x: &Option<Dyadic>, d: Dyadic) -> Option<Dyadic>
    ensures { (f : Formula) → Forms x.now f → Forms result (Difference f (Num d)) }
{
    match x {
        Some(x) => difference(Some(*x), number(d)),
        None => None,
    }
}

/// Whether a comparison with a fraction in lowest terms fits.
fn fits_over(x: Option<Dyadic>, c: Fraction) -> bool
    ensures { (f : Formula) (r : Rational) → Forms x f → c ≡ lowest r → result ≡ fits_over f r }
{
    match x {
        Some(x) => dyadic_le(x, c).is_some(),
        None => false,
    }
}

/// The whole number `w * 2^s`.
fn raised_word(w: i128, s: u32) -> Option<Dyadic>
    ensures { Forms result (Num record { m = w *ℤ pos (2 ^ s); e = 0 }) }
{
    match left_fits(w, s) {
        Some(m) => Some(Dyadic::new(m, 0)),
        None => None,
    }
}

/// What a word of up to 128 bits stands for.
fn word_of(w: i128, f: i32) -> Option<Dyadic>
    requires { IsPoint f }
    ensures { Forms result (word_at w f) }
{
    match split(f) {
        Place::High(k) => number(Dyadic::new(w, k)),
        Place::Low(k) => raised_word(w, k + 1),
    }
}

/// The narrowest round a literal's error, where its claims fit.
fn literal_answer(
    kept: Option<Interval>,
    word: Option<Dyadic>,
    c: Fraction,
) -> Result<Interval, Why>
    requires { c ≡ lowest c }
    ensures { (e : ℕ) (b : Bounds) (f : Formula) → IsIfSmall kept (narrow e b) → Forms word f →
        result ≡ narrowest e b (λ h. BelowFraction (Difference f (Num h.hi)) c
        ∷ AboveFraction c (Difference f (Num h.lo)) ∷ []) }
{
    match kept {
        None => Err(Why::Beyond),
        Some(g) => {
            let a = fits_over(less(&word, high(g)), c);
            let b = fits_over(less(&word, low(g)), c);
            if_fitting(g, a, b)
        }
    }
}

/// The narrowest round an input's error, where its claims fit.
fn input_answer(
    kept: Option<Interval>,
    u: Option<Dyadic>,
    minus_c: Fraction,
    c: Fraction,
) -> Result<Interval, Why>
    ensures { (e : ℕ) (b : Bounds) (f : Formula) (r : Rational) → IsIfSmall kept (narrow e b) → Forms u f →
        minus_c ≡ lowest (negative r) → c ≡ lowest r →
        result ≡ narrowest e b (λ h. BelowFraction (Sum (Num h.lo) f) (negative r) ∷ AboveFraction r (Num h.hi) ∷ []) }
{
    match kept {
        None => Err(Why::Beyond),
        Some(g) => {
            let a = fits_over(sum(number(low(g)), u), minus_c);
            let b = fits_over(number(high(g)), c);
            if_fitting(g, a, b)
        }
    }
}

/// The error of a literal at a point.
pub fn literal_error(c: Fraction, f: i32) -> Result<Interval, Why>
    requires { IsPoint f }
    ensures { result ≡ narrowest (error_grid f) (single (minus (formula_value (word_at (floor (scaled c f)) f)) c))
        (λ h. BelowFraction (Difference (word_at (floor (scaled c f)) f) (Num h.hi)) c
        ∷ AboveFraction c (Difference (word_at (floor (scaled c f)) f) (Num h.lo)) ∷ []) }
{
    reduced(c);
    let top = top_of(c, f);
    let bottom = bottom_of(c, f);
    let d = unit_of(c, f);
    let e = error_grid(f);
    let w = whole(top, bottom);
    let r = rest_below(top, bottom);
    let n = negate(signed(r));
    let kept = ends(wide_down(n, d, e), wide_up(n, d, e));
    literal_answer(kept, word_of(w, f), c)
}

/// What a floor leaves, which is below the divisor.
fn rest_below(n: i128, d: u128) -> u128
    requires some { 0 < d }
    requires few { d < 2 ^ 126 }
    ensures value { pos result ≡ n -ℤ floor_div n d *ℤ pos d }
    ensures few { result < 2 ^ 126 }
{
    rest(n, d)
}

/// Both numbers with the other sign.
fn minus_both(p: i128, q: u128) -> i128
    requires p { unsigned_abs p < 2 ^ 126 }
    requires q { q < 2 ^ 126 }
    ensures { result ≡ neg_ℤ p -ℤ pos q }
{
    let n = negate(p);
    n - signed(q)
}

/// The error of an input at a point.
pub fn input_error(input: &Input, f: i32) -> Result<Interval, Why>
    requires { IsPoint f }
    ensures { (r : Rational) → (input_of input.now).err ≡ r →
        result ≡ narrowest (error_grid f) record { lo = minus (negative r) (unit_value f); hi = r }
        (λ h. BelowFraction (Sum (Num h.lo) (unit_at f)) (negative r) ∷ AboveFraction r (Num h.hi) ∷ []) }
{
    let c = to_fraction(input.err);
    let minus_c = fneg(c);
    let n = minus_both(top_of(c, f), bottom_of(c, f));
    let d = unit_of(c, f);
    let e = error_grid(f);
    let lo = wide_down(n, d, e);
    let p = numerator(c);
    let q = denominator(c);
    let hi = wide_up(p, u128::from(q), e);
    let kept = ends(lo, hi);
    input_answer(kept, unit(f), minus_c, c)
}
