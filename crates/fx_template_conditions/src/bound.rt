//! Where a combination of the variables lies, by templates and shares of templates.

ghost use Rattle.std.specs.Prelude.{◌≡◌, ◌+◌, ◌<◌, ◌≤◌, ℕ, length, None, Some, IfSome, IsTrue};
ghost use Rattle.fx_model.specs.Tree.{at};
ghost use Rattle.fx_rational.specs.Dyadic as model;
ghost use Rattle.fx_rational.specs.Dyadic.{fits_128, zero_dyadic};
ghost use Rattle.fx_inequalities.specs.Formula.{Difference, Formula, Num, Product, Span, point, span_product};
ghost use Rattle.fx_inequalities.specs.Affine.{left_over, shared_sum, unit_coef, weighted_sum};
ghost use Rattle.fx_formulas.specs.Judging.{Forms, FormsSpan};
ghost use Rattle.fx_formulas.specs.Places.{IsShort, IsShortSpan};
ghost use Rattle.fx_cert.specs.CertificateView.{form_view as form_view, shares_of};
ghost use Rattle.fx_template_conditions.specs.CertificateSide.{bound_on, spans_on, templates_on};
ghost use Rattle.fx_template_conditions.specs.Coefficients.{AreFormed, AreLeft, AreUnits};
ghost use Rattle.fx_template_conditions.specs.ShortTimes.{AreTimes, HasRoom};
ghost use Rattle.fx_conditions.specs.Limits.{AreShortShares, IsShortForm};

use crate::quick::{ShortTimes, less_raised, short_times, times_ends};
use crate::side::CertificateSide;
use fx_cert::{Form, Share, coef_at};
use fx_conditions::{scaled, scaled_number};
use fx_formulas::{difference, number, plus, point, times};
use fx_num::{Dyadic, INPUT_LIMIT, Interval, STATE_LIMIT};

/// The most variables: all inputs and states.
pub const VARIABLES: usize = (INPUT_LIMIT + STATE_LIMIT) as usize;

/// The coefficients of a form.
pub fn form_coefs(side: &CertificateSide<'_>, form: &Form) -> [Option<Dyadic>; VARIABLES]
    requires { IsShortForm (form_view form.now) }
    ensures { AreFormed result (side.now.inputs + side.now.states) (λ j. Num (at zero_dyadic form.now.coefs j)) }
{
    let mut coefs: [Option<Dyadic>; VARIABLES] = [None; VARIABLES];
    for j in 0..side.variables() {
        coefs[j as usize] = number(coef_at(form.coefs.as_slice(), j));
    }
    coefs
}

/// Coefficient `j`, which may not fit.
fn coefficient(coefs: &[Option<Dyadic>], j: u32) -> Option<Dyadic>
    ensures { result ≡ at None coefs.now j }
{
    match coefs.get(j as usize) {
        Some(coef) => *coef,
        None => None,
    }
}

/// Coefficient `j` times what stands for variable `j`.
fn variable_product(
    side: &CertificateSide<'_>,
    coefs: &[Option<Dyadic>],
    j: u32,
) -> Option<Interval>
    ensures { (n : ℕ) (c : ℕ → Formula) → j < n → AreFormed coefs.now n c →
        FormsSpan result (span_product (point (c j)) (spans_on side.now j)) }
{
    side.keeps();
    times(point(coefficient(coefs, j)), side.variable(j))
}

/// With the inputs by their own spans.
fn with_inputs(
    side: &CertificateSide<'_>,
    start: Option<Interval>,
    coefs: &[Option<Dyadic>],
) -> Option<Interval>
    ensures { (n : ℕ) (c : ℕ → Formula) (z : Span) → side.now.inputs ≤ n → AreFormed coefs.now n c →
        FormsSpan start z → FormsSpan result (weighted_sum z side.now.inputs c (spans_on side.now)) }
{
    let mut total = start;
    for j in 0..side.inputs() {
        total = plus(total, variable_product(side, coefs, j));
    }
    total
}

/// A number times a template's bound, where both are short.
fn quick_bound(times: Dyadic, bound: &Option<Interval>) -> Option<Interval>
    ensures { (s : Span) → FormsSpan bound.now s →
        IfSome result (λ i. FormsSpan (Some i) (span_product (point (Num times)) s)) }
{
    let Some(ends) = bound else {
        return None;
    };
    times.keeps();
    times_ends(times, *ends)
}

/// A written number times a template's bound, in 64 bits where that serves.
fn bound_times(times: Dyadic, bound: Option<Interval>) -> Option<Interval>
    requires { IsShort 96 (Num times) }
    ensures { (s : Span) → IsShortSpan 512 s → FormsSpan bound s →
        FormsSpan result (span_product (point (Num times)) s) }
{
    match quick_bound(times, &bound) {
        Some(quick) => Some(quick),
        None => scaled(times, bound),
    }
}

/// The bound of a share's template, so many times.
fn share_bound(side: &CertificateSide<'_>, share: Share) -> Option<Interval>
    requires { IsShort 96 (Num share.times) }
    ensures { FormsSpan result
        (span_product (point (Num share.times)) ((templates_on side.now).bound share.template)) }
{
    side.keeps();
    bound_times(share.times, side.bound(share.template))
}

/// With the shares of templates.
fn with_shares(
    side: &CertificateSide<'_>,
    start: Option<Interval>,
    shares: &[Share],
) -> Option<Interval>
    requires shares { AreShortShares (shares_of shares.now) }
    ensures { (z : Span) → FormsSpan start z →
        FormsSpan result (shared_sum z (templates_on side.now) (shares_of shares.now)) }
{
    let mut total = start;
    for share in shares {
        total = plus(total, share_bound(side, *share));
    }
    total
}

/// What so many times a template leave of coefficient `j`, where that is quick.
fn quick_left(
    coefs: &[Option<Dyadic>],
    j: u32,
    template: &[Dyadic],
    k: u32,
    times: &Option<ShortTimes>,
) -> Option<Dyadic>
    requires { IfSome times.now HasRoom }
    ensures { (a : model.Dyadic) (f : Formula) → IsTrue (fits_128 a.m) → IfSome times.now (λ t. AreTimes t a) →
        Forms (at None coefs.now j) f →
        IfSome result (λ d. Forms (Some d) (Difference f (Product (Num a) (Num (at zero_dyadic template.now k))))) }
{
    let Some(short) = times else {
        return None;
    };
    let left = coefficient(coefs, j)?;
    let coef = coef_at(template, k);
    coef.keeps();
    less_raised(left, *short, coef)
}

/// What so many times a template leave of coefficient `j`, of any numbers. It stands outside of the loop, which has few
/// that aren't quick.
#[inline(never)]
fn left_of(
    coefs: &[Option<Dyadic>],
    j: u32,
    template: &[Dyadic],
    k: u32,
    times: Dyadic,
) -> Option<Dyadic>
    requires template { IsShort 96 (Num (at zero_dyadic template.now k)) }
    requires times { IsShort 96 (Num times) }
    ensures { (f : Formula) → Forms (at None coefs.now j) f →
        Forms result (Difference f (Product (Num times) (Num (at zero_dyadic template.now k)))) }
{
    let product = scaled_number(times, number(coef_at(template, k)));
    difference(coefficient(coefs, j), product)
}

/// What so many times a template leave of the coefficients of the states, which stand behind the inputs'.
fn take_template(
    side: &CertificateSide<'_>,
    coefs: &mut [Option<Dyadic>; VARIABLES],
    template: &[Dyadic],
    times: Dyadic,
)
    requires template { (k : ℕ) → k < side.now.states → IsShort 96 (Num (at zero_dyadic template.now k)) }
    requires times { IsShort 96 (Num times) }
    ensures { (c : ℕ → Formula) → AreLeft coefs.old side.now.inputs side.now.states c →
        AreLeft coefs.new side.now.inputs side.now.states
        (λ k. Difference (c k) (Product (Num times) (Num (at zero_dyadic template.now k)))) }
{
    side.keeps();
    times.keeps();
    let short = short_times(times);
    let inputs = side.inputs();
    for k in 0..side.states() {
        let j = inputs + k;
        // assigned in each arm, so that what is quick isn't copied
        match quick_left(&*coefs, j, template, k, &short) {
            Some(quick) => coefs[j as usize] = Some(quick),
            None => coefs[j as usize] = left_of(&*coefs, j, template, k, times),
        }
    }
}

// Where the 1 of the units stands.
const CENTRE: usize = VARIABLES - 1;

/// Zeros, a 1 and zeros again: from so many places before the 1 on they are the coefficients of a unit template.
fn units() -> [Dyadic; 192]
    ensures { AreUnits result }
{
    let mut units = [Dyadic::zero(); 2 * VARIABLES];
    units[CENTRE] = Dyadic { m: 1, e: 0 };
    units
}

/// The coefficients of the unit template of state `i`.
fn unit_coefs(units: &[Dyadic], i: u32) -> &[Dyadic]
    requires units { AreUnits units.now }
    requires long { length units.now ≡ 192 }
    requires few { i < 96 }
    ensures { (k : ℕ) → Num (at zero_dyadic result.now k) ≡ unit_coef i k }
{
    &units[CENTRE - i as usize..]
}

/// What a share leaves of the coefficients of the states.
fn take_share(
    side: &CertificateSide<'_>,
    coefs: &mut [Option<Dyadic>; VARIABLES],
    share: Share,
    units: &[Dyadic],
)
    requires units { AreUnits units.now }
    requires long { length units.now ≡ 192 }
    requires times { IsShort 96 (Num share.times) }
    ensures { (c : ℕ → Formula) → AreLeft coefs.old side.now.inputs side.now.states c →
        AreLeft coefs.new side.now.inputs side.now.states
        (λ k. Difference (c k) (Product (Num share.times) ((templates_on side.now).coef share.template k))) }
{
    side.keeps();
    let states = side.states();
    if share.template < states {
        let unit = unit_coefs(units, share.template);
        take_template(side, coefs, unit, share.times);
    } else {
        let template = side.coefs(share.template);
        take_template(side, coefs, template, share.times);
    }
}

/// What the shares leave of them.
fn take_shares(
    side: &CertificateSide<'_>,
    coefs: &mut [Option<Dyadic>; VARIABLES],
    shares: &[Share],
)
    requires shares { AreShortShares (shares_of shares.now) }
    ensures { (c : ℕ → Formula) → AreLeft coefs.old side.now.inputs side.now.states c →
        AreLeft coefs.new side.now.inputs side.now.states
        (λ k. left_over (c k) (templates_on side.now) (shares_of shares.now) k) }
{
    let units = units();
    for share in shares {
        take_share(side, coefs, *share, &units);
    }
}

/// What is left of state `k`, times the bound of its own template.
fn state_product(side: &CertificateSide<'_>, lefts: &[Option<Dyadic>], k: u32) -> Option<Interval>
    requires within { k < side.now.states }
    ensures { (c : ℕ → Formula) → AreLeft lefts.now side.now.inputs side.now.states c → IsShort 192 (c k) →
        FormsSpan result (span_product (point (c k)) ((templates_on side.now).bound k)) }
{
    side.keeps();
    let left = coefficient(lefts, side.inputs() + k);
    times(point(left), side.bound(k))
}

/// With what is left of the states, by their own templates.
fn with_states(
    side: &CertificateSide<'_>,
    start: Option<Interval>,
    lefts: &[Option<Dyadic>],
) -> Option<Interval>
    ensures { (c : ℕ → Formula) (z : Span) → AreLeft lefts.now side.now.inputs side.now.states c →
        ((k : ℕ) → k < side.now.states → IsShort 192 (c k)) → FormsSpan start z →
        FormsSpan result (weighted_sum z side.now.states c (templates_on side.now).bound) }
{
    let mut total = start;
    for k in 0..side.states() {
        total = plus(total, state_product(side, lefts, k));
    }
    total
}

/// Where what begins with `start` lies, and goes on with these coefficients times the variables. The shares are taken
/// from the states' coefficients in their place.
pub fn bound_by_templates(
    side: &CertificateSide<'_>,
    start: Option<Interval>,
    coefs: &mut [Option<Dyadic>; VARIABLES],
    shares: &[Share],
) -> Option<Interval>
    requires shares { AreShortShares (shares_of shares.now) }
    ensures { (c : ℕ → Formula) (z : Span) → AreFormed coefs.old (side.now.inputs + side.now.states) c →
        FormsSpan start z → FormsSpan result (bound_on side.now c z (shares_of shares.now)) }
{
    side.keeps();
    let first = with_inputs(side, start, &*coefs);
    let second = with_shares(side, first, shares);
    take_shares(side, coefs, shares);
    with_states(side, second, &*coefs)
}
