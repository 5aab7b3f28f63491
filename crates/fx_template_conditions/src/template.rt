//! The conditions Row and ErrorRow: one step keeps each template.

ghost use Rattle.std.specs.Prelude.{◌≡◌, ◌+◌, ◌<◌, ◌^◌};
ghost use Rattle.fx_inequalities.specs.Formula.{Product, point, span_product, zero_span};
ghost use Rattle.fx_inequalities.specs.Affine.{sum_of, weighted_sum};
ghost use Rattle.fx_formulas.specs.Judging.{Forms, FormsSpan, judged};
ghost use Rattle.fx_cert.specs.Sides.{side_rest};
ghost use Rattle.fx_template_conditions.specs.CertificateSide.{form_on, templates_on};
ghost use Rattle.fx_template_conditions.specs.Coefficients.{AreFormed};
ghost use Rattle.fx_template_conditions.specs.KeptTemplates.{kept_template, next_template};

use crate::bound::{VARIABLES, bound_by_templates};
use crate::side::CertificateSide;
use fx_formulas::{Judgement, lies_in, number, plus, point, product, sum, times, zero};
use fx_num::{Dyadic, Interval};

/// Coefficient `s` of template `i` times coefficient `j` of the form of node `n`.
fn summand(side: &CertificateSide<'_>, i: u32, s: u32, n: u32, j: u32) -> Option<Dyadic>
    ensures { Forms result (Product ((templates_on side.now).coef i s) ((form_on side.now n).coef j)) }
{
    side.keeps();
    product(side.coef(i, s), side.node_coef(n, j))
}

/// Coefficient `j` of what template `i` is of the next states, whose nodes begin with `next`.
fn template_coefficient(side: &CertificateSide<'_>, next: u32, i: u32, j: u32) -> Option<Dyadic>
    requires few { next + side.now.states < 2 ^ 32 }
    ensures { Forms result (sum_of side.now.states
        (λ s. Product ((templates_on side.now).coef i s) ((form_on side.now (next + s)).coef j))) }
{
    let mut total = number(Dyadic::zero());
    for s in 0..side.states() {
        total = sum(total, summand(side, i, s, next + s, j));
    }
    total
}

/// All of them.
fn template_coefs(side: &CertificateSide<'_>, next: u32, i: u32) -> [Option<Dyadic>; VARIABLES]
    requires few { next + side.now.states < 2 ^ 32 }
    ensures { AreFormed result (side.now.inputs + side.now.states)
        (λ j. sum_of side.now.states
        (λ s. Product ((templates_on side.now).coef i s) ((form_on side.now (next + s)).coef j))) }
{
    side.keeps();
    let mut coefs: [Option<Dyadic>; VARIABLES] = [None; VARIABLES];
    for j in 0..side.variables() {
        coefs[j as usize] = template_coefficient(side, next, i, j);
    }
    coefs
}

/// Coefficient `s` of template `i` times the rest of the form of node `n`.
fn rest_summand(side: &CertificateSide<'_>, i: u32, s: u32, n: u32) -> Option<Interval>
    ensures { FormsSpan result
        (span_product (point ((templates_on side.now).coef i s)) (side_rest side.now.which (form_on side.now n))) }
{
    side.keeps();
    times(point(side.coef(i, s)), side.node_rest(n))
}

/// The rest of what template `i` is of the next states.
fn template_rest(side: &CertificateSide<'_>, next: u32, i: u32) -> Option<Interval>
    requires few { next + side.now.states < 2 ^ 32 }
    ensures { FormsSpan result
        (weighted_sum zero_span side.now.states ((templates_on side.now).coef i)
        (λ s. side_rest side.now.which (form_on side.now (next + s)))) }
{
    let mut total = zero();
    for s in 0..side.states() {
        total = plus(total, rest_summand(side, i, s, next + s));
    }
    total
}

/// Where template `i` of the next states lies, whose nodes begin with `next`.
pub fn template_bound_of(side: &CertificateSide<'_>, next: u32, i: u32) -> Option<Interval>
    requires few { next + side.now.states < 2 ^ 32 }
    ensures { let s = side.now in
        FormsSpan result (next_template s.inputs s.states next s.lines s.templates s.which i) }
{
    side.keeps();
    let mut coefs = template_coefs(side, next, i);
    let rest = template_rest(side, next, i);
    bound_by_templates(side, rest, &mut coefs, side.shares(i))
}

/// One step keeps template `i`, where the nodes of the next states begin with `next`.
pub fn template_judgement(side: &CertificateSide<'_>, next: u32, i: u32) -> Judgement
    requires few { next + side.now.states < 2 ^ 32 }
    ensures { let s = side.now in
        result ≡ judged (kept_template s.inputs s.states next s.lines s.templates s.which i) }
{
    let bound = template_bound_of(side, next, i);
    lies_in(bound, side.bound(i))
}
