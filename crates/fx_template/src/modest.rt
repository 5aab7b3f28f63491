//! Whether a step is one for which templates are looked for.
//!
//! A plan may come from anywhere, and `templates_over` asks for few variables and nodes, and for numbers of few binary
//! places. What it asks is tested here to the letter, so that whoever has a plan can find out whether to call it.

ghost use Rattle.std.specs.Prelude.{◌↔◌, ℕ, pos, IsTrue};
ghost use Rattle.std.specs.Option.{option_map};
ghost use Rattle.fx_model.specs.LawfulProgram.{IsPoint};
ghost use Rattle.fx_model.specs.Tree.{at};
ghost use Rattle.fx_rational.specs.Dyadic.{zero_dyadic};
ghost use Rattle.fx_inequalities.specs.Formula.{Num, span};
ghost use Rattle.fx_formulas.specs.Places.{IsShort, IsShortSpan};
ghost use Rattle.fx_cert.specs.CertificateView.{form_view, line_view, lines_view, shares_of};
ghost use Rattle.fx_conditions.specs.Limits.{AreShortLines, AreShortShares, AreShortSharesIfAny, IsShortForm, IsShortFormIfAny, IsShortLine};
ghost use Rattle.fx_template.specs.Transitions.{IsModestTransition, transition_in};

use fx_cert::{Form, NodeLine, Share};
use fx_expr::Items;
use fx_num::{
    Dyadic, EXPONENT_LIMIT, GREATEST_POINT, INPUT_LIMIT, Interval, LEAST_POINT, NODE_LIMIT,
    STATE_LIMIT,
};
use fx_template_reach::Transition;

/// Whether it has so few places.
fn is_short(d: Dyadic) -> bool
    ensures { IsTrue result ↔ IsShort 96 (Num d) }
{
    d.e <= EXPONENT_LIMIT
}

/// Whether both ends have.
fn is_short_interval(x: Interval) -> bool
    ensures { IsTrue result ↔ IsShortSpan 96 (span x) }
{
    is_short(x.lo) && is_short(x.hi)
}

/// Whether each coefficient has.
fn are_short(coefs: &[Dyadic]) -> bool
    ensures { IsTrue result ↔ ((j : ℕ) → IsShort 96 (Num (at zero_dyadic coefs.now j))) }
{
    for j in 0..coefs.len() {
        if !is_short(coefs[j]) {
            return false;
        }
    }
    true
}

/// Whether each share is taken a number of times that has.
fn are_short_shares(shares: &[Share]) -> bool
    ensures { IsTrue result ↔ AreShortShares (shares_of shares.now) }
{
    for i in 0..shares.len() {
        if !is_short(shares[i].times) {
            return false;
        }
    }
    true
}

/// Whether each share is taken a number of times that has so few places, if there are shares.
fn are_short_if_any(shares: &Option<Items<Share>>) -> bool
    ensures { IsTrue result ↔ AreShortSharesIfAny (option_map shares_of shares.now) }
{
    match shares {
        Some(shares) => are_short_shares(shares.as_slice()),
        None => true,
    }
}

/// Whether all numbers of a form have so few places.
fn is_short_form(form: &Form) -> bool
    ensures { IsTrue result ↔ IsShortForm (form_view form.now) }
{
    is_short(form.centre_a)
        && is_short(form.centre_b)
        && are_short(form.coefs.as_slice())
        && is_short_interval(form.rest)
        && is_short_interval(form.error_rest)
        && are_short_if_any(&form.range_by)
        && are_short_if_any(&form.error_by)
}

/// Whether all numbers of a form have so few places, if there is one.
fn is_short_form_if_any(form: &Option<Form>) -> bool
    ensures { IsTrue result ↔ IsShortFormIfAny (option_map form_view form.now) }
{
    match form {
        Some(form) => is_short_form(form),
        None => true,
    }
}

/// Whether all numbers of a line have.
fn is_short_line(line: &NodeLine) -> bool
    ensures { IsTrue result ↔ IsShortLine (line_view line.now) }
{
    is_short_interval(line.range)
        && is_short_interval(line.error)
        && is_short_form_if_any(&line.form)
}

/// Whether all numbers of these lines have.
fn are_short_lines(lines: &[NodeLine]) -> bool
    ensures { IsTrue result ↔ AreShortLines (lines_view lines.now) }
{
    for n in 0..lines.len() {
        if !is_short_line(&lines[n]) {
            return false;
        }
    }
    true
}

/// Whether each is a binary point.
fn are_points(points: &[i32]) -> bool
    ensures { IsTrue result ↔ ((n : ℕ) → IsPoint (at (pos 0) points.now n)) }
{
    for n in 0..points.len() {
        if points[n] < LEAST_POINT || GREATEST_POINT < points[n] {
            return false;
        }
    }
    true
}

/// Whether `templates_over` takes the step: it has few variables and nodes, and no number of it has more than 96 binary
/// places.
pub fn is_modest(t: &Transition) -> bool
    ensures { IsTrue result ↔ IsModestTransition (transition_in t.now) }
{
    t.inputs <= INPUT_LIMIT
        && t.states <= STATE_LIMIT
        && u64::from(t.next) + u64::from(t.states) <= u64::from(NODE_LIMIT)
        && are_points(t.points)
        && are_short_lines(&t.lines)
}
