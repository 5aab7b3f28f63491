//! Plain rounds: bounds of the unit templates alone, raised until one step keeps them or the rounds are over.

ghost use Rattle.std.specs.Prelude.{◌≡◌, ◌+◌, ◌-◌, ◌<◌, pos, IfOk, Some, None};
ghost use Rattle.std.specs.Option.{option_map};
ghost use Rattle.fx_model.specs.Tree.{at};
ghost use Rattle.fx_rational.specs.Dyadic.{greatest, least};
ghost use Rattle.fx_inequalities.specs.Formula.{Span};
ghost use Rattle.fx_formulas.specs.Judging.{FormsSpan};
ghost use Rattle.fx_cert.specs.CertificateView.{templates_in};
ghost use Rattle.fx_conditions.specs.Limits.{AreShortTemplates};
ghost use Rattle.fx_template.specs.Transitions.{IsModestTransition, transition_in};
ghost use Rattle.fx_template.specs.PlainRounds.{bounds_after, bounds_at_first, first_bounds, hull, plain_rounds, raised_bound, raised_bounds, state_bound, template_grid, unit_templates};
ghost use Rattle.fx_template.specs.RoundView.{AreShortBoth, AreShortBounds, bounds_in};

use crate::stand::side_with;
use crate::unit::{bound_at, unit_templates};
use fx_cert::{Side, Template, error_at, range_at};
use fx_formulas::interval;
use fx_num::{Interval, Memory, greatest, least};
use fx_outward::{Why, error_grid, round_outward};
use fx_template_conditions::template_bound_of;
use fx_template_reach::Transition;
use std::alloc::Global;

/// The bounds of the unit templates and of the unit error templates.
#[derive(Debug, Drop)]
pub struct Bounds {
    pub templates: Vec<Interval>,
    pub error_templates: Vec<Interval>,
}

/// The point of node `n`.
fn point_at(points: &[i32], n: u32) -> i32
    ensures { result ≡ at (pos 0) points.now n }
{
    match points.get(n as usize) {
        Some(point) => *point,
        None => 0,
    }
}

/// How many binary places the bound of unit template `i` has.
fn template_grid(t: &Transition, side: &Side, i: u32) -> u32
    requires modest { IsModestTransition (transition_in t.now) }
    requires within { i < t.now.states }
    ensures { result ≡ template_grid side.now (transition_in t.now) i }
{
    match side {
        Side::Value => 24,
        Side::Error => error_grid(point_at(t.points, t.inputs + i)),
    }
}

/// Where state `i` lies, or its error.
fn state_bound(t: &Transition, side: &Side, i: u32) -> Interval
    requires modest { IsModestTransition (transition_in t.now) }
    requires within { i < t.now.states }
    ensures { result ≡ state_bound side.now (transition_in t.now) i }
{
    match side {
        Side::Value => range_at(&t.lines, t.inputs + i),
        Side::Error => error_at(&t.lines, t.inputs + i),
    }
}

/// The bounds to begin with.
fn first_bounds(alloc: Global, t: &Transition, side: &Side) -> Result<Vec<Interval>, Memory>
    requires modest { IsModestTransition (transition_in t.now) }
    ensures { IfOk result (λ bs. bs.items ≡ first_bounds side.now (transition_in t.now)) }
{
    let mut bounds = Vec::new(alloc);
    for i in 0..t.states {
        let bound = state_bound(t, side, i);
        bounds.push(bound)?;
    }
    Ok(bounds)
}

/// From the lesser lower end to the greater upper one.
fn joined(x: Interval, y: Interval) -> Interval
    ensures { result ≡ record { lo = least x.lo y.lo; hi = greatest x.hi y.hi } }
{
    Interval {
        lo: least(x.lo, y.lo),
        hi: greatest(x.hi, y.hi),
    }
}

/// What holds both of two.
fn hull(a: Option<Interval>, b: Option<Interval>) -> Option<Interval>
    ensures { (s t : Span) → FormsSpan a s → FormsSpan b t → FormsSpan result (hull s t) }
{
    match a {
        Some(x) => match b {
            Some(y) => Some(joined(x, y)),
            None => None,
        },
        None => None,
    }
}

/// The new bound of unit template `i` of these, which have the bounds.
fn raised_bound(
    t: &Transition,
    side: &Side,
    templates: &[Template],
    bounds: &[Interval],
    i: u32,
) -> Result<Interval, Why>
    requires modest { IsModestTransition (transition_in t.now) }
    requires within { i < t.now.states }
    requires templates { templates_in templates.now ≡ unit_templates t.now.states bounds.now }
    requires short { AreShortTemplates (templates_in templates.now) }
    ensures { result ≡ raised_bound side.now (transition_in t.now) bounds.now i }
{
    let own = side_with(t, side, templates);
    let left = template_bound_of(&own, t.next, i);
    let held = hull(interval(bound_at(bounds, i)), left);
    round_outward(held, template_grid(t, side, i))
}

/// The new bounds of all unit templates, where each is there.
fn raised_bounds(
    alloc: Global,
    t: &Transition,
    side: &Side,
    bounds: &[Interval],
) -> Result<Option<Vec<Interval>>, Memory>
    requires modest { IsModestTransition (transition_in t.now) }
    requires short { AreShortBounds bounds.now }
    ensures { IfOk result (λ o. option_map (λ bs. bs.items) o
        ≡ raised_bounds side.now (transition_in t.now) bounds.now) }
{
    let templates = unit_templates(alloc, t.states, bounds)?;
    let mut raised = Vec::new(alloc);
    for i in 0..t.states {
        match raised_bound(t, side, &templates, bounds, i) {
            Ok(bound) => raised.push(bound)?,
            Err(_) => return Ok(None),
        }
    }
    Ok(Some(raised))
}

/// The bounds after a round, where it is carried out.
fn bounds_after(alloc: Global, t: &Transition, bounds: &Bounds) -> Result<Option<Bounds>, Memory>
    requires modest { IsModestTransition (transition_in t.now) }
    requires short { AreShortBoth (bounds_in bounds.now) }
    ensures { IfOk result (λ o. option_map bounds_in o ≡ bounds_after (transition_in t.now) (bounds_in bounds.now)) }
{
    let templates = raised_bounds(alloc, t, &Side::Value, &bounds.templates)?;
    let error_templates = raised_bounds(alloc, t, &Side::Error, &bounds.error_templates)?;
    match templates {
        Some(templates) => match error_templates {
            Some(error_templates) => Ok(Some(Bounds {
                templates,
                error_templates,
            })),
            None => Ok(None),
        },
        None => Ok(None),
    }
}

/// The bounds before any round.
fn bounds_at_first(alloc: Global, t: &Transition) -> Result<Bounds, Memory>
    requires modest { IsModestTransition (transition_in t.now) }
    ensures { IfOk result (λ b. bounds_in b ≡ bounds_at_first (transition_in t.now)) }
{
    Ok(Bounds {
        templates: first_bounds(alloc, t, &Side::Value)?,
        error_templates: first_bounds(alloc, t, &Side::Error)?,
    })
}

/// The bounds after so many rounds, or before the first that isn't carried out.
pub fn plain_rounds(alloc: Global, t: &Transition, rounds: u32) -> Result<Bounds, Memory>
    requires modest { IsModestTransition (transition_in t.now) }
    ensures rounds { let s = transition_in t.now in
        IfOk result (λ b. bounds_in b ≡ plain_rounds rounds s (bounds_at_first s)) }
    ensures short { IfOk result (λ b. AreShortBounds b.templates.items) }
    ensures short_errors { IfOk result (λ b. AreShortBounds b.error_templates.items) }
{
    let mut bounds = bounds_at_first(alloc, t)?;
    for _turn in 0..rounds {
        let next = bounds_after(alloc, t, &bounds)?;
        match next {
            Some(raised) => bounds = raised,
            None => return Ok(bounds),
        }
    }
    Ok(bounds)
}
