//! The lines of nodes, the boxes of states and the unit templates.

ghost use Rattle.std.specs.Prelude.{◌≡◌, unsigned_abs, ◌^◌, ◌<◌, ◌≤◌, length, [], map, IfOk};
ghost use Rattle.fx_model.specs.Tree.{at};
ghost use Rattle.fx_inequalities.specs.Accepted.{no_state, start_of};
ghost use Rattle.fx_inequalities.specs.LawfulCertificate.{unit_vector};
ghost use Rattle.fx_outward.specs.Grid.{lowest_dyadic};
ghost use Rattle.fx_plan_laws.specs.Powers.{magnitude};
ghost use Rattle.fx_cert.specs.CertificateView.{line_view, template_view, templates_in, box_of, boxes_in};
ghost use Rattle.fx_plan_laws.specs.Bounds.{units_up};
ghost use Rattle.fx_plan_laws.specs.CalmPlan.{units, calm_line, calm_start, unit_templates};
ghost use Rattle.fx_calm.specs.BoundOf.{bound_of, bounds_in, HaveShortStarts};

use crate::bound::Bound;
use crate::limit::start_at;
use crate::magnitude::units;
use fx_cert::{NodeLine, StartBox, Template, unit_vector};
use fx_expr::{Function, Items};
use fx_lowering::state_count;
use fx_num::{Dyadic, Interval, Memory};
use fx_outward::up_quotient;
use std::alloc::Global;

/// `m` units `2^-f`, in lowest terms.
fn whole_units(m: i128, f: u32) -> Dyadic
    requires point { f ≤ 58 }
    requires few { unsigned_abs m < 2 ^ 64 }
    ensures { result ≡ lowest_dyadic m f }
{
    up_quotient(m, 1, f)
}

/// From `-r` to `r` units `2^-f`.
pub fn span(r: u64, f: u32) -> Interval
    requires { f ≤ 58 }
    ensures { result ≡ units f r }
{
    Interval {
        lo: whole_units(-i128::from(r), f),
        hi: whole_units(i128::from(r), f),
    }
}

/// The line of a node.
fn line(b: Bound, f: u32) -> NodeLine
    requires { f ≤ 58 }
    ensures { line_view result ≡ calm_line f (bound_of b) }
{
    let range = span(b.r, f);
    let error = span(b.e, f);
    NodeLine {
        range,
        error,
        form: None,
    }
}

/// The lines of all nodes.
pub fn lines(alloc: Global, bs: &[Bound], f: u32) -> Result<Vec<NodeLine>, Memory>
    requires { f ≤ 58 }
    ensures { IfOk result (λ ls. map line_view ls.items ≡ map (calm_line f) (bounds_in bs.now)) }
{
    let mut lines = Vec::new(alloc);
    for i in 0..bs.len() {
        lines.push(line(bs[i], f))?;
    }
    Ok(lines)
}

/// The box of state `k`.
fn start(function: &Function, k: u32, f: u32) -> StartBox
    requires within { k < length function.now.states }
    requires point { f ≤ 58 }
    requires short { units_up f (magnitude (start_of function.now k)) ≤ 2 ^ 61 }
    ensures { box_of result ≡ calm_start f (at no_state function.now.states k) }
{
    let r = units(start_at(function, k), f);
    StartBox {
        range: span(r as u64, f),
        error: span(1, f),
    }
}

/// The boxes of all states.
pub fn starts(alloc: Global, function: &Function, f: u32) -> Result<Vec<StartBox>, Memory>
    requires point { f ≤ 58 }
    requires short { HaveShortStarts function.now f }
    ensures { IfOk result (λ boxes. boxes_in boxes.items ≡ map (calm_start f) function.now.states) }
{
    let mut boxes = Vec::new(alloc);
    for k in 0..state_count(function) {
        boxes.push(start(function, k, f))?;
    }
    Ok(boxes)
}

/// The unit template of state `i`.
fn template(alloc: Global, states: u32, bound: Interval, i: u32) -> Result<Template, Memory>
    requires { i < states }
    ensures { IfOk result (λ r. template_view r ≡ record { coefs = unit_vector states i; bound = bound; shares = [] }) }
{
    Ok(Template {
        coefs: unit_vector(alloc, states, i)?,
        bound,
        shares: Items::from_vec(Vec::new(alloc)),
    })
}

/// The unit templates of so many states, all with one bound.
pub fn templates(alloc: Global, states: u32, bound: Interval) -> Result<Vec<Template>, Memory>
    ensures { IfOk result (λ templates. templates_in templates.items ≡ unit_templates states bound 0 states) }
{
    let mut templates = Vec::new(alloc);
    for i in 0..states {
        templates.push(template(alloc, states, bound, i)?)?;
    }
    Ok(templates)
}
