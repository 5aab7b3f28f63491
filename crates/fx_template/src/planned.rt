//! One step of the states by a plan, with the lines that a certificate would have.

ghost use Rattle.std.specs.Prelude.{◌≡◌, ◌-◌, ◌≤◌, length, IfOk, Some, None};
ghost use Rattle.std.specs.Option.{option_map};
ghost use Rattle.fx_model.specs.Tree.{at};
ghost use Rattle.fx_rational.specs.Dyadic.{zero_dyadic};
ghost use Rattle.fx_inequalities.specs.Certificate.{zero_interval};
ghost use Rattle.fx_template.specs.AffineView.{linear_form, planned};
ghost use Rattle.fx_cert.specs.CertificateView.{form_view as form_view, line_view, lines_view};
ghost use Rattle.fx_template.specs.Transitions.{planned_form, planned_line, planned_lines, transition_in, transition_of};

use crate::{Affine, PlannedNodes};
use fx_cert::{Form, NodeLine};
use fx_expr::Items;
use fx_flat::Nodes;
use fx_num::{Dyadic, Interval, Memory};
use fx_template_reach::Transition;
use std::alloc::{AllocError, Global};

/// Interval `n` of a list, and 0 past its end.
fn interval_at(list: &[Interval], n: usize) -> Interval
    ensures { result ≡ at zero_interval list.now n }
{
    match list.get(n) {
        Some(x) => *x,
        None => Interval::zero(),
    }
}

/// Both centres of node `n`.
fn centres_at(list: &[(Dyadic, Dyadic)], n: usize) -> (Dyadic, Dyadic)
    ensures { result ≡ at (zero_dyadic, zero_dyadic) list.now n }
{
    match list.get(n) {
        Some(centres) => *centres,
        None => (Dyadic::zero(), Dyadic::zero()),
    }
}

/// The coefficients of a form, as a certificate has them.
fn coefs_of(alloc: Global, form: &Affine) -> Result<Items<Dyadic>, AllocError>
    ensures { IfOk result (λ coefs. coefs ≡ form.now.coefs) }
{
    let mut coefs = Vec::new(alloc);
    for j in 0..form.coefs.len() {
        coefs.push(form.coefs.at(j))?;
    }
    Ok(Items::from_vec(coefs))
}

/// A form, as a certificate has it.
fn form_of(
    alloc: Global,
    form: &Affine,
    error_rest: Interval,
    centres: (Dyadic, Dyadic),
) -> Result<Form, AllocError>
    ensures { IfOk result (λ f. Some (form_view f) ≡ planned_form (Some (linear_form form.now)) error_rest centres) }
{
    Ok(Form {
        centre_a: centres.0,
        centre_b: centres.1,
        coefs: coefs_of(alloc, form)?,
        rest: form.rest,
        error_rest,
        range_by: None,
        error_by: None,
    })
}

/// The form of node `n`, if it has one.
fn form_at(alloc: Global, plan: &PlannedNodes, n: usize) -> Result<Option<Form>, AllocError>
    ensures { let p = planned plan.now in
        IfOk result (λ f. option_map form_view f
        ≡ planned_form (at None p.forms n) (at zero_interval p.error_rests n)
        (at (zero_dyadic, zero_dyadic) p.centres n)) }
{
    let rest = interval_at(&plan.error_rests, n);
    let centres = centres_at(&plan.centres, n);
    match plan.forms.get(n) {
        Some(Some(form)) => Ok(Some(form_of(alloc, form, rest, centres)?)),
        _ => Ok(None),
    }
}

/// The line of node `n`.
fn line_at(alloc: Global, plan: &PlannedNodes, n: usize) -> Result<NodeLine, AllocError>
    ensures { IfOk result (λ l. line_view l ≡ planned_line (planned plan.now) n) }
{
    Ok(NodeLine {
        range: interval_at(&plan.ranges, n),
        error: interval_at(&plan.errors, n),
        form: form_at(alloc, plan, n)?,
    })
}

/// The lines of all nodes.
pub fn planned_lines(alloc: Global, plan: &PlannedNodes) -> Result<Vec<NodeLine>, Memory>
    ensures { IfOk result (λ ls. lines_view ls.items ≡ planned_lines (planned plan.now)) }
{
    let mut lines = Vec::new(alloc);
    for n in 0..plan.ranges.len() {
        let line = line_at(alloc, plan, n)?;
        lines.push(line)?;
    }
    Ok(lines)
}

/// One step by a plan.
pub fn step_by_plan<'a>(
    alloc: Global,
    nodes: &Nodes,
    plan: &'a PlannedNodes,
) -> Result<Transition<'a>, Memory>
    requires few { length nodes.now.list ≤ 4000 }
    ensures { IfOk result (λ t. transition_in t ≡ transition_of nodes.now (planned plan.now)) }
{
    let lines = planned_lines(alloc, plan)?;
    let points = plan.points.as_slice();
    Ok(Transition::over(nodes, points, lines))
}
