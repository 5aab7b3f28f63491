//! Narrower ranges of all nodes, and errors of the outputs, by the templates that stand.
//!
//! What is made of several states lies closer than its states do one by one, where they cancel. The templates know
//! that, and an exchange finds which of them to take. Ranges are narrowed before there are points, in the order of the
//! nodes.

use crate::boxes::span_of;
use crate::task::Task;
use fx_cert::{Form, NodeLine, Share, Template};
use fx_expr::Items;
use fx_flat::Nodes;
use fx_num::{Dyadic, Interval, Memory, dle, lowest, outward};
use fx_ranges::Ranges;
use fx_search_numbers::FixedInterval;
use fx_simplex::{Apart, Budget, Combination, ScaledTemplates, pool_of, take_apart};
use fx_template_reach::magnitude;
use fx_writing::range_lines;
use std::alloc::Global;

/// How many places behind its point an error has,
const ERROR_PLACES: i32 = 16;

/// and how many bits at most.
const ERROR_BITS: i32 = 60;

/// Where the inputs lie, and templates of the states, which are scaled once for all nodes.
#[derive(Clone, Copy)]
struct Standing<'a> {
    spans: &'a [Interval],
    templates: &'a [Template],
    scaled: &'a ScaledTemplates<'a>,
}

impl<'a> Standing<'a> {
    /// A form's part in the variables and a rest, by templates.
    fn apart(
        self,
        alloc: Global,
        coefs: &[Dyadic],
        rest: Interval,
        budget: &mut Budget,
    ) -> Result<Option<Apart>, Memory> {
        let combination = Combination {
            coefs,
            spans: self.spans,
            rest,
        };
        take_apart(alloc, &combination, self.templates, self.scaled, budget)
    }
}

/// In lowest terms.
fn in_lowest_terms(d: Dyadic) -> Dyadic {
    lowest(d.m, d.e)
}

/// An error on the grid of its point, outward, or on a coarser one, since no text has a longer mantissa than 62 bits.
fn on_grid(x: Interval, point: i32) -> Interval {
    let fine = point.saturating_add(ERROR_PLACES);
    let few = ERROR_BITS.saturating_sub(magnitude(x).unwrap_or(0));
    let e = fine.min(few).clamp(0, 90);
    let wider = outward(x, e.unsigned_abs());
    Interval {
        lo: in_lowest_terms(wider.lo),
        hi: in_lowest_terms(wider.hi),
    }
}

/// Whether an interval lies in another and isn't the same.
fn is_narrower(x: Interval, other: Interval) -> bool {
    dle(other.lo, x.lo) && dle(x.hi, other.hi) && x != other
}

/// Where the errors of all inputs lie.
fn input_errors(alloc: Global, lines: &[NodeLine], inputs: u32) -> Result<Vec<Interval>, Memory> {
    let mut spans = Vec::new(alloc);
    for line in lines.iter().take(inputs as usize) {
        spans.push(line.error)?;
    }
    Ok(spans)
}

/// A form's error by templates, if that is narrower.
fn error_by_templates(
    alloc: Global,
    form: &mut Form,
    error: Interval,
    standing: Standing<'_>,
    point: i32,
    budget: &mut Budget,
) -> Result<Option<Interval>, Memory> {
    let found = standing.apart(alloc, form.coefs.as_slice(), form.error_rest, budget)?;
    let Some(apart) = found else {
        return Ok(None);
    };
    let bound = on_grid(apart.bound, point);
    if !is_narrower(bound, error) {
        return Ok(None);
    }
    form.error_by = Some(apart.shares);
    Ok(Some(bound))
}

/// Narrows the error of a line.
fn narrow_line(
    alloc: Global,
    line: &mut NodeLine,
    standing: Standing<'_>,
    point: i32,
    budget: &mut Budget,
) -> Result<(), Memory> {
    let error = line.error;
    if let Some(form) = &mut line.form {
        if let Some(narrower) = error_by_templates(alloc, form, error, standing, point, budget)? {
            line.error = narrower;
        }
    }
    Ok(())
}

/// Narrows the errors of all outputs by the templates of errors.
pub fn narrow_outputs(
    alloc: Global,
    nodes: &Nodes,
    lines: &mut Vec<NodeLine>,
    templates: &[Template],
    points: &[i32],
    budget: &mut Budget,
) -> Result<(), Memory> {
    let spans = input_errors(alloc, lines, nodes.inputs)?;
    let states = nodes.states as usize;
    let pool = pool_of(alloc, templates, states)?;
    let standing = Standing {
        spans: &spans,
        templates,
        scaled: &ScaledTemplates::of(alloc, &pool)?,
    };
    let end = nodes.list.len().saturating_sub(states);
    let start = end.saturating_sub(nodes.outputs as usize);
    for n in start..end {
        let point = points.get(n).copied().unwrap_or(0);
        if let Some(line) = lines.get_mut(n) {
            narrow_line(alloc, line, standing, point, budget)?;
        }
    }
    Ok(())
}

/// Takes the bounds of the unit templates for the ranges of the states.
fn narrow_states(ranges: &mut Ranges, templates: &[Template], inputs: usize, states: usize) {
    for (k, template) in templates.iter().take(states).enumerate() {
        if let Some(span) = span_of(template.bound) {
            ranges.put_span(inputs.saturating_add(k), span);
        }
    }
}

/// Where the values of all inputs lie.
fn input_ranges(alloc: Global, lines: &[NodeLine], inputs: usize) -> Result<Vec<Interval>, Memory> {
    let mut spans = Vec::new(alloc);
    for line in lines.iter().take(inputs) {
        spans.push(line.range)?;
    }
    Ok(spans)
}

/// Whether a form takes something of several states: of one alone no template says more than its unit template.
fn has_several_states(form: &Form, inputs: usize) -> bool {
    let mut has_one = false;
    for coef in form.coefs.as_slice().iter().skip(inputs) {
        if coef.m != 0 {
            if has_one {
                return true;
            }
            has_one = true;
        }
    }
    false
}

/// The range of a line by templates, and the shares that show it.
fn range_by_templates(
    alloc: Global,
    task: Task<'_>,
    line: &NodeLine,
    standing: Standing<'_>,
    budget: &mut Budget,
) -> Result<Option<(FixedInterval, Items<Share>)>, Memory> {
    let Some(form) = &line.form else {
        return Ok(None);
    };
    if !has_several_states(form, standing.spans.len()) {
        return Ok(None);
    }
    let Some(apart) = standing.apart(alloc, form.coefs.as_slice(), form.rest, budget)? else {
        return Ok(None);
    };
    match span_of(apart.bound) {
        Some(span) => Ok(Some((task.grids.rounded(span), apart.shares))),
        None => Ok(None),
    }
}

/// Narrows the range of node `n`, and gives the shares that show it, if templates do.
fn narrow_node(
    alloc: Global,
    task: Task<'_>,
    ranges: &mut Ranges,
    n: usize,
    line: &NodeLine,
    standing: Standing<'_>,
    budget: &mut Budget,
) -> Result<Option<Items<Share>>, Memory> {
    let Some(node) = task.nodes.list.as_slice().get(n) else {
        return Ok(None);
    };
    match range_by_templates(alloc, task, line, standing, budget)? {
        Some((span, shares)) => if ranges.narrow(n, node, Some(span)) {
            Ok(Some(shares))
        } else {
            Ok(None)
        },
        None => {
            ranges.narrow(n, node, None);
            Ok(None)
        }
    }
}

/// Narrows all ranges by these templates, and gives the shares that show them, node by node.
pub fn narrow_ranges(
    alloc: Global,
    task: Task<'_>,
    ranges: &mut Ranges,
    templates: &[Template],
    budget: &mut Budget,
) -> Result<Vec<Option<Items<Share>>>, Memory> {
    let inputs = task.nodes.inputs as usize;
    let states = task.nodes.states as usize;
    let lines = range_lines(alloc, task.nodes, ranges)?;
    let spans = input_ranges(alloc, &lines, inputs)?;
    let pool = pool_of(alloc, templates, states)?;
    let standing = Standing {
        spans: &spans,
        templates,
        scaled: &ScaledTemplates::of(alloc, &pool)?,
    };
    narrow_states(ranges, templates, inputs, states);
    let mut shares = Vec::new(alloc);
    for (n, line) in lines.iter().enumerate() {
        shares.push(narrow_node(alloc, task, ranges, n, line, standing, budget)?)?;
    }
    Ok(shares)
}

/// Puts the shares that show ranges into the lines.
pub fn put_shares(lines: &mut [NodeLine], shares: &mut [Option<Items<Share>>]) {
    for (line, own) in lines.iter_mut().zip(shares) {
        if let Some(form) = &mut line.form {
            if own.is_some() {
                form.range_by = own.take();
            }
        }
    }
}
