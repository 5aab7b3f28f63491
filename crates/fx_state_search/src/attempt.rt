//! An attempt: boxes, points and errors of a function, checked, on finer and coarser grids.

ghost use Rattle.std.specs.Prelude.{IfOk};
ghost use Rattle.fx_checker.specs.Answers.{IsOffered};

use crate::boxes::intervals;
use crate::narrow::{narrow_outputs, narrow_ranges, put_shares};
use crate::point::{caps_of_negated, caps_of_operands, decider, greatest_points, lowered_caps};
use crate::settle::{Settled, settle};
use crate::sides::{OfErrors, OfValues};
use crate::task::Task;
use fx_cert::{NodeLine, Share, StartBox};
use fx_checker::{Certified, judge_candidate};
use fx_expr::Items;
use fx_flat::Nodes;
use fx_num::Memory;
use fx_planning::Plan;
use fx_ranges::Ranges;
use fx_search_numbers::{FixedInterval, Grids};
use fx_simplex::Budget;
use fx_template_candidates::Proposal;
use fx_writing::{Kept, plan_lines, write_with_states};
use std::alloc::Global;

/// How often points are chosen again, at most.
const TURNS: u32 = 12;

/// Ranges in boxes that stand, and for each node the shares that show its range, if templates do.
#[derive(Drop)]
struct Values {
    settled: Settled<Ranges>,
    shares: Vec<Option<Items<Share>>>,
}

/// Points, and a plan at them with error boxes that stand.
#[derive(Drop)]
struct Errors {
    points: Vec<i32>,
    settled: Settled<Plan>,
}

/// The points up to these caps, with products no finer than what they go into.
fn points_within(
    alloc: Global,
    task: Task<'_>,
    ranges: &Ranges,
    caps: &[i32],
) -> Result<Option<Vec<i32>>, Memory> {
    let nodes = task.nodes.list.as_slice();
    let caps = caps_of_negated(alloc, nodes, ranges, task.wanted.width, caps)?;
    let Some(points) = greatest_points(alloc, task, ranges, &caps, false)? else {
        return Ok(None);
    };
    let caps = lowered_caps(alloc, nodes, &points, &caps)?;
    let caps = caps_of_operands(alloc, task, ranges, caps)?;
    greatest_points(alloc, task, ranges, &caps, true)
}

/// Puts the caps of what decides too small words below their points.
fn lower(nodes: &Nodes, caps: &mut [i32], points: &[i32], small: &[u32]) {
    for n in small {
        let n = decider(nodes, *n as usize);
        if let (Some(cap), Some(point)) = (caps.get_mut(n), points.get(n)) {
            *cap = (*cap).min(*point).saturating_sub(1);
        }
    }
}

/// Errors at the points up to these caps.
fn errors_within(
    alloc: Global,
    task: Task<'_>,
    ranges: &Ranges,
    caps: &[i32],
    before: Option<Proposal>,
    budget: &mut Budget,
) -> Result<Option<Errors>, Memory> {
    let Some(points) = points_within(alloc, task, ranges, caps)? else {
        return Ok(None);
    };
    let kind = OfErrors {
        ranges,
        points: &points,
    };
    match settle(alloc, task, &kind, before, budget)? {
        Some(settled) => Ok(Some(Errors { points, settled })),
        None => Ok(None),
    }
}

/// Errors at points at which no word is too small.
fn backed_off(
    alloc: Global,
    task: Task<'_>,
    ranges: &Ranges,
    budget: &mut Budget,
) -> Result<Option<Errors>, Memory> {
    let mut caps = vec![in alloc; 62_i32; task.nodes.list.len()]?;
    let mut before = None;
    for _turn in 0..TURNS {
        let Some(errors) = errors_within(alloc, task, ranges, &caps, before, budget)? else {
            return Ok(None);
        };
        let small = errors.settled.found.small();
        if small.is_empty() {
            return Ok(Some(errors));
        }
        lower(task.nodes, &mut caps, &errors.points, small);
        let Errors { settled, .. } = errors;
        before = Some(settled.proposal);
    }
    Ok(None)
}

/// The boxes in which the states start, by value and by error.
fn start_boxes(
    alloc: Global,
    values: &[FixedInterval],
    errors: &[FixedInterval],
) -> Result<Vec<StartBox>, Memory> {
    let ranges = intervals(alloc, values)?;
    let words = intervals(alloc, errors)?;
    let mut boxes = Vec::new(alloc);
    for (range, error) in ranges.iter().zip(&words) {
        boxes.push(StartBox {
            range: *range,
            error: *error,
        })?;
    }
    Ok(boxes)
}

/// The lines of all nodes, with the outputs' errors narrowed.
fn narrowed_lines(
    alloc: Global,
    task: Task<'_>,
    values: &mut Values,
    errors: &Errors,
    budget: &mut Budget,
) -> Result<Vec<NodeLine>, Memory> {
    let Settled {
        found,
        proposal,
        ..
    } = &errors.settled;
    let mut lines = plan_lines(alloc, task.nodes, &values.settled.found, found)?;
    put_shares(&mut lines, &mut values.shares);
    let templates = proposal.templates();
    narrow_outputs(
        alloc,
        task.nodes,
        &mut lines,
        templates,
        &errors.points,
        budget,
    )?;
    Ok(lines)
}

/// Where the states start, and the lines of all nodes.
fn starts_and_lines(
    alloc: Global,
    task: Task<'_>,
    values: &mut Values,
    errors: &Errors,
    budget: &mut Budget,
) -> Result<(Vec<StartBox>, Vec<NodeLine>), Memory> {
    let starts = start_boxes(alloc, &values.settled.starts, &errors.settled.starts)?;
    let lines = narrowed_lines(alloc, task, values, errors, budget)?;
    Ok((starts, lines))
}

/// The plan, and what one step keeps.
fn plan_and_kept(starts: Vec<StartBox>, values: Values, errors: Errors) -> (Plan, Kept) {
    let Values {
        settled: values,
        ..
    } = values;
    let Errors {
        settled: errors,
        ..
    } = errors;
    let kept = Kept {
        starts,
        templates: values.proposal.into_templates(),
        error_templates: errors.proposal.into_templates(),
    };
    (errors.found, kept)
}

/// What was settled, written and checked.
fn checked(
    alloc: Global,
    task: Task<'_>,
    values: Values,
    errors: Errors,
    budget: &mut Budget,
) -> Result<Option<Certified>, Memory>
    ensures { IfOk result (IsOffered task.entry.wanted task.entry.source.now) }
{
    let mut values = values;
    let (starts, lines) = starts_and_lines(alloc, task, &mut values, &errors, budget)?;
    let (plan, kept) = plan_and_kept(starts, values, errors);
    let written = write_with_states(
        alloc,
        task.source,
        task.steps,
        task.nodes,
        &plan,
        lines,
        kept,
    )?;
    judge_candidate(alloc, task.source, task.wanted, written)
}

/// Boxes of values that stand, and ranges narrowed by their templates.
fn narrowed_values(
    alloc: Global,
    task: Task<'_>,
    budget: &mut Budget,
) -> Result<Option<Values>, Memory> {
    let mut own = budget.half();
    let Some(mut settled) = settle(alloc, task, &OfValues, None, &mut own)? else {
        return Ok(None);
    };
    let templates = settled.proposal.templates();
    // of all that exchanges do this matters least, and it may be thousands of nodes
    let mut rest = own.half();
    let shares = narrow_ranges(alloc, task, &mut settled.found, templates, &mut rest)?;
    budget.give_back(own);
    budget.give_back(rest);
    Ok(Some(Values { settled, shares }))
}

/// An attempt on these grids.
fn attempted(
    alloc: Global,
    task: Task<'_>,
    budget: &mut Budget,
) -> Result<Option<Certified>, Memory>
    ensures { IfOk result (IsOffered task.entry.wanted task.entry.source.now) }
{
    let Some(values) = narrowed_values(alloc, task, budget)? else {
        return Ok(None);
    };
    match backed_off(alloc, task, &values.settled.found, budget)? {
        Some(errors) => checked(alloc, task, values, errors, budget),
        None => Ok(None),
    }
}

/// An attempt on the finest grids on which there is one.
pub fn certified(
    alloc: Global,
    task: Task<'_>,
    budget: &mut Budget,
) -> Result<Option<Certified>, Memory>
    ensures { IfOk result (IsOffered task.entry.wanted task.entry.source.now) }
{
    for grids in [Grids::FINE, Grids::COARSE, Grids::COARSEST, Grids::SHORT] {
        let mut own = budget.half();
        match attempted(alloc, Task { grids, ..task }, &mut own)? {
            Some(found) => return Ok(Some(found)),
            None => budget.give_back(own),
        }
    }
    Ok(None)
}
