//! Boxes that stand, by value or by error, with the templates that say so.
//!
//! Both are settled alike: something is found in boxes, which begin where the states start, templates are looked for,
//! and a box that doesn't hold the bound of its template is widened. What is found in boxes is behind the trait
//! `Settling`.

use crate::boxes::{hold_all, intervals, next_boxes};
use crate::task::Task;
use fx_cert::{NodeLine, Side, Template};
use fx_num::Memory;
use fx_search_numbers::FixedInterval;
use fx_simplex::Budget;
use fx_template_candidates::{Proposal, propose_templates_within};
use fx_template_reach::Transition;
use std::alloc::Global;

/// How often boxes are widened, at most.
const TURNS: u32 = 32;

/// One kind of boxes, with what is found in them.
pub trait Settling {
    /// What is found in boxes.
    type Found: Drop;

    /// Which bounds the templates have.
    fn side(&self) -> Side;

    /// The points of all nodes, if they have words.
    fn points(&self) -> &[i32];

    /// Where state `k` starts.
    fn start(&self, task: Task<'_>, k: usize) -> Option<FixedInterval>;

    /// What is found in these boxes, with the lines of all nodes.
    fn found_in(
        &self,
        alloc: Global,
        task: Task<'_>,
        boxes: &[FixedInterval],
    ) -> Result<Option<(Self::Found, Vec<NodeLine>)>, Memory>;
}

/// What was found in boxes that hold the bounds of their templates, and the templates.
#[derive(Drop)]
pub struct Settled<F> {
    pub starts: Vec<FixedInterval>,
    pub found: F,
    pub proposal: Proposal,
}

/// Where all states start.
fn starts_of<S: Settling>(
    alloc: Global,
    task: Task<'_>,
    kind: &S,
) -> Result<Option<Vec<FixedInterval>>, Memory> {
    let function = task.function;
    let mut starts = Vec::new(alloc);
    for k in 0..function.states.len() {
        match kind.start(task, k) {
            Some(span) => starts.push(span)?,
            None => return Ok(None),
        }
    }
    Ok(Some(starts))
}

/// Templates for these lines that hold the starts.
fn proposal_for<S: Settling>(
    alloc: Global,
    task: Task<'_>,
    kind: &S,
    starts: &[FixedInterval],
    lines: Vec<NodeLine>,
    before: Option<Proposal>,
    budget: &mut Budget,
) -> Result<Option<Proposal>, Memory> {
    let starts = intervals(alloc, starts)?;
    let t = Transition::over(task.nodes, kind.points(), lines);
    propose_templates_within(alloc, &t, &kind.side(), Some(&starts), before, budget)
}

/// What is found in these boxes, and templates for it that hold the starts.
fn proposed_in<S: Settling>(
    alloc: Global,
    task: Task<'_>,
    kind: &S,
    starts: &[FixedInterval],
    boxes: &[FixedInterval],
    before: Option<Proposal>,
    budget: &mut Budget,
) -> Result<Option<(S::Found, Proposal)>, Memory> {
    let Some((found, lines)) = kind.found_in(alloc, task, boxes)? else {
        return Ok(None);
    };
    match proposal_for(alloc, task, kind, starts, lines, before, budget)? {
        Some(proposal) => Ok(Some((found, proposal))),
        None => Ok(None),
    }
}

/// Widens those boxes that don't hold the bounds of their templates. Whether there is room.
fn widen(
    alloc: Global,
    boxes: &mut Vec<FixedInterval>,
    templates: &[Template],
    turn: u32,
) -> Result<bool, Memory> {
    match next_boxes(alloc, boxes, templates, turn)? {
        Some(next) => {
            *boxes = next;
            Ok(true)
        }
        None => Ok(false),
    }
}

/// What is found in boxes around these starts that hold the bounds of their templates, and the templates.
fn settled_around<S: Settling>(
    alloc: Global,
    task: Task<'_>,
    kind: &S,
    starts: &[FixedInterval],
    first: Option<Proposal>,
    budget: &mut Budget,
) -> Result<Option<(S::Found, Proposal)>, Memory> {
    let mut boxes = Vec::from_slice(alloc, starts)?;
    let mut before = first;
    for turn in 0..TURNS {
        let next = proposed_in(alloc, task, kind, starts, &boxes, before, budget)?;
        let Some((found, proposal)) = next else {
            return Ok(None);
        };
        if hold_all(&boxes, proposal.templates()) {
            return Ok(Some((found, proposal)));
        }
        if !widen(alloc, &mut boxes, proposal.templates(), turn)? {
            return Ok(None);
        }
        before = Some(proposal);
    }
    Ok(None)
}

/// What is found in boxes that hold the bounds of their templates, of which some are kept that were proposed before.
pub fn settle<S: Settling>(
    alloc: Global,
    task: Task<'_>,
    kind: &S,
    first: Option<Proposal>,
    budget: &mut Budget,
) -> Result<Option<Settled<S::Found>>, Memory> {
    let Some(starts) = starts_of(alloc, task, kind)? else {
        return Ok(None);
    };
    match settled_around(alloc, task, kind, &starts, first, budget)? {
        Some((found, proposal)) => Ok(Some(Settled {
            starts,
            found,
            proposal,
        })),
        None => Ok(None),
    }
}
