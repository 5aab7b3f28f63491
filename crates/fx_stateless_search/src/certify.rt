//! From an attempt to a certified program.
//!
//! What is written is judged by the checker. Where it refuses, a formula mostly left 128 bits, and the same attempt is
//! made on coarser grids.
ghost use Rattle.std.specs.Prelude.{IfOk};
ghost use Rattle.fx_checker.specs.Answers.{IsOffered};

use crate::attempt::Attempt;
use crate::best::{Polished, polished_attempt};
use crate::task::Task;
use fx_checker::{Certified, judge_candidate};
use fx_moves::Draft;
use fx_num::{Dyadic, Memory, dle};
use fx_search_numbers::Grids;
use fx_step::Step;
use fx_writing::write;
use std::alloc::Global;

/// What the checker makes of an attempt behind these steps.
fn judged_after(
    alloc: Global,
    task: Task<'_>,
    steps: &[Step],
    attempt: &Attempt,
) -> Result<Option<Certified>, Memory>
    ensures { IfOk result (IsOffered task.entry.wanted task.entry.source.now) }
{
    let plan = &attempt.placed.plan;
    let written = write(
        alloc,
        task.source,
        steps,
        &attempt.nodes,
        &attempt.ranges,
        plan,
    )?;
    judge_candidate(alloc, task.source, task.wanted, written)
}

/// What the checker makes of an attempt of a draft.
fn judged_draft(
    alloc: Global,
    task: Task<'_>,
    draft: &Draft,
    attempt: &Attempt,
) -> Result<Option<Certified>, Memory>
    ensures { IfOk result (IsOffered task.entry.wanted task.entry.source.now) }
{
    let steps = draft.steps.steps(alloc)?;
    judged_after(alloc, task, &steps, attempt)
}

/// What the checker makes of a draft on grids, polished by looking at so many plans.
fn certified_on(
    alloc: Global,
    task: Task<'_>,
    draft: &Draft,
    plans: u32,
    grids: Grids,
) -> Result<Option<Certified>, Memory>
    ensures { IfOk result (IsOffered task.entry.wanted task.entry.source.now) }
{
    let mut left = plans;
    match polished_attempt(alloc, task, draft, grids, &mut left)? {
        Some(attempt) => {
            let certified = judged_draft(alloc, task, draft, &attempt);
            drop(attempt);
            certified
        }
        None => Ok(None),
    }
}

/// The certified program of a polished attempt, or of its draft on the finest grids on which there is one.
pub fn certified_as(
    alloc: Global,
    task: Task<'_>,
    found: &Polished,
    plans: u32,
) -> Result<Option<Certified>, Memory>
    ensures { IfOk result (IsOffered task.entry.wanted task.entry.source.now) }
{
    match judged_draft(alloc, task, &found.draft, &found.attempt)? {
        Some(certified) => Ok(Some(certified)),
        None => certified(alloc, task, &found.draft, plans),
    }
}

/// The certified program of a draft, on the first of two grids on which there is one.
fn certified_on_either(
    alloc: Global,
    task: Task<'_>,
    draft: &Draft,
    plans: u32,
    first: Grids,
    second: Grids,
) -> Result<Option<Certified>, Memory>
    ensures { IfOk result (IsOffered task.entry.wanted task.entry.source.now) }
{
    match certified_on(alloc, task, draft, plans, first)? {
        Some(certified) => Ok(Some(certified)),
        None => certified_on(alloc, task, draft, plans, second),
    }
}

/// The certified program of a draft, on the finest grids on which there is one.
pub fn certified(
    alloc: Global,
    task: Task<'_>,
    draft: &Draft,
    plans: u32,
) -> Result<Option<Certified>, Memory>
    ensures { IfOk result (IsOffered task.entry.wanted task.entry.source.now) }
{
    match certified_on_either(alloc, task, draft, plans, Grids::FINE, Grids::COARSE)? {
        Some(certified) => Ok(Some(certified)),
        None => certified_on_either(alloc, task, draft, plans, Grids::COARSEST, Grids::SHORT),
    }
}

/// Whether no bound is above the one that stands.
pub fn keeps(certified: &Certified, held: &[Dyadic]) -> bool {
    for j in 0..certified.program().outputs {
        if let Some(bound) = held.get(j as usize) {
            if !dle(certified.bound(j), *bound) {
                return false;
            }
        }
    }
    true
}
