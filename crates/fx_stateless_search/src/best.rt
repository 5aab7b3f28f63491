//! The best polished attempt so far.
//!
//! A plan's errors are those that the checker certifies, so the best is known before anything is written. It stays
//! until another is better: no bound above its, and one below.

use crate::attempt::{Attempt, attempted};
use crate::front::Trial;
use crate::polish::Polish;
use crate::task::Task;
use fx_moves::Draft;
use fx_num::Memory;
use fx_planning::Cost;
use fx_search_numbers::{FixedInterval, Grids, Rounded};
use std::alloc::Global;
use std::mem::replace;

/// A draft with its polished attempt.
#[derive(Drop)]
pub struct Polished {
    pub draft: Draft,
    pub attempt: Attempt,
}

/// How far an attempt is from what its outputs have to keep.
fn excess(attempt: &Attempt) -> Rounded {
    match attempt.placed.plan.cost() {
        Cost::Planned { excess, .. } => excess,
        Cost::Unplanned { .. } => Rounded::INFINITE,
    }
}

/// Whether one bound is below another.
fn is_smaller(a: Option<FixedInterval>, b: Option<FixedInterval>) -> bool {
    match (a, b) {
        (Some(x), Some(y)) => x.is_smaller(y).unwrap_or(false),
        _ => false,
    }
}

/// Whether an attempt has no bound above another's, and one below.
fn has_smaller_bounds(attempt: &Attempt, other: &Attempt) -> bool {
    let mut is_below = false;
    for j in 0..attempt.outputs() {
        let own = attempt.output(j);
        let others = other.output(j);
        if is_smaller(others, own) {
            return false;
        }
        if is_smaller(own, others) {
            is_below = true;
        }
    }
    is_below
}

/// Whether an attempt is better than another: it keeps more of what is demanded, or else has smaller bounds.
fn is_better(attempt: &Attempt, other: &Attempt) -> bool {
    let own = excess(attempt);
    let others = excess(other);
    own < others || (own == others && has_smaller_bounds(attempt, other))
}

/// Whether an attempt is better than the best so far, if there is one.
fn is_best(attempt: &Attempt, best: &Option<Polished>) -> bool {
    match best {
        Some(other) => is_better(attempt, &other.attempt),
        None => true,
    }
}

/// The polished attempt of a draft on grids, if there is an attempt. So many plans may be looked at; the others are
/// left.
pub fn polished_attempt(
    alloc: Global,
    task: Task<'_>,
    draft: &Draft,
    grids: Grids,
    plans: &mut u32,
) -> Result<Option<Attempt>, Memory> {
    match attempted(alloc, task, &draft.function, grids)? {
        Ok(mut attempt) => {
            let mut polish = Polish::new(alloc, task, &draft.function, *plans);
            polish.run(&mut attempt)?;
            *plans = polish.left();
            Ok(Some(attempt))
        }
        Err(_) => Ok(None),
    }
}

/// Lets an attempt of a draft take the best one's place.
fn put_best(
    alloc: Global,
    draft: &Draft,
    attempt: Attempt,
    best: &mut Option<Polished>,
) -> Result<(), Memory> {
    match draft.copy(alloc) {
        Ok(draft) => {
            drop(replace(best, Some(Polished { draft, attempt })));
            Ok(())
        }
        Err(fault) => {
            drop(attempt);
            Err(fault)
        }
    }
}

/// Polishes a trial, and lets it take the best one's place.
pub fn polish_trial(
    alloc: Global,
    task: Task<'_>,
    trial: &Trial,
    best: &mut Option<Polished>,
    plans: &mut u32,
) -> Result<(), Memory> {
    let Some(attempt) = polished_attempt(alloc, task, &trial.draft, Grids::FINE, plans)? else {
        return Ok(());
    };
    if is_best(&attempt, best) {
        put_best(alloc, &trial.draft, attempt, best)
    } else {
        drop(attempt);
        Ok(())
    }
}
