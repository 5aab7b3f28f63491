//! What all attempts of a search have in common.

use crate::attempt::attempted;
use fx_expr::Function;
use fx_num::{Dyadic, Memory};
use fx_planning::Goal;
use fx_search_numbers::{Grids, Rounded};
use fx_wanted::Wanted;
use std::alloc::Global;

/// A function of more nodes gets fewer tries, so that
const MANY_NODES: u32 = 500;

/// tries by nodes are at most so many.
const WORK_LIMIT: u32 = 1 << 18;

/// The function, what is asked of its program, and what its bounds are measured by.
#[derive(Clone, Copy)]
pub struct Task<'a> {
    pub source: &'a Function,
    pub wanted: Wanted,
    /// About the bounds of the function as it stands.
    pub references: &'a [Rounded],
}

/// How many of these tries serve a function of so many nodes: the first one always.
pub fn affordable(nodes: u32, tries: u32) -> u32 {
    if nodes <= MANY_NODES {
        tries
    } else {
        tries.min((WORK_LIMIT / nodes).max(1))
    }
}

impl<'a> Task<'a> {
    /// How many tries there are, of which the source is the first.
    pub fn tries(self) -> u32 {
        affordable(self.source.nodes(), self.wanted.tries)
    }

    /// What bounds are measured by.
    pub fn goal(self) -> Goal<'a> {
        Goal {
            references: self.references,
        }
    }
}

/// About the bounds of the answer that stands.
fn held_bounds(alloc: Global, held: &[Dyadic]) -> Result<Vec<Rounded>, Memory> {
    let mut bounds = Vec::new(alloc);
    for bound in held {
        bounds.push(Rounded::of(bound.m, bound.e))?;
    }
    Ok(bounds)
}

/// About the bounds of the function as it stands, or those of the answer where no attempt is made of that. They don't
/// depend on the tries, so that more of them go the same way.
pub fn references(
    alloc: Global,
    function: &Function,
    wanted: Wanted,
    held: &[Dyadic],
) -> Result<Vec<Rounded>, Memory> {
    let task = Task {
        source: function,
        wanted,
        references: &[],
    };
    match attempted(alloc, task, function, Grids::FINE)? {
        Ok(attempt) => attempt.bounds(alloc),
        Err(_) => held_bounds(alloc, held),
    }
}
