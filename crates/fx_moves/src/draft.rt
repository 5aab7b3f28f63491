//! A function on its way, and the steps that led to it.
//!
//! A draft is changed in place, one rule at a time. A rule that doesn't match leaves it as it is, and a step that
//! undoes an earlier one takes that away, so that the list of steps stays short.

use crate::rule::inverse;
use crate::trail::Trail;
use fx_expr::{Expr, Function, Items, same};
use fx_num::Memory;
use fx_rewrite::{StepFault, apply};
use fx_step::Step;
use std::alloc::Global;

/// How many steps a draft may have.
#[derive(Clone, Copy)]
pub struct Limits {
    /// The most steps in all,
    steps: usize,
    /// and the most that are drawn at random from where it is taken up.
    drawn: u32,
}

impl Limits {
    /// Many steps, of which few are drawn.
    pub const WIDE: Limits = Limits {
        steps: 1024,
        drawn: 64,
    };

    /// Few steps, all of which may be drawn.
    pub const NARROW: Limits = Limits {
        steps: 64,
        drawn: u32::MAX,
    };
}

/// A function, and the steps that made it of the source's.
#[derive(Drop)]
pub struct Draft {
    pub function: Function,
    pub steps: Trail,
    limits: Limits,
    /// How many steps were drawn since the draft was taken up.
    drawn: u32,
    /// Whether the steps that are made follow a rule, so that they aren't drawn.
    is_directed: bool,
}

/// Where a rule is tried: a tree's number, and a path in it.
#[derive(Drop)]
pub struct Site {
    pub place: u32,
    pub path: Vec<u8>,
}

/// How many trees a function has.
pub fn places(function: &Function) -> u32 {
    let count = function.temps.len().saturating_add(function.results.len());
    u32::try_from(count).unwrap_or(u32::MAX)
}

/// Whether both trees are there and are the same.
fn are_same(first: Option<&Expr>, second: Option<&Expr>) -> bool {
    match (first, second) {
        (Some(a), Some(b)) => same(a, b),
        _ => false,
    }
}

/// A path and what comes below it.
pub fn joined(alloc: Global, path: &[u8], below: &[u8]) -> Result<Vec<u8>, Memory> {
    let mut whole = Vec::from_slice(alloc, path)?;
    whole.extend_from_slice(below)?;
    Ok(whole)
}

impl Draft {
    /// The source as it stands, which may have many steps.
    pub fn new(alloc: Global, source: &Function) -> Result<Draft, Memory> {
        Draft::within(alloc, source, Limits::WIDE)
    }

    /// The source as it stands, with limits to its steps.
    pub fn within(alloc: Global, source: &Function, limits: Limits) -> Result<Draft, Memory> {
        Ok(Draft {
            function: source.copy(alloc)?,
            steps: Trail::new(alloc),
            limits,
            drawn: 0,
            is_directed: false,
        })
    }

    /// An equal draft.
    pub fn copy(&self, alloc: Global) -> Result<Draft, Memory> {
        let steps = self.steps.copy(alloc)?;
        match self.function.copy(alloc) {
            Ok(function) => Ok(Draft {
                function,
                steps,
                limits: self.limits,
                drawn: self.drawn,
                is_directed: self.is_directed,
            }),
            Err(memory) => Err(memory),
        }
    }

    /// Takes the draft up anew: steps are drawn from here.
    pub fn take_up(&mut self) {
        self.drawn = 0;
    }

    /// Has the steps from now on follow a rule, or be drawn, and says which it was.
    pub fn direct(&mut self, is_directed: bool) -> bool {
        let was = self.is_directed;
        self.is_directed = is_directed;
        was
    }

    /// How many steps more there may be.
    pub fn room(&self) -> usize {
        let left = self.limits.steps.saturating_sub(self.steps.len());
        if self.is_directed {
            left
        } else {
            left.min(self.limits.drawn.saturating_sub(self.drawn) as usize)
        }
    }

    /// Whether both functions have the same trees.
    pub fn is_same(&self, other: &Draft) -> bool {
        for place in 0..places(&self.function) {
            if !are_same(self.function.tree(place), other.function.tree(place)) {
                return false;
            }
        }
        true
    }

    /// The tree at a site.
    pub fn at(&self, site: &Site) -> Option<&Expr> {
        match self.function.tree(site.place) {
            Some(tree) => fx_expr::at(tree, &site.path),
            None => None,
        }
    }

    /// Makes a step, if there is room for it and it can be made.
    fn make(&mut self, alloc: Global, step: &Step) -> Result<bool, Memory> {
        if self.room() == 0 {
            return Ok(false);
        }
        match apply(alloc, &mut self.function, step) {
            Ok(()) => {}
            Err(StepFault::Memory) => return Err(Memory),
            Err(_) => return Ok(false),
        }
        if !self.is_directed {
            self.drawn = self.drawn.saturating_add(1);
        }
        self.note(step)?;
        Ok(true)
    }

    /// Notes a step that was made. One that undoes an earlier one takes that away, if nothing behind it is in the way.
    fn note(&mut self, step: &Step) -> Result<(), Memory> {
        let path = step.path.as_slice();
        if let Some(rule) = inverse(step.rule) {
            if self.steps.undo(step.place, path, rule) {
                return Ok(());
            }
        }
        self.steps.push(step.place, path, step.rule)
    }

    /// Applies a rule below a site, and answers whether it matched.
    pub fn apply(
        &mut self,
        alloc: Global,
        site: &Site,
        below: &[u8],
        rule: u8,
    ) -> Result<bool, Memory> {
        let path = joined(alloc, &site.path, below)?;
        let step = Step {
            place: site.place,
            path: Items::from_vec(path),
            rule,
        };
        self.make(alloc, &step)
    }
}
