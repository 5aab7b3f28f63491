//! The drafts that a search has found best.

use crate::attempt::attempted;
use crate::task::Task;
use fx_expr::Function;
use fx_moves::Draft;
use fx_num::Memory;
use fx_planning::Cost;
use fx_search_numbers::Grids;
use std::alloc::Global;

/// A draft, and what its attempt costs.
#[derive(Drop)]
pub struct Trial {
    pub draft: Draft,
    pub cost: Cost,
    /// Whether no polishing is left to do.
    pub is_done: bool,
}

/// What the attempt of a function costs.
fn cost_of(alloc: Global, task: Task<'_>, function: &Function) -> Result<Cost, Memory> {
    match attempted(alloc, task, function, Grids::FINE)? {
        Ok(attempt) => {
            let cost = attempt.placed.plan.cost();
            drop(attempt);
            Ok(cost)
        }
        Err(cost) => Ok(cost),
    }
}

impl Trial {
    /// The attempt of a draft.
    pub fn new(alloc: Global, task: Task<'_>, draft: Draft) -> Result<Trial, Memory> {
        let cost = cost_of(alloc, task, &draft.function)?;
        Ok(Trial::known(draft, cost))
    }

    /// A draft whose attempt costs so much.
    pub fn known(draft: Draft, cost: Cost) -> Trial {
        Trial {
            draft,
            cost,
            is_done: false,
        }
    }

    /// An equal trial.
    pub fn copy(&self, alloc: Global) -> Result<Trial, Memory> {
        Ok(Trial {
            draft: self.draft.copy(alloc)?,
            cost: self.cost,
            is_done: self.is_done,
        })
    }
}

/// The cheapest trials, no two of the same cost, the cheapest first.
#[derive(Drop)]
pub struct Front {
    list: Vec<Trial>,
    /// How many are kept.
    most: usize,
}

impl Front {
    /// None yet, of which so many are to be kept.
    pub fn new(alloc: Global, most: usize) -> Front {
        Front {
            list: Vec::new(alloc),
            most,
        }
    }

    /// How many there are.
    pub fn len(&self) -> usize {
        self.list.len()
    }

    /// One of them, from the cheapest on.
    pub fn get(&self, i: usize) -> Option<&Trial> {
        self.list.get(i)
    }

    /// Says of one that no polishing is left to do.
    pub fn finish(&mut self, i: usize) {
        if let Some(trial) = self.list.get_mut(i) {
            trial.is_done = true;
        }
    }

    /// How many are cheaper than a trial of this cost, unless one costs the same.
    fn place(&self, cost: Cost) -> Option<usize> {
        let mut place: usize = 0;
        for other in &self.list {
            if other.cost == cost {
                return None;
            }
            if other.cost < cost {
                place = place.saturating_add(1);
            }
        }
        Some(place)
    }

    /// Puts a trial before those that stand from a place on.
    fn put(&mut self, place: usize, trial: Trial) -> Result<(), Memory> {
        if place <= self.list.len() {
            self.list.insert(place, trial)?;
        }
        Ok(())
    }

    /// Keeps a copy of a trial that is among the best, and answers whether it is better than all others.
    pub fn keep(&mut self, alloc: Global, trial: &Trial) -> Result<bool, Memory> {
        let Some(place) = self.place(trial.cost) else {
            return Ok(false);
        };
        if place >= self.most {
            return Ok(false);
        }
        let copy = trial.copy(alloc)?;
        self.put(place, copy)?;
        if self.list.len() > self.most {
            drop(self.list.pop());
        }
        Ok(place == 0)
    }
}
