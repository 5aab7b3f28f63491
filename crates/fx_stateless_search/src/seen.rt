//! What the drafts cost that were tried already.
//!
//! A climb comes by one function again and again: of 1,600 drafts a hundredth of those of `kepler2`, half of those of a
//! cubic, and nearly all of those of a single product. Its attempt costs what it cost before, so that is kept, by a
//! number made of the function's trees. Two functions of one number would only be ranked wrongly. Where two numbers end
//! alike, the later one takes the earlier one's place.

use crate::front::Trial;
use crate::task::Task;
use fx_expr::{Expr, Function};
use fx_moves::Draft;
use fx_num::Memory;
use fx_planning::Cost;
use std::alloc::Global;

/// How many costs are kept.
const SLOTS: usize = 4096;

/// A cost, and the number of its function.
#[derive(Clone, Copy)]
struct Entry {
    key: u64,
    cost: Cost,
}

/// The costs by the ends of their functions' numbers.
#[derive(Drop)]
pub struct Seen {
    slots: Vec<Option<Entry>>,
}

/// A number of both.
fn mixed(key: u64, more: u64) -> u64 {
    let product = (key ^ more).wrapping_mul(0x9e37_79b9_7f4a_7c15);
    product ^ (product >> 32)
}

/// The lower half of a term of a literal. Terms are below `2^62`.
fn half(term: i128) -> u64 {
    (term.unsigned_abs() & 0xffff_ffff_ffff_ffff) as u64
}

/// A number of a tree and of what stands before it.
fn of_tree(key: u64, e: &Expr) -> u64 {
    match e {
        Expr::Lit(c) => {
            let sign = if c.p < 0 { 2 } else { 1 };
            mixed(mixed(mixed(key, sign), half(c.p)), half(c.q))
        }
        Expr::Input(k) => mixed(mixed(key, 3), u64::from(*k)),
        Expr::State(k) => mixed(mixed(key, 4), u64::from(*k)),
        Expr::Temp(k) => mixed(mixed(key, 5), u64::from(*k)),
        Expr::Neg(a) => of_tree(mixed(key, 6), a),
        Expr::Add(a, b) => of_tree(of_tree(mixed(key, 7), a), b),
        Expr::Sub(a, b) => of_tree(of_tree(mixed(key, 8), a), b),
        Expr::Mul(a, b) => of_tree(of_tree(mixed(key, 9), a), b),
        Expr::Div(a, b) => of_tree(of_tree(mixed(key, 10), a), b),
    }
}

/// The number of a function, by its trees.
fn key_of(function: &Function) -> u64 {
    let mut key = 1_u64;
    for temp in function.temps.as_slice() {
        key = of_tree(key, &temp.expr);
    }
    for result in function.results.as_slice() {
        key = of_tree(key, result);
    }
    key
}

/// Where the cost of a function stands.
fn slot_of(key: u64) -> usize {
    (key & 0xffff) as usize % SLOTS
}

impl Seen {
    /// No costs yet.
    pub fn new(alloc: Global) -> Result<Seen, Memory> {
        Ok(Seen {
            slots: vec![in alloc; None; SLOTS]?,
        })
    }

    /// The cost of the function with this number, if it was tried.
    fn cost(&self, key: u64) -> Option<Cost> {
        let entry = self.slots.get(slot_of(key)).copied()??;
        if entry.key == key {
            Some(entry.cost)
        } else {
            None
        }
    }

    /// Keeps the cost of the function with this number.
    fn keep(&mut self, key: u64, cost: Cost) {
        if let Some(slot) = self.slots.get_mut(slot_of(key)) {
            *slot = Some(Entry { key, cost });
        }
    }

    /// The attempt of a draft, which isn't made again where its function was tried.
    pub fn trial(&mut self, alloc: Global, task: Task<'_>, draft: Draft) -> Result<Trial, Memory> {
        let key = key_of(&draft.function);
        match self.cost(key) {
            Some(cost) => Ok(Trial::known(draft, cost)),
            None => {
                let trial = Trial::new(alloc, task, draft)?;
                self.keep(key, trial.cost);
                Ok(trial)
            }
        }
    }
}
