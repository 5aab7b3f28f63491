//! Templates with 48 binary places, and from where to where each reaches.

use fx_num::Memory;
use std::alloc::Global;

/// Templates of states, and how far each reaches.
#[derive(Drop)]
pub struct Templates {
    /// How many states there are.
    pub states: usize,
    /// The entries, template after template.
    pub(crate) entries: Vec<i128>,
    pub(crate) lo: Vec<i128>,
    pub(crate) hi: Vec<i128>,
}

impl Templates {
    /// None yet.
    pub fn new(alloc: Global, states: usize) -> Templates {
        Templates {
            states,
            entries: Vec::new(alloc),
            lo: Vec::new(alloc),
            hi: Vec::new(alloc),
        }
    }

    /// How many there are.
    pub fn len(&self) -> usize {
        self.lo.len()
    }

    /// Template `i`.
    pub fn template(&self, i: usize) -> &[i128] {
        let from = i.saturating_mul(self.states);
        let to = from.saturating_add(self.states);
        self.entries.as_slice().get(from..to).unwrap_or(&[])
    }

    /// From where to where template `i` reaches.
    pub fn reach(&self, i: usize) -> (i128, i128) {
        let lo = self.lo.get(i).copied().unwrap_or(0);
        let hi = self.hi.get(i).copied().unwrap_or(0);
        (lo, hi)
    }

    /// How wide that is.
    pub fn width(&self, i: usize) -> i128 {
        let (lo, hi) = self.reach(i);
        hi.saturating_sub(lo)
    }

    /// Puts a reach behind the others.
    pub fn push_reach(&mut self, (lo, hi): (i128, i128)) -> Result<(), Memory> {
        self.lo.push(lo)?;
        self.hi.push(hi)?;
        Ok(())
    }
}
