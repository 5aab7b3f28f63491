//! Coefficients: a row for each node, with a place for each input.
//!
//! They are one array that is made before the pass, so that a node's form is written without asking for memory. A node
//! without a form has a row of zeros.

use fx_num::Memory;
use std::alloc::Global;

/// The rows of all nodes.
#[derive(Drop)]
pub struct Coefficients {
    width: usize,
    list: Vec<i128>,
}

impl Coefficients {
    /// `count` rows of `width` zeros, and None where their number leaves its type.
    pub fn new(alloc: Global, count: usize, width: usize) -> Result<Option<Coefficients>, Memory> {
        match count.checked_mul(width) {
            Some(size) => {
                let list = vec![in alloc; 0_i128; size]?;
                Ok(Some(Coefficients { width, list }))
            }
            None => Ok(None),
        }
    }

    /// How long a row is.
    pub fn width(&self) -> usize {
        self.width
    }

    /// The row of a node.
    pub fn row(&self, n: usize) -> &[i128] {
        let from = n.saturating_mul(self.width);
        let to = from.saturating_add(self.width);
        self.list.as_slice().get(from..to).unwrap_or(&[])
    }

    /// Where a coefficient stands. No list reaches the last place of all, which stands for those behind it.
    fn place(&self, n: usize, k: usize) -> usize {
        n.saturating_mul(self.width).saturating_add(k)
    }

    /// The coefficient at a place.
    pub fn at(&self, n: usize, k: usize) -> Option<i128> {
        self.list.get(self.place(n, k)).copied()
    }

    /// Puts a coefficient at a place, and answers whether there is such a place.
    pub fn put(&mut self, n: usize, k: usize, m: i128) -> bool {
        let place = self.place(n, k);
        match self.list.get_mut(place) {
            Some(coefficient) => {
                *coefficient = m;
                true
            }
            None => false,
        }
    }

    /// Makes a row zero again.
    pub fn clear(&mut self, n: usize) {
        for k in 0..self.width {
            let _ = self.put(n, k, 0);
        }
    }
}
