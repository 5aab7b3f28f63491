//! How much work exchanges may still be.

/// How many products the exchanges of one synthesis may come to.
const MOST: u64 = 1 << 32;

/// What is left of the work that exchanges may come to, in products.
#[derive(Drop)]
pub struct Budget {
    left: u64,
}

impl Budget {
    /// What one synthesis may spend.
    pub fn whole() -> Budget {
        Budget { left: MOST }
    }

    /// Takes so much, if there is as much. Else nothing is left.
    pub fn take(&mut self, work: u64) -> bool {
        let is_enough = work <= self.left;
        self.left = if is_enough {
            self.left.saturating_sub(work)
        } else {
            0
        };
        is_enough
    }

    /// Half of it, taken off. What isn't spent of it is given back.
    pub fn half(&mut self) -> Budget {
        let left = self.left >> 1;
        self.left = self.left.saturating_sub(left);
        Budget { left }
    }

    /// Gives back what is left of another.
    pub fn give_back(&mut self, other: Budget) {
        self.left = self.left.saturating_add(other.left);
    }

    /// Whether nothing is left.
    pub fn is_spent(&self) -> bool {
        self.left == 0
    }
}
