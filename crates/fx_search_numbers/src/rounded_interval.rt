//! Intervals of rounded numbers.

use crate::fixed_interval::FixedInterval;
use crate::rounded::Rounded;

/// The numbers from one to another.
#[derive(Clone, Copy, Debug)]
pub struct RoundedInterval {
    pub lo: Rounded,
    pub hi: Rounded,
}

impl RoundedInterval {
    /// Zero alone.
    pub const ZERO: RoundedInterval = RoundedInterval {
        lo: Rounded::ZERO,
        hi: Rounded::ZERO,
    };

    /// One alone.
    pub const ONE: RoundedInterval = RoundedInterval {
        lo: Rounded::ONE,
        hi: Rounded::ONE,
    };

    /// About a range.
    pub fn of(range: FixedInterval) -> RoundedInterval {
        RoundedInterval {
            lo: Rounded::of(range.lo, range.e),
            hi: Rounded::of(range.hi, range.e),
        }
    }

    /// The sum.
    pub fn plus(self, other: RoundedInterval) -> RoundedInterval {
        RoundedInterval {
            lo: self.lo.plus(other.lo),
            hi: self.hi.plus(other.hi),
        }
    }

    /// The product with a number above zero.
    pub fn scaled(self, by: Rounded) -> RoundedInterval {
        RoundedInterval {
            lo: self.lo.times(by),
            hi: self.hi.times(by),
        }
    }

    /// The numbers with the other sign.
    pub fn negative(self) -> RoundedInterval {
        RoundedInterval {
            lo: self.hi.negative(),
            hi: self.lo.negative(),
        }
    }

    /// The product.
    pub fn times(self, other: RoundedInterval) -> RoundedInterval {
        let ll = self.lo.times(other.lo);
        let lh = self.lo.times(other.hi);
        let hl = self.hi.times(other.lo);
        let hh = self.hi.times(other.hi);
        RoundedInterval {
            lo: ll.min(lh).min(hl.min(hh)),
            hi: ll.max(lh).max(hl.max(hh)),
        }
    }

    /// One by it, where it is away from zero.
    pub fn inverse(self) -> RoundedInterval {
        RoundedInterval {
            lo: Rounded::ONE.over(self.hi),
            hi: Rounded::ONE.over(self.lo),
        }
    }

    /// Whether it is zero alone.
    pub fn is_zero(self) -> bool {
        self.lo.is_zero() && self.hi.is_zero()
    }
}
