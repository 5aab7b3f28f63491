//! Ends of a bound as whole numbers.

use fx_num::{Interval, Memory};
use fx_template_reach::{ceil_at, floor_at, moved_down};
use std::alloc::Global;

/// Ends of a bound, whole at the power of two of its template.
#[derive(Clone, Copy)]
pub struct Ends {
    pub lo: i128,
    pub hi: i128,
}

impl Ends {
    /// These, if both are there.
    pub fn of(lo: Option<i128>, hi: Option<i128>) -> Option<Ends> {
        match (lo, hi) {
            (Some(lo), Some(hi)) => Some(Ends { lo, hi }),
            _ => None,
        }
    }

    /// Those of an interval with so many binary places, outward.
    pub fn around(x: Interval, places: i32) -> Option<Ends> {
        Ends::of(floor_at(x.lo, places), ceil_at(x.hi, places))
    }

    /// How wide they are.
    pub fn width(self) -> i128 {
        self.hi.saturating_sub(self.lo)
    }

    /// Whether others lie in them.
    pub fn hold(self, other: Ends) -> bool {
        self.lo <= other.lo && other.hi <= self.hi
    }

    /// What holds both.
    pub fn and(self, other: Ends) -> Ends {
        Ends {
            lo: self.lo.min(other.lo),
            hi: self.hi.max(other.hi),
        }
    }

    /// What both hold.
    pub fn cut(self, other: Ends) -> Ends {
        Ends {
            lo: self.lo.max(other.lo),
            hi: self.hi.min(other.hi),
        }
    }

    /// With so many times others.
    pub fn plus(self, times: i128, other: Ends) -> Option<Ends> {
        match (times.checked_mul(other.lo), times.checked_mul(other.hi)) {
            (Some(a), Some(b)) => Ends::of(
                self.lo.checked_add(a.min(b)),
                self.hi.checked_add(a.max(b)),
            ),
            _ => None,
        }
    }

    /// Wider by `2^-k` of the width on both sides.
    pub fn widened(self, k: i32) -> Option<Ends> {
        match plus(moved_down(self.width(), k), 1) {
            Some(more) => Ends::of(self.lo.checked_sub(more), self.hi.checked_add(more)),
            None => None,
        }
    }
}

/// The sum of a number, if it is there, and another.
pub fn plus(a: Option<i128>, b: i128) -> Option<i128> {
    match a {
        Some(a) => a.checked_add(b),
        None => None,
    }
}

/// All bounds wider by `2^-k` of their widths on both sides.
pub fn widened(alloc: Global, bounds: &[Ends], k: i32) -> Result<Option<Vec<Ends>>, Memory> {
    let mut wider = Vec::new(alloc);
    for ends in bounds {
        match ends.widened(k) {
            Some(ends) => wider.push(ends)?,
            None => return Ok(None),
        }
    }
    Ok(Some(wider))
}
