//! Intervals of which a mantissa may have left 128 bits: a formula of them has no way out at each step.
//!
//! A `?` at each operation makes a function that is proved slowly, and hides the formula. Here an operation on none
//! gives none, and whoever wants the interval asks once, at the end.

use crate::fixed_interval::FixedInterval;
use fx_num::Dyadic;

/// An interval, or none.
#[derive(Clone, Copy)]
pub struct MaybeInterval {
    span: Option<FixedInterval>,
}

impl MaybeInterval {
    /// None.
    pub const NONE: MaybeInterval = MaybeInterval { span: None };

    /// Zero alone.
    pub const ZERO: MaybeInterval = MaybeInterval {
        span: Some(FixedInterval::ZERO),
    };

    /// An interval.
    pub fn some(span: FixedInterval) -> MaybeInterval {
        MaybeInterval { span: Some(span) }
    }

    /// An interval, if there is one.
    pub fn of(span: Option<FixedInterval>) -> MaybeInterval {
        MaybeInterval { span }
    }

    /// One number alone.
    pub fn single(d: Dyadic) -> MaybeInterval {
        MaybeInterval::some(FixedInterval::single(d))
    }

    /// The interval, if there is one.
    pub fn get(self) -> Option<FixedInterval> {
        self.span
    }

    /// The sum.
    pub fn plus(self, other: MaybeInterval) -> MaybeInterval {
        match (self.span, other.span) {
            (Some(a), Some(b)) => MaybeInterval { span: a.plus(b) },
            _ => MaybeInterval::NONE,
        }
    }

    /// The difference.
    pub fn minus(self, other: MaybeInterval) -> MaybeInterval {
        self.plus(other.negative())
    }

    /// The numbers with the other sign.
    pub fn negative(self) -> MaybeInterval {
        match self.span {
            Some(a) => MaybeInterval { span: a.negative() },
            None => MaybeInterval::NONE,
        }
    }

    /// The product.
    pub fn times(self, other: MaybeInterval) -> MaybeInterval {
        match (self.span, other.span) {
            (Some(a), Some(b)) => MaybeInterval { span: a.times(b) },
            _ => MaybeInterval::NONE,
        }
    }

    /// The product with one number.
    pub fn scaled(self, d: Dyadic) -> MaybeInterval {
        match self.span {
            Some(a) => MaybeInterval { span: a.scaled(d) },
            None => MaybeInterval::NONE,
        }
    }

    /// The sum with `m / 2^e` times another.
    pub fn plus_scaled(self, m: i128, e: u32, other: MaybeInterval) -> MaybeInterval {
        if m == 0 {
            return self;
        }
        match Dyadic::checked(m, e) {
            Some(d) => self.plus(other.scaled(d)),
            None => MaybeInterval::NONE,
        }
    }
}
