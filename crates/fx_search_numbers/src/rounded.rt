//! Rounded numbers of 64 bits, by which choices are ranked.
//!
//! A cost, or how an output moves with a node, only ranks choices. Whole numbers alone give the same ranking on every
//! machine. Nothing here fails: an exponent stays at its end.
//!
//! Mantissas have 64 bits, since an input may be given with an error far above what a floor at its point loses. With 32
//! bits both together were often the same number at several points, so that too coarse a point was taken.

use fx_num::bits;

/// How many bits a mantissa has.
const MANTISSA_BITS: i64 = 64;

/// Exponents are above this with a minus, and at most this.
const EXPONENT_END: i64 = 1 << 33;

/// `m * 2^e`, where m is zero or has 64 bits beside its sign.
///
/// `height` is 0 for zero. Else it tells how far e is above its lower end, with the sign of m, so that the order of the
/// fields is that of the numbers.
#[derive(Clone, Copy, Debug, PartialEq, Eq, PartialOrd, Ord)]
pub struct Rounded {
    height: i64,
    m: i128,
}

/// A size cut to 64 bits, by so many places to the right.
fn cut(size: u128, places: i64) -> u64 {
    let distance = places.unsigned_abs().min(127) as u32;
    let kept = if places >= 0 {
        size >> distance
    } else {
        size << distance
    };
    u64::try_from(kept).unwrap_or(u64::MAX)
}

impl Rounded {
    /// Zero.
    pub const ZERO: Rounded = Rounded { height: 0, m: 0 };

    /// One.
    pub const ONE: Rounded = Rounded {
        height: EXPONENT_END - 63,
        m: 1 << 63,
    };

    /// What stands for a quotient by zero, and is above all others.
    pub const INFINITE: Rounded = Rounded {
        height: 2 * EXPONENT_END,
        m: (1 << 64) - 1,
    };

    /// About `size * 2^e`, or that with a minus.
    fn rounded(size: u128, e: i64, is_negative: bool) -> Rounded {
        if size == 0 {
            return Rounded::ZERO;
        }
        let places = i64::from(bits(size)).saturating_sub(MANTISSA_BITS);
        let m = i128::from(cut(size, places));
        let height = e
            .saturating_add(places)
            .saturating_add(EXPONENT_END)
            .clamp(1, 2 * EXPONENT_END);
        if is_negative {
            Rounded {
                height: height.saturating_neg(),
                m: m.saturating_neg(),
            }
        } else {
            Rounded { height, m }
        }
    }

    /// About `m / 2^e`.
    pub fn of(m: i128, e: u32) -> Rounded {
        Rounded::rounded(m.unsigned_abs(), i64::from(e).saturating_neg(), m < 0)
    }

    /// The power of two.
    pub fn power(e: i32) -> Rounded {
        Rounded::rounded(1, i64::from(e), false)
    }

    /// The mantissa without its sign.
    fn size(self) -> u128 {
        self.m.unsigned_abs()
    }

    /// The exponent.
    fn exponent(self) -> i64 {
        self.height.saturating_abs().saturating_sub(EXPONENT_END)
    }

    /// Whether it is below zero.
    fn is_negative(self) -> bool {
        self.m < 0
    }

    /// The product.
    pub fn times(self, other: Rounded) -> Rounded {
        let size = self.size().saturating_mul(other.size());
        let e = self.exponent().saturating_add(other.exponent());
        Rounded::rounded(size, e, self.is_negative() != other.is_negative())
    }

    /// The quotient, and the greatest number where the divisor is zero.
    pub fn over(self, divisor: Rounded) -> Rounded {
        let by = divisor.size();
        if by == 0 {
            return Rounded::INFINITE;
        }
        let size = (self.size() << 64) / by;
        let e = self.exponent().saturating_sub(divisor.exponent());
        let is_negative = self.is_negative() != divisor.is_negative();
        Rounded::rounded(size, e.saturating_sub(64), is_negative)
    }

    /// The number with the other sign.
    pub fn negative(self) -> Rounded {
        Rounded {
            height: self.height.saturating_neg(),
            m: self.m.saturating_neg(),
        }
    }

    /// The number without its sign.
    fn absolute(self) -> Rounded {
        if self.is_negative() {
            self.negative()
        } else {
            self
        }
    }

    /// The sum, where the second number isn't further from zero.
    fn plus_lesser(self, lesser: Rounded) -> Rounded {
        let distance = self.exponent().saturating_sub(lesser.exponent());
        if lesser.is_zero() || distance > 63 {
            return self;
        }
        // at most 127 bits
        let size = self.size() << distance.unsigned_abs().min(63) as u32;
        let sum = if self.is_negative() == lesser.is_negative() {
            size.saturating_add(lesser.size())
        } else {
            size.saturating_sub(lesser.size())
        };
        Rounded::rounded(sum, lesser.exponent(), self.is_negative())
    }

    /// The sum.
    pub fn plus(self, other: Rounded) -> Rounded {
        if self.absolute() < other.absolute() {
            other.plus_lesser(self)
        } else {
            self.plus_lesser(other)
        }
    }

    /// The difference.
    pub fn minus(self, other: Rounded) -> Rounded {
        self.plus(other.negative())
    }

    /// The floor, where it has 64 bits.
    pub fn floor(self) -> Option<i64> {
        let e = self.exponent();
        if self.is_zero() {
            Some(0)
        } else if e <= 0 {
            i64::try_from(self.m >> e.unsigned_abs().min(127) as u32).ok()
        } else {
            None
        }
    }

    /// Whether it is zero.
    pub fn is_zero(self) -> bool {
        self.m == 0
    }
}
