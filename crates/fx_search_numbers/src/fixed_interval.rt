//! Intervals: two mantissas over one exponent.
//!
//! A certificate's intervals have a dyadic for each end. Here both ends share a grid, so that a sum aligns once and a
//! comparison of widths is one of mantissas. Nothing rounds but `over` and `outward`, and a mantissa that leaves 128
//! bits gives None.

use fx_num::{Dyadic, ceil_shift, floor_shift, left_fits};

/// The numbers from `lo / 2^e` to `hi / 2^e`.
#[derive(Clone, Copy, Debug, PartialEq, Eq)]
pub struct FixedInterval {
    pub lo: i128,
    pub hi: i128,
    pub e: u32,
}

/// The product of two mantissas.
pub fn product(a: i128, b: i128) -> Option<i128> {
    // most have 64 bits, whose product fits without a test
    if let (Ok(x), Ok(y)) = (i64::try_from(a), i64::try_from(b)) {
        return Some(i128::from(x).wrapping_mul(i128::from(y)));
    }
    a.checked_mul(b)
}

/// The lesser floor of a number by two divisors above zero.
fn least_floor(x: i128, near: i128, far: i128) -> Option<i128> {
    if near <= 0 || far <= 0 {
        return None;
    }
    Some(x.div_euclid(near).min(x.div_euclid(far)))
}

/// The floor and the ceiling of a quotient of mantissas by `2^shift`, outward over both ends of the divisor.
fn outward_quotient(a: FixedInterval, b: FixedInterval, shift: i64) -> Option<(i128, i128)> {
    let up = u32::try_from(shift.max(0)).ok()?;
    let down = u32::try_from(shift.saturating_neg().max(0)).ok()?;
    let lo = left_fits(a.lo, up)?;
    let hi = left_fits(a.hi, up)?;
    let near = left_fits(b.lo, down)?;
    let far = left_fits(b.hi, down)?;
    Some((
        least_floor(lo, near, far)?,
        least_floor(hi.checked_neg()?, near, far)?.checked_neg()?,
    ))
}

impl FixedInterval {
    /// Zero alone.
    pub const ZERO: FixedInterval = FixedInterval { lo: 0, hi: 0, e: 0 };

    /// One number alone.
    pub fn single(d: Dyadic) -> FixedInterval {
        FixedInterval {
            lo: d.m,
            hi: d.m,
            e: d.e,
        }
    }

    /// The span on a grid that isn't coarser.
    fn raised(self, e: u32) -> Option<FixedInterval> {
        if self.e == e {
            return Some(self);
        }
        let places = e.checked_sub(self.e)?;
        let lo = left_fits(self.lo, places)?;
        let hi = left_fits(self.hi, places)?;
        Some(FixedInterval { lo, hi, e })
    }

    /// The sum.
    pub fn plus(self, other: FixedInterval) -> Option<FixedInterval> {
        let e = self.e.max(other.e);
        let a = self.raised(e)?;
        let b = other.raised(e)?;
        let lo = a.lo.checked_add(b.lo)?;
        let hi = a.hi.checked_add(b.hi)?;
        Some(FixedInterval { lo, hi, e })
    }

    /// The numbers with the other sign.
    pub fn negative(self) -> Option<FixedInterval> {
        let lo = self.hi.checked_neg()?;
        let hi = self.lo.checked_neg()?;
        Some(FixedInterval { lo, hi, e: self.e })
    }

    /// The difference.
    pub fn minus(self, other: FixedInterval) -> Option<FixedInterval> {
        self.plus(other.negative()?)
    }

    /// The product.
    pub fn times(self, other: FixedInterval) -> Option<FixedInterval> {
        let ll = product(self.lo, other.lo)?;
        let lh = product(self.lo, other.hi)?;
        let hl = product(self.hi, other.lo)?;
        let hh = product(self.hi, other.hi)?;
        Some(FixedInterval {
            lo: ll.min(lh).min(hl.min(hh)),
            hi: ll.max(lh).max(hl.max(hh)),
            e: self.e.checked_add(other.e)?,
        })
    }

    /// The product with one number.
    pub fn scaled(self, d: Dyadic) -> Option<FixedInterval> {
        let a = product(self.lo, d.m)?;
        let b = product(self.hi, d.m)?;
        let e = self.e.checked_add(d.e)?;
        Some(FixedInterval {
            lo: a.min(b),
            hi: a.max(b),
            e,
        })
    }

    /// The quotient on the grid `e`, outward, where the divisor's numbers have one sign.
    pub fn over(self, divisor: FixedInterval, e: u32) -> Option<FixedInterval> {
        let (a, b) = if divisor.hi < 0 {
            (self.negative()?, divisor.negative()?)
        } else {
            (self, divisor)
        };
        let shift = i64::from(e)
            .saturating_add(i64::from(b.e))
            .saturating_sub(i64::from(a.e));
        let (lo, hi) = outward_quotient(a, b, shift)?;
        Some(FixedInterval { lo, hi, e })
    }

    /// The narrowest interval round this one on the grid `e`, or the same where its own grid is coarser.
    pub fn outward(self, e: u32) -> FixedInterval {
        if self.e <= e {
            return self;
        }
        let places = self.e - e;
        FixedInterval {
            lo: floor_shift(self.lo, places),
            hi: ceil_shift(self.hi, places),
            e,
        }
    }

    /// The greater end without its sign, as a mantissa.
    pub fn size(self) -> u128 {
        self.lo.unsigned_abs().max(self.hi.unsigned_abs())
    }

    /// The lesser end without its sign, as a mantissa.
    pub fn least_size(self) -> u128 {
        self.lo.unsigned_abs().min(self.hi.unsigned_abs())
    }

    /// How wide it is, as a mantissa.
    fn width(self) -> Option<i128> {
        self.hi.checked_sub(self.lo)
    }

    /// Whether it is narrower than another.
    pub fn is_narrower(self, other: FixedInterval) -> Option<bool> {
        let e = self.e.max(other.e);
        let a = left_fits(self.width()?, e.checked_sub(self.e)?)?;
        let b = left_fits(other.width()?, e.checked_sub(other.e)?)?;
        Some(a < b)
    }

    /// Whether its size is below that of another.
    pub fn is_smaller(self, other: FixedInterval) -> Option<bool> {
        let e = self.e.max(other.e);
        let a = left_fits(i128::try_from(self.size()).ok()?, e.checked_sub(self.e)?)?;
        let b = left_fits(i128::try_from(other.size()).ok()?, e.checked_sub(other.e)?)?;
        Some(a < b)
    }

    /// Whether zero is none of its numbers.
    pub fn is_clear(self) -> bool {
        self.lo > 0 || self.hi < 0
    }
}
