//! Sums of intervals, each taken so many times.

use fx_num::{Dyadic, Interval, dadd, dmul};

/// How many binary places a factor has at most.
const FACTOR_PLACES: u32 = 512;

/// A product of factors that aren't too long for sums of such.
pub fn times(a: Dyadic, b: Dyadic) -> Option<Dyadic> {
    if a.e > FACTOR_PLACES || b.e > FACTOR_PLACES {
        return None;
    }
    dmul(a, b)
}

/// A sum and an interval between these ends, likewise.
fn plus(sum: Interval, lo: Dyadic, hi: Dyadic) -> Option<Interval> {
    match (dadd(sum.lo, lo), dadd(sum.hi, hi)) {
        (Some(lo), Some(hi)) => Some(Interval { lo, hi }),
        _ => None,
    }
}

/// A sum and `c` times an interval. None where 128 bits don't hold it.
pub fn plus_scaled(sum: Interval, c: Dyadic, x: Interval) -> Option<Interval> {
    if c.m == 0 {
        return Some(sum);
    }
    match (times(c, x.lo), times(c, x.hi)) {
        (Some(a), Some(b)) => if c.m > 0 {
            plus(sum, a, b)
        } else {
            plus(sum, b, a)
        },
        _ => None,
    }
}

/// A sum and `c` times an interval, if all of them are there. None where 128 bits don't hold it.
pub fn with_scaled(
    sum: Option<Interval>,
    c: Option<Dyadic>,
    x: Option<Interval>,
) -> Option<Interval> {
    match (sum, c, x) {
        (Some(sum), Some(c), Some(x)) => plus_scaled(sum, c, x),
        _ => None,
    }
}
