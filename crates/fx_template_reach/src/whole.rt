//! Whole numbers of 128 bits in place of fractions, for guesses: each stands over a power of two that its place says.
//!
//! Nothing rests on what is worked out here. What leaves 128 bits is None, and drops what asked for it.

use fx_num::{Dyadic, Interval, Memory, bits, ceil_shift, floor_shift, left_fits, lowest};
use std::alloc::Global;

/// How many binary places a coefficient has while templates are worked out.
pub const PLACES: u32 = 48;

/// By how many places `d` has more than `e`, or less. What is too far for 128 bits is as far as any other.
fn places_over(d: Dyadic, e: i32) -> i32 {
    let places = i64::from(d.e).saturating_sub(i64::from(e));
    places.clamp(-1000, 1000) as i32
}

/// The floor of `d * 2^e`.
pub fn floor_at(d: Dyadic, e: i32) -> Option<i128> {
    moved_down(d.m, places_over(d, e))
}

/// The ceiling of `d * 2^e`.
pub fn ceil_at(d: Dyadic, e: i32) -> Option<i128> {
    moved_up(d.m, places_over(d, e))
}

/// The floor of `m / 2^s`, or `m * 2^-s`.
pub fn moved_down(m: i128, s: i32) -> Option<i128> {
    let distance = s.unsigned_abs();
    if s >= 0 {
        Some(floor_shift(m, distance))
    } else {
        left_fits(m, distance)
    }
}

/// The ceiling.
pub fn moved_up(m: i128, s: i32) -> Option<i128> {
    let distance = s.unsigned_abs();
    if s >= 0 {
        Some(ceil_shift(m, distance))
    } else {
        left_fits(m, distance)
    }
}

/// The floor of `a * b / 2^s`.
pub fn product(a: i128, b: i128, s: u32) -> Option<i128> {
    Some(floor_shift(a.checked_mul(b)?, s))
}

/// The floor of a quotient by a number above zero.
pub fn quotient(a: i128, b: i128) -> Option<i128> {
    if b > 0 { Some(a.div_euclid(b)) } else { None }
}

/// Both numbers, if both are there.
pub(crate) fn both(a: Option<i128>, b: Option<i128>) -> Option<(i128, i128)> {
    match (a, b) {
        (Some(a), Some(b)) => Some((a, b)),
        _ => None,
    }
}

/// The sum of two numbers, if both are there.
pub fn sum(a: Option<i128>, b: Option<i128>) -> Option<i128> {
    match (a, b) {
        (Some(a), Some(b)) => a.checked_add(b),
        _ => None,
    }
}

/// What a number has more than another, if it is there.
pub fn difference(a: Option<i128>, b: i128) -> Option<i128> {
    match a {
        Some(a) => a.checked_sub(b),
        None => None,
    }
}

/// An entry of a list, 0 where it has none.
pub(crate) fn whole_at(list: &[i128], i: usize) -> i128 {
    list.get(i).copied().unwrap_or(0)
}

/// Puts an entry of a list.
pub(crate) fn put(list: &mut Vec<i128>, i: usize, x: i128) {
    if let Some(slot) = list.get_mut(i) {
        *slot = x;
    }
}

/// The greater magnitude, where zero's is the least.
pub fn greater(a: Option<i32>, b: Option<i32>) -> Option<i32> {
    match a {
        Some(x) => match b {
            Some(y) => Some(x.max(y)),
            None => a,
        },
        None => b,
    }
}

/// One more than the exponent of the greatest power of two that isn't above the greater end's size; None for zero
/// alone.
pub fn magnitude(x: Interval) -> Option<i32> {
    greater(magnitude_of(x.lo), magnitude_of(x.hi))
}

/// One more than the exponent of the greatest power of two that isn't above a number's size; None for zero.
fn magnitude_of(d: Dyadic) -> Option<i32> {
    if d.m == 0 {
        return None;
    }
    let length = i64::from(bits(d.m.unsigned_abs()));
    i32::try_from(length.saturating_sub(i64::from(d.e))).ok()
}

/// A vector of zeros but for one entry.
pub fn unit_vector(
    alloc: Global,
    states: usize,
    i: usize,
    entry: i128,
) -> Result<Vec<i128>, Memory> {
    let mut template = vec![in alloc; 0_i128; states]?;
    if let Some(slot) = template.get_mut(i) {
        *slot = entry;
    }
    Ok(template)
}

/// How many bits of a numerator and its denominator are used.
const QUOTIENT_BITS: u32 = 62;

/// How many significant bits a share has, about.
pub const SHARE_BITS: u32 = 42;

/// How many binary places a share has at most.
pub const SHARE_PLACES: u32 = 44;

/// The quotient with `e` binary places that is nearest to the half of `twice / d`, where `twice` has one place more.
fn nearest_quotient(twice: i128, d: i128, e: u32) -> Option<Dyadic> {
    match quotient(twice, d) {
        Some(m) => Some(lowest(floor_shift(m.saturating_add(1), 1), e)),
        None => None,
    }
}

/// `n / d` as a share, where both have few bits and `d` is above zero.
fn short_share(n: i128, d: i128) -> Option<Dyadic> {
    let top = i64::from(bits(n.unsigned_abs()));
    let bottom = i64::from(bits(d.unsigned_abs()));
    let e = i64::from(SHARE_BITS)
        .saturating_add(bottom)
        .saturating_sub(top)
        .clamp(0, i64::from(SHARE_PLACES)) as u32;
    match left_fits(n, e.saturating_add(1)) {
        Some(twice) => nearest_quotient(twice, d, e),
        None => None,
    }
}

/// `n / d` as a share, unless one of them is 0. Of numbers that are
/// too long to be moved up the last bits are left out.
pub fn share_of(n: i128, d: i128) -> Option<Dyadic> {
    let longest = bits(n.unsigned_abs()).max(bits(d.unsigned_abs()));
    let over = longest.saturating_sub(QUOTIENT_BITS);
    let numerator = floor_shift(n, over);
    let denominator = floor_shift(d, over);
    if numerator == 0 || denominator == 0 {
        None
    } else if denominator < 0 {
        short_share(numerator.saturating_neg(), denominator.saturating_neg())
    } else {
        short_share(numerator, denominator)
    }
}
