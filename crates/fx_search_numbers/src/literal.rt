//! Fractions and decimals on grids: their floors, the words of literals, and the errors of those words.

use crate::fixed_interval::FixedInterval;
use crate::grid::Grids;
use fx_fraction::{Decimal, Fraction, to_fraction};
use fx_num::{Dyadic, bits, ceil_shift, floor_shift, left_fits};

/// How many places a number is shifted by in one part at most, and how many an input's error is told with.
const PLACES: u32 = 60;

/// The floor of `top * 2^places / bottom`.
///
/// It is shifted in two parts, so that no number on the way is much greater than the result.
fn floor_places(top: i128, bottom: i128, places: u32) -> Option<i128> {
    if bottom <= 0 {
        return None;
    }
    let first = places.min(PLACES);
    let rest = places.saturating_sub(first);
    let shifted = left_fits(top, first)?;
    let whole = left_fits(shifted.div_euclid(bottom), rest)?;
    let part = left_fits(shifted.rem_euclid(bottom), rest)?;
    whole.checked_add(part.div_euclid(bottom))
}

/// The floor of `top * 2^places / bottom`, where the places may be below zero.
pub fn floor_at(top: i128, bottom: i128, places: i32) -> Option<i128> {
    if places >= 0 {
        return floor_places(top, bottom, places.unsigned_abs());
    }
    floor_places(top, left_fits(bottom, places.unsigned_abs())?, 0)
}

/// The ceiling of the same.
pub fn ceil_at(top: i128, bottom: i128, places: i32) -> Option<i128> {
    floor_at(top.checked_neg()?, bottom, places)?.checked_neg()
}

/// From one quotient to another, outward on a grid.
fn hold((p, q): (i128, i128), (r, s): (i128, i128), e: u32) -> Option<FixedInterval> {
    let places = i32::try_from(e).ok()?;
    Some(FixedInterval {
        lo: floor_at(p, q, places)?,
        hi: ceil_at(r, s, places)?,
        e,
    })
}

/// About how many binary places the numbers from one fraction to another need.
fn places_between(lo: Fraction, hi: Fraction, grids: Grids) -> Option<u32> {
    let a = lo.p.unsigned_abs();
    let b = hi.p.unsigned_abs();
    let left = a.checked_mul(hi.q.unsigned_abs())?;
    let right = b.checked_mul(lo.q.unsigned_abs())?;
    let (top, bottom) = if left > right { (a, lo.q) } else { (b, hi.q) };
    let places = grids
        .range_bits
        .saturating_add(bits(bottom.unsigned_abs()))
        .saturating_sub(bits(top));
    Some(places.min(grids.place_limit))
}

/// From one fraction to another, outward on a grid for their size.
pub fn range_between(lo: Fraction, hi: Fraction, grids: Grids) -> Option<FixedInterval> {
    let e = places_between(lo, hi, grids)?;
    hold((lo.p, lo.q), (hi.p, hi.q), e)
}

/// From one decimal to another, outward on a grid for their size.
pub fn range_of(lo: Decimal, hi: Decimal, grids: Grids) -> Option<FixedInterval> {
    range_between(to_fraction(lo), to_fraction(hi), grids)
}

/// The unit of a point on a grid: `2^(e - point)`.
pub fn unit_on(point: i32, e: u32) -> Option<i128> {
    let places = i64::from(e).checked_sub(i64::from(point))?;
    left_fits(1, u32::try_from(places).ok()?)
}

/// By how much the word of an input differs from its true value: at most its error to both sides, and a floor.
pub fn reading_error(err: Decimal, point: i32, e: u32) -> Option<FixedInterval> {
    let err = to_fraction(err);
    let hi = ceil_at(err.p, err.q, i32::try_from(e).ok()?)?;
    let lo = hi.checked_add(unit_on(point, e)?)?.checked_neg()?;
    Some(FixedInterval { lo, hi, e })
}

/// The word nearest to a literal.
pub fn nearest(c: Fraction, point: i32) -> Option<i128> {
    let twice = floor_at(c.p, c.q, point.checked_add(1)?)?;
    Some(floor_shift(twice.checked_add(1)?, 1))
}

/// Whether a number is a word.
fn is_word(w: i128, width: u32) -> bool {
    match left_fits(1, width.saturating_sub(1)) {
        Some(end) => w < end && w.unsigned_abs() <= end.unsigned_abs(),
        None => false,
    }
}

/// A number as a word.
pub fn word_at(w: i128, width: u32) -> Option<i64> {
    if is_word(w, width) {
        i64::try_from(w).ok()
    } else {
        None
    }
}

/// By how much a word differs from the literal that it stands for.
///
/// The grid is such that the checker's product with the literal's denominator fits.
pub fn word_error(c: Fraction, w: i128, point: i32, grids: Grids) -> Option<FixedInterval> {
    let free = i64::from(point)
        .saturating_add(126)
        .saturating_sub(i64::from(bits(w.unsigned_abs())))
        .saturating_sub(i64::from(bits(c.q.unsigned_abs())));
    let fine = i64::from(grids.error_places_at(point));
    let e = fine.min(free).clamp(0, 126) as u32;
    let top = word_difference(c, w, point)?;
    // the difference is in units of the point, whose places it needs no more
    let places = (e as i32).saturating_sub(point.max(0));
    Some(FixedInterval {
        lo: floor_at(top, c.q, places)?,
        hi: ceil_at(top, c.q, places)?,
        e,
    })
}

/// The word's value less the literal, times the literal's denominator, in units of the point where that is above zero.
fn word_difference(c: Fraction, w: i128, point: i32) -> Option<i128> {
    let places = point.unsigned_abs();
    if point >= 0 {
        w.checked_mul(c.q)?.checked_sub(left_fits(c.p, places)?)
    } else {
        left_fits(w, places)?.checked_mul(c.q)?.checked_sub(c.p)
    }
}

/// Whether the numbers of a range, so many places behind the point, are words at a point.
pub fn fits_word(range: FixedInterval, point: i32, width: u32) -> bool {
    let Some(end) = left_fits(1, width.saturating_sub(1)) else {
        return false;
    };
    let places = i64::from(point).saturating_sub(i64::from(range.e));
    let top = end.saturating_sub(1);
    let least = end.saturating_neg();
    let distance = places.unsigned_abs().min(1000) as u32;
    if places >= 0 {
        range.hi <= floor_shift(top, distance) && ceil_shift(least, distance) <= range.lo
    } else {
        ceil_shift(range.hi, distance) <= top && least <= floor_shift(range.lo, distance)
    }
}

/// The size of an input's error, rounded up to 60 binary places.
pub fn input_error(err: Decimal) -> Option<Dyadic> {
    let err = to_fraction(err);
    let m = ceil_at(err.p, err.q, PLACES as i32)?;
    Some(Dyadic::new(m, PLACES))
}
