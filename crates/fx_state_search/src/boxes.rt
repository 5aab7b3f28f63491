//! Boxes of states: where each is taken to lie, until its template says so.

use fx_cert::Template;
use fx_num::{Interval, Memory, bits, floor_shift, left_fits};
use fx_search_numbers::FixedInterval;
use fx_writing::interval;
use std::alloc::Global;

/// An interval over one exponent.
pub fn span_of(x: Interval) -> Option<FixedInterval> {
    let e = x.lo.e.max(x.hi.e);
    Some(FixedInterval {
        lo: left_fits(x.lo.m, e.checked_sub(x.lo.e)?)?,
        hi: left_fits(x.hi.m, e.checked_sub(x.hi.e)?)?,
        e,
    })
}

/// What holds both.
fn hull(a: FixedInterval, b: FixedInterval) -> Option<FixedInterval> {
    let e = a.e.max(b.e);
    let x = e.checked_sub(a.e)?;
    let y = e.checked_sub(b.e)?;
    Some(FixedInterval {
        lo: left_fits(a.lo, x)?.min(left_fits(b.lo, y)?),
        hi: left_fits(a.hi, x)?.max(left_fits(b.hi, y)?),
        e,
    })
}

/// Whether a box holds a bound.
fn holds(outer: FixedInterval, inner: FixedInterval) -> Option<bool> {
    let both = hull(outer, inner)?;
    let places = both.e.checked_sub(outer.e)?;
    Some(left_fits(outer.lo, places)? == both.lo && left_fits(outer.hi, places)? == both.hi)
}

/// A box wider by `2^-places` of its width on both sides.
fn widened(x: FixedInterval, places: u32) -> Option<FixedInterval> {
    let more = floor_shift(x.hi.checked_sub(x.lo)?, places).checked_add(1)?;
    Some(FixedInterval {
        lo: x.lo.checked_sub(more)?,
        hi: x.hi.checked_add(more)?,
        e: x.e,
    })
}

/// A box that holds a bound: the same if it does, else both, widened, with so many bits.
fn next_box(old: FixedInterval, bound: Interval, places: u32) -> Option<FixedInterval> {
    let bound = span_of(bound)?;
    if holds(old, bound)? {
        return Some(old);
    }
    let wider = widened(hull(old, bound)?, places)?;
    let e = wider
        .e
        .saturating_add(44)
        .saturating_sub(bits(wider.size()))
        .min(90);
    Some(wider.outward(e))
}

/// Whether each box holds the bound of its unit template.
pub fn hold_all(boxes: &[FixedInterval], templates: &[Template]) -> bool {
    for (outer, template) in boxes.iter().zip(templates) {
        let held = match span_of(template.bound) {
            Some(bound) => holds(*outer, bound).unwrap_or(false),
            None => false,
        };
        if !held {
            return false;
        }
    }
    true
}

/// The boxes to take next: those that hold stay. The later the turn, the more the others are widened.
pub fn next_boxes(
    alloc: Global,
    boxes: &[FixedInterval],
    templates: &[Template],
    turn: u32,
) -> Result<Option<Vec<FixedInterval>>, Memory> {
    let places = 10_u32.saturating_sub(turn / 2);
    let mut next = Vec::new(alloc);
    for (old, template) in boxes.iter().zip(templates) {
        match next_box(*old, template.bound, places) {
            Some(span) => next.push(span)?,
            None => return Ok(None),
        }
    }
    Ok(Some(next))
}

/// Spans as intervals.
pub fn intervals(alloc: Global, spans: &[FixedInterval]) -> Result<Vec<Interval>, Memory> {
    let mut list = Vec::new(alloc);
    for span in spans {
        list.push(interval(*span))?;
    }
    Ok(list)
}
