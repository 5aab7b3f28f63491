//! What the shifts of codes lose, and what a quotient is off.

use fx_program::Round;
use fx_search_numbers::{FixedInterval, MaybeInterval, unit_on};

/// From a unit of a point below zero to one above it, or to zero.
fn units(point: i32, e: u32, is_above: bool) -> MaybeInterval {
    match unit_on(point, e) {
        Some(unit) => MaybeInterval::some(FixedInterval {
            lo: unit.saturating_neg(),
            hi: if is_above { unit } else { 0 },
            e,
        }),
        None => MaybeInterval::NONE,
    }
}

/// One unit of a point to both sides, on a grid.
pub fn both_sides(point: i32, e: u32) -> MaybeInterval {
    units(point, e, true)
}

/// What a shift by `s` to a point loses: nothing, where it isn't to the right. A floor loses up to a unit, the nearest
/// word is off by half of one.
pub fn shift_roundoff(round: Round, s: i64, point: i32) -> MaybeInterval {
    if s <= 0 {
        return MaybeInterval::ZERO;
    }
    let halves = point.saturating_add(1);
    match round {
        Round::Floor => units(point, point.max(0).unsigned_abs(), false),
        Round::Nearest => units(halves, halves.max(0).unsigned_abs(), true),
    }
}

/// What the shift of a sum's operand loses, which is always rounded down.
pub fn term_roundoff(s: i32, point: i32) -> MaybeInterval {
    shift_roundoff(Round::Floor, i64::from(s), point)
}
