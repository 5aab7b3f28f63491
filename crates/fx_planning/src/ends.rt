//! Demanded ends: by how much an output's values leave them, and the words that bring them back.
//!
//! A printed value lies in range and error together, so an error that isn't below some number keeps a lower end, and
//! one that isn't above another keeps an upper end. Floors err downward: where a range itself ends at a demanded lower
//! end, only a literal whose word is above it makes up for them.

use crate::plan::Plan;
use crate::setting::Setting;
use crate::tune::{Move, bound_after, lesser, try_word};
use fx_expr::Demand;
use fx_fraction::{Decimal, to_fraction};
use fx_num::Memory;
use fx_program::Code;
use fx_search_numbers::{FixedInterval, Rounded, RoundedInterval, ceil_at, floor_at};
use std::alloc::Global;

/// How often a word is moved for one output: the first move is cut to whole units.
const PUSHES: usize = 2;

/// How far values on a grid, down to `lo`, are below a demanded end.
fn lack(end: Decimal, lo: i128, e: u32) -> Option<i128> {
    let c = to_fraction(end);
    let least = match i32::try_from(e) {
        Ok(f) => ceil_at(c.p, c.q, f),
        Err(_) => None,
    };
    match least {
        Some(least) => least.checked_sub(lo),
        None => None,
    }
}

/// How far values on a grid, up to `hi`, are above a demanded end.
fn surplus(end: Decimal, hi: i128, e: u32) -> Option<i128> {
    let c = to_fraction(end);
    let greatest = match i32::try_from(e) {
        Ok(f) => floor_at(c.p, c.q, f),
        Err(_) => None,
    };
    match greatest {
        Some(greatest) => hi.checked_sub(greatest),
        None => None,
    }
}

/// By how much values have to move up to keep a lower end.
fn upward(end: Option<Decimal>, values: FixedInterval) -> Rounded {
    let units = match end {
        Some(end) => lack(end, values.lo, values.e),
        None => None,
    };
    Rounded::of(units.unwrap_or(0).max(0), values.e)
}

/// By how much values have to move down to keep an upper end.
fn downward(end: Option<Decimal>, values: FixedInterval) -> Rounded {
    let units = match end {
        Some(end) => surplus(end, values.hi, values.e),
        None => None,
    };
    Rounded::of(units.unwrap_or(0).max(0), values.e)
}

/// By how much an output's error has to move up for its values to keep the demanded lower end, and how far down for the
/// upper one. Zero where they are kept, and where an end doesn't fit: the checker judges what is found.
pub fn moves_wanted(
    demand: Demand,
    range: FixedInterval,
    error: FixedInterval,
) -> (Rounded, Rounded) {
    let values = if demand.lo.is_none() && demand.hi.is_none() {
        None
    } else {
        range.plus(error)
    };
    match values {
        Some(values) => (upward(demand.lo, values), downward(demand.hi, values)),
        None => (Rounded::ZERO, Rounded::ZERO),
    }
}

/// What an output's ends cost: 1 where they are kept, and the more the further they are left, by the error's size.
pub fn end_excess(
    demand: Demand,
    range: FixedInterval,
    error: FixedInterval,
    bound: Rounded,
) -> Rounded {
    let (up, down) = moves_wanted(demand, range, error);
    let passed = up.max(down);
    if passed.is_zero() {
        Rounded::ONE
    } else {
        Rounded::ONE.plus(passed.over(bound))
    }
}

/// By how many units a literal has to be moved, up or down, to shift an error by so much, if its slope by unit has a
/// sign.
fn units_for(slope: RoundedInterval, by: Rounded) -> Option<i64> {
    if Rounded::ZERO < slope.lo {
        by.over(slope.lo).floor()
    } else if slope.hi < Rounded::ZERO {
        by.over(slope.hi.negative()).floor()
    } else {
        None
    }
}

/// The move of one literal that shifts an error by so much, up or down, if its slope by unit has a sign.
fn push(
    node: usize,
    slope: RoundedInterval,
    ends: RoundedInterval,
    by: Rounded,
    is_up: bool,
) -> Option<Move> {
    match units_for(slope, by) {
        Some(size) => {
            let is_rising = Rounded::ZERO < slope.lo;
            let size = size.max(1);
            let units = if is_rising == is_up {
                size
            } else {
                size.saturating_neg()
            };
            Some(Move {
                node,
                units,
                bound: bound_after(ends, slope, units),
            })
        }
        None => None,
    }
}

/// The better of the best push so far and that by a node, if it is a literal.
fn with_push(
    best: Option<Move>,
    n: usize,
    code: &Code,
    slope: RoundedInterval,
    ends: RoundedInterval,
    by: Rounded,
    is_up: bool,
) -> Option<Move> {
    let found = match code {
        Code::Const { f, .. } => {
            let slope = slope.scaled(Rounded::power(f.saturating_neg()));
            push(n, slope, ends, by, is_up)
        }
        _ => None,
    };
    match found {
        Some(found) => lesser(best, found),
        None => best,
    }
}

/// The literal's move that shifts an output's error by so much at the least bound.
fn best_push(
    codes: &[Code],
    slopes: &[RoundedInterval],
    ends: RoundedInterval,
    by: Rounded,
    is_up: bool,
) -> Option<Move> {
    let mut best = None;
    for (n, (code, slope)) in codes.iter().zip(slopes).enumerate() {
        best = with_push(best, n, code, *slope, ends, by, is_up);
    }
    best
}

/// The move that brings an output nearer to its demanded ends, where its error has to move up or down by so much.
fn push_by(
    codes: &[Code],
    slopes: &[RoundedInterval],
    ends: RoundedInterval,
    (up, down): (Rounded, Rounded),
) -> Option<Move> {
    let is_up = !up.is_zero();
    let by = if is_up { up } else { down };
    if by.is_zero() {
        None
    } else {
        best_push(codes, slopes, ends, by, is_up)
    }
}

/// The move that brings output `j`, which is node `n`, nearer to its demanded ends, if one does.
fn next_push(
    setting: &Setting<'_>,
    plan: &Plan,
    slopes: &[RoundedInterval],
    j: usize,
    n: usize,
) -> Option<Move> {
    let function = setting.function;
    match (
        function.demands.as_slice().get(j),
        setting.ranges.span(n),
        plan.errors.span(n),
    ) {
        (Some(demand), Some(range), Some(error)) => {
            let wanted = moves_wanted(*demand, range, error);
            push_by(&plan.codes, slopes, RoundedInterval::of(error), wanted)
        }
        _ => None,
    }
}

/// Moves one word so that output `j`, which is node `n`, comes nearer to its demanded ends, and answers whether it did.
fn push_once(
    alloc: Global,
    setting: &Setting<'_>,
    plan: &mut Plan,
    slopes: &[RoundedInterval],
    j: usize,
    n: usize,
) -> Result<bool, Memory> {
    match next_push(setting, plan, slopes, j, n) {
        Some(best) => try_word(alloc, setting, plan, best.node, best.units),
        None => Ok(false),
    }
}

/// Moves words until output `j`, which is node `n`, keeps its demanded ends, as far as that comes.
pub fn keep_ends(
    alloc: Global,
    setting: &Setting<'_>,
    plan: &mut Plan,
    slopes: &[RoundedInterval],
    j: usize,
    n: usize,
) -> Result<(), Memory> {
    for _ in 0..PUSHES {
        if !push_once(alloc, setting, plan, slopes, j, n)? {
            return Ok(());
        }
    }
    Ok(())
}
