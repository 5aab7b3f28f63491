//! Tuning: one literal's word is moved so that an output's error has its middle at zero.
//!
//! Which literal, and by how many units, is estimated by the output's slopes. The estimate is tried by the second pass,
//! and kept where the cost falls.

use crate::adjoint::slopes_of;
use crate::cost::Cost;
use crate::ends::keep_ends;
use crate::plan::{Plan, planned};
use crate::setting::Setting;
use fx_num::Memory;
use fx_program::Code;
use fx_search_numbers::{Rounded, RoundedInterval, word_at};
use std::alloc::Global;
use std::mem::replace;

/// The most units that a word is moved by.
const MOVE_LIMIT: i64 = 1 << 20;

/// How often each output is looked at.
const ROUNDS: usize = 2;

/// A word moved, and about what the output's bound comes to.
#[derive(Clone, Copy)]
pub struct Move {
    pub node: usize,
    pub units: i64,
    pub bound: Rounded,
}

/// The bound that an error's ends give.
fn bound(ends: RoundedInterval) -> Rounded {
    ends.lo.negative().max(ends.hi)
}

/// About the bound where a literal with this slope by unit is moved by so many units.
pub fn bound_after(ends: RoundedInterval, slope: RoundedInterval, units: i64) -> Rounded {
    let by = Rounded::of(i128::from(units), 0);
    let x = slope.lo.times(by);
    let y = slope.hi.times(by);
    let below = ends.lo.plus(x.min(y)).negative();
    below.max(ends.hi.plus(x.max(y)))
}

/// The lesser of two moves, and the first of equals.
pub fn lesser(best: Option<Move>, other: Move) -> Option<Move> {
    match best {
        Some(first) => if other.bound < first.bound {
            Some(other)
        } else {
            Some(first)
        },
        None => Some(other),
    }
}

/// By how many units a literal with this slope by unit has to be moved for the middle of the ends to come to zero, if
/// it moves them.
fn units_to_middle(slope: RoundedInterval, ends: RoundedInterval) -> Option<i64> {
    let twice = slope.lo.plus(slope.hi);
    if twice.is_zero() {
        None
    } else {
        ends.lo.plus(ends.hi).negative().over(twice).floor()
    }
}

/// The better of the best move so far and this one of a literal, where it is one and below the limit.
fn with_move(
    best: Option<Move>,
    node: usize,
    slope: RoundedInterval,
    units: i64,
    ends: RoundedInterval,
    limit: Rounded,
) -> Option<Move> {
    let bound = bound_after(ends, slope, units);
    let is_move = units != 0 && units.unsigned_abs() <= MOVE_LIMIT.unsigned_abs();
    if is_move && bound < limit {
        lesser(best, Move { node, units, bound })
    } else {
        best
    }
}

/// The better of the best move so far and those of one literal whose point is `f`, where one is below the limit.
fn better(
    best: Option<Move>,
    node: usize,
    slope: RoundedInterval,
    f: i32,
    ends: RoundedInterval,
    limit: Rounded,
) -> Option<Move> {
    let slope = slope.scaled(Rounded::power(f.saturating_neg()));
    match units_to_middle(slope, ends) {
        Some(units) => {
            let first = with_move(best, node, slope, units, ends, limit);
            with_move(first, node, slope, units.saturating_add(1), ends, limit)
        }
        None => best,
    }
}

/// The move that seems best for an output.
fn best_move(codes: &[Code], slopes: &[RoundedInterval], ends: RoundedInterval) -> Option<Move> {
    let now = bound(ends);
    let limit = now.minus(now.times(Rounded::power(-13)));
    let mut best = None;
    for (n, (code, slope)) in codes.iter().zip(slopes).enumerate() {
        if let Code::Const { f, .. } = code {
            best = better(best, n, *slope, *f, ends, limit);
        }
    }
    best
}

/// The code of a literal with its word moved, if it stays a word.
fn moved_code(codes: &[Code], n: usize, units: i64, width: u32) -> Option<Code> {
    match codes.get(n) {
        Some(Code::Const { w, f }) => {
            match word_at(i128::from(*w).saturating_add(i128::from(units)), width) {
                Some(w) => Some(Code::Const { w, f: *f }),
                None => None,
            }
        }
        _ => None,
    }
}

/// The codes with another one in a place.
fn codes_with(alloc: Global, codes: &[Code], n: usize, code: Code) -> Result<Vec<Code>, Memory> {
    let mut changed = Vec::from_slice(alloc, codes)?;
    if let Some(slot) = changed.get_mut(n) {
        *slot = code;
    }
    Ok(changed)
}

/// The plan of these codes, if no word is too small and it costs less than so much.
fn cheaper_plan(
    alloc: Global,
    setting: &Setting<'_>,
    codes: Vec<Code>,
    cost: Cost,
) -> Result<Option<Plan>, Memory> {
    match planned(alloc, setting, codes, false)? {
        Ok(plan) => if plan.is_below(cost) {
            Ok(Some(plan))
        } else {
            drop(plan);
            Ok(None)
        },
        Err(_) => Ok(None),
    }
}

/// The plan with the word of literal `n` moved, if that is sound and cheaper.
fn moved_plan(
    alloc: Global,
    setting: &Setting<'_>,
    plan: &Plan,
    n: usize,
    units: i64,
) -> Result<Option<Plan>, Memory> {
    match moved_code(plan.codes(), n, units, setting.wanted.width) {
        Some(code) => {
            let codes = codes_with(alloc, plan.codes(), n, code)?;
            cheaper_plan(alloc, setting, codes, plan.cost())
        }
        None => Ok(None),
    }
}

/// Moves the word of literal `n`, and keeps that where no word is too small and the cost falls.
pub fn try_word(
    alloc: Global,
    setting: &Setting<'_>,
    plan: &mut Plan,
    n: usize,
    units: i64,
) -> Result<bool, Memory> {
    match moved_plan(alloc, setting, plan, n, units)? {
        Some(cheaper) => {
            drop(replace(plan, cheaper));
            Ok(true)
        }
        None => Ok(false),
    }
}

/// Tunes a plan for output `j`, which is this node and moves so with each, and answers whether there was a move to try.
fn tune_by(
    alloc: Global,
    setting: &Setting<'_>,
    plan: &mut Plan,
    slopes: &[RoundedInterval],
    j: usize,
    output: usize,
) -> Result<bool, Memory> {
    keep_ends(alloc, setting, plan, slopes, j, output)?;
    let best = match plan.errors.span(output) {
        Some(error) => best_move(&plan.codes, slopes, RoundedInterval::of(error)),
        None => None,
    };
    match best {
        Some(best) => match try_word(alloc, setting, plan, best.node, best.units) {
            Ok(_) => Ok(true),
            Err(memory) => Err(memory),
        },
        None => Ok(false),
    }
}

/// Tunes a plan for output `j`, which is this node, and answers whether there was a move to try.
fn tune_output(
    alloc: Global,
    setting: &Setting<'_>,
    plan: &mut Plan,
    j: usize,
    output: usize,
) -> Result<bool, Memory> {
    if plan.errors.span(output).is_none() {
        return Ok(false);
    }
    let slopes = slopes_of(alloc, setting.nodes, setting.ranges, output)?;
    tune_by(alloc, setting, plan, &slopes, j, output)
}

/// Tunes a plan for each output, a few rounds.
pub fn tune(alloc: Global, setting: &Setting<'_>, plan: &mut Plan) -> Result<(), Memory> {
    let function = setting.function;
    let outputs = function.demands.len();
    let first = setting.first_output();
    for turn in 0..outputs.saturating_mul(ROUNDS) {
        let j = turn.checked_rem(outputs).unwrap_or(0);
        let has_moved = tune_output(alloc, setting, plan, j, first.saturating_add(j))?;
        if !has_moved && outputs == 1 {
            return Ok(());
        }
    }
    Ok(())
}
