//! A plan: codes at given points, and what they err.

use crate::cost::{Cost, Goal, cost_of};
use crate::error::{Errors, find_errors};
use crate::setting::{Setting, count_uses};
use crate::tune::{try_word, tune};
use fx_expr::Function;
use fx_flat::Nodes;
use fx_num::Memory;
use fx_program::Code;
use fx_ranges::{Ranges, Unplanned};
use fx_search_numbers::FixedInterval;
use fx_wanted::Wanted;
use std::alloc::Global;

/// The codes of all nodes, their errors, and what the plan costs.
#[derive(Drop)]
pub struct Plan {
    /// What was asked of its words.
    pub wanted: Wanted,
    pub(crate) codes: Vec<Code>,
    pub(crate) errors: Errors,
    pub(crate) cost: Cost,
}

impl Plan {
    /// The plan of these codes, which err so.
    fn of(setting: &Setting<'_>, codes: Vec<Code>, errors: Errors) -> Plan {
        let cost = cost_of(setting, outputs_of(setting, &errors));
        Plan {
            wanted: setting.wanted,
            codes,
            errors,
            cost,
        }
    }

    /// What it costs.
    pub fn cost(&self) -> Cost {
        self.cost
    }

    /// The nodes whose words are too small, so that their points are too great. A plan without such is sound.
    pub fn small(&self) -> &[u32] {
        &self.errors.small
    }

    /// Its codes.
    pub fn codes(&self) -> &[Code] {
        &self.codes
    }

    /// The errors of its nodes.
    pub fn errors(&self) -> &Errors {
        &self.errors
    }

    /// Whether no word is too small, and it costs less than so much.
    pub(crate) fn is_below(&self, cost: Cost) -> bool {
        self.errors.small.is_empty() && self.cost < cost
    }

    /// Whether it is better than another: first by how many words are too small.
    fn is_better(&self, other: &Plan) -> bool {
        let own = self.errors.small.len();
        let others = other.errors.small.len();
        own < others || (own == others && self.cost < other.cost)
    }
}

/// The errors of the outputs.
pub fn outputs_of<'a>(setting: &Setting<'_>, errors: &'a Errors) -> &'a [FixedInterval] {
    let function = setting.function;
    let from = setting.first_output();
    let to = from.saturating_add(function.demands.len());
    errors.spans.get(from..to).unwrap_or(&[])
}

/// The plan of these codes, whose literals' words are moved where that is wanted.
pub fn planned(
    alloc: Global,
    setting: &Setting<'_>,
    codes: Vec<Code>,
    is_centred: bool,
) -> Result<Result<Plan, Unplanned>, Memory> {
    let mut codes = codes;
    match find_errors(alloc, setting, &mut codes, is_centred) {
        Ok(Ok(errors)) => Ok(Ok(Plan::of(setting, codes, errors))),
        Ok(Err(failed)) => Ok(Err(failed)),
        Err(memory) => Err(memory),
    }
}

/// Tunes a plan in which no word is too small.
fn tune_sound(alloc: Global, setting: &Setting<'_>, plan: &mut Plan) -> Result<(), Memory> {
    if plan.errors.small.is_empty() {
        tune(alloc, setting, plan)
    } else {
        Ok(())
    }
}

/// The plan, tuned.
fn tuned(alloc: Global, setting: &Setting<'_>, plan: Plan) -> Result<Plan, Memory> {
    let mut plan = plan;
    match tune_sound(alloc, setting, &mut plan) {
        Ok(()) => Ok(plan),
        Err(memory) => Err(memory),
    }
}

/// The plan of these codes, whose literals' words are moved where that is wanted, and which is tuned then.
fn finished(
    alloc: Global,
    setting: &Setting<'_>,
    codes: &[Code],
    is_centred: bool,
) -> Result<Result<Plan, Unplanned>, Memory> {
    let codes = Vec::from_slice(alloc, codes)?;
    match planned(alloc, setting, codes, is_centred)? {
        Ok(plan) => Ok(Ok(tuned(alloc, setting, plan)?)),
        Err(failed) => Ok(Err(failed)),
    }
}

/// Whether of two plans, of which each may be missing, the second is the better one.
fn is_second_better(first: &Result<Plan, Unplanned>, second: &Result<Plan, Unplanned>) -> bool {
    match (first, second) {
        (Ok(first), Ok(second)) => second.is_better(first),
        (Err(_), Ok(_)) => true,
        _ => false,
    }
}

/// The better one of two plans, of which each may be missing.
fn better(
    first: Result<Plan, Unplanned>,
    second: Result<Plan, Unplanned>,
) -> Result<Plan, Unplanned> {
    if is_second_better(&first, &second) {
        drop(first);
        second
    } else {
        drop(second);
        first
    }
}

/// The better one of the plans with nearest and with centred words.
fn better_plan(
    alloc: Global,
    setting: &Setting<'_>,
    codes: &[Code],
) -> Result<Result<Plan, Unplanned>, Memory> {
    let nearest = finished(alloc, setting, codes, false)?;
    match finished(alloc, setting, codes, true) {
        Ok(centred) => Ok(better(nearest, centred)),
        Err(memory) => Err(memory),
    }
}

/// The better plan of a setting's codes, or the first node that has none.
fn plan_of(alloc: Global, setting: &Setting<'_>) -> Result<Result<Plan, Unplanned>, Memory> {
    match setting.codes(alloc)? {
        Ok(codes) => better_plan(alloc, setting, &codes),
        Err(failed) => Ok(Err(failed)),
    }
}

/// The plan of a function at these points, one for each node, or the first node that has none.
pub fn find_plan(
    alloc: Global,
    function: &Function,
    nodes: &Nodes,
    ranges: &Ranges,
    points: &[i32],
    wanted: Wanted,
    goal: Goal<'_>,
) -> Result<Result<Plan, Unplanned>, Memory> {
    let uses = count_uses(alloc, nodes.list.as_slice())?;
    let setting = Setting {
        uses: &uses,
        goal,
        ..Setting::new(function, nodes, ranges, points, wanted)
    };
    plan_of(alloc, &setting)
}

/// Moves the word of a literal of a sound plan by so many units, and keeps that where the cost falls.
///
/// The points and what the bounds are measured by are those that the plan was made with.
pub fn move_word<'a>(
    alloc: Global,
    function: &'a Function,
    nodes: &'a Nodes,
    ranges: &'a Ranges,
    points: &'a [i32],
    goal: Goal<'a>,
    plan: &mut Plan,
    node: u32,
    units: i64,
) -> Result<bool, Memory> {
    let setting = Setting {
        goal,
        ..Setting::new(function, nodes, ranges, points, plan.wanted)
    };
    try_word(alloc, &setting, plan, node as usize, units)
}

/// The plan of a function at these points with the nearest words, and a box in which the error of each state lies; or
/// the first node that has none.
pub fn find_plan_in<'a>(
    alloc: Global,
    function: &'a Function,
    nodes: &'a Nodes,
    ranges: &'a Ranges,
    points: &'a [i32],
    wanted: Wanted,
    boxes: &'a [FixedInterval],
) -> Result<Result<Plan, Unplanned>, Memory> {
    let setting = Setting {
        boxes,
        ..Setting::new(function, nodes, ranges, points, wanted)
    };
    match setting.codes(alloc)? {
        Ok(codes) => planned(alloc, &setting, codes, false),
        Err(failed) => Ok(Err(failed)),
    }
}
