//! One attempt: a function as it stands, with ranges, points, words and errors.
//!
//! Points are chosen up to caps, at which the ranges fit their words. Where an error doesn't fit beside its range, the
//! node's cap goes below its point, and all is chosen again.
ghost use Rattle.std.specs.Prelude.{◌≡◌, length, IfOk};

use crate::task::Task;
use fx_expr::Function;
use fx_flat::{Node, Nodes, flatten};
use fx_num::{Dyadic, Memory};
use fx_planning::{Cost, Plan, bound, find_plan};
use fx_points::{NodeFacts, PointFault, choose_points};
use fx_ranges::{Ranges, Unplanned, find_ranges};
use fx_search_numbers::{FixedInterval, Grids, Rounded, input_error};
use std::alloc::Global;

/// How often points are chosen again, at most.
const TURNS: u32 = 8;

/// A point for each node, and the plan at these points.
#[derive(Drop)]
pub struct Placed {
    pub points: Vec<i32>,
    pub plan: Plan,
}

/// A function's nodes with all that was found for them.
#[derive(Drop)]
pub struct Attempt {
    pub nodes: Nodes,
    pub ranges: Ranges,
    pub placed: Placed,
}

impl Attempt {
    /// How many outputs there are.
    pub fn outputs(&self) -> usize {
        self.nodes.outputs as usize
    }

    /// The error of an output.
    pub fn output(&self, j: usize) -> Option<FixedInterval> {
        let results = self.outputs().saturating_add(self.nodes.states as usize);
        let first = self.nodes.list.len().saturating_sub(results);
        self.placed.plan.errors().span(first.saturating_add(j))
    }

    /// About the bounds of the outputs.
    pub fn bounds(&self, alloc: Global) -> Result<Vec<Rounded>, Memory> {
        let mut bounds = Vec::new(alloc);
        for j in 0..self.outputs() {
            bounds.push(match self.output(j) {
                Some(error) => bound(error),
                None => Rounded::INFINITE,
            })?;
        }
        Ok(bounds)
    }
}

/// A size for ranking, where there is one.
fn about(size: Option<Dyadic>) -> Rounded {
    match size {
        Some(size) => Rounded::of(size.m, size.e),
        None => Rounded::INFINITE,
    }
}

/// The error that an input is given with.
fn given_error(function: &Function, node: &Node) -> Rounded {
    let Node::Input { k } = node else {
        return Rounded::ZERO;
    };
    match function.inputs.as_slice().get(*k as usize) {
        Some(input) => about(input_error(input.err)),
        None => Rounded::ZERO,
    }
}

/// The greatest point of each node by its range.
fn range_caps(
    alloc: Global,
    nodes: &Nodes,
    ranges: &Ranges,
    width: u32,
) -> Result<Vec<i32>, Memory> {
    let mut caps = Vec::new(alloc);
    for n in 0..nodes.list.len() {
        caps.push(ranges.cap(n, width).unwrap_or(-65))?;
    }
    Ok(caps)
}

/// What the choice of points reads of a node.
fn fact_of(function: &Function, node: &Node, ranges: &Ranges, n: usize, cap: i32) -> NodeFacts {
    NodeFacts {
        cap,
        size: about(ranges.size(n)),
        least: about(ranges.least_size(n)),
        error: given_error(function, node),
    }
}

/// What the choice of points reads of all nodes, with these caps.
fn facts_of(
    alloc: Global,
    function: &Function,
    nodes: &Nodes,
    ranges: &Ranges,
    caps: &[i32],
) -> Result<Vec<NodeFacts>, Memory>
    ensures { IfOk result (λ facts. length facts.items ≡ length nodes.now.list) }
{
    let list = nodes.list.as_slice();
    let mut facts = Vec::new(alloc);
    for n in 0..list.len() {
        let cap = caps.get(n).copied().unwrap_or(-65);
        facts.push(fact_of(function, &list[n], ranges, n, cap))?;
    }
    Ok(facts)
}

/// The best points up to these caps, or the first node that has none.
fn points_within(
    alloc: Global,
    task: Task<'_>,
    function: &Function,
    nodes: &Nodes,
    ranges: &Ranges,
    caps: &[i32],
) -> Result<Result<Vec<i32>, Unplanned>, Memory> {
    let facts = facts_of(alloc, function, nodes, ranges, caps)?;
    let width = task.wanted.width.min(64);
    match choose_points(alloc, nodes, &facts, width, task.wanted.round) {
        Ok(points) => Ok(Ok(points)),
        Err(PointFault::NoPoint { node }) => Ok(Err(Unplanned::at(node))),
        Err(PointFault::Memory) => Err(Memory),
    }
}

/// The plan at these points, or the first node that has none.
fn placed_at(
    alloc: Global,
    task: Task<'_>,
    function: &Function,
    nodes: &Nodes,
    ranges: &Ranges,
    points: Vec<i32>,
) -> Result<Result<Placed, Unplanned>, Memory> {
    let wanted = task.wanted;
    match find_plan(alloc, function, nodes, ranges, &points, wanted, task.goal())? {
        Ok(plan) => Ok(Ok(Placed { points, plan })),
        Err(failed) => Ok(Err(failed)),
    }
}

/// The best points up to these caps, and their plan, or the first node that has none.
fn placed_within(
    alloc: Global,
    task: Task<'_>,
    function: &Function,
    nodes: &Nodes,
    ranges: &Ranges,
    caps: &[i32],
) -> Result<Result<Placed, Unplanned>, Memory> {
    match points_within(alloc, task, function, nodes, ranges, caps)? {
        Ok(points) => placed_at(alloc, task, function, nodes, ranges, points),
        Err(failed) => Ok(Err(failed)),
    }
}

/// Puts the caps of the nodes whose words are too small below their points.
fn lower(caps: &mut [i32], placed: &Placed) {
    for n in placed.plan.small() {
        let n = *n as usize;
        if let (Some(cap), Some(point)) = (caps.get_mut(n), placed.points.get(n)) {
            *cap = (*cap).min(*point).saturating_sub(1);
        }
    }
}

/// What comes of points up to some caps.
enum Choice {
    /// Each word is large enough.
    Placed(Placed),
    /// This node has no point or no code.
    Failed(Unplanned),
    /// The word of this node, and maybe of others, is too small: the caps were lowered.
    Lowered(Unplanned),
}

/// Chooses points up to these caps, and lowers the caps of nodes whose words are too small.
fn choose(
    alloc: Global,
    task: Task<'_>,
    function: &Function,
    nodes: &Nodes,
    ranges: &Ranges,
    caps: &mut [i32],
) -> Result<Choice, Memory> {
    match placed_within(alloc, task, function, nodes, ranges, caps)? {
        Ok(placed) => match placed.plan.small().first().copied() {
            Some(node) => {
                lower(caps, &placed);
                drop(placed);
                Ok(Choice::Lowered(Unplanned { node }))
            }
            None => Ok(Choice::Placed(placed)),
        },
        Err(failed) => Ok(Choice::Failed(failed)),
    }
}

/// The best points at which no word is too small, or the first node that has none.
fn backed_off(
    alloc: Global,
    task: Task<'_>,
    function: &Function,
    nodes: &Nodes,
    ranges: &Ranges,
) -> Result<Result<Placed, Unplanned>, Memory> {
    let mut caps = range_caps(alloc, nodes, ranges, task.wanted.width)?;
    let mut failed = Unplanned::at(0);
    for _turn in 0..TURNS {
        match choose(alloc, task, function, nodes, ranges, &mut caps)? {
            Choice::Placed(placed) => return Ok(Ok(placed)),
            Choice::Failed(node) => return Ok(Err(node)),
            Choice::Lowered(node) => failed = node,
        }
    }
    Ok(Err(failed))
}

/// What it costs to fail at a node: the less, the further on it is.
fn failure(nodes: &Nodes, failed: Unplanned) -> Cost {
    let count = u32::try_from(nodes.list.len()).unwrap_or(u32::MAX);
    Cost::Unplanned {
        left: count.saturating_sub(failed.node),
    }
}

/// The ranges of a function's nodes with the best points, or the first node that has none.
fn ranged(
    alloc: Global,
    task: Task<'_>,
    function: &Function,
    grids: Grids,
    nodes: &Nodes,
) -> Result<Result<(Ranges, Placed), Unplanned>, Memory> {
    let ranges = match find_ranges(alloc, function, nodes, grids)? {
        Ok(ranges) => ranges,
        Err(failed) => return Ok(Err(failed)),
    };
    match backed_off(alloc, task, function, nodes, &ranges)? {
        Ok(placed) => Ok(Ok((ranges, placed))),
        Err(failed) => Ok(Err(failed)),
    }
}

/// The attempt of a function as it stands, or what its failure costs.
pub fn attempted(
    alloc: Global,
    task: Task<'_>,
    function: &Function,
    grids: Grids,
) -> Result<Result<Attempt, Cost>, Memory> {
    let nodes = flatten(alloc, function)?;
    match ranged(alloc, task, function, grids, &nodes)? {
        Ok((ranges, placed)) => Ok(Ok(Attempt {
            nodes,
            ranges,
            placed,
        })),
        Err(failed) => Ok(Err(failure(&nodes, failed))),
    }
}
