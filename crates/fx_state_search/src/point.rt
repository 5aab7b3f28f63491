//! Points: the finest at which each range fits its word, but no finer than what a product goes into.

use crate::task::Task;
use fx_flat::{Node, Nodes};
use fx_num::{GREATEST_POINT, LEAST_POINT, Memory};
use fx_ranges::{Ranges, has_code, operands};
use std::alloc::Global;

/// The greatest point of node `n` by its range, by its cap, and of a state by what comes next.
fn cap_of(nodes: &Nodes, ranges: &Ranges, n: usize, width: u32, cap: i32) -> i32 {
    let own = ranges.cap(n, width).unwrap_or(LEAST_POINT).min(cap);
    match nodes.list.as_slice().get(n) {
        Some(Node::State { k }) => {
            let next = first_next(nodes).saturating_add(*k as usize);
            ranges.cap(next, width).unwrap_or(LEAST_POINT).min(own)
        }
        _ => own,
    }
}

/// The node of the first next state.
pub fn first_next(nodes: &Nodes) -> usize {
    nodes.list.len().saturating_sub(nodes.states as usize)
}

/// The node whose point is the only one that node `n` can have: of the copy of a next state its state, of a negation
/// its operand, of others itself.
pub fn decider(nodes: &Nodes, n: usize) -> usize {
    let first = first_next(nodes);
    if n >= first {
        return (nodes.inputs as usize).saturating_add(n.saturating_sub(first));
    }
    match nodes.list.as_slice().get(n) {
        Some(Node::Neg { a }) => *a as usize,
        _ => n,
    }
}

/// The greatest point from a cap down at which a node has a code.
fn greatest(task: Task<'_>, n: usize, points: &[i32], cap: i32) -> Option<i32> {
    let node = task.nodes.list.as_slice().get(n)?;
    let steps = cap
        .saturating_sub(LEAST_POINT)
        .saturating_add(1)
        .clamp(0, 127);
    for down in 0..steps {
        let f = cap.saturating_sub(down);
        if has_code(task.function, node, f, points, task.wanted.width) {
            return Some(f);
        }
    }
    None
}

/// The greatest point from a cap down at which a node has a code; of a product whose operands are too fine for one, the
/// cap.
fn greatest_or_cap(task: Task<'_>, n: usize, points: &[i32], cap: i32) -> Option<i32> {
    match greatest(task, n, points, cap) {
        Some(point) => Some(point),
        None => match task.nodes.list.as_slice().get(n) {
            Some(Node::Mul { .. }) => Some(cap),
            _ => None,
        },
    }
}

/// The point of node `n`.
fn point_of(
    task: Task<'_>,
    ranges: &Ranges,
    n: usize,
    points: &[i32],
    cap: i32,
    are_codes: bool,
) -> Option<i32> {
    let cap = cap_of(task.nodes, ranges, n, task.wanted.width, cap);
    let decider = decider(task.nodes, n);
    if decider == n {
        return if are_codes {
            greatest(task, n, points, cap)
        } else {
            greatest_or_cap(task, n, points, cap)
        };
    }
    let only = points.get(decider).copied()?;
    let node = task.nodes.list.as_slice().get(n)?;
    if only <= ranges.cap(n, task.wanted.width)?
        && has_code(task.function, node, only, points, task.wanted.width)
    {
        Some(only)
    } else {
        None
    }
}

/// The greatest points up to these caps, if each node has one. Unless all are to have codes, a product may have none.
pub fn greatest_points(
    alloc: Global,
    task: Task<'_>,
    ranges: &Ranges,
    caps: &[i32],
    are_codes: bool,
) -> Result<Option<Vec<i32>>, Memory> {
    let mut points = Vec::new(alloc);
    for n in 0..task.nodes.list.len() {
        let cap = caps.get(n).copied().unwrap_or(GREATEST_POINT);
        match point_of(task, ranges, n, &points, cap, are_codes) {
            Some(point) => points.push(point)?,
            None => return Ok(None),
        }
    }
    Ok(Some(points))
}

/// The caps with those of negated nodes lowered, so that what is negated fits at the same point.
pub fn caps_of_negated(
    alloc: Global,
    nodes: &[Node],
    ranges: &Ranges,
    width: u32,
    caps: &[i32],
) -> Result<Vec<i32>, Memory> {
    let mut lowered = Vec::from_slice(alloc, caps)?;
    for n in (0..nodes.len()).rev() {
        if let Node::Neg { a } = &nodes[n] {
            let own = lowered.get(n).copied().unwrap_or(LEAST_POINT);
            let own = ranges.cap(n, width).unwrap_or(LEAST_POINT).min(own);
            if let Some(cap) = lowered.get_mut(*a as usize) {
                *cap = (*cap).min(own);
            }
        }
    }
    Ok(lowered)
}

/// By how many places a sum is finer than what it goes into, at most: its operands are rounded one by one then, but
/// where that adds next to nothing. A sum of small products else has a point that makes all errors long.
const SUM_PLACES: i32 = 12;

/// The point of a sum that is asked for so, once it is lowered.
fn lowered_sum(own: i32, point: i32) -> i32 {
    if own == i32::MIN {
        point
    } else {
        point.min(own.saturating_add(SUM_PLACES))
    }
}

/// What a node asks of its operands: the point of a sum, which a finer operand would only round to once more.
fn asked(node: &Node, own: i32, point: i32) -> i32 {
    match node {
        Node::Add { .. } => lowered_sum(own, point),
        Node::Sub { .. } => lowered_sum(own, point),
        Node::Copy { .. } => point,
        Node::Neg { .. } => own,
        _ => i32::MAX,
    }
}

/// Raises what is asked of a node.
fn ask(needs: &mut [i32], a: usize, point: i32) {
    if let Some(need) = needs.get_mut(a) {
        *need = (*need).max(point);
    }
}

/// The finest point that any use of a node asks for: none is the least number, and the greatest says that no point is
/// too fine.
fn needs(alloc: Global, nodes: &[Node], points: &[i32]) -> Result<Vec<i32>, Memory> {
    let mut needs = vec![in alloc; i32::MIN; nodes.len()]?;
    for n in (0..nodes.len()).rev() {
        if let Some((a, b)) = operands(&nodes[n]) {
            let own = needs.get(n).copied().unwrap_or(i32::MAX);
            let point = asked(&nodes[n], own, points.get(n).copied().unwrap_or(i32::MAX));
            ask(&mut needs, a, point);
            ask(&mut needs, b, point);
        }
    }
    Ok(needs)
}

/// The greatest point that a node needs where this is the finest that is asked for: products, literals and inputs may
/// be as coarse as what they go into; a sum only nearly, since its operands are rounded one by one.
fn needed(node: &Node, need: i32) -> i32 {
    match node {
        Node::Mul { .. } => need,
        Node::Const { .. } => need,
        Node::Input { .. } => need,
        Node::Add { .. } => need.saturating_add(SUM_PLACES),
        Node::Sub { .. } => need.saturating_add(SUM_PLACES),
        _ => i32::MAX,
    }
}

/// The caps with those of products, literals, inputs and sums lowered to what they go into.
pub fn lowered_caps(
    alloc: Global,
    nodes: &[Node],
    points: &[i32],
    caps: &[i32],
) -> Result<Vec<i32>, Memory> {
    let needs = needs(alloc, nodes, points)?;
    let mut lowered = Vec::from_slice(alloc, caps)?;
    for n in 0..nodes.len() {
        let need = needs.get(n).copied().unwrap_or(i32::MAX);
        if need > i32::MIN {
            if let Some(cap) = lowered.get_mut(n) {
                *cap = (*cap).min(needed(&nodes[n], need));
            }
        }
    }
    Ok(lowered)
}

/// Whether a node is a literal, or a negated one.
fn is_literal(nodes: &[Node], n: usize) -> bool {
    match nodes.get(n) {
        Some(Node::Const { .. }) => true,
        Some(Node::Neg { a }) => match nodes.get(*a as usize) {
            Some(Node::Const { .. }) => true,
            _ => false,
        },
        _ => false,
    }
}

/// The operand of a product that is made coarser: a literal, which loses only what its word is off, else the finer one.
fn coarser(nodes: &[Node], points: &[i32], a: usize, b: usize) -> usize {
    if is_literal(nodes, a) {
        return a;
    }
    if is_literal(nodes, b) {
        return b;
    }
    let own = points.get(a).copied().unwrap_or(LEAST_POINT);
    let other = points.get(b).copied().unwrap_or(LEAST_POINT);
    if own < other { b } else { a }
}

/// How many places a product drops at most: of a literal's no more than matter, whose errors would only get long.
fn most_dropped(nodes: &[Node], operand: usize, width: u32) -> i32 {
    let most = width.saturating_mul(2).saturating_sub(2);
    let most = if is_literal(nodes, operand) {
        most.min(width.saturating_add(LITERAL_PLACES))
    } else {
        most
    };
    i32::try_from(most).unwrap_or(0)
}

/// Lowers the cap of an operand of product `n` so that the product's shift is one. Whether it had to be lowered.
fn make_room(nodes: &[Node], points: &mut [i32], caps: &mut [i32], n: usize, width: u32) -> bool {
    let Some(Node::Mul { a, b }) = nodes.get(n) else {
        return false;
    };
    let a = *a as usize;
    let b = *b as usize;
    let own = points.get(a).copied().unwrap_or(0);
    let other = points.get(b).copied().unwrap_or(0);
    let shift = own
        .saturating_add(other)
        .saturating_sub(points.get(n).copied().unwrap_or(0));
    let c = coarser(nodes, points, a, b);
    let most = most_dropped(nodes, c, width);
    if shift <= most {
        return false;
    }
    if let (Some(point), Some(cap)) = (points.get_mut(c), caps.get_mut(c)) {
        let lower = point
            .saturating_sub(shift.saturating_sub(most))
            .max(LEAST_POINT);
        *point = lower;
        *cap = (*cap).min(lower);
    }
    true
}

/// How often operands are made coarser, at most.
const TURNS: u32 = 4;

/// By how much more than its width a product drops at most where it is of a literal: what the literal's word is off is
/// then at most `2^-12` of a unit of the product.
const LITERAL_PLACES: u32 = 11;

/// The caps with those of operands lowered so far that each product has a code: a small literal at its greatest point
/// would ask for a shift that there isn't. A literal whose word becomes 0 is as good as any.
pub fn caps_of_operands(
    alloc: Global,
    task: Task<'_>,
    ranges: &Ranges,
    caps: Vec<i32>,
) -> Result<Vec<i32>, Memory> {
    let nodes = task.nodes.list.as_slice();
    let width = task.wanted.width;
    let mut caps = caps;
    for _turn in 0..TURNS {
        let Some(mut points) = greatest_points(alloc, task, ranges, &caps, false)? else {
            return Ok(caps);
        };
        let mut is_lowered = false;
        for n in (0..nodes.len()).rev() {
            is_lowered = make_room(nodes, &mut points, &mut caps, n, width) || is_lowered;
        }
        if !is_lowered {
            return Ok(caps);
        }
        caps = caps_of_negated(alloc, nodes, ranges, width, &caps)?;
    }
    Ok(caps)
}
