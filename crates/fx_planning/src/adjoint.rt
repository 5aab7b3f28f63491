//! How an output moves with each node: an interval of its derivative, by one loop from the outputs back.

use fx_flat::Node;
use fx_num::Memory;
use fx_ranges::Ranges;
use fx_search_numbers::RoundedInterval;
use std::alloc::Global;

/// Adds to the slope of a node.
fn add(slopes: &mut [RoundedInterval], a: u32, slope: RoundedInterval) {
    if let Some(sum) = slopes.get_mut(a as usize) {
        *sum = sum.plus(slope);
    }
}

/// The range of a node. Without one there is nothing to hand on, and a slope only ranks.
fn range_of(ranges: &Ranges, a: usize) -> RoundedInterval {
    match ranges.span(a) {
        Some(range) => RoundedInterval::of(range),
        None => RoundedInterval::ZERO,
    }
}

/// Hands what an operation is worth on to its operands.
fn hand_on(
    slopes: &mut [RoundedInterval],
    ranges: &Ranges,
    n: usize,
    node: &Node,
    own: RoundedInterval,
) {
    match node {
        Node::Neg { a } => add(slopes, *a, own.negative()),
        Node::Copy { a } => add(slopes, *a, own),
        Node::Add { a, b } => {
            add(slopes, *a, own);
            add(slopes, *b, own);
        }
        Node::Sub { a, b } => {
            add(slopes, *a, own);
            add(slopes, *b, own.negative());
        }
        Node::Mul { a, b } => {
            add(slopes, *a, own.times(range_of(ranges, *b as usize)));
            add(slopes, *b, own.times(range_of(ranges, *a as usize)));
        }
        Node::Div { a, b } => {
            let part = own.times(range_of(ranges, *b as usize).inverse());
            add(slopes, *a, part);
            add(slopes, *b, part.times(range_of(ranges, n)).negative());
        }
        _ => {}
    }
}

/// How the output that node `output` is moves with each node.
pub fn slopes_of(
    alloc: Global,
    nodes: &[Node],
    ranges: &Ranges,
    output: usize,
) -> Result<Vec<RoundedInterval>, Memory> {
    let mut slopes = Vec::new(alloc);
    for n in 0..nodes.len() {
        slopes.push(if n == output {
            RoundedInterval::ONE
        } else {
            RoundedInterval::ZERO
        })?;
    }
    for n in (0..nodes.len()).rev() {
        let own = slopes.get(n).copied().unwrap_or(RoundedInterval::ZERO);
        if !own.is_zero() {
            hand_on(&mut slopes, ranges, n, &nodes[n], own);
        }
    }
    Ok(slopes)
}
