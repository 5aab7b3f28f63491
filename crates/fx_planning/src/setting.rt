//! What the second pass goes over.

use crate::cost::Goal;
use fx_expr::Function;
use fx_flat::{Node, Nodes};
use fx_fraction::Fraction;
use fx_num::{Memory, bits};
use fx_program::Code;
use fx_ranges::{Ranges, Unplanned, codes_of, operands};
use fx_search_numbers::{FixedInterval, MaybeInterval};
use fx_wanted::Wanted;
use std::alloc::Global;

/// An error has so many bits less than a range has.
const BITS_LESS: u32 = 8;

/// A function's nodes and their ranges, what is asked of its words, and what its bounds are measured by.
#[derive(Clone, Copy)]
pub struct Setting<'a> {
    pub function: &'a Function,
    pub nodes: &'a [Node],
    pub ranges: &'a Ranges,
    pub points: &'a [i32],
    pub uses: &'a [u32],
    /// Where the error of each state lies.
    pub boxes: &'a [FixedInterval],
    /// The words' width, and how they round.
    pub wanted: Wanted,
    pub goal: Goal<'a>,
}

/// Counts a use of a node.
fn count_use(uses: &mut [u32], a: usize) {
    if let Some(count) = uses.get_mut(a) {
        *count = count.saturating_add(1);
    }
}

/// Counts a node as a use of its operands, once where they are one node.
fn count_operands(uses: &mut [u32], node: &Node) {
    if let Some((a, b)) = operands(node) {
        count_use(uses, a);
        if a != b {
            count_use(uses, b);
        }
    }
}

/// How many nodes have each node as an operand.
pub fn count_uses(alloc: Global, nodes: &[Node]) -> Result<Vec<u32>, Memory> {
    let mut uses = vec![in alloc; 0_u32; nodes.len()]?;
    for node in nodes {
        count_operands(&mut uses, node);
    }
    Ok(uses)
}

impl<'a> Setting<'a> {
    /// One without counts of uses and boxes, measured by no other plan.
    pub fn new(
        function: &'a Function,
        nodes: &'a Nodes,
        ranges: &'a Ranges,
        points: &'a [i32],
        wanted: Wanted,
    ) -> Setting<'a> {
        Setting {
            function,
            nodes: nodes.list.as_slice(),
            ranges,
            points,
            uses: &[],
            boxes: &[],
            wanted,
            goal: Goal { references: &[] },
        }
    }
}

impl Setting<'_> {
    /// The codes at the points, with the nearest words, or the first node that has none.
    pub fn codes(&self, alloc: Global) -> Result<Result<Vec<Code>, Unplanned>, Memory> {
        let wanted = self.wanted;
        codes_of(
            alloc,
            self.function,
            self.nodes,
            self.points,
            wanted.width,
            wanted.round,
        )
    }

    /// The node of the first output.
    pub fn first_output(&self) -> usize {
        let function = self.function;
        let behind = function.demands.len().saturating_add(function.states.len());
        self.nodes.len().saturating_sub(behind)
    }

    /// The point of a node.
    pub fn point(&self, n: usize) -> Option<i32> {
        self.points.get(n).copied()
    }

    /// The grid of an error at a point.
    pub fn error_grid(&self, point: i32) -> u32 {
        self.ranges.grids().error_places_at(point)
    }

    /// An error on the grid of its point, or on a coarser one where it has many bits.
    fn on_grid_of(&self, error: FixedInterval, point: i32) -> FixedInterval {
        let most = self.ranges.grids().range_bits.saturating_sub(BITS_LESS);
        let few = most
            .saturating_add(error.e)
            .saturating_sub(bits(error.size()));
        error.outward(self.error_grid(point).min(few))
    }

    /// An error on the grid of its point, or on a coarser one where it has many bits: an input may err by far more than
    /// a word does, and products of such errors would leave 128 bits.
    pub fn on_error_grid(&self, error: MaybeInterval, point: i32) -> MaybeInterval {
        match error.get() {
            Some(error) => MaybeInterval::some(self.on_grid_of(error, point)),
            None => MaybeInterval::NONE,
        }
    }

    /// The literal that a node is, if it is one.
    pub fn literal(&self, n: usize) -> Option<Fraction> {
        match self.nodes.get(n) {
            Some(Node::Const { c }) => Some(*c),
            _ => None,
        }
    }

    /// The range of a node, if it has one.
    pub fn range(&self, n: usize) -> MaybeInterval {
        MaybeInterval::of(self.ranges.span(n))
    }

    /// The operands of an operation. One operand stands for both, and node 0 for those of what has none.
    pub fn operands(&self, n: usize) -> (usize, usize) {
        match self.nodes.get(n) {
            Some(node) => operands(node).unwrap_or((0, 0)),
            None => (0, 0),
        }
    }

    /// Whether a node's word holds all of its range with this error.
    pub fn fits(&self, n: usize, error: FixedInterval) -> Option<bool> {
        match self.point(n) {
            Some(point) => self.ranges.fits(n, error, point, self.wanted.width),
            None => None,
        }
    }

    /// Whether a node is a literal that one node alone has as an operand.
    pub fn is_own_literal(&self, n: usize) -> bool {
        self.literal(n).is_some() && self.uses.get(n).copied().unwrap_or(0) == 1
    }
}
