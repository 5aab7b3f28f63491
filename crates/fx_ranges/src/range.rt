//! The first pass: a range for each node, and a form where an operand has one.
//!
//! A node's range is the plain one or the form's, whichever is narrower, and later nodes use it. The pass ends at the
//! first node whose range reaches `2^62` as a mantissa, whose divisor may be zero, or whose numbers leave 128 bits.

use crate::coefficients::Coefficients;
use crate::form::{Centre, Centres, RangeForm, centre_at, mix_of, operands, weighted, write_row};
use crate::ranges::Ranges;
use fx_expr::Function;
use fx_flat::{Node, Nodes};
use fx_fraction::Fraction;
use fx_num::{Dyadic, Memory, bits};
use fx_search_numbers::{FixedInterval, Grids, MaybeInterval, range_between, range_of};
use std::alloc::Global;

/// There is no plan: this node is the first for which the pass has nothing to say.
#[derive(Clone, Copy)]
pub struct Unplanned {
    pub node: u32,
}

impl Unplanned {
    /// The failure of a node.
    pub fn at(n: usize) -> Unplanned {
        Unplanned {
            node: u32::try_from(n).unwrap_or(u32::MAX),
        }
    }
}

/// The range of a quotient.
fn quotient_range(a: FixedInterval, b: FixedInterval, grids: Grids) -> Option<FixedInterval> {
    if b.is_clear() {
        let places = i64::from(grids.range_bits)
            .saturating_add(i64::from(bits(b.least_size())))
            .saturating_sub(i64::from(bits(a.size())))
            .saturating_add(i64::from(a.e))
            .saturating_sub(i64::from(b.e));
        a.over(b, places.clamp(0, i64::from(grids.place_limit)) as u32)
    } else {
        None
    }
}

/// The range of an operation whose operands have these, before it is rounded.
fn unrounded_range(
    node: &Node,
    a: FixedInterval,
    b: FixedInterval,
    grids: Grids,
) -> Option<FixedInterval> {
    match node {
        Node::Neg { .. } => a.negative(),
        Node::Add { .. } => a.plus(b),
        Node::Sub { .. } => a.minus(b),
        Node::Mul { .. } => a.times(b),
        Node::Div { .. } => quotient_range(a, b, grids),
        _ => Some(a),
    }
}

/// A range, if there is one, with as many places as the grids allow.
fn rounded(range: Option<FixedInterval>, grids: Grids) -> Option<FixedInterval> {
    match range {
        Some(range) => Some(grids.rounded(range)),
        None => None,
    }
}

/// The ranges of both operands of an operation.
fn operand_ranges(ranges: &Ranges, node: &Node) -> Option<(FixedInterval, FixedInterval)> {
    let (a, b) = match operands(node) {
        Some((a, b)) => (ranges.span(a), ranges.span(b)),
        None => (None, None),
    };
    match (a, b) {
        (Some(a), Some(b)) => Some((a, b)),
        _ => None,
    }
}

/// The plain range of an operation.
fn plain_range(ranges: &Ranges, node: &Node) -> Option<FixedInterval> {
    match operand_ranges(ranges, node) {
        Some((a, b)) => rounded(unrounded_range(node, a, b, ranges.grids), ranges.grids),
        None => None,
    }
}

/// An operand of a product.
#[derive(Clone, Copy)]
struct Factor {
    range: FixedInterval,
    /// The rest of its form.
    rest: FixedInterval,
    centre: Dyadic,
}

/// An operand of a product, centred there.
fn centred_factor(ranges: &Ranges, a: usize, at: Centre) -> Option<Factor> {
    match (ranges.span(a), ranges.rest(a)) {
        (Some(range), Some(rest)) => match centre_at(range, at, ranges.grids) {
            Some(centre) => Some(Factor {
                range,
                rest,
                centre,
            }),
            None => None,
        },
        _ => None,
    }
}

/// The rest of the form of a product.
fn product_rest(a: Factor, b: Factor) -> MaybeInterval {
    let left = MaybeInterval::some(a.rest).scaled(b.centre);
    let right = MaybeInterval::some(b.rest).scaled(a.centre);
    let both = MaybeInterval::single(a.centre).scaled(b.centre);
    let off_a = MaybeInterval::some(a.range).minus(MaybeInterval::single(a.centre));
    let off_b = MaybeInterval::some(b.range).minus(MaybeInterval::single(b.centre));
    left.plus(right).minus(both).plus(off_a.times(off_b))
}

/// The form of a product of these, before its row is written.
fn product_form(a: Factor, b: Factor) -> Option<RangeForm> {
    let (centre_a, centre_b) = (a.centre, b.centre);
    match product_rest(a, b).get() {
        Some(rest) => Some(RangeForm {
            centre_a,
            centre_b,
            ..RangeForm::of_rest(rest)
        }),
        None => None,
    }
}

/// The form of the product that is next, before its row is written.
fn next_product_form(ranges: &Ranges, a: usize, b: usize) -> Option<RangeForm> {
    let centres = ranges.centres_of(ranges.spans.len());
    match (
        centred_factor(ranges, a, centres.a),
        centred_factor(ranges, b, centres.b),
    ) {
        (Some(a), Some(b)) => product_form(a, b),
        _ => None,
    }
}

/// The rest of the form of an operation but a product, by those of its operands.
fn linear_rest(node: &Node, a: MaybeInterval, b: MaybeInterval) -> MaybeInterval {
    match node {
        Node::Neg { .. } => a.negative(),
        Node::Add { .. } => a.plus(b),
        Node::Sub { .. } => a.minus(b),
        _ => a,
    }
}

/// The form of an operation but a product, before its row is written.
fn linear_form(ranges: &Ranges, node: &Node, a: usize, b: usize) -> Option<RangeForm> {
    let a = MaybeInterval::of(ranges.rest(a));
    let b = MaybeInterval::of(ranges.rest(b));
    match linear_rest(node, a, b).get() {
        Some(rest) => Some(RangeForm::of_rest(rest)),
        None => None,
    }
}

/// What an operation's form is, before its row is written.
fn unwritten_form(ranges: &Ranges, node: &Node, a: usize, b: usize) -> Option<RangeForm> {
    match node {
        Node::Mul { .. } => next_product_form(ranges, a, b),
        _ => linear_form(ranges, node, a, b),
    }
}

/// Writes the form of an operation.
fn write_form(ranges: &mut Ranges, n: usize, node: &Node, a: usize, b: usize) -> Option<RangeForm> {
    match unwritten_form(ranges, node, a, b) {
        Some(form) => match mix_of(node, &form, ranges.grid(a), ranges.grid(b)) {
            Some(mix) => write_row(
                &mut ranges.coefficients,
                n,
                (a, b),
                mix,
                form,
                &ranges.spans,
                ranges.grids,
            ),
            None => None,
        },
        None => None,
    }
}

/// The range that a form with a written row shows.
fn shown_range(ranges: &Ranges, n: usize, form: &RangeForm) -> Option<FixedInterval> {
    let row = ranges.coefficients.row(n);
    let sum = weighted(row, form.e, form.rest, &ranges.spans);
    rounded(sum, ranges.grids)
}

/// The form of an operation whose row is written, and the range that it shows.
fn written_form(
    ranges: &mut Ranges,
    n: usize,
    node: &Node,
    a: usize,
    b: usize,
) -> Option<(RangeForm, FixedInterval)> {
    match write_form(ranges, n, node, a, b) {
        Some(form) => match shown_range(ranges, n, &form) {
            Some(range) => Some((form, range)),
            None => None,
        },
        None => None,
    }
}

/// The narrower of two ranges, and whether it is the second.
fn narrower(first: FixedInterval, second: FixedInterval) -> Option<(FixedInterval, bool)> {
    match second.is_narrower(first) {
        Some(true) => Some((second, true)),
        Some(false) => Some((first, false)),
        None => None,
    }
}

/// The narrower of an operation's plain range and its form's, with the form.
fn with_form(
    plain: FixedInterval,
    form: RangeForm,
    by_form: FixedInterval,
) -> Option<(FixedInterval, Option<RangeForm>)> {
    match narrower(plain, by_form) {
        Some((range, shows_range)) => Some((
            range,
            Some(RangeForm {
                shows_range,
                ..form
            }),
        )),
        None => None,
    }
}

/// The range of an operation of which an operand has a form.
fn formed_range(
    ranges: &mut Ranges,
    n: usize,
    node: &Node,
    (a, b): (usize, usize),
    plain: FixedInterval,
) -> Option<(FixedInterval, Option<RangeForm>)> {
    match written_form(ranges, n, node, a, b) {
        Some((form, by_form)) => with_form(plain, form, by_form),
        None => {
            // a form is of use and never needed: where its numbers leave 128 bits, the node has none
            ranges.coefficients.clear(n);
            Some((plain, None))
        }
    }
}

/// Whether an operation has a form, if its numbers fit: a quotient has none.
fn may_have_form(ranges: &Ranges, node: &Node, (a, b): (usize, usize)) -> bool {
    !matches!(node, Node::Div { .. }) && (ranges.has_form(a) || ranges.has_form(b))
}

/// The range of an operation, with its form where an operand has one.
fn operation_range(
    ranges: &mut Ranges,
    n: usize,
    node: &Node,
) -> Option<(FixedInterval, Option<RangeForm>)> {
    match (plain_range(ranges, node), operands(node)) {
        (Some(plain), Some(both)) => if may_have_form(ranges, node, both) {
            formed_range(ranges, n, node, both, plain)
        } else {
            Some((plain, None))
        },
        _ => None,
    }
}

/// The range of an input.
fn input_range(function: &Function, k: usize, grids: Grids) -> Option<FixedInterval> {
    match function.inputs.as_slice().get(k) {
        Some(input) => range_of(input.lo, input.hi, grids),
        None => None,
    }
}

/// This range of an input or a state, whose form is itself: its row has a one at place `k`.
fn variable_range(
    ranges: &mut Ranges,
    n: usize,
    k: usize,
    range: Option<FixedInterval>,
) -> Option<(FixedInterval, Option<RangeForm>)> {
    match range {
        Some(range) => if ranges.coefficients.put(n, k, 1) {
            Some((range, Some(RangeForm::of_rest(FixedInterval::ZERO))))
        } else {
            None
        },
        None => None,
    }
}

/// The range of a literal, which has no form.
fn literal_range(c: Fraction, grids: Grids) -> Option<(FixedInterval, Option<RangeForm>)> {
    match range_between(c, c, grids) {
        Some(range) => Some((range, None)),
        None => None,
    }
}

/// The range of a node behind those that have one, however great it is.
fn any_range(
    function: &Function,
    ranges: &mut Ranges,
    boxes: &[FixedInterval],
    n: usize,
    node: &Node,
) -> Option<(FixedInterval, Option<RangeForm>)> {
    match node {
        Node::Input { k } => {
            let range = input_range(function, *k as usize, ranges.grids);
            variable_range(ranges, n, *k as usize, range)
        }
        // a state's range is its box
        Node::State { k } => variable_range(ranges, n, n, boxes.get(*k as usize).copied()),
        Node::Const { c } => literal_range(*c, ranges.grids),
        _ => operation_range(ranges, n, node),
    }
}

/// The range of a node behind those that have one.
fn node_range(
    function: &Function,
    ranges: &mut Ranges,
    boxes: &[FixedInterval],
    n: usize,
    node: &Node,
) -> Option<(FixedInterval, Option<RangeForm>)> {
    match any_range(function, ranges, boxes, n, node) {
        Some((range, form)) => if bits(range.size()) > 62 {
            None
        } else {
            Some((range, form))
        },
        None => None,
    }
}

/// Appends the ranges of all nodes, up to the first that has none, which is told.
fn add_ranges(
    function: &Function,
    list: &[Node],
    boxes: &[FixedInterval],
    ranges: &mut Ranges,
) -> Result<Option<Unplanned>, Memory> {
    for n in 0..list.len() {
        match node_range(function, ranges, boxes, n, &list[n]) {
            Some((span, form)) => ranges.push(span, form)?,
            None => return Ok(Some(Unplanned::at(n))),
        }
    }
    Ok(None)
}

/// The ranges with those of all nodes appended, or the first node that has none.
fn filled(
    function: &Function,
    list: &[Node],
    boxes: &[FixedInterval],
    mut ranges: Ranges,
) -> Result<Result<Ranges, Unplanned>, Memory> {
    match add_ranges(function, list, boxes, &mut ranges) {
        Ok(None) => Ok(Ok(ranges)),
        Ok(Some(failed)) => Ok(Err(failed)),
        Err(memory) => Err(memory),
    }
}

/// The ranges of all nodes of a function without states, or the first node that has none.
pub fn find_ranges(
    alloc: Global,
    function: &Function,
    nodes: &Nodes,
    grids: Grids,
) -> Result<Result<Ranges, Unplanned>, Memory> {
    find_centred_ranges(alloc, function, nodes, grids, &[], &[])
}

/// The ranges of all nodes, with a box in which each state lies, or the first node that has none.
pub fn find_ranges_in(
    alloc: Global,
    function: &Function,
    nodes: &Nodes,
    grids: Grids,
    boxes: &[FixedInterval],
) -> Result<Result<Ranges, Unplanned>, Memory> {
    find_centred_ranges(alloc, function, nodes, grids, boxes, &[])
}

/// The ranges of all nodes, with the centres of each node's operands. Beyond the list's end they are in the middle.
pub fn find_centred_ranges(
    alloc: Global,
    function: &Function,
    nodes: &Nodes,
    grids: Grids,
    boxes: &[FixedInterval],
    centres: &[Centres],
) -> Result<Result<Ranges, Unplanned>, Memory> {
    let list = nodes.list.as_slice();
    let variables = function.inputs.len().saturating_add(boxes.len());
    let centres = Vec::from_slice(alloc, centres)?;
    match Coefficients::new(alloc, list.len(), variables) {
        Ok(Some(coefficients)) => {
            let ranges = Ranges::new(alloc, grids, coefficients, centres);
            filled(function, list, boxes, ranges)
        }
        Ok(None) => Ok(Err(Unplanned::at(0))),
        Err(memory) => Err(memory),
    }
}

/// The narrower of a node's plain range and its form's, and whether it is the form's.
fn own_range(ranges: &Ranges, n: usize, node: &Node) -> Option<(FixedInterval, bool)> {
    match (plain_range(ranges, node), ranges.form(n)) {
        (Some(plain), Some(form)) => match shown_range(ranges, n, &form) {
            Some(by_form) => narrower(plain, by_form),
            None => None,
        },
        (Some(plain), None) => Some((plain, false)),
        (None, _) => None,
    }
}

/// The narrowest of a node's plain range, its form's and one that templates show, and which it is.
fn narrowest(
    ranges: &Ranges,
    n: usize,
    node: &Node,
    by_templates: Option<FixedInterval>,
) -> Option<(FixedInterval, bool, bool)> {
    match (own_range(ranges, n, node), by_templates) {
        (Some((own, by_form)), Some(range)) => match narrower(own, range) {
            Some((best, is_new)) => Some((best, by_form && !is_new, is_new)),
            None => None,
        },
        (Some((own, by_form)), None) => Some((own, by_form, false)),
        (None, _) => None,
    }
}

impl Ranges {
    /// Narrows the range of an operation after those of its operands, and answers whether templates show it.
    pub fn narrow(&mut self, n: usize, node: &Node, by_templates: Option<FixedInterval>) -> bool {
        match narrowest(self, n, node, by_templates) {
            Some((span, by_form, is_by_templates)) => {
                self.put_span(n, span);
                self.put_shown(n, by_form);
                is_by_templates
            }
            None => false,
        }
    }
}
