//! The codes of nodes at given points, with the nearest words.

use crate::range::Unplanned;
use fx_expr::Function;
use fx_flat::Node;
use fx_fraction::{Fraction, to_fraction};
use fx_lowering::code_at;
use fx_num::Memory;
use fx_program::{Code, Round, is_point};
use fx_search_numbers::{nearest, word_at};
use std::alloc::Global;

/// The nearest word of a number at a point.
fn nearest_word(c: Fraction, f: i32, width: u32) -> Option<i64> {
    match nearest(c, f) {
        Some(w) => word_at(w, width),
        None => None,
    }
}

/// The word that a state starts with: the nearest.
pub fn start_word(function: &Function, k: usize, f: i32, width: u32) -> Option<i64> {
    match function.states.as_slice().get(k) {
        Some(state) => nearest_word(to_fraction(state.start), f, width),
        None => None,
    }
}

/// The word of a node at a point, where its code has one: the nearest.
fn word_of(function: &Function, node: &Node, f: i32, width: u32) -> Option<i64> {
    match node {
        Node::State { k } => start_word(function, *k as usize, f, width),
        Node::Const { c } => nearest_word(*c, f, width),
        // no other code has a word
        _ => Some(0),
    }
}

/// The code of a node at a point, with the nearest word.
fn nearest_code(
    function: &Function,
    node: &Node,
    f: i32,
    points: &[i32],
    width: u32,
    round: Round,
) -> Option<Code> {
    match word_of(function, node, f, width) {
        Some(w) => code_at(node, w, f, points, width, round),
        None => None,
    }
}

/// Whether a node has a code at a point, after those of its operands.
pub fn has_code(function: &Function, node: &Node, f: i32, points: &[i32], width: u32) -> bool {
    // which shifts there are doesn't depend on how they round
    is_point(f) && nearest_code(function, node, f, points, width, Round::Floor).is_some()
}

/// The code of node `n`, where its point is one.
fn nth_code(
    function: &Function,
    nodes: &[Node],
    n: usize,
    points: &[i32],
    width: u32,
    round: Round,
) -> Option<Code> {
    match (points.get(n), nodes.get(n)) {
        (Some(f), Some(node)) => if is_point(*f) {
            nearest_code(function, node, *f, points, width, round)
        } else {
            None
        },
        _ => None,
    }
}

/// The codes of all nodes that round so, or the first node whose point gives no code of the width.
pub fn codes_of(
    alloc: Global,
    function: &Function,
    nodes: &[Node],
    points: &[i32],
    width: u32,
    round: Round,
) -> Result<Result<Vec<Code>, Unplanned>, Memory> {
    let mut codes = Vec::new(alloc);
    for n in 0..nodes.len() {
        match nth_code(function, nodes, n, points, width, round) {
            Some(code) => codes.push(code)?,
            None => return Ok(Err(Unplanned::at(n))),
        }
    }
    Ok(Ok(codes))
}
