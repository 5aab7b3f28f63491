//! What polishing tries: each nudge moves one or two things of an attempt by a little.

use fx_flat::Node;
use fx_num::Memory;
use fx_ranges::{Centre, Centres};
use std::alloc::Global;

/// By how much a point is moved.
const POINT_MOVES: [i32; 4] = [1, -1, -2, 3];

/// By how much two points are moved together.
const PAIR_MOVES: [(i32, i32); 4] = [(1, 1), (-1, -1), (1, -1), (-1, 1)];

/// By how many units a word is moved.
const WORD_MOVES: [i64; 4] = [1, -1, 2, -2];

/// Where the operands of a product may be centred.
const CENTRES: [Centre; 4] = [Centre::Middle, Centre::Low, Centre::High, Centre::Zero];

/// What is moved, and by how much or to where.
#[derive(Clone, Copy)]
pub enum Nudge {
    /// The point of a node.
    Point {
        n: usize,
        by: i32,
    },
    /// The word of a literal.
    Word {
        n: u32,
        units: i64,
    },
    /// The centres of a product's operands.
    Centre {
        n: usize,
        to: Centres,
    },
    /// The points of two nodes.
    Pair {
        n: usize,
        m: usize,
        by: i32,
        other: i32,
    },
}

/// The node whose point a node has to have, if there is one.
pub fn follows(node: &Node) -> Option<u32> {
    match node {
        Node::Neg { a } | Node::Copy { a } => Some(*a),
        _ => None,
    }
}

/// The operands of an operation with two.
fn operands(node: &Node) -> Option<(usize, usize)> {
    match node {
        Node::Add { a, b } | Node::Sub { a, b } | Node::Mul { a, b } | Node::Div { a, b } => {
            Some((*a as usize, *b as usize))
        }
        _ => None,
    }
}

/// Appends the moves of a node's point, if it has one of its own.
fn put_points(list: &mut Vec<Nudge>, n: usize, node: &Node) -> Result<(), Memory> {
    if follows(node).is_none() {
        for by in &POINT_MOVES {
            list.push(Nudge::Point { n, by: *by })?;
        }
    }
    Ok(())
}

/// Appends the moves of a literal's word.
fn put_words(list: &mut Vec<Nudge>, n: usize, node: &Node) -> Result<(), Memory> {
    if let Node::Const { .. } = node {
        let n = u32::try_from(n).unwrap_or(u32::MAX);
        for units in &WORD_MOVES {
            list.push(Nudge::Word { n, units: *units })?;
        }
    }
    Ok(())
}

/// Appends the centres of a product's first operand, with one of the second.
fn put_centre(list: &mut Vec<Nudge>, n: usize, a: Centre) -> Result<(), Memory> {
    for b in &CENTRES {
        list.push(Nudge::Centre {
            n,
            to: Centres { a, b: *b },
        })?;
    }
    Ok(())
}

/// Appends the centres of a product's operands.
fn put_centres(list: &mut Vec<Nudge>, n: usize, node: &Node) -> Result<(), Memory> {
    if let Node::Mul { .. } = node {
        for a in &CENTRES {
            put_centre(list, n, *a)?;
        }
    }
    Ok(())
}

/// Appends the moves of two different points.
fn put_pair(list: &mut Vec<Nudge>, n: usize, m: usize) -> Result<(), Memory> {
    if n != m {
        for (by, other) in &PAIR_MOVES {
            list.push(Nudge::Pair {
                n,
                m,
                by: *by,
                other: *other,
            })?;
        }
    }
    Ok(())
}

/// Appends the moves of the points of an operation and its operands, two at a time.
fn put_pairs(list: &mut Vec<Nudge>, n: usize, node: &Node) -> Result<(), Memory> {
    if let Some((a, b)) = operands(node) {
        put_pair(list, n, a)?;
        put_pair(list, n, b)?;
        put_pair(list, a, b)?;
    }
    Ok(())
}

/// The kinds of nudges.
#[derive(Clone, Copy)]
enum Kind {
    Points,
    Words,
    Centres,
    Pairs,
}

/// Appends the nudges of one kind of a node.
fn put(list: &mut Vec<Nudge>, kind: Kind, n: usize, node: &Node) -> Result<(), Memory> {
    match kind {
        Kind::Points => put_points(list, n, node),
        Kind::Words => put_words(list, n, node),
        Kind::Centres => put_centres(list, n, node),
        Kind::Pairs => put_pairs(list, n, node),
    }
}

/// Appends the nudges of one kind of all nodes.
fn put_all(list: &mut Vec<Nudge>, kind: Kind, nodes: &[Node]) -> Result<(), Memory> {
    for (n, node) in nodes.iter().enumerate() {
        put(list, kind, n, node)?;
    }
    Ok(())
}

/// All nudges of a function: points, words, centres, and points of two nodes.
pub fn nudges_of(alloc: Global, nodes: &[Node]) -> Result<Vec<Nudge>, Memory> {
    let mut list = Vec::new(alloc);
    put_all(&mut list, Kind::Points, nodes)?;
    put_all(&mut list, Kind::Words, nodes)?;
    put_all(&mut list, Kind::Centres, nodes)?;
    put_all(&mut list, Kind::Pairs, nodes)?;
    Ok(list)
}
