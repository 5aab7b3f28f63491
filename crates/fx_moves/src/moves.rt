//! Moves: a few rules at one place, in a fixed order.
//!
//! A move looks at the signs first and then follows its table. Where a rule in the middle is refused, as at a limit,
//! what was done stays: the steps so far are a draft as good as any.

use crate::draft::{Draft, Site};
use crate::rule::{
    ADD_NEGATION, DROP_NEGATIONS, EXCHANGE_FACTORS, EXCHANGE_TERMS, GROUP_FACTORS_LEFT,
    GROUP_FACTORS_RIGHT, GROUP_TERMS_LEFT, GROUP_TERMS_RIGHT, NEGATE_TERMS, SUBTRACT,
};
use fx_expr::{Expr, operand};
use fx_num::Memory;
use std::alloc::Global;

/// The tree itself.
pub const HERE: &[u8] = &[];
/// Its first operand.
pub const LEFT: &[u8] = &[0];
/// Its second operand.
pub const RIGHT: &[u8] = &[1];

/// A rule at a path below a move's site, if the move has it.
#[derive(Clone, Copy)]
pub struct Turn<'a> {
    is_part: bool,
    below: &'a [u8],
    rule: u8,
}

/// A rule at a path, if it is part of a move.
pub fn when<'a>(is_part: bool, below: &'a [u8], rule: u8) -> Turn<'a> {
    Turn {
        is_part,
        below,
        rule,
    }
}

/// A rule at a path.
pub fn always<'a>(below: &'a [u8], rule: u8) -> Turn<'a> {
    when(true, below, rule)
}

/// Makes the turns in their order, and answers whether all were made.
pub fn follow(
    alloc: Global,
    draft: &mut Draft,
    site: &Site,
    turns: &[Turn<'_>],
) -> Result<bool, Memory> {
    for turn in turns {
        if turn.is_part && !draft.apply(alloc, site, turn.below, turn.rule)? {
            return Ok(false);
        }
    }
    Ok(true)
}

/// Whether a tree is a difference, if it is a sum or a difference.
pub fn is_minus(e: &Expr) -> Option<bool> {
    match e {
        Expr::Add(_, _) => Some(false),
        Expr::Sub(_, _) => Some(true),
        _ => None,
    }
}

/// Whether an operand of a tree is a difference, if it is a sum or a difference.
fn is_operand_minus(e: &Expr, number: u8) -> Option<bool> {
    match operand(e, number) {
        Some(a) => is_minus(a),
        None => None,
    }
}

/// Whether the tree at a site, and one of its operands, are differences.
fn signs(draft: &Draft, site: &Site, number: u8) -> Option<(bool, bool)> {
    let (outer, inner) = match draft.at(site) {
        Some(e) => (is_minus(e), is_operand_minus(e, number)),
        None => (None, None),
    };
    match (outer, inner) {
        (Some(outer), Some(inner)) => Some((outer, inner)),
        _ => None,
    }
}

/// `(a + b) + c` to `(a + c) + b`, with any signs.
pub fn swap(alloc: Global, draft: &mut Draft, site: &Site) -> Result<bool, Memory> {
    match signs(draft, site, 0) {
        Some((outer, inner)) => {
            let turns = [
                when(outer, HERE, ADD_NEGATION),
                when(inner, LEFT, ADD_NEGATION),
                always(HERE, GROUP_TERMS_RIGHT),
                always(RIGHT, EXCHANGE_TERMS),
                always(HERE, GROUP_TERMS_LEFT),
                when(outer, LEFT, SUBTRACT),
                when(inner, HERE, SUBTRACT),
            ];
            follow(alloc, draft, site, &turns)
        }
        None => Ok(false),
    }
}

/// `(a + b) + c` to `a + (b + c)`, with any signs.
pub fn rotate_right(alloc: Global, draft: &mut Draft, site: &Site) -> Result<bool, Memory> {
    match signs(draft, site, 0) {
        Some((outer, inner)) => {
            let turns = [
                when(outer, HERE, ADD_NEGATION),
                when(inner, LEFT, ADD_NEGATION),
                always(HERE, GROUP_TERMS_RIGHT),
                when(inner && !outer, RIGHT, EXCHANGE_TERMS),
                when(inner || outer, RIGHT, SUBTRACT),
            ];
            follow(alloc, draft, site, &turns)
        }
        None => Ok(false),
    }
}

/// `a + (b + c)` to `(a + b) + c`, with any signs.
pub fn rotate_left(alloc: Global, draft: &mut Draft, site: &Site) -> Result<bool, Memory> {
    match signs(draft, site, 1) {
        Some((outer, inner)) => {
            let both = outer && inner;
            let turns = [
                when(outer, HERE, ADD_NEGATION),
                when(both, &[1, 0], ADD_NEGATION),
                when(outer, RIGHT, NEGATE_TERMS),
                when(both, &[1, 1], DROP_NEGATIONS),
                when(inner && !outer, RIGHT, ADD_NEGATION),
                always(HERE, GROUP_TERMS_LEFT),
                when(outer, LEFT, SUBTRACT),
                when(outer != inner, HERE, SUBTRACT),
            ];
            follow(alloc, draft, site, &turns)
        }
        None => Ok(false),
    }
}

/// `a + b` to `b + a`, and `a - b` to `-b + a`.
pub fn turn_round(alloc: Global, draft: &mut Draft, site: &Site) -> Result<bool, Memory> {
    let minus = match draft.at(site) {
        Some(e) => is_minus(e),
        None => None,
    };
    match minus {
        Some(minus) => {
            let turns = [
                when(minus, HERE, ADD_NEGATION),
                always(HERE, EXCHANGE_TERMS),
            ];
            follow(alloc, draft, site, &turns)
        }
        None => Ok(false),
    }
}

/// `(a * b) * c` to `(a * c) * b`.
pub fn exchange_last(alloc: Global, draft: &mut Draft, site: &Site) -> Result<bool, Memory> {
    let turns = [
        always(HERE, GROUP_FACTORS_RIGHT),
        always(RIGHT, EXCHANGE_FACTORS),
        always(HERE, GROUP_FACTORS_LEFT),
    ];
    follow(alloc, draft, site, &turns)
}
