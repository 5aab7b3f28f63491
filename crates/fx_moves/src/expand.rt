//! One turn of an expansion: a rule that brings a product of sums nearer to a sum of products, or a negation inward.

use crate::draft::{Draft, Site};
use crate::moves::{HERE, LEFT, RIGHT};
use crate::rule::{
    ADD_NEGATION, DROP_NEGATIONS, EXCHANGE_FACTORS, NEGATE_TERMS, SUBTRACT, TAKE_NEGATION,
};
use fx_expr::Expr;
use fx_num::Memory;
use std::alloc::Global;

/// A rule at a path below a site.
#[derive(Clone, Copy)]
struct Turn {
    is_first: bool,
    is_second: bool,
    rule: u8,
}

/// A rule at the site itself.
fn here(rule: u8) -> Option<Turn> {
    Some(Turn {
        is_first: false,
        is_second: false,
        rule,
    })
}

/// A rule at the first operand.
fn at_first(rule: u8) -> Option<Turn> {
    Some(Turn {
        is_first: true,
        is_second: false,
        rule,
    })
}

/// A rule at the second operand.
fn at_second(rule: u8) -> Option<Turn> {
    Some(Turn {
        is_first: false,
        is_second: true,
        rule,
    })
}

/// What expands a product.
fn product_turn(a: &Expr, b: &Expr) -> Option<Turn> {
    match (a, b) {
        (_, Expr::Add(_, _)) => here(7),
        (_, Expr::Sub(_, _)) => here(9),
        (Expr::Add(_, _), _) => here(8),
        (Expr::Sub(_, _), _) => here(10),
        (Expr::Neg(_), _) => here(TAKE_NEGATION),
        (_, Expr::Neg(_)) => here(EXCHANGE_FACTORS),
        _ => None,
    }
}

/// What brings the negation of a tree further in.
fn negation_turn(a: &Expr) -> Option<Turn> {
    match a {
        Expr::Add(_, _) => here(NEGATE_TERMS),
        Expr::Sub(_, _) => at_first(ADD_NEGATION),
        Expr::Neg(_) => here(DROP_NEGATIONS),
        _ => None,
    }
}

/// What rids a sum of the negation that is its second operand.
fn sum_turn(b: &Expr) -> Option<Turn> {
    match b {
        Expr::Neg(c) => if matches!(**c, Expr::Neg(_)) {
            at_second(DROP_NEGATIONS)
        } else {
            here(SUBTRACT)
        },
        _ => None,
    }
}

/// What rids a difference of the negation that is its second operand: it becomes a sum first.
fn difference_turn(b: &Expr) -> Option<Turn> {
    match b {
        Expr::Neg(_) => here(ADD_NEGATION),
        _ => None,
    }
}

/// What expands a tree a little.
fn expansion(e: &Expr) -> Option<Turn> {
    match e {
        Expr::Mul(a, b) => product_turn(a, b),
        Expr::Neg(a) => negation_turn(a),
        Expr::Add(_, b) => sum_turn(b),
        Expr::Sub(_, b) => difference_turn(b),
        _ => None,
    }
}

/// Makes a turn.
fn make(alloc: Global, draft: &mut Draft, site: &Site, turn: Turn) -> Result<bool, Memory> {
    let below = if turn.is_first {
        LEFT
    } else if turn.is_second {
        RIGHT
    } else {
        HERE
    };
    draft.apply(alloc, site, below, turn.rule)
}

/// Expands the tree at a site a little.
pub(crate) fn expand_at(alloc: Global, draft: &mut Draft, site: &Site) -> Result<bool, Memory> {
    let turn = match draft.at(site) {
        Some(e) => expansion(e),
        None => None,
    };
    match turn {
        Some(turn) => make(alloc, draft, site, turn),
        None => Ok(false),
    }
}
