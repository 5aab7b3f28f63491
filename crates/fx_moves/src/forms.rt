//! Directed forms: the drafts that a chain of rules leads to, without a draw.
//!
//! A form is made in passes over all operations (`run`): products of sums are expanded, the literals of a product
//! become one that stands first, and then common variables are taken out one after the other, in a given order
//! (`factor_by`): that is Horner's scheme, by each variable. Each pass is a few rules at one place, and begins a little
//! before it again where it changed something.

use crate::cleaning::clean_all;
use crate::draft::{Draft, Site};
use crate::expand::expand_at;
use crate::factor::{below, factors, operand_at, pull, terms};
use crate::moves::{HERE, LEFT, RIGHT, always, follow, is_minus, rotate_left};
use crate::rule::{EXCHANGE_FACTORS, FOLD_PRODUCT, GROUP_FACTORS_RIGHT};
use crate::site::site_of;
use crate::take_out::factor_at;
use fx_expr::{Expr, at, operand, same};
use fx_num::Memory;
use std::alloc::Global;

/// How many sites a pass looks at, some of them twice, at most.
const TURNS: u32 = 4096;

/// How many nodes a function has, at most, where a pass goes on.
const MOST_NODES: u32 = 400;

/// How often a variable is taken out, at most.
const ROUNDS: u32 = 64;

/// How often an expansion begins again.
const EXPANSIONS: u32 = 4;

/// What a pass does.
#[derive(Clone, Copy)]
enum Pass {
    /// Products of sums become sums of products.
    Expand,
    /// `a + (b + c)` becomes `(a + b) + c`.
    Flatten,
    /// Two literals of a product become one.
    Merge,
    /// The literal of a product goes to its left end.
    Lead,
    /// A variable that two terms of a chain have is taken out.
    Factor { variable: u32 },
    /// `(a * x) * x` becomes `a * (x * x)`.
    Pair,
}

/// Whether the second operand of a sum is a sum.
fn is_nested(e: &Expr) -> bool {
    match terms(e) {
        Some((_, b)) => is_minus(b).is_some(),
        None => false,
    }
}

/// Brings the terms of a sum's second operand into its chain.
fn flatten_at(alloc: Global, draft: &mut Draft, site: &Site) -> Result<bool, Memory> {
    match draft.at(site) {
        Some(e) => if is_nested(e) {
            rotate_left(alloc, draft, site)
        } else {
            Ok(false)
        },
        None => Ok(false),
    }
}

/// Appends those of the paths at which a literal stands.
fn put_literals(
    alloc: Global,
    e: &Expr,
    paths: &[Vec<u8>],
    found: &mut Vec<Vec<u8>>,
) -> Result<(), Memory> {
    for path in paths {
        if matches!(at(e, path), Some(Expr::Lit(_))) {
            found.push(Vec::from_slice(alloc, path)?)?;
        }
    }
    Ok(())
}

/// Appends the paths of a product's factors that are literals.
fn put_literal_factors(alloc: Global, e: &Expr, found: &mut Vec<Vec<u8>>) -> Result<(), Memory> {
    let paths = factors(alloc, e)?;
    put_literals(alloc, e, &paths, found)
}

/// The paths of a product's factors that are literals, in their order. None of any other tree.
fn literals(alloc: Global, e: &Expr) -> Result<Vec<Vec<u8>>, Memory> {
    let mut found = Vec::new(alloc);
    if matches!(e, Expr::Mul(_, _)) {
        put_literal_factors(alloc, e, &mut found)?;
    }
    Ok(found)
}

/// The literals of what stands at a site.
fn literals_at(alloc: Global, draft: &Draft, site: &Site) -> Result<Vec<Vec<u8>>, Memory> {
    match draft.at(site) {
        Some(e) => literals(alloc, e),
        None => Ok(Vec::new(alloc)),
    }
}

/// Brings the last literal of the product at a site to its right end, if it has one.
fn pull_last_literal(alloc: Global, draft: &mut Draft, site: &Site) -> Result<bool, Memory> {
    let all = literals_at(alloc, draft, site)?;
    match all.last() {
        Some(path) => pull(alloc, draft, site, path),
        None => Ok(false),
    }
}

/// Folds the literal that is the last factor of a product and another one, which stands further left.
fn fold_further(alloc: Global, draft: &mut Draft, site: &Site) -> Result<bool, Memory> {
    let left = below(alloc, site, LEFT)?;
    if pull_last_literal(alloc, draft, &left)? {
        let turns = [
            always(HERE, GROUP_FACTORS_RIGHT),
            always(RIGHT, FOLD_PRODUCT),
        ];
        follow(alloc, draft, site, &turns)
    } else {
        Ok(false)
    }
}

/// The product's last factor is a literal: brings another one beside it, and folds both.
fn fold_last(alloc: Global, draft: &mut Draft, site: &Site) -> Result<bool, Memory> {
    if matches!(operand_at(draft, site, 0), Some(Expr::Lit(_))) {
        draft.apply(alloc, site, HERE, FOLD_PRODUCT)
    } else {
        fold_further(alloc, draft, site)
    }
}

/// Brings the first of several literals of the product at a site to its right end.
fn pull_first_literal(alloc: Global, draft: &mut Draft, site: &Site) -> Result<bool, Memory> {
    let all = literals_at(alloc, draft, site)?;
    match (all.first(), all.get(1)) {
        (Some(path), Some(_)) => pull(alloc, draft, site, path),
        _ => Ok(false),
    }
}

/// Makes one literal of two that a product has.
fn merge_at(alloc: Global, draft: &mut Draft, site: &Site) -> Result<bool, Memory> {
    if pull_first_literal(alloc, draft, site)? {
        fold_last(alloc, draft, site)
    } else {
        Ok(false)
    }
}

/// Whether a path leads to the left end.
fn is_left_end(path: &[u8]) -> bool {
    path.iter().all(|digit| *digit == 0)
}

/// Brings the last literal of the product at a site to its right end, unless it stands at the left end.
fn pull_trailing_literal(alloc: Global, draft: &mut Draft, site: &Site) -> Result<bool, Memory> {
    let all = literals_at(alloc, draft, site)?;
    match all.last() {
        Some(path) => if is_left_end(path) {
            Ok(false)
        } else {
            pull(alloc, draft, site, path)
        },
        None => Ok(false),
    }
}

/// Brings the literal of a product to its left end. Nothing is left to do there, so the pass goes on.
fn lead_at(alloc: Global, draft: &mut Draft, site: &Site) -> Result<bool, Memory> {
    if pull_trailing_literal(alloc, draft, site)? {
        let _ = draft.apply(alloc, site, HERE, EXCHANGE_FACTORS)?;
    }
    Ok(false)
}

/// Whether a tree is `(a * x) * x`.
fn is_paired(e: &Expr) -> bool {
    match e {
        Expr::Mul(a, c) => match operand(a, 1) {
            Some(b) => matches!(**a, Expr::Mul(_, _)) && same(b, c),
            None => false,
        },
        _ => false,
    }
}

/// `(a * x) * x` to `a * (x * x)`.
fn pair_at(alloc: Global, draft: &mut Draft, site: &Site) -> Result<bool, Memory> {
    let is_there = match draft.at(site) {
        Some(e) => is_paired(e),
        None => false,
    };
    if is_there {
        draft.apply(alloc, site, &[], GROUP_FACTORS_RIGHT)
    } else {
        Ok(false)
    }
}

/// What a pass does at a site, and whether anything was changed.
fn turn_at(
    alloc: Global,
    draft: &mut Draft,
    site: &Site,
    inputs: u32,
    pass: Pass,
) -> Result<bool, Memory> {
    match pass {
        Pass::Expand => expand_at(alloc, draft, site),
        Pass::Flatten => flatten_at(alloc, draft, site),
        Pass::Merge => merge_at(alloc, draft, site),
        Pass::Lead => lead_at(alloc, draft, site),
        Pass::Factor { variable } => factor_at(alloc, draft, site, inputs, variable),
        Pass::Pair => pair_at(alloc, draft, site),
    }
}

/// Has a pass look at the operation of this number, if there is one, and gives the number of the one to look at next.
fn pass_over(
    alloc: Global,
    draft: &mut Draft,
    inputs: u32,
    pass: Pass,
    number: u32,
) -> Result<Option<u32>, Memory> {
    match site_of(alloc, &draft.function, number)? {
        Some(site) => {
            let is_changed = turn_at(alloc, draft, &site, inputs, pass)?;
            Ok(Some(if is_changed {
                number.saturating_sub(2)
            } else {
                number.saturating_add(1)
            }))
        }
        None => Ok(None),
    }
}

/// A pass over all operations.
fn run(alloc: Global, draft: &mut Draft, pass: Pass) -> Result<(), Memory> {
    let inputs = u32::try_from(draft.function.inputs.len()).unwrap_or(u32::MAX);
    let mut number = 0_u32;
    for _turn in 0..TURNS {
        if draft.function.nodes() > MOST_NODES {
            return Ok(());
        }
        match pass_over(alloc, draft, inputs, pass, number)? {
            Some(next) => number = next,
            None => return Ok(()),
        }
    }
    Ok(())
}

/// Expands all products of sums, and makes chains of all sums.
pub fn expand_all(alloc: Global, draft: &mut Draft) -> Result<(), Memory> {
    for _turn in 0..EXPANSIONS {
        let before = draft.steps.len();
        run(alloc, draft, Pass::Expand)?;
        if draft.steps.len() == before {
            break;
        }
    }
    run(alloc, draft, Pass::Flatten)?;
    run(alloc, draft, Pass::Merge)?;
    run(alloc, draft, Pass::Lead)
}

/// Takes a variable out wherever two terms have it.
fn factor_variable(alloc: Global, draft: &mut Draft, variable: u32) -> Result<(), Memory> {
    for _round in 0..ROUNDS {
        let before = draft.steps.len();
        run(alloc, draft, Pass::Factor { variable })?;
        run(alloc, draft, Pass::Flatten)?;
        clean_all(alloc, draft)?;
        if draft.steps.len() == before {
            return Ok(());
        }
    }
    Ok(())
}

/// Takes the variables out one after the other: the inputs by their numbers, then the temps.
pub fn factor_by(alloc: Global, draft: &mut Draft, order: &[u32]) -> Result<(), Memory> {
    for variable in order {
        factor_variable(alloc, draft, *variable)?;
    }
    Ok(())
}

/// `(a * x) * x` to `a * (x * x)`, everywhere.
pub fn pair_squares(alloc: Global, draft: &mut Draft) -> Result<(), Memory> {
    run(alloc, draft, Pass::Pair)
}
