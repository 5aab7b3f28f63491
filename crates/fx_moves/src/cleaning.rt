//! Cleaning: literals are folded, quotients by literals become products, and `--a` becomes `a`.
//!
//! The sites are listed before anything is changed, an operand before what it is an operand of, so that each path still
//! leads to its tree when its turn comes.

use crate::draft::{Draft, Site, places};
use crate::rule::CLEANING;
use fx_expr::Expr;
use fx_num::Memory;
use std::alloc::Global;

/// Whether there may be something to clean at a tree, whose operands become literals or not.
fn may_be_cleaned(e: &Expr, left: bool, right: bool) -> bool {
    match e {
        Expr::Neg(a) => left || matches!(**a, Expr::Neg(_)),
        Expr::Div(_, _) => right,
        Expr::Add(_, _) | Expr::Sub(_, _) | Expr::Mul(_, _) => left && right,
        _ => false,
    }
}

/// Appends the path of a tree, if there may be something to clean, and answers whether the tree becomes a literal.
fn put_path(
    alloc: Global,
    e: &Expr,
    path: &[u8],
    (left, right): (bool, bool),
    out: &mut Vec<Vec<u8>>,
) -> Result<bool, Memory> {
    if may_be_cleaned(e, left, right) {
        out.push(Vec::from_slice(alloc, path)?)?;
    }
    Ok(left && right)
}

/// Appends the paths at which there may be something to clean, and answers whether the tree becomes a literal.
#[cycle(listing)]
fn put_paths(
    alloc: Global,
    e: &Expr,
    path: &mut Vec<u8>,
    out: &mut Vec<Vec<u8>>,
) -> Result<bool, Memory> {
    match e {
        Expr::Lit(_) => Ok(true),
        Expr::Input(_) | Expr::State(_) | Expr::Temp(_) => Ok(false),
        Expr::Neg(a) => {
            let folds = put_below(alloc, a, 0, path, out)?;
            put_path(alloc, e, path, (folds, true), out)
        }
        Expr::Add(a, b) | Expr::Sub(a, b) | Expr::Mul(a, b) | Expr::Div(a, b) => {
            let left = put_below(alloc, a, 0, path, out)?;
            let right = put_below(alloc, b, 1, path, out)?;
            put_path(alloc, e, path, (left, right), out)
        }
    }
}

/// Appends the paths below an operand, and answers whether it becomes a literal.
#[cycle(listing)]
fn put_below(
    alloc: Global,
    e: &Expr,
    number: u8,
    path: &mut Vec<u8>,
    out: &mut Vec<Vec<u8>>,
) -> Result<bool, Memory> {
    path.push(number)?;
    let is_literal = put_paths(alloc, e, path, out)?;
    let _ = path.pop();
    Ok(is_literal)
}

/// Applies the first cleaning rule that matches.
fn clean_at(alloc: Global, draft: &mut Draft, site: &Site, below: &[u8]) -> Result<bool, Memory> {
    for rule in &CLEANING {
        if draft.apply(alloc, site, below, *rule)? {
            return Ok(true);
        }
    }
    Ok(false)
}

/// Cleans at each of these paths below a site, and answers whether anything was changed.
fn clean_at_each(
    alloc: Global,
    draft: &mut Draft,
    site: &Site,
    paths: &[Vec<u8>],
) -> Result<bool, Memory> {
    let mut is_changed = false;
    for path in paths {
        if clean_at(alloc, draft, site, path)? {
            is_changed = true;
        }
    }
    Ok(is_changed)
}

/// Appends the paths at which there may be something to clean in the tree at a site.
fn put_paths_at(
    alloc: Global,
    draft: &Draft,
    site: &Site,
    out: &mut Vec<Vec<u8>>,
) -> Result<(), Memory> {
    let mut path = Vec::new(alloc);
    match draft.at(site) {
        Some(e) => match put_paths(alloc, e, &mut path, out) {
            Ok(_) => Ok(()),
            Err(memory) => Err(memory),
        },
        None => Ok(()),
    }
}

/// Cleans the tree at a site, and answers whether anything was changed. Nothing of it is drawn.
pub fn clean(alloc: Global, draft: &mut Draft, site: &Site) -> Result<bool, Memory> {
    let mut paths = Vec::new(alloc);
    put_paths_at(alloc, draft, site, &mut paths)?;
    let was = draft.direct(true);
    let is_changed = clean_at_each(alloc, draft, site, &paths);
    let _ = draft.direct(was);
    is_changed
}

/// Cleans the tree of this number.
fn clean_tree(alloc: Global, draft: &mut Draft, place: u32) -> Result<bool, Memory> {
    let site = Site {
        place,
        path: Vec::new(alloc),
    };
    clean(alloc, draft, &site)
}

/// Cleans all trees.
pub fn clean_all(alloc: Global, draft: &mut Draft) -> Result<(), Memory> {
    for place in 0..places(&draft.function) {
        let _ = clean_tree(alloc, draft, place)?;
    }
    Ok(())
}
