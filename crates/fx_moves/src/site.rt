//! The operations of a function, numbered tree by tree and in each from the root down, the left operand first.

use crate::draft::{Site, places};
use fx_expr::{Expr, Function, operand};
use fx_num::{HEIGHT_LIMIT, Memory};
use std::alloc::Global;

/// How many operations a tree has.
pub fn operations_in(e: &Expr) -> u32 {
    match e {
        Expr::Lit(_) | Expr::Input(_) | Expr::State(_) | Expr::Temp(_) => 0,
        Expr::Neg(a) => operations_in(a).saturating_add(1),
        Expr::Add(a, b) | Expr::Sub(a, b) | Expr::Mul(a, b) | Expr::Div(a, b) => {
            operations_in(a)
                .saturating_add(operations_in(b))
                .saturating_add(1)
        }
    }
}

/// How many operations a function has.
pub fn operations(function: &Function) -> u32 {
    let mut count = 0_u32;
    for place in 0..places(function) {
        if let Some(tree) = function.tree(place) {
            count = count.saturating_add(operations_in(tree));
        }
    }
    count
}

/// An operand of a tree, which of them it is, and the number that an operation has in it.
#[derive(Clone, Copy)]
struct Below<'a> {
    digit: u8,
    tree: &'a Expr,
    number: u32,
}

/// The second operand, in which an operation has this number.
fn second_with<'a>(tree: &'a Expr, number: u32) -> Option<Below<'a>> {
    match operand(tree, 1) {
        Some(second) => Some(Below {
            digit: 1,
            tree: second,
            number,
        }),
        None => None,
    }
}

/// The operand with the operation that is the one of this number behind the tree's own.
fn operand_with<'a>(tree: &'a Expr, number: u32) -> Option<Below<'a>> {
    match operand(tree, 0) {
        Some(first) => {
            let count = operations_in(first);
            if number < count {
                Some(Below {
                    digit: 0,
                    tree: first,
                    number,
                })
            } else {
                second_with(tree, number.saturating_sub(count))
            }
        }
        None => None,
    }
}

/// Appends the path to the operation of this number in a tree.
fn put_path_to(tree: &Expr, number: u32, path: &mut Vec<u8>) -> Result<(), Memory> {
    let mut here = tree;
    let mut left = number;
    for _level in 0..HEIGHT_LIMIT {
        if left == 0 {
            return Ok(());
        }
        match operand_with(here, left.saturating_sub(1)) {
            Some(below) => {
                path.push(below.digit)?;
                here = below.tree;
                left = below.number;
            }
            None => return Ok(()),
        }
    }
    Ok(())
}

/// The path to the operation of this number in a tree.
fn path_to(alloc: Global, tree: &Expr, number: u32) -> Result<Vec<u8>, Memory> {
    let mut path = Vec::new(alloc);
    put_path_to(tree, number, &mut path)?;
    Ok(path)
}

/// A tree of a function, its place, and the number that an operation has in it.
#[derive(Clone, Copy)]
struct Place<'a> {
    place: u32,
    tree: &'a Expr,
    number: u32,
}

/// The tree with the operation of this number.
fn place_of<'a>(function: &'a Function, number: u32) -> Option<Place<'a>> {
    let mut left = number;
    for place in 0..places(function) {
        if let Some(tree) = function.tree(place) {
            let count = operations_in(tree);
            if left < count {
                return Some(Place {
                    place,
                    tree,
                    number: left,
                });
            }
            left = left.saturating_sub(count);
        }
    }
    None
}

/// The site of the operation of this number.
pub fn site_of(alloc: Global, function: &Function, number: u32) -> Result<Option<Site>, Memory> {
    match place_of(function, number) {
        Some(found) => {
            let path = path_to(alloc, found.tree, found.number)?;
            Ok(Some(Site {
                place: found.place,
                path,
            }))
        }
        None => Ok(None),
    }
}
