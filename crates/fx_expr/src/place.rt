//! Subtrees by their paths: found, and exchanged for others in place.
//!
//! A path counts operands from 0. Nothing is copied: a tree is moved out as another is moved in.
ghost use Rattle.std.specs.Prelude.{◌≡◌, Some, None, MatchOption, IsSome};
ghost use Rattle.fx_model.specs.Paths.{child, subtree, put};
ghost use Rattle.fx_expr.specs.TreeOf.{tree};

use crate::expr::Expr;
use std::mem::replace;

/// The operand of that number.
pub fn operand(e: &Expr, number: u8) -> Option<&Expr>
    ensures { MatchOption result (child number (tree e.now) ≡ None)
        (λ r. child number (tree e.now) ≡ Some (tree r.now)) }
{
    if number == 0 {
        match e {
            Expr::Neg(a) => Some(a),
            Expr::Add(a, _) => Some(a),
            Expr::Sub(a, _) => Some(a),
            Expr::Mul(a, _) => Some(a),
            Expr::Div(a, _) => Some(a),
            _ => None,
        }
    } else if number == 1 {
        match e {
            Expr::Add(_, b) => Some(b),
            Expr::Sub(_, b) => Some(b),
            Expr::Mul(_, b) => Some(b),
            Expr::Div(_, b) => Some(b),
            _ => None,
        }
    } else {
        None
    }
}

/// The subtree at a path, and `None` where it leads nowhere.
pub fn at<'a>(e: &'a Expr, path: &[u8]) -> Option<&'a Expr>
    ensures { MatchOption result (subtree path.now (tree e.now) ≡ None)
        (λ r. subtree path.now (tree e.now) ≡ Some (tree r.now)) }
{
    match path {
        [] => Some(e),
        [number, rest @ ..] => {
            let below = operand(e, *number)?;
            at(below, rest)
        }
    }
}

/// Puts a tree in place of the subtree at a path, and gives the subtree. Where the path leads nowhere, all stays.
pub fn exchange(e: &mut Expr, path: &[u8], new: Expr) -> Expr
    ensures changed { tree e.new ≡ put path.now (tree new) (tree e.old) }
    ensures old { IsSome (subtree path.now (tree e.old)) → subtree path.now (tree e.old) ≡ Some (tree result) }
{
    match path {
        [] => replace(e, new),
        [number, rest @ ..] => match e {
            Expr::Neg(a) => {
                if *number == 0 {
                    exchange(a, rest, new)
                } else {
                    new
                }
            }
            Expr::Add(a, b) => {
                if *number == 0 {
                    exchange(a, rest, new)
                } else if *number == 1 {
                    exchange(b, rest, new)
                } else {
                    new
                }
            }
            Expr::Sub(a, b) => {
                if *number == 0 {
                    exchange(a, rest, new)
                } else if *number == 1 {
                    exchange(b, rest, new)
                } else {
                    new
                }
            }
            Expr::Mul(a, b) => {
                if *number == 0 {
                    exchange(a, rest, new)
                } else if *number == 1 {
                    exchange(b, rest, new)
                } else {
                    new
                }
            }
            Expr::Div(a, b) => {
                if *number == 0 {
                    exchange(a, rest, new)
                } else if *number == 1 {
                    exchange(b, rest, new)
                } else {
                    new
                }
            }
            _ => new,
        },
    }
}
