//! The paths of a tree, one after the other: each before those that it is a prefix of, and 0 before 1.
ghost use Rattle.std.specs.Prelude.{◌≡◌, ◌∷◌, ◌++◌, [], Some, IfOk};
ghost use Rattle.std.specs.Option.{option_map};
ghost use Rattle.fx_model.specs.Paths.{tree_at};
ghost use Rattle.fx_expr.specs.TreeOf.{tree};
ghost use Rattle.fx_rewrite.specs.Ahead.{ahead, steps_behind};
ghost use Rattle.fx_rewrite.specs.NextPath.{next_path};
ghost use Rattle.fx_rewrite.specs.ForkOf.{Forks};

use fx_expr::{Expr, Function, operand};
use fx_num::Memory;
use std::alloc::Global;

/// How the next path differs: so many entries stay, and then this one comes.
#[derive(Clone, Copy, Debug, PartialEq, Eq)]
pub struct Fork {
    keep: usize,
    number: u8,
}

/// Where the next path leaves this one.
fn turning(e: &Expr, path: &[u8]) -> Option<Fork>
    ensures { Forks path.now result (next_path path.now (tree e.now)) }
{
    match path {
        [] => {
            operand(e, 0)?;
            Some(Fork { keep: 0, number: 0 })
        }
        [number, rest @ ..] => {
            let inner = operand(e, *number)?;
            if let Some(fork) = turning(inner, rest) {
                return Some(Fork {
                    keep: fork.keep + 1,
                    number: fork.number,
                });
            }
            if *number == 0 && operand(e, 1).is_some() {
                Some(Fork { keep: 0, number: 1 })
            } else {
                None
            }
        }
    }
}

/// A path of these entries and one more.
fn and_one(alloc: Global, front: &[u8], number: u8) -> Result<Vec<u8>, Memory>
    ensures { IfOk result (λ path. path.items ≡ front.now ++ number ∷ []) }
{
    let mut path = Vec::new(alloc);
    path.extend_from_slice(front)?;
    path.push(number)?;
    Ok(path)
}

/// The path behind this one, if there is one.
fn next_in(alloc: Global, e: &Expr, path: &[u8]) -> Result<Option<Vec<u8>>, Memory>
    ensures { IfOk result (λ next. option_map (λ p. p.items) next ≡ next_path path.now (tree e.now)) }
{
    match turning(e, path) {
        Some(fork) => Ok(Some(and_one(alloc, &path[..fork.keep], fork.number)?)),
        None => Ok(None),
    }
}

/// A place and a path.
#[derive(Debug, Drop)]
pub struct Position {
    pub place: u32,
    pub path: Vec<u8>,
}

/// The place and the path behind these, where `whole` is the tree at the place.
pub fn position_after(
    alloc: Global,
    function: &Function,
    whole: &Expr,
    place: u32,
    path: &[u8],
) -> Result<Position, Memory>
    requires { tree_at function.now place ≡ Some (tree whole.now) }
    ensures { IfOk result (λ p. steps_behind function.now place path.now (tree whole.now)
        ≡ ahead function.now p.place p.path.items 1) }
{
    function.keeps();
    match next_in(alloc, whole, path)? {
        Some(path) => Ok(Position { place, path }),
        None => Ok(Position {
            place: place + 1,
            path: Vec::new(alloc),
        }),
    }
}

/// An equal path.
pub fn copied(alloc: Global, path: &[u8]) -> Result<Vec<u8>, Memory>
    ensures { IfOk result (λ copy. copy.items ≡ path.now) }
{
    let mut copy = Vec::new(alloc);
    copy.extend_from_slice(path)?;
    Ok(copy)
}
