//! The first rule that can be applied at a tree.
ghost use Rattle.std.specs.Prelude.{◌≡◌, ◌+◌, ℕ, List, Some, length};
ghost use Rattle.fx_model.specs.Paths.{found, tree_at};
ghost use Rattle.fx_expr.specs.TreeOf.{tree};
ghost use Rattle.fx_rewrite.specs.FirstOf.{Begins};

use crate::found::Found;
use crate::judge::admit;
use fx_expr::{Expr, Function, at};
use fx_step::RULE_COUNT;

// As a step counts them.
const LAST_RULE: u8 = RULE_COUNT as u8;

/// The first of the rules from this number on that can be applied to `old`, which is found so deep in the function.
fn first_rule<'a>(
    function: &Function,
    old: &'a Expr,
    depth: usize,
    from: u8,
    letters: &mut Found<'a>,
) -> Option<u8>
    ensures { (place : ℕ) → (path : List ℕ) → found function.now place path ≡ Some (tree old.now) →
        depth ≡ length path →
        Begins function.now place path from result }
{
    if from > LAST_RULE {
        return None;
    }
    match admit(function, old, depth, from, letters) {
        Ok(_) => Some(from),
        Err(_) => first_rule(function, old, depth, from + 1, letters),
    }
}

/// The first of the rules from this number on that can be applied at a path in a tree of the function.
pub fn first_at(function: &Function, whole: &Expr, path: &[u8], from: u8) -> Option<u8>
    ensures { (place : ℕ) → tree_at function.now place ≡ Some (tree whole.now) →
        Begins function.now place path.now from result }
{
    let Some(old) = at(whole, path) else {
        return None;
    };
    first_rule(function, old, path.len(), from, &mut Found::nothing())
}
