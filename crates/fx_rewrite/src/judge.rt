//! Whether a step is there, tried by reference.
//!
//! The function was lawful, so only the path and the new tree decide the height, and only the old and the new tree the
//! nodes: nothing else is looked at.
ghost use Rattle.std.specs.Prelude.{◌≡◌, ◌↔◌, ◌+◌, ◌≤◌, ℕ, List, IsTrue, Some, None, MatchOption, MatchResult, length};
ghost use Rattle.fx_model.specs.Tree.{Tree};
ghost use Rattle.fx_model.specs.Paths.{with_tree};
ghost use Rattle.fx_model.specs.Paths as paths;
ghost use Rattle.fx_inequalities.specs.Rewriting.{Rewriting};
ghost use Rattle.fx_expr.specs.SizeOf.{size_of};
ghost use Rattle.fx_expr.specs.TreeOf.{tree};
ghost use Rattle.fx_rules.specs.Steps.{is_within_limits};
ghost use Rattle.fx_rewrite.specs.FoundOf.{found_of};
ghost use Rattle.fx_rewrite.specs.Refusals.{IsAdmitted, IsRefusedThere};

use crate::fault::StepFault;
use crate::found::Found;
use crate::matching::{Judged, Match, Sizes, judge};
use fx_expr::{Expr, Function, at};
use fx_num::{HEIGHT_LIMIT, NODE_LIMIT};

/// The tree that a step speaks of.
pub fn find<'a>(function: &'a Function, place: u32, path: &[u8]) -> Option<&'a Expr>
    ensures { MatchOption result (paths.found function.now place path.now ≡ None)
        (λ e. paths.found function.now place path.now ≡ Some (tree e.now)) }
{
    let whole = function.tree(place)?;
    at(whole, path)
}

/// Whether a tree of this height may stand so deep.
fn is_low(depth: usize, height: u32) -> bool
    ensures { IsTrue result ↔ (depth + height ≤ 200) }
{
    depth <= HEIGHT_LIMIT as usize
        && depth as u32 <= HEIGHT_LIMIT
        && height <= HEIGHT_LIMIT - depth as u32
}

/// Whether the nodes keep their limit with so many in place of others.
fn is_small(nodes: u32, old: u32, new: u32) -> bool
    ensures { IsTrue result ↔ (nodes + new ≤ 4000 + old) }
{
    u64::from(nodes) + u64::from(new) <= u64::from(NODE_LIMIT) + u64::from(old)
}

/// Whether the limits are kept with a tree in place of `old`, by the sizes of both.
fn fits(function: &Function, old: &Expr, depth: usize, sizes: Sizes) -> bool
    ensures { (place : ℕ) → (path : List ℕ) → (new : Tree) → paths.found function.now place path ≡ Some (tree old.now) →
        depth ≡ length path → sizes.old ≡ size_of (tree old.now) → sizes.new ≡ size_of new →
        result ≡ is_within_limits (with_tree function.now place path new) place }
{
    function.keeps();
    is_low(depth, sizes.new.height) && is_small(function.nodes(), sizes.old.nodes, sizes.new.nodes)
}

/// What the rule of this number makes of `old`, which is found so deep in the function, with its letters in `found`, or
/// why it can't be applied there.
pub fn admit<'a>(
    function: &Function,
    old: &'a Expr,
    depth: usize,
    rule: u8,
    found: &mut Found<'a>,
) -> Result<Match, StepFault>
    ensures { (place : ℕ) → (path : List ℕ) → paths.found function.now place path ≡ Some (tree old.now) →
        depth ≡ length path → let s : Rewriting = record { place = place; path = path; rule = rule } in
        MatchResult result (λ m. IsAdmitted function.now s (tree old.now) (found_of found.new) m)
        (λ fault. IsRefusedThere fault function.now s) }
{
    match judge(old, rule, found) {
        Judged::NoMatch => Err(StepFault::NoMatch),
        Judged::TooLong => Err(StepFault::TooLong),
        Judged::Matches(m) => {
            if fits(function, old, depth, m.sizes) {
                Ok(m)
            } else {
                Err(StepFault::TooLong)
            }
        }
    }
}
