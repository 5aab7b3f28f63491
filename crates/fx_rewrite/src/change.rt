//! A step on a function, in place.
//!
//! First the step is judged and what it puts in is built, by reference, but for the letters that are moved; then the
//! subtree is moved out, its letters are moved into the new one, and that is moved in. So a refusal finds the function
//! untouched. While the subtree is out, a leaf stands in its place, by which the function stays lawful.
ghost use Rattle.std.specs.Prelude.{◌≡◌, Some, IfErr, OnErr, OnOk, MatchResult};
ghost use Rattle.fx_expr.specs.TreeOf.{tree};
ghost use Rattle.fx_rules.specs.Steps.{rewrite};
ghost use Rattle.fx_rewrite.specs.Prepared.{IsPrepared};
ghost use Rattle.fx_rewrite.specs.Refusals.{IsRefused};
ghost use Rattle.fx_step.specs.StepView.{step_view};

use crate::fault::StepFault;
use crate::fill::filled;
use crate::found::Found;
use crate::judge::{admit, find};
use crate::matching::Match;
use fx_expr::{Expr, Function};
use fx_step::Step;
use std::alloc::Global;

/// Whether the step is there, and then the tree that it puts in, without the letters that are moved, and what matches.
fn prepared(alloc: Global, function: &Function, step: &Step) -> Result<(Expr, Match), StepFault>
    ensures { MatchResult result (λ x. IsPrepared function.now (step_view step.now) (tree x.0) x.1)
        (λ fault. IsRefused fault function.now (step_view step.now)) }
{
    let path = step.path.as_slice();
    let Some(old) = find(function, step.place, path) else {
        return Err(StepFault::NoPlace);
    };
    let mut letters = Found::nothing();
    match admit(function, old, path.len(), step.rule, &mut letters) {
        Ok(m) => {
            m.moves.leave_copied(&mut letters);
            match filled(alloc, m.right, &letters, m.made) {
                Ok(begun) => Ok((begun, m)),
                Err(_) => Err(StepFault::Memory),
            }
        }
        Err(fault) => Err(fault),
    }
}

/// Rewrites the function by a step, or leaves it as it was.
pub fn apply(alloc: Global, function: &mut Function, step: &Step) -> Result<(), StepFault>
    ensures rewritten { OnOk result (rewrite function.old (step_view step.now) ≡ Some function.new) }
    ensures same { OnErr result (function.new ≡ function.old) }
    ensures refused { IfErr result (λ fault. IsRefused fault function.old (step_view step.now)) }
{
    let (begun, m) = prepared(alloc, function, step)?;
    function.keeps();
    let path = step.path.as_slice();
    let old = function.replace(step.place, path, Expr::Input(0), m.sizes.old.nodes, 0);
    let new = m.moves.finish(old, begun);
    function.replace(step.place, path, new, 0, m.sizes.new.nodes);
    Ok(())
}
