//! The plan of given points and ranges, with plain errors and no forms.

ghost use Rattle.std.specs.Prelude.{◌≡◌, length, false, All, IfOk, IfErr, is_some, Ok};
ghost use Rattle.fx_model.specs.LawfulProgram.{IsPoint};
ghost use Rattle.fx_model.specs.Nodes.{nodes_of};
ghost use Rattle.fx_flat.specs.NodeOf.{nodes_in};
ghost use Rattle.fx_program.specs.CodeView.{round_of};
ghost use Rattle.fx_analysis.specs.Blame.{NamesAbsent};
ghost use Rattle.fx_analysis.specs.PlainErrors.{plain_errors};
ghost use Rattle.fx_outward.specs.Narrowed.{HasFewPlaces};

use crate::affine::Affine;
use crate::plan::PlannedNodes;
use fx_analysis::{PlanFault, errors};
use fx_expr::Function;
use fx_flat::Nodes;
use fx_num::{Dyadic, Interval};
use fx_program::Round;
use std::alloc::{AllocError, Global};

// No form, for each of so many nodes.
fn no_forms(alloc: Global, count: usize) -> Result<Vec<Option<Affine>>, AllocError>
    ensures none { IfOk result (λ forms. All (λ f. is_some f ≡ false) forms.items) }
    ensures count { IfOk result (λ forms. length forms.items ≡ count) }
{
    let mut forms = Vec::new(alloc);
    for _turn in 0..count {
        forms.push(None)?;
    }
    Ok(forms)
}

// 0 alone.
fn nothing() -> Interval {
    let zero = Dyadic { m: 0, e: 0 };
    Interval { lo: zero, hi: zero }
}

/// The plan of these points and ranges at a width and a rounding, with plain errors and an error box for each state, or
/// the first node that has no plain error. No node has a form.
pub fn roundoff(
    alloc: Global,
    nodes: &Nodes,
    function: &Function,
    width: u32,
    points: Vec<i32>,
    ranges: Vec<Interval>,
    error_boxes: &Vec<Interval>,
    round: Round,
) -> Result<PlannedNodes, PlanFault>
    requires nodes { nodes_in nodes.now.list ≡ nodes_of function.now }
    requires boxes { length error_boxes.now.items ≡ length function.now.states }
    requires points { All IsPoint points.items }
    requires point_count { length points.items ≡ length nodes.now.list }
    requires ranges { length ranges.items ≡ length nodes.now.list }
    requires few_places { All HasFewPlaces ranges.items }
    ensures width { IfOk result (λ p. p.width ≡ width) }
    ensures points { IfOk result (λ p. p.points.items ≡ points.items) }
    ensures ranges { IfOk result (λ p. p.ranges.items ≡ ranges.items) }
    ensures errors { IfOk result
        (λ p. plain_errors width (round_of round) function.now points.items ranges.items error_boxes.now.items
        ≡ Ok p.errors.items) }
    ensures formless { IfOk result (λ p. All (λ f. is_some f ≡ false) p.forms.items) }
    ensures forms { IfOk result (λ p. length p.forms.items ≡ length nodes.now.list) }
    ensures rests { IfOk result (λ p. length p.error_rests.items ≡ length nodes.now.list) }
    ensures centres { IfOk result (λ p. length p.centres.items ≡ length nodes.now.list) }
    ensures no_plan { IfErr result
        (λ e. NamesAbsent e (plain_errors width
        (round_of round) function.now points.items ranges.items error_boxes.now.items)) }
{
    let errors = errors(
        alloc,
        nodes,
        function,
        &points,
        &ranges,
        error_boxes,
        width,
        round,
    )?;
    let count = nodes.list.len();
    let zero = Dyadic { m: 0, e: 0 };
    Ok(PlannedNodes {
        width,
        points,
        ranges,
        errors,
        forms: no_forms(alloc, count)?,
        error_rests: vec![in alloc; nothing(); count]?,
        centres: vec![in alloc; (zero, zero); count]?,
    })
}
