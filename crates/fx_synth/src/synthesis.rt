//! The first answer, the attempts, and then a search where that is better.
ghost use Rattle.std.specs.Prelude.{◌≤◌, List, Contains, IfOk, IfErr, take};
ghost use Rattle.fx_model.specs.LawfulProgram.{widths};
ghost use Rattle.fx_inequalities.specs.Rewriting.{Rewriting};
ghost use Rattle.fx_rules.specs.SingleSteps.{single_steps};
ghost use Rattle.fx_checker.specs.Answers.{IsOffered};
ghost use Rattle.fx_plain_attempts.specs.Turns.{IsBestAfter, SuitsIfAny};
ghost use Rattle.fx_wanted.specs.Asked.{tries_limit};
ghost use Rattle.fx_synth.specs.Synthesis.{Explains, IsSynthesised};

use crate::fault::SynthFault;
use fx_checker::Certified;
use fx_expr::Function;
use fx_num::{Dyadic, Memory};
use fx_plain_attempts::{bounds_of, first_answer, take_better, try_plainly};
use fx_state_search::certify_states;
use fx_stateless_search::search;
use fx_wanted::Wanted;
use fx_weight::find_obstacle;
use std::alloc::Global;

// What a search finds: of a function with states what is certified at its limit, of others what keeps these bounds.
fn found(
    alloc: Global,
    function: &Function,
    wanted: Wanted,
    seed: u64,
    held: &[Dyadic],
) -> Result<Option<Certified>, Memory>
    requires width { Contains widths wanted.width }
    ensures { IfOk result (IsOffered wanted function.now) }
{
    if function.states.len() > 0 {
        certify_states(alloc, function, wanted)
    } else {
        search(alloc, function, wanted, seed, held)
    }
}

// What a search finds beside an answer.
fn candidate_to(
    alloc: Global,
    function: &Function,
    wanted: Wanted,
    seed: u64,
    answer: &Option<Certified>,
) -> Result<Option<Certified>, Memory>
    requires width { Contains widths wanted.width }
    ensures { IfOk result (IsOffered wanted function.now) }
{
    let held = bounds_of(alloc, answer)?;
    let candidate = found(alloc, function, wanted, seed, &held)?;
    Ok(candidate)
}

// The answer, or what is found where that is better.
fn searched(
    alloc: Global,
    function: &Function,
    wanted: Wanted,
    seed: u64,
    answer: Option<Certified>,
) -> Result<Option<Certified>, Memory>
    requires width { Contains widths wanted.width }
    requires suits { SuitsIfAny wanted function.now answer }
    ensures { (steps : List Rewriting) → IsBestAfter wanted function.now steps answer →
        IfOk result (IsBestAfter wanted function.now steps) }
{
    let candidate = candidate_to(alloc, function, wanted, seed, &answer)?;
    Ok(take_better(answer, candidate))
}

// The best answer of all.
fn best_answer(
    alloc: Global,
    function: &Function,
    wanted: Wanted,
    seed: u64,
    first: Option<Certified>,
) -> Result<Option<Certified>, Memory>
    requires width { Contains widths wanted.width }
    requires suits { SuitsIfAny wanted function.now first }
    ensures { IfOk result (IsBestAfter wanted function.now (take wanted.tries (single_steps function.now))) }
{
    let answer = try_plainly(alloc, function, wanted, first)?;
    let best = searched(alloc, function, wanted, seed, answer)?;
    Ok(best)
}

/// A certified program of the width and rounding that are wanted, for the function.
///
/// Where the plain plan serves the function, or else the calm plan, it is the first answer. The plain attempt and those
/// after each of the first single steps, as many as tries are wanted, follow in their order, and then what a search
/// finds in as many tries, with the choices that the seed gives. One takes the answer's place where it is no worse at
/// any output and better at some.
pub fn synthesise(
    alloc: Global,
    function: &Function,
    wanted: Wanted,
    seed: u64,
) -> Result<Certified, SynthFault>
    requires width { Contains widths wanted.width }
    requires tries { wanted.tries ≤ tries_limit }
    ensures found { IfOk result (IsSynthesised wanted function.now) }
    ensures not_found { IfErr result (Explains wanted function.now) }
{
    let obstacle = find_obstacle(alloc, function, wanted.width)?;
    let first = first_answer(alloc, function, wanted, obstacle)?;
    match best_answer(alloc, function, wanted, seed, first)? {
        Some(certified) => Ok(certified),
        None => match obstacle {
            Some(obstacle) => Err(SynthFault::NotFound { obstacle }),
            None => unreachable!(),
        },
    }
}
