//! The plain attempt and the attempts after one step, each passed through the checker, and the best of them and an
//! answer.
ghost use Rattle.std.specs.Prelude.{◌≡◌, ◌++◌, ◌∷◌, [], List, true, Contains, IfOk, take};
ghost use Rattle.fx_model.specs.LawfulProgram.{widths};
ghost use Rattle.fx_inequalities.specs.Rewriting.{Rewriting};
ghost use Rattle.fx_rules.specs.SingleSteps.{is_there, single_steps};
ghost use Rattle.fx_step.specs.StepView.{step_view};
ghost use Rattle.fx_plain_attempts.specs.Turns.{IsBestAfter, SuitsIfAny};

use crate::answer::take_better;
use crate::attempt::{plain_answer, step_answer};
use fx_checker::Certified;
use fx_expr::Function;
use fx_num::Memory;
use fx_rewrite::SingleSteps;
use fx_step::Step;
use fx_wanted::Wanted;
use std::alloc::Global;

// The better of an answer and the plain attempt.
fn first_turn(
    alloc: Global,
    function: &Function,
    wanted: Wanted,
    first: Option<Certified>,
) -> Result<Option<Certified>, Memory>
    requires stateless { function.now.states ≡ [] }
    requires width { Contains widths wanted.width }
    requires suits { SuitsIfAny wanted function.now first }
    ensures { IfOk result (IsBestAfter wanted function.now []) }
{
    function.keeps();
    let plain = plain_answer(alloc, function, wanted)?;
    Ok(take_better(first, plain))
}

// The better of an answer and the attempt after a step.
fn next_turn(
    alloc: Global,
    function: &Function,
    wanted: Wanted,
    step: Step,
    answer: Option<Certified>,
) -> Result<Option<Certified>, Memory>
    requires stateless { function.now.states ≡ [] }
    requires width { Contains widths wanted.width }
    requires there { is_there function.now (step_view step) ≡ true }
    requires suits { SuitsIfAny wanted function.now answer }
    ensures { (done : List Rewriting) → IsBestAfter wanted function.now done answer →
        IfOk result (IsBestAfter wanted function.now (done ++ step_view step ∷ [])) }
{
    function.keeps();
    let candidate = step_answer(alloc, function, wanted, step)?;
    Ok(take_better(answer, candidate))
}

// The best of an answer, the plain attempt and the attempts after the first single steps.
fn attempts(
    alloc: Global,
    function: &Function,
    wanted: Wanted,
    first: Option<Certified>,
) -> Result<Option<Certified>, Memory>
    requires stateless { function.now.states ≡ [] }
    requires width { Contains widths wanted.width }
    requires suits { SuitsIfAny wanted function.now first }
    ensures { IfOk result (IsBestAfter wanted function.now (take wanted.tries (single_steps function.now))) }
{
    let mut answer = first_turn(alloc, function, wanted, first)?;
    let mut steps = SingleSteps::new(alloc, function);
    for _turn in 0..wanted.tries {
        let Some(step) = steps.next(alloc)? else {
            return Ok(answer);
        };
        answer = next_turn(alloc, function, wanted, step, answer)?;
    }
    Ok(answer)
}

/// The best of an answer, the plain attempt and the attempts after the first single steps. A function with states has
/// no attempts.
pub fn try_plainly(
    alloc: Global,
    function: &Function,
    wanted: Wanted,
    first: Option<Certified>,
) -> Result<Option<Certified>, Memory>
    requires width { Contains widths wanted.width }
    requires suits { SuitsIfAny wanted function.now first }
    ensures { IfOk result (IsBestAfter wanted function.now (take wanted.tries (single_steps function.now))) }
{
    if function.states.len() > 0 {
        return Ok(first);
    }
    let answer = attempts(alloc, function, wanted, first)?;
    Ok(answer)
}
