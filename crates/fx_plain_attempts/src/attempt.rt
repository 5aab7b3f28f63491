//! The attempts: the plain one of a function, and that after a step.
//!
//! An attempt that isn't there, or that the checker refuses, is none.
ghost use Rattle.std.specs.Prelude.{◌≡◌, ◌∷◌, [], Contains, IfOk, IfSome, true};
ghost use Rattle.std.specs.Option.{option_map};
ghost use Rattle.fx_model.specs.LawfulProgram.{widths};
ghost use Rattle.fx_inequalities.specs.LawfulCertificate.{IsLawfulCertificate};
ghost use Rattle.fx_rules.specs.SingleSteps.{is_there};
ghost use Rattle.fx_step.specs.StepView.{step_view};
ghost use Rattle.fx_cert.specs.CertificateView.{certificate_of};
ghost use Rattle.fx_analysis.specs.AttemptView.{attempt_in};
ghost use Rattle.fx_plain_attempts.specs.Turns.{AreJudged, IsOutcome};

use fx_analysis::{attempt_after, no_steps_law, plain_attempt, rounded_law};
use fx_cert::Certificate;
use fx_checker::{Certified, judge};
use fx_expr::Function;
use fx_num::Memory;
use fx_program::Program;
use fx_rules::rewrite_law;
use fx_step::Step;
use fx_wanted::Wanted;
use std::alloc::Global;

// What the checker makes of an attempt, where there is one.
fn verdict(
    alloc: Global,
    function: &Function,
    attempt: Option<(Program, Certificate)>,
) -> Result<Option<Certified>, Memory>
    requires { IfSome attempt (λ t. IsLawfulCertificate (certificate_of t.1)) }
    ensures { IfOk result (AreJudged function.now (option_map attempt_in attempt)) }
{
    let Some((program, certificate)) = attempt else {
        return Ok(None);
    };
    let answer = judge(alloc, function, program, certificate)?;
    Ok(answer)
}

/// The plain attempt, where it is there and accepted.
pub fn plain_answer(
    alloc: Global,
    function: &Function,
    wanted: Wanted,
) -> Result<Option<Certified>, Memory>
    requires stateless { function.now.states ≡ [] }
    requires width { Contains widths wanted.width }
    ensures { IfOk result (IsOutcome wanted function.now []) }
{
    no_steps_law();
    rounded_law();
    let attempt = plain_attempt(alloc, function, wanted.width, wanted.round)?;
    let answer = verdict(alloc, function, attempt)?;
    Ok(answer)
}

/// The attempt after a step, where it is there and accepted.
pub fn step_answer(
    alloc: Global,
    function: &Function,
    wanted: Wanted,
    step: Step,
) -> Result<Option<Certified>, Memory>
    requires stateless { function.now.states ≡ [] }
    requires width { Contains widths wanted.width }
    requires there { is_there function.now (step_view step) ≡ true }
    ensures { IfOk result (IsOutcome wanted function.now (step_view step ∷ [])) }
{
    rewrite_law();
    rounded_law();
    let attempt = attempt_after(alloc, function, wanted.width, step, wanted.round)?;
    let answer = verdict(alloc, function, attempt)?;
    Ok(answer)
}
