//! The first answer: the plan of a class in which one always serves, passed through the checker.
//!
//! That a plan is accepted and which bounds it has are laws, by which the checker can answer nothing else but want of
//! memory: whoever changes a plan before it is checked breaks the proof.
ghost use Rattle.std.specs.Prelude.{◌≡◌, None, Contains, IfOk, IfSome, option_map};
ghost use Rattle.fx_model.specs.LawfulProgram.{widths};
ghost use Rattle.fx_weight.specs.Laws.{IsInClass};
ghost use Rattle.fx_weight.specs.ObstacleView.{obstacle_view};
ghost use Rattle.fx_weight.specs.PlainClass.{obstacle_of, output_power};
ghost use Rattle.fx_plan_laws.specs.Calm.{numbers_of, IsCalm};
ghost use Rattle.fx_plain_attempts.specs.Bounds.{AreWithinPowers};
ghost use Rattle.fx_plain_attempts.specs.Turns.{SuitsIfAny};
ghost use Rattle.fx_checker.specs.Answers.{IsAnswerFor};
ghost use Rattle.fx_inequalities.specs.Accepted.{IsAccepted};
ghost use Rattle.fx_inequalities.specs.LawfulCertificate.{IsLawfulCertificate};
ghost use Rattle.fx_rules.specs.Steps.{rewrite};
ghost use Rattle.fx_cert.specs.CertificateView.{certificate_of};

use fx_calm::{CalmFault, calm_plan};
use fx_cert::Certificate;
use fx_checker::{Certified, CheckFault, check};
use fx_expr::Function;
use fx_num::Memory;
use fx_plan_laws::calm_law;
use fx_program::Program;
use fx_wanted::Wanted;
use fx_weight::{Obstacle, WeightFault, bound_law, class_law, plain_plan};
use std::alloc::Global;

// A plan that is known to be accepted, certified: only memory can be wanting.
#[tactic(auto, using(crate::proofs::Promised::untold))]
fn certify_plan(
    alloc: Global,
    function: &Function,
    program: Program,
    certificate: Certificate,
) -> Result<Certified, Memory>
    requires lawful { IsLawfulCertificate (certificate_of certificate) }
    requires accepted { IsAccepted rewrite function.now program (certificate_of certificate) }
    ensures { IfOk result (λ certified. certified ≡ record {
      function = function.now;
      program = program;
      certificate = certificate_of certificate;
    }) }
{
    match check(alloc, function, program, certificate) {
        Ok(certified) => Ok(certified),
        Err(CheckFault::Memory) => Err(Memory),
        Err(CheckFault::Condition(_)) => unreachable!(),
    }
}

// The plain plan, certified.
fn plain_answer(alloc: Global, function: &Function, wanted: Wanted) -> Result<Certified, Memory>
    requires width { Contains widths wanted.width }
    requires class { IsInClass wanted.width function.now }
    ensures answer { IfOk result (IsAnswerFor wanted function.now) }
    ensures bounded { IfOk result
        (λ a. AreWithinPowers function.now a.program a.certificate (output_power wanted.width function.now)) }
{
    class_law();
    bound_law();
    let (program, certificate) = match plain_plan(alloc, function, wanted.width, wanted.round) {
        Ok(plan) => plan,
        Err(WeightFault::NotModest { .. }) => unreachable!(),
        Err(WeightFault::Memory) => return Err(Memory),
    };
    let certified = certify_plan(alloc, function, program, certificate)?;
    Ok(certified)
}

// The calm plan, certified, where the function is calm.
fn calm_answer(
    alloc: Global,
    function: &Function,
    wanted: Wanted,
) -> Result<Option<Certified>, Memory>
    requires width { Contains widths wanted.width }
    ensures answer { IfOk result (λ o. IfSome o (IsAnswerFor wanted function.now)) }
    ensures bounded { IfOk result
        (λ o. IfSome o (λ a. AreWithinPowers function.now a.program a.certificate
        (λ j. (numbers_of wanted.width function.now).z))) }
    ensures calm { IfOk result (λ o. IfSome o (λ a. IsCalm wanted.width function.now)) }
    ensures none { IfOk result (λ o. o ≡ None → IsCalm wanted.width function.now → ⊥) }
{
    calm_law();
    let (program, certificate) = match calm_plan(alloc, function, wanted.width, wanted.round) {
        Ok(plan) => plan,
        Err(CalmFault::NotCalm) => return Ok(None),
        Err(CalmFault::Memory) => return Err(Memory),
    };
    let certified = certify_plan(alloc, function, program, certificate)?;
    Ok(Some(certified))
}

/// The first answer: the plain plan where it serves the function, else the calm plan where the function is calm.
pub fn first_answer(
    alloc: Global,
    function: &Function,
    wanted: Wanted,
    obstacle: Option<Obstacle>,
) -> Result<Option<Certified>, Memory>
    requires width { Contains widths wanted.width }
    requires obstacle { option_map obstacle_view obstacle ≡ obstacle_of wanted.width function.now }
    requires class { obstacle ≡ None → IsInClass wanted.width function.now }
    ensures { IfOk result (SuitsIfAny wanted function.now) }
{
    if obstacle.is_some() {
        let answer = calm_answer(alloc, function, wanted)?;
        return Ok(answer);
    }
    let certified = plain_answer(alloc, function, wanted)?;
    Ok(Some(certified))
}
