//! The calm plan of a calm function.

ghost use Rattle.std.specs.Prelude.{◌≡◌, Contains, IfOk, OnOk, IfErr};
ghost use Rattle.fx_model.specs.LawfulProgram.{widths};
ghost use Rattle.fx_program.specs.CodeView.{round_of};
ghost use Rattle.fx_cert.specs.CertificateView.{certificate_of};
ghost use Rattle.fx_plan_laws.specs.Calm.{numbers_of, IsCalm};
ghost use Rattle.fx_plan_laws.specs.CalmPlan.{calm_program, calm_certificate, bounds_of};
ghost use Rattle.fx_plan_laws.specs.CalmLaw.{IsNarrowFunction};
ghost use Rattle.fx_calm.specs.declared.fault.CalmFault.TheVariants as fault;
ghost use Rattle.fx_calm.specs.NumbersOf.{numbers_view};
ghost use Rattle.fx_calm.specs.BoundOf.{bounds_in, HasPlace, HaveShortStarts, certificate_with};

use crate::bound::{Bound, state_of};
use crate::code::codes;
use crate::fault::CalmFault;
use crate::line::{lines, span, starts, templates};
use crate::narrow::narrow_function;
use crate::numbers::{Numbers, find_numbers};
use crate::walk::bounds;
use fx_cert::Certificate;
use fx_expr::{Function, Items};
use fx_flat::flatten;
use fx_lowering::{input_count, program_for, state_count};
use fx_num::Memory;
use fx_program::{Program, Round};
use std::alloc::Global;

/// The certificate of these bounds.
fn certificate(
    alloc: Global,
    function: &Function,
    c: Numbers,
    bs: &[Bound],
) -> Result<Certificate, Memory>
    requires place { HasPlace (numbers_view c) }
    requires starts { HaveShortStarts function.now c.f }
    requires bounds { bounds_in bs.now ≡ bounds_of (numbers_view c) function.now }
    ensures { IfOk result (λ t. certificate_of t ≡ certificate_with (numbers_view c) function.now) }
{
    let inputs = input_count(function);
    let states = state_count(function);
    let own = state_of(c);
    let starts = starts(alloc, function, c.f)?;
    let values = templates(alloc, states, span(own.r, c.f))?;
    let errors = templates(alloc, states, span(own.e, c.f))?;
    let lines = lines(alloc, bs, c.f)?;
    Ok(Certificate {
        inputs,
        states,
        steps: Items::from_vec(Vec::new(alloc)),
        starts: Items::from_vec(starts),
        templates: Items::from_vec(values),
        error_templates: Items::from_vec(errors),
        lines: Items::from_vec(lines),
    })
}

/// The plan of a calm function with these numbers.
fn plan_of(
    alloc: Global,
    function: &Function,
    width: u32,
    c: Numbers,
    round: Round,
) -> Result<(Program, Certificate), Memory>
    requires width { Contains widths width }
    requires calm { IsCalm width function.now }
    requires numbers { numbers_view c ≡ numbers_of width function.now }
    ensures program { IfOk result (λ r. r.0 ≡ calm_program width (round_of round) function.now) }
    ensures certificate { IfOk result (λ r. certificate_of r.1 ≡ calm_certificate width function.now) }
    ensures narrow { OnOk result (IsNarrowFunction function.now) }
{
    let nodes = flatten(alloc, function)?;
    narrow_function(function, nodes.list.as_slice());
    let bs = bounds(alloc, nodes.list.as_slice(), function, c)?;
    let codes = codes(alloc, nodes.list.as_slice(), function, c.f, round)?;
    let program = program_for(alloc, function, width, round, codes)?;
    let certificate = certificate(alloc, function, c, &bs)?;
    Ok((program, certificate))
}

/// The calm plan of a function that is calm at a width, with the rounding asked for.
pub fn calm_plan(
    alloc: Global,
    function: &Function,
    width: u32,
    round: Round,
) -> Result<(Program, Certificate), CalmFault>
    requires { Contains widths width }
    ensures program { IfOk result (λ r. r.0 ≡ calm_program width (round_of round) function.now) }
    ensures certificate { IfOk result (λ r. certificate_of r.1 ≡ calm_certificate width function.now) }
    ensures calm { OnOk result (IsCalm width function.now) }
    ensures narrow { OnOk result (IsNarrowFunction function.now) }
    ensures not_calm { IfErr result (λ e. e ≡ fault.NotCalm → IsCalm width function.now → ⊥) }
{
    match find_numbers(alloc, function, width)? {
        Some(c) => Ok(plan_of(alloc, function, width, c, round)?),
        None => Err(CalmFault::NotCalm),
    }
}
