//! The conditions of the start and of templates.

ghost use Rattle.std.specs.Prelude.{◌≡◌, ◌-◌, ◌+◌, ◌≤◌, ◌<◌, length};
ghost use Rattle.std.specs.Option.{option_map};
ghost use Rattle.fx_inequalities.specs.Accepted.{start_template_claims};
ghost use Rattle.fx_inequalities.specs.Affine.{templates_of};
ghost use Rattle.fx_template_conditions.specs.Boxes.{box_at};
ghost use Rattle.fx_inequalities.specs.Condition as conditions;
ghost use Rattle.fx_inequalities.specs.Condition.{each_index, first_fault_of};
ghost use Rattle.fx_formulas.specs.Judging.{judged};
ghost use Rattle.fx_formulas.specs.FaultView.{condition_fault_of};
ghost use Rattle.fx_cert.specs.CertificateView.{certificate_of, templates_in};
ghost use Rattle.fx_conditions.specs.Limits.{IsShortCertificate};
ghost use Rattle.fx_template_conditions.specs.KeptTemplates.{kept_template};
ghost use Rattle.fx_checker.specs.TemplateFaults.{start_template_condition, template_condition, templates_by};

use fx_cert::{Certificate, Side, Template};
use fx_expr::Function;
use fx_formulas::{ConditionFault, ConditionKind, Judgement, Part, fault};
use fx_program::Program;
use fx_template_conditions::{CertificateSide, start_template_judgement, template_judgement};

/// The templates of the one kind or the other.
fn templates_by<'a>(certificate: &'a Certificate, side: &Side) -> &'a [Template]
    ensures { templates_in result.now ≡ templates_by side.now (certificate_of certificate.now) }
{
    match side {
        Side::Value => certificate.templates.as_slice(),
        Side::Error => certificate.error_templates.as_slice(),
    }
}

/// The node of the first next state.
fn next_node(program: &Program) -> u32
    ensures next { result ≡ length program.now.codes - program.now.states }
    ensures few { result + program.now.states ≤ 4000 }
{
    program.keeps();
    program.codes.len() as u32 - program.states
}

/// The values or the errors of a certificate, over the inputs and states of a program.
fn side_by<'a>(program: &Program, certificate: &'a Certificate, side: &Side) -> CertificateSide<'a>
    requires short { IsShortCertificate (certificate_of certificate.now) }
    ensures { let p = program.now in let cert = certificate_of certificate.now in
        result ≡ record {
          which = side.now;
          lines = cert.lines;
          templates = templates_by side.now cert;
          inputs = p.inputs;
          states = p.states;
        } }
{
    program.keeps();
    CertificateSide::new(
        *side,
        certificate.lines.as_slice(),
        templates_by(certificate, side),
        program.inputs,
        program.states,
    )
}

/// Whether one step keeps template `i`.
fn keeps_template(program: &Program, certificate: &Certificate, side: &Side, i: u32) -> Judgement
    requires short { IsShortCertificate (certificate_of certificate.now) }
    ensures { let p = program.now in let cert = certificate_of certificate.now in
        result ≡ judged (kept_template p.inputs p.states (length p.codes - p.states) cert.lines
        (templates_by side.now cert) side.now i) }
{
    let own = side_by(program, certificate, side);
    template_judgement(&own, next_node(program), i)
}

/// Whether the start meets template `i`.
fn starts_in_template(
    program: &Program,
    certificate: &Certificate,
    side: &Side,
    i: u32,
) -> Judgement
    requires short { IsShortCertificate (certificate_of certificate.now) }
    ensures { let p = program.now in let cert = certificate_of certificate.now in
        result ≡ judged (start_template_claims p.states (templates_of p.states (templates_by side.now cert))
        (box_at side.now cert.starts) i) }
{
    let own = side_by(program, certificate, side);
    start_template_judgement(&own, certificate.starts.as_slice(), i)
}

/// The Row or ErrorRow `i`.
fn template_fault(
    function: &Function,
    program: &Program,
    certificate: &Certificate,
    side: &Side,
    i: u32,
) -> Option<ConditionFault>
    requires short { IsShortCertificate (certificate_of certificate.now) }
    requires inputs { program.now.inputs ≡ length function.now.inputs }
    requires states { program.now.states ≡ length function.now.states }
    ensures { option_map condition_fault_of result
        ≡ conditions.fault_of (template_condition side.now function.now program.now
        (certificate_of certificate.now) i) }
{
    let judgement = keeps_template(program, certificate, side, i);
    match side {
        Side::Value => fault(ConditionKind::Row, Part::Template, i, judgement),
        Side::Error => fault(ConditionKind::ErrorRow, Part::ErrorTemplate, i, judgement),
    }
}

/// The Start of template or error template `i`.
fn start_template_fault(
    function: &Function,
    program: &Program,
    certificate: &Certificate,
    side: &Side,
    i: u32,
) -> Option<ConditionFault>
    requires short { IsShortCertificate (certificate_of certificate.now) }
    requires states { program.now.states ≡ length function.now.states }
    ensures { option_map condition_fault_of result
        ≡ conditions.fault_of (start_template_condition side.now function.now (certificate_of certificate.now) i) }
{
    let judgement = starts_in_template(program, certificate, side, i);
    match side {
        Side::Value => fault(ConditionKind::Start, Part::Template, i, judgement),
        Side::Error => fault(ConditionKind::Start, Part::ErrorTemplate, i, judgement),
    }
}

/// How many templates there are, which fit in 32 bits.
fn template_count(certificate: &Certificate, side: &Side) -> u32
    requires { length (templates_by side.now (certificate_of certificate.now)) ≤ 512 }
    ensures { result ≡ length (templates_by side.now (certificate_of certificate.now)) }
{
    templates_by(certificate, side).len() as u32
}

/// The first Row or ErrorRow that fails.
pub fn templates_fault(
    function: &Function,
    program: &Program,
    certificate: &Certificate,
    side: &Side,
) -> Option<ConditionFault>
    requires short { IsShortCertificate (certificate_of certificate.now) }
    requires inputs { program.now.inputs ≡ length function.now.inputs }
    requires states { program.now.states ≡ length function.now.states }
    requires few { length (templates_by side.now (certificate_of certificate.now)) ≤ 512 }
    ensures { let cert = certificate_of certificate.now in
        option_map condition_fault_of result
        ≡ first_fault_of (each_index (length (templates_by side.now cert))
        (template_condition side.now function.now program.now cert)) }
{
    for i in 0..template_count(certificate, side) {
        if let Some(fault) = template_fault(function, program, certificate, side, i) {
            return Some(fault);
        }
    }
    None
}

/// The first template or error template that the start doesn't meet.
pub fn start_templates_fault(
    function: &Function,
    program: &Program,
    certificate: &Certificate,
    side: &Side,
) -> Option<ConditionFault>
    requires short { IsShortCertificate (certificate_of certificate.now) }
    requires states { program.now.states ≡ length function.now.states }
    requires few { length (templates_by side.now (certificate_of certificate.now)) ≤ 512 }
    ensures { let cert = certificate_of certificate.now in
        option_map condition_fault_of result
        ≡ first_fault_of (each_index (length (templates_by side.now cert))
        (start_template_condition side.now function.now cert)) }
{
    for i in 0..template_count(certificate, side) {
        if let Some(fault) = start_template_fault(function, program, certificate, side, i) {
            return Some(fault);
        }
    }
    None
}
