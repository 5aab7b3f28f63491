//! Whether a text can spell a certificate.
//!
//! A reader gives nothing else. Who makes a certificate itself, as a search does, asks it here, part by part as
//! `LawfulCertificate.antt` of `fx_inequalities` has them. The trap: numbers aren't reduced here, so that one which
//! isn't in lowest terms is refused.

ghost use Rattle.std.specs.Prelude.{◌≡◌, ◌+◌, ◌<◌, ◌≤◌, length, All, IsTrue};
ghost use Rattle.std.specs.Option.{option_map};
ghost use Rattle.fx_model.specs.Limits.{input_limit, state_limit, node_limit, step_limit};
ghost use Rattle.fx_rational.specs.Dyadic.{IsWritten};
ghost use Rattle.fx_rational.specs.Interval.{IsWrittenInterval};
ghost use Rattle.fx_inequalities.specs.LawfulCertificate.{AreShares, AreSharesIfAny, AreWrittenLines, AreWrittenTemplates, IsFormIfAny, IsLawfulCertificate, IsWrittenBox, IsWrittenForm, IsWrittenStep, IsWrittenTemplate, unit_vector};
ghost use Rattle.fx_step.specs.StepView.{step_view};
ghost use Rattle.fx_cert.specs.CertificateView.{box_of, certificate_of, form_view, lines_view, shares_of, template_view, templates_in};

use crate::certificate::{Certificate, Form, NodeLine, Share, StartBox, Template};
use crate::lookup::unit_coef;
use fx_expr::Items;
use fx_num::{
    Dyadic, EXPONENT_LIMIT, HEIGHT_LIMIT, INPUT_LIMIT, Interval, NODE_LIMIT, PLACE_END,
    STATE_LIMIT, STEP_LIMIT, TEMPLATE_LIMIT,
};
use fx_step::{RULE_COUNT, Step};

/// The number of the last rewriting rule.
const LAST_RULE: u8 = RULE_COUNT as u8;

/// How many templates a certificate has at most, as lists count.
const TEMPLATES: usize = TEMPLATE_LIMIT as usize;

/// How many variables the forms of a certificate are over, and how many templates and error templates they may name.
#[derive(Clone, Copy)]
struct Frame {
    variables: usize,
    templates: usize,
    error_templates: usize,
}

/// Whether a text can spell a number.
fn is_written(d: Dyadic) -> bool
    ensures { IsTrue result → IsWritten d }
{
    let size = d.m.unsigned_abs();
    size < 1 << 62 && d.e <= EXPONENT_LIMIT && (d.e == 0 || size % 2 == 1)
}

/// Whether a text can spell both ends of an interval.
fn is_written_interval(x: Interval) -> bool
    ensures { IsTrue result → IsWrittenInterval x }
{
    is_written(x.lo) && is_written(x.hi)
}

/// Whether a text can spell each coefficient.
fn are_written(coefs: &[Dyadic]) -> bool
    ensures { IsTrue result → All IsWritten coefs.now }
{
    for j in 0..coefs.len() {
        if !is_written(coefs[j]) {
            return false;
        }
    }
    true
}

/// Whether each turn of a path leads into a first or a second operand.
fn are_turns(path: &[u8]) -> bool
    ensures { IsTrue result → All (λ d. d < 2) path.now }
{
    for i in 0..path.len() {
        if path[i] >= 2 {
            return false;
        }
    }
    true
}

/// Whether a text can spell a rewriting step.
fn is_step(step: &Step) -> bool
    ensures { IsTrue result → IsWrittenStep (step_view step.now) }
{
    let path = step.path.as_slice();
    step.place < PLACE_END
        && path.len() <= HEIGHT_LIMIT as usize
        && are_turns(path)
        && 1 <= step.rule
        && step.rule <= LAST_RULE
}

/// Whether a text can spell each step.
fn are_steps(steps: &[Step]) -> bool
    ensures { IsTrue result → All (λ s. IsWrittenStep (step_view s)) steps.now }
{
    for step in steps {
        if !is_step(step) {
            return false;
        }
    }
    true
}

/// Whether a text can spell where a state starts.
fn is_box(start: &StartBox) -> bool
    ensures { IsTrue result → IsWrittenBox (box_of start.now) }
{
    is_written_interval(start.range) && is_written_interval(start.error)
}

/// Whether a text can spell each start.
fn are_boxes(starts: &[StartBox]) -> bool
    ensures { IsTrue result → All (λ b. IsWrittenBox (box_of b)) starts.now }
{
    for start in starts {
        if !is_box(start) {
            return false;
        }
    }
    true
}

/// Whether the coefficients are the unit vector of state `i`.
fn is_unit(coefs: &[Dyadic], i: u32) -> bool
    requires { length coefs.now ≤ 32 }
    ensures { i < length coefs.now → IsTrue result → coefs.now ≡ unit_vector (length coefs.now) i }
{
    for j in 0..coefs.len() {
        if coefs[j] != unit_coef(i, j as u32) {
            return false;
        }
    }
    true
}

/// Whether the templates of shares rise and are below the count.
fn are_shares(shares: &[Share], count: usize) -> bool
    requires { count ≤ 512 }
    ensures { IsTrue result → AreShares count 0 (shares_of shares.now) }
{
    let mut least = 0;
    for share in shares {
        let share = *share;
        let template = share.template as usize;
        if template < least || template >= count || !is_written(share.times) {
            return false;
        }
        least = template + 1;
    }
    true
}

/// Whether a form may name these shares of so many templates, if it names any.
fn are_shares_if_any(shares: &Option<Items<Share>>, count: usize) -> bool
    requires { count ≤ 512 }
    ensures { IsTrue result → AreSharesIfAny count (option_map shares_of shares.now) }
{
    match shares {
        Some(shares) => are_shares(shares.as_slice(), count),
        None => true,
    }
}

/// Whether this is template `i` of so many over so many states.
fn is_template(template: &Template, i: u32, states: u32, count: usize) -> bool
    requires states { states ≤ 32 }
    requires count { count ≤ 512 }
    ensures written { IsTrue result → IsWrittenTemplate states count (template_view template.now) }
    ensures unit { IsTrue result → i < states → template.now.coefs ≡ unit_vector states i }
{
    let coefs = template.coefs.as_slice();
    coefs.len() == states as usize
        && are_written(coefs)
        && (i >= states || is_unit(coefs, i))
        && is_written_interval(template.bound)
        && are_shares(template.shares.as_slice(), count)
}

/// Whether these are the templates of a certificate over so many states, the unit templates first.
pub fn are_templates(templates: &[Template], states: u32) -> bool
    requires { states ≤ 32 }
    ensures { IsTrue result → AreWrittenTemplates states (templates_in templates.now) }
{
    let count = templates.len();
    if count < states as usize || count > TEMPLATES {
        return false;
    }
    for i in 0..count {
        if !is_template(&templates[i], i as u32, states, count) {
            return false;
        }
    }
    true
}

/// Whether a text can spell a form.
fn is_form(form: &Form, frame: Frame) -> bool
    requires templates { frame.templates ≤ 512 }
    requires error_templates { frame.error_templates ≤ 512 }
    ensures { IsTrue result →
        IsWrittenForm frame.variables frame.templates frame.error_templates (form_view form.now) }
{
    let coefs = form.coefs.as_slice();
    is_written(form.centre_a)
        && is_written(form.centre_b)
        && coefs.len() == frame.variables
        && are_written(coefs)
        && is_written_interval(form.rest)
        && is_written_interval(form.error_rest)
        && are_shares_if_any(&form.range_by, frame.templates)
        && are_shares_if_any(&form.error_by, frame.error_templates)
}

/// Whether node `n` may have this form, if it has one.
fn is_form_if_any(form: &Option<Form>, n: usize, frame: Frame) -> bool
    requires templates { frame.templates ≤ 512 }
    requires error_templates { frame.error_templates ≤ 512 }
    ensures { IsTrue result →
        IsFormIfAny frame.variables frame.templates frame.error_templates n (option_map form_view form.now) }
{
    match form {
        Some(form) => frame.variables <= n && is_form(form, frame),
        None => true,
    }
}

/// Whether this may be the line of node `n`.
fn is_line(line: &NodeLine, n: usize, frame: Frame) -> bool
    requires templates { frame.templates ≤ 512 }
    requires error_templates { frame.error_templates ≤ 512 }
    ensures range { IsTrue result → IsWrittenInterval line.now.range }
    ensures error { IsTrue result → IsWrittenInterval line.now.error }
    ensures form { IsTrue result →
        IsFormIfAny frame.variables frame.templates frame.error_templates n (option_map form_view line.now.form) }
{
    is_written_interval(line.range)
        && is_written_interval(line.error)
        && is_form_if_any(&line.form, n, frame)
}

/// Whether a text can spell each line of the nodes.
fn are_lines(lines: &[NodeLine], frame: Frame) -> bool
    requires templates { frame.templates ≤ 512 }
    requires error_templates { frame.error_templates ≤ 512 }
    ensures { IsTrue result →
        AreWrittenLines frame.variables frame.templates frame.error_templates 0 (lines_view lines.now) }
{
    for n in 0..lines.len() {
        if !is_line(&lines[n], n, frame) {
            return false;
        }
    }
    true
}

/// Whether there are as many inputs, states, steps, starts and lines as there may be.
fn are_counts(certificate: &Certificate) -> bool
    ensures some_input { IsTrue result → 1 ≤ certificate.now.inputs }
    ensures inputs { IsTrue result → certificate.now.inputs ≤ input_limit }
    ensures states { IsTrue result → certificate.now.states ≤ state_limit }
    ensures some_lines { IsTrue result →
        certificate.now.inputs + certificate.now.states ≤ length certificate.now.lines }
    ensures few_lines { IsTrue result → length certificate.now.lines ≤ node_limit }
    ensures few_steps { IsTrue result → length certificate.now.steps ≤ step_limit }
    ensures starts { IsTrue result → length certificate.now.starts ≡ certificate.now.states }
{
    let lines = certificate.lines.len();
    1 <= certificate.inputs
        && certificate.inputs <= INPUT_LIMIT
        && certificate.states <= STATE_LIMIT
        && (certificate.inputs + certificate.states) as usize <= lines
        && lines <= NODE_LIMIT as usize
        && certificate.steps.len() <= STEP_LIMIT as usize
        && certificate.starts.len() == certificate.states as usize
}

/// Whether a text can spell the templates of both kinds.
fn are_all_templates(certificate: &Certificate) -> bool
    requires { certificate.now.states ≤ 32 }
    ensures templates { IsTrue result →
        AreWrittenTemplates certificate.now.states (templates_in certificate.now.templates) }
    ensures error_templates { IsTrue result →
        AreWrittenTemplates certificate.now.states (templates_in certificate.now.error_templates) }
{
    are_templates(certificate.templates.as_slice(), certificate.states)
        && are_templates(certificate.error_templates.as_slice(), certificate.states)
}

/// What the forms of a certificate are over.
fn frame_of(certificate: &Certificate) -> Frame
    requires inputs { certificate.now.inputs ≤ 64 }
    requires states { certificate.now.states ≤ 32 }
    ensures variables { result.variables ≡ certificate.now.inputs + certificate.now.states }
    ensures templates { result.templates ≡ length certificate.now.templates }
    ensures error_templates { result.error_templates ≡ length certificate.now.error_templates }
{
    Frame {
        variables: (certificate.inputs + certificate.states) as usize,
        templates: certificate.templates.len(),
        error_templates: certificate.error_templates.len(),
    }
}

/// Whether a text can spell the certificate: all that its format asks.
pub fn is_lawful(certificate: &Certificate) -> bool
    ensures { IsTrue result → IsLawfulCertificate (certificate_of certificate.now) }
{
    if !are_counts(certificate)
        || !are_steps(certificate.steps.as_slice())
        || !are_boxes(certificate.starts.as_slice())
        || !are_all_templates(certificate)
    {
        return false;
    }
    are_lines(certificate.lines.as_slice(), frame_of(certificate))
}
