//! Reading the lines of a certificate, each from its fields.
//!
//! A reader of a line reads its word, its fields from left to right, and that no field is left. The trap: what a line
//! may be depends on where it stands, so that a reader of templates and of nodes is told how many there are.

ghost use Rattle.std.specs.Prelude.{◌<◌, ◌≤◌, ◌+◌, IfOk};
ghost use Rattle.fx_model.specs.Limits.{state_limit, template_limit, step_limit};
ghost use Rattle.fx_step.specs.StepView.{step_view};
ghost use Rattle.fx_inequalities.specs.LawfulCertificate.{unit_vector};
ghost use Rattle.fx_text.specs.Reading.{Reads, ReadsAll, interval_at};
ghost use Rattle.fx_text.specs.Lines.{GivesLine};
ghost use Rattle.fx_cert.specs.CertificateView.{box_of, template_view, form_view, line_view};
ghost use Rattle.fx_cert_text.specs.CountsView.{certificate_sizes_of, template_counts_of, AreCertificateSizes, AreTemplateCounts};
ghost use Rattle.fx_cert_text.specs.LineReading.{certificate_headline_at, certificate_sizes_at, step_count_at, step_at, start_at, template_counts_at, box_template_at, template_at, plain_at, form_at, formed_at, node_at};

use crate::path::path;
use crate::share::{shares, shares_if_any};
use fx_cert::{Form, NodeLine, StartBox, Template, unit_vector};
use fx_expr::Items;
use fx_num::{
    INPUT_LIMIT, Interval, NODE_LIMIT, PLACE_END, STATE_LIMIT, STEP_LIMIT, TEMPLATE_LIMIT,
};
use fx_step::{RULE_COUNT, Step};
use fx_text::{
    Fields, TextKind, count, dyadic, dyadics, ended, interval as ends, place, small, word,
};
use std::alloc::Global;

/// The counts that the second line names.
#[derive(Clone, Copy)]
pub struct CertificateSizes {
    pub inputs: u32,
    pub states: u32,
    pub count: u32,
}

/// The counts of templates and error templates.
#[derive(Clone, Copy)]
pub struct TemplateCounts {
    pub templates: u32,
    pub error_templates: u32,
}

/// `fixd certificate 1`.
#[tactic(auto, unfolding(crate::specs::LineReading::certificate_headline_at))]
pub fn read_headline(fields: &mut Fields<'_>) -> Result<(), TextKind>
    ensures { ReadsAll (λ _. tt) result (certificate_headline_at fields.old) }
{
    word(fields, b"fixd")?;
    word(fields, b"certificate")?;
    word(fields, b"1")?;
    ended(fields)
}

/// `sizes I K n`.
#[tactic(auto, unfolding(crate::specs::LineReading::certificate_sizes_at))]
pub fn read_sizes(fields: &mut Fields<'_>) -> Result<CertificateSizes, TextKind>
    ensures value { ReadsAll certificate_sizes_of result (certificate_sizes_at fields.old) }
    ensures range { IfOk result (λ s. AreCertificateSizes (certificate_sizes_of s)) }
{
    word(fields, b"sizes")?;
    let inputs = count(fields, 1, INPUT_LIMIT)?;
    let states = count(fields, 0, STATE_LIMIT)?;
    let count = count(fields, inputs + states, NODE_LIMIT)?;
    ended(fields)?;
    Ok(CertificateSizes {
        inputs,
        states,
        count,
    })
}

/// `steps S`.
#[tactic(auto, unfolding(crate::specs::LineReading::step_count_at))]
pub fn read_step_count(fields: &mut Fields<'_>) -> Result<u32, TextKind>
    ensures value { ReadsAll (λ n. n) result (step_count_at fields.old) }
    ensures range { IfOk result (λ n. n ≤ step_limit) }
{
    word(fields, b"steps")?;
    let count = count(fields, 0, STEP_LIMIT)?;
    ended(fields)?;
    Ok(count)
}

/// `step PLACE PATH RULE`.
#[tactic(auto, unfolding(crate::specs::LineReading::step_at))]
pub fn read_step(alloc: Global, fields: &mut Fields<'_>) -> Result<Step, TextKind>
    ensures { GivesLine step_view result (step_at fields.old) }
{
    word(fields, b"step")?;
    let place = place(fields, PLACE_END)?;
    let path = path(alloc, fields)?;
    let rule = small(fields, 1, RULE_COUNT)?;
    ended(fields)?;
    Ok(Step {
        place,
        path,
        rule: rule as u8,
    })
}

fn interval(fields: &mut Fields<'_>) -> Result<Interval, TextKind>
    ensures { Reads (λ i. i) result fields.new (interval_at fields.old) }
{
    let (lo, hi) = ends(fields)?;
    Ok(Interval { lo, hi })
}

/// `start LO HI ELO EHI`.
#[tactic(auto, unfolding(crate::specs::LineReading::start_at))]
pub fn read_start(fields: &mut Fields<'_>) -> Result<StartBox, TextKind>
    ensures { ReadsAll box_of result (start_at fields.old) }
{
    word(fields, b"start")?;
    let range = interval(fields)?;
    let error = interval(fields)?;
    ended(fields)?;
    Ok(StartBox { range, error })
}

/// `rows R E`, with at least one of either for each state.
#[tactic(auto, unfolding(crate::specs::LineReading::template_counts_at))]
pub fn read_template_counts(
    states: u32,
    fields: &mut Fields<'_>,
) -> Result<TemplateCounts, TextKind>
    ensures value { ReadsAll template_counts_of result (template_counts_at states fields.old) }
    ensures range { IfOk result (λ s. AreTemplateCounts states (template_counts_of s)) }
{
    word(fields, b"rows")?;
    let templates = count(fields, states, TEMPLATE_LIMIT)?;
    let error_templates = count(fields, states, TEMPLATE_LIMIT)?;
    ended(fields)?;
    Ok(TemplateCounts {
        templates,
        error_templates,
    })
}

/// `box LO HI SHARES`, the unit template `i` among `end` templates.
#[tactic(auto, unfolding(crate::specs::LineReading::box_template_at))]
pub fn read_box(
    alloc: Global,
    states: u32,
    end: u32,
    i: u32,
    fields: &mut Fields<'_>,
) -> Result<Template, TextKind>
    requires states { states ≤ state_limit }
    requires end { end ≤ template_limit }
    requires place { i < states }
    ensures { GivesLine template_view result (box_template_at states end i fields.old) }
{
    word(fields, b"box")?;
    let bound = interval(fields)?;
    let shares = shares(alloc, fields, end)?;
    ended(fields)?;
    let coefs = unit_vector(alloc, states, i)?;
    Ok(Template {
        coefs,
        bound,
        shares,
    })
}

/// `row C1 to CK LO HI SHARES`, among `end` templates.
#[tactic(auto, unfolding(crate::specs::LineReading::template_at))]
pub fn read_template(
    alloc: Global,
    states: u32,
    end: u32,
    fields: &mut Fields<'_>,
) -> Result<Template, TextKind>
    requires { end ≤ template_limit }
    ensures { GivesLine template_view result (template_at states end fields.old) }
{
    word(fields, b"row")?;
    let coefs = Items::from_vec(dyadics(alloc, fields, states)?);
    let bound = interval(fields)?;
    let shares = shares(alloc, fields, end)?;
    ended(fields)?;
    Ok(Template {
        coefs,
        bound,
        shares,
    })
}

/// `LO HI ELO EHI` behind `plain`.
#[tactic(auto, unfolding(crate::specs::LineReading::plain_at))]
fn read_plain(fields: &mut Fields<'_>) -> Result<NodeLine, TextKind>
    ensures { GivesLine line_view result (plain_at fields.old) }
{
    let range = interval(fields)?;
    let error = interval(fields)?;
    ended(fields)?;
    Ok(NodeLine {
        range,
        error,
        form: None,
    })
}

/// `MA MB C1 to CV PLO PHI QLO QHI BY BY`, over so many variables.
#[tactic(auto, unfolding(crate::specs::LineReading::form_at))]
fn read_form(
    alloc: Global,
    variables: u32,
    counts: TemplateCounts,
    fields: &mut Fields<'_>,
) -> Result<Form, TextKind>
    requires { AreTemplateCounts 0 (template_counts_of counts) }
    ensures { GivesLine form_view result (form_at variables counts.templates counts.error_templates fields.old) }
{
    let centre_a = dyadic(fields)?;
    let centre_b = dyadic(fields)?;
    let coefs = Items::from_vec(dyadics(alloc, fields, variables)?);
    let rest = interval(fields)?;
    let error_rest = interval(fields)?;
    let range_by = shares_if_any(alloc, fields, counts.templates)?;
    let error_by = shares_if_any(alloc, fields, counts.error_templates)?;
    ended(fields)?;
    Ok(Form {
        centre_a,
        centre_b,
        coefs,
        rest,
        error_rest,
        range_by,
        error_by,
    })
}

/// `LO HI ELO EHI` and a form behind `form`.
#[tactic(auto, unfolding(crate::specs::LineReading::formed_at))]
fn read_formed(
    alloc: Global,
    variables: u32,
    counts: TemplateCounts,
    fields: &mut Fields<'_>,
) -> Result<NodeLine, TextKind>
    requires { AreTemplateCounts 0 (template_counts_of counts) }
    ensures { GivesLine line_view result (formed_at variables counts.templates counts.error_templates fields.old) }
{
    let range = interval(fields)?;
    let error = interval(fields)?;
    let form = read_form(alloc, variables, counts, fields)?;
    Ok(NodeLine {
        range,
        error,
        form: Some(form),
    })
}

/// The line of node `n`, which has a form behind the variables' nodes alone.
#[tactic(auto, unfolding(crate::specs::LineReading::node_at))]
pub fn read_node(
    alloc: Global,
    variables: u32,
    counts: TemplateCounts,
    n: u32,
    fields: &mut Fields<'_>,
) -> Result<NodeLine, TextKind>
    requires { AreTemplateCounts 0 (template_counts_of counts) }
    ensures { GivesLine line_view result (node_at variables counts.templates counts.error_templates n fields.old) }
{
    let kind = fields.next().ok_or(TextKind::BadLine)?;
    if kind == b"plain".as_slice() {
        read_plain(fields)
    } else if n >= variables && kind == b"form".as_slice() {
        read_formed(alloc, variables, counts, fields)
    } else {
        Err(TextKind::BadLine)
    }
}
