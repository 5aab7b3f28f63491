//! Reading a certificate line by line, in one pass.
//!
//! A bundle's certificate begins on some line of a longer text, so the reader is told that line's number and gives back
//! the text behind the certificate. Lists grow as their lines come, whatever their count claims.

ghost use Rattle.std.specs.Prelude.{◌≡◌, ◌≤◌, ◌<◌, ◌^◌, ◌+◌, ◌-◌, map, length, IfOk};
ghost use Rattle.fx_model.specs.Limits.{state_limit, step_limit, template_limit};
ghost use Rattle.fx_step.specs.StepView.{step_view};
ghost use Rattle.fx_inequalities.specs.LawfulCertificate.{IsLawfulCertificate};
ghost use Rattle.fx_text.specs.Reading.{ReadsAll};
ghost use Rattle.fx_text.specs.Lines.{line_by, Gives};
ghost use Rattle.fx_cert.specs.CertificateView.{templates_in, certificate_of};
ghost use Rattle.fx_cert_text.specs.CountsView.{certificate_sizes_of, template_counts_of, AreCertificateSizes, AreTemplateCounts};
ghost use Rattle.fx_cert_text.specs.LineReading.{certificate_headline_at, certificate_sizes_at, step_count_at, template_counts_at};
ghost use Rattle.fx_cert_text.specs.CertificateReading.{templates_at, steps_at, all_templates_at, certificate_at, certificate_lines, certificate_in};

use crate::lines::{BoxLines, NodeLines, StartLines, StepLines, TemplateLines};
use crate::read_line::{
    CertificateSizes, TemplateCounts, read_headline, read_sizes, read_step_count,
    read_template_counts,
};
use fx_cert::{Certificate, Template};
use fx_expr::Items;
use fx_step::Step;
use fx_text::{TextFault, fields_at, read_lines, read_more_lines, text_ended};
use std::alloc::Global;

/// The first line, and the text behind it.
#[tactic(auto, unfolding(fx_text::specs::Lines::line_by))]
fn headline_line(line: u32, text: &[u8]) -> Result<&[u8], TextFault>
    ensures { ReadsAll (λ rest. (tt, rest.now)) result (line_by certificate_headline_at line text.now) }
{
    let (mut fields, rest) = fields_at(line, text)?;
    read_headline(&mut fields).map_err(|kind| TextFault::at(line, kind))?;
    Ok(rest)
}

#[tactic(auto, unfolding(fx_text::specs::Lines::line_by))]
fn sizes_line(line: u32, text: &[u8]) -> Result<(CertificateSizes, &[u8]), TextFault>
    ensures value { ReadsAll (λ x. (certificate_sizes_of x.0, x.1.now)) result
        (line_by certificate_sizes_at line text.now) }
    ensures range { IfOk result (λ x. AreCertificateSizes (certificate_sizes_of x.0)) }
{
    let (mut fields, rest) = fields_at(line, text)?;
    let sizes = read_sizes(&mut fields).map_err(|kind| TextFault::at(line, kind))?;
    Ok((sizes, rest))
}

#[tactic(auto, unfolding(fx_text::specs::Lines::line_by))]
fn step_count_line(line: u32, text: &[u8]) -> Result<(u32, &[u8]), TextFault>
    ensures value { ReadsAll (λ x. (x.0, x.1.now)) result (line_by step_count_at line text.now) }
    ensures range { IfOk result (λ x. x.0 ≤ step_limit) }
{
    let (mut fields, rest) = fields_at(line, text)?;
    let count = read_step_count(&mut fields).map_err(|kind| TextFault::at(line, kind))?;
    Ok((count, rest))
}

#[tactic(auto, unfolding(fx_text::specs::Lines::line_by))]
fn template_counts_line(
    states: u32,
    line: u32,
    text: &[u8],
) -> Result<(TemplateCounts, &[u8]), TextFault>
    ensures value { ReadsAll (λ x. (template_counts_of x.0, x.1.now)) result
        (line_by (template_counts_at states) line text.now) }
    ensures range { IfOk result (λ x. AreTemplateCounts states (template_counts_of x.0)) }
{
    let (mut fields, rest) = fields_at(line, text)?;
    let counts = read_template_counts(states, &mut fields).map_err(|kind| TextFault::at(
        line, kind,
    ))?;
    Ok((counts, rest))
}

/// The templates that are counted: a box for each state, and the further ones.
#[tactic(auto, unfolding(crate::specs::CertificateReading::templates_at))]
fn templates_at<'a>(
    alloc: Global,
    first: u32,
    states: u32,
    end: u32,
    text: &'a [u8],
) -> Result<(Vec<Template>, &'a [u8]), TextFault>
    requires first { first ≤ 2 ^ 29 + 2 ^ 16 }
    requires few { states ≤ state_limit }
    requires states { states ≤ end }
    requires end { end ≤ template_limit }
    ensures value { Gives (λ x. (templates_in x.0.items, x.1.now)) result (templates_at first states end text.now) }
    ensures count { IfOk result (λ x. length x.0.items ≡ end) }
{
    let (boxes, rest) = read_lines(&BoxLines { states, end }, alloc, first, states, text)?;
    let further = TemplateLines { states, end };
    read_more_lines(&further, alloc, first + states, end - states, boxes, rest)
}

/// The count of steps, and the steps.
#[tactic(auto, unfolding(crate::specs::CertificateReading::steps_at))]
fn steps_at<'a>(
    alloc: Global,
    line: u32,
    text: &'a [u8],
) -> Result<(Vec<Step>, &'a [u8]), TextFault>
    requires { line ≤ 2 ^ 29 + 2 }
    ensures value { Gives (λ x. (map step_view x.0.items, x.1.now)) result (steps_at line text.now) }
    ensures count { IfOk result (λ x. length x.0.items ≤ step_limit) }
{
    let (count, rest) = step_count_line(line, text)?;
    read_lines(&StepLines { count }, alloc, line + 1, count, rest)
}

/// The counts of templates and error templates, and both. The counts are handed on to the readers of nodes.
#[tactic(auto, unfolding(crate::specs::CertificateReading::all_templates_at))]
fn all_templates_at<'a>(
    alloc: Global,
    line: u32,
    states: u32,
    text: &'a [u8],
) -> Result<(Vec<Template>, Vec<Template>, &'a [u8]), TextFault>
    requires line { line ≤ 2 ^ 29 + 2 ^ 15 }
    requires states { states ≤ state_limit }
    ensures value { Gives (λ x. ((templates_in x.0.items, templates_in x.1.items), x.2.now)) result
        (all_templates_at line states text.now) }
    ensures templates { IfOk result (λ x. length x.0.items ≤ template_limit) }
    ensures error_templates { IfOk result (λ x. length x.1.items ≤ template_limit) }
{
    let (counts, rest) = template_counts_line(states, line, text)?;
    let TemplateCounts {
        templates,
        error_templates,
    } = counts;
    let (found, rest) = templates_at(alloc, line + 1, states, templates, rest)?;
    let (found_errors, rest) = templates_at(
        alloc,
        line + 1 + templates,
        states,
        error_templates,
        rest,
    )?;
    Ok((found, found_errors, rest))
}

/// The parts of a certificate from line `line` on, and the text behind them.
#[tactic(auto, unfolding(crate::specs::CertificateReading::certificate_at))]
fn parts_at<'a>(
    alloc: Global,
    line: u32,
    text: &'a [u8],
) -> Result<(Certificate, &'a [u8]), TextFault>
    requires { line ≤ 2 ^ 29 }
    ensures { Gives (λ x. (certificate_of x.0, x.1.now)) result (certificate_at line text.now) }
{
    let rest = headline_line(line, text)?;
    let (sizes, rest) = sizes_line(line + 1, rest)?;
    let CertificateSizes {
        inputs,
        states,
        count,
    } = sizes;
    let (steps, rest) = steps_at(alloc, line + 2, rest)?;
    let first = line + 3 + steps.len() as u32;
    let (starts, rest) = read_lines(&StartLines { states }, alloc, first, states, rest)?;
    let (templates, error_templates, rest) = all_templates_at(alloc, first + states, states, rest)?;
    let counts = TemplateCounts {
        templates: templates.len() as u32,
        error_templates: error_templates.len() as u32,
    };
    let first = first + states + 1 + counts.templates + counts.error_templates;
    let variables = inputs + states;
    let nodes = NodeLines {
        variables,
        counts,
        count,
    };
    let (lines, rest) = read_lines(&nodes, alloc, first, count, rest)?;
    let certificate = Certificate {
        inputs,
        states,
        steps: Items::from_vec(steps),
        starts: Items::from_vec(starts),
        templates: Items::from_vec(templates),
        error_templates: Items::from_vec(error_templates),
        lines: Items::from_vec(lines),
    };
    Ok((certificate, rest))
}

/// The certificate at the front of the text, whose first line has the number `line`, and the text behind it.
pub fn certificate_at<'a>(
    alloc: Global,
    line: u32,
    text: &'a [u8],
) -> Result<(Certificate, &'a [u8]), TextFault>
    requires { line ≤ 2 ^ 29 }
    ensures value { Gives (λ x. (certificate_of x.0, x.1.now)) result (certificate_at line text.now) }
    ensures lawful { IfOk result (λ x. IsLawfulCertificate (certificate_of x.0)) }
{
    let (certificate, rest) = parts_at(alloc, line, text)?;
    Ok((certificate, rest))
}

/// How many lines its text has.
pub fn certificate_lines(certificate: &Certificate) -> u32
    requires { IsLawfulCertificate (certificate_of certificate.now) }
    ensures lines { result ≡ certificate_lines (certificate_of certificate.now) }
    ensures few { result ≤ 2 ^ 15 }
{
    let steps = certificate.steps.len() as u32;
    let starts = certificate.starts.len() as u32;
    let templates = certificate.templates.len() as u32;
    let error_templates = certificate.error_templates.len() as u32;
    let lines = certificate.lines.len() as u32;
    4 + steps + starts + templates + error_templates + lines
}

/// The certificate that the text spells, or the first fault.
#[tactic(auto, unfolding(crate::specs::CertificateReading::certificate_in))]
pub fn read_certificate(alloc: Global, bytes: &[u8]) -> Result<Certificate, TextFault>
    ensures value { Gives certificate_of result (certificate_in bytes.now) }
    ensures lawful { IfOk result (λ c. IsLawfulCertificate (certificate_of c)) }
{
    let (certificate, rest) = certificate_at(alloc, 1, bytes)?;
    text_ended(1 + certificate_lines(&certificate), rest)?;
    Ok(certificate)
}
