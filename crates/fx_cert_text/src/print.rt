//! Writing the one text of a certificate, and that of a bundle.
//!
//! The first templates are printed as unit templates, by their place alone: what their coefficients are is for the
//! certificate to keep, and a lawful one does.

ghost use Rattle.std.specs.Prelude.{◌≡◌, ◌++◌, ◌∷◌, ◌≤◌, [], length, codes, OnOk, IfOk};
ghost use Rattle.std.specs.Fmt.{decimal};
ghost use Rattle.std.specs.List.{flat_map};
ghost use Rattle.std.specs.Option.{option_map};
ghost use Rattle.fx_model.specs.Limits.{source_limit};
ghost use Rattle.fx_model.specs.LineText.{line_text};
ghost use Rattle.fx_inequalities.specs.CertificateText.{step_fields, start_fields, box_fields, template_fields, node_fields, templates_text, certificate_text, bundle_text};
ghost use Rattle.fx_inequalities.specs.LawfulCertificate.{IsLawfulCertificate};
ghost use Rattle.fx_step.specs.StepView.{step_view};
ghost use Rattle.fx_cert.specs.CertificateView.{box_of, template_view, templates_in, form_view, line_view, certificate_of};
ghost use Rattle.fx_cert_text.specs.Printing.{as_printed, printed_step, front_text, back_text, source_front};

use crate::print_line::{put_box, put_node, put_start, put_step, put_template};
use fx_cert::{Certificate, NodeLine, StartBox, Template};
use fx_num::Memory;
use fx_program::{Program, put_program};
use fx_step::Step;
use fx_text::{begin_line, put_one, put_three, put_two};
use std::alloc::{AllocError, Global};

fn put_steps(out: &mut Vec<u8>, steps: &[Step]) -> Result<(), AllocError>
    ensures { OnOk result (out.new.items ≡ out.old.items
        ++ flat_map (λ s. line_text (step_fields (printed_step (step_view s)))) steps.now) }
{
    for step in steps {
        put_step(out, step)?;
    }
    Ok(())
}

fn put_starts(out: &mut Vec<u8>, starts: &[StartBox]) -> Result<(), AllocError>
    ensures { OnOk result (out.new.items ≡ out.old.items
        ++ flat_map (λ b. line_text (start_fields (box_of b))) starts.now) }
{
    for start in starts {
        put_start(out, start)?;
    }
    Ok(())
}

fn put_boxes(out: &mut Vec<u8>, templates: &[Template]) -> Result<(), AllocError>
    ensures { OnOk result (out.new.items ≡ out.old.items
        ++ flat_map (λ r. line_text (box_fields (template_view r))) templates.now) }
{
    for template in templates {
        put_box(out, template)?;
    }
    Ok(())
}

fn put_others(out: &mut Vec<u8>, templates: &[Template]) -> Result<(), AllocError>
    ensures { OnOk result (out.new.items ≡ out.old.items
        ++ flat_map (λ r. line_text (template_fields (template_view r))) templates.now) }
{
    for template in templates {
        put_template(out, template)?;
    }
    Ok(())
}

fn put_nodes(out: &mut Vec<u8>, lines: &[NodeLine]) -> Result<(), AllocError>
    ensures { OnOk result (out.new.items ≡ out.old.items
        ++ flat_map (λ l. line_text (node_fields (line_view l) (option_map form_view l.form))) lines.now) }
{
    for line in lines {
        put_node(out, line)?;
    }
    Ok(())
}

/// All templates, of which the first are the unit templates.
fn put_templates(out: &mut Vec<u8>, states: u32, templates: &[Template]) -> Result<(), AllocError>
    ensures { OnOk result (out.new.items ≡ out.old.items ++ templates_text states (templates_in templates.now)) }
{
    let k = (states as usize).min(templates.len());
    put_boxes(out, &templates[..k])?;
    put_others(out, &templates[k..])?;
    Ok(())
}

/// The lines down to the starts.
fn put_front(out: &mut Vec<u8>, certificate: &Certificate) -> Result<(), AllocError>
    ensures { OnOk result (out.new.items ≡ out.old.items ++ front_text (as_printed (certificate_of certificate.now))) }
{
    let node_count = certificate.lines.len();
    let step_count = certificate.steps.len();
    begin_line(out, b"fixd certificate 1\n")?;
    put_three(
        out,
        b"sizes",
        certificate.inputs,
        certificate.states,
        node_count,
    )?;
    put_one(out, b"steps", step_count)?;
    put_steps(out, certificate.steps.as_slice())?;
    put_starts(out, certificate.starts.as_slice())?;
    Ok(())
}

/// The lines from the templates on.
fn put_back(out: &mut Vec<u8>, certificate: &Certificate) -> Result<(), AllocError>
    ensures { OnOk result (out.new.items ≡ out.old.items ++ back_text (as_printed (certificate_of certificate.now))) }
{
    let template_count = certificate.templates.len();
    let error_count = certificate.error_templates.len();
    put_two(out, b"rows", template_count, error_count)?;
    put_templates(out, certificate.states, certificate.templates.as_slice())?;
    put_templates(
        out,
        certificate.states,
        certificate.error_templates.as_slice(),
    )?;
    put_nodes(out, certificate.lines.as_slice())?;
    Ok(())
}

/// The text of the certificate, behind what was written before.
fn put_certificate(out: &mut Vec<u8>, certificate: &Certificate) -> Result<(), AllocError>
    ensures { OnOk result (out.new.items ≡ out.old.items
        ++ certificate_text (as_printed (certificate_of certificate.now))) }
{
    put_front(out, certificate)?;
    put_back(out, certificate)?;
    Ok(())
}

fn text_of(alloc: Global, certificate: &Certificate) -> Result<Vec<u8>, AllocError>
    ensures { IfOk result (λ text. text.items ≡ certificate_text (as_printed (certificate_of certificate.now))) }
{
    let mut out = Vec::new(alloc);
    put_certificate(&mut out, certificate)?;
    Ok(out)
}

/// The one text of a lawful certificate. Of another, what is printed is no text of a certificate.
pub fn print_certificate(alloc: Global, certificate: &Certificate) -> Result<Vec<u8>, Memory>
    ensures text { IsLawfulCertificate (certificate_of certificate.now) →
        IfOk result (λ text. text.items ≡ certificate_text (certificate_of certificate.now)) }
{
    match text_of(alloc, certificate) {
        Ok(text) => Ok(text),
        Err(_) => Err(Memory),
    }
}

/// The first line, with the version of the program.
fn put_headline(out: &mut Vec<u8>, version: u32) -> Result<(), AllocError>
    ensures { OnOk result (out.new.items ≡ out.old.items
        ++ line_text (codes "fixd" ∷ codes "bundle" ∷ decimal version ∷ [])) }
{
    put_one(out, b"fixd bundle", version)
}

/// The lines down to the program's section.
fn put_source(out: &mut Vec<u8>, version: u32, source: &[u8]) -> Result<(), AllocError>
    ensures { OnOk result (out.new.items ≡ out.old.items ++ source_front version source.now) }
{
    let count = source.len();
    put_headline(out, version)?;
    put_one(out, b"source", count)?;
    begin_line(out, source)?;
    begin_line(out, b"\nprogram\n")?;
    Ok(())
}

/// A bundle's text, behind what was written before.
fn put_bundle(
    out: &mut Vec<u8>,
    source: &[u8],
    program: &Program,
    certificate: &Certificate,
) -> Result<(), AllocError>
    ensures { OnOk result (out.new.items ≡ out.old.items
        ++ bundle_text source.now program.now (as_printed (certificate_of certificate.now))) }
{
    put_source(out, program.version, source)?;
    put_program(out, program)?;
    begin_line(out, b"certificate\n")?;
    put_certificate(out, certificate)?;
    begin_line(out, b"end\n")?;
    Ok(())
}

fn bundle_text_of(
    alloc: Global,
    source: &[u8],
    program: &Program,
    certificate: &Certificate,
) -> Result<Vec<u8>, AllocError>
    ensures { IfOk result (λ text. text.items
        ≡ bundle_text source.now program.now (as_printed (certificate_of certificate.now))) }
{
    let mut out = Vec::new(alloc);
    put_bundle(&mut out, source, program, certificate)?;
    Ok(out)
}

/// The one text of a bundle of this source, program and certificate, where the certificate is lawful.
pub fn print_bundle(
    alloc: Global,
    source: &[u8],
    program: &Program,
    certificate: &Certificate,
) -> Result<Vec<u8>, Memory>
    requires { length source.now ≤ source_limit }
    ensures text { IsLawfulCertificate (certificate_of certificate.now) →
        IfOk result (λ text. text.items ≡ bundle_text source.now program.now (certificate_of certificate.now)) }
{
    match bundle_text_of(alloc, source, program, certificate) {
        Ok(text) => Ok(text),
        Err(_) => Err(Memory),
    }
}
