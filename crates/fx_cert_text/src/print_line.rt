//! Writing the lines of a certificate, field by field.
//!
//! Each call appends what its clause says. The trap: a path's turns are bytes, of which only 0 and 1 have a digit of
//! their own; another is written as 1, so that a certificate that no text spells is still printed to its end.

ghost use Rattle.std.specs.Prelude.{◌≡◌, ◌++◌, ◌+◌, ◌∷◌, map, min, codes, OnOk};
ghost use Rattle.std.specs.Fmt.{decimal};
ghost use Rattle.std.specs.List.{flat_map};
ghost use Rattle.std.specs.Option.{option_map};
ghost use Rattle.fx_model.specs.LineText.{line_text, dyadic_text, interval_fields};
ghost use Rattle.fx_inequalities.specs.CertificateText.{share_fields, by_fields, path_field, step_fields, start_fields, box_fields, template_fields, form_fields, node_fields};
ghost use Rattle.fx_step.specs.StepView.{step_view};
ghost use Rattle.fx_cert.specs.CertificateView.{shares_of, box_of, template_view, form_view, line_view};
ghost use Rattle.fx_cert_text.specs.Printing.{spaced, printed_step};

use fx_cert::{Form, NodeLine, Share, StartBox, Template};
use fx_expr::Items;
use fx_num::{Dyadic, Interval};
use fx_step::Step;
use fx_text::{begin_line, end_line, put_dyadic, put_dyadics, put_interval, put_number, put_word};
use std::alloc::AllocError;

fn put_ends(out: &mut Vec<u8>, i: Interval) -> Result<(), AllocError>
    ensures { OnOk result (out.new.items ≡ out.old.items ++ spaced (interval_fields i)) }
{
    put_interval(out, i.lo, i.hi)
}

fn put_coefs(out: &mut Vec<u8>, coefs: &[Dyadic]) -> Result<(), AllocError>
    ensures { OnOk result (out.new.items ≡ out.old.items ++ spaced (map dyadic_text coefs.now)) }
{
    put_dyadics(out, coefs)
}

fn put_pairs(out: &mut Vec<u8>, shares: &[Share]) -> Result<(), AllocError>
    ensures { OnOk result (out.new.items ≡ out.old.items
        ++ flat_map (λ s. 32 ∷ decimal s.template ++ 32 ∷ dyadic_text s.times) shares.now) }
{
    for share in shares {
        put_number(out, share.template)?;
        put_dyadic(out, share.times)?;
    }
    Ok(())
}

/// The count of the shares, and each.
fn put_shares(out: &mut Vec<u8>, shares: &[Share]) -> Result<(), AllocError>
    ensures { OnOk result (out.new.items ≡ out.old.items ++ spaced (share_fields (shares_of shares.now))) }
{
    let count = shares.len();
    put_number(out, count)?;
    put_pairs(out, shares)?;
    Ok(())
}

/// A minus where no shares are named.
fn put_by(out: &mut Vec<u8>, by: &Option<Items<Share>>) -> Result<(), AllocError>
    ensures { OnOk result (out.new.items ≡ out.old.items ++ spaced (by_fields (option_map shares_of by.now))) }
{
    match by {
        Some(shares) => put_shares(out, shares.as_slice()),
        None => put_word(out, b"-"),
    }
}

fn put_turns(out: &mut Vec<u8>, path: &[u8]) -> Result<(), AllocError>
    ensures { OnOk result (out.new.items ≡ out.old.items ++ map (λ d. 48 + min d 1) path.now) }
{
    for d in path {
        out.push(b'0' + (*d).min(1))?;
    }
    Ok(())
}

fn put_some_turns(out: &mut Vec<u8>, path: &[u8]) -> Result<(), AllocError>
    ensures { OnOk result (out.new.items ≡ out.old.items ++ 32 ∷ map (λ d. 48 + min d 1) path.now) }
{
    out.push(b' ')?;
    put_turns(out, path)
}

/// A digit for each turn, and a minus where there is none.
fn put_path(out: &mut Vec<u8>, path: &[u8]) -> Result<(), AllocError>
    ensures { OnOk result (out.new.items ≡ out.old.items ++ 32 ∷ path_field (map (λ d. min d 1) path.now)) }
{
    if path.is_empty() {
        put_word(out, b"-")
    } else {
        put_some_turns(out, path)
    }
}

/// The line of a rewriting step.
pub fn put_step(out: &mut Vec<u8>, step: &Step) -> Result<(), AllocError>
    ensures { OnOk result (out.new.items ≡ out.old.items
        ++ line_text (step_fields (printed_step (step_view step.now)))) }
{
    begin_line(out, b"step")?;
    put_number(out, step.place)?;
    put_path(out, step.path.as_slice())?;
    put_number(out, step.rule)?;
    end_line(out)
}

/// The line of a state's start.
pub fn put_start(out: &mut Vec<u8>, start: &StartBox) -> Result<(), AllocError>
    ensures { OnOk result (out.new.items ≡ out.old.items ++ line_text (start_fields (box_of start.now))) }
{
    begin_line(out, b"start")?;
    put_ends(out, start.range)?;
    put_ends(out, start.error)?;
    end_line(out)
}

/// The line of a unit template, which names no coefficients.
pub fn put_box(out: &mut Vec<u8>, template: &Template) -> Result<(), AllocError>
    ensures { OnOk result (out.new.items ≡ out.old.items ++ line_text (box_fields (template_view template.now))) }
{
    begin_line(out, b"box")?;
    put_ends(out, template.bound)?;
    put_shares(out, template.shares.as_slice())?;
    end_line(out)?;
    Ok(())
}

/// The line of a further template.
pub fn put_template(out: &mut Vec<u8>, template: &Template) -> Result<(), AllocError>
    ensures { OnOk result (out.new.items ≡ out.old.items ++ line_text (template_fields (template_view template.now))) }
{
    begin_line(out, b"row")?;
    put_coefs(out, template.coefs.as_slice())?;
    put_ends(out, template.bound)?;
    put_shares(out, template.shares.as_slice())?;
    end_line(out)?;
    Ok(())
}

/// The fields of a form.
fn put_form(out: &mut Vec<u8>, form: &Form) -> Result<(), AllocError>
    ensures { OnOk result (out.new.items ≡ out.old.items ++ spaced (form_fields (form_view form.now))) }
{
    put_dyadic(out, form.centre_a)?;
    put_dyadic(out, form.centre_b)?;
    put_coefs(out, form.coefs.as_slice())?;
    put_ends(out, form.rest)?;
    put_ends(out, form.error_rest)?;
    put_by(out, &form.range_by)?;
    put_by(out, &form.error_by)?;
    Ok(())
}

fn put_plain(out: &mut Vec<u8>, line: &NodeLine) -> Result<(), AllocError>
    ensures { OnOk result (out.new.items ≡ out.old.items
        ++ line_text (codes "plain" ∷ interval_fields line.now.range ++ interval_fields line.now.error)) }
{
    begin_line(out, b"plain")?;
    put_ends(out, line.range)?;
    put_ends(out, line.error)?;
    end_line(out)
}

fn put_formed(out: &mut Vec<u8>, line: &NodeLine, form: &Form) -> Result<(), AllocError>
    ensures { OnOk result (out.new.items ≡ out.old.items
        ++ line_text (codes "form" ∷ interval_fields line.now.range ++ interval_fields line.now.error
        ++ form_fields (form_view form.now))) }
{
    begin_line(out, b"form")?;
    put_ends(out, line.range)?;
    put_ends(out, line.error)?;
    put_form(out, form)?;
    end_line(out)?;
    Ok(())
}

/// The line of a node.
pub fn put_node(out: &mut Vec<u8>, line: &NodeLine) -> Result<(), AllocError>
    ensures { OnOk result (out.new.items ≡ out.old.items
        ++ line_text (node_fields (line_view line.now) (option_map form_view line.now.form))) }
{
    match &line.form {
        Some(form) => put_formed(out, line, form),
        None => put_plain(out, line),
    }
}
