//! Unit templates, one for each state.

ghost use Rattle.std.specs.Prelude.{◌≡◌, ◌<◌, IfOk};
ghost use Rattle.fx_model.specs.Tree.{at};
ghost use Rattle.fx_inequalities.specs.Certificate.{zero_interval};
ghost use Rattle.fx_inequalities.specs.LawfulCertificate.{unit_vector};
ghost use Rattle.fx_cert.specs.CertificateView.{template_view, templates_in};
ghost use Rattle.fx_conditions.specs.Limits.{AreShortTemplates};
ghost use Rattle.fx_template.specs.PlainRounds.{unit_template, unit_templates};
ghost use Rattle.fx_template.specs.RoundView.{AreShortBounds};

use fx_cert::{Template, unit_vector};
use fx_expr::Items;
use fx_num::{Interval, Memory};
use std::alloc::Global;

/// Bound `i` of a list, and 0 past its end.
pub fn bound_at(bounds: &[Interval], i: u32) -> Interval
    ensures { result ≡ at zero_interval bounds.now i }
{
    match bounds.get(i as usize) {
        Some(bound) => *bound,
        None => Interval::zero(),
    }
}

/// The unit template of state `i` among so many, with this bound and no shares.
fn unit_template(alloc: Global, states: u32, bound: Interval, i: u32) -> Result<Template, Memory>
    requires { i < states }
    ensures { IfOk result (λ r. template_view r ≡ unit_template states bound i) }
{
    Ok(Template {
        coefs: unit_vector(alloc, states, i)?,
        bound,
        shares: Items::from_vec(Vec::new(alloc)),
    })
}

/// The unit templates with these bounds.
pub fn unit_templates(
    alloc: Global,
    states: u32,
    bounds: &[Interval],
) -> Result<Vec<Template>, Memory>
    requires { AreShortBounds bounds.now }
    ensures templates { IfOk result (λ templates. templates_in templates.items ≡ unit_templates states bounds.now) }
    ensures short { IfOk result (λ templates. AreShortTemplates (templates_in templates.items)) }
{
    let mut templates = Vec::new(alloc);
    for i in 0..states {
        let bound = bound_at(bounds, i);
        let template = unit_template(alloc, states, bound, i)?;
        templates.push(template)?;
    }
    Ok(templates)
}
