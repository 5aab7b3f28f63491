//! One side of a certificate, values or errors, of which the conditions by templates say the same.
//!
//! That its numbers are short and its variables few, so that products of them fit, stands in the type's invariant.

ghost use Rattle.std.specs.Prelude.{◌≡◌, ◌+◌, ◌≤◌};
ghost use Rattle.fx_model.specs.Tree.{at};
ghost use Rattle.fx_inequalities.specs.Certificate.{no_template};
ghost use Rattle.fx_formulas.specs.Judging.{Forms, FormsSpan};
ghost use Rattle.fx_cert.specs.CertificateView.{lines_view, shares_of, templates_in};
ghost use Rattle.fx_cert.specs.Sides.{side_rest};
ghost use Rattle.fx_conditions.specs.Limits.{AreShortLines, AreShortTemplates};
ghost use Rattle.fx_template_conditions.specs.CertificateSide.{form_on, spans_on, templates_on};

use fx_cert::{NodeLine, Share, Side, Template};
use fx_conditions::{bound_of, coef_of, side_of, side_rest_of, template_coef_of};
use fx_num::{Dyadic, Interval};
use std::marker::Model;

/// One side of a certificate, values or errors: what the lines of its nodes say, and the templates of this side, over
/// so many inputs and states.
#[derive(Drop)]
pub struct CertificateSide<'c> {
    which: Side,
    lines: &'c [NodeLine],
    templates: &'c [Template],
    inputs: u32,
    states: u32,
}

impl<'c> Model for CertificateSide<'c> {
    ghost use Rattle.std.specs.Prelude.{◌+◌, ◌≤◌};
    ghost use Rattle.fx_cert.specs.CertificateView.{lines_view, templates_in};
    ghost use Rattle.fx_conditions.specs.Limits.{AreShortLines, AreShortTemplates};
    ghost use Rattle.fx_template_conditions.specs.CertificateSide.{OneSide};

    ghost Value = { OneSide };

    ghost view = { λ s. record {
      which = s.which;
      lines = lines_view s.lines.now;
      templates = templates_in s.templates.now;
      inputs = s.inputs;
      states = s.states;
    } };

    ghost invariant = { λ s. (AreShortLines (lines_view s.lines.now))
        × (AreShortTemplates (templates_in s.templates.now)) × (s.inputs + s.states ≤ 96) };
}

/// The coefficients of a template that is no unit template.
fn coefs_of(templates: &[Template], i: u32) -> &[Dyadic]
    ensures { result.now ≡ (at no_template (templates_in templates.now) i).coefs }
{
    match templates.get(i as usize) {
        Some(template) => template.coefs.as_slice(),
        None => &[],
    }
}

/// The shares of template `i`.
fn shares_at(templates: &[Template], i: u32) -> &[Share]
    ensures { shares_of result.now ≡ (at no_template (templates_in templates.now) i).shares }
{
    match templates.get(i as usize) {
        Some(template) => template.shares.as_slice(),
        None => &[],
    }
}

impl<'c> CertificateSide<'c> {
    /// The side with these lines and templates, whose numbers are short.
    pub fn new(
        which: Side,
        lines: &'c [NodeLine],
        templates: &'c [Template],
        inputs: u32,
        states: u32,
    ) -> CertificateSide<'c>
        requires lines { AreShortLines (lines_view lines.now) }
        requires templates { AreShortTemplates (templates_in templates.now) }
        requires few { inputs + states ≤ 96 }
        ensures { result ≡ record {
          which = which;
          lines = lines_view lines.now;
          templates = templates_in templates.now;
          inputs = inputs;
          states = states;
        } }
    {
        CertificateSide {
            which,
            lines,
            templates,
            inputs,
            states,
        }
    }

    /// What each side keeps: short numbers, and few variables.
    pub fn keeps(&self)
        ensures lines { AreShortLines self.now.lines }
        ensures templates { AreShortTemplates self.now.templates }
        ensures few { self.now.inputs + self.now.states ≤ 96 }
    {
        let _states = self.states;
    }

    /// Which of the two it is.
    pub fn which(&self) -> &Side
        ensures { result.now ≡ self.now.which }
    {
        &self.which
    }

    /// How many inputs there are.
    pub fn inputs(&self) -> u32
        ensures { result ≡ self.now.inputs }
    {
        self.inputs
    }

    /// How many states there are.
    pub fn states(&self) -> u32
        ensures { result ≡ self.now.states }
    {
        self.states
    }

    /// How many inputs and states there are.
    pub fn variables(&self) -> u32
        ensures value { result ≡ self.now.inputs + self.now.states }
        ensures few { result ≤ 96 }
    {
        self.inputs + self.states
    }

    /// Where variable `j` lies.
    pub fn variable(&self, j: u32) -> Option<Interval>
        ensures { FormsSpan result (spans_on self.now j) }
    {
        side_of(&self.which, self.lines, j)
    }

    /// Coefficient `j` of the form of node `n`.
    pub fn node_coef(&self, n: u32, j: u32) -> Option<Dyadic>
        ensures { Forms result ((form_on self.now n).coef j) }
    {
        coef_of(self.lines, self.inputs + self.states, n, j)
    }

    /// The rest of the form of node `n`.
    pub fn node_rest(&self, n: u32) -> Option<Interval>
        ensures { FormsSpan result (side_rest self.now.which (form_on self.now n)) }
    {
        side_rest_of(&self.which, self.lines, self.inputs + self.states, n)
    }

    /// The bound of template `i`.
    pub fn bound(&self, i: u32) -> Option<Interval>
        ensures { FormsSpan result ((templates_on self.now).bound i) }
    {
        bound_of(self.templates, self.states, i)
    }

    /// Coefficient `k` of template `i`.
    pub fn coef(&self, i: u32, k: u32) -> Option<Dyadic>
        ensures { Forms result ((templates_on self.now).coef i k) }
    {
        template_coef_of(self.templates, self.states, i, k)
    }

    /// The coefficients of template `i`, which is no unit template.
    pub fn coefs(&self, i: u32) -> &[Dyadic]
        ensures { result.now ≡ (at no_template self.now.templates i).coefs }
    {
        coefs_of(self.templates, i)
    }

    /// The shares of template `i`.
    pub fn shares(&self, i: u32) -> &[Share]
        ensures { shares_of result.now ≡ (at no_template self.now.templates i).shares }
    {
        shares_at(self.templates, i)
    }
}
