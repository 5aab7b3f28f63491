//! Range and Error of a node whose form may name shares of templates, and its condition Form.

ghost use Rattle.std.specs.Prelude.{true, ◌≡◌, length, Some};
ghost use Rattle.std.specs.Option.{option_map};
ghost use Rattle.fx_model.specs.Tree.{at};
ghost use Rattle.fx_model.specs.LawfulProgram.{IsPoint};
ghost use Rattle.fx_rational.specs.Dyadic.{zero_dyadic};
ghost use Rattle.fx_inequalities.specs.Certificate as certificates;
ghost use Rattle.fx_inequalities.specs.Certificate.{no_line};
ghost use Rattle.fx_inequalities.specs.Claim.{inside};
ghost use Rattle.fx_inequalities.specs.Formula.{Num, span};
ghost use Rattle.fx_inequalities.specs.Affine.{form_of, of_line};
ghost use Rattle.fx_inequalities.specs.Condition as conditions;
ghost use Rattle.fx_inequalities.specs.NodeConditions as nodes;
ghost use Rattle.fx_inequalities.specs.NodeConditions.{error_claims, form_claims, range_claims};
ghost use Rattle.fx_formulas.specs.Judging.{FormsSpan, judged};
ghost use Rattle.fx_formulas.specs.FaultView.{condition_fault_of};
ghost use Rattle.fx_cert.specs.CertificateView.{certificate_of, form_view as form_view, lines_view, shares_of};
ghost use Rattle.fx_conditions.specs.MatchView.{code_in, node_in};
ghost use Rattle.fx_cert.specs.Sides.{side_rest};
ghost use Rattle.fx_conditions.specs.Limits.{AreShortLines, AreShortShares, IsShortCertificate, IsShortForm};
ghost use Rattle.fx_template_conditions.specs.CertificateSide.{bound_on, errors_of, values_of};

use crate::bound::{bound_by_templates, form_coefs};
use crate::side::CertificateSide;
use fx_cert::{Certificate, Form, NodeLine, Share, Side, error_at, range_at};
use fx_conditions::{Matched, error_judgement, form_at, form_judgement, range_judgement, within};
use fx_expr::Function;
use fx_formulas::{ConditionFault, ConditionKind, Judgement, Part, fault, interval};
use fx_num::Interval;

/// How many inputs a function has.
fn input_count(function: &Function) -> u32
    ensures { result ≡ length function.now.inputs }
{
    function.keeps();
    function.inputs.len() as u32
}

/// How many states a function has.
fn state_count(function: &Function) -> u32
    ensures { result ≡ length function.now.states }
{
    function.keeps();
    function.states.len() as u32
}

/// How many inputs and states a function has.
pub fn variable_count(function: &Function) -> u32
    ensures { result ≡ nodes.variables function.now }
{
    function.keeps();
    input_count(function) + state_count(function)
}

/// The values of a certificate.
fn values_of<'c>(function: &Function, certificate: &'c Certificate) -> CertificateSide<'c>
    requires short { IsShortCertificate (certificate_of certificate.now) }
    ensures { result ≡ values_of function.now (certificate_of certificate.now) }
{
    function.keeps();
    CertificateSide::new(
        Side::Value,
        certificate.lines.as_slice(),
        certificate.templates.as_slice(),
        input_count(function),
        state_count(function),
    )
}

/// The errors of a certificate.
fn errors_of<'c>(function: &Function, certificate: &'c Certificate) -> CertificateSide<'c>
    requires short { IsShortCertificate (certificate_of certificate.now) }
    ensures { result ≡ errors_of function.now (certificate_of certificate.now) }
{
    function.keeps();
    CertificateSide::new(
        Side::Error,
        certificate.lines.as_slice(),
        certificate.error_templates.as_slice(),
        input_count(function),
        state_count(function),
    )
}

/// A form's own rest.
fn own_rest(which: &Side, form: &Form) -> Option<Interval>
    ensures { (l : certificates.NodeLine) →
        FormsSpan result (side_rest which.now (of_line l (Some (form_view form.now)))) }
{
    match which {
        Side::Value => interval(form.rest),
        Side::Error => interval(form.error_rest),
    }
}

/// Where a form's value or error lies by shares of templates.
fn form_bound(side: &CertificateSide<'_>, form: &Form, shares: &[Share]) -> Option<Interval>
    requires form { IsShortForm (form_view form.now) }
    requires shares { AreShortShares (shares_of shares.now) }
    ensures { (l : certificates.NodeLine) →
        FormsSpan result (bound_on side.now (λ j. Num (at zero_dyadic form.now.coefs j))
        (side_rest side.now.which (of_line l (Some (form_view form.now)))) (shares_of shares.now)) }
{
    let mut coefs = form_coefs(side, form);
    bound_by_templates(side, own_rest(side.which(), form), &mut coefs, shares)
}

/// Whether a form's value or error lies in a limit by shares of templates.
fn by_shares(
    side: &CertificateSide<'_>,
    form: &Form,
    shares: &[Share],
    limit: Interval,
) -> Judgement
    requires form { IsShortForm (form_view form.now) }
    requires shares { AreShortShares (shares_of shares.now) }
    ensures { (l : certificates.NodeLine) →
        result ≡ judged (inside
        (bound_on side.now (λ j. Num (at zero_dyadic form.now.coefs j))
        (side_rest side.now.which (of_line l (Some (form_view form.now)))) (shares_of shares.now)) (span limit)) }
{
    let bound = form_bound(side, form, shares);
    within(bound, limit)
}

/// The Range of node `n` with this form, by its shares of templates if it names some.
fn formed_range(
    function: &Function,
    certificate: &Certificate,
    m: &Matched,
    form: &Form,
    n: u32,
) -> Judgement
    requires short { IsShortCertificate (certificate_of certificate.now) }
    requires form { IsShortForm (form_view form.now) }
    ensures { let cert = certificate_of certificate.now in
        result ≡ judged (range_claims function.now cert (at no_line cert.lines n) (node_in m.now)
        (Some (form_view form.now))) }
{
    let range = range_at(certificate.lines.as_slice(), n);
    match &form.range_by {
        Some(shares) => {
            let values = values_of(function, certificate);
            by_shares(&values, form, shares.as_slice(), range)
        }
        None => range_judgement(function, certificate, *m, range),
    }
}

/// The Error of node `n` with this form.
fn formed_error(
    function: &Function,
    certificate: &Certificate,
    m: &Matched,
    form: &Form,
    place: i32,
    n: u32,
) -> Judgement
    requires short { IsShortCertificate (certificate_of certificate.now) }
    requires form { IsShortForm (form_view form.now) }
    requires point { IsPoint place }
    ensures { let cert = certificate_of certificate.now in
        result ≡ judged (error_claims function.now cert (at no_line cert.lines n) (node_in m.now) (code_in m.now) place
        (Some (form_view form.now))) }
{
    let range = range_at(certificate.lines.as_slice(), n);
    let error = error_at(certificate.lines.as_slice(), n);
    match &form.error_by {
        Some(shares) => {
            let errors = errors_of(function, certificate);
            by_shares(&errors, form, shares.as_slice(), error)
        }
        None => error_judgement(function, certificate, *m, place, range, error),
    }
}

/// The Range of node `n`.
pub fn node_range(function: &Function, certificate: &Certificate, m: &Matched, n: u32) -> Judgement
    requires short { IsShortCertificate (certificate_of certificate.now) }
    ensures { let fn = function.now in let cert = certificate_of certificate.now in
        result ≡ judged (range_claims fn cert (at no_line cert.lines n) (node_in m.now)
        (form_of (nodes.variables fn) cert.lines n)) }
{
    let lines = certificate.lines.as_slice();
    match form_at(lines, variable_count(function), n) {
        Some(form) => formed_range(function, certificate, m, form, n),
        None => range_judgement(function, certificate, *m, range_at(lines, n)),
    }
}

/// The Error of node `n`.
pub fn node_error(
    function: &Function,
    certificate: &Certificate,
    m: &Matched,
    place: i32,
    n: u32,
) -> Judgement
    requires short { IsShortCertificate (certificate_of certificate.now) }
    requires point { IsPoint place }
    ensures { let fn = function.now in let cert = certificate_of certificate.now in
        result ≡ judged (error_claims fn cert (at no_line cert.lines n) (node_in m.now) (code_in m.now) place
        (form_of (nodes.variables fn) cert.lines n)) }
{
    let lines = certificate.lines.as_slice();
    match form_at(lines, variable_count(function), n) {
        Some(form) => formed_error(function, certificate, m, form, place, n),
        None => {
            let range = range_at(lines, n);
            let error = error_at(lines, n);
            error_judgement(function, certificate, *m, place, range, error)
        }
    }
}

/// The fault of a form: one that doesn't hold what the operation gives, or that the operation can't have.
fn form_fault(
    lines: &[NodeLine],
    variables: u32,
    m: &Matched,
    form: &Form,
    place: i32,
    n: u32,
) -> Option<ConditionFault>
    requires lines { AreShortLines (lines_view lines.now) }
    requires form { IsShortForm (form_view form.now) }
    requires point { IsPoint place }
    ensures { (l : certificates.NodeLine) → option_map condition_fault_of result ≡ conditions.fault_of (record {
      kind = conditions.Form;
      part = conditions.OfNode;
      index = n;
      test = true;
      claims =
          form_claims variables (lines_view lines.now) l (node_in m.now) (code_in m.now) place
          (Some (form_view form.now));
    }) }
{
    fault(
        ConditionKind::Form,
        Part::Node,
        n,
        form_judgement(lines, variables, m, form, place),
    )
}

/// The Form of node `n`.
pub fn node_form(
    lines: &[NodeLine],
    variables: u32,
    m: &Matched,
    place: i32,
    n: u32,
) -> Option<ConditionFault>
    requires lines { AreShortLines (lines_view lines.now) }
    requires point { IsPoint place }
    ensures { let ls = lines_view lines.now in let form = form_of variables ls n in
        option_map condition_fault_of result ≡ conditions.fault_of (record {
          kind = conditions.Form;
          part = conditions.OfNode;
          index = n;
          test = true;
          claims = form_claims variables ls (at no_line ls n) (node_in m.now) (code_in m.now) place form;
        }) }
{
    match form_at(lines, variables, n) {
        Some(form) => form_fault(lines, variables, m, form, place, n),
        None => None,
    }
}
