//! The first fault of a node's conditions.

ghost use Rattle.std.specs.Prelude.{◌≡◌, ℤ, pos, List};
ghost use Rattle.std.specs.Option.{option_map};
ghost use Rattle.fx_model.specs.Tree.{at};
ghost use Rattle.fx_model.specs.LawfulProgram.{IsPoint};
ghost use Rattle.fx_inequalities.specs.Affine.{error_at, range_at};
ghost use Rattle.fx_inequalities.specs.Condition as conditions;
ghost use Rattle.fx_inequalities.specs.Condition.{first_fault_of, first_some};
ghost use Rattle.fx_inequalities.specs.NodeConditions.{node_conditions, word_claims};
ghost use Rattle.fx_formulas.specs.Judging.{judged};
ghost use Rattle.fx_formulas.specs.FaultView.{condition_fault_of};
ghost use Rattle.fx_word.specs.Words.{IsWidth};
ghost use Rattle.fx_cert.specs.CertificateView.{certificate_of, lines_view};
ghost use Rattle.fx_conditions.specs.MatchView.{code_in, node_in};
ghost use Rattle.fx_conditions.specs.Limits.{IsShortCertificate};

use crate::share::{node_error, node_form, node_range, variable_count};
use fx_cert::{Certificate, NodeLine, error_at, range_at};
use fx_conditions::{Matched, divisor_judgement, word_judgement};
use fx_expr::Function;
use fx_formulas::{ConditionFault, ConditionKind, Judgement, Part, fault};

/// The earlier fault.
pub fn first(a: Option<ConditionFault>, b: Option<ConditionFault>) -> Option<ConditionFault>
    ensures { option_map condition_fault_of result
        ≡ first_some (option_map condition_fault_of a) (option_map condition_fault_of b) }
{
    match a {
        Some(fault) => Some(fault),
        None => b,
    }
}

/// Range and error of node `n` together lie between the least and the greatest word.
fn node_word(lines: &[NodeLine], width: u32, place: i32, n: u32) -> Judgement
    requires width { IsWidth width }
    requires point { IsPoint place }
    ensures { result ≡ judged
        (word_claims width place (range_at (lines_view lines.now) n) (error_at (lines_view lines.now) n)) }
{
    word_judgement(width, place, range_at(lines, n), error_at(lines, n))
}

/// The first condition of node `n` and its code that fails or doesn't fit, if one does.
pub fn node_fault(
    function: &Function,
    width: u32,
    certificate: &Certificate,
    m: &Matched,
    place: i32,
    n: u32,
) -> Option<ConditionFault>
    requires width { IsWidth width }
    requires point { IsPoint place }
    requires short { IsShortCertificate (certificate_of certificate.now) }
    ensures { (ps : List ℤ) → at (pos 0) ps n ≡ place →
        option_map condition_fault_of result
        ≡ first_fault_of (node_conditions function.now width ps (certificate_of certificate.now) n (node_in m.now)
        (code_in m.now)) }
{
    let lines = certificate.lines.as_slice();
    let form = node_form(lines, variable_count(function), m, place, n);
    let divisor = fault(
        ConditionKind::Divisor,
        Part::Node,
        n,
        divisor_judgement(certificate, *m),
    );
    let range = fault(
        ConditionKind::Range,
        Part::Node,
        n,
        node_range(function, certificate, m, n),
    );
    let error = fault(
        ConditionKind::Error,
        Part::Node,
        n,
        node_error(function, certificate, m, place, n),
    );
    let word = fault(
        ConditionKind::WordTooSmall,
        Part::Node,
        n,
        node_word(lines, width, place, n),
    );
    first(form, first(divisor, first(range, first(error, word))))
}
