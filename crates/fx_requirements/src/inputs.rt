//! `require`, and the ranges of the inputs that it gives.
//!
//! Only where each input has both ends are they compared, as the table of faults says.
ghost use Rattle.std.specs.Prelude.{◌<◌, ◌^◌, length, IfOk};
ghost use Rattle.fx_lexer.specs.Faults.{GivesParsed};
ghost use Rattle.fx_cursor.specs.Views.{lexemes};
ghost use Rattle.fx_requirements.specs.Views.{subjects_of, inputs_value};
ghost use Rattle.fx_grammar.specs.Ranges.{inputs_at, require_at};

use crate::condition::{Conditions, all_conditions};
use crate::range::{Flaw, none_has};
use crate::subject::Subject;
use fx_cursor::{Parsed, want};
use fx_grammar::Head;
use fx_lexer::{SourceFault, Token};

/// The subjects, each with both ends in order.
#[tactic(auto, unfolding(fx_grammar::specs::Ranges::inputs_at))]
fn ranged<'a>(subjects: Vec<Subject<'a>>) -> Result<Vec<Subject<'a>>, SourceFault>
    ensures { GivesParsed inputs_value result (inputs_at (subjects_of subjects.entry)) }
{
    none_has(Flaw::LackingEnd, &subjects)?;
    none_has(Flaw::EmptyRange, &subjects)?;
    Ok(subjects)
}

/// The conditions, and the inputs with what they say.
#[tactic(auto, unfolding(fx_grammar::specs::Ranges::require_at))]
pub fn require<'t, 'a>(
    end: u32,
    subjects: Vec<Subject<'a>>,
    tokens: &'t [Token<'a>],
) -> Parsed<'t, 'a, Vec<Subject<'a>>>
    requires { length tokens.now < 2 ^ 32 }
    ensures value { GivesParsed (λ x. (inputs_value x.0, lexemes x.1.now)) result
        (require_at end (subjects_of subjects.entry) (lexemes tokens.now)) }
    ensures shorter { IfOk result (λ x. length x.1.now < length tokens.now) }
{
    let (_, rest) = want(end, Head::Open, tokens)?;
    let conditions = Conditions {
        depth: 1,
        wants: true,
        subjects,
    };
    let (conditions, rest) = all_conditions(end, conditions, rest)?;
    let Conditions { subjects, .. } = conditions;
    let inputs = ranged(subjects)?;
    Ok((inputs, rest))
}
