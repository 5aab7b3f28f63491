//! The ends of inputs and outputs, once all is said of them.
//!
//! An input has both, an output any of them; and where both are given, the lower one isn't above the upper one.
ghost use Rattle.std.specs.Prelude.{◌≡◌, ◌≤◌, ◌^◌, map, pos, ◌*ℤ◌, option_map};
ghost use Rattle.fx_rational.specs.Rational.{is_at_most};
ghost use Rattle.fx_rational.specs.Decimal.{decimal_value};
ghost use Rattle.fx_lexer.specs.Faults.{GivesParsed};
ghost use Rattle.fx_cursor.specs.Texts.{numeral_decimal};
ghost use Rattle.fx_requirements.specs.Views.{subject_of};
ghost use Rattle.fx_requirements.specs.Flaws.{has, kind_of};
ghost use Rattle.fx_grammar.specs.Steps.{fault};
ghost use Rattle.fx_grammar.specs.Ranges.{is_lacking, is_empty_range, or_zero, all_pass};
ghost use Rattle.fx_grammar.specs.Ensuring.{is_empty_demand};

use crate::subject::Subject;
use fx_cursor::{Numeral, numeral_value};
use fx_fraction::Decimal;
use fx_lexer::{SourceFault, SourceKind};

/// What no subject may have, in the order in which they are looked for.
#[derive(Clone, Copy, Debug, PartialEq, Eq)]
pub enum Flaw {
    /// An input without a lower or an upper end.
    LackingEnd,
    /// An input whose lower end is above its upper one.
    EmptyRange,
    /// An output of which both ends are demanded, and the lower one is above the upper one.
    EmptyDemand,
}

/// What wasn't said is zero.
pub fn or_zero(x: Option<Numeral<'_>>) -> Decimal
    ensures { result ≡ or_zero (option_map numeral_decimal x.entry) }
{
    match x {
        Some(x) => numeral_value(&x),
        None => Decimal { a: 0, b: 0 },
    }
}

#[tactic(auto, using(fx_fraction::proofs::Quanta::ten_small))]
fn power(places: u8) -> u64
    requires { places ≤ 18 }
    ensures value { result ≡ 10 ^ places }
    ensures few { result ≤ 10 ^ 18 }
{
    10u64.pow(u32::from(places))
}

fn product(a: i64, b: u64) -> i128
    requires { b ≤ 10 ^ 18 }
    ensures { result ≡ a *ℤ pos b }
{
    i128::from(a) * i128::from(b)
}

#[tactic(auto, using(crate::proofs::Ends::at_most_is))]
fn is_at_most(x: Decimal, y: Decimal) -> bool
    ensures { result ≡ is_at_most (decimal_value x) (decimal_value y) }
{
    product(x.a, power(y.b)) <= product(y.a, power(x.b))
}

fn is_lacking(subject: &Subject<'_>) -> bool
    ensures { result ≡ is_lacking (subject_of subject.now) }
{
    !(subject.lo.is_some() && subject.hi.is_some())
}

fn is_empty_range(subject: &Subject<'_>) -> bool
    ensures { result ≡ is_empty_range (subject_of subject.now) }
{
    !is_at_most(or_zero(subject.lo), or_zero(subject.hi))
}

fn is_empty_demand(subject: &Subject<'_>) -> bool
    ensures { result ≡ is_empty_demand (subject_of subject.now) }
{
    subject.lo.is_some() && (subject.hi.is_some() && is_empty_range(subject))
}

impl Flaw {
    fn is_in(self, subject: &Subject<'_>) -> bool
        ensures { result ≡ has self (subject_of subject.now) }
    {
        match self {
            Flaw::LackingEnd => is_lacking(subject),
            Flaw::EmptyRange => is_empty_range(subject),
            Flaw::EmptyDemand => is_empty_demand(subject),
        }
    }

    fn kind(self) -> SourceKind
        ensures { result ≡ kind_of self }
    {
        match self {
            Flaw::LackingEnd => SourceKind::NoRange,
            Flaw::EmptyRange | Flaw::EmptyDemand => SourceKind::EmptyRange,
        }
    }
}

/// The first subject that has the flaw gives the fault.
pub fn none_has(flaw: Flaw, subjects: &[Subject<'_>]) -> Result<(), SourceFault>
    ensures { GivesParsed (λ u. tt) result
        (all_pass (has flaw) (λ at. fault at (kind_of flaw)) (map subject_of subjects.now)) }
{
    for subject in subjects {
        if flaw.is_in(subject) {
            return Err(SourceFault::at(subject.at, flaw.kind()));
        }
    }
    Ok(())
}
