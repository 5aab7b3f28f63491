//! `ensuring`: the names of the outputs in order, and what is demanded of them.
//!
//! A demand is read as a condition of `require` is, over the names of the outputs.
ghost use Rattle.std.specs.Prelude.{◌≡◌, ◌≤◌, ◌<◌, length, map, replicate, IfOk, Ok};
ghost use Rattle.fx_lexer.specs.Faults.{GivesParsed};
ghost use Rattle.fx_cursor.specs.Views.{lexemes};
ghost use Rattle.fx_requirements.specs.Views.{subject_of, subjects_of, demand_value, IsNamed};
ghost use Rattle.fx_grammar.specs.Ensuring.{output_at, first_place, of_arity, outputs_at, declared_demand, demands_at, unsaid, ensuring_at, maybe_ensuring_at};

use crate::condition::condition_at;
use crate::range::{Flaw, none_has};
use crate::subject::{Named, Subject, no_subjects, with_subject};
use fx_cursor::{Numeral, Parsed, Rule, behind, listed, peek, place, separated, want};
use fx_grammar::Head;
use fx_lexer::{SourceFault, SourceKind, Token};
use std::alloc::Global;

/// What is demanded of an output, as it stands in the text.
#[derive(Clone, Copy, Debug)]
pub struct Demanded<'a> {
    /// By how much it may be wrong.
    pub err: Option<Numeral<'a>>,
    /// Its lower end.
    pub lo: Option<Numeral<'a>>,
    /// Its upper end.
    pub hi: Option<Numeral<'a>>,
}

/// An output's name behind those that were read.
#[tactic(auto, unfolding(fx_grammar::specs::Ensuring::output_at))]
fn output<'t, 'a>(end: u32, named: Named<'a>, tokens: &'t [Token<'a>]) -> Parsed<'t, 'a, Named<'a>>
    requires { IsNamed named }
    ensures value { GivesParsed (λ x. (subjects_of x.0.subjects, lexemes x.1.now)) result
        (output_at end (subjects_of named.entry.subjects) (lexemes tokens.now)) }
    ensures shorter { IfOk result (λ x. length x.1.now < length tokens.now) }
    ensures same { IfOk result (λ x. IsNamed x.0) }
{
    let (token, rest) = want(end, Head::Name, tokens)?;
    if place(&named.names, token.text).is_some() {
        return Err(SourceFault::at(token.at, SourceKind::NamedTwice));
    }
    let named = with_subject(named, &token)?;
    Ok((named, rest))
}

/// The rule of one output's name.
#[derive(Drop)]
struct OutputRule {
    end: u32,
}

impl<'a> Rule<'a> for OutputRule {
    ghost use Rattle.fx_grammar.specs.Ranges.{Subjects};
    ghost use Rattle.fx_grammar.specs.Ensuring.{output_at};
    ghost use Rattle.fx_requirements.specs.Views.{subjects_of, IsNamed};

    type Kept = Named<'a>;

    ghost Value = { Subjects };

    ghost value_of = { λ named. subjects_of named.subjects };

    ghost can_go_on = { λ rule named. IsNamed named };

    ghost item_at = { λ rule. output_at rule.end };

    fn item<'t>(&self, named: Named<'a>, tokens: &'t [Token<'a>]) -> Parsed<'t, 'a, Named<'a>> {
        output(self.end, named, tokens)
    }
}

/// Where the name of the first one stands.
pub fn first_place(subjects: &[Subject<'_>]) -> u32
    ensures { result ≡ first_place (map subject_of subjects.now) }
{
    match subjects.first() {
        Some(subject) => subject.at,
        None => 0,
    }
}

/// The outputs, of which there have to be so many.
fn counted<'t, 'a>(
    outputs: usize,
    named: Named<'a>,
    rest: &'t [Token<'a>],
) -> Parsed<'t, 'a, Vec<Subject<'a>>>
    ensures value { GivesParsed (λ x. (subjects_of x.0, lexemes x.1.now)) result
        (of_arity outputs (subjects_of named.entry.subjects, lexemes rest.now)) }
    ensures shorter { IfOk result (λ x. length x.1.now ≤ length rest.now) }
{
    let Named { subjects, .. } = named;
    if subjects.len() != outputs {
        return Err(SourceFault::at(first_place(&subjects), SourceKind::WrongArity));
    }
    Ok((subjects, rest))
}

/// The names of the outputs.
#[tactic(auto, unfolding(fx_grammar::specs::Ensuring::outputs_at))]
fn outputs_at<'t, 'a>(
    alloc: Global,
    end: u32,
    outputs: usize,
    tokens: &'t [Token<'a>],
) -> Parsed<'t, 'a, Vec<Subject<'a>>>
    ensures value { GivesParsed (λ x. (subjects_of x.0, lexemes x.1.now)) result
        (outputs_at end outputs (lexemes tokens.now)) }
    ensures shorter { IfOk result (λ x. length x.1.now < length tokens.now) }
{
    if peek(tokens) == Head::Open {
        let rule = OutputRule { end };
        let (named, rest) = listed(&rule, end, no_subjects(alloc), behind(tokens))?;
        return counted(outputs, named, rest);
    }
    let (named, rest) = output(end, no_subjects(alloc), tokens)?;
    counted(outputs, named, rest)
}

/// The rule of one demand.
#[derive(Drop)]
struct DemandRule {
    end: u32,
}

impl<'a> Rule<'a> for DemandRule {
    ghost use Rattle.fx_grammar.specs.Ranges.{Subjects, condition_at};
    ghost use Rattle.fx_requirements.specs.Views.{subjects_of};

    type Kept = Vec<Subject<'a>>;

    ghost Value = { Subjects };

    ghost value_of = { λ subjects. subjects_of subjects };

    ghost can_go_on = { λ rule subjects. Unit {0} };

    ghost item_at = { λ rule. condition_at rule.end };

    fn item<'t>(
        &self,
        subjects: Vec<Subject<'a>>,
        tokens: &'t [Token<'a>],
    ) -> Parsed<'t, 'a, Vec<Subject<'a>>> {
        condition_at(self.end, subjects, tokens)
    }
}

// What was said of an output.
fn demand_of<'a>(subject: &Subject<'a>) -> Demanded<'a>
    ensures { demand_value result ≡ declared_demand (subject_of subject.now) }
{
    Demanded {
        err: subject.err,
        lo: subject.lo,
        hi: subject.hi,
    }
}

fn all_demanded<'a>(
    alloc: Global,
    subjects: &[Subject<'a>],
) -> Result<Vec<Demanded<'a>>, SourceFault>
    ensures { GivesParsed (λ v. map demand_value v.items) result
        (Ok (map declared_demand (map subject_of subjects.now))) }
{
    let mut demands = Vec::new(alloc);
    for subject in subjects {
        demands.push(demand_of(subject))?;
    }
    Ok(demands)
}

/// The demands, if no two ends are in the wrong order.
#[tactic(auto, unfolding(fx_grammar::specs::Ensuring::demands_at))]
pub fn demands_at<'a>(
    alloc: Global,
    subjects: &[Subject<'a>],
) -> Result<Vec<Demanded<'a>>, SourceFault>
    ensures { GivesParsed (λ v. map demand_value v.items) result (demands_at (map subject_of subjects.now)) }
{
    none_has(Flaw::EmptyDemand, subjects)?;
    all_demanded(alloc, subjects)
}

// An output of which nothing is said.
fn unsaid<'a>() -> Subject<'a>
    ensures { subject_of result ≡ unsaid }
{
    Subject {
        name: "",
        at: 0,
        lo: None,
        hi: None,
        err: None,
    }
}

fn all_unsaid<'a>(alloc: Global, outputs: usize) -> Result<Vec<Subject<'a>>, SourceFault>
    ensures { GivesParsed (λ v. subjects_of v) result (Ok (replicate outputs unsaid)) }
{
    let mut subjects = Vec::new(alloc);
    for _ in 0..outputs {
        subjects.push(unsaid())?;
    }
    Ok(subjects)
}

/// What is said of the outputs, behind the word.
#[tactic(auto, unfolding(fx_grammar::specs::Ensuring::ensuring_at))]
fn ensuring_at<'t, 'a>(
    alloc: Global,
    end: u32,
    outputs: usize,
    tokens: &'t [Token<'a>],
) -> Parsed<'t, 'a, Vec<Subject<'a>>>
    ensures value { GivesParsed (λ x. (subjects_of x.0, lexemes x.1.now)) result
        (ensuring_at end outputs (lexemes tokens.now)) }
    ensures shorter { IfOk result (λ x. length x.1.now < length tokens.now) }
{
    let (_, rest) = want(end, Head::Open, tokens)?;
    let (names, rest) = outputs_at(alloc, end, outputs, rest)?;
    let (_, rest) = want(end, Head::Arrow, rest)?;
    let (subjects, rest) = separated(&DemandRule { end }, Head::And, names, rest)?;
    let (_, rest) = want(end, Head::Close, rest)?;
    Ok((subjects, rest))
}

/// What may be said of the outputs. Whether it can be demanded is for `demands_at` to tell, behind the count of nodes.
#[tactic(auto, unfolding(fx_grammar::specs::Ensuring::maybe_ensuring_at))]
pub fn maybe_ensuring<'t, 'a>(
    alloc: Global,
    end: u32,
    outputs: usize,
    tokens: &'t [Token<'a>],
) -> Parsed<'t, 'a, Vec<Subject<'a>>>
    ensures value { GivesParsed (λ x. (subjects_of x.0, lexemes x.1.now)) result
        (maybe_ensuring_at end outputs (lexemes tokens.now)) }
    ensures shorter { IfOk result (λ x. length x.1.now ≤ length tokens.now) }
{
    if peek(tokens) == Head::Ensuring {
        return ensuring_at(alloc, end, outputs, behind(tokens));
    }
    Ok((all_unsaid(alloc, outputs)?, tokens))
}
