//! One function, from its name to the brace that closes it and its demands.
ghost use Rattle.std.specs.Prelude.{◌≡◌, ◌≤◌, ◌<◌, ◌+◌, ◌-◌, ◌^◌, length, map, IfOk, Ok, None, []};
ghost use Rattle.fx_lexer.specs.Faults.{GivesParsed};
ghost use Rattle.fx_cursor.specs.Views.{lexemes};
ghost use Rattle.fx_requirements.specs.Views.{demand_value, subject_of};
ghost use Rattle.fx_parser.specs.Behind.{GoesOn, front_behind, with_reals};
ghost use Rattle.fx_parser.specs.Views.{source_function_of, front_value, body_value, HasBodyRoom};
ghost use Rattle.fx_grammar.specs.Steps.{name_place};
ghost use Rattle.fx_grammar.specs.Functions.{front_at, require_word_at, within_nodes, ending_at, body_at};

use crate::body::{Body, Results, Temp, outcome, vals};
use crate::front::{Declared, State, params, states, type_at};
use fx_cursor::{Names, Parsed, behind, past_semicolon, peek, place, want, wrong};
use fx_expr::Expr;
use fx_grammar::Head;
use fx_lexer::{SourceFault, SourceKind, Token};
use fx_num::NODE_LIMIT;
use fx_requirements::{Demanded, Named, Subject, demands_at, first_place, maybe_ensuring, require};
use std::alloc::Global;

/// A function of the source.
#[derive(Drop)]
pub struct SourceFunction<'a> {
    pub name: &'a str,
    pub inputs: Vec<Subject<'a>>,
    pub states: Vec<State<'a>>,
    pub temps: Vec<Temp<'a>>,
    pub results: Vec<Expr>,
    pub demands: Vec<Demanded<'a>>,
}

/// A function up to its brace.
#[derive(Drop)]
pub struct Front<'a> {
    pub name: &'a str,
    pub subjects: Vec<Subject<'a>>,
    pub declared: Declared<'a>,
    pub reals: usize,
}

/// A function up to the colon before its type, behind its word. It has no `Real` yet.
#[tactic(auto, unfolding(fx_grammar::specs::Functions::front_at))]
fn declared_at<'t, 'a>(
    alloc: Global,
    end: u32,
    functions: &Names<'_>,
    tokens: &'t [Token<'a>],
) -> Parsed<'t, 'a, Front<'a>>
    ensures value { GoesOn (λ x. front_behind end (front_value x.0) (lexemes x.1.now)) result
        (front_at end functions.now (lexemes tokens.now)) }
    ensures shorter { IfOk result (λ x. length x.1.now < length tokens.now) }
    ensures few { IfOk result (λ x. (length x.0.subjects.items ≤ 64) × (length x.0.declared.states.items ≤ 32) ×
        (length x.0.declared.names ≤ 96)) }
    ensures fresh { IfOk result (λ x. name_place functions.now x.0.name.now ≡ None) }
{
    let (token, rest) = want(end, Head::Name, tokens)?;
    if place(functions, token.text).is_some() {
        return Err(SourceFault::at(token.at, SourceKind::NamedTwice));
    }
    let (_, rest) = want(end, Head::Open, rest)?;
    let (named, rest) = params(alloc, end, rest)?;
    let Named { names, subjects } = named;
    let (declared, rest) = states(alloc, end, names, rest)?;
    let front = Front {
        name: token.text,
        subjects,
        declared,
        reals: 0,
    };
    Ok((front, rest))
}

/// How many `Real` the type of what is declared has, up to the brace.
fn reals_at<'t, 'a>(end: u32, front: &Front<'_>, tokens: &'t [Token<'a>]) -> Parsed<'t, 'a, usize>
    requires { length front.now.declared.states.items ≤ 32 }
    ensures value { GivesParsed (λ x. (with_reals (front_value front.now) x.0, lexemes x.1.now)) result
        (front_behind end (front_value front.now) (lexemes tokens.now)) }
    ensures shorter { IfOk result (λ x. length x.1.now < length tokens.now) }
    ensures more { IfOk result (λ x. length front.now.declared.states.items < x.0) }
{
    let (_, rest) = want(end, Head::Colon, tokens)?;
    let (reals, rest) = type_at(end, front.declared.states.len(), rest)?;
    let (_, rest) = want(end, Head::Equals, rest)?;
    let (_, rest) = want(end, Head::OpenBrace, rest)?;
    Ok((reals, rest))
}

/// A function up to its brace, behind its word.
pub fn read_front<'t, 'a>(
    alloc: Global,
    end: u32,
    functions: &Names<'_>,
    tokens: &'t [Token<'a>],
) -> Parsed<'t, 'a, Front<'a>>
    ensures value { GivesParsed (λ x. (front_value x.0, lexemes x.1.now)) result
        (front_at end functions.now (lexemes tokens.now)) }
    ensures shorter { IfOk result (λ x. length x.1.now < length tokens.now) }
    ensures few { IfOk result (λ x. (length x.0.subjects.items ≤ 64) × (length x.0.declared.states.items ≤ 32) ×
        (length x.0.declared.names ≤ 96) × (length x.0.declared.states.items < x.0.reals)) }
    ensures fresh { IfOk result (λ x. name_place functions.now x.0.name.now ≡ None) }
{
    let (mut front, rest) = declared_at(alloc, end, functions, tokens)?;
    let (reals, rest) = reals_at(end, &front, rest)?;
    front.reals = reals;
    Ok((front, rest))
}

/// Behind the word `require`.
#[tactic(auto, unfolding(fx_grammar::specs::Functions::require_word_at))]
fn require_word<'t, 'a>(
    end: u32,
    subjects: &[Subject<'_>],
    tokens: &'t [Token<'a>],
) -> Result<&'t [Token<'a>], SourceFault>
    ensures value { GivesParsed (λ r. lexemes r.now) result
        (require_word_at end (map subject_of subjects.now) (lexemes tokens.now)) }
    ensures shorter { IfOk result (λ r. length r.now ≤ length tokens.now) }
{
    let head = peek(tokens);
    if head == Head::Require {
        return Ok(behind(tokens));
    }
    if head == Head::Unsupported {
        return Err(wrong(end, tokens));
    }
    Err(SourceFault::at(first_place(subjects), SourceKind::NoRange))
}

/// What is known behind the `require`, before any `val`.
fn first_body<'a>(alloc: Global, names: Names<'a>, inputs: usize, states: usize) -> Body<'a>
    requires { (inputs ≤ 64) × (states ≤ 32) × (length names ≤ 96) }
    ensures value { body_value result ≡ record {
      names = names.entry;
      inputs = inputs;
      states = states;
      temps = [];
      nodes = 0;
    } }
    ensures room { HasBodyRoom result }
    ensures few { (result.inputs ≡ inputs) × (result.states ≡ states) }
{
    Body {
        names,
        inputs: inputs as u32,
        states: states as u32,
        temps: Vec::new(alloc),
        nodes: 0,
    }
}

/// Whether a function has no more than 4,000 nodes.
fn within_nodes(word: u32, nodes: usize) -> Result<(), SourceFault>
    ensures { GivesParsed (λ u. tt) result (within_nodes word nodes) }
{
    if nodes > NODE_LIMIT as usize {
        return Err(SourceFault::at(word, SourceKind::TooMany));
    }
    Ok(())
}

// The brace that closes a body, and the demands behind it, where the function has so many nodes and outputs.
#[tactic(auto, unfolding(fx_grammar::specs::Functions::ending_at))]
fn ending<'t, 'a>(
    alloc: Global,
    end: u32,
    word: u32,
    nodes: usize,
    outputs: usize,
    tokens: &'t [Token<'a>],
) -> Parsed<'t, 'a, Vec<Demanded<'a>>>
    ensures value { GivesParsed (λ x. (map demand_value x.0.items, lexemes x.1.now)) result
        (ending_at end word nodes outputs (lexemes tokens.now)) }
    ensures shorter { IfOk result (λ x. length x.1.now ≤ length tokens.now) }
{
    let (_, rest) = want(end, Head::CloseBrace, past_semicolon(tokens))?;
    let (subjects, rest) = maybe_ensuring(alloc, end, outputs, rest)?;
    within_nodes(word, nodes)?;
    Ok((demands_at(alloc, &subjects)?, rest))
}

/// From the `require` on.
#[tactic(auto, unfolding(fx_grammar::specs::Functions::body_at))]
pub fn read_body<'t, 'a>(
    alloc: Global,
    end: u32,
    word: u32,
    front: Front<'a>,
    tokens: &'t [Token<'a>],
) -> Parsed<'t, 'a, SourceFunction<'a>>
    requires tokens { length tokens.now < 2 ^ 32 }
    requires few { (length front.subjects.items ≤ 64) × (length front.declared.states.items ≤ 32) ×
        (length front.declared.names ≤ 96) × (length front.declared.states.items < front.reals) }
    ensures value { GivesParsed (λ x. (source_function_of x.0, lexemes x.1.now)) result
        (body_at end word (front_value front.entry) (lexemes tokens.now)) }
    ensures shorter { IfOk result (λ x. length x.1.now ≤ length tokens.now) }
    ensures name { IfOk result (λ x. x.0.name.now ≡ front.entry.name.now) }
{
    let Front {
        name,
        subjects,
        declared,
        reals,
    } = front;
    let Declared { names, states } = declared;
    let rest = require_word(end, &subjects, tokens)?;
    let count = subjects.len();
    let (inputs, rest) = require(end, subjects, rest)?;
    let kept = states.len();
    let start = first_body(alloc, names, count, kept);
    let (known, rest) = vals(alloc, end, start, rest)?;
    let (results, rest) = outcome(alloc, end, word, reals, &known, rest)?;
    let total = count + kept + results.trees.len() + results.nodes as usize;
    let (demands, rest) = ending(alloc, end, word, total, reals - kept, rest)?;
    let Results { trees, .. } = results;
    let Body { temps, .. } = known;
    let source_function = SourceFunction {
        name,
        inputs,
        states,
        temps,
        results: trees,
        demands,
    };
    Ok((source_function, rest))
}
