//! What stands before a function's body: its name, its parameters, its states and its type.
ghost use Rattle.std.specs.Prelude.{◌≡◌, ◌≤◌, ◌<◌, ◌+◌, ◌++◌, ◌∷◌, length, IfOk, [], Ok, None};
ghost use Rattle.fx_lexer.specs.Faults.{GivesParsed};
ghost use Rattle.fx_lexer.specs.Tokens.{lexeme_of};
ghost use Rattle.fx_cursor.specs.Views.{lexemes};
ghost use Rattle.fx_requirements.specs.Views.{subjects_of, IsNamed};
ghost use Rattle.fx_parser.specs.Views.{declared_of, state_value, with_state};
ghost use Rattle.fx_grammar.specs.Ranges.{new_subject};
ghost use Rattle.fx_grammar.specs.Steps.{name_place, listed};
ghost use Rattle.fx_grammar.specs.Fronts.{param_at, declared_state, states_at, one_real, type_at, more_than};

use fx_cursor::{
    Names, Numeral, Parsed, Rule, behind, free, listed, peek, place_at, real, signed, want,
    with_name,
};
use fx_grammar::Head;
use fx_lexer::{SourceFault, SourceKind, Token};
use fx_num::{INPUT_LIMIT, OUTPUT_LIMIT, STATE_LIMIT};
use fx_requirements::{Named, no_subjects, with_subject};
use std::alloc::Global;

// The limits as lists count, in `usize`.
const INPUTS: usize = INPUT_LIMIT as usize;

const STATES: usize = STATE_LIMIT as usize;

const OUTPUTS: usize = OUTPUT_LIMIT as usize;

/// A state and its start.
#[derive(Clone, Copy, Debug)]
pub struct State<'a> {
    pub name: &'a str,
    pub start: Numeral<'a>,
}

/// The states so far, and the names of inputs and states.
#[derive(Drop)]
pub struct Declared<'a> {
    pub names: Names<'a>,
    pub states: Vec<State<'a>>,
}

/// The name of a parameter behind those that were read, and what stands behind its type.
#[tactic(auto, unfolding(fx_grammar::specs::Fronts::param_at))]
fn param_name<'t, 'a>(
    end: u32,
    named: &Named<'_>,
    tokens: &'t [Token<'a>],
) -> Parsed<'t, 'a, Token<'a>>
    requires few { length named.now.subjects.items ≤ 64 }
    requires same { IsNamed named.now }
    ensures value { GivesParsed (λ x. (subjects_of named.now.subjects ++ new_subject (lexeme_of x.0) ∷ [], lexemes x.1.now))
        result (param_at end (subjects_of named.now.subjects) (lexemes tokens.now)) }
    ensures shorter { IfOk result (λ x. length x.1.now < length tokens.now) }
    ensures few { IfOk result (λ x. length named.now.subjects.items < 64) }
    ensures new { IfOk result (λ x. name_place named.now.names x.0.text.now ≡ None) }
{
    let (token, rest) = want(end, Head::Name, tokens)?;
    free(INPUTS, named.subjects.len(), &named.names, &token)?;
    let (_, rest) = want(end, Head::Colon, rest)?;
    let (_, rest) = real(end, rest)?;
    Ok((token, rest))
}

/// A parameter behind those that were read.
fn param<'t, 'a>(end: u32, named: Named<'a>, tokens: &'t [Token<'a>]) -> Parsed<'t, 'a, Named<'a>>
    requires few { length named.subjects.items ≤ 64 }
    requires same { IsNamed named }
    ensures value { GivesParsed (λ x. (subjects_of x.0.subjects, lexemes x.1.now)) result
        (param_at end (subjects_of named.entry.subjects) (lexemes tokens.now)) }
    ensures shorter { IfOk result (λ x. length x.1.now < length tokens.now) }
    ensures few { IfOk result (λ x. length x.0.subjects.items ≤ 64) }
    ensures same { IfOk result (λ x. IsNamed x.0) }
{
    let (token, rest) = param_name(end, &named, tokens)?;
    let named = with_subject(named, &token)?;
    Ok((named, rest))
}

/// The rule of one parameter.
#[derive(Drop)]
struct ParameterRule {
    end: u32,
}

impl<'a> Rule<'a> for ParameterRule {
    ghost use Rattle.std.specs.Prelude.{◌≤◌, length};
    ghost use Rattle.fx_grammar.specs.Ranges.{Subjects};
    ghost use Rattle.fx_grammar.specs.Fronts.{param_at};
    ghost use Rattle.fx_requirements.specs.Views.{subjects_of, IsNamed};

    type Kept = Named<'a>;

    ghost Value = { Subjects };

    ghost value_of = { λ named. subjects_of named.subjects };

    ghost can_go_on = { λ rule named. (length named.subjects.items ≤ 64) × IsNamed named };

    ghost item_at = { λ rule. param_at rule.end };

    fn item<'t>(&self, named: Named<'a>, tokens: &'t [Token<'a>]) -> Parsed<'t, 'a, Named<'a>> {
        param(self.end, named, tokens)
    }
}

/// All parameters, and the parenthesis that closes them.
pub fn params<'t, 'a>(alloc: Global, end: u32, tokens: &'t [Token<'a>]) -> Parsed<'t, 'a, Named<'a>>
    ensures value { GivesParsed (λ x. (subjects_of x.0.subjects, lexemes x.1.now)) result
        (listed (param_at end) end [] (lexemes tokens.now)) }
    ensures shorter { IfOk result (λ x. length x.1.now < length tokens.now) }
    ensures few { IfOk result (λ x. length x.0.subjects.items ≤ 64) }
    ensures same { IfOk result (λ x. IsNamed x.0) }
{
    listed(&ParameterRule { end }, end, no_subjects(alloc), tokens)
}

/// A state behind those that were read.
#[tactic(auto, unfolding(fx_grammar::specs::Fronts::declared_state))]
fn state_at<'t, 'a>(
    end: u32,
    declared: &Declared<'_>,
    tokens: &'t [Token<'a>],
) -> Parsed<'t, 'a, State<'a>>
    requires { length declared.now.states.items ≤ 32 }
    ensures value { GivesParsed (λ x. (with_state (declared_of declared.now) (state_value x.0), lexemes x.1.now))
        result (declared_state end (declared_of declared.now) (lexemes tokens.now)) }
    ensures shorter { IfOk result (λ x. length x.1.now < length tokens.now) }
    ensures few { IfOk result (λ x. length declared.now.states.items < 32) }
    ensures new { IfOk result (λ x. name_place declared.now.names x.0.name.now ≡ None) }
{
    let (token, rest) = want(end, Head::Name, tokens)?;
    free(STATES, declared.states.len(), &declared.names, &token)?;
    let (_, rest) = want(end, Head::Colon, rest)?;
    let (_, rest) = real(end, rest)?;
    let (_, rest) = want(end, Head::Equals, rest)?;
    let (start, rest) = signed(end, rest)?;
    let state = State {
        name: token.text,
        start,
    };
    Ok((state, rest))
}

/// The states and one more, whose name is new.
fn with_state<'a>(declared: Declared<'a>, state: State<'a>) -> Result<Declared<'a>, SourceFault>
    requires { name_place declared.names state.name.now ≡ None }
    ensures value { GivesParsed declared_of result
        (Ok (with_state (declared_of declared.entry) (state_value state.entry))) }
    ensures count { IfOk result (λ more. (length more.states.items ≡ length declared.entry.states.items + 1) ×
        (length more.names ≡ length declared.entry.names + 1)) }
{
    let Declared { names, mut states } = declared;
    states.push(state)?;
    let names = with_name(names, state.name)?;
    Ok(Declared { names, states })
}

/// One more state, with its name.
fn one_state<'t, 'a>(
    end: u32,
    declared: Declared<'a>,
    tokens: &'t [Token<'a>],
) -> Parsed<'t, 'a, Declared<'a>>
    requires states { length declared.states.items ≤ 32 }
    requires names { length declared.names ≤ 64 + length declared.states.items }
    ensures value { GivesParsed (λ x. (declared_of x.0, lexemes x.1.now)) result
        (declared_state end (declared_of declared.entry) (lexemes tokens.now)) }
    ensures shorter { IfOk result (λ x. length x.1.now < length tokens.now) }
    ensures few { IfOk result (λ x. (length x.0.states.items ≤ 32) ×
        (length x.0.names ≤ 64 + length x.0.states.items)) }
{
    let (state, rest) = state_at(end, &declared, tokens)?;
    let declared = with_state(declared, state)?;
    Ok((declared, rest))
}

/// One more `Real` of a type that begins at `first`.
#[tactic(auto, unfolding(fx_grammar::specs::Fronts::one_real))]
fn one_real<'t, 'a>(
    end: u32,
    first: u32,
    states: usize,
    reals: usize,
    tokens: &'t [Token<'a>],
) -> Parsed<'t, 'a, usize>
    requires states { states ≤ 32 }
    requires reals { reals ≤ 96 }
    ensures value { GivesParsed (λ x. (x.0, lexemes x.1.now)) result
        (one_real end first states reals (lexemes tokens.now)) }
    ensures shorter { IfOk result (λ x. (length x.1.now < length tokens.now) × (x.0 ≤ 96)) }
{
    let (_, rest) = real(end, tokens)?;
    if reals + 1 > states + OUTPUTS {
        return Err(SourceFault::at(first, SourceKind::TooMany));
    }
    Ok((reals + 1, rest))
}

/// The rule of one `Real` of a type that begins at `first`.
#[derive(Drop)]
struct RealRule {
    end: u32,
    first: u32,
    states: usize,
}

impl<'a> Rule<'a> for RealRule {
    ghost use Rattle.std.specs.Prelude.{ℕ, ◌≤◌};
    ghost use Rattle.fx_grammar.specs.Fronts.{one_real};

    type Kept = usize;

    ghost Value = { ℕ };

    ghost value_of = { λ reals. reals };

    ghost can_go_on = { λ rule reals. (rule.states ≤ 32) × (reals ≤ 96) };

    ghost item_at = { λ rule. one_real rule.end rule.first rule.states };

    fn item<'t>(&self, reals: usize, tokens: &'t [Token<'a>]) -> Parsed<'t, 'a, usize> {
        one_real(self.end, self.first, self.states, reals, tokens)
    }
}

/// The type: how many `Real` it has.
#[tactic(auto, unfolding(fx_grammar::specs::Fronts::type_at))]
pub fn type_at<'t, 'a>(end: u32, states: usize, tokens: &'t [Token<'a>]) -> Parsed<'t, 'a, usize>
    requires states { states ≤ 32 }
    ensures value { GivesParsed (λ x. (x.0, lexemes x.1.now)) result (type_at end states (lexemes tokens.now)) }
    ensures shorter { IfOk result (λ x. length x.1.now < length tokens.now) }
    ensures more { IfOk result (λ x. states < x.0) }
{
    let first = place_at(end, tokens);
    if peek(tokens) == Head::Open {
        let rule = RealRule { end, first, states };
        let (count, rest) = listed(&rule, end, 0, behind(tokens))?;
        return more_than(first, states, count, rest);
    }
    let (count, rest) = one_real(end, first, states, 0, tokens)?;
    more_than(first, states, count, rest)
}

fn more_than<'t, 'a>(
    first: u32,
    states: usize,
    count: usize,
    rest: &'t [Token<'a>],
) -> Parsed<'t, 'a, usize>
    ensures value { GivesParsed (λ x. (x.0, lexemes x.1.now)) result
        (more_than first states (count, lexemes rest.now)) }
    ensures shorter { IfOk result (λ x. length x.1.now ≤ length rest.now) }
    ensures more { IfOk result (λ x. states < x.0) }
{
    if count <= states {
        return Err(SourceFault::at(first, SourceKind::WrongArity));
    }
    Ok((count, rest))
}

/// The rule of one state.
#[derive(Drop)]
struct StateRule {
    end: u32,
}

impl<'a> Rule<'a> for StateRule {
    ghost use Rattle.std.specs.Prelude.{◌≤◌, ◌+◌, length};
    ghost use Rattle.fx_grammar.specs.Fronts as fronts;
    ghost use Rattle.fx_grammar.specs.Fronts.{declared_state};
    ghost use Rattle.fx_parser.specs.Views.{declared_of};

    type Kept = Declared<'a>;

    ghost Value = { fronts.Declared };

    ghost value_of = { λ declared. declared_of declared };

    ghost can_go_on = { λ rule declared. (length declared.states.items ≤ 32) ×
        (length declared.names ≤ 64 + length declared.states.items) };

    ghost item_at = { λ rule. declared_state rule.end };

    fn item<'t>(
        &self,
        declared: Declared<'a>,
        tokens: &'t [Token<'a>],
    ) -> Parsed<'t, 'a, Declared<'a>> {
        one_state(self.end, declared, tokens)
    }
}

/// The states that there may be, behind the names of the inputs.
#[tactic(auto, unfolding(fx_grammar::specs::Fronts::states_at))]
pub fn states<'t, 'a>(
    alloc: Global,
    end: u32,
    names: Names<'a>,
    tokens: &'t [Token<'a>],
) -> Parsed<'t, 'a, Declared<'a>>
    requires { length names ≤ 64 }
    ensures value { GivesParsed (λ x. (declared_of x.0, lexemes x.1.now)) result
        (states_at end names.entry (lexemes tokens.now)) }
    ensures shorter { IfOk result (λ x. length x.1.now ≤ length tokens.now) }
    ensures few { IfOk result (λ x. (length x.0.states.items ≤ 32) ×
        (length x.0.names ≤ 64 + length x.0.states.items)) }
{
    let declared = Declared {
        names,
        states: Vec::new(alloc),
    };
    if peek(tokens) != Head::Open {
        return Ok((declared, tokens));
    }
    listed(&StateRule { end }, end, declared, behind(tokens))
}
