//! A source: imports, an object, functions.
ghost use Rattle.std.specs.Prelude.{◌≡◌, ◌≤◌, ◌<◌, ◌^◌, ◌∷◌, ◌++◌, length, drop, IfOk, IsOk, Ok, None, []};
ghost use Rattle.fx_lexer.specs.Faults.{GivesParsed};
ghost use Rattle.fx_cursor.specs.Views.{lexemes};
ghost use Rattle.fx_parser.specs.Views.{source_function_of, source_functions_of, AreNamed};
ghost use Rattle.fx_grammar.specs.Steps.{name_place, next_place};
ghost use Rattle.fx_grammar.specs.Functions.{def_at};
ghost use Rattle.fx_grammar.specs.Sources.{dot_at, import_at, imports_at, one_def, defs_at, ended, object_at, source_of};

use crate::function::{SourceFunction, read_body, read_front};
use fx_cursor::{
    Names, Parsed, Rule, behind, next_is, no_names, peek, place_at, repeated, separated, want,
    with_name, wrong,
};
use fx_grammar::Head;
use fx_lexer::{SourceFault, Token};
use std::alloc::Global;

type Rest<'t, 'a> = Result<&'t [Token<'a>], SourceFault>;

/// One name of an import.
#[tactic(auto, unfolding(fx_grammar::specs::Sources::dot_at))]
fn dot<'t, 'a>(end: u32, tokens: &'t [Token<'a>]) -> Parsed<'t, 'a, ()>
    ensures value { GivesParsed (λ x. (tt, lexemes x.1.now)) result (dot_at end tt (lexemes tokens.now)) }
    ensures shorter { IfOk result (λ x. length x.1.now < length tokens.now) }
{
    let (_, rest) = want(end, Head::Name, tokens)?;
    Ok(((), rest))
}

/// The rule of one name of an import.
#[derive(Drop)]
struct DotRule {
    end: u32,
}

impl<'a> Rule<'a> for DotRule {
    ghost use Rattle.fx_grammar.specs.Sources.{dot_at};

    type Kept = ();

    ghost Value = { Unit {0} };

    ghost value_of = { λ none. tt };

    ghost can_go_on = { λ rule none. Unit {0} };

    ghost item_at = { λ rule. dot_at rule.end };

    fn item<'t>(&self, _none: (), tokens: &'t [Token<'a>]) -> Parsed<'t, 'a, ()> {
        dot(self.end, tokens)
    }
}

/// One import, behind its word.
#[tactic(auto, unfolding(fx_grammar::specs::Sources::import_at))]
fn import<'t, 'a>(end: u32, tokens: &'t [Token<'a>]) -> Parsed<'t, 'a, ()>
    ensures value { GivesParsed (λ x. (tt, lexemes x.1.now)) result (import_at end tt (lexemes tokens.now)) }
    ensures shorter { IfOk result (λ x. length x.1.now < length tokens.now) }
{
    separated(&DotRule { end }, Head::Dot, (), tokens)
}

/// The rule of one import.
#[derive(Drop)]
struct ImportRule {
    end: u32,
}

impl<'a> Rule<'a> for ImportRule {
    ghost use Rattle.fx_grammar.specs.Sources.{import_at};

    type Kept = ();

    ghost Value = { Unit {0} };

    ghost value_of = { λ none. tt };

    ghost can_go_on = { λ rule none. Unit {0} };

    ghost item_at = { λ rule. import_at rule.end };

    fn item<'t>(&self, _none: (), tokens: &'t [Token<'a>]) -> Parsed<'t, 'a, ()> {
        import(self.end, tokens)
    }
}

/// All imports.
#[tactic(auto, unfolding(fx_grammar::specs::Sources::imports_at))]
fn imports<'t, 'a>(end: u32, tokens: &'t [Token<'a>]) -> Rest<'t, 'a>
    ensures value { GivesParsed (λ r. (tt, lexemes r.now)) result (imports_at end (lexemes tokens.now)) }
    ensures shorter { IfOk result (λ r. length r.now ≤ length tokens.now) }
{
    let (_, rest) = repeated(&ImportRule { end }, Head::Import, (), tokens)?;
    Ok(rest)
}

/// The functions so far, and the set of their names.
#[derive(Drop)]
pub struct SourceFunctions<'a> {
    pub names: Names<'a>,
    pub list: Vec<SourceFunction<'a>>,
}

/// A function of none of these names, from its word on.
#[tactic(auto, unfolding(fx_grammar::specs::Functions::def_at))]
fn function_at<'t, 'a>(
    alloc: Global,
    end: u32,
    names: &Names<'_>,
    tokens: &'t [Token<'a>],
) -> Parsed<'t, 'a, SourceFunction<'a>>
    requires { length tokens.now < 2 ^ 32 }
    ensures value { GivesParsed (λ x. (source_function_of x.0, lexemes x.1.now)) result
        (def_at end (next_place end (lexemes tokens.now)) names.now (drop 1 (lexemes tokens.now))) }
    ensures shorter { IfOk result (λ x. length x.1.now < length tokens.now) }
    ensures fresh { IfOk result (λ x. name_place names.now x.0.name.now ≡ None) }
{
    let word = place_at(end, tokens);
    let (front, rest) = read_front(alloc, end, names, behind(tokens))?;
    read_body(alloc, end, word, front, rest)
}

/// The functions with one more, of a name that none of them has.
fn with_function<'a>(
    source_functions: SourceFunctions<'a>,
    source_function: SourceFunction<'a>,
) -> Result<SourceFunctions<'a>, SourceFault>
    requires same { AreNamed source_functions }
    requires fresh { name_place source_functions.names source_function.name.now ≡ None }
    ensures value { GivesParsed source_functions_of result
        (Ok (source_functions_of source_functions.entry ++ source_function_of source_function.entry ∷ [])) }
    ensures same { IfOk result (λ more. AreNamed more) }
{
    let SourceFunctions { names, mut list } = source_functions;
    let names = with_name(names, source_function.name)?;
    list.push(source_function)?;
    Ok(SourceFunctions { names, list })
}

/// One more function, from its word on.
#[tactic(auto, unfolding(fx_grammar::specs::Sources::one_def))]
fn one_def<'t, 'a>(
    alloc: Global,
    end: u32,
    source_functions: SourceFunctions<'a>,
    tokens: &'t [Token<'a>],
) -> Parsed<'t, 'a, SourceFunctions<'a>>
    requires tokens { length tokens.now < 2 ^ 32 }
    requires same { AreNamed source_functions }
    ensures value { GivesParsed (λ x. (source_functions_of x.0, lexemes x.1.now)) result
        (one_def end (source_functions_of source_functions.entry) (lexemes tokens.now)) }
    ensures shorter { IfOk result (λ x. length x.1.now < length tokens.now) }
    ensures same { IfOk result (λ x. AreNamed x.0) }
{
    let (source_function, rest) = function_at(alloc, end, &source_functions.names, tokens)?;
    let source_functions = with_function(source_functions, source_function)?;
    Ok((source_functions, rest))
}

fn none_yet<'t, 'a>(alloc: Global, tokens: &'t [Token<'a>]) -> Parsed<'t, 'a, SourceFunctions<'a>>
    ensures value { IfOk result (λ x. (source_functions_of x.0 ≡ []) × (x.1.now ≡ tokens.now)) }
    ensures same { IfOk result (λ x. AreNamed x.0) }
    ensures ok { IsOk result }
{
    let source_functions = SourceFunctions {
        names: no_names(alloc),
        list: Vec::new(alloc),
    };
    Ok((source_functions, tokens))
}

/// All functions.
#[tactic(auto, unfolding(fx_grammar::specs::Sources::defs_at))]
fn defs<'t, 'a>(
    alloc: Global,
    end: u32,
    tokens: &'t [Token<'a>],
) -> Parsed<'t, 'a, SourceFunctions<'a>>
    requires { length tokens.now < 2 ^ 32 }
    ensures value { GivesParsed (λ x. (source_functions_of x.0, lexemes x.1.now)) result
        (defs_at end (lexemes tokens.now)) }
    ensures shorter { IfOk result (λ x. length x.1.now ≤ length tokens.now) }
    ensures same { IfOk result (λ x. AreNamed x.0) }
{
    let (mut source_functions, mut rest) = none_yet(alloc, tokens)?;
    'items: while next_is(Head::Def, rest) {
        let (more, after) = one_def(alloc, end, source_functions, rest)?;
        source_functions = more;
        rest = after;
    }
    Ok((source_functions, rest))
}

/// The object, behind its word.
#[tactic(auto, unfolding(fx_grammar::specs::Sources::object_at))]
fn object<'t, 'a>(
    alloc: Global,
    end: u32,
    tokens: &'t [Token<'a>],
) -> Parsed<'t, 'a, SourceFunctions<'a>>
    requires { length tokens.now < 2 ^ 32 }
    ensures value { GivesParsed (λ x. (source_functions_of x.0, lexemes x.1.now)) result
        (object_at end (lexemes tokens.now)) }
    ensures shorter { IfOk result (λ x. length x.1.now ≤ length tokens.now) }
    ensures same { IfOk result (λ x. AreNamed x.0) }
{
    let (_, rest) = want(end, Head::Name, tokens)?;
    let (_, rest) = want(end, Head::OpenBrace, rest)?;
    let rest = imports(end, rest)?;
    let (source_functions, rest) = defs(alloc, end, rest)?;
    let (_, rest) = want(end, Head::CloseBrace, rest)?;
    Ok((source_functions, rest))
}

fn ended<'a>(
    end: u32,
    source_functions: SourceFunctions<'a>,
    tokens: &[Token<'_>],
) -> Result<SourceFunctions<'a>, SourceFault>
    requires { AreNamed source_functions }
    ensures value { GivesParsed source_functions_of result
        (ended end (source_functions_of source_functions.entry) (lexemes tokens.now)) }
    ensures same { IfOk result (λ more. AreNamed more) }
{
    if !tokens.is_empty() {
        return Err(wrong(end, tokens));
    }
    Ok(source_functions)
}

/// All functions of a source.
#[tactic(auto, unfolding(fx_grammar::specs::Sources::source_of))]
pub fn functions_in<'a>(
    alloc: Global,
    end: u32,
    tokens: &[Token<'a>],
) -> Result<SourceFunctions<'a>, SourceFault>
    requires { length tokens.now < 2 ^ 32 }
    ensures value { GivesParsed source_functions_of result (source_of end (lexemes tokens.now)) }
    ensures same { IfOk result (λ source_functions. AreNamed source_functions) }
{
    let rest = imports(end, tokens)?;
    let (source_functions, rest) = if peek(rest) == Head::Object {
        object(alloc, end, behind(rest))?
    } else {
        defs(alloc, end, rest)?
    };
    ended(end, source_functions, rest)
}
