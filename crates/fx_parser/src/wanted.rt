//! From bytes to the wanted function.
ghost use Rattle.std.specs.Prelude.{◌<◌, ◌^◌, length, IfOk, Some, None};
ghost use Rattle.std.specs.Option.{option_map};
ghost use Rattle.fx_lexer.specs.Faults.{GivesParsed};
ghost use Rattle.fx_grammar.specs.Sources.{chosen, functions_of, parsed};
ghost use Rattle.fx_parser.specs.Choice.{IsChoice, wanted_in};
ghost use Rattle.fx_parser.specs.Views.{source_function_of, source_functions_of, AreNamed};

use crate::function::SourceFunction;
use crate::owned::owned;
use crate::source::{SourceFunctions, functions_in};
use fx_cursor::place;
use fx_expr::Function;
use fx_lexer::{SourceFault, SourceKind, tokens};
use std::alloc::Global;

/// The functions of a text.
fn source_functions<'a>(alloc: Global, text: &'a str) -> Result<SourceFunctions<'a>, SourceFault>
    requires { length text.now < 2 ^ 32 }
    ensures value { GivesParsed source_functions_of result (functions_of text.now) }
    ensures same { IfOk result (λ source_functions. AreNamed source_functions) }
{
    let tokens = tokens(alloc, text)?;
    functions_in(alloc, text.len() as u32, &tokens)
}

/// The number of the function of this name.
fn by_name(source_functions: &SourceFunctions<'_>, name: &str) -> Result<usize, SourceKind>
    requires { AreNamed source_functions.now }
    ensures within { IfOk result (λ k. k < length source_functions.now.list.items) }
    ensures value { IsChoice (Some name.now) (source_functions_of source_functions.now) result }
{
    match place(&source_functions.names, name) {
        Some(k) => Ok(k),
        None => Err(SourceKind::NoSuchFunction),
    }
}

/// The number of the only function.
fn the_only(source_functions: &SourceFunctions<'_>) -> Result<usize, SourceKind>
    ensures within { IfOk result (λ k. k < length source_functions.now.list.items) }
    ensures value { IsChoice None (source_functions_of source_functions.now) result }
{
    let count = source_functions.list.len();
    if count == 0 {
        return Err(SourceKind::NoSuchFunction);
    }
    if count > 1 {
        return Err(SourceKind::WhichFunction);
    }
    Ok(0)
}

/// The number of the wanted function.
fn number_of(
    source_functions: &SourceFunctions<'_>,
    name: Option<&str>,
) -> Result<usize, SourceKind>
    requires { AreNamed source_functions.now }
    ensures within { IfOk result (λ k. k < length source_functions.now.list.items) }
    ensures value { IsChoice (option_map (λ n. n.now) name.entry) (source_functions_of source_functions.now) result }
{
    match name {
        Some(name) => by_name(source_functions, name),
        None => the_only(source_functions),
    }
}

/// The wanted function.
fn chosen<'a>(
    source_functions: SourceFunctions<'a>,
    name: Option<&str>,
) -> Result<SourceFunction<'a>, SourceFault>
    requires { AreNamed source_functions }
    ensures { GivesParsed source_function_of result
        (chosen (option_map (λ n. n.now) name.entry) (source_functions_of source_functions.entry)) }
{
    match number_of(&source_functions, name) {
        Ok(k) => {
            let SourceFunctions { mut list, .. } = source_functions;
            Ok(list.swap_remove(k))
        }
        Err(kind) => Err(SourceFault::at(0, kind)),
    }
}

/// The wanted function of a text.
#[tactic(auto, using(crate::proofs::Choices::is_whole))]
fn function_in(alloc: Global, text: &str, name: Option<&str>) -> Result<Function, SourceFault>
    requires { length text.now < 2 ^ 32 }
    ensures { GivesParsed (λ f. f) result (wanted_in text.now (option_map (λ n. n.now) name.entry)) }
{
    let source_functions = source_functions(alloc, text)?;
    let source_function = chosen(source_functions, name)?;
    owned(alloc, source_function)
}

/// The wanted function of a source: the one of this name, or the only one. Memory where none was left, else the first
/// fault.
#[tactic(auto, unfolding(fx_grammar::specs::Sources::parsed))]
pub fn parse(alloc: Global, bytes: &[u8], name: Option<&str>) -> Result<Function, SourceFault>
    requires { length bytes.now < 2 ^ 32 }
    ensures { GivesParsed (λ f. f) result (parsed bytes.now (option_map (λ n. n.now) name.entry)) }
{
    match str::from_utf8(bytes) {
        Ok(text) => function_in(alloc, text, name),
        Err(e) => Err(SourceFault::at(e.valid_up_to() as u32, SourceKind::BadUtf8)),
    }
}
