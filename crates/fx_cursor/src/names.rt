//! Names in the order in which they were read, each found in one look-up.
//!
//! A source may have thousands of names, and each use of one asks for its place; so the names stand in an `IndexSet` of
//! slices of the text.
ghost use Rattle.std.specs.Prelude.{◌≡◌, ◌≢◌, ◌<◌, ◌+◌, length, None, Ok, IfSome, IfOk, ◌++◌, ◌∷◌, []};
ghost use Rattle.fx_lexer.specs.Faults.{GivesParsed};
ghost use Rattle.fx_grammar.specs.Steps.{name_place, free_at};
ghost use Rattle.fx_lexer.specs.Tokens.{lexeme_of};

use fx_lexer::{SourceFault, SourceKind, Token};
use indexmap::IndexSet;
use std::alloc::Global;
use std::marker::Model;

/// Different names in order.
#[derive(Drop)]
pub struct Names<'a> {
    set: IndexSet<&'a str>,
}

impl<'a> Model for Names<'a> {
    ghost use Rattle.std.specs.Prelude.{List, ℕ};
    ghost use Rattle.fx_cursor.specs.Texts.{all_texts};

    ghost Value = { List (List ℕ) };

    ghost view = { λ n. all_texts n.set.keys };
}

/// No names.
pub fn no_names<'a>(alloc: Global) -> Names<'a>
    ensures { result ≡ [] }
{
    Names {
        set: IndexSet::new(alloc),
    }
}

/// The place of a name.
pub fn place(names: &Names<'_>, text: &str) -> Option<usize>
    ensures value { result ≡ name_place names.now text.now }
    ensures within { IfSome result (λ i. i < length names.now) }
{
    names.set.get_index_of(text)
}

/// A new name, where so many of its sort are read, of at most `limit`.
#[tactic(auto, unfolding(fx_grammar::specs::Steps::free_at))]
pub fn free(
    limit: usize,
    count: usize,
    names: &Names<'_>,
    token: &Token<'_>,
) -> Result<(), SourceFault>
    ensures value { GivesParsed (λ _. tt) result (free_at limit count names.now (lexeme_of token.now)) }
    ensures few { IfOk result (λ _. count ≢ limit) }
    ensures new { IfOk result (λ _. name_place names.now token.now.text.now ≡ None) }
{
    if count == limit {
        return Err(SourceFault::at(token.at, SourceKind::TooMany));
    }
    if place(names, token.text).is_some() {
        return Err(SourceFault::at(token.at, SourceKind::NamedTwice));
    }
    Ok(())
}

/// The names and a new one.
pub fn with_name<'a>(names: Names<'a>, name: &'a str) -> Result<Names<'a>, SourceFault>
    requires { name_place names name.now ≡ None }
    ensures value { GivesParsed (λ more. more) result (Ok (names.entry ++ name.now ∷ [])) }
    ensures count { IfOk result (λ more. length more ≡ length names.entry + 1) }
{
    let Names { mut set } = names;
    set.insert(name)?;
    Ok(Names { set })
}
