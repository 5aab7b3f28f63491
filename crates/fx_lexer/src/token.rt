//! Tokens, and how a text is cut into them.
//!
//! Each round takes the item at the front, in a time that follows its length, so the whole follows the text's length. A
//! token keeps the text's own slice. The trap: `fresh` is carried over gaps up to the next token, and only a line feed
//! sets it, also one in a comment.

ghost use Rattle.std.specs.Prelude.{◌≡◌, ◌<◌, ◌≤◌, ◌^◌, ◌||◌, length, map, IfOk};
ghost use Rattle.fx_lexer.specs.Faults.{GivesParsed};
ghost use Rattle.fx_lexer.specs.Characters.{has_line_feed};
ghost use Rattle.fx_lexer.specs.Tokens.{lexeme_of, place_of, tokens_of};

use crate::fault::{SourceFault, SourceKind};
use crate::item::first_item;
use std::alloc::Global;

/// What a token is.
#[derive(Clone, Copy, Debug, PartialEq, Eq)]
pub enum TokenKind {
    /// A letter or `_`, then letters, `_` and digits; no reserved word.
    Name,
    /// Digits, maybe a point and digits, maybe a power of ten. Some `Decimal` has its value.
    Number,
    /// A reserved word: of the grammar, or of the wider language that it refuses.
    Word,
    /// An operator, a relation, a bracket or a mark between.
    Sign,
}

/// A token: the text's slice at a place.
#[derive(Clone, Copy, Debug)]
pub struct Token<'a> {
    /// What it is.
    pub kind: TokenKind,
    /// Its bytes, where they stand in the text.
    pub text: &'a str,
    /// The place of its first byte, counted from 0.
    pub at: u32,
    /// Whether it is the first on its line: no token stands between it and the line feed, or the front, before it.
    pub fresh: bool,
}

fn has_line_feed(bytes: &[u8]) -> bool
    ensures { result ≡ has_line_feed bytes.now }
{
    for byte in bytes {
        if *byte == b'\n' {
            return true;
        }
    }
    false
}

// Whether a token behind this gap is the first on its line.
fn is_fresh_behind(fresh: bool, gap: &[u8]) -> bool
    ensures { result ≡ (fresh || has_line_feed gap.now) }
{
    fresh || has_line_feed(gap)
}

/// The place of a fault that is found in the item at a place, where the text ends at `end`.
fn place_of(kind: SourceKind, at: u32, end: u32) -> u32
    ensures { result ≡ place_of kind at end }
{
    if kind == SourceKind::EndOfText {
        end
    } else {
        at
    }
}

/// The tokens of the text, or its first lexical fault: BadCharacter, BadNumber, NumberTooLong, EndOfText. Memory where
/// none was left.
pub fn tokens<'a>(alloc: Global, text: &'a str) -> Result<Vec<Token<'a>>, SourceFault>
    requires { length text.now < 2 ^ 32 }
    ensures value { GivesParsed (λ found. map lexeme_of found.items) result (tokens_of text.now) }
    ensures count { IfOk result (λ found. length found.items ≤ length text.now) }
{
    let mut found = Vec::new(alloc);
    let end = text.len() as u32;
    let mut rest = text;
    let mut at = 0;
    let mut fresh = true;
    while !rest.is_empty() {
        let item = match first_item(rest.as_bytes()) {
            Ok(item) => item,
            Err(kind) => return Err(SourceFault::at(place_of(kind, at, end), kind)),
        };
        let (front, after) = rest.split_at(item.len);
        match item.kind {
            Some(kind) => {
                found.push(Token {
                    kind,
                    text: front,
                    at,
                    fresh,
                })?;
                fresh = false;
            }
            None => fresh = is_fresh_behind(fresh, front.as_bytes()),
        }
        at += item.len as u32;
        rest = after;
    }
    Ok(found)
}
