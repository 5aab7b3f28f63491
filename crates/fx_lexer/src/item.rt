//! The item at the front of a text: a blank, a comment or a token.
//!
//! The first byte tells which, but for `/`, where the second decides. The trap: a comment goes before the sign `/`, so
//! `//` is never two signs.

ghost use Rattle.std.specs.Prelude.{◌≡◌};
ghost use Rattle.fx_lexer.specs.Tokens.{first_item};

use crate::byte::{byte_at, is_blank};
use crate::comment::{comment_item, line_len};
use crate::fault::SourceKind;
use crate::number::number_item;
use crate::sign::sign_item;
use crate::token::TokenKind;
use crate::word::word_item;
use fx_name::is_letter;

/// An item at the front of a text.
#[derive(Clone, Copy)]
pub struct Item {
    /// How many bytes it has, at least one.
    pub len: usize,
    /// Which token it is: a blank or a comment is none.
    pub kind: Option<TokenKind>,
}

/// The item at the front of a text that isn't empty.
#[tactic(auto, unfolding(crate::specs::Tokens::first_item))]
pub fn first_item(bytes: &[u8]) -> Result<Item, SourceKind>
    ensures { result ≡ first_item bytes.now }
{
    let first = byte_at(bytes, 0);
    if is_blank(first) {
        return Ok(Item { len: 1, kind: None });
    }
    if is_letter(first) {
        return Ok(word_item(bytes));
    }
    if first.is_ascii_digit() {
        return number_item(bytes);
    }
    let second = byte_at(bytes, 1);
    if first == b'/' && second == b'/' {
        return Ok(Item {
            len: line_len(bytes),
            kind: None,
        });
    }
    if first == b'/' && second == b'*' {
        return comment_item(bytes);
    }
    sign_item(bytes)
}
