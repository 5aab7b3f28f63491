//! Names and reserved words.
//!
//! A word is taken whole before it is looked up, so `imports` is a name.

ghost use Rattle.std.specs.Prelude.{◌≡◌};
ghost use Rattle.std.specs.List.{prefix_len};
ghost use Rattle.fx_model.specs.Names.{is_word_byte};
ghost use Rattle.fx_lexer.specs.Tokens.{word_item};

use crate::item::Item;
use crate::token::TokenKind;
use fx_name::{is_reserved, is_word_byte};

/// How many letters and digits stand first.
fn word_len(bytes: &[u8]) -> usize
    ensures { result ≡ prefix_len is_word_byte bytes.now }
{
    for (i, byte) in bytes.iter().enumerate() {
        if !is_word_byte(*byte) {
            return i;
        }
    }
    bytes.len()
}

/// The name or reserved word at the front.
pub fn word_item(bytes: &[u8]) -> Item
    ensures { result ≡ word_item bytes.now }
{
    let len = word_len(bytes);
    let kind = if is_reserved(&bytes[..len]) {
        TokenKind::Word
    } else {
        TokenKind::Name
    };
    Item {
        len,
        kind: Some(kind),
    }
}
