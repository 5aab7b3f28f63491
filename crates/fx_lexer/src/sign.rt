//! Signs: the longest that stands at the front.
//!
//! The list is tried in its order. The trap: a longer sign has to stand before those that it begins with, so that `<=`
//! is never `<` and then `=`; `+/` is two signs, and a lone `&` is none.

ghost use Rattle.std.specs.Prelude.{◌≡◌};
ghost use Rattle.fx_lexer.specs.Tokens.{sign_item};

use crate::fault::SourceKind;
use crate::item::Item;
use crate::token::TokenKind;

/// The signs, the longest first.
const SIGNS: [&str; 20] = [
    "+/-", "=>", "<=", ">=", "&&", "(", ")", "{", "}", ":", ",", ".", ";", "=", "<", ">", "+", "-",
    "*", "/",
];

/// The sign at the front.
pub fn sign_item(bytes: &[u8]) -> Result<Item, SourceKind>
    ensures { result ≡ sign_item bytes.now }
{
    match SIGNS.iter().find(|sign| bytes.starts_with(sign.as_bytes())) {
        Some(sign) => Ok(Item {
            len: sign.len(),
            kind: Some(TokenKind::Sign),
        }),
        None => Err(SourceKind::BadCharacter),
    }
}
