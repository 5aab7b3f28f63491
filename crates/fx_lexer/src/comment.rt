//! Comments, to the end of the line or nested.
//!
//! A nested comment is read byte by byte with a counter of the open ones, so no depth is too deep. The trap: a byte
//! belongs to one mark alone, as in `/*/`, which opens a comment and doesn't close it.

ghost use Rattle.std.specs.Prelude.{◌≡◌, ◌+◌, ◌<◌, ◌≤◌, ◌^◌};
ghost use Rattle.std.specs.List.{position_or_len};
ghost use Rattle.fx_lexer.specs.Characters.{is_line_feed};
ghost use Rattle.fx_lexer.specs.Comments.{comment_end, open_behind, is_outermost_end};
ghost use Rattle.fx_lexer.specs.Tokens.{comment_item};

use crate::fault::SourceKind;
use crate::item::Item;

/// How many bytes stand before the end of the line.
pub fn line_len(bytes: &[u8]) -> usize
    ensures { result ≡ position_or_len is_line_feed bytes.now }
{
    for (i, byte) in bytes.iter().enumerate() {
        if *byte == b'\n' {
            return i;
        }
    }
    bytes.len()
}

/// Whether this byte ends the outermost comment.
fn is_outermost_end(depth: usize, last: u8, byte: u8) -> bool
    ensures { result ≡ is_outermost_end depth last byte }
{
    last == b'*' && byte == b'/' && depth <= 1
}

/// How many comments are open behind one more byte, and the byte, or 0 where it was used.
fn open_behind(depth: usize, last: u8, byte: u8) -> (usize, u8)
    requires { depth < 2 ^ 63 }
    ensures value { result ≡ open_behind depth last byte }
    ensures few { result.0 ≤ depth + 1 }
{
    if last == b'/' && byte == b'*' {
        (depth + 1, 0)
    } else if last == b'*' && byte == b'/' {
        (depth.saturating_sub(1), 0)
    } else {
        (depth, byte)
    }
}

/// The length of the nested comment at the front. None where it isn't closed.
fn comment_len(bytes: &[u8]) -> Option<usize>
    ensures { result ≡ comment_end 0 0 0 bytes.now }
{
    let mut depth = 0;
    let mut last = 0;
    for (i, byte) in bytes.iter().enumerate() {
        if is_outermost_end(depth, last, *byte) {
            return Some(i + 1);
        }
        (depth, last) = open_behind(depth, last, *byte);
    }
    None
}

/// The nested comment at the front.
pub fn comment_item(bytes: &[u8]) -> Result<Item, SourceKind>
    ensures { result ≡ comment_item bytes.now }
{
    match comment_len(bytes) {
        Some(len) => Ok(Item { len, kind: None }),
        None => Err(SourceKind::EndOfText),
    }
}
