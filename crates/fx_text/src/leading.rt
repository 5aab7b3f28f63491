//! The number that stands first in a text.
ghost use Rattle.std.specs.Prelude.{◌≡◌, ◌<◌, ◌≤◌, IfSome, IsTrue, length};
ghost use Rattle.fx_text.specs.Leading.{IsLeading, IsEnd, sign_end};

use crate::cut_at;
use crate::digits::unsigned_at;
use fx_fraction::{Decimal, fewest_places, read_decimal};

// Where a minus ends, if one stands first.
#[inline]
fn sign_end(text: &[u8]) -> usize
    ensures end { result ≡ sign_end text.now }
    ensures within { result ≤ length text.now }
{
    match text {
        [b'-', ..] => 1,
        _ => 0,
    }
}

// Whether a comma stands at a place, or the text ends there.
#[inline]
fn is_end(text: &[u8], at: usize) -> bool
    ensures { IsTrue result → IsEnd text.now at }
{
    at >= text.len() || text[at] == b','
}

// The decimal of a short number without a power of ten.
#[inline]
fn plain_decimal(text: &[u8]) -> Option<(Decimal, usize)>
    ensures { IfSome result (λ r. IsLeading text.now r.0 r.1) }
{
    let start = sign_end(text);
    let number = unsigned_at(text, start)?;
    if number.places > 18 || !is_end(text, number.end) {
        return None;
    }
    let value = fewest_places(start > 0, number.size, number.places as u8)?;
    Some((value, number.end))
}

// The decimal of any number, cut at its comma. Out of line, so that the quick way is short enough to stand where it is
// called.
#[inline(never)]
fn any_decimal(text: &[u8]) -> Option<(Decimal, usize)>
    ensures { IfSome result (λ r. IsLeading text.now r.0 r.1) }
{
    let piece = match cut_at(text, b',') {
        Some((piece, _)) => piece,
        None => text,
    };
    match read_decimal(piece) {
        Ok(value) => Some((value, piece.len())),
        Err(_) => None,
    }
}

/// The decimal of the number that stands first in a text, up to a comma or the text's end, and where it ends.
#[inline]
pub fn leading_decimal(text: &[u8]) -> Option<(Decimal, usize)>
    ensures { IfSome result (λ r. IsLeading text.now r.0 r.1) }
{
    match plain_decimal(text) {
        Some(read) => Some(read),
        None => any_decimal(text),
    }
}
