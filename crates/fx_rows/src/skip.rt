//! The columns of a line that are passed on the way to a number, as long as no quote and no line end stands in them.
ghost use Rattle.std.specs.Prelude.{◌≡◌, ◌∷◌, IfSome, IsTrue, false, drop, take};
ghost use Rattle.std.specs.List.{list_any};
ghost use Rattle.fx_rows.specs.Line.{is_special, pieces, pieces_left};
ghost use Rattle.fx_rows.specs.Passing.{IsPiece, special_left};

// Where the piece that stands first in a text ends. None where a quote or a line end stands in it.
fn piece_end(text: &[u8]) -> Option<usize>
    ensures { IfSome result (λ end. IsPiece text.now end) }
{
    for (i, byte) in text.iter().enumerate() {
        match *byte {
            b',' => return Some(i),
            b'"' | b'\r' | b'\n' => return None,
            _ => {}
        }
    }
    Some(text.len())
}

/// What stands behind the piece that stands first.
#[inline]
pub(crate) fn behind_piece<'a>(text: &'a [u8], end: usize) -> Option<&'a [u8]>
    requires { IsPiece text.now end }
    ensures pieces { pieces text.now ≡ take end text.now ∷ pieces_left result }
    ensures special { special_left result ≡ list_any is_special text.now }
{
    if end < text.len() {
        Some(&text[end + 1..])
    } else {
        None
    }
}

/// What is left of a text behind so many columns. None where it has no more, or a quote or a line end stands in them.
#[inline]
pub(crate) fn skip_columns<'a>(rest: Option<&'a [u8]>, count: usize) -> Option<&'a [u8]>
    ensures pieces { IfSome result (λ r. pieces r.now ≡ drop count (pieces_left rest.entry)) }
    ensures special { IfSome result (λ r. list_any is_special r.now ≡ special_left rest.entry) }
{
    let mut left = rest?;
    for k in 0..count {
        let end = piece_end(left)?;
        left = behind_piece(left, end)?;
    }
    Some(left)
}

/// Whether no quote and no line end stands in what is left of a text.
#[inline]
pub(crate) fn is_plain_left(rest: Option<&[u8]>) -> bool
    ensures { IsTrue result → special_left rest.entry ≡ false }
{
    let Some(text) = rest else {
        return true;
    };
    for byte in text {
        if matches!(*byte, b'"' | b'\r' | b'\n') {
            return false;
        }
    }
    true
}
