//! What stands between the commas of a text, cut once and kept where it stands.
//!
//! The first 64 pieces are kept in a table, so that each is found at once in any order; the others are walked to.
ghost use Rattle.std.specs.Prelude.{◌≡◌, ◌+◌, ◌∷◌, [], MatchOption, drop, option_map};
ghost use Rattle.csv.specs.Records.{field_at};
ghost use Rattle.fx_rows.specs.Line.{pieces, pieces_left};

use fx_text::cut_at;
use std::marker::Model;

/// The next piece of what is left of a text, and what is left behind its comma. None where no piece is left.
pub fn next_piece<'a>(rest: Option<&'a [u8]>) -> Option<(&'a [u8], Option<&'a [u8]>)>
    ensures { MatchOption result (pieces_left rest.entry ≡ [])
        (λ p. pieces_left rest.entry ≡ p.0.now ∷ pieces_left p.1) }
{
    let text = rest?;
    match cut_at(text, b',') {
        Some((piece, others)) => Some((piece, Some(others))),
        None => Some((text, None)),
    }
}

/// What is left behind so many pieces.
pub fn skip_pieces<'a>(rest: Option<&'a [u8]>, count: usize) -> Option<&'a [u8]>
    ensures { pieces_left result ≡ drop count (pieces_left rest.entry) }
{
    let mut left = rest;
    for k in 0..count {
        let Some((_, others)) = next_piece(left) else {
            return None;
        };
        left = others;
    }
    left
}

// What is left of a text behind `place` pieces, by a walk from what is left behind `column` of them, or from the start.
fn left_behind<'a>(
    text: &'a [u8],
    rest: Option<&'a [u8]>,
    column: usize,
    place: usize,
) -> Option<&'a [u8]>
    requires { pieces_left rest ≡ drop column (pieces text.now) }
    ensures { pieces_left result ≡ drop place (pieces text.now) }
{
    if place < column {
        skip_pieces(Some(text), place)
    } else {
        skip_pieces(rest, place - column)
    }
}

/// The piece at a place of a text, and what is left behind it, by a walk from what is left behind a front of `column`
/// pieces, or from the text's start where the place is among these.
pub fn piece_from<'a>(
    text: &'a [u8],
    rest: Option<&'a [u8]>,
    column: usize,
    place: usize,
) -> (Option<&'a [u8]>, Option<&'a [u8]>)
    requires { pieces_left rest ≡ drop column (pieces text.now) }
    ensures piece { option_map (λ f. f.now) result.0 ≡ field_at (pieces text.now) place }
    ensures rest { pieces_left result.1 ≡ drop (place + 1) (pieces text.now) }
{
    match next_piece(left_behind(text, rest, column, place)) {
        Some((piece, others)) => (Some(piece), others),
        None => (None, None),
    }
}

/// The pieces of a text between its commas, which contracts see as a list.
#[derive(Drop)]
pub struct Pieces<'a> {
    first: [&'a [u8]; 64],
    count: usize,
    rest: Option<&'a [u8]>,
}

impl<'a> Model for Pieces<'a> {
    ghost use Rattle.std.specs.Prelude.{ℕ, List, ◌++◌, ◌≤◌, map, take};
    ghost use Rattle.fx_rows.specs.Line.{pieces_left};

    ghost Value = { List (List ℕ) };

    ghost view = { λ p. map (λ f. f.now) (take p.count p.first) ++ pieces_left p.rest };

    ghost invariant = { λ p. p.count ≤ 64 };
}

impl<'a> Pieces<'a> {
    /// The pieces of a text. An empty text has one piece, which is empty.
    pub fn of(text: &'a [u8]) -> Pieces<'a>
        ensures { result ≡ pieces text.now }
    {
        let mut first = [text; 64];
        let mut rest = Some(text);
        for i in 0..64 {
            match next_piece(rest) {
                Some((piece, others)) => {
                    first[i] = piece;
                    rest = others;
                }
                None => {
                    return Pieces {
                        first,
                        count: i,
                        rest: None,
                    };
                }
            }
        }
        Pieces {
            first,
            count: 64,
            rest,
        }
    }

    /// The piece at a place.
    pub fn get(&self, place: usize) -> Option<&'a [u8]>
        ensures { option_map (λ f. f.now) result ≡ field_at self.now place }
    {
        if place < self.count {
            return Some(self.first[place]);
        }
        match next_piece(skip_pieces(self.rest, place - self.count)) {
            Some((piece, _)) => Some(piece),
            None => None,
        }
    }
}
