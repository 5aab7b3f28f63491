//! Cutting a text into lines, and a line into fields.
//!
//! Nothing is copied: a line and a field are parts of the text. Two spaces have an empty field between them, which is
//! no number and no word, and so has a space at either end of a line.

ghost use Rattle.std.specs.Prelude.{◌≡◌, ◌==◌, ◌∷◌, [], List, ℕ, length, slice_get, MatchOption};
ghost use Rattle.fx_text.specs.Cutting.{AreParts, cut_at, fields_of, line_at, left_of};

use std::marker::Model;

/// What stands before the first such byte, and what stands behind it. None where there is no such byte.
pub fn cut_at(bytes: &[u8], at: u8) -> Option<(&[u8], &[u8])>
    ensures { AreParts result (cut_at at bytes.now) }
{
    for (i, byte) in bytes.iter().enumerate() {
        if *byte == at {
            return Some((&bytes[..i], &bytes[i + 1..]));
        }
    }
    None
}

/// The first line, and the text behind its line feed. None where no line feed stands.
pub fn line_at(text: &[u8]) -> Option<(&[u8], &[u8])>
    ensures { AreParts result (line_at text.now) }
{
    cut_at(text, b'\n')
}

/// The fields of a line that are still to be read, which contracts see as a list. After a fault what is left isn't
/// told.
#[derive(Drop)]
pub struct Fields<'a> {
    rest: Option<&'a [u8]>,
}

impl<'a> Model for Fields<'a> {
    ghost Value = { List (List ℕ) };

    ghost view = { λ fields. left_of fields.rest };
}

impl<'a> Fields<'a> {
    /// The fields of a line, which is given without its line feed. An empty line has one field, which is empty.
    pub fn of(line: &'a [u8]) -> Fields<'a>
        ensures { result ≡ fields_of line.now }
    {
        Fields { rest: Some(line) }
    }

    /// The next field. None where none is left.
    pub fn next(&mut self) -> Option<&'a [u8]>
        ensures { MatchOption result
            ((self.old ≡ []) × (self.new ≡ []))
            (λ field. self.old ≡ field.now ∷ self.new) }
    {
        let rest = self.rest?;
        match cut_at(rest, b' ') {
            Some((field, others)) => {
                self.rest = Some(others);
                Some(field)
            }
            None => {
                self.rest = None;
                Some(rest)
            }
        }
    }

    /// The next field, which stays where it is. None where none is left.
    pub fn peek(&self) -> Option<&'a [u8]>
        ensures { MatchOption result (self.now ≡ []) (λ field. slice_get self.now 0 ≡ Some field.now) }
    {
        let rest = self.rest?;
        match cut_at(rest, b' ') {
            Some((field, _)) => Some(field),
            None => Some(rest),
        }
    }

    /// Whether no field is left.
    pub fn is_done(&self) -> bool
        ensures { result ≡ (length self.now == 0) }
    {
        self.rest.is_none()
    }
}
