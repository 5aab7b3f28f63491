//! Reading a text line by line.
//!
//! A caller knows the number of each line that it reads and hands it in, so that no fault is without its line. A reader
//! of a line's fields knows no number: its fault gets one by `map_err(|kind| TextFault::at(line, kind))`. The trap: a
//! line without a line feed is refused before its fields are read, whatever they are.

ghost use Rattle.std.specs.Prelude.{[]};
ghost use Rattle.fx_text.specs.Reading.{ReadsAll};
ghost use Rattle.fx_text.specs.Lines.{fields_at, text_ended_at};

use crate::cut::{Fields, line_at};
use crate::fault::{TextFault, TextKind};

/// The fields of line `line`, the first of the text, and the text behind it. BadLine where no line feed stands.
#[tactic(auto, unfolding(crate::specs::Lines::fields_at))]
pub fn fields_at(line: u32, text: &[u8]) -> Result<(Fields<'_>, &[u8]), TextFault>
    ensures { ReadsAll (λ x. (x.0, x.1.now)) result (fields_at line text.now) }
{
    let (bytes, rest) = line_at(text).ok_or(TextFault::at(line, TextKind::BadLine))?;
    Ok((Fields::of(bytes), rest))
}

/// The text's end, where line `line` would begin. Extra where text is left.
#[tactic(auto, unfolding(crate::specs::Lines::text_ended_at))]
pub fn text_ended(line: u32, text: &[u8]) -> Result<(), TextFault>
    ensures { ReadsAll (λ _. []) result (text_ended_at line text.now) }
{
    if text.is_empty() {
        Ok(())
    } else {
        Err(TextFault::at(line, TextKind::Extra))
    }
}
