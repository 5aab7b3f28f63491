//! So many lines of one kind, whatever a line of it is.
//!
//! A reader of such lines reads one from its fields, and is told its number among them. The loop over lines is written
//! here alone, and with it the proof that it reads what the definitions' `lines_by` reads. The list grows as its lines
//! come: a count costs nothing that no line stands behind.

ghost use Rattle.std.specs.Prelude.{◌≡◌, ◌<◌, ◌≤◌, ◌+◌, ◌^◌, ℕ, Result, map, length, IfOk};
ghost use Rattle.fx_text.specs.declared.fault.TextKind as kinds;
ghost use Rattle.fx_text.specs.Cutting.{Line};
ghost use Rattle.fx_text.specs.Lines.{Gives, GivesLine};
ghost use Rattle.fx_text.specs.Many.{numbered_line, lines_by, with_front};

use crate::cut::Fields;
use crate::fault::{TextFault, TextKind};
use crate::line::fields_at;
use std::alloc::Global;

/// A reader of one line among so many of its kind.
pub trait LineReader {
    /// What a line gives.
    type Value: Drop;

    // What the definitions make of it.
    ghost Told: { Type 0 };

    // What the definitions make of a value that was read.
    ghost told: { Self.Value → Told };

    // How many lines there are.
    ghost count: { Self → ℕ };

    // What the reader asks of itself.
    ghost lawful: { Self → Type 0 };

    // Line `i` of them, counted from 0, as the definitions read it.
    ghost line_at: { Self → ℕ → Line → Result Told kinds.TextKind };

    /// Line `i` of them, counted from 0, from its fields.
    fn read(&self, alloc: Global, i: u32, fields: &mut Fields<'_>) -> Result<Self::Value, TextKind>
        requires lawful { lawful self.now }
        requires place { i < count self.now }
        ensures { GivesLine told result (line_at self.now i fields.old) };
}

/// Line `i` of those from line `first` on, and the text behind it.
#[tactic(auto, unfolding(crate::specs::Many::numbered_line, crate::specs::Lines::line_by))]
fn numbered_line<'a, R: LineReader>(
    reader: &R,
    alloc: Global,
    first: u32,
    i: u32,
    text: &'a [u8],
) -> Result<(R::Value, &'a [u8]), TextFault>
    requires first { first ≤ 2 ^ 30 }
    requires few { i < 2 ^ 30 }
    requires lawful { R.lawful reader.now }
    requires place { i < R.count reader.now }
    ensures { Gives (λ x. (R.told x.0, x.1.now)) result (numbered_line (R.line_at reader.now) first i text.now) }
{
    let line = first + i;
    let (mut fields, rest) = fields_at(line, text)?;
    let value = reader
        .read(alloc, i, &mut fields)
        .map_err(|kind| TextFault::at(line, kind))?;
    Ok((value, rest))
}

/// The reader's lines from line `first` on, behind what was read before, and the text behind them.
pub fn read_more_lines<'a, R: LineReader>(
    reader: &R,
    alloc: Global,
    first: u32,
    count: u32,
    before: Vec<R::Value>,
    text: &'a [u8],
) -> Result<(Vec<R::Value>, &'a [u8]), TextFault>
    requires first { first ≤ 2 ^ 30 }
    requires few { count ≤ 2 ^ 30 }
    requires lawful { R.lawful reader.now }
    requires count { count ≡ R.count reader.now }
    ensures value { Gives (λ x. (map R.told x.0.items, x.1.now)) result
        (with_front (map R.told before.items) (lines_by (R.line_at reader.now) first count text.now)) }
    ensures count { IfOk result (λ x. length x.0.items ≡ length before.items + count) }
{
    let mut found = before;
    let mut rest = text;
    for i in 0..count {
        let (next, after) = numbered_line(reader, alloc, first, i, rest)?;
        found.push(next)?;
        rest = after;
    }
    Ok((found, rest))
}

/// The reader's lines from line `first` on, and the text behind them.
pub fn read_lines<'a, R: LineReader>(
    reader: &R,
    alloc: Global,
    first: u32,
    count: u32,
    text: &'a [u8],
) -> Result<(Vec<R::Value>, &'a [u8]), TextFault>
    requires first { first ≤ 2 ^ 30 }
    requires few { count ≤ 2 ^ 30 }
    requires lawful { R.lawful reader.now }
    requires count { count ≡ R.count reader.now }
    ensures value { Gives (λ x. (map R.told x.0.items, x.1.now)) result
        (lines_by (R.line_at reader.now) first count text.now) }
    ensures count { IfOk result (λ x. length x.0.items ≡ count) }
{
    read_more_lines(reader, alloc, first, count, Vec::new(alloc), text)
}
