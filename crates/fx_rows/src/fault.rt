//! What is wrong with a line of rows, and at which input.
//!
//! A fault of the line as a whole comes before those of its inputs, and these in declared order. The trap: want of
//! memory may come at any point of a call and is no fault of the line, so it has the input 0.
ghost use Rattle.std.specs.Prelude.{◌≡◌, ◌≤◌, false, IfNone, nat_lt, length, Some, None, if◌then◌else◌};
ghost use Rattle.std.specs.List.{list_any};
ghost use Rattle.fx_model.specs.Limits.{line_limit};
ghost use Rattle.fx_rows.specs.Line.{is_return};
ghost use Rattle.fx_rows.specs.declared.fault.RowKind.TheVariants.{LineTooLong, StrayReturn};

use std::fmt;

/// What is wrong with a line. Of an input the kinds are looked for in this order.
#[derive(Clone, Copy, Debug, PartialEq, Eq)]
pub enum RowKind {
    /// No column of the header has the input's name.
    MissingColumn,
    /// Several columns of the header have it.
    TwiceNamed,
    /// The row ends before the input's column.
    TooFew,
    /// The field isn't a number, or no `Decimal` has its value.
    BadNumber,
    /// The number is further outside the input's range than its error.
    OutOfRange,
    /// The line has more than 65,536 bytes.
    LineTooLong,
    /// The line has a carriage return that no line feed follows.
    StrayReturn,
    /// No memory was left. It may come at any point of a call that allocates, and has the input 0.
    Memory,
}

impl fmt::Display for RowKind {
    fn fmt<W: fmt::Write>(&self, f: &mut fmt::Formatter<W>) -> fmt::Result {
        fmt::Debug::fmt(self, f)
    }
}

/// The first fault of a line.
#[derive(Clone, Copy, Debug, PartialEq, Eq)]
pub struct RowFault {
    /// What is wrong.
    pub kind: RowKind,
    /// The input at which it is found, counted from 0 in declared order, or 0 where the line as a whole is bad.
    pub input: u32,
}

impl fmt::Display for RowFault {
    fn fmt<W: fmt::Write>(&self, f: &mut fmt::Formatter<W>) -> fmt::Result {
        self.kind.fmt(f)
    }
}

/// Want of memory.
pub(crate) const MEMORY: RowFault = RowFault {
    kind: RowKind::Memory,
    input: 0,
};

// In bytes: a longer line is bad.
pub(crate) const LINE_LIMIT: usize = 65_536;

/// What is wrong with a line as a whole.
pub(crate) fn line_fault(line: &[u8]) -> Option<RowKind>
    ensures fault { result ≡ (if nat_lt line_limit (length line.now) then Some LineTooLong
        else if list_any is_return line.now then Some StrayReturn else None) }
    ensures short { IfNone result (length line.now ≤ line_limit) }
    ensures no_return { IfNone result (list_any is_return line.now ≡ false) }
{
    if line.len() > LINE_LIMIT {
        Some(RowKind::LineTooLong)
    } else if line.contains(&b'\r') {
        Some(RowKind::StrayReturn)
    } else {
        None
    }
}
