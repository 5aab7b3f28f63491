//! What is wrong with a text, and on which line.
//!
//! A reader of fields answers a kind, and the reader of their line makes a fault of it, so that the line's number is
//! said once. The trap: want of memory may come on any line and is no fault of the text, so it has the line 0.

ghost use Rattle.std.specs.Prelude.{◌≡◌};
ghost use Rattle.fx_text.specs.Faults.{fault_at, text_memory};
ghost use Rattle.fx_text.specs.declared.fault.TextKind.TheVariants.{Memory};

use std::alloc::{AllocError, AllocFailed};
use std::fmt;

/// What is wrong with a text. The first fault decides, line by line and from left to right.
#[derive(Clone, Copy, Debug, PartialEq, Eq)]
pub enum TextKind {
    /// A line is missing or has no line feed, a fixed word is another, or a field is missing or too many.
    BadLine,
    /// A field isn't a number or dyadic in its one spelling.
    BadNumber,
    /// A number is outside its range.
    OutOfRange,
    /// Text follows the last line.
    Extra,
    /// A count is over its limit.
    TooMany,
    /// No memory was left. It may come at any point of a call that allocates, and has no line.
    Memory,
    /// A section of a bundle is missing or begins with another line.
    Section,
}

impl fmt::Display for TextKind {
    fn fmt<W: fmt::Write>(&self, f: &mut fmt::Formatter<W>) -> fmt::Result {
        fmt::Debug::fmt(self, f)
    }
}

impl From<AllocError> for TextKind {
    ghost from_gives = { λ _ kind. kind ≡ Memory };

    fn from(_e: AllocError) -> TextKind {
        TextKind::Memory
    }
}

impl<T: Drop> From<AllocFailed<T>> for TextKind {
    ghost from_gives = { λ _ kind. kind ≡ Memory };

    fn from(_e: AllocFailed<T>) -> TextKind {
        TextKind::Memory
    }
}

impl From<fx_num::Memory> for TextKind {
    ghost from_gives = { λ _ kind. kind ≡ Memory };

    fn from(_e: fx_num::Memory) -> TextKind {
        TextKind::Memory
    }
}

/// The first fault of a text.
#[derive(Clone, Copy, Debug, PartialEq, Eq)]
pub struct TextFault {
    /// The line, counted from 1 in the text that the call was given, or 0 for want of memory.
    pub line: u32,
    /// What is wrong with it.
    pub kind: TextKind,
}

impl TextFault {
    /// A fault of this line. Want of memory has no line.
    pub fn at(line: u32, kind: TextKind) -> TextFault
        ensures { result ≡ fault_at line kind }
    {
        match kind {
            TextKind::Memory => TextFault { line: 0, kind },
            _ => TextFault { line, kind },
        }
    }
}

impl From<AllocError> for TextFault {
    ghost from_gives = { λ _ fault. fault ≡ text_memory };

    fn from(_e: AllocError) -> TextFault {
        TextFault {
            line: 0,
            kind: TextKind::Memory,
        }
    }
}

impl<T: Drop> From<AllocFailed<T>> for TextFault {
    ghost from_gives = { λ _ fault. fault ≡ text_memory };

    fn from(_e: AllocFailed<T>) -> TextFault {
        TextFault {
            line: 0,
            kind: TextKind::Memory,
        }
    }
}
