//! What is wrong with a source text, and where.
//!
//! Here stand the kinds of the lexer and of the parser, since a user sees one list of them. The trap: want of memory
//! may come at any byte and is no fault of the text, so it has the place 0.

ghost use Rattle.std.specs.Prelude.{◌≡◌};
ghost use Rattle.fx_lexer.specs.Faults.{source_memory};

use std::alloc::{AllocError, AllocFailed};
use std::error::Error;
use std::fmt;

/// What is wrong with a source text. Where one token completes two faults, the lower row of the grammar's table
/// decides.
#[derive(Clone, Copy, Debug, PartialEq, Eq)]
pub enum SourceKind {
    /// The bytes aren't UTF-8. The place is the first byte of the first bad sequence.
    BadUtf8,
    /// No token begins with this character.
    BadCharacter,
    /// A letter or `_` follows directly behind a number. The place is the number's.
    BadNumber,
    /// No `Decimal` has the number's value.
    NumberTooLong,
    /// The grammar has no place for this token, and no other kind applies.
    Unexpected,
    /// A comment isn't closed, or a token is wanted behind the last one. The place is the text's length.
    EndOfText,
    /// Nothing that may stand here has this name: in a requirement no input, in an expression nothing, in a demand no
    /// output.
    UnknownName,
    /// A second function, input, state, temp or output of this name, or a second end, error or demand of it.
    NamedTwice,
    /// An input lacks an end, or the requirement is missing. The place is the name of the first such input in its list.
    NoRange,
    /// The lower end of an input lies above its upper one. The place is as for `NoRange`.
    EmptyRange,
    /// Too many parentheses are open at once in an expression, or its tree is too high.
    TooDeep,
    /// One input, state, temp or output more than is allowed, or a function of too many nodes.
    TooMany,
    /// The text has no function, or none of the wanted name. The place is 0.
    NoSuchFunction,
    /// The text has several functions, and no name is wanted. The place is 0.
    WhichFunction,
    /// A word or a form of the wider language that this one leaves out.
    Unsupported,
    /// A type, a tuple or the names of the outputs have another count than is asked for.
    WrongArity,
    /// No memory was left. It may come at any point of a call that allocates, and has the place 0.
    Memory,
}

impl fmt::Display for SourceKind {
    fn fmt<W: fmt::Write>(&self, f: &mut fmt::Formatter<W>) -> fmt::Result {
        fmt::Debug::fmt(self, f)
    }
}

/// The first fault of a source text.
#[derive(Clone, Copy, Debug, PartialEq, Eq)]
pub struct SourceFault {
    /// The byte at which it stands, counted from 0, or 0 for want of memory.
    pub at: u32,
    /// What is wrong there.
    pub kind: SourceKind,
}

impl SourceFault {
    /// The fault of a kind at a byte.
    pub fn at(at: u32, kind: SourceKind) -> Self
        ensures { result ≡ record { at = at; kind = kind } }
    {
        SourceFault { at, kind }
    }
}

impl fmt::Display for SourceFault {
    fn fmt<W: fmt::Write>(&self, f: &mut fmt::Formatter<W>) -> fmt::Result {
        write!(f, "{} at byte {}", self.kind, self.at)
    }
}

impl Error for SourceFault {}

impl From<AllocError> for SourceFault {
    ghost from_gives = { λ _ fault. fault ≡ source_memory };

    fn from(_e: AllocError) -> SourceFault {
        SourceFault::at(0, SourceKind::Memory)
    }
}

impl<T: Drop> From<AllocFailed<T>> for SourceFault {
    ghost from_gives = { λ _ fault. fault ≡ source_memory };

    fn from(_e: AllocFailed<T>) -> SourceFault {
        SourceFault::at(0, SourceKind::Memory)
    }
}
