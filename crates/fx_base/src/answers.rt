//! What a command ends with, and why a call of the outside refuses.
//!
//! A refusal says as little as its caller can act on: the cause stands in the counts of the stream, not here. Want of
//! memory is always an answer of its own, since no clause can rule it out.
//! The trap: a new status needs its constant here and its cause in the promise of the command that ends with it.
ghost use Rattle.std.specs.Prelude.{◌≡◌};
ghost use Rattle.fx_base.specs.declared.answers.InFault.TheVariants.{ReadFault, Memory};

use std::alloc::AllocError;
use std::error::Error;
use std::fmt;
use std::marker::Model;

/// What a command ends with, from 0 to 10. The program exits with this number.
#[derive(Clone, Copy, Debug, PartialEq, Eq)]
pub struct Status(pub u8);

impl Model for Status {
    ghost use Rattle.std.specs.Prelude.{ℕ, ◌≤◌};

    ghost Value = { ℕ };

    ghost view = { λ s. s.0 };

    ghost invariant = { λ s. s.0 ≤ 10 };

    ghost inverse = { λ n. record { 0 = n } };
}

impl Status {
    /// All was done.
    pub const DONE: Status = Status(0);
    /// The checker refused the bundle.
    pub const REJECTED: Status = Status(1);
    /// The words aren't a command's.
    pub const USAGE: Status = Status(2);
    /// The source has a fault.
    pub const SOURCE: Status = Status(3);
    /// The bundle's text has a fault.
    pub const BUNDLE: Status = Status(4);
    /// A row or the header is bad or missing.
    pub const ROW: Status = Status(5);
    /// A read of the file or of the input failed, or there is no such file.
    pub const READ_FAULT: Status = Status(6);
    /// A write of the output failed.
    pub const WRITE_FAULT: Status = Status(7);
    /// No memory was left.
    pub const MEMORY: Status = Status(8);
    /// The search found no program.
    pub const NOT_FOUND: Status = Status(9);
    /// The file or the input is longer than its limit.
    pub const OVER_LIMIT: Status = Status(10);
}

/// A read or a write that the outside refused.
#[derive(Clone, Copy, Debug, PartialEq, Eq)]
pub struct Failed;

impl fmt::Display for Failed {
    fn fmt<W: fmt::Write>(&self, f: &mut fmt::Formatter<W>) -> fmt::Result {
        f.write_str("read or write fault")
    }
}

impl Error for Failed {}

/// Why a whole input or file wasn't read.
#[derive(Clone, Copy, Debug, PartialEq, Eq)]
pub enum InFault {
    /// A read failed, or the shelf has no such file.
    ReadFault,
    /// There are more bytes than the limit.
    TooLong,
    /// No memory was left for the bytes.
    Memory,
}

impl fmt::Display for InFault {
    fn fmt<W: fmt::Write>(&self, f: &mut fmt::Formatter<W>) -> fmt::Result {
        f.write_str(match self {
            InFault::ReadFault => "read fault",
            InFault::TooLong => "over the limit",
            InFault::Memory => "out of memory",
        })
    }
}

impl Error for InFault {}

/// Why no line came.
#[derive(Clone, Copy, Debug, PartialEq, Eq)]
pub enum LineFault {
    /// A read failed.
    ReadFault,
    /// More bytes were taken than the limit.
    TooLong,
}

impl fmt::Display for LineFault {
    fn fmt<W: fmt::Write>(&self, f: &mut fmt::Formatter<W>) -> fmt::Result {
        f.write_str(match self {
            LineFault::ReadFault => "read fault",
            LineFault::TooLong => "over the limit",
        })
    }
}

impl Error for LineFault {}

impl From<Failed> for LineFault {
    ghost use Rattle.fx_base.specs.declared.answers.LineFault.TheVariants as line;

    ghost from_gives = { λ _ fault. fault ≡ line.ReadFault };

    fn from(_failed: Failed) -> LineFault {
        LineFault::ReadFault
    }
}

impl From<Failed> for InFault {
    ghost from_gives = { λ _ fault. fault ≡ ReadFault };

    fn from(_failed: Failed) -> InFault {
        InFault::ReadFault
    }
}

impl From<AllocError> for InFault {
    ghost from_gives = { λ _ fault. fault ≡ Memory };

    fn from(_error: AllocError) -> InFault {
        InFault::Memory
    }
}
