//! Why a function has no calm plan.
use fx_num::Memory;
use std::error::Error;
use std::fmt;

/// Why a function has no calm plan.
#[derive(Clone, Copy, Debug, PartialEq, Eq)]
pub enum CalmFault {
    /// The function isn't calm at the width.
    NotCalm,
    /// No memory was left.
    Memory,
}

impl fmt::Display for CalmFault {
    fn fmt<W: fmt::Write>(&self, f: &mut fmt::Formatter<W>) -> fmt::Result {
        match self {
            CalmFault::NotCalm => write!(f, "the function isn't calm"),
            CalmFault::Memory => write!(f, "out of memory"),
        }
    }
}

impl Error for CalmFault {}

impl From<Memory> for CalmFault {
    ghost use Rattle.std.specs.Prelude.{◌≡◌};
    ghost use Rattle.fx_calm.specs.declared.fault.CalmFault.TheVariants as fault;

    ghost from_gives = { λ e f. f ≡ fault.Memory };

    fn from(_e: Memory) -> CalmFault {
        CalmFault::Memory
    }
}
