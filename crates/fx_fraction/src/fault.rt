//! Why a text is no decimal.
//!
//! The two faults share out the texts that fail: of the form or not. So a caller may tell the user which of the two it
//! is, and each comes exactly where its line says, whatever the length of the text.

use std::fmt;

/// Why a text is no decimal.
#[derive(Clone, Copy, Debug, PartialEq, Eq)]
pub enum NumberFault {
    /// The text isn't of the form: sign, digits with at most one point, power of ten.
    Malformed,
    /// The text is of the form, and no `Decimal` has its value.
    TooLong,
}

impl fmt::Display for NumberFault {
    fn fmt<W: fmt::Write>(&self, f: &mut fmt::Formatter<W>) -> fmt::Result {
        match self {
            NumberFault::Malformed => write!(f, "not a number"),
            NumberFault::TooLong => write!(f, "a number with too many digits"),
        }
    }
}
