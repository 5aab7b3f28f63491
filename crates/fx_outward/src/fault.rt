//! Why a node has no plain value.
use std::fmt;

/// What stands in the way at a node.
#[derive(Clone, Copy, Debug, PartialEq, Eq)]
pub enum Why {
    /// No point from -64 to 62 gives it a word that is wide enough, with shifts that the machine has.
    Word,
    /// A divisor may be zero.
    Zero,
    /// A number gets too long.
    Beyond,
}

impl fmt::Display for Why {
    fn fmt<W: fmt::Write>(&self, f: &mut fmt::Formatter<W>) -> fmt::Result {
        match self {
            Why::Word => f.write_str("no word is wide enough"),
            Why::Zero => f.write_str("a divisor may be zero"),
            Why::Beyond => f.write_str("a number gets too long"),
        }
    }
}
