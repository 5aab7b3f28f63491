//! What may be wrong with a line of the rows of many units.
use fx_rows::{RowFault, UnitKind};
use std::fmt;

/// What is wrong with a line.
#[derive(Clone, Copy, Debug, PartialEq, Eq)]
pub enum Flaw {
    /// It is bad as a header or a row, or it is where the header is missed.
    Row(RowFault),
    /// It is good as a header or a row, but its unit isn't.
    Unit(UnitKind),
}

impl fmt::Display for Flaw {
    fn fmt<W: fmt::Write>(&self, f: &mut fmt::Formatter<W>) -> fmt::Result {
        match self {
            Flaw::Row(fault) => fmt::Display::fmt(fault, f),
            Flaw::Unit(kind) => fmt::Display::fmt(kind, f),
        }
    }
}
