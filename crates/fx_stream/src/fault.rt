//! Why a run over the rows of a source ended before the input did.
use fx_rows::{RowFault, RowKind};
use std::error::Error;
use std::fmt;

/// Why a run over rows ended before the input did, where `F` is what may be wrong with a line.
#[derive(Clone, Copy, Debug, PartialEq, Eq)]
pub enum RunFault<F> {
    /// The line of this number, from 1, is bad, or it is where the header is missed. All rows before it are printed.
    Row { line: u64, fault: F },
    /// A read failed. The rows of the lines that were taken whole are printed.
    ReadFault,
    /// A write failed.
    WriteFault,
    /// The input is longer than the limit.
    TooLong,
    /// No memory was left.
    Memory,
}

impl<F: fmt::Display> fmt::Display for RunFault<F> {
    fn fmt<W: fmt::Write>(&self, f: &mut fmt::Formatter<W>) -> fmt::Result {
        match self {
            RunFault::Row { line, fault } => write!(f, "{fault} at line {line}"),
            RunFault::ReadFault => f.write_str("read fault"),
            RunFault::WriteFault => f.write_str("write fault"),
            RunFault::TooLong => f.write_str("over the limit"),
            RunFault::Memory => f.write_str("out of memory"),
        }
    }
}

impl<F: fmt::Display + fmt::Debug + Drop> Error for RunFault<F> {}

/// What is wrong with a line of more bytes than a line may have.
pub const LINE_TOO_LONG: RowFault = RowFault {
    kind: RowKind::LineTooLong,
    input: 0,
};

/// What is missed where no header stands.
pub const NO_HEADER: RowFault = RowFault {
    kind: RowKind::MissingColumn,
    input: 0,
};
