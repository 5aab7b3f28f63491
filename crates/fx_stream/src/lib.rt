//! Rows through a step: lines as they come from a source, and what is printed of them on its way to a sink.
//!
//! # Contract
//!
//! `run_lines` runs any `Printer` over the lines of a source, `run_steps` any `RowStep` over its rows; what may be
//! wrong with a line is a printer's own (`Flaw`, `told`). Both promise one record, `EndsRun` (`specs/Ending.antt`),
//! over what comes of lines (`Outcome`), and so does every run of the crates above. What is printed goes into the block
//! of a `Page`, and all of it is written before a line is asked for that isn't held whole. A printer may hold text back
//! until then: it is told to put what it holds (`put_held`) first, and so it is before a line that is too long ends the
//! run; before a line that `take` finds bad it settles by itself (`bad`). So each time that the source is asked, the
//! sink has exactly the text of the whole lines that were taken (`prompt`, by `IsAnswered`). At Ok the whole text is
//! written (`done`) and the input ended (`end`); after each fault stands what `IsDue` says: all before the first bad
//! line, the text of exactly the whole lines after a failed read, and else a front of the text (`due`); of the bytes
//! taken, at most the last 131,072 are from a bad line on or, after a failed write, belong to lines whose text isn't
//! written whole. More bytes than the limit are taken exactly where that is the fault (`taken`), what the sink held
//! stands (`grown`), and a fault of a stream is told only where its count rose (`read_fault`, `write_fault`).
//!
//! # Inside
//!
//! What a line does is behind the trait `Printer`, and what a row does behind `RowStep`; here stands the order of reads
//! and writes. Nothing that can be written is kept back when a read might wait, and otherwise the output goes out in
//! blocks. All room is made before the first row. The trap: a read may only follow when all text is written, so that
//! after a failed read exactly the text of the whole lines that were taken stands written.
#![tactic(auto)]

mod ask;
mod fault;
mod page;
mod printer;
mod rows;
mod run;

pub use fault::{LINE_TOO_LONG, NO_HEADER, RunFault};
pub use page::Page;
pub use printer::{Printer, Stop};
pub use rows::{RowStep, run_steps, stop_of};
pub use run::run_lines;
