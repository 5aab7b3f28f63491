//! The outside: what a program reads and writes, behind three traits whose faults are counted.
//!
//! # Contract
//!
//! What is read and written stands behind three traits, `Source`, `Sink` and `Shelf`. Each has one ghost member,
//! `seen`: a record of what it tells of itself (`specs/Views.antt`). All count their faults, and may tell their bytes.
//! A refusal comes only where the count rose, or at a file that a telling shelf doesn't hold (`cause`), and leaves the
//! told bytes as they were (`bytes`, `same`). A read is shown the sink that whoever feeds the source looks at, and the
//! source may note that moment (`moment`), so that a clause can say what was printed by then. A shelf may note what it
//! was asked for, a name and a place (`request`). `read_all` and `read_file` give all bytes to the end (`all`, `end`)
//! within the limit (`within`). `read_all` answers TooLong exactly where more than the limit was taken (`taken`);
//! `read_file` answers it only for a file over the limit (`too_long`), and exactly there, but for want of memory, where
//! the shelf tells its files and no fault rose. It asks for this file alone, each time at a place behind the places
//! before (`asked`). `put_all` appends all (`all`) or, where a write failed, a front (`front`, `cause`). The kinds in
//! memory `BytesIn`, `CleanIn`, `BytesOut`, `Silent` and `Papers` say what each call gives and leaves (`count`,
//! `after`) and which fails (`fails`; of `BytesOut` want of memory may fail others; `CleanIn` and `Silent` never fail).
//! Real streams and files, `StdIn`, `StdOut`, `StdErr` and `Files`, are what both programs hand on: they tell nothing,
//! so no clause says that a stream gives what it holds.
//!
//! *The lines of a source, one at a time.* `next_line` answers a line as soon as the bytes taken hold its end and reads
//! only where they hold none (`lazy`); whatever comes behind the bytes taken, the line is the first of their lines, of
//! which at most 65,537 bytes are shown (`taken`, by `TakesLine`). A read that fails leaves no whole line behind
//! (`read_fault`), TooLong comes exactly where more than the limit was taken (`too_long`), and behind a last line that
//! no line feed ends nothing more is read (`after_end`). At each read no line's end is held, and the sink is as the
//! caller left it (`sought`).
//!
//! # Inside
//!
//! Whoever reads a file or a stream answers a fault only where a count rose, so that every status of a command has its
//! cause. The kinds in memory tell all of their bytes and fail at the calls that a test names; the real streams and
//! files (`outside.rt`) are the trusted edge.
//!
//! The trap: a read may come in pieces, so a short read isn't the end. `Ok(0)` for a buffer with room is.
#![tactic(auto)]

mod answers;
mod copies;
mod cut;
mod cuts;
mod fetch;
mod held;
mod lines;
mod outside;
mod shelves;
mod sinks;
mod sources;
mod whole;

pub use answers::{Failed, InFault, LineFault, Status};
pub use lines::{LineStep, Lines};
pub use outside::{Files, StdErr, StdIn, StdOut};
pub use shelves::{FileName, Papers, Shelf};
pub use sinks::{BytesOut, Silent, Sink};
pub use sources::{BytesIn, CleanIn, Source};
pub use whole::{put_all, read_all, read_file};
