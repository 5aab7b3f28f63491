//! The commands that take a bundle: `run`, `mixed`, `node`, `check`, `show`, `migrate`, `widths` and `rust`.
//!
//! # Contract
//!
//! `open` answers the accepted bundle in FILE (`opened`), or the first cause why there is none (`failed`, by
//! `OpeningEnds` of `specs/Opening.antt`), and asks the shelf for FILE alone, each place of it once (`asked`). What a
//! command does with the bundle is a `Task` (`specs/Tasks.antt`), and `Does` has a row for each: it runs the rows of
//! the input (`specs/commands/Run.antt`) or those of many units (`specs/commands/Node.antt`; what both have in common
//! stands in `specs/commands/Rows.antt`), or it prints a text. Each such text is a `Sheet`, with a row in
//! `specs/commands/Sheets.antt`: the bounds, the codes, their least widths, the Rust text, which does the machine's
//! steps and over all rows in range gives its run, or the bundle in its second version (`Check`, `Show`, `Widths`,
//! `Rust`, `Migrate`). `run_file` runs the lines of the input for `run`, `mixed` and `node` alike, and promises one
//! record (`RunsFile` of `specs/Calls.antt`): an end whose cause holds, nothing read or printed unless FILE is an
//! accepted bundle, each answer written before the input is asked for more. `print_file` prints any sheet, and promises
//! another (`PrintsFile`): an end whose cause holds, and nothing printed where it ends otherwise than well or by a
//! failed write. No search is below them. `open`, `print_text` and the lemmas of what bytes decide
//! (`proofs/Verdict.antt`) are there for other programs over a bundle.
//!
//! # Inside
//!
//! The trap: nothing here knows of a search, so that it is proved beside all of them.
#![tactic(auto)]

mod commands;
mod migration;
mod opening;
mod printing;
mod report;
mod table;
mod widths;

pub use commands::{Rows, Sheet, print_file, run_file};
pub use opening::{Opened, end_of_read, end_of_source, open};
pub use printing::print_text;
pub use table::put_value;
