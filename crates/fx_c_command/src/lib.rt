//! What `fixd-c` does: it prints the program of an accepted bundle as C99 text, or the header of that text.
//!
//! # Contract
//!
//! The public call `fixd_c` does so over any shelf, output and notes, and answers a status. The words are told by
//! `request_of` (`specs/Words.antt`). Its contract is one record, `CBehaves` (`specs/Promise.antt`): status and line
//! are those of one end, whose cause holds (`ended`); a cause that FILE gives is the end (`exact`), and an accepted
//! bundle's text is printed (`complete`), where nothing outside fails and there is memory; nothing is printed at a
//! status but 0 and 7 (`silent`), nor where FILE is no accepted bundle (`unopened`) or is missing (`missing`); FILE
//! alone is read (`asked`), and what the output held stands (`appended`). What is printed is the one text (`PrintsC` of
//! `specs/Printed.antt`): of the source it holds besides that it does the machine's steps and, over all rows in range,
//! its run, and of the header that it says the points, the words and the certified bounds. It gets no input, so it
//! reads none.
//!
//! # Inside
//!
//! A bundle is opened and judged as `fixd` does it (`fx_bundle_commands`), and ends have its statuses and its lines
//! (`fx_ends`), with this program's name. The trap: `fixd` stands on nothing of C, so that whoever needs no C proves
//! none.
#![tactic(auto)]

mod call;
mod printed;
mod words;

pub use call::{finish, fixd_c};
pub use fx_ends::End;
