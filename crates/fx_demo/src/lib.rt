//! The demonstration of `fixd`: a source of any size from a number, synthesised and run.
//!
//! # Contract
//!
//! `demonstrate` takes the function of a number (`specs/Source.antt`), lets `synthesise` find a program of 32 bits for
//! it, and runs a thousand rows (`specs/Rows.antt`) through it. It gives the program, with the last line that the run
//! printed (`IsDemonstration`). That each source is read and served and its rows are good is tested, not proved; else
//! the call would answer Memory. That nothing else can refuse is proved: a program is found, no read fails, no limit is
//! passed, no row is blank, and the page has a last line.
//!
//! # Inside
//!
//! Source and rows are texts, read as the commands read files. They have a line for each number, as `numbered_lines` of
//! `fx_model/specs/LineText.antt` has them. The trap: two runs of one number print the same, so nothing here may depend
//! on anything else.
#![tactic(auto)]

mod demo;
mod last;
mod rows;
mod source;

pub use demo::demonstrate;
