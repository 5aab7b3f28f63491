//! A program as C99 text, for a device: a function that does a step, one that writes the start words, and a header.
//!
//! # Contract
//!
//! `c_text` writes the text of a program at given widths, with its start words: it is that of the program's statements
//! (`text`), and does its steps wherever each word lies in its width (`does`); the only refusal is Memory. `c_header`
//! writes its header, of outputs with given bounds (`text`); with those of a certificate that is accepted it says what
//! is certified (`says`). What the texts are, do and say, stands in `fx_c99`.
//!
//! # Inside
//!
//! Each function here appends a piece of one, and its clause says which. The trap: what a failed call has appended
//! isn't told, so the text is dropped where any fails.
#![tactic(auto)]

mod groups;
mod head;
mod header;
mod lookup;
mod macros;
mod piece;
mod rounding;
mod start;
mod statement;
mod text;
mod unread;
mod value;
mod working;

pub use header::c_header;
pub use text::c_text;
