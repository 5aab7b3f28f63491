//! A program as Rust text: one function that does a step, for code that knows nothing of `fixd`.
//!
//! # Contract
//!
//! `rust_text` writes the text of a program at given widths: it is that of the program's statements (`text`), and does
//! its steps wherever each word lies in its width (`does`); the only refusal is Memory. What the text is, and what it
//! does, stands in `fx_statements`.
//!
//! # Inside
//!
//! The text is written piece by piece, so that a kind of code is one function in `value`. A way to round is asked for
//! in two places, before what is rounded and behind it (`rounding`). The trap: the text says nothing of the states'
//! start words, so whoever calls it brings them.
#![tactic(auto)]

mod piece;
mod rounding;
mod statement;
mod text;
mod value;

pub use piece::{put, put_between, put_digits, put_element, put_name, put_title};
pub use text::rust_text;
