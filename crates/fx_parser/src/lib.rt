//! The parser of source texts.
//!
//! # Contract
//!
//! `parse` gives the function that is wanted, or the only one, or the first fault of the text with its place, exactly
//! as `fx_grammar`'s `parsed` says, or Memory (one clause). It reads each token once, and names stay slices of the text
//! until the wanted function is found.
//!
//! # Inside
//!
//! Tokens are read once, from left to right, by one function for each rule of the grammar, so that memory is linear in
//! the text.
//!
//! The trap: where one token completes two faults, the order of two tests is the grammar's table, and no test may move.
//! So what is said of outputs is judged behind the count of nodes.
#![tactic(auto)]

mod body;
mod front;
mod function;
mod owned;
mod source;
mod wanted;

pub use wanted::parse;
