//! Names of the source language: of functions, inputs, states and temps.
//!
//! # Contract
//!
//! A `Name` is one by its type, as `fx_model/specs/Names.antt` says. `Name::read` gives the name that some bytes are,
//! and None exactly where they are none, but for want of memory; `is_name`, `is_letter`, `is_word_byte` and
//! `is_reserved` are the definitions' tests; the lexer uses the last three too, so that the reserved words stand once.
//!
//! # Inside
//!
//! Whoever holds a `Name` tests nothing: the reader of programs, the parser, and what a function is made of share it.
//! The trap: a word is taken whole before it is looked up, so `imports` is a name.
#![tactic(auto)]

mod name;
mod word;

pub use name::Name;
pub use word::{is_letter, is_name, is_reserved, is_word_byte};
