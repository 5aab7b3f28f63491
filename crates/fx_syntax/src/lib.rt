//! The grammar of the source language, as relations by cases, and what ties the reading of tokens to it.
//!
//! # Contract
//!
//! Relations and readers agree: `read_is_spelled` and `spelled_is_read` (what is read are exactly the sources of the
//! grammar, with the functions that it gives them), `one_meaning` (a source has no second list of functions),
//! `text_law` and `wanted_law` (the same of texts and of bytes with a wanted name). Nothing in it runs.
//!
//! # Inside
//!
//! `fx_grammar` says what tokens mean by reading them from left to right, with each fault and its place. Here `specs`
//! says the same without faults: each rule of the grammar is a relation between the tokens from a place on, what they
//! stand for and the tokens behind them. The limits, the names that must differ and the line breaks that matter are
//! fields of it.
//!
//! Nothing here runs. The trap: a relation has no order of tests, so that it says which sources are lawful and what
//! they mean, and nothing of the fault of any other.
#![tactic(auto)]

mod law;

pub use law::{one_meaning, read_is_spelled, spelled_is_read, text_law, wanted_law};
