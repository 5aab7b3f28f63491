//! What every rule of the grammar reads with: the next token, the names so far, numbers, and the loop over items.
//!
//! # Contract
//!
//! Each rule here, in `fx_expressions` and in `fx_requirements` takes tokens from the front and gives exactly what its
//! definition in `fx_grammar` gives, value and rest or first fault with its place, or Memory. `fx_cursor` has the next
//! token, numbers, names in order, each found in one look-up (`place`, `free`), and the loop over items, for every
//! `Rule` (`repeated`, by which `separated` and `listed` go); terms, sums, the conditions of `require` and the
//! functions of a source have loops of their own.
//!
//! # Inside
//!
//! A step takes tokens from the front and gives its value with the tokens behind it, exactly as `fx_grammar` says, or
//! the first fault. So a cursor is a slice, and nothing is read twice.
//!
//! The trap: at the end of the tokens a fault stands at the text's length, which each step is passed as `end`.
#![tactic(auto)]

mod items;
mod names;
mod numeral;
mod steps;

pub use items::{Rule, listed, repeated, separated};
pub use names::{Names, free, no_names, place, with_name};
pub use numeral::{Numeral, decimal, minus, numeral_value};
pub use steps::{
    Parsed, behind, is_fresh, next_is, number, past_semicolon, peek, place_at, real, signed, want,
    wrong,
};
