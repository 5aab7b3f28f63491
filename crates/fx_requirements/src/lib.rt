//! What a function says of its inputs and outputs: `require` and `ensuring`.
//!
//! # Contract
//!
//! `require` gives the inputs with their ranges, `maybe_ensuring` what is said of the outputs, and `demands_at` makes
//! demands of that, or finds ends in the wrong order: exactly as `fx_grammar` says, or Memory.
//!
//! # Inside
//!
//! Both speak of subjects, inputs or outputs by name, of which each learns a lower end, an upper end and an error at
//! most once.
//!
//! The trap: where one token completes two faults, the order of two tests is the grammar's table; no test may move.
#![tactic(auto)]

mod condition;
mod ensuring;
mod inputs;
mod range;
mod subject;

pub use ensuring::{Demanded, demands_at, first_place, maybe_ensuring};
pub use inputs::require;
pub use range::or_zero;
pub use subject::{Named, Subject, no_subjects, with_subject};
