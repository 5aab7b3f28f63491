//! What needs no search: the plans by rule, the plain attempt, and those after one rewriting step.
//!
//! # Contract
//!
//! `first_answer` is the plain plan, certified, where it serves the function, else the calm plan where the function is
//! calm. `try_plainly` answers what is left of an answer, the plain attempt and the attempts after one of the first
//! single steps (`IsBestAfter`): none that is accepted has smaller bounds at all outputs. `take_better` lets a
//! candidate take an answer's place where there is no answer, or where it is no worse at any output and better at some;
//! what is taken is no worse at any output, and a candidate that isn't taken isn't better at all of them (`IsTaken`).
//!
//! # Inside
//!
//! Whatever is found has passed the checker. The trap: a candidate takes the answer's place only where none of its
//! bounds is greater, so that no answer is worse than one before it at any output.
#![tactic(auto)]

mod answer;
mod attempt;
mod plans;
mod turns;

pub use answer::{bounds_of, take_better};
pub use plans::first_answer;
pub use turns::try_plainly;
