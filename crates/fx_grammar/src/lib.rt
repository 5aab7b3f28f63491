//! What a source text means.
//!
//! # Contract
//!
//! One definition for each rule of the grammar says what tokens from left to right give: functions, or the first fault
//! with its place (`source_of`; `parsed` is the function that is wanted of bytes). The readers below are proved against
//! it.
//!
//! # Inside
//!
//! Each definition of `specs` takes the tokens that are left and gives a value and the tokens behind it, or the first
//! fault with its place. `specs/Sources.antt` ends with `parsed`, from bytes to the wanted function. Of code there is
//! only `Head`, what the grammar sees of a token.
//!
//! The trap: where one token completes two faults, the order of the tests in a definition is the grammar's table.
#![tactic(auto)]

mod aspect;
mod head;

pub use aspect::Aspect;
pub use head::{Head, head_of};
