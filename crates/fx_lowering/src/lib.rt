//! From nodes to codes, and from codes to a program.
//!
//! # Contract
//!
//! `code_at` gives the code of a node at a point (`placed`), with a word of the caller's choice where the node is a
//! literal or a state. It asks nothing of points. Where the operands have points, and a negation is at its operand's,
//! there is a code just where words of the width have the shifts (`there`). `program_for` makes the program of a
//! function with codes that are lawful, as those of plans by rule are proved to be. `lawful_program` takes any codes,
//! and answers that program just where it is lawful: one pass tests each code behind the points of those before it,
//! which the program keeps. Both speak of one definition, `program_for` of `specs/OfFunction.antt`. That codes which
//! are made node by node make a lawful program is proved once, for all plans by rule (`proofs/Lowered`).
//!
//! # Inside
//!
//! A node's code at a point is its operation, with the shifts that bring its operands' points to that one and, where it
//! is a literal or a state, a word.
//!
//! This stands apart since plans by rule and searches share it: a plan knows beforehand that each node has a code at
//! its point, and a search asks. So nothing is asked of points here, and what a plan knows are the premises of the one
//! clause that says where there is a code. Two traps: which word a literal has is the caller's choice, the floor or the
//! nearest, and `code_at` doesn't test whether the width has it; and a code's point follows from those of its operands,
//! so that `lawful_program` tests these before it is computed.
#![tactic(auto)]

mod code;
mod lawful;
mod program;

pub use code::code_at;
pub use lawful::lawful_program;
pub use program::{input_count, output_count, program_for, state_count};
