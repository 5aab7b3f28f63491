//! Programs for functions with states: filters and controllers, certified at their limit.
//!
//! # Contract
//!
//! `certify_states` makes a program for a function with states, by boxes, templates and points that are settled one
//! after the other, as it stands and, where that may help, with its literals folded and its quotients by literals
//! turned into products (`fx_moves`). What it answers is certified, of that function and of its name, of the width and
//! with the rounding that were asked for (one clause, `IsOffered` of `fx_checker`), or it answers none. Nothing rests
//! on how it was found. It stands apart from `fx_stateless_search`, since neither needs the other.
//!
//! # Inside
//!
//! A state's range is what templates of the states allow, the templates are what ranges allow: so boxes for the states
//! are proposed, the templates for them looked for, and the boxes widened until the templates lie inside. Then points,
//! from coarse enough ones down; then the same once more for errors, which points decide. A word that is too small for
//! its range and error lowers its node's point, and errors are settled again.
//!
//! The trap: a box that already holds its templates must not be widened again, else ranges of products run away.
#![tactic(auto)]

mod attempt;
mod boxes;
mod certify;
mod narrow;
mod point;
mod settle;
mod sides;
mod task;

pub use certify::certify_states;
