//! A binary point for each node: where the bits of a word are best spent.
//!
//! # Contract
//!
//! `choose_points` gives a point for each node (`points`), or names a node of the list at which none is left
//! (`blames`). It is the choice of `fx_stateless_search`, at each attempt: which points, no clause says, and nothing
//! rests on it. Costs are rounded numbers of `fx_search_numbers`, so that the choice is the same on every machine.
//!
//! # Inside
//!
//! A floor at point `f` loses up to `2^-f`, but only where a shift is above zero. So a word is best nearly full, and a
//! product is best floored at the point of the sum that it goes into. `choose_points` weighs both: from the inputs on
//! it lists for each node the eight finest points that are worth a look, each with the least sum of roundoffs that
//! leads there and the operands' points, and from the outputs back it takes the cheapest. An exact literal costs
//! nothing at any point from its least one on, so it takes the point that spares the product its shift. Costs are
//! ranked as mantissas and exponents, so the same points come out on every machine. Nothing rests on them: what they
//! lead to is judged by the checker. The trap: the lists stand finest point first, and ties rely on it.
#![tactic(auto)]

mod attempt;
mod choice;
mod choose;
mod entry;
mod facts;
mod fault;
mod literal;
mod operation;

pub use choose::choose_points;
pub use facts::NodeFacts;
pub use fault::PointFault;
