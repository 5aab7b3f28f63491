//! The node list of a function: the order in which a program computes it.
//!
//! # Contract
//!
//! `flatten` gives exactly `nodes_of` of the function, and its counts, but for want of memory. Each node is in its
//! place (`specs/InPlace.antt`, by the lemmas of `proofs/Ordered.antt`): input j at j, state j at the count of inputs
//! plus j, all others behind them, and operands before their node.
//!
//! # Inside
//!
//! Inputs come first, then states, then each temp's tree and each result's tree in post-order, and last a copy of each
//! result. A literal makes a node at each use, a use of a name none. A certificate numbers its lines by this list. The
//! trap: the left operand's nodes stand before the right one's, whatever their sizes.
#![tactic(auto)]

mod list;
mod node;

pub use list::flatten;
pub use node::{Node, Nodes};
