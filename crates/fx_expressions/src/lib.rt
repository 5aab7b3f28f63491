//! Expressions, as they stand in a source: from tokens to trees, with their heights and nodes.
//!
//! # Contract
//!
//! `expression` gives the tree of an expression with its height and nodes, exactly as `fx_grammar` says, or Memory. A
//! tree that is too high is never built.
//!
//! # Inside
//!
//! The recursion is that of at most 200 open parentheses.
#![tactic(auto)]

mod expr;
mod operand;

pub use expr::expression;
pub use operand::{Context, Operand, is_high, tree_or};
