//! Nodes and their list.

use fx_expr::Items;
use fx_fraction::Fraction;

/// A node. Operands are the numbers of earlier nodes, counted from 0.
#[derive(Clone, Copy, Debug, PartialEq, Eq)]
pub enum Node {
    /// Input `k`.
    Input { k: u32 },
    /// State `k`.
    State { k: u32 },
    /// A literal.
    Const { c: Fraction },
    /// The negation of node `a`.
    Neg { a: u32 },
    /// The sum of two nodes.
    Add { a: u32, b: u32 },
    /// The difference of two nodes.
    Sub { a: u32, b: u32 },
    /// The product of two nodes.
    Mul { a: u32, b: u32 },
    /// The quotient of two nodes.
    Div { a: u32, b: u32 },
    /// A result: an output or a next state.
    Copy { a: u32 },
}

/// The nodes of a function, and how many of its parts they begin and end with.
#[derive(Debug, Drop)]
pub struct Nodes {
    pub list: Items<Node>,
    pub inputs: u32,
    pub states: u32,
    pub outputs: u32,
}
