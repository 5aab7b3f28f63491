//! The patterns that rules are made of: a tree of two levels at most.

use crate::moving::Moves;

/// What stands for a tree, a literal, or the literal that is folded.
#[derive(Clone, Copy)]
pub enum Letter {
    A,
    B,
    C,
    L,
    K,
    Made,
}

/// A letter, or an operation on letters.
#[derive(Clone, Copy)]
pub enum Part {
    One(Letter),
    Neg(Letter),
    Add(Letter, Letter),
    Sub(Letter, Letter),
    Mul(Letter, Letter),
    Div(Letter, Letter),
}

/// One of these, or an operation on them.
#[derive(Clone, Copy)]
pub enum Pattern {
    One(Part),
    Neg(Part),
    Add(Part, Part),
    Sub(Part, Part),
    Mul(Part, Part),
    Div(Part, Part),
}

/// What is folded of the literals L and K.
#[derive(Clone, Copy)]
pub enum Folding {
    Nothing,
    Inverse,
    Sum,
    Difference,
    Product,
    Quotient,
    Opposite,
}

/// A rule: what is on the left becomes what is on the right.
#[derive(Clone, Copy)]
pub struct Rule {
    pub left: Pattern,
    pub right: Pattern,
    pub folding: Folding,
    /// The letters that stand once on the right.
    pub moves: Moves,
}
