//! Expressions: trees of operations over inputs, states, temps and literals.
//!
//! No tree is higher than 200, so that the recursions here are shallow. A use of a name is its number among the inputs,
//! the states or the temps.
ghost use Rattle.std.specs.Prelude.{◌≡◌, ◌↔◌, IsTrue, IfOk};
ghost use Rattle.fx_expr.specs.TreeOf.{tree};

use fx_fraction::Fraction;
use fx_num::Memory;
use std::alloc::Global;

/// A tree: a literal, a use of an input, a state or a temp, or an operation.
#[derive(Debug, Drop)]
pub enum Expr {
    /// A literal, the fraction that it spells.
    Lit(Fraction),
    /// The input of this number.
    Input(u32),
    /// The state of this number.
    State(u32),
    /// The temp of this number.
    Temp(u32),
    /// The negation of a tree.
    Neg(Box<Expr>),
    /// A sum.
    Add(Box<Expr>, Box<Expr>),
    /// A difference.
    Sub(Box<Expr>, Box<Expr>),
    /// A product.
    Mul(Box<Expr>, Box<Expr>),
    /// A quotient.
    Div(Box<Expr>, Box<Expr>),
}

/// A copy in a box.
#[cycle(copying)]
fn boxed_copy(alloc: Global, e: &Expr) -> Result<Box<Expr>, Memory>
    ensures { IfOk result (λ b. tree b.value ≡ tree e.now) }
{
    let copy = e.copy(alloc)?;
    Ok(Box::new(alloc, copy)?)
}

impl Expr {
    /// An equal tree.
    #[cycle(copying)]
    pub fn copy(&self, alloc: Global) -> Result<Expr, Memory>
        ensures { IfOk result (λ e. tree e ≡ tree self.now) }
    {
        Ok(match self {
            Expr::Lit(c) => Expr::Lit(*c),
            Expr::Input(k) => Expr::Input(*k),
            Expr::State(k) => Expr::State(*k),
            Expr::Temp(k) => Expr::Temp(*k),
            Expr::Neg(a) => Expr::Neg(boxed_copy(alloc, a)?),
            Expr::Add(a, b) => Expr::Add(boxed_copy(alloc, a)?, boxed_copy(alloc, b)?),
            Expr::Sub(a, b) => Expr::Sub(boxed_copy(alloc, a)?, boxed_copy(alloc, b)?),
            Expr::Mul(a, b) => Expr::Mul(boxed_copy(alloc, a)?, boxed_copy(alloc, b)?),
            Expr::Div(a, b) => Expr::Div(boxed_copy(alloc, a)?, boxed_copy(alloc, b)?),
        })
    }
}

/// Whether two trees are equal.
pub fn same(a: &Expr, b: &Expr) -> bool
    ensures { IsTrue result ↔ (tree a.now ≡ tree b.now) }
{
    match (a, b) {
        (Expr::Lit(x), Expr::Lit(y)) => *x == *y,
        (Expr::Input(x), Expr::Input(y)) => *x == *y,
        (Expr::State(x), Expr::State(y)) => *x == *y,
        (Expr::Temp(x), Expr::Temp(y)) => *x == *y,
        (Expr::Neg(x), Expr::Neg(y)) => same(x, y),
        (Expr::Add(x, u), Expr::Add(y, v)) => same(x, y) && same(u, v),
        (Expr::Sub(x, u), Expr::Sub(y, v)) => same(x, y) && same(u, v),
        (Expr::Mul(x, u), Expr::Mul(y, v)) => same(x, y) && same(u, v),
        (Expr::Div(x, u), Expr::Div(y, v)) => same(x, y) && same(u, v),
        _ => false,
    }
}
