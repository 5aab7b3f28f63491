//! Sizes of trees, in one walk.
//!
//! Counts that leave 32 bits stay at the greatest number, so that no caller has to show that a tree is small: all
//! limits lie far below.
ghost use Rattle.std.specs.Prelude.{◌≡◌};
ghost use Rattle.fx_expr.specs.TreeOf.{tree};
ghost use Rattle.fx_expr.specs.SizeOf.{above_one, above_two, size_of};

use crate::expr::Expr;
use std::cmp::max;

/// How many nodes a tree adds to its function, and its height, where a leaf has the height 1.
#[derive(Clone, Copy, Debug, PartialEq, Eq)]
pub struct Size {
    pub nodes: u32,
    pub height: u32,
}

impl Size {
    /// Of a literal.
    pub fn literal() -> Size
        ensures { result ≡ record { nodes = 1; height = 1 } }
    {
        Size {
            nodes: 1,
            height: 1,
        }
    }

    /// Of a use of an input, a state or a temp.
    pub fn name() -> Size
        ensures { result ≡ record { nodes = 0; height = 1 } }
    {
        Size {
            nodes: 0,
            height: 1,
        }
    }

    /// Of an operation on a tree of this size.
    pub fn above(self) -> Size
        ensures { result ≡ above_one self }
    {
        Size {
            nodes: self.nodes.saturating_add(1),
            height: self.height.saturating_add(1),
        }
    }

    /// Of an operation on trees of these sizes.
    pub fn with(self, other: Size) -> Size
        ensures { result ≡ above_two self other }
    {
        let height = max(self.height, other.height);
        Size {
            nodes: self.nodes.saturating_add(other.nodes).saturating_add(1),
            height: height.saturating_add(1),
        }
    }

    /// Of an expression.
    pub fn of(e: &Expr) -> Size
        ensures { result ≡ size_of (tree e.now) }
    {
        match e {
            Expr::Lit(_) => Size::literal(),
            Expr::Input(_) => Size::name(),
            Expr::State(_) => Size::name(),
            Expr::Temp(_) => Size::name(),
            Expr::Neg(a) => Size::of(a).above(),
            Expr::Add(a, b) => Size::of(a).with(Size::of(b)),
            Expr::Sub(a, b) => Size::of(a).with(Size::of(b)),
            Expr::Mul(a, b) => Size::of(a).with(Size::of(b)),
            Expr::Div(a, b) => Size::of(a).with(Size::of(b)),
        }
    }
}
