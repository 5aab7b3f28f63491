//! Letters moved from the tree that a step takes out into the one that it puts in.
//!
//! A letter that stands once on a rule's right side needs no copy. So a step at the root of a great tree takes no
//! longer than one at a small one, but for letters that stand twice.
ghost use Rattle.std.specs.Prelude.{◌≡◌, Some};
ghost use Rattle.fx_expr.specs.TreeOf.{tree};
ghost use Rattle.fx_rewrite.specs.FoundOf.{found_of};
ghost use Rattle.fx_rewrite.specs.Moving.{all_carried, carried, copied, path_of};

use crate::found::Found;
use fx_expr::{Expr, at, exchange};

/// The way from a tree to itself, to an operand, or to an operand of that.
#[derive(Clone, Copy)]
pub enum Way {
    Whole,
    First,
    Second,
    FirstOfFirst,
    SecondOfFirst,
    FirstOfSecond,
    SecondOfSecond,
}

impl Way {
    /// The numbers of the operands on it.
    fn path(self) -> &'static [u8]
        ensures { result.now ≡ path_of self }
    {
        match self {
            Way::Whole => &[],
            Way::First => &[0],
            Way::Second => &[1],
            Way::FirstOfFirst => &[0, 0],
            Way::SecondOfFirst => &[0, 1],
            Way::FirstOfSecond => &[1, 0],
            Way::SecondOfSecond => &[1, 1],
        }
    }
}

/// Where a letter stands on a left side, and where it goes on a right side.
#[derive(Clone, Copy)]
pub struct Move {
    pub from: Way,
    pub to: Way,
}

/// How the letters are moved that stand once on a right side. The others are copied.
#[derive(Clone, Copy)]
pub struct Moves {
    pub a: Option<Move>,
    pub b: Option<Move>,
    pub c: Option<Move>,
}

/// Moves a letter, if it is one that is moved.
fn carry(letter: Option<Move>, old: &mut Expr, new: &mut Expr)
    ensures { (tree old.new, tree new.new) ≡ carried letter (tree old.old, tree new.old) }
{
    let Some(own) = letter else {
        return;
    };
    let from = own.from.path();
    if at(old, from).is_some() {
        let moved = exchange(old, from, Expr::Input(0));
        exchange(new, own.to.path(), moved);
    }
}

impl Moves {
    /// A right side with all its letters, of one that has only those that are copied, and of the left side.
    pub fn finish(self, old: Expr, new: Expr) -> Expr
        ensures { tree result ≡ all_carried self (tree old) (tree new) }
    {
        let mut old = old;
        let mut new = new;
        carry(self.a, &mut old, &mut new);
        carry(self.b, &mut old, &mut new);
        carry(self.c, &mut old, &mut new);
        new
    }

    /// Leaves the letters out that are moved.
    pub fn leave_copied(self, letters: &mut Found<'_>)
        ensures { found_of letters.new ≡ copied self (found_of letters.old) }
    {
        if self.a.is_some() {
            letters.a = None;
        }
        if self.b.is_some() {
            letters.b = None;
        }
        if self.c.is_some() {
            letters.c = None;
        }
    }
}
