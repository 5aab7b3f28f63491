//! What a rule makes of a tree, tried by reference: its letters, and the sizes of both sides.
ghost use Rattle.fx_expr.specs.TreeOf.{tree};
ghost use Rattle.fx_rewrite.specs.Matching.{AreSizes, IsJudged};
ghost use Rattle.fx_rewrite.specs.FoundOf.{found_of};

use crate::fold::{Folded, fold, number};
use crate::found::{Found, find};
use crate::moving::Moves;
use crate::pattern::{Pattern, Rule};
use crate::size::LetterSizes;
use crate::table::rule;
use fx_expr::{Expr, Size};
use fx_fraction::Fraction;

/// The sizes of a tree and of the one that stands in its place.
#[derive(Clone, Copy)]
pub struct Sizes {
    pub old: Size,
    pub new: Size,
}

/// A rule that matches: the pattern that the tree becomes, the literal that is folded, the letters that are moved, and
/// the sizes. Its letters stand where they were found.
#[derive(Clone, Copy)]
pub struct Match {
    pub right: Pattern,
    pub made: Fraction,
    pub moves: Moves,
    pub sizes: Sizes,
}

/// What a rule makes of a tree.
#[derive(Clone, Copy)]
pub enum Judged {
    /// The left side doesn't match.
    NoMatch,
    /// The folded literal leaves its limits.
    TooLong,
    /// It matches.
    Matches(Match),
}

/// The sizes of both sides of a rule.
fn both_sizes(rule: &Rule, found: &Found<'_>) -> Sizes
    ensures { AreSizes result rule.now (found_of found.now) }
{
    let letters = LetterSizes::of(found);
    Sizes {
        old: letters.pattern(rule.left),
        new: letters.pattern(rule.right),
    }
}

/// What the rule of a number makes of a tree, whose letters are left in `found`: a caller that tries many rules makes
/// room for them once.
pub fn judge<'a>(e: &'a Expr, number_of_rule: u8, found: &mut Found<'a>) -> Judged
    ensures { IsJudged result (found_of found.new) number_of_rule (tree e.now) }
{
    let Some(row) = rule(number_of_rule) else {
        return Judged::NoMatch;
    };
    *found = Found::nothing();
    if !find(row.left, e, found) {
        return Judged::NoMatch;
    }
    match fold(row.folding, number(found.l), number(found.k)) {
        Folded::NoMatch => Judged::NoMatch,
        Folded::TooLong => Judged::TooLong,
        Folded::Literal(made) => Judged::Matches(Match {
            right: row.right,
            made,
            moves: row.moves,
            sizes: both_sizes(&row, found),
        }),
    }
}
