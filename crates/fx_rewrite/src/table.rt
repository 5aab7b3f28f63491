//! The rules by their numbers.
ghost use Rattle.std.specs.Prelude.{◌≡◌, ◌≤◌, Some, None, IfSome};
ghost use Rattle.std.specs.Option.{option_map};
ghost use Rattle.fx_model.specs.Rules as rules;
ghost use Rattle.fx_rewrite.specs.Moving.{IsMovable};
ghost use Rattle.fx_rewrite.specs.RuleOf.{rule_of};
ghost use Rattle.fx_rewrite.specs.declared.pattern.Folding.TheVariants as foldings;

use crate::moving::Way::{
    First, FirstOfFirst, FirstOfSecond, Second, SecondOfFirst, SecondOfSecond, Whole,
};
use crate::moving::{Move, Moves, Way};
use crate::pattern::Letter::{A, B, C, K, L, Made};
use crate::pattern::Part::One;
use crate::pattern::{Folding, Part, Pattern, Rule};

/// A rule that makes no literal, whose letters are copied.
fn plain(left: Pattern, right: Pattern) -> Rule
    ensures { result ≡ record {
      left = left;
      right = right;
      folding = foldings.Nothing;
      moves = record { a = None; b = None; c = None };
    } }
{
    folds(left, right, Folding::Nothing)
}

/// A rule that folds a literal, whose letters are copied.
fn folds(left: Pattern, right: Pattern, folding: Folding) -> Rule
    ensures { result ≡ record {
      left = left;
      right = right;
      folding = folding;
      moves = record { a = None; b = None; c = None };
    } }
{
    Rule {
        left,
        right,
        folding,
        moves: Moves {
            a: None,
            b: None,
            c: None,
        },
    }
}

/// A letter is moved from here to there.
fn along(from: Way, to: Way) -> Option<Move>
    ensures { result ≡ Some (record { from = from; to = to }) }
{
    Some(Move { from, to })
}

impl Rule {
    /// With letters that are moved.
    fn moving(self, a: Option<Move>, b: Option<Move>, c: Option<Move>) -> Rule
        ensures { result ≡ record self { moves = record { a = a; b = b; c = c } } }
    {
        Rule {
            moves: Moves { a, b, c },
            ..self
        }
    }
}

/// Operands exchanged, and sums and products regrouped.
fn order_rule(number: u8) -> Option<Rule>
    requires { (1 ≤ number) × (number ≤ 6) }
    ensures row { option_map rule_of result ≡ rules.rule number }
    ensures movable { IfSome result IsMovable }
{
    Some(match number {
        1 => plain(Pattern::Add(One(A), One(B)), Pattern::Add(One(B), One(A))).moving(
            along(First, Second),
            along(Second, First),
            None,
        ),
        2 => plain(
            Pattern::Add(Part::Add(A, B), One(C)),
            Pattern::Add(One(A), Part::Add(B, C)),
        )
        .moving(
            along(FirstOfFirst, First),
            along(SecondOfFirst, FirstOfSecond),
            along(Second, SecondOfSecond),
        ),
        3 => plain(
            Pattern::Add(One(A), Part::Add(B, C)),
            Pattern::Add(Part::Add(A, B), One(C)),
        )
        .moving(
            along(First, FirstOfFirst),
            along(FirstOfSecond, SecondOfFirst),
            along(SecondOfSecond, Second),
        ),
        4 => plain(Pattern::Mul(One(A), One(B)), Pattern::Mul(One(B), One(A))).moving(
            along(First, Second),
            along(Second, First),
            None,
        ),
        5 => plain(
            Pattern::Mul(Part::Mul(A, B), One(C)),
            Pattern::Mul(One(A), Part::Mul(B, C)),
        )
        .moving(
            along(FirstOfFirst, First),
            along(SecondOfFirst, FirstOfSecond),
            along(Second, SecondOfSecond),
        ),
        6 => plain(
            Pattern::Mul(One(A), Part::Mul(B, C)),
            Pattern::Mul(Part::Mul(A, B), One(C)),
        )
        .moving(
            along(First, FirstOfFirst),
            along(FirstOfSecond, SecondOfFirst),
            along(SecondOfSecond, Second),
        ),
        _ => return None,
    })
}

/// Products over sums and differences, and back.
fn product_rule(number: u8) -> Option<Rule>
    requires { (7 ≤ number) × (number ≤ 14) }
    ensures row { option_map rule_of result ≡ rules.rule number }
    ensures movable { IfSome result IsMovable }
{
    Some(match number {
        7 => plain(
            Pattern::Mul(One(A), Part::Add(B, C)),
            Pattern::Add(Part::Mul(A, B), Part::Mul(A, C)),
        )
        .moving(
            None,
            along(FirstOfSecond, SecondOfFirst),
            along(SecondOfSecond, SecondOfSecond),
        ),
        8 => plain(
            Pattern::Mul(Part::Add(A, B), One(C)),
            Pattern::Add(Part::Mul(A, C), Part::Mul(B, C)),
        )
        .moving(
            along(FirstOfFirst, FirstOfFirst),
            along(SecondOfFirst, FirstOfSecond),
            None,
        ),
        9 => plain(
            Pattern::Mul(One(A), Part::Sub(B, C)),
            Pattern::Sub(Part::Mul(A, B), Part::Mul(A, C)),
        )
        .moving(
            None,
            along(FirstOfSecond, SecondOfFirst),
            along(SecondOfSecond, SecondOfSecond),
        ),
        10 => plain(
            Pattern::Mul(Part::Sub(A, B), One(C)),
            Pattern::Sub(Part::Mul(A, C), Part::Mul(B, C)),
        )
        .moving(
            along(FirstOfFirst, FirstOfFirst),
            along(SecondOfFirst, FirstOfSecond),
            None,
        ),
        11 => plain(
            Pattern::Add(Part::Mul(A, B), Part::Mul(A, C)),
            Pattern::Mul(One(A), Part::Add(B, C)),
        )
        .moving(
            along(FirstOfFirst, First),
            along(SecondOfFirst, FirstOfSecond),
            along(SecondOfSecond, SecondOfSecond),
        ),
        12 => plain(
            Pattern::Add(Part::Mul(A, C), Part::Mul(B, C)),
            Pattern::Mul(Part::Add(A, B), One(C)),
        )
        .moving(
            along(FirstOfFirst, FirstOfFirst),
            along(FirstOfSecond, SecondOfFirst),
            along(SecondOfFirst, Second),
        ),
        13 => plain(
            Pattern::Sub(Part::Mul(A, B), Part::Mul(A, C)),
            Pattern::Mul(One(A), Part::Sub(B, C)),
        )
        .moving(
            along(FirstOfFirst, First),
            along(SecondOfFirst, FirstOfSecond),
            along(SecondOfSecond, SecondOfSecond),
        ),
        14 => plain(
            Pattern::Sub(Part::Mul(A, C), Part::Mul(B, C)),
            Pattern::Mul(Part::Sub(A, B), One(C)),
        )
        .moving(
            along(FirstOfFirst, FirstOfFirst),
            along(FirstOfSecond, SecondOfFirst),
            along(SecondOfFirst, Second),
        ),
        _ => return None,
    })
}

/// Differences as sums, and signs moved.
fn sign_rule(number: u8) -> Option<Rule>
    requires { (15 ≤ number) × (number ≤ 20) }
    ensures row { option_map rule_of result ≡ rules.rule number }
    ensures movable { IfSome result IsMovable }
{
    Some(match number {
        15 => plain(
            Pattern::Sub(One(A), One(B)),
            Pattern::Add(One(A), Part::Neg(B)),
        )
        .moving(along(First, First), along(Second, FirstOfSecond), None),
        16 => plain(
            Pattern::Add(One(A), Part::Neg(B)),
            Pattern::Sub(One(A), One(B)),
        )
        .moving(along(First, First), along(FirstOfSecond, Second), None),
        17 => plain(Pattern::Neg(Part::Neg(A)), Pattern::One(One(A))).moving(
            along(FirstOfFirst, Whole),
            None,
            None,
        ),
        18 => plain(
            Pattern::Neg(Part::Mul(A, B)),
            Pattern::Mul(Part::Neg(A), One(B)),
        )
        .moving(
            along(FirstOfFirst, FirstOfFirst),
            along(SecondOfFirst, Second),
            None,
        ),
        19 => plain(
            Pattern::Mul(Part::Neg(A), One(B)),
            Pattern::Neg(Part::Mul(A, B)),
        )
        .moving(
            along(FirstOfFirst, FirstOfFirst),
            along(Second, SecondOfFirst),
            None,
        ),
        20 => plain(
            Pattern::Neg(Part::Add(A, B)),
            Pattern::Add(Part::Neg(A), Part::Neg(B)),
        )
        .moving(
            along(FirstOfFirst, FirstOfFirst),
            along(SecondOfFirst, FirstOfSecond),
            None,
        ),
        _ => return None,
    })
}

/// Quotients over sums, of quotients and by products.
fn quotient_rule(number: u8) -> Option<Rule>
    requires { (21 ≤ number) × (number ≤ 24) }
    ensures row { option_map rule_of result ≡ rules.rule number }
    ensures movable { IfSome result IsMovable }
{
    Some(match number {
        21 => plain(
            Pattern::Div(Part::Add(A, B), One(C)),
            Pattern::Add(Part::Div(A, C), Part::Div(B, C)),
        )
        .moving(
            along(FirstOfFirst, FirstOfFirst),
            along(SecondOfFirst, FirstOfSecond),
            None,
        ),
        22 => plain(
            Pattern::Add(Part::Div(A, C), Part::Div(B, C)),
            Pattern::Div(Part::Add(A, B), One(C)),
        )
        .moving(
            along(FirstOfFirst, FirstOfFirst),
            along(FirstOfSecond, SecondOfFirst),
            along(SecondOfFirst, Second),
        ),
        23 => plain(
            Pattern::Div(Part::Div(A, B), One(C)),
            Pattern::Div(One(A), Part::Mul(B, C)),
        )
        .moving(
            along(FirstOfFirst, First),
            along(SecondOfFirst, FirstOfSecond),
            along(Second, SecondOfSecond),
        ),
        24 => plain(
            Pattern::Div(One(A), Part::Mul(B, C)),
            Pattern::Div(Part::Div(A, B), One(C)),
        )
        .moving(
            along(First, FirstOfFirst),
            along(FirstOfSecond, SecondOfFirst),
            along(SecondOfSecond, Second),
        ),
        _ => return None,
    })
}

/// Literals folded.
fn literal_rule(number: u8) -> Option<Rule>
    requires { (25 ≤ number) × (number ≤ 30) }
    ensures row { option_map rule_of result ≡ rules.rule number }
    ensures movable { IfSome result IsMovable }
{
    Some(match number {
        25 => folds(
            Pattern::Div(One(A), One(L)),
            Pattern::Mul(One(A), One(Made)),
            Folding::Inverse,
        )
        .moving(along(First, First), None, None),
        26 => folds(
            Pattern::Add(One(L), One(K)),
            Pattern::One(One(Made)),
            Folding::Sum,
        ),
        27 => folds(
            Pattern::Sub(One(L), One(K)),
            Pattern::One(One(Made)),
            Folding::Difference,
        ),
        28 => folds(
            Pattern::Mul(One(L), One(K)),
            Pattern::One(One(Made)),
            Folding::Product,
        ),
        29 => folds(
            Pattern::Div(One(L), One(K)),
            Pattern::One(One(Made)),
            Folding::Quotient,
        ),
        30 => folds(
            Pattern::Neg(One(L)),
            Pattern::One(One(Made)),
            Folding::Opposite,
        ),
        _ => return None,
    })
}

/// The rule of a number, if there is one.
pub fn rule(number: u8) -> Option<Rule>
    ensures row { option_map rule_of result ≡ rules.rule number }
    ensures movable { IfSome result IsMovable }
{
    match number {
        1..=6 => order_rule(number),
        7..=14 => product_rule(number),
        15..=20 => sign_rule(number),
        21..=24 => quotient_rule(number),
        25..=30 => literal_rule(number),
        _ => None,
    }
}
