//! The literal that a rule folds, in lowest terms.
//!
//! The trap: a literal that leaves the limits of `Fraction` is refused, and a zero divisor is no match, since nothing
//! may be lost of where a function is undefined.
ghost use Rattle.std.specs.Prelude.{◌≡◌, Some, pos};
ghost use Rattle.fx_rational.specs.Rational.{Rational, whole, negative, quotient};
ghost use Rattle.fx_fraction.specs.Fractions.{GivesLowest};
ghost use Rattle.fx_rules.specs.Turned.{or_zero};
ghost use Rattle.fx_rewrite.specs.FoldedAs.{folded_as, folded_by};
ghost use Rattle.fx_rewrite.specs.RuleOf.{folding_of};

use crate::pattern::Folding;
use fx_fraction::{Fraction, fadd, fdiv, fmul, fneg, fsub};

/// What a rule folds.
#[derive(Clone, Copy)]
pub enum Folded {
    /// A divisor is zero.
    NoMatch,
    /// The literal leaves its limits.
    TooLong,
    /// A literal.
    Literal(Fraction),
}

/// A literal that was reckoned, where it keeps its limits.
fn literal(value: Option<Fraction>) -> Folded
    ensures { (q : Rational) → GivesLowest value q → result ≡ folded_as (Some q) }
{
    match value {
        Some(v) => Folded::Literal(v),
        None => Folded::TooLong,
    }
}

/// A quotient of literals.
fn ratio(l: Fraction, k: Fraction) -> Folded
    ensures { result ≡ folded_as (quotient l k) }
{
    if k.p == 0 {
        return Folded::NoMatch;
    }
    literal(fdiv(l, k))
}

/// The literal with the other sign.
fn opposite(l: Fraction) -> Folded
    ensures { result ≡ folded_as (Some (negative l)) }
{
    let v = fneg(l);
    let _numerator = v.p;
    Folded::Literal(v)
}

/// The literal 1.
fn one() -> Fraction
    ensures { result ≡ whole (pos 1) }
{
    Fraction { p: 1, q: 1 }
}

/// The literal 0.
fn zero() -> Fraction
    ensures { result ≡ whole (pos 0) }
{
    Fraction { p: 0, q: 1 }
}

/// A literal, and any where none was found.
pub fn number(letter: Option<Fraction>) -> Fraction
    ensures { result ≡ or_zero letter }
{
    match letter {
        Some(q) => q,
        None => zero(),
    }
}

/// What is folded of two literals.
pub fn fold(folding: Folding, l: Fraction, k: Fraction) -> Folded
    ensures { result ≡ folded_by (folding_of folding) l k }
{
    match folding {
        Folding::Nothing => Folded::Literal(zero()),
        Folding::Inverse => ratio(one(), l),
        Folding::Sum => literal(fadd(l, k)),
        Folding::Difference => literal(fsub(l, k)),
        Folding::Product => literal(fmul(l, k)),
        Folding::Quotient => ratio(l, k),
        Folding::Opposite => opposite(l),
    }
}
