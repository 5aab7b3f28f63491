//! A pattern with trees for its letters.
ghost use Rattle.std.specs.Prelude.{◌≡◌, IfOk};
ghost use Rattle.std.specs.Option.{option_map};
ghost use Rattle.fx_expr.specs.TreeOf.{tree};
ghost use Rattle.fx_model.specs.Rules as rules;
ghost use Rattle.fx_rules.specs.Turned.{letters_of, or_leaf};
ghost use Rattle.fx_rewrite.specs.FoundOf.{found_of};
ghost use Rattle.fx_rewrite.specs.RuleOf.{letter_of, part_of, pattern_of};

use crate::fold::number;
use crate::found::Found;
use crate::pattern::{Letter, Part, Pattern};
use fx_expr::Expr;
use fx_fraction::Fraction;
use fx_num::Memory;
use std::alloc::Global;

/// A copy of what a letter stands for.
fn tree_or_leaf(alloc: Global, letter: Option<&Expr>) -> Result<Expr, Memory>
    ensures { IfOk result (λ e. tree e ≡ or_leaf (option_map (λ x. tree x.now) letter.entry)) }
{
    match letter {
        None => Ok(Expr::Input(0)),
        Some(x) => x.copy(alloc),
    }
}

/// What a letter stands for.
fn letter(alloc: Global, p: Letter, z: &Found<'_>, made: Fraction) -> Result<Expr, Memory>
    ensures { IfOk result (λ e. tree e ≡ rules.filled (letters_of (found_of z.now) made) (letter_of p)) }
{
    match p {
        Letter::A => tree_or_leaf(alloc, z.a),
        Letter::B => tree_or_leaf(alloc, z.b),
        Letter::C => tree_or_leaf(alloc, z.c),
        Letter::L => Ok(Expr::Lit(number(z.l))),
        Letter::K => Ok(Expr::Lit(number(z.k))),
        Letter::Made => Ok(Expr::Lit(made)),
    }
}

fn boxed_letter(
    alloc: Global,
    p: Letter,
    z: &Found<'_>,
    made: Fraction,
) -> Result<Box<Expr>, Memory>
    ensures { IfOk result (λ e. tree e.value ≡ rules.filled (letters_of (found_of z.now) made) (letter_of p)) }
{
    let e = letter(alloc, p, z, made)?;
    Ok(Box::new(alloc, e)?)
}

/// What two letters stand for.
fn boxed_letters(
    alloc: Global,
    p: Letter,
    q: Letter,
    z: &Found<'_>,
    made: Fraction,
) -> Result<(Box<Expr>, Box<Expr>), Memory>
    ensures first { IfOk result (λ x. tree x.0.value ≡ rules.filled (letters_of (found_of z.now) made) (letter_of p)) }
    ensures second { IfOk result (λ x. tree x.1.value ≡ rules.filled (letters_of (found_of z.now) made) (letter_of q)) }
{
    let first = boxed_letter(alloc, p, z, made)?;
    let second = boxed_letter(alloc, q, z, made)?;
    Ok((first, second))
}

/// What a part of a pattern stands for.
fn part(alloc: Global, p: Part, z: &Found<'_>, made: Fraction) -> Result<Expr, Memory>
    ensures { IfOk result (λ e. tree e ≡ rules.filled (letters_of (found_of z.now) made) (part_of p)) }
{
    Ok(match p {
        Part::One(p) => letter(alloc, p, z, made)?,
        Part::Neg(p) => Expr::Neg(boxed_letter(alloc, p, z, made)?),
        Part::Add(p, q) => {
            let (first, second) = boxed_letters(alloc, p, q, z, made)?;
            Expr::Add(first, second)
        }
        Part::Sub(p, q) => {
            let (first, second) = boxed_letters(alloc, p, q, z, made)?;
            Expr::Sub(first, second)
        }
        Part::Mul(p, q) => {
            let (first, second) = boxed_letters(alloc, p, q, z, made)?;
            Expr::Mul(first, second)
        }
        Part::Div(p, q) => {
            let (first, second) = boxed_letters(alloc, p, q, z, made)?;
            Expr::Div(first, second)
        }
    })
}

fn boxed_part(alloc: Global, p: Part, z: &Found<'_>, made: Fraction) -> Result<Box<Expr>, Memory>
    ensures { IfOk result (λ e. tree e.value ≡ rules.filled (letters_of (found_of z.now) made) (part_of p)) }
{
    let e = part(alloc, p, z, made)?;
    Ok(Box::new(alloc, e)?)
}

/// What two parts of a pattern stand for.
fn boxed_parts(
    alloc: Global,
    p: Part,
    q: Part,
    z: &Found<'_>,
    made: Fraction,
) -> Result<(Box<Expr>, Box<Expr>), Memory>
    ensures first { IfOk result (λ x. tree x.0.value ≡ rules.filled (letters_of (found_of z.now) made) (part_of p)) }
    ensures second { IfOk result (λ x. tree x.1.value ≡ rules.filled (letters_of (found_of z.now) made) (part_of q)) }
{
    let first = boxed_part(alloc, p, z, made)?;
    let second = boxed_part(alloc, q, z, made)?;
    Ok((first, second))
}

/// The tree that a pattern is with these letters.
pub fn filled(alloc: Global, p: Pattern, z: &Found<'_>, made: Fraction) -> Result<Expr, Memory>
    ensures { IfOk result (λ e. tree e ≡ rules.filled (letters_of (found_of z.now) made) (pattern_of p)) }
{
    Ok(match p {
        Pattern::One(p) => part(alloc, p, z, made)?,
        Pattern::Neg(p) => Expr::Neg(boxed_part(alloc, p, z, made)?),
        Pattern::Add(p, q) => {
            let (first, second) = boxed_parts(alloc, p, q, z, made)?;
            Expr::Add(first, second)
        }
        Pattern::Sub(p, q) => {
            let (first, second) = boxed_parts(alloc, p, q, z, made)?;
            Expr::Sub(first, second)
        }
        Pattern::Mul(p, q) => {
            let (first, second) = boxed_parts(alloc, p, q, z, made)?;
            Expr::Mul(first, second)
        }
        Pattern::Div(p, q) => {
            let (first, second) = boxed_parts(alloc, p, q, z, made)?;
            Expr::Div(first, second)
        }
    })
}
