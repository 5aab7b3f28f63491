//! The letters of a pattern, found in a tree by reference.
ghost use Rattle.std.specs.Prelude.{◌≡◌, Some};
ghost use Rattle.std.specs.Option.{option_map};
ghost use Rattle.fx_expr.specs.TreeOf.{tree};
ghost use Rattle.fx_rules.specs.Turned as rules;
ghost use Rattle.fx_rewrite.specs.FoundOf.{found_of, Finds};
ghost use Rattle.fx_rewrite.specs.RuleOf.{letter_of, part_of, pattern_of};

use crate::pattern::{Letter, Part, Pattern};
use fx_expr::{Expr, same};
use fx_fraction::Fraction;

/// What was found so far of each letter.
#[derive(Clone, Copy)]
pub struct Found<'a> {
    pub a: Option<&'a Expr>,
    pub b: Option<&'a Expr>,
    pub c: Option<&'a Expr>,
    pub l: Option<Fraction>,
    pub k: Option<Fraction>,
}

impl<'a> Found<'a> {
    /// Nothing.
    pub fn nothing() -> Found<'a>
        ensures { found_of result ≡ rules.nothing }
    {
        Found {
            a: None,
            b: None,
            c: None,
            l: None,
            k: None,
        }
    }
}

/// Whether two trees are the same.
fn alike(a: &Expr, b: &Expr) -> bool
    ensures { result ≡ rules.same_tree (tree a.now) (tree b.now) }
{
    same(a, b)
}

/// Whether a letter may stand for a tree.
fn may_be(letter: Option<&Expr>, e: &Expr) -> bool
    ensures { result ≡ rules.may_be (option_map (λ x. tree x.now) letter.entry) (tree e.now) }
{
    match letter {
        None => true,
        Some(x) => alike(x, e),
    }
}

/// Whether two literals are the same.
fn equal(x: Fraction, y: Fraction) -> bool
    ensures { result ≡ rules.may_be_number (Some x) y }
{
    x == y
}

/// Whether a letter may stand for a literal.
fn may_be_number(letter: Option<Fraction>, q: Fraction) -> bool
    ensures { result ≡ rules.may_be_number letter q }
{
    match letter {
        None => true,
        Some(x) => equal(x, q),
    }
}

/// Finds a letter in a tree too, or says that it can't stand for it.
fn find_letter<'a>(p: Letter, e: &'a Expr, z: &mut Found<'a>) -> bool
    ensures { Finds result (rules.matched (letter_of p) (tree e.now) (found_of z.old)) (found_of z.new) }
{
    match p {
        Letter::A => {
            let fits = may_be(z.a, e);
            if fits {
                z.a = Some(e);
            }
            fits
        }
        Letter::B => {
            let fits = may_be(z.b, e);
            if fits {
                z.b = Some(e);
            }
            fits
        }
        Letter::C => {
            let fits = may_be(z.c, e);
            if fits {
                z.c = Some(e);
            }
            fits
        }
        Letter::L => match e {
            Expr::Lit(q) => {
                let fits = may_be_number(z.l, *q);
                if fits {
                    z.l = Some(*q);
                }
                fits
            }
            _ => false,
        },
        Letter::K => match e {
            Expr::Lit(q) => {
                let fits = may_be_number(z.k, *q);
                if fits {
                    z.k = Some(*q);
                }
                fits
            }
            _ => false,
        },
        Letter::Made => false,
    }
}

/// Finds a part.
fn find_part<'a>(p: Part, e: &'a Expr, z: &mut Found<'a>) -> bool
    ensures { Finds result (rules.matched (part_of p) (tree e.now) (found_of z.old)) (found_of z.new) }
{
    match (p, e) {
        (Part::One(p), _) => find_letter(p, e, z),
        (Part::Neg(p), Expr::Neg(x)) => find_letter(p, x, z),
        (Part::Add(p, q), Expr::Add(x, y)) => find_letter(p, x, z) && find_letter(q, y, z),
        (Part::Sub(p, q), Expr::Sub(x, y)) => find_letter(p, x, z) && find_letter(q, y, z),
        (Part::Mul(p, q), Expr::Mul(x, y)) => find_letter(p, x, z) && find_letter(q, y, z),
        (Part::Div(p, q), Expr::Div(x, y)) => find_letter(p, x, z) && find_letter(q, y, z),
        _ => false,
    }
}

/// Finds a pattern.
pub fn find<'a>(p: Pattern, e: &'a Expr, z: &mut Found<'a>) -> bool
    ensures { Finds result (rules.matched (pattern_of p) (tree e.now) (found_of z.old)) (found_of z.new) }
{
    match (p, e) {
        (Pattern::One(p), _) => find_part(p, e, z),
        (Pattern::Neg(p), Expr::Neg(x)) => find_part(p, x, z),
        (Pattern::Add(p, q), Expr::Add(x, y)) => find_part(p, x, z) && find_part(q, y, z),
        (Pattern::Sub(p, q), Expr::Sub(x, y)) => find_part(p, x, z) && find_part(q, y, z),
        (Pattern::Mul(p, q), Expr::Mul(x, y)) => find_part(p, x, z) && find_part(q, y, z),
        (Pattern::Div(p, q), Expr::Div(x, y)) => find_part(p, x, z) && find_part(q, y, z),
        _ => false,
    }
}
