//! Sizes of patterns, by the sizes of their letters: each letter is walked over once, and nothing is built.
ghost use Rattle.std.specs.Prelude.{◌≡◌};
ghost use Rattle.std.specs.Option.{option_map};
ghost use Rattle.fx_rational.specs.Rational.{Rational};
ghost use Rattle.fx_expr.specs.SizeOf.{size_of};
ghost use Rattle.fx_expr.specs.TreeOf.{tree};
ghost use Rattle.fx_model.specs.Rules.{Letters, filled};
ghost use Rattle.fx_rules.specs.Turned.{letters_of, or_leaf};
ghost use Rattle.fx_rewrite.specs.FoundOf.{found_of};
ghost use Rattle.fx_rewrite.specs.RuleOf.{letter_of, part_of, pattern_of};
ghost use Rattle.fx_rewrite.specs.SizesOf.{sizes_of};

use crate::found::Found;
use crate::pattern::{Letter, Part, Pattern};
use fx_expr::{Expr, Size};

/// The sizes of the trees that letters stand for.
#[derive(Clone, Copy)]
pub struct LetterSizes {
    a: Size,
    b: Size,
    c: Size,
}

fn tree_size(letter: Option<&Expr>) -> Size
    ensures { result ≡ size_of (or_leaf (option_map (λ x. tree x.now) letter.entry)) }
{
    match letter {
        None => Size::name(),
        Some(x) => Size::of(x),
    }
}

impl LetterSizes {
    /// Of what was found.
    pub fn of(z: &Found<'_>) -> LetterSizes
        ensures { (made : Rational) → result ≡ sizes_of (letters_of (found_of z.now) made) }
    {
        LetterSizes {
            a: tree_size(z.a),
            b: tree_size(z.b),
            c: tree_size(z.c),
        }
    }

    fn letter(&self, p: Letter) -> Size
        ensures { (s : Letters) → self.now ≡ sizes_of s → result ≡ size_of (filled s (letter_of p)) }
    {
        match p {
            Letter::A => self.a,
            Letter::B => self.b,
            Letter::C => self.c,
            _ => Size::literal(),
        }
    }

    fn part(&self, p: Part) -> Size
        ensures { (s : Letters) → self.now ≡ sizes_of s → result ≡ size_of (filled s (part_of p)) }
    {
        match p {
            Part::One(p) => self.letter(p),
            Part::Neg(p) => self.letter(p).above(),
            Part::Add(p, q) => self.letter(p).with(self.letter(q)),
            Part::Sub(p, q) => self.letter(p).with(self.letter(q)),
            Part::Mul(p, q) => self.letter(p).with(self.letter(q)),
            Part::Div(p, q) => self.letter(p).with(self.letter(q)),
        }
    }

    /// The size of a pattern.
    pub fn pattern(&self, p: Pattern) -> Size
        ensures { (s : Letters) → self.now ≡ sizes_of s → result ≡ size_of (filled s (pattern_of p)) }
    {
        match p {
            Pattern::One(p) => self.part(p),
            Pattern::Neg(p) => self.part(p).above(),
            Pattern::Add(p, q) => self.part(p).with(self.part(q)),
            Pattern::Sub(p, q) => self.part(p).with(self.part(q)),
            Pattern::Mul(p, q) => self.part(p).with(self.part(q)),
            Pattern::Div(p, q) => self.part(p).with(self.part(q)),
        }
    }
}
