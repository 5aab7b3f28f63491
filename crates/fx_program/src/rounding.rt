//! How codes round where a way to round is asked for.
//!
//! To the nearest a product rounds whose shift is from 1 on, and a copy whose shift is from 1 to the width: what drops
//! nothing, or more than a word, has no such code and rounds down.

ghost use Rattle.std.specs.Prelude.{◌≡◌, ◌↔◌, ◌&&◌, All, IsTrue};
ghost use Rattle.fx_model.specs.Machine as machine;
ghost use Rattle.fx_program.specs.CodeView.{round_of, code_of};
ghost use Rattle.fx_program.specs.Rounding.{product_round, copy_round, RoundsBy, IsRoundedBy};
ghost use Rattle.fx_word.specs.Words.{IsWidth};

use crate::code::{Code, Kind, Round};
use crate::program::Program;

impl Round {
    /// How a product by this shift rounds.
    fn of_product_shift(self, s: u32) -> Round
        ensures { round_of result ≡ product_round (round_of self) s }
    {
        if self.least_shift() <= s {
            self
        } else {
            Round::Floor
        }
    }

    /// How a copy by this shift of words of `width` bits rounds, also where no program has such a shift or such words.
    fn of_copy_shift(self, width: u32, s: i64) -> Round
        ensures { round_of result ≡ copy_round (round_of self) width s }
    {
        match self {
            Round::Floor => Round::Floor,
            Round::Nearest => near_copy_round(width, s),
        }
    }

    /// The product `a * b / 2^s` that rounds so where its shift may, and else down.
    pub fn product_code(self, a: u32, b: u32, s: u32) -> Code
        ensures { code_of result ≡ machine.Mul (product_round (round_of self) s) a b s }
    {
        self.of_product_shift(s).product(a, b, s)
    }

    /// The copy `a / 2^s` of words of `width` bits, likewise, also where no program has such a shift or such words.
    pub fn copy_code(self, width: u32, a: u32, s: i32) -> Code
        ensures { code_of result ≡ machine.Copy (copy_round (round_of self) width s) a s }
    {
        self.of_copy_shift(width, i64::from(s)).copy(a, s)
    }
}

/// To the nearest where a copy may be rounded so, and else down.
fn near_copy_round(width: u32, s: i64) -> Round
    ensures { round_of result ≡ copy_round machine.Nearest width s }
{
    if 1 <= s && s <= i64::from(width) {
        Round::Nearest
    } else {
        Round::Floor
    }
}

/// Whether a code of words of `width` bits rounds so.
fn rounds_by(code: Code, round: Round, width: u32) -> bool
    requires { IsWidth width }
    ensures { IsTrue result ↔ RoundsBy (round_of round) width (code_of code) }
{
    match code.kind() {
        Kind::Mul { r, s, .. } => r == round.of_product_shift(s),
        Kind::Copy { r, s, .. } => r == round.of_copy_shift(width, s),
        _ => true,
    }
}

/// Whether each of these does.
fn all_round_by(codes: &[Code], round: Round, width: u32) -> bool
    requires { IsWidth width }
    ensures { IsTrue result ↔ All (λ code. RoundsBy (round_of round) width (code_of code)) codes.now }
{
    for i in 0..codes.len() {
        if !rounds_by(codes[i], round, width) {
            return false;
        }
    }
    true
}

impl Program {
    /// Whether its codes round so, and its version is the one that this way to round came with.
    pub fn is_rounded_by(&self, round: Round) -> bool
        ensures { IsTrue result ↔ IsRoundedBy (round_of round) self.now }
    {
        self.keeps();
        self.version == round.first_version() && all_round_by(&self.codes, round, self.width)
    }
}
