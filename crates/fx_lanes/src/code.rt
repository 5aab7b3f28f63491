//! The words of one code, in sixteen rows.

ghost use Rattle.std.specs.Prelude.{◌≡◌, ◌<◌, ◌≤◌, ◌+◌, ◌*◌, ℕ, [], pos, map, length, IsSome, Some, slice_index_or};
ghost use Rattle.fx_rational.specs.Decimal.{decimal_value, quantised};
ghost use Rattle.fx_rational.specs.Decimal as rational;
ghost use Rattle.fx_model.specs.LawfulProgram.{IsPoint};
ghost use Rattle.fx_model.specs.Machine.{IsWord};
ghost use Rattle.fx_model.specs.Tree.{at};
ghost use Rattle.fx_word.specs.Words.{IsWidth};
ghost use Rattle.fx_program.specs.CodeView.{code_of};
ghost use Rattle.fx_machine.specs.Codes.{Computes, HasOneShift, IsCodeAt, word_of};
ghost use Rattle.fx_lanes.specs.RowsSideBySide.{AreWordsAt, AreWordsOf, GoesInLanes, row_at, lane};

use crate::side_by_side::SideBySide;
use fx_fraction::{Decimal, quantise};
use fx_program::Code;

// the words of an earlier code
#[inline(always)]
fn lanes_at<const B: u32, L: SideBySide<B>>(words: &[L], a: u32) -> L
    requires { a < length words.now }
    ensures { AreWordsAt (map L.words words.now) a (L.words result) }
{
    let found = words[a as usize];
    found.keeps();
    found
}

// the word of a number at a point
#[inline]
fn input_word<const B: u32>(number: Decimal, f: i32) -> i64
    requires width { IsWidth B }
    requires point { IsPoint f }
    requires word { IsWord B (quantised number f) }
    ensures { result ≡ quantised number f }
{
    quantise(number, f) as i64
}

// the words of input `k` in sixteen rows
#[inline]
fn input_lanes<const B: u32, L: SideBySide<B>>(rows: &[Decimal], inputs: usize, k: u32, f: i32) -> L
    requires width { IsWidth B }
    requires room { L.HasRoom }
    requires many { length rows.now ≡ 16 * inputs }
    requires few { inputs ≤ 64 }
    requires within { k < inputs }
    requires point { IsPoint f }
    requires words { (j : ℕ) (d : rational.Decimal) → j < 16 →
        IsWord B (quantised (slice_index_or rows.now (j * inputs + k) d) f) }
    ensures { (j : ℕ) (d : rational.Decimal) → j < 16 →
        at (pos 0) (L.words result) j ≡ quantised (slice_index_or rows.now (j * inputs + k) d) f }
{
    let mut words = [0i64; 16];
    for j in 0..16usize {
        words[j] = input_word::<B>(rows[j * inputs + k as usize], f);
    }
    L::of(words)
}

/// The words of a product, a quotient or a copy, which have one shift.
#[inline(always)]
fn scaled_lanes<const B: u32, L: SideBySide<B>>(code: &Code, words: &[L]) -> L
    requires width { IsWidth B }
    requires room { L.HasRoom }
    requires one_shift { HasOneShift (code_of code.now) }
    requires lawful { IsCodeAt B 0 0 (length words.now) (code_of code.now) }
    requires goes { GoesInLanes B (code_of code.now) (map L.words words.now) }
    ensures { AreWordsOf B (code_of code.now) (map L.words words.now) (L.words result) }
{
    match *code {
        Code::Mul { a, b, s } => lanes_at::<B, L>(words, a).mul_shift(
            lanes_at::<B, L>(words, b),
            s,
        ),
        Code::MulNear { a, b, s } => {
            lanes_at::<B, L>(words, a).mul_near(lanes_at::<B, L>(words, b), s)
        }
        Code::Div { a, b, s } => lanes_at::<B, L>(words, a).div_shift(
            lanes_at::<B, L>(words, b),
            s,
        ),
        Code::Copy { a, s } => lanes_at::<B, L>(words, a).copy_shift(s),
        Code::CopyNear { a, s } => lanes_at::<B, L>(words, a).copy_near(s),
        _ => unreachable!(),
    }
}

/// The words of a code that computes with words alone.
#[inline(always)]
fn computed_lanes<const B: u32, L: SideBySide<B>>(code: &Code, words: &[L]) -> L
    requires width { IsWidth B }
    requires room { L.HasRoom }
    requires computes { Computes (code_of code.now) }
    requires lawful { IsCodeAt B 0 0 (length words.now) (code_of code.now) }
    requires goes { GoesInLanes B (code_of code.now) (map L.words words.now) }
    ensures { AreWordsOf B (code_of code.now) (map L.words words.now) (L.words result) }
{
    match *code {
        Code::Neg { a } => lanes_at::<B, L>(words, a).neg(),
        Code::Add { a, b, sa, sb } => {
            lanes_at::<B, L>(words, a).add_shifted(sa, lanes_at::<B, L>(words, b), sb)
        }
        Code::Sub { a, b, sa, sb } => {
            lanes_at::<B, L>(words, a).sub_shifted(sa, lanes_at::<B, L>(words, b), sb)
        }
        _ => scaled_lanes::<B, L>(code, words),
    }
}

/// The words of a code in sixteen rows, from those of the codes before it.
#[inline(always)]
pub(crate) fn code_lanes<const B: u32, L: SideBySide<B>>(
    code: &Code,
    inputs: usize,
    rows: &[Decimal],
    words: &[L],
) -> L
    requires width { IsWidth B }
    requires room { L.HasRoom }
    requires many { length rows.now ≡ 16 * inputs }
    requires few { inputs ≤ 64 }
    requires lawful { IsCodeAt B inputs 0 (length words.now) (code_of code.now) }
    requires runs { (k : ℕ) → k < 16 →
        IsSome (word_of B (code_of code.now) (map decimal_value (row_at inputs k rows.now)) []
        (lane k (map L.words words.now))) }
    ensures { (k : ℕ) → k < 16 →
        word_of B (code_of code.now) (map decimal_value (row_at inputs k rows.now)) [] (lane k (map L.words words.now))
        ≡ Some (at (pos 0) (L.words result) k) }
{
    match *code {
        Code::Input { k, f } => input_lanes::<B, L>(rows, inputs, k, f),
        Code::State { .. } => unreachable!(),
        Code::Const { w, .. } => L::splat(w),
        _ => computed_lanes::<B, L>(code, words),
    }
}
