//! The words of all codes in sixteen rows, one code after the other.

ghost use Rattle.std.specs.Prelude.{◌≡◌, ◌<◌, ◌≤◌, ◌+◌, ◌*◌, ℕ, [], map, length, take, drop, IsSome, Some};
ghost use Rattle.fx_rational.specs.Decimal.{decimal_value};
ghost use Rattle.fx_model.specs.Machine.{words_after};
ghost use Rattle.fx_word.specs.Words.{IsWidth};
ghost use Rattle.fx_program.specs.CodeView.{code_of};
ghost use Rattle.fx_machine.specs.Codes.{AreCodes};
ghost use Rattle.fx_lanes.specs.RowsSideBySide.{row_at, lane};

use crate::code::code_lanes;
use crate::side_by_side::SideBySide;
use fx_fraction::Decimal;
use fx_program::Code;

// Carries out code `i`, behind those before it.
#[inline(always)]
fn run_one<const B: u32, L: SideBySide<B>>(
    codes: &[Code],
    i: usize,
    inputs: usize,
    rows: &[Decimal],
    words: &mut [L],
)
    requires width { IsWidth B }
    requires room { L.HasRoom }
    requires many { length rows.now ≡ 16 * inputs }
    requires few { inputs ≤ 64 }
    requires sizes { length words.old ≡ length codes.now }
    requires within { i < length codes.now }
    requires lawful { AreCodes B inputs 0 (map code_of codes.now) }
    requires runs { (k : ℕ) → k < 16 →
        IsSome (words_after B (map code_of (drop i codes.now)) (map decimal_value (row_at inputs k rows.now)) []
        (lane k (map L.words (take i words.old)))) }
    ensures sizes { length words.new ≡ length codes.now }
    ensures goes_on { (k : ℕ) → k < 16 →
        words_after B (map code_of (drop (i + 1) codes.now)) (map decimal_value (row_at inputs k rows.now)) []
        (lane k (map L.words (take (i + 1) words.new)))
        ≡ words_after B (map code_of (drop i codes.now)) (map decimal_value (row_at inputs k rows.now)) []
        (lane k (map L.words (take i words.old))) }
{
    let word = code_lanes::<B, L>(&codes[i], inputs, rows, &words[..i]);
    words[i] = word;
}

/// Carries out the codes in order for sixteen rows, that lie one behind the other.
pub fn run_lanes<const B: u32, L: SideBySide<B>>(
    codes: &[Code],
    inputs: usize,
    rows: &[Decimal],
    words: &mut [L],
)
    requires width { IsWidth B }
    requires room { L.HasRoom }
    requires many { length rows.now ≡ 16 * inputs }
    requires few { inputs ≤ 64 }
    requires sizes { length words.old ≡ length codes.now }
    requires lawful { AreCodes B inputs 0 (map code_of codes.now) }
    requires runs { (k : ℕ) → k < 16 →
        IsSome (words_after B (map code_of codes.now) (map decimal_value (row_at inputs k rows.now)) [] []) }
    ensures sizes { length words.new ≡ length codes.now }
    ensures words { (k : ℕ) → k < 16 →
        words_after B (map code_of codes.now) (map decimal_value (row_at inputs k rows.now)) [] []
        ≡ Some (lane k (map L.words words.new)) }
{
    for i in 0..codes.len() {
        run_one::<B, L>(codes, i, inputs, rows, words);
    }
}
