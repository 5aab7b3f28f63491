//! One row through a program whose words stand in a bank.
//!
//! Each code's word is written over the last row's. A state's code reads the state and writes it back, so that the
//! states stand there until all codes are done; then the next states take their places.
ghost use Rattle.std.specs.Prelude.{◌≡◌, ◌+◌, ◌≤◌, ◌<◌, ℕ, ℤ, List, pos, length, map, take, drop, All, IsSome, Some};
ghost use Rattle.fx_rational.specs.Decimal.{decimal_value};
ghost use Rattle.fx_model.specs.Machine.{IsWord, Const, words_after, words_of};
ghost use Rattle.fx_model.specs.Rows.{IsInRange};
ghost use Rattle.fx_model.specs.Tree.{at};
ghost use Rattle.fx_word.specs.Words.{IsWidth};
ghost use Rattle.fx_program.specs.CodeView.{code_of};
ghost use Rattle.fx_machine.specs.Codes.{AreCodes, word_of};
ghost use Rattle.fx_machine.specs.Steps.{step_taken};
ghost use Rattle.fx_statements.specs.Widths.{FitWidths};
ghost use Rattle.fx_mixed.specs.Mixing.{IsStored, IsTurned, carried, states_among};

use crate::Bank;
use crate::place::Places;
use fx_checker::Certified;
use fx_fraction::Decimal;
use fx_machine::code_word;
use fx_model::in_range_law;
use fx_program::{Code, Program};
use fx_sound::step_law;
use fx_widths::{own_width_law, states_fit_law};

// The word of code `n`, in the place of its last one.
#[inline(always)]
fn turn_one<const B: u32>(
    codes: &[Code],
    n: usize,
    row: &[Decimal],
    inputs: u32,
    states: u32,
    bank: &mut Bank,
)
    requires width { IsWidth B }
    requires counted { length bank.old.widths ≡ length codes.now }
    requires few { length codes.now ≤ 4000 }
    requires room { inputs + states ≤ length codes.now }
    requires within { n < length codes.now }
    requires row { length row.now ≡ inputs }
    requires lawful { AreCodes B inputs states (map code_of codes.now) }
    requires words { All (IsWord B) bank.old.words }
    requires runs { IsSome (words_after B (map code_of (drop n codes.now)) (map decimal_value row.now)
        (take states (drop inputs bank.old.words)) (take n bank.old.words)) }
    requires fits { (w : ℤ) →
        word_of B (at (Const (pos 0) (pos 0)) (map code_of codes.now) n) (map decimal_value row.now)
        (take states (drop inputs bank.old.words)) (take n bank.old.words) ≡ Some w
        → IsWord (at 0 bank.old.widths n) w }
    ensures widths { bank.new.widths ≡ bank.old.widths }
    ensures counted { length bank.new.words ≡ length bank.old.words }
    ensures words { All (IsWord B) bank.new.words }
    ensures states { take states (drop inputs bank.new.words) ≡ take states (drop inputs bank.old.words) }
    ensures goes_on { words_after B (map code_of (drop (n + 1) codes.now)) (map decimal_value row.now)
        (take states (drop inputs bank.old.words)) (take (n + 1) bank.new.words)
        ≡ words_after B (map code_of (drop n codes.now)) (map decimal_value row.now)
        (take states (drop inputs bank.old.words)) (take n bank.old.words) }
{
    bank.keeps();
    let state = Places {
        bank: &*bank,
        from: inputs,
        count: states,
    };
    let before = Places {
        bank: &*bank,
        from: 0,
        count: n as u32,
    };
    let word = code_word::<B, Places<'_>, Places<'_>>(&codes[n], row, &state, &before).get();
    bank.set_word(n, word);
}

// The words of all codes.
fn turn_codes<const B: u32>(program: &Program, row: &[Decimal], bank: &mut Bank)
    requires width { program.now.width ≡ B }
    requires counted { length bank.old.widths ≡ length program.now.codes }
    requires row { length row.now ≡ program.now.inputs }
    requires words { All (IsWord B) bank.old.words }
    requires runs { IsSome (words_of program.now (map decimal_value row.now)
        (states_among program.now bank.old.words)) }
    requires fits { (ws : List ℤ) →
        words_of program.now (map decimal_value row.now) (states_among program.now bank.old.words) ≡ Some ws →
        FitWidths bank.old.widths ws }
    ensures widths { bank.new.widths ≡ bank.old.widths }
    ensures words { words_of program.now (map decimal_value row.now) (states_among program.now bank.old.words)
        ≡ Some bank.new.words }
{
    program.keeps();
    bank.keeps();
    let codes = program.codes.as_slice();
    for n in 0..codes.len() {
        turn_one::<B>(codes, n, row, program.inputs, program.states, bank);
    }
}

// Puts the next states' words in the places of the states.
fn carry_states(program: &Program, bank: &mut Bank)
    requires counted { length bank.old.widths ≡ length program.now.codes }
    requires fits { (k : ℕ) → k < program.now.states →
        IsWord (at 0 bank.old.widths (program.now.inputs + k))
        (at (pos 0) (step_taken program.now bank.old.words).next k) }
    ensures widths { bank.new.widths ≡ bank.old.widths }
    ensures words { bank.new.words ≡ carried program.now bank.old.words }
{
    program.keeps();
    bank.keeps();
    let inputs = program.inputs as usize;
    let states = program.states as usize;
    let next = program.codes.as_slice().len() - states;
    for k in 0..states {
        let word = bank.word(next + k);
        bank.set_word(inputs + k, word);
    }
}

/// Carries out a row, at the width of the program.
pub(crate) fn turn_at<const B: u32>(certified: &Certified, row: &[Decimal], bank: &mut Bank)
    requires width { certified.now.program.width ≡ B }
    requires stored { IsStored certified.now bank.old.widths bank.old.words }
    requires in_range { IsInRange certified.now.function.inputs (map decimal_value row.now) }
    ensures stored { IsStored certified.now bank.new.widths bank.new.words }
    ensures turned { IsTurned certified.now (map decimal_value row.now) bank.old.words bank.new.words }
{
    certified.certified();
    certified.function().keeps();
    in_range_law();
    step_law();
    own_width_law();
    states_fit_law();
    fx_machine::step_law();
    turn_codes::<B>(certified.program(), row, bank);
    carry_states(certified.program(), bank);
    bank.keeps();
}
