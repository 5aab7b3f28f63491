//! What is certified, with a word for each code, each in its own width.
//!
//! All room is made before the first row, so that a turn takes no memory and refuses nothing.
ghost use Rattle.std.specs.Prelude.{◌≡◌, ◌<◌, List, pos, length, map, replicate, set, Contains, IfOk};
ghost use Rattle.fx_rational.specs.Rational.{Rational};
ghost use Rattle.fx_rational.specs.Decimal.{decimal_value};
ghost use Rattle.fx_model.specs.LawfulProgram.{widths};
ghost use Rattle.fx_model.specs.Machine.{IsWord, output_points};
ghost use Rattle.fx_model.specs.Rows.{IsInRange, IsTrueOf};
ghost use Rattle.fx_model.specs.Tree.{at};
ghost use Rattle.fx_inequalities.specs.Near.{IsNear};
ghost use Rattle.fx_sound.specs.Soundness.{StepIsNear};
ghost use Rattle.fx_program.specs.CodeView.{code_of};
ghost use Rattle.fx_machine.specs.Steps.{step_taken};
ghost use Rattle.fx_mixed.specs.Packed.{packed};
ghost use Rattle.fx_statements.specs.Widths.{FitWidths};
ghost use Rattle.fx_mixed.specs.Mixing.{IsMixed, IsStored, IsTurned, first_word, first_words, states_among, widths_of};

use crate::Bank;
use crate::turn::turn_at;
use crate::widths::least_widths;
use fx_checker::Certified;
use fx_fraction::Decimal;
use fx_num::Memory;
use fx_program::{Code, Program};
use fx_run::StepWords;
use fx_sound::{start_law, step_law};
use fx_widths::states_fit_law;
use fx_word::widths;
use std::alloc::Global;
use std::marker::Model;

// The start word of a state's code, in its place; others stay.
fn put_start(code: Code, n: usize, bank: &mut Bank)
    requires within { n < length bank.old.widths }
    requires zero { at (pos 0) bank.old.words n ≡ pos 0 }
    requires fits { IsWord (at 0 bank.old.widths n) (first_word (code_of code)) }
    ensures widths { bank.new.widths ≡ bank.old.widths }
    ensures words { bank.new.words ≡ set bank.old.words n (first_word (code_of code)) }
{
    bank.keeps();
    if let Code::State { w, .. } = code {
        bank.set_word(n, w);
    }
}

// The start words of all states.
fn put_starts(codes: &[Code], bank: &mut Bank)
    requires counted { length bank.old.widths ≡ length codes.now }
    requires zeros { bank.old.words ≡ replicate (length codes.now) (pos 0) }
    requires fits { FitWidths bank.old.widths (map first_word (map code_of codes.now)) }
    ensures widths { bank.new.widths ≡ bank.old.widths }
    ensures words { bank.new.words ≡ map first_word (map code_of codes.now) }
{
    for n in 0..codes.len() {
        put_start(codes[n], n, bank);
    }
}

// A bank for what is certified, before the first row.
fn first_bank(alloc: Global, certified: &Certified) -> Result<Bank, Memory>
    ensures stored { IfOk result (λ bank. IsStored certified.now bank.widths bank.words) }
    ensures words { IfOk result (λ bank. bank.words ≡ first_words certified.now.program) }
{
    certified.certified();
    certified.function().keeps();
    certified.program().keeps();
    start_law();
    states_fit_law();
    let widths = least_widths(alloc, certified)?;
    let mut bank = Bank::new(alloc, widths)?;
    put_starts(certified.program().codes.as_slice(), &mut bank);
    Ok(bank)
}

// The word of output `j` among words in a bank, and its point.
fn output_in(bank: &Bank, program: &Program, j: u32) -> (i64, i32)
    requires words { length bank.now.words ≡ length program.now.codes }
    requires within { j < program.now.outputs }
    ensures word { result.0 ≡ at (pos 0) (step_taken program.now bank.now.words).outputs j }
    ensures point { result.1 ≡ at (pos 0) (output_points program.now) j }
{
    program.keeps();
    bank.keeps();
    let copies = program.outputs as usize + program.states as usize;
    let n = program.codes.len() - copies + j as usize;
    (bank.word(n), program.point(n as u32))
}

// The width of a certified program, which is one of the eight.
fn width_of(certified: &Certified) -> u32
    ensures value { result ≡ certified.now.program.width }
    ensures lawful { Contains widths result }
{
    certified.certified();
    certified.program().width
}

/// What is certified, and a word for each code, each in its own width.
///
/// The words are those of the last row, and 0 before the first, but in the places of the states stand those of the next
/// row.
#[derive(Drop)]
pub struct Mixed<'a> {
    certified: &'a Certified,
    bank: Bank,
}

impl<'a> Model for Mixed<'a> {
    ghost use Rattle.std.specs.Coded.{codes};
    ghost use Rattle.fx_expr.specs.Coding.{function_code};
    ghost use Rattle.fx_mixed.specs.Mixing.{Mixing, IsStored};

    ghost Value = { Mixing };

    ghost coded = { Prim.hlevel (codes, function_code) };

    ghost view = { λ m. record { accepted = m.certified.now; words = m.bank.words } };

    ghost invariant = { λ m. IsStored m.certified.now m.bank.widths m.bank.words };
}

impl<'a> Mixed<'a> {
    /// What is certified before its first row. All room is made here.
    pub fn new(alloc: Global, certified: &'a Certified) -> Result<Mixed<'a>, Memory>
        ensures { IfOk result (λ m. m ≡ record {
          accepted = certified.now;
          words = first_words certified.now.program;
        }) }
    {
        let bank = first_bank(alloc, certified)?;
        Ok(Mixed { certified, bank })
    }

    /// The least width of each code, in bits.
    pub fn widths(&self) -> &[u32]
        ensures { result.now ≡ widths_of self.now.accepted }
    {
        self.bank.widths()
    }

    /// The words as they lie in memory: each in so many bytes as its width has, the least byte first, in two's
    /// complement.
    pub fn bytes(&self) -> &[u8]
        ensures { result.now ≡ packed (widths_of self.now.accepted) self.now.words }
    {
        self.bank.bytes()
    }

    /// Carries out a row, and puts the next states' words in the places of the states.
    ///
    /// No word leaves its own width and no divisor is zero. For every exact state that the state words are near and
    /// every row true of the given one, the exact step is there and the machine's is near it.
    pub fn turn(&mut self, row: &[Decimal])
        requires { IsInRange self.old.accepted.function.inputs (map decimal_value row.now) }
        ensures accepted { self.new.accepted ≡ self.old.accepted }
        ensures turned { IsTurned self.old.accepted (map decimal_value row.now) self.old.words self.new.words }
        ensures near { (true_row state : List Rational) →
            IsTrueOf self.old.accepted.function.inputs (map decimal_value row.now) true_row →
            IsNear self.old.accepted.function self.old.accepted.program self.old.accepted.certificate
            (states_among self.old.accepted.program self.old.words) state →
            StepIsNear self.old.accepted.function self.old.accepted.program self.old.accepted.certificate
            (map decimal_value row.now) true_row (states_among self.old.accepted.program self.old.words) state }
    {
        self.certified.certified();
        step_law();
        widths!(
            width_of(self.certified),
            turn_at(self.certified, row, &mut self.bank),
            unreachable!()
        )
    }

    /// The word of output `j`, which is 0 before the first row, and its point.
    pub fn mixed_output(&self, j: u32) -> (i64, i32)
        requires { j < self.now.accepted.program.outputs }
        ensures word { result.0 ≡ at (pos 0) (step_taken self.now.accepted.program self.now.words).outputs j }
        ensures point { result.1 ≡ at (pos 0) (output_points self.now.accepted.program) j }
    {
        output_in(&self.bank, self.certified.program(), j)
    }

    /// Each word that is stored lies in its own width, and the state words are near some exact state: before the first
    /// row, and behind each.
    pub fn keeps(&self)
        ensures { IsMixed self.now.accepted self.now.words }
    {
        self.bank.keeps();
    }

    // What is certified.
    pub(crate) fn certified(&self) -> &'a Certified
        ensures { result.now ≡ self.now.accepted }
    {
        self.certified
    }
}

impl<'a> StepWords for Mixed<'a> {
    ghost words = { λ m. m.words };

    fn output_at(&self, program: &Program, j: u32) -> (i64, i32) {
        output_in(&self.bank, program, j)
    }
}
