//! The registers of a program without states for sixteen rows, and its step.
//!
//! Contracts see a list of sixteen words for each code, whatever holds them.

ghost use Rattle.std.specs.Prelude.{◌≡◌, ◌<◌, ◌*◌, ℕ, [], pos, map, length, IsSome, Some, IfOk};
ghost use Rattle.fx_rational.specs.Decimal.{decimal_value};
ghost use Rattle.fx_model.specs.Machine.{words_of, output_points};
ghost use Rattle.fx_model.specs.Tree.{at};
ghost use Rattle.fx_machine.specs.Steps.{step_taken};
ghost use Rattle.fx_lanes.specs.RowsSideBySide.{row_at, lane};

use crate::run::run_lanes;
use crate::side_by_side::SideBySide;
use fx_fraction::Decimal;
use fx_num::Memory;
use fx_program::Program;
use std::alloc::Global;
use std::marker::Model;

/// Sixteen words for each code.
#[derive(Drop)]
pub struct LaneRegisters<const B: u32, L: SideBySide<B>> {
    words: Vec<L>,
}

impl<const B: u32, L: SideBySide<B>> Model for LaneRegisters<B, L> {
    ghost use Rattle.std.specs.Prelude.{ℤ, List, map};

    ghost Value = { List (List ℤ) };

    ghost view = { λ r. map L.words r.words.items };
}

// Carries out all codes in order for sixteen rows, that lie one behind the other.
fn step_words<const B: u32, L: SideBySide<B>>(
    program: &Program,
    words: &mut Vec<L>,
    rows: &[Decimal],
)
    requires width { program.now.width ≡ B }
    requires room { L.HasRoom }
    requires states { program.now.states ≡ 0 }
    requires words { length words.old.items ≡ length program.now.codes }
    requires many { length rows.now ≡ 16 * program.now.inputs }
    requires runs { (k : ℕ) → k < 16 →
        IsSome (words_of program.now (map decimal_value (row_at program.now.inputs k rows.now)) []) }
    ensures sizes { length words.new.items ≡ length program.now.codes }
    ensures words { (k : ℕ) → k < 16 →
        words_of program.now (map decimal_value (row_at program.now.inputs k rows.now)) []
        ≡ Some (lane k (map L.words words.new.items)) }
{
    run_lanes::<B, L>(
        program.codes.as_slice(),
        program.inputs as usize,
        rows,
        words.as_mut_slice(),
    );
}

/// Carries out all codes in order for sixteen rows, that lie one behind the other.
pub fn step_lanes<const B: u32, L: SideBySide<B>>(
    program: &Program,
    registers: &mut LaneRegisters<B, L>,
    rows: &[Decimal],
)
    requires width { program.now.width ≡ B }
    requires room { L.HasRoom }
    requires states { program.now.states ≡ 0 }
    requires words { length registers.old ≡ length program.now.codes }
    requires many { length rows.now ≡ 16 * program.now.inputs }
    requires runs { (k : ℕ) → k < 16 →
        IsSome (words_of program.now (map decimal_value (row_at program.now.inputs k rows.now)) []) }
    ensures sizes { length registers.new ≡ length program.now.codes }
    ensures words { (k : ℕ) → k < 16 →
        words_of program.now (map decimal_value (row_at program.now.inputs k rows.now)) []
        ≡ Some (lane k registers.new) }
{
    step_words::<B, L>(program, &mut registers.words, rows);
}

impl<const B: u32, L: SideBySide<B>> LaneRegisters<B, L> {
    /// The registers before the first step: zeros.
    pub fn new(alloc: Global, program: &Program) -> Result<LaneRegisters<B, L>, Memory>
        requires { L.HasRoom }
        ensures { IfOk result (λ r. length r ≡ length program.now.codes) }
    {
        let zero = L::splat(0);
        let mut words = Vec::new(alloc);
        for _ in 0..program.codes.len() {
            words.push(zero)?;
        }
        Ok(LaneRegisters { words })
    }

    // the word of code `n` in lane `k`
    fn word(&self, n: usize, k: usize) -> i64
        requires within { n < length self.now }
        requires lane { k < 16 }
        ensures { result ≡ at (pos 0) (lane k self.now) n }
    {
        self.words[n].word(k).get()
    }

    /// The word of output `j` in lane `k`, and its point.
    pub fn output(&self, program: &Program, j: u32, k: usize) -> (i64, i32)
        requires words { length self.now ≡ length program.now.codes }
        requires within { j < program.now.outputs }
        requires lane { k < 16 }
        ensures word { result.0 ≡ at (pos 0) (step_taken program.now (lane k self.now)).outputs j }
        ensures point { result.1 ≡ at (pos 0) (output_points program.now) j }
    {
        let copies = program.outputs as usize + program.states as usize;
        let n = program.codes.len() - copies + j as usize;
        (self.word(n, k), program.point(n as u32))
    }
}
