//! A certified program without states as what a row does: rows are held back until there are sixteen, which go through
//! the program side by side.
//!
//! Where it settles with few of them they go one after the other: sixteen lanes cost as much as three or four rows.
ghost use Rattle.std.specs.Prelude.{◌≡◌, ◌≤◌, ◌<◌, ◌*◌, [], length, map, IfOk, OnOk};
ghost use Rattle.fx_rational.specs.Decimal.{decimal_value};
ghost use Rattle.fx_model.specs.Machine.{start_words};
ghost use Rattle.fx_model.specs.Rows.{IsInRange};
ghost use Rattle.fx_stream.specs.Rooms.{HasRoom};
ghost use Rattle.fx_checker.specs.CertifiedView.{IsStepReady};
ghost use Rattle.fx_lanes.specs.RowsSideBySide.{row_at};
ghost use Rattle.fx_run.specs.Blocks.{IsBlockInRange, ArePut, CanHold, first_rows};

use crate::block::put_behind;
use crate::lanes::certified_lanes;
use crate::step::run_row;
use crate::words::{Lane, put_header, put_words};
use fx_checker::Certified;
use fx_expr::Function;
use fx_fraction::Decimal;
use fx_lanes::{LaneRegisters, SideBySide};
use fx_machine::Registers;
use fx_num::Memory;
use fx_stream::{Page, RowStep};
use std::alloc::Global;

// Fewer rows than these are quicker one after the other.
const FEW: usize = 4;

/// A certified program without states, and the rows that it holds back.
#[derive(Drop)]
pub(crate) struct HeldStep<'a, const B: u32, L: SideBySide<B>> {
    pub(crate) certified: &'a Certified,
    pub(crate) registers: Registers<B>,
    pub(crate) lanes: LaneRegisters<B, L>,
    // sixteen rows, one behind the other
    pub(crate) rows: Vec<Decimal>,
    // how many of them are held
    pub(crate) held: usize,
    // whether all sixteen were put once
    pub(crate) filled: bool,
}

// How many inputs there are.
fn input_count(certified: &Certified) -> usize
    ensures value { result ≡ certified.now.program.inputs }
    ensures few { result ≤ 64 }
{
    certified.program().keeps();
    certified.program().inputs as usize
}

// A row in range has a number for each input.
fn row_counts(certified: &Certified, row: &[Decimal])
    requires { IsInRange certified.now.function.inputs (map decimal_value row.now) }
    ensures value { length row.now ≡ certified.now.program.inputs }
    ensures few { length row.now ≤ 64 }
{
    certified.certified();
    certified.program().keeps();
    let _ = row.len();
}

// Row `k` of rows of `n` numbers each, that lie one behind the other.
fn row_of(rows: &[Decimal], n: usize, k: usize) -> &[Decimal]
    requires many { length rows.now ≡ 16 * n }
    requires few { n ≤ 64 }
    requires within { k < 16 }
    ensures { result.now ≡ row_at n k rows.now }
{
    &rows[k * n..k * n + n]
}

// Carries out the first rows of a block, and puts their lines.
fn put_in_turn<const B: u32>(
    certified: &Certified,
    registers: &mut Registers<B>,
    rows: &[Decimal],
    count: usize,
    page: &mut Page,
)
    requires width { certified.now.program.width ≡ B }
    requires states { certified.now.program.states ≡ 0 }
    requires ready { IsStepReady certified.now registers.old.words registers.old.states }
    requires none { registers.old.states ≡ [] }
    requires many { length rows.now ≡ 16 * certified.now.program.inputs }
    requires in_range { IsBlockInRange certified.now.function.inputs certified.now.program.inputs rows.now }
    requires few { count ≤ 16 }
    requires room { HasRoom page.old }
    ensures ready { IsStepReady certified.now registers.new.words registers.new.states }
    ensures none { registers.new.states ≡ [] }
    ensures put { ArePut certified.now.program
        (first_rows certified.now.program.inputs count rows.now) page.old page.new }
{
    let n = input_count(certified);
    for k in 0..count {
        run_row::<B>(certified, registers, row_of(rows, n, k), page);
    }
}

// Carries out sixteen rows side by side, and puts the lines of the first.
fn put_side_by_side<const B: u32, L: SideBySide<B>>(
    certified: &Certified,
    lanes: &mut LaneRegisters<B, L>,
    rows: &[Decimal],
    count: usize,
    page: &mut Page,
)
    requires width { certified.now.program.width ≡ B }
    requires lane_room { L.HasRoom }
    requires states { certified.now.program.states ≡ 0 }
    requires words { length lanes.old ≡ length certified.now.program.codes }
    requires many { length rows.now ≡ 16 * certified.now.program.inputs }
    requires in_range { IsBlockInRange certified.now.function.inputs certified.now.program.inputs rows.now }
    requires few { count ≤ 16 }
    requires room { HasRoom page.old }
    ensures words { length lanes.new ≡ length certified.now.program.codes }
    ensures put { ArePut certified.now.program
        (first_rows certified.now.program.inputs count rows.now) page.old page.new }
{
    certified_lanes::<B, L>(certified, lanes, rows);
    for k in 0..count {
        put_words(
            page,
            certified.program(),
            &Lane {
                registers: &*lanes,
                k,
            },
        );
    }
}

impl<'a, const B: u32, L: SideBySide<B>> HeldStep<'a, B, L> {
    /// A certified program without states before its first row.
    pub(crate) fn new(alloc: Global, certified: &'a Certified) -> Result<HeldStep<'a, B, L>, Memory>
        requires width { certified.now.program.width ≡ B }
        requires lane_room { L.HasRoom }
        requires states { certified.now.program.states ≡ 0 }
        ensures whose { IfOk result (λ s. s.certified.now ≡ certified.now) }
        ensures can { IfOk result
            (λ s. CanHold L.HasRoom certified.now B s.registers s.lanes s.rows.items s.held s.filled) }
        ensures none_held { IfOk result (λ s. s.held ≡ 0) }
        ensures start { OnOk result (start_words certified.now.program.codes ≡ []) }
    {
        certified.certified();
        let n = input_count(certified);
        let zero = Decimal { a: 0, b: 0 };
        let Ok(rows) = vec![in alloc; zero; 16 * n] else {
            return Err(Memory);
        };
        let Ok(registers) = Registers::<B>::new(alloc, certified.program()) else {
            return Err(Memory);
        };
        let Ok(lanes) = LaneRegisters::<B, L>::new(alloc, certified.program()) else {
            return Err(Memory);
        };
        Ok(HeldStep {
            certified,
            registers,
            lanes,
            rows,
            held: 0,
            filled: false,
        })
    }
}

impl<'a, const B: u32, L: SideBySide<B>> RowStep for HeldStep<'a, B, L> {
    ghost use Rattle.std.specs.Prelude.{[], ◌≡◌, ◌++◌};
    ghost use Rattle.fx_model.specs.Page.{line_of, names_from};
    ghost use Rattle.fx_run.specs.Blocks.{CanHold, first_rows, nothing_held};
    ghost use Rattle.fx_run.specs.Steps.{lines_from};

    ghost meaning = { λ s. s.certified.now.function };

    ghost can_run = { λ s. CanHold L.HasRoom s.certified.now B s.registers s.lanes s.rows.items s.held s.filled };

    ghost holds_none = { λ s. s.held ≡ 0 };

    ghost head = { λ s. line_of (names_from 1 s.certified.now.program.outputs) };

    ghost printed = { λ s rows. lines_from s.certified.now.program
        (first_rows s.certified.now.program.inputs s.held s.rows.items ++ rows) [] };

    fn function(&self) -> &Function {
        self.certified.function()
    }

    fn put_head(&self, page: &mut Page) {
        put_header(page, self.certified.program());
    }

    fn put_row(&mut self, row: &[Decimal], page: &mut Page) {
        row_counts(self.certified, row);
        put_behind(&mut self.rows, self.held, self.filled, row);
        self.filled = true;
        if self.held < 15 {
            self.held += 1;
        } else {
            put_side_by_side::<B, L>(self.certified, &mut self.lanes, &self.rows, 16, page);
            self.held = 0;
        }
    }

    fn put_held(&mut self, page: &mut Page) {
        if self.held == 0 {
            return;
        }
        if self.held < FEW {
            put_in_turn::<B>(
                self.certified,
                &mut self.registers,
                &self.rows,
                self.held,
                page,
            );
        } else {
            put_side_by_side::<B, L>(self.certified, &mut self.lanes, &self.rows, self.held, page);
        }
        self.held = 0;
    }

    ghost none = { λ s none_held.
        nothing_held s.certified.now.program s.certified.now.program.inputs s.held s.rows.items none_held };
}
