//! The printer of rows: the header, and then a row for each line that isn't blank.
//!
//! What a row does is behind the trait `RowStep`, so that the rows of a text are told apart from the machine.
//! The trap: the numbers of a row find their room before the first row, and a row keeps it, so that only a line that
//! `csv` has to read wants memory.
ghost use Rattle.std.specs.Prelude.{◌≡◌, ◌≢◌, ℕ, List, [], ◌∷◌, ◌++◌, ◌<◌, ◌≤◌, ◌-◌, ◌^◌, ◌⊎◌, false, Err, length, map, option_map, IfOk, IfErr, IfSome, OnOk, None};
ghost use Rattle.std.specs.List.{list_any};
ghost use Rattle.std.specs.Vec.{vec_capacity};
ghost use Rattle.fx_rational.specs.Decimal.{decimal_value};
ghost use Rattle.fx_rational.specs.Decimal as rational;
ghost use Rattle.fx_model.specs.Function as model;
ghost use Rattle.fx_model.specs.Rows.{IsInRange};
ghost use Rattle.fx_rows.specs.Line.{is_special};
ghost use Rattle.fx_rows.specs.Ranges.{reader_columns, Serves};
ghost use Rattle.fx_rows.specs.Faults.{row_fault_of};
ghost use Rattle.fx_rows.specs.declared.fault.RowKind.TheVariants as kind;
ghost use Rattle.fx_stream.specs.Rooms.{HasRoom};
ghost use Rattle.fx_stream.specs.Outcome.{behind_lines, one, behind_text, stopped_lines, IfBad};
ghost use Rattle.fx_stream.specs.Printed.{lines_outcome};
ghost use Rattle.fx_stream.specs.Ending.{EndsRun, streams};
ghost use Rattle.fx_stream.specs.declared.printer.Stop.TheVariants as stop;

use crate::fault::{LINE_TOO_LONG, NO_HEADER, RunFault};
use crate::page::Page;
use crate::printer::{Printer, Stop};
use crate::run::run_lines;
use fx_base::{Sink, Source};
use fx_expr::Function;
use fx_fraction::Decimal;
use fx_num::Memory;
use fx_rows::{RowFault, RowKind, RowReader, read_header};
use std::alloc::Global;

/// What a row does: it prints a line, and may leave a state.
pub trait RowStep {
    // The function that the rows are for.
    ghost meaning: { Self → model.Function };

    // Whether it may take a row.
    ghost can_run: { Self → Type 0 };

    // Whether no row is held back.
    ghost holds_none: { Self → Type 0 };

    // What stands before the rows.
    ghost head: { Self → List ℕ };

    // What is printed of the rows that are held back, and of these, if they are the next ones.
    ghost printed: { Self → List (List rational.Decimal) → List ℕ };

    /// The function that the rows are for.
    fn function(&self) -> &Function
        ensures { result.now ≡ meaning self.now };

    /// Appends what stands before the rows.
    fn put_head(&self, page: &mut Page)
        requires can { can_run self.now }
        requires room { HasRoom page.old }
        ensures { page.new ≡ page.old ++ head self.now };

    /// Takes the next row, and appends what is printed now.
    fn put_row(&mut self, row: &[Decimal], page: &mut Page)
        requires can { can_run self.old }
        requires room { HasRoom page.old }
        requires in_range { IsInRange (meaning self.old).inputs (map decimal_value row.now) }
        ensures can { can_run self.new }
        ensures put { (text : List ℕ) × (page.new ≡ page.old ++ text)
            × ((rest : List (List rational.Decimal)) →
            printed self.old (row.now ∷ rest) ≡ text ++ printed self.new rest) }
        ensures held { holds_none self.new ⊎ (page.new ≡ page.old) }
        ensures function { meaning self.new ≡ meaning self.old }
        ensures before { head self.new ≡ head self.old };

    /// Carries out the rows that are held back, and appends what is printed of them.
    fn put_held(&mut self, page: &mut Page)
        requires can { can_run self.old }
        requires room { holds_none self.old ⊎ HasRoom page.old }
        ensures can { can_run self.new }
        ensures none_held { holds_none self.new }
        ensures put { (text : List ℕ) × (page.new ≡ page.old ++ text)
            × ((rest : List (List rational.Decimal)) → printed self.old rest ≡ text ++ printed self.new rest) }
        ensures function { meaning self.new ≡ meaning self.old }
        ensures before { head self.new ≡ head self.old };

    // Where none is held back nothing is printed of no rows.
    ghost none: { (s : Self) → holds_none s → printed s [] ≡ [] };
}

// The header and the rows as they come.
#[derive(Drop)]
struct RowPrinter<M> {
    step: M,
    reader: Option<RowReader>,
    row: Vec<Decimal>,
    alloc: Global,
}

/// Why a row's fault stops the run: want of memory is no fault of the line.
pub fn stop_of(fault: RowFault) -> Stop<RowFault>
    ensures { (fault.kind ≡ kind.Memory × result ≡ stop.Memory) ⊎ (fault.kind ≢ kind.Memory × result ≡ stop.Bad fault) }
{
    if fault.kind == RowKind::Memory {
        Stop::Memory
    } else {
        Stop::Bad(fault)
    }
}

// The header of a line, if it isn't blank. What stands before the rows is appended.
fn take_header<M: RowStep>(
    alloc: Global,
    line: &[u8],
    step: &M,
    page: &mut Page,
) -> Result<Option<RowReader>, Stop<RowFault>>
    requires can { M.can_run step.now }
    requires room { HasRoom page.old }
    ensures serves { IfOk result (λ o. IfSome o (λ r. Serves r (M.meaning step.now))) }
    ensures taken { IfOk result (λ o. (text : List ℕ) × (page.new ≡ page.old ++ text)
        × ((rest : List (List ℕ)) →
        lines_outcome (M.meaning step.now) (M.head step.now) (M.printed step.now) None (line.now ∷ rest)
        ≡ behind_lines 1 text 0
        (lines_outcome (M.meaning step.now) (M.head step.now) (M.printed step.now)
        (option_map reader_columns o) rest))) }
    ensures bad { IfErr result (IfBad (λ fault. (page.new ≡ page.old)
        × ((rest : List (List ℕ)) →
        lines_outcome (M.meaning step.now) (M.head step.now) (M.printed step.now) None (line.now ∷ rest)
        ≡ stopped_lines (row_fault_of fault)))) }
{
    match read_header(alloc, line, step.function()) {
        Ok(None) => Ok(None),
        Ok(Some(columns)) => match RowReader::new(alloc, columns, step.function()) {
            Ok(reader) => {
                step.put_head(page);
                Ok(Some(reader))
            }
            Err(Memory) => Err(Stop::Memory),
        },
        Err(fault) => Err(stop_of(fault)),
    }
}

// The row of a line, and whether it is one. Only a line with a quote wants memory.
fn take_row<M: RowStep>(
    alloc: Global,
    line: &[u8],
    reader: &RowReader,
    step: &mut M,
    row: &mut Vec<Decimal>,
    page: &mut Page,
) -> Result<bool, Stop<RowFault>>
    requires serves { Serves reader.now (M.meaning step.old) }
    requires can { M.can_run step.old }
    requires room { HasRoom page.old }
    requires row_room { length (M.meaning step.old).inputs ≤ vec_capacity row.old }
    ensures can { OnOk result (M.can_run step.new) }
    ensures held { OnOk result (M.holds_none step.new ⊎ (page.new ≡ page.old)) }
    ensures function { OnOk result (M.meaning step.new ≡ M.meaning step.old) }
    ensures row_room { vec_capacity row.old ≤ vec_capacity row.new }
    ensures taken { IfOk result (λ is_row. (text : List ℕ) × (page.new ≡ page.old ++ text)
        × ((rest : List (List ℕ)) →
        lines_outcome (M.meaning step.old) (M.head step.old) (M.printed step.old) (Some (reader_columns reader.now))
        (line.now ∷ rest) ≡ behind_lines 1 text (one is_row)
        (lines_outcome (M.meaning step.new) (M.head step.new) (M.printed step.new)
        (Some (reader_columns reader.now)) rest))) }
    ensures bad { IfErr result (IfBad (λ fault. (text : List ℕ) × (page.new ≡ page.old ++ text)
        × ((rest : List (List ℕ)) →
        lines_outcome (M.meaning step.old) (M.head step.old) (M.printed step.old) (Some (reader_columns reader.now))
        (line.now ∷ rest) ≡ behind_text text (stopped_lines (row_fault_of fault))))) }
    ensures memory { list_any is_special line.now ≡ false → result ≢ Err stop.Memory }
{
    match reader.read(alloc, line, step.function(), row) {
        Ok(false) => Ok(false),
        Ok(true) => {
            step.put_row(row, page);
            Ok(true)
        }
        Err(fault) => {
            step.put_held(page);
            Err(stop_of(fault))
        }
    }
}

impl<M: RowStep + Drop> Printer for RowPrinter<M> {
    ghost use Rattle.std.specs.Prelude.{length, option_map, MatchOption, ◌≤◌};
    ghost use Rattle.std.specs.Vec.{vec_capacity};
    ghost use Rattle.fx_rows.specs.Faults.{RowFlaw, row_fault_of};
    ghost use Rattle.fx_rows.specs.Ranges.{reader_columns, Serves};
    ghost use Rattle.fx_stream.specs.Printed.{lines_outcome};
    ghost use Rattle.fx_stream.specs.RowLaws.{nothing_printed};

    type Flaw = RowFault;

    ghost Told = { RowFlaw };

    ghost told = { row_fault_of };

    ghost can_take = { λ s. M.can_run s.step
        × MatchOption s.reader (M.holds_none s.step) (λ r. Serves r (M.meaning s.step))
        × (length (M.meaning s.step).inputs ≤ vec_capacity s.row) };

    ghost holds_none = { λ s. M.holds_none s.step };

    ghost outcome = { λ s ls. lines_outcome (M.meaning s.step) (M.head s.step) (M.printed s.step)
        (option_map reader_columns s.reader) ls };

    fn take(&mut self, line: &[u8], page: &mut Page) -> Result<bool, Stop<RowFault>> {
        match &self.reader {
            None => match take_header(self.alloc, line, &self.step, page) {
                Ok(reader) => {
                    self.reader = reader;
                    Ok(false)
                }
                Err(stop) => Err(stop),
            },
            Some(reader) => take_row(
                self.alloc,
                line,
                reader,
                &mut self.step,
                &mut self.row,
                page,
            ),
        }
    }

    fn put_held(&mut self, page: &mut Page) {
        self.step.put_held(page);
    }

    fn too_long(&self) -> RowFault {
        LINE_TOO_LONG
    }

    fn end(&self) -> Option<RowFault> {
        if self.reader.is_some() {
            None
        } else {
            Some(NO_HEADER)
        }
    }

    ghost none = { λ s none_held. nothing_printed (M.meaning s.step) (M.head s.step) (M.printed s.step)
        (M.none s.step none_held) (option_map reader_columns s.reader) };
}

/// Runs the rows of a source, and writes their page before each read that might wait. Gives the number of rows.
pub fn run_steps<M: RowStep + Drop, S: Source<K>, K: Sink>(
    alloc: Global,
    step: M,
    source: &mut S,
    sink: &mut K,
    limit: u64,
) -> Result<u64, RunFault<RowFault>>
    requires limit { limit < 2 ^ 64 - 1 }
    requires can { M.can_run step }
    requires none_held { M.holds_none step }
    ensures { let at = streams S.seen K.seen in
        EndsRun row_fault_of (lines_outcome (M.meaning step) (M.head step) (M.printed step) None) limit
        (at source.old sink.old) (at source.new sink.new) result }
{
    let count = step.function().inputs.len();
    let Ok(row) = Vec::with_capacity(alloc, count) else {
        return Err(RunFault::Memory);
    };
    let mut printer = RowPrinter {
        step,
        reader: None,
        row,
        alloc,
    };
    run_lines(alloc, &mut printer, source, sink, limit)
}
