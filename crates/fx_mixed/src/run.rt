//! The run of what is certified over a source and a sink, each word in its own width.
//!
//! What is printed and when it is written is just what `run_rows` of `fx_run` prints and writes: the loop over the rows
//! is the same, and the machine's codes are too.
ghost use Rattle.std.specs.Prelude.{◌≡◌, ◌-◌, ◌^◌, ◌<◌, ◌++◌, ◌∷◌, ℕ, List, map};
ghost use Rattle.fx_rational.specs.Decimal.{decimal_value};
ghost use Rattle.fx_rational.specs.Decimal as rational;
ghost use Rattle.fx_model.specs.Rows.{IsInRange};
ghost use Rattle.fx_rows.specs.Faults.{row_fault_of};
ghost use Rattle.fx_stream.specs.Ending.{EndsRun, streams};
ghost use Rattle.fx_stream.specs.Rooms.{HasLineRoom};
ghost use Rattle.fx_run.specs.Printed.{RowsLaw, run_outcome};
ghost use Rattle.fx_run.specs.Steps.{lines_from};
ghost use Rattle.fx_mixed.specs.Mixing.{states_among};

use crate::mixed::Mixed;
use fx_base::{Sink, Source};
use fx_checker::Certified;
use fx_expr::Function;
use fx_fraction::Decimal;
use fx_run::{RunFault, put_header, put_words, rows_law};
use fx_stream::{Page, RowStep, run_steps};
use std::alloc::Global;

// Carries out a row, and puts its line.
fn turn_row(mixed: &mut Mixed, row: &[Decimal], page: &mut Page)
    requires in_range { IsInRange mixed.old.accepted.function.inputs (map decimal_value row.now) }
    requires room { HasLineRoom page.old }
    ensures accepted { mixed.new.accepted ≡ mixed.old.accepted }
    ensures put { (text : List ℕ) × (page.new ≡ page.old ++ text)
        × ((rest : List (List rational.Decimal)) →
        lines_from mixed.old.accepted.program (row.now ∷ rest)
        (states_among mixed.old.accepted.program mixed.old.words)
        ≡ text ++ lines_from mixed.new.accepted.program rest
        (states_among mixed.new.accepted.program mixed.new.words)) }
{
    mixed.certified().certified();
    mixed.turn(row);
    mixed.keeps();
    put_words(page, mixed.certified().program(), &*mixed);
}

impl<'a> RowStep for Mixed<'a> {
    ghost use Rattle.std.specs.Prelude.{⊤};
    ghost use Rattle.fx_model.specs.Page.{line_of, names_from};
    ghost use Rattle.fx_run.specs.Steps.{lines_from, nothing_from};
    ghost use Rattle.fx_mixed.specs.Mixing.{states_among};

    ghost meaning = { λ m. m.accepted.function };

    ghost can_run = { λ _. ⊤ };

    ghost holds_none = { λ _. ⊤ };

    ghost head = { λ m. line_of (names_from 1 m.accepted.program.outputs) };

    ghost printed = { λ m rows. lines_from m.accepted.program rows (states_among m.accepted.program m.words) };

    fn function(&self) -> &Function {
        self.certified().function()
    }

    fn put_head(&self, page: &mut Page) {
        put_header(page, self.certified().program());
    }

    fn put_row(&mut self, row: &[Decimal], page: &mut Page) {
        turn_row(self, row, page);
    }

    // Each row is printed at once.
    fn put_held(&mut self, _page: &mut Page) {}

    ghost none = { λ m _. nothing_from m.accepted.program (states_among m.accepted.program m.words) };
}

/// Runs the rows of a source through what is certified, each word in its own width, and writes their page. Gives the
/// number of rows.
///
/// The page, the order of reads and writes and every fault are those of `run_rows` of `fx_run`.
pub fn run_mixed<S: Source<K>, K: Sink>(
    alloc: Global,
    certified: &Certified,
    source: &mut S,
    sink: &mut K,
    limit: u64,
) -> Result<u64, RunFault>
    requires limit { limit < 2 ^ 64 - 1 }
    ensures ends { let at = streams S.seen K.seen in
        EndsRun row_fault_of (run_outcome certified.now.function certified.now.program) limit
        (at source.old sink.old) (at source.new sink.new) result }
    ensures honest { RowsLaw certified.now.function certified.now.program certified.now.certificate }
{
    certified.certified();
    rows_law(certified);
    let Ok(mixed) = Mixed::new(alloc, certified) else {
        return Err(RunFault::Memory);
    };
    run_steps(alloc, mixed, source, sink, limit)
}
