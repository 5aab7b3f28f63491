//! The loop: the next line, and what is printed of it.
ghost use Rattle.std.specs.Prelude.{◌≡◌, ◌-◌, ◌^◌, ◌<◌, []};
ghost use Rattle.fx_stream.specs.Outcome.{one};
ghost use Rattle.fx_stream.specs.Ending.{EndsRun, streams};
ghost use Rattle.fx_stream.specs.Running.{fresh_lines};

use crate::ask::{end_at, next, stop_at, take_line};
use crate::fault::RunFault;
use crate::page::Page;
use crate::printer::Printer;
use fx_base::{LineStep, Lines, Sink, Source};
use std::alloc::Global;

// One more at a row.
fn one(is_row: bool) -> u64
    ensures { result ≡ one is_row }
{
    u64::from(is_row)
}

// Runs a printer over lines of which none was taken yet.
fn run_on<P: Printer, S: Source<K>, K: Sink>(
    lines: &mut Lines,
    page: &mut Page,
    printer: &mut P,
    source: &mut S,
    sink: &mut K,
) -> Result<u64, RunFault<P::Flaw>>
    requires fresh { lines.old ≡ fresh_lines lines.old.limit }
    requires limit { lines.old.limit < 2 ^ 64 - 1 }
    requires empty { page.old ≡ [] }
    requires can { P.can_take printer.old }
    requires none_held { P.holds_none printer.old }
    ensures { let at = streams S.seen K.seen in
        EndsRun P.told (P.outcome printer.old) lines.old.limit
        (at source.old sink.old) (at source.new sink.new) result }
{
    let mut count = 0;
    'lines: loop {
        match next::<P, S, K>(lines, printer, page, source, sink) {
            Ok(LineStep::Line) => match take_line(lines, printer, page) {
                Ok(is_row) => count += one(is_row),
                Err(stop) => return Err(stop_at(lines.number(), stop, page, sink)),
            },
            Ok(LineStep::End) => return end_at(lines.number(), printer, count),
            Err(fault) => return Err(fault),
        }
    }
}

/// Runs a printer over the lines of a source, and writes what it prints before each read. Gives the number of rows.
pub fn run_lines<P: Printer, S: Source<K>, K: Sink>(
    alloc: Global,
    printer: &mut P,
    source: &mut S,
    sink: &mut K,
    limit: u64,
) -> Result<u64, RunFault<P::Flaw>>
    requires limit { limit < 2 ^ 64 - 1 }
    requires can { P.can_take printer.old }
    requires none_held { P.holds_none printer.old }
    ensures { let at = streams S.seen K.seen in
        EndsRun P.told (P.outcome printer.old) limit (at source.old sink.old) (at source.new sink.new) result }
{
    let Ok(mut page) = Page::new(alloc) else {
        return Err(RunFault::Memory);
    };
    let Ok(mut lines) = Lines::new(alloc, limit) else {
        return Err(RunFault::Memory);
    };
    run_on(&mut lines, &mut page, printer, source, sink)
}
