//! The rows of the input as one run, whose page is printed.
//!
//! However the words are kept, what is printed is the same, at the same times.
ghost use Rattle.std.specs.Prelude.{◌≡◌, ◌-◌, ◌^◌, ◌<◌, map};
ghost use Rattle.fx_expr.specs.Parts.{input_of};
ghost use Rattle.fx_rows.specs.Faults.{row_fault_of};
ghost use Rattle.fx_stream.specs.declared.fault.RunFault.TheVariants.{ReadFault, WriteFault, TooLong};
ghost use Rattle.fx_run.specs.Printed.{RowsLaw, run_outcome};
ghost use Rattle.fx_ends.specs.EndView.{end_of};
ghost use Rattle.fx_stream.specs.Ending.{EndsRun, streams};
ghost use Rattle.fx_bundle_commands.specs.Calls.{RunsInput};
ghost use Rattle.fx_bundle_commands.specs.Tasks.{RunRows};

use fx_base::{Sink, Source};
use fx_checker::Certified;
use fx_ends::End;
use fx_expr::Input;
use fx_mixed::run_mixed;
use fx_run::{RunFault, run_rows};
use std::alloc::Global;

/// In bytes: the longest input of rows.
pub(crate) const ROWS_LIMIT: u64 = 1_099_511_627_776;

/// The inputs of a certified function.
pub(crate) fn inputs_of(certified: &Certified) -> &[Input]
    ensures { map input_of result.now ≡ certified.now.function.inputs }
{
    certified.function().inputs.as_slice()
}

/// How the words of a run are kept.
#[derive(Clone, Copy)]
pub(crate) enum Storage {
    // All in cells of one size.
    Alike,
    // Each in its own width.
    Apart,
}

// Runs the rows of a source. How the words are kept shows in nothing but in how fast it is.
fn run_kept<S: Source<K>, K: Sink>(
    alloc: Global,
    certified: &Certified,
    kept: Storage,
    source: &mut S,
    sink: &mut K,
    limit: u64,
) -> Result<u64, RunFault>
    requires limit { limit < 2 ^ 64 - 1 }
    ensures ends { let at = streams S.seen K.seen in
        EndsRun row_fault_of (run_outcome certified.now.function certified.now.program) limit
        (at source.old sink.old) (at source.new sink.new) result }
    ensures honest { RowsLaw certified.now.function certified.now.program certified.now.certificate }
{
    match kept {
        Storage::Alike => run_rows(alloc, certified, source, sink, limit),
        Storage::Apart => run_mixed(alloc, certified, source, sink, limit),
    }
}

/// Runs the rows of the input, and prints their page.
pub(crate) fn run_page<'a, S: Source<K>, K: Sink>(
    alloc: Global,
    certified: &'a Certified,
    kept: Storage,
    input: &mut S,
    output: &mut K,
) -> End<'a>
    ensures { let at = streams S.seen K.seen in
        RunsInput RunRows certified.now (at input.old output.old) (at input.new output.new) (end_of result) }
{
    match run_kept(alloc, certified, kept, input, output, ROWS_LIMIT) {
        Ok(_) => End::Done,
        Err(RunFault::Row { line, fault }) => End::BadRow {
            inputs: inputs_of(certified),
            line,
            fault,
        },
        Err(RunFault::ReadFault) => End::ReadFault,
        Err(RunFault::WriteFault) => End::WriteFault,
        Err(RunFault::TooLong) => End::OverLimit,
        Err(RunFault::Memory) => End::NoMemory,
    }
}
