//! The rows of many units, each unit a run by itself, whose lines are printed in the order of the input.
ghost use Rattle.std.specs.Prelude.{◌≡◌, ◌≤◌, map};
ghost use Rattle.fx_expr.specs.Parts.{input_of};
ghost use Rattle.fx_node.specs.Faults.{flaw_of};
ghost use Rattle.fx_ends.specs.EndView.{end_of};
ghost use Rattle.fx_bundle_commands.specs.OpeningView.{IsQuiet};
ghost use Rattle.fx_stream.specs.Ending.{streams};
ghost use Rattle.fx_bundle_commands.specs.Calls.{RunsInput};
ghost use Rattle.fx_bundle_commands.specs.Tasks.{RunUnits};
ghost use Rattle.fx_bundle_commands.specs.commands.Node.{bad_end};

use crate::commands::page::{ROWS_LIMIT, inputs_of};
use fx_base::{Sink, Source};
use fx_checker::Certified;
use fx_ends::End;
use fx_expr::Input;
use fx_node::{Flaw, NodeFault, run_node};
use std::alloc::Global;

// Of a bad line, for the function with these inputs.
fn end_of_line<'a>(inputs: &'a [Input], line: u64, flaw: Flaw) -> End<'a>
    ensures value { end_of result ≡ bad_end (map input_of inputs.now) line (flaw_of flaw) }
    ensures loud { IsQuiet (end_of result) → ⊥ }
{
    match flaw {
        Flaw::Row(fault) => End::BadRow {
            inputs,
            line,
            fault,
        },
        Flaw::Unit(kind) => End::BadUnit { line, kind },
    }
}

/// Runs the rows of so many units, and prints a line for each.
pub(crate) fn run_units<'a, S: Source<K>, K: Sink>(
    alloc: Global,
    certified: &'a Certified,
    units: u32,
    input: &mut S,
    output: &mut K,
) -> End<'a>
    requires some { 1 ≤ units }
    requires few { units ≤ 1024 }
    ensures { let at = streams S.seen K.seen in
        RunsInput (RunUnits units) certified.now (at input.old output.old) (at input.new output.new) (end_of result) }
{
    match run_node(alloc, certified, units, input, output, ROWS_LIMIT) {
        Ok(_) => End::Done,
        Err(NodeFault::Row { line, fault }) => end_of_line(inputs_of(certified), line, fault),
        Err(NodeFault::ReadFault) => End::ReadFault,
        Err(NodeFault::WriteFault) => End::WriteFault,
        Err(NodeFault::TooLong) => End::OverLimit,
        Err(NodeFault::Memory) => End::NoMemory,
    }
}
