//! `run FILE`, `mixed FILE` and `node --units M FILE`: the lines of the input through an accepted bundle's program.
//!
//! The bundle is opened first, so that nothing is read for one that isn't accepted. The trap: an end borrows the inputs
//! of what was opened, so its line goes out before that is dropped.
ghost use Rattle.fx_ends.specs.EndView.{end_of};
ghost use Rattle.fx_stream.specs.Ending.{streams};
ghost use Rattle.fx_bundle_commands.specs.Calls.{RunsFile, RunsInput};
ghost use Rattle.fx_bundle_commands.specs.Outside.{world};
ghost use Rattle.fx_bundle_commands.specs.RowsView.{AreFew, rows_task};

use crate::commands::node::run_units;
use crate::commands::page::{Storage, run_page};
use crate::opening::open;
use fx_base::{Shelf, Sink, Source, Status};
use fx_checker::Certified;
use fx_ends::End;
use std::alloc::Global;

/// What the lines of the input are.
#[derive(Clone, Copy, Debug, PartialEq, Eq)]
pub enum Rows {
    /// Rows of one run, whose words are kept in cells of one size: `run`.
    Alike,
    /// Rows of one run, of which each word is kept in its own width: `mixed`.
    Apart,
    /// Rows of so many units, each a run by itself: `node`.
    Units(u32),
}

// Runs the lines of the input.
fn run_input<'a, S: Source<K>, K: Sink>(
    alloc: Global,
    certified: &'a Certified,
    rows: Rows,
    input: &mut S,
    output: &mut K,
) -> End<'a>
    requires few { AreFew rows }
    ensures { let at = streams S.seen K.seen in
        RunsInput (rows_task rows) certified.now (at input.old output.old) (at input.new output.new) (end_of result) }
{
    match rows {
        Rows::Alike => run_page(alloc, certified, Storage::Alike, input, output),
        Rows::Apart => run_page(alloc, certified, Storage::Apart, input, output),
        Rows::Units(units) => run_units(alloc, certified, units, input, output),
    }
}

/// Runs the lines of the input through the bundle in the file of this name, and prints what they come to.
pub fn run_file<H: Shelf, S: Source<K>, K: Sink, N: Sink>(
    alloc: Global,
    shelf: &mut H,
    rows: Rows,
    name: &str,
    input: &mut S,
    output: &mut K,
    notes: &mut N,
) -> Status
    requires few { AreFew rows }
    ensures { let at = world H.seen S.seen K.seen N.seen in
        RunsFile (rows_task rows) (at shelf.old input.old output.old notes.old)
        (at shelf.new input.new output.new notes.new) name.now result }
{
    match open(alloc, shelf, name) {
        Err(end) => end.finish(notes),
        Ok(opened) => {
            let end = run_input(alloc, &opened.certified, rows, input, output);
            end.finish(notes)
        }
    }
}
