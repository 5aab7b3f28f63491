//! `check FILE`, `show FILE`, `migrate FILE`, `widths FILE` and `rust FILE`: one text of an accepted bundle.
//!
//! A new text is a variant here and an arm of `print_sheet`, with its row in `specs/commands/Sheets`. The trap: a text
//! that is made in memory is made whole before anything is written, so where memory lacks nothing is written.
ghost use Rattle.std.specs.Prelude.{◌≡◌};
ghost use Rattle.fx_cert_text.specs.BundleView.{IsLawfulBundle};
ghost use Rattle.fx_ends.specs.EndView.{end_of};
ghost use Rattle.fx_bundle_commands.specs.Calls.{PrintsFile, desk};
ghost use Rattle.fx_bundle_commands.specs.Opening.{IsAcceptedAs};
ghost use Rattle.fx_bundle_commands.specs.OpeningView.{IsSilent, with_source};
ghost use Rattle.fx_bundle_commands.specs.Tasks.{BundleEnds, Prints};
ghost use Rattle.fx_bundle_commands.specs.commands.Sheets.{PrintsSheet};

use crate::migration::{migrated_text, migration_law};
use crate::opening::{Opened, open};
use crate::printing::print_text;
use crate::report::print_report;
use crate::table::print_table;
use crate::widths::widths_text;
use fx_base::{Shelf, Sink};
use fx_ends::End;
use fx_mixed::{certified_text, text_law};
use std::alloc::Global;

/// A text that is printed of an accepted bundle.
#[derive(Clone, Copy, Debug, PartialEq, Eq)]
pub enum Sheet {
    /// The verdict that a bundle is accepted, and the bound of each output.
    Bounds,
    /// Each code with its intervals, and the bound of each output.
    Table,
    /// The bundle as one of the second version.
    SecondVersion,
    /// The least width of each code, and how many bytes all take.
    Widths,
    /// Its program as Rust text, at the least widths.
    Rust,
}

// Prints this text of an opened bundle.
fn print_sheet<K: Sink>(
    alloc: Global,
    opened: &Opened,
    sheet: Sheet,
    output: &mut K,
) -> End<'static>
    requires lawful { IsLawfulBundle (with_source opened.now.certified opened.now.source) }
    requires accepted { IsAcceptedAs
        (with_source opened.now.certified opened.now.source) opened.now.certified.function }
    ensures ended { PrintsSheet sheet (K.seen output.old) (K.seen output.new)
        (with_source opened.now.certified opened.now.source) opened.now.certified.function (end_of result) }
    ensures quiet { IsSilent (end_of result) → output.new ≡ output.old }
{
    match sheet {
        Sheet::Bounds => print_report(&opened.certified, output),
        Sheet::Table => print_table(alloc, &opened.certified, output),
        Sheet::SecondVersion => {
            migration_law(opened);
            print_text(migrated_text(alloc, opened), output)
        }
        Sheet::Widths => print_text(widths_text(alloc, &opened.certified), output),
        Sheet::Rust => {
            text_law(&opened.certified);
            print_text(certified_text(alloc, &opened.certified), output)
        }
    }
}

/// Prints this text of the bundle in the file of this name.
pub fn print_file<H: Shelf, K: Sink>(
    alloc: Global,
    shelf: &mut H,
    name: &str,
    sheet: Sheet,
    output: &mut K,
) -> End<'static>
    ensures { let at = desk H.seen K.seen in
        PrintsFile name.now (λ old new. BundleEnds (Prints sheet) old new name.now)
        (at shelf.old output.old) (at shelf.new output.new) (end_of result) }
{
    match open(alloc, shelf, name) {
        Err(end) => end,
        Ok(opened) => print_sheet(alloc, &opened, sheet, output),
    }
}
