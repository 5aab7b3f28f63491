//! The top call: what the words ask for is printed, and the status says how it ended.
//!
//! The trap: the line on the notes is written when the status is decided already, so notes that fail change no status.
ghost use Rattle.std.specs.Prelude.{◌≡◌, Some};
ghost use Rattle.fx_arguments.specs.Command.{texts};
ghost use Rattle.fx_ends.specs.EndView.{end_of};
ghost use Rattle.fx_ends.specs.Ends.{status_of};
ghost use Rattle.fx_ends.specs.Notes.{AreNotes};
ghost use Rattle.fx_bundle_commands.specs.Calls.{desk};
ghost use Rattle.fx_c_command.specs.Calls.{Printing};
ghost use Rattle.fx_c_command.specs.Promise.{CBehaves, c_line, c_world};
ghost use Rattle.fx_c_command.specs.Words.{request_of};
ghost use Rattle.fx_c_command.specs.WordsView.{request_view};

use crate::printed::{printed_text, text_law};
use crate::words::{TextRequest, request_of};
use fx_base::{Shelf, Sink, Status};
use fx_bundle_commands::{open, print_text};
use fx_cert_text::bundle_text_law;
use fx_ends::End;
use std::alloc::Global;

/// The status of an end, with its line on the notes.
pub fn finish<N: Sink>(end: End<'_>, notes: &mut N) -> Status
    ensures status { result ≡ status_of (end_of end.entry) }
    ensures line { AreNotes (N.seen notes.old) (N.seen notes.new) (c_line (end_of end.entry)) }
{
    end.note_as("fixd-c", "usage: fixd-c [--header] FILE", notes);
    end.status()
}

// Prints the text that is asked for.
fn print_request<H: Shelf, K: Sink>(
    alloc: Global,
    request: &TextRequest,
    shelf: &mut H,
    output: &mut K,
) -> End<'static>
    ensures { let at = desk H.seen K.seen in
        Printing (Some (request_view request.now)) (at shelf.old output.old) (at shelf.new output.new)
        (end_of result) }
{
    match open(alloc, shelf, request.file) {
        Err(end) => end,
        Ok(opened) => {
            text_law(&opened.certified, request.text);
            print_text(printed_text(alloc, &opened, request.text), output)
        }
    }
}

// Does what the words ask for.
fn print_asked<H: Shelf, K: Sink>(
    alloc: Global,
    words: &[String],
    shelf: &mut H,
    output: &mut K,
) -> End<'static>
    ensures { let at = desk H.seen K.seen in
        Printing (request_of (texts words.now)) (at shelf.old output.old) (at shelf.new output.new)
        (end_of result) }
{
    match request_of(words) {
        Some(request) => print_request(alloc, &request, shelf, output),
        None => End::Usage,
    }
}

/// Prints the program of the bundle in FILE as C99 text, or its header, and answers with the status.
pub fn fixd_c<H: Shelf, K: Sink, N: Sink>(
    alloc: Global,
    words: &Vec<String>,
    shelf: &mut H,
    output: &mut K,
    notes: &mut N,
) -> Status
    ensures { let at = c_world H.seen K.seen N.seen in
        CBehaves (request_of (texts words.now.items)) (at shelf.old output.old notes.old)
        (at shelf.new output.new notes.new) result }
{
    bundle_text_law();
    let end = print_asked(alloc, words.as_slice(), shelf, output);
    finish(end, notes)
}
