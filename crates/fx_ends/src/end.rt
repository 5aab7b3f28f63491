//! How a call ends: its status, and its line on the notes.
//!
//! All commands end in the same ways, so that a status means one thing. The trap: a bad row is told with its column's
//! name, which is the function's, so such an end can't outlive the bundle.
ghost use Rattle.std.specs.Prelude.{◌≡◌, ◌∷◌, [], Some, map, codes};
ghost use Rattle.fx_model.specs.Tree.{at};
ghost use Rattle.fx_inequalities.specs.NodeConditions.{no_input};
ghost use Rattle.fx_expr.specs.Parts.{input_of};
ghost use Rattle.fx_rows.specs.Faults as rows;
ghost use Rattle.fx_formulas.specs.FaultView as conditions;
ghost use Rattle.std.specs.Fmt.{decimal};
ghost use Rattle.fx_ends.specs.Ends as ends;
ghost use Rattle.fx_ends.specs.Ends.{end_line, line_of, status_of};
ghost use Rattle.fx_ends.specs.EndView.{end_of, place_of};
ghost use Rattle.fx_ends.specs.Notes.{AreNotes};

use crate::kind::{bundle_text, condition_text, row_text, source_text, unit_text};
use crate::notes::note_line;
use fx_base::{Sink, Status};
use fx_expr::Input;
use fx_formulas::ConditionFault;
use fx_lexer::SourceFault;
use fx_rows::{RowFault, RowKind, UnitKind};
use fx_text::TextFault;
use itoa::Buffer;

/// What a line names of a function.
#[derive(Clone, Copy, Debug, PartialEq, Eq)]
pub enum Place {
    /// A node.
    Node { node: u32 },
    /// An output, counted from 1.
    Output { output: u32 },
}

/// How a call ends.
#[derive(Clone, Copy, Debug)]
pub enum End<'a> {
    /// All was done.
    Done,
    /// The words aren't a command's.
    Usage,
    /// A read of FILE or of the input failed, or there is no FILE.
    ReadFault,
    /// A write of the output failed.
    WriteFault,
    /// No memory was left.
    NoMemory,
    /// FILE or the input is over its limit.
    OverLimit,
    /// A condition of the bundle's certificate fails.
    Rejected(ConditionFault),
    /// The bundle's source has a fault.
    Misread(SourceFault),
    /// The bundle's text has one.
    BadBundle(TextFault),
    /// Nothing is found for the function, because of this.
    NotFound(Place),
    /// A line of the input is bad, for the function with these inputs.
    BadRow {
        inputs: &'a [Input],
        line: u64,
        fault: RowFault,
    },
    /// The unit of a line of the input is missing or wrong.
    BadUnit {
        line: u64,
        kind: UnitKind,
    },
}

// The name of an input. Empty where there is no such input.
fn name_of(inputs: &[Input], input: u32) -> &str
    ensures { result.now ≡ (at no_input (map input_of inputs.now) input).name }
{
    match inputs.get(input as usize) {
        Some(input) => input.name.as_str(),
        None => "",
    }
}

fn note_rejected<N: Sink>(program: &str, fault: ConditionFault, notes: &mut N)
    ensures { AreNotes (N.seen notes.old) (N.seen notes.new)
        (line_of program.now [] (ends.Rejected (conditions.condition_fault_of fault))) }
{
    let mut digits = Buffer::new();
    note_line(
        program,
        &[
            "rejected: ",
            condition_text(fault.kind),
            " at ",
            fault.part.name(),
            " ",
            digits.format(fault.index),
            "\n",
        ],
        notes,
    );
}

fn note_misread<N: Sink>(program: &str, fault: SourceFault, notes: &mut N)
    ensures { AreNotes (N.seen notes.old) (N.seen notes.new) (line_of program.now [] (ends.Misread fault)) }
{
    let mut digits = Buffer::new();
    note_line(
        program,
        &[
            "source: ",
            source_text(fault.kind),
            " at byte ",
            digits.format(fault.at),
            "\n",
        ],
        notes,
    );
}

fn note_bundle<N: Sink>(program: &str, fault: TextFault, notes: &mut N)
    ensures { AreNotes (N.seen notes.old) (N.seen notes.new) (line_of program.now [] (ends.BadBundle fault)) }
{
    let mut digits = Buffer::new();
    note_line(
        program,
        &[
            "bundle: ",
            bundle_text(fault.kind),
            " at line ",
            digits.format(fault.line),
            "\n",
        ],
        notes,
    );
}

// Of a fault of a line as a whole, or of its unit.
fn note_whole_line<N: Sink>(program: &str, kind: &str, line: u64, notes: &mut N)
    ensures { AreNotes (N.seen notes.old) (N.seen notes.new)
        (Some (ends.note_text program.now (ends.row_reason kind.now line []))) }
{
    let mut digits = Buffer::new();
    note_line(
        program,
        &["row: ", kind, " at line ", digits.format(line), "\n"],
        notes,
    );
}

// Of a fault at the column of this name.
fn note_column<N: Sink>(program: &str, kind: &str, line: u64, name: &str, notes: &mut N)
    ensures { AreNotes (N.seen notes.old) (N.seen notes.new)
        (Some (ends.note_text program.now (ends.row_reason kind.now line (codes " column " ∷ name.now ∷ [])))) }
{
    let mut digits = Buffer::new();
    note_line(
        program,
        &[
            "row: ",
            kind,
            " at line ",
            digits.format(line),
            " column ",
            name,
            "\n",
        ],
        notes,
    );
}

fn note_number<N: Sink>(program: &str, part: &str, number: u32, notes: &mut N)
    ensures { AreNotes (N.seen notes.old) (N.seen notes.new)
        (Some (ends.note_text program.now (codes "not found: " ∷ part.now ∷ decimal number ∷ []))) }
{
    let mut digits = Buffer::new();
    note_line(
        program,
        &["not found: ", part, digits.format(number), "\n"],
        notes,
    );
}

fn note_place<N: Sink>(program: &str, place: Place, notes: &mut N)
    ensures { AreNotes (N.seen notes.old) (N.seen notes.new)
        (line_of program.now [] (ends.NotFound (place_of place))) }
{
    match place {
        Place::Node { node } => note_number(program, "node ", node, notes),
        Place::Output { output } => note_number(program, "output ", output, notes),
    }
}

fn note_row<N: Sink>(program: &str, inputs: &[Input], line: u64, fault: RowFault, notes: &mut N)
    ensures { AreNotes (N.seen notes.old) (N.seen notes.new)
        (line_of program.now [] (ends.BadRow (map input_of inputs.now) line (rows.row_fault_of fault))) }
{
    let kind = row_text(fault.kind);
    match fault.kind {
        RowKind::LineTooLong => note_whole_line(program, kind, line, notes),
        RowKind::StrayReturn => note_whole_line(program, kind, line, notes),
        _ => note_column(program, kind, line, name_of(inputs, fault.input), notes),
    }
}

fn note_reason<N: Sink>(program: &str, reason: &str, notes: &mut N)
    ensures { AreNotes (N.seen notes.old) (N.seen notes.new) (Some (ends.note_text program.now (reason.now ∷ []))) }
{
    note_line(program, &[reason, "\n"], notes);
}

impl<'a> End<'a> {
    /// Its status.
    pub fn status(&self) -> Status
        ensures { result ≡ status_of (end_of self.now) }
    {
        match self {
            End::Done => Status::DONE,
            End::Usage => Status::USAGE,
            End::ReadFault => Status::READ_FAULT,
            End::WriteFault => Status::WRITE_FAULT,
            End::NoMemory => Status::MEMORY,
            End::OverLimit => Status::OVER_LIMIT,
            End::Rejected(_) => Status::REJECTED,
            End::Misread(_) => Status::SOURCE,
            End::BadBundle(_) => Status::BUNDLE,
            End::NotFound(_) => Status::NOT_FOUND,
            End::BadRow { .. } => Status::ROW,
            End::BadUnit { .. } => Status::ROW,
        }
    }

    /// Writes its line on the notes, or a front of it where they fail.
    pub fn note<N: Sink>(&self, notes: &mut N)
        ensures { AreNotes (N.seen notes.old) (N.seen notes.new) (end_line (end_of self.now)) }
    {
        self.note_as("fixd", "usage: synth, check, run, show or demo", notes);
    }

    /// Writes its line as that of a program of this name and usage, likewise.
    pub fn note_as<N: Sink>(&self, program: &str, usage: &str, notes: &mut N)
        ensures { AreNotes (N.seen notes.old) (N.seen notes.new)
            (line_of program.now usage.now (end_of self.now)) }
    {
        match self {
            End::Done => {}
            End::Usage => note_reason(program, usage, notes),
            End::ReadFault => note_reason(program, "read fault", notes),
            End::WriteFault => note_reason(program, "write fault", notes),
            End::NoMemory => note_reason(program, "out of memory", notes),
            End::OverLimit => note_reason(program, "over the limit", notes),
            End::Rejected(fault) => note_rejected(program, *fault, notes),
            End::Misread(fault) => note_misread(program, *fault, notes),
            End::BadBundle(fault) => note_bundle(program, *fault, notes),
            End::NotFound(place) => note_place(program, *place, notes),
            End::BadRow {
                inputs,
                line,
                fault,
            } => note_row(program, inputs, *line, *fault, notes),
            End::BadUnit { line, kind } => {
                note_whole_line(program, unit_text(*kind), *line, notes)
            }
        }
    }

    /// Its status, with its line on the notes.
    pub fn finish<N: Sink>(self, notes: &mut N) -> Status
        ensures status { result ≡ status_of (end_of self.entry) }
        ensures line { AreNotes (N.seen notes.old) (N.seen notes.new) (end_line (end_of self.entry)) }
    {
        self.note(notes);
        self.status()
    }
}
