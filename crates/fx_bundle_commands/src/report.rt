//! What `check FILE` prints: that a bundle is accepted, and the bound of each output.
//!
//! The lines go out in pieces, without memory.
ghost use Rattle.std.specs.Prelude.{◌≡◌, ◌≢◌, ◌<◌, ◌≤◌, OnOk, OnErr};
ghost use Rattle.std.specs.Io.KnownBytes.{Appends};
ghost use Rattle.fx_base.specs.Causes.{HasCause};
ghost use Rattle.fx_inequalities.specs.Accepted.{bound_dyadic};
ghost use Rattle.fx_base.specs.Calls.{AppendsFront};
ghost use Rattle.fx_ends.specs.Ends as ends;
ghost use Rattle.fx_ends.specs.EndView.{end_of};
ghost use Rattle.fx_bundle_commands.specs.OpeningView.{IsSilent};
ghost use Rattle.fx_bundle_commands.specs.commands.Check.{bound_line, bound_lines, report};
ghost use Rattle.fx_bundle_commands.specs.commands.Sheets.{TextEnds};

use fx_base::{Failed, Sink};
use fx_checker::Certified;
use fx_ends::{End, put_pieces};
use fx_num::Dyadic;
use itoa::Buffer;

// The line of an output, counted from 0.
fn put_bound<K: Sink>(output: u32, bound: Dyadic, sink: &mut K) -> Result<(), Failed>
    requires few { output < 64 }
    ensures all { OnOk result (Appends (K.seen sink.old).taken (K.seen sink.new).taken (bound_line output bound)) }
    ensures front { OnErr result
        (AppendsFront (K.seen sink.old).taken (K.seen sink.new).taken (bound_line output bound)) }
    ensures cause { HasCause (K.seen sink.old).faults (K.seen sink.new).faults result }
{
    let mut number = Buffer::new();
    let mut mantissa = Buffer::new();
    let mut exponent = Buffer::new();
    let (over, places) = if bound.e == 0 {
        ("", "")
    } else {
        ("/2^", exponent.format(bound.e))
    };
    put_pieces(
        &[
            "out",
            number.format(output + 1),
            " ",
            mantissa.format(bound.m),
            over,
            places,
            "\n",
        ],
        sink,
    )
}

// How many outputs there are.
fn outputs_of(certified: &Certified) -> u32
    ensures count { result ≡ certified.now.program.outputs }
    ensures few { result ≤ 64 }
{
    certified.certified();
    certified.program().outputs
}

// The line of an output.
fn put_output<K: Sink>(certified: &Certified, output: u32, sink: &mut K) -> Result<(), Failed>
    requires { output < certified.now.program.outputs }
    ensures all { OnOk result
        (Appends (K.seen sink.old).taken (K.seen sink.new).taken
        (bound_line output (bound_dyadic certified.now.program certified.now.certificate output))) }
    ensures front { OnErr result
        (AppendsFront (K.seen sink.old).taken (K.seen sink.new).taken
        (bound_line output (bound_dyadic certified.now.program certified.now.certificate output))) }
    ensures cause { HasCause (K.seen sink.old).faults (K.seen sink.new).faults result }
{
    certified.certified();
    put_bound(output, certified.bound(output), sink)
}

/// Writes the lines of all outputs.
pub fn put_bounds<K: Sink>(certified: &Certified, sink: &mut K) -> Result<(), Failed>
    ensures all { OnOk result
        (Appends (K.seen sink.old).taken (K.seen sink.new).taken
        (bound_lines certified.now.program certified.now.certificate 0 certified.now.program.outputs)) }
    ensures front { OnErr result
        (AppendsFront (K.seen sink.old).taken (K.seen sink.new).taken
        (bound_lines certified.now.program certified.now.certificate 0 certified.now.program.outputs)) }
    ensures cause { HasCause (K.seen sink.old).faults (K.seen sink.new).faults result }
{
    let outputs = outputs_of(certified);
    for j in 0..outputs {
        put_output(certified, j, sink)?;
    }
    Ok(())
}

// Writes that the bundle is accepted, and the bound of each output.
fn put_report<K: Sink>(certified: &Certified, sink: &mut K) -> Result<(), Failed>
    ensures all { OnOk result
        (Appends (K.seen sink.old).taken (K.seen sink.new).taken
        (report certified.now.program certified.now.certificate)) }
    ensures front { OnErr result
        (AppendsFront (K.seen sink.old).taken (K.seen sink.new).taken
        (report certified.now.program certified.now.certificate)) }
    ensures cause { HasCause (K.seen sink.old).faults (K.seen sink.new).faults result }
{
    put_pieces(&["accepted\n"], sink)?;
    put_bounds(certified, sink)
}

/// Prints that the bundle is accepted, and the bound of each output.
pub(crate) fn print_report<K: Sink>(certified: &Certified, output: &mut K) -> End<'static>
    ensures ended { TextEnds (report certified.now.program certified.now.certificate)
        (K.seen output.old) (K.seen output.new) (end_of result) }
    ensures light { end_of result ≢ ends.NoMemory }
    ensures quiet { IsSilent (end_of result) → output.new ≡ output.old }
{
    match put_report(certified, output) {
        Ok(()) => End::Done,
        Err(_) => End::WriteFault,
    }
}
