//! What `show FILE` prints: the codes of an accepted bundle with what is certified of them, and the bounds.
//!
//! A line has the code's number, its instruction and its point, and the ends of its range and of its error.
//! The trap: a value prints as `m` alone where it has no binary places, as a bound does.
ghost use Rattle.std.specs.Prelude.{◌≡◌, ◌++◌, ◌∷◌, [], ◌<◌, length, map, OnOk, OnErr, IfOk};
ghost use Rattle.std.specs.Fmt.{decimal, signed_decimal};
ghost use Rattle.std.specs.Io.KnownBytes.{Appends};
ghost use Rattle.fx_base.specs.Calls.{AppendsFront};
ghost use Rattle.fx_base.specs.Causes.{HasCause};
ghost use Rattle.fx_model.specs.LineText.{line_text, numbered_lines};
ghost use Rattle.fx_model.specs.ProgramText.{instruction_name};
ghost use Rattle.fx_model.specs.Tree.{at};
ghost use Rattle.fx_inequalities.specs.Certificate.{no_line};
ghost use Rattle.fx_program.specs.CodeView.{code_of};
ghost use Rattle.fx_cert.specs.CertificateView.{line_view};
ghost use Rattle.fx_ends.specs.EndView.{end_of};
ghost use Rattle.fx_bundle_commands.specs.OpeningView.{IsSilent};
ghost use Rattle.fx_bundle_commands.specs.commands.Sheets.{TextEnds};
ghost use Rattle.fx_bundle_commands.specs.commands.Show.{value_text, shown_fields, shown_line, table};

use crate::report::put_bounds;
use fx_base::{Failed, Sink, put_all};
use fx_cert::NodeLine;
use fx_checker::Certified;
use fx_ends::End;
use fx_num::{Dyadic, Interval, Memory};
use fx_program::{Code, Program};
use fx_text::{begin_line, end_line, put_number, put_word};
use itoa::Buffer;
use std::alloc::{AllocError, Global};

/// A space and a value.
pub fn put_value(out: &mut Vec<u8>, value: Dyadic) -> Result<(), AllocError>
    ensures { OnOk result (out.new.items ≡ out.old.items ++ 32 ∷ value_text value) }
{
    put_number(out, value.m)?;
    if value.e == 0 {
        return Ok(());
    }
    let mut places = Buffer::new();
    out.extend_from_slice(b"/2^")?;
    out.extend_from_slice(places.format(value.e).as_bytes())
}

// What stands before a code's values.
fn put_front(out: &mut Vec<u8>, number: u32, name: &str, point: i32) -> Result<(), AllocError>
    ensures { OnOk result (out.new.items ≡ out.old.items ++ decimal number ++ 32 ∷ name.now ++ 32
        ∷ signed_decimal point) }
{
    let mut digits = Buffer::new();
    begin_line(out, digits.format(number).as_bytes())?;
    put_word(out, name.as_bytes())?;
    put_number(out, point)
}

// The ends of an interval, each behind a space.
fn put_ends(out: &mut Vec<u8>, ends: Interval) -> Result<(), AllocError>
    ensures { OnOk result (out.new.items ≡ out.old.items ++ 32 ∷ value_text ends.lo ++ 32 ∷ value_text ends.hi) }
{
    put_value(out, ends.lo)?;
    put_value(out, ends.hi)
}

// The line of a code.
fn put_line(
    out: &mut Vec<u8>,
    number: u32,
    name: &str,
    point: i32,
    line: &NodeLine,
) -> Result<(), AllocError>
    ensures { OnOk result (out.new.items ≡ out.old.items
        ++ line_text (shown_fields number name.now point (line_view line.now))) }
{
    put_front(out, number, name, point)?;
    put_ends(out, line.range)?;
    put_ends(out, line.error)?;
    end_line(out)?;
    Ok(())
}

// The name of code `n`'s instruction. Empty where there is no such code.
fn name_in(codes: &[Code], n: u32) -> &'static str
    ensures { result.now ≡ at [] (map instruction_name (map code_of codes.now)) n }
{
    match codes.get(n as usize) {
        Some(code) => code.name(),
        None => "",
    }
}

/// The name of instruction `n` of a program.
pub(crate) fn name_at(program: &Program, n: u32) -> &'static str
    ensures { result.now ≡ at [] (map instruction_name program.now.codes) n }
{
    name_in(program.codes.as_slice(), n)
}

// What is claimed of a code.
fn line_at(certified: &Certified, n: u32) -> &NodeLine
    requires { n < length certified.now.program.codes }
    ensures { line_view result.now ≡ at no_line certified.now.certificate.lines n }
{
    certified.certified();
    &certified.certificate().lines.as_slice()[n as usize]
}

// The line of code `n`.
fn put_code(out: &mut Vec<u8>, certified: &Certified, n: u32) -> Result<(), AllocError>
    requires { n < length certified.now.program.codes }
    ensures { OnOk result (out.new.items ≡ out.old.items
        ++ shown_line certified.now.program certified.now.certificate n) }
{
    let program = certified.program();
    let name = name_at(program, n);
    let point = program.point(n);
    let line = line_at(certified, n);
    put_line(out, n, name, point, line)?;
    Ok(())
}

/// How many codes there are.
pub(crate) fn codes_of(certified: &Certified) -> u32
    ensures { result ≡ length certified.now.program.codes }
{
    certified.certified();
    certified.program().codes.len() as u32
}

// The lines of all codes.
fn put_codes(out: &mut Vec<u8>, certified: &Certified) -> Result<(), AllocError>
    ensures { OnOk result (out.new.items ≡ out.old.items
        ++ numbered_lines (shown_line certified.now.program certified.now.certificate) 0
        (length certified.now.program.codes)) }
{
    let count = codes_of(certified);
    for n in 0..count {
        put_code(out, certified, n)?;
    }
    Ok(())
}

// The lines of all codes, as a text.
fn codes_text(alloc: Global, certified: &Certified) -> Result<Vec<u8>, Memory>
    ensures { IfOk result (λ text. text.items
        ≡ numbered_lines (shown_line certified.now.program certified.now.certificate) 0
        (length certified.now.program.codes)) }
{
    let mut out = Vec::new(alloc);
    match put_codes(&mut out, certified) {
        Ok(()) => Ok(out),
        Err(_) => Err(Memory),
    }
}

// Writes the lines of the codes, which are this text, and those of the outputs.
fn put_table<K: Sink>(text: &[u8], certified: &Certified, output: &mut K) -> Result<(), Failed>
    requires { text.now ≡ numbered_lines (shown_line certified.now.program certified.now.certificate) 0
        (length certified.now.program.codes) }
    ensures all { OnOk result
        (Appends (K.seen output.old).taken (K.seen output.new).taken
        (table certified.now.program certified.now.certificate)) }
    ensures front { OnErr result
        (AppendsFront (K.seen output.old).taken (K.seen output.new).taken
        (table certified.now.program certified.now.certificate)) }
    ensures cause { HasCause (K.seen output.old).faults (K.seen output.new).faults result }
{
    put_all(output, text)?;
    put_bounds(certified, output)
}

/// Prints a line for each code, and the bound of each output.
pub(crate) fn print_table<K: Sink>(
    alloc: Global,
    certified: &Certified,
    output: &mut K,
) -> End<'static>
    ensures ended { TextEnds (table certified.now.program certified.now.certificate)
        (K.seen output.old) (K.seen output.new) (end_of result) }
    ensures quiet { IsSilent (end_of result) → output.new ≡ output.old }
{
    let Ok(text) = codes_text(alloc, certified) else {
        return End::NoMemory;
    };
    match put_table(text.as_slice(), certified, output) {
        Ok(()) => End::Done,
        Err(_) => End::WriteFault,
    }
}
