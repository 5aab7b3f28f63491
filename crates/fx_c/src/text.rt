//! The whole text.
//!
//! The trap: the copies of the outputs stand before those of the next states, and their text behind.

ghost use Rattle.std.specs.Prelude.{◌≡◌, ◌++◌, ◌||◌, [], ◌+◌, ◌≤◌, ◌<◌, ◌^◌, length, map, codes, if◌then◌else◌, OnOk, IfOk};
ghost use Rattle.std.specs.List.{flat_map, list_any, range_with_len};
ghost use Rattle.fx_program.specs.CodeView.{code_of};
ghost use Rattle.fx_statements.specs.OfProgram.{stores_of};
ghost use Rattle.fx_statements.specs.Widths.{AreWidths};
ghost use Rattle.fx_c99.specs.CText.{c_let_text, assignment_text, placed, wide_type_text, floor_call, floor_head, floor_text, helpers_text, reset_text, body_text, step_text, top_text, front_text};
ghost use Rattle.fx_c99.specs.OfProgram.{c_lets_from, c_routine_of, c_text_of};
ghost use Rattle.fx_c99.specs.Runs.{DoesSteps};
ghost use Rattle.fx_c.specs.Choices.{passes};

use crate::head::{put_reset_head, put_step_head};
use crate::piece::{put_floor_name, put_working};
use crate::start::{put_starts, start_words};
use crate::statement::{put_assignment, put_let};
use crate::unread::put_unreads;
use crate::working::{Test, passes};
use fx_c99::text_law;
use fx_num::Memory;
use fx_program::{Code, Program};
use fx_rust::{put, put_title};
use std::alloc::{AllocError, Global};

// A line for each code.
fn put_lets(out: &mut Vec<u8>, width: u32, codes: &[Code], widths: &[u32]) -> Result<(), AllocError>
    requires { length codes.now ≤ length widths.now }
    ensures { OnOk result (out.new.items ≡ out.old.items
        ++ flat_map (c_let_text width) (c_lets_from width 0 widths.now (map code_of codes.now))) }
{
    for n in 0..codes.len() {
        put_let(out, n, width, widths[n], codes[n])?;
    }
    Ok(())
}

// A line for each next state, whose copies begin at code `first`.
fn put_stores(out: &mut Vec<u8>, width: u32, first: usize, states: usize) -> Result<(), AllocError>
    requires { first + states < 2 ^ 32 }
    ensures { OnOk result (out.new.items ≡ out.old.items
        ++ flat_map (assignment_text (codes "state") width) (stores_of first states)) }
{
    for k in 0..states {
        put_assignment(out, b"state", width, k, first + k)?;
    }
    Ok(())
}

// A line for each output, whose copies begin at code `first`.
fn put_outputs(
    out: &mut Vec<u8>,
    width: u32,
    first: usize,
    outputs: usize,
) -> Result<(), AllocError>
    requires { first + outputs < 2 ^ 32 }
    ensures { OnOk result (out.new.items ≡ out.old.items
        ++ flat_map (assignment_text (codes "output") width) (placed 0 (range_with_len first outputs))) }
{
    for k in 0..outputs {
        put_assignment(out, b"output", width, k, first + k)?;
    }
    Ok(())
}

// Whether one of two holds.
fn either(a: bool, b: bool) -> bool
    ensures { result ≡ (a || b) }
{
    a || b
}

// Whether any code's statement passes a test.
fn any_passes(test: Test, width: u32, codes: &[Code], widths: &[u32]) -> bool
    requires { length codes.now ≤ length widths.now }
    ensures { result ≡ list_any (passes test width) (c_lets_from width 0 widths.now (map code_of codes.now)) }
{
    let mut found = false;
    for n in 0..codes.len() {
        let here = passes(test, n, width, widths[n], codes[n]);
        found = either(found, here);
    }
    found
}

// `fixd_floor32(int32_t x, uint32_t s)`.
fn put_floor_call(out: &mut Vec<u8>, bits: u32) -> Result<(), AllocError>
    ensures { OnOk result (out.new.items ≡ out.old.items ++ floor_call bits) }
{
    put_floor_name(out, bits)?;
    put(out, b"(")?;
    put_working(out, bits)?;
    put(out, b" x, uint32_t s)")?;
    Ok(())
}

// `static inline int32_t fixd_floor32(int32_t x, uint32_t s)`, below a comment.
fn put_floor_head(out: &mut Vec<u8>, bits: u32) -> Result<(), AllocError>
    ensures { OnOk result (out.new.items ≡ out.old.items ++ floor_head bits) }
{
    put(out, b"/* x / 2^s, rounded down */\nstatic inline ")?;
    put_working(out, bits)?;
    put(out, b" ")?;
    put_floor_call(out, bits)?;
    Ok(())
}

// `x / 2^s`, at so many bits.
fn put_floor(out: &mut Vec<u8>, bits: u32) -> Result<(), AllocError>
    ensures { OnOk result (out.new.items ≡ out.old.items ++ floor_text bits) }
{
    put_floor_head(out, bits)?;
    put(
        out,
        b" {\n    return (x >= 0) ? (x >> s) : (-1 - ((-1 - x) >> s));\n}\n\n",
    )?;
    Ok(())
}

// The function for `x / 2^s`, if any statement calls it.
fn put_floor_if(out: &mut Vec<u8>, called: bool, bits: u32) -> Result<(), AllocError>
    ensures { OnOk result (out.new.items ≡ out.old.items ++ (if called then floor_text bits else [])) }
{
    if called { put_floor(out, bits) } else { Ok(()) }
}

// The type of 128 bits, if any statement computes in it.
fn put_wide_if(out: &mut Vec<u8>, used: bool) -> Result<(), AllocError>
    ensures { OnOk result (out.new.items ≡ out.old.items ++ (if used then wide_type_text else [])) }
{
    if used {
        put(
            out,
            b"/* a type of 128 bits, which ISO C99 hasn't: gcc and clang have it */\n",
        )?;
        put(out, b"__extension__ typedef __int128 fixd_wide;\n\n")
    } else {
        Ok(())
    }
}

// What stands above the functions.
fn put_helpers(
    out: &mut Vec<u8>,
    width: u32,
    codes: &[Code],
    widths: &[u32],
) -> Result<(), AllocError>
    requires { length codes.now ≤ length widths.now }
    ensures { OnOk result (out.new.items ≡ out.old.items
        ++ helpers_text width (c_lets_from width 0 widths.now (map code_of codes.now))) }
{
    let wide = any_passes(Test::Computes(128), width, codes, widths);
    put_wide_if(out, wide)?;
    let first = any_passes(Test::Rounds(32), width, codes, widths);
    put_floor_if(out, first, 32)?;
    let second = any_passes(Test::Rounds(64), width, codes, widths);
    put_floor_if(out, second, 64)?;
    let third = any_passes(Test::Rounds(128), width, codes, widths);
    put_floor_if(out, third, 128)?;
    Ok(())
}

// The reset, if there is a state.
fn put_reset(
    out: &mut Vec<u8>,
    title: &[u8],
    width: u32,
    states: u32,
    starts: &[i64],
) -> Result<(), AllocError>
    ensures { OnOk result (out.new.items ≡ out.old.items ++ reset_text title.now width states starts.now) }
{
    if states == 0 {
        return Ok(());
    }
    put_reset_head(out, title, width, states)?;
    put(out, b";\n\n")?;
    put_reset_head(out, title, width, states)?;
    put(out, b" {\n")?;
    put_starts(out, starts)?;
    put(out, b"}\n\n")
}

// `/* NAME, width 16 */`, and the types.
fn put_top(out: &mut Vec<u8>, title: &[u8], width: u32) -> Result<(), AllocError>
    ensures { OnOk result (out.new.items ≡ out.old.items ++ top_text title.now width) }
{
    put(out, b"/* ")?;
    put_title(out, title, width)?;
    put(out, b" */\n#include <stdint.h>\n\n")?;
    Ok(())
}

// The statements.
fn put_body(
    alloc: Global,
    out: &mut Vec<u8>,
    program: &Program,
    widths: &[u32],
) -> Result<(), AllocError>
    requires { AreWidths program.now widths.now }
    ensures { OnOk result (out.new.items ≡ out.old.items ++ body_text (c_routine_of program.now widths.now)) }
{
    program.keeps();
    let width = program.width;
    let states = program.states as usize;
    let outputs = program.outputs as usize;
    let first = program.codes.len() - (outputs + states);
    put_lets(out, width, &program.codes, widths)?;
    put_stores(out, width, first + outputs, states)?;
    put_outputs(out, width, first, outputs)?;
    put_unreads(alloc, out, first, &program.codes)?;
    Ok(())
}

// The step.
fn put_step(
    alloc: Global,
    out: &mut Vec<u8>,
    program: &Program,
    widths: &[u32],
) -> Result<(), AllocError>
    requires { AreWidths program.now widths.now }
    ensures { OnOk result (out.new.items ≡ out.old.items ++ step_text (c_routine_of program.now widths.now)) }
{
    let title = program.name.as_str().as_bytes();
    put_step_head(
        out,
        title,
        program.width,
        program.states,
        program.inputs,
        program.outputs,
    )?;
    put(out, b";\n\n")?;
    put_step_head(
        out,
        title,
        program.width,
        program.states,
        program.inputs,
        program.outputs,
    )?;
    put(out, b" {\n")?;
    put_body(alloc, out, program, widths)?;
    put(out, b"}\n")?;
    Ok(())
}

// What stands above the step.
fn put_front(
    out: &mut Vec<u8>,
    program: &Program,
    widths: &[u32],
    starts: &[i64],
) -> Result<(), AllocError>
    requires { AreWidths program.now widths.now }
    ensures { OnOk result (out.new.items ≡ out.old.items
        ++ front_text (c_routine_of program.now widths.now) starts.now) }
{
    program.keeps();
    let title = program.name.as_str().as_bytes();
    put_top(out, title, program.width)?;
    put_helpers(out, program.width, &program.codes, widths)?;
    put_reset(out, title, program.width, program.states, starts)?;
    Ok(())
}

/// The one C text of the program in which the name of each code has the least type that its width fits.
pub fn c_text(alloc: Global, program: &Program, widths: &Vec<u32>) -> Result<Vec<u8>, Memory>
    requires { AreWidths program.now widths.now.items }
    ensures text { IfOk result (λ t. t.items ≡ c_text_of program.now widths.now.items) }
    ensures does { IfOk result (λ t. DoesSteps program.now widths.now.items t.items) }
{
    program.keeps();
    text_law();
    let starts = start_words(alloc, &program.codes)?;
    let mut out = Vec::new(alloc);
    put_front(&mut out, program, widths.as_slice(), starts.as_slice())?;
    put_step(alloc, &mut out, program, widths.as_slice())?;
    Ok(out)
}
