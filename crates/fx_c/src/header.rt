//! The header: macros, which `#if` can use too, and the declarations of the two functions.
//!
//! What its text is and says, `fx_c99` says. The trap: bounds are a certificate's, of which nothing is known here, so
//! whoever calls brings them.

ghost use Rattle.std.specs.Prelude.{◌≡◌, ◌++◌, ◌<◌, OnOk, IfOk};
ghost use Rattle.fx_model.specs.LineText.{numbered_lines};
ghost use Rattle.fx_model.specs.Machine.{start_words};
ghost use Rattle.fx_inequalities.specs.Certificate.{Certificate};
ghost use Rattle.fx_inequalities.specs.Rewriting.{Rewrites};
ghost use Rattle.fx_sound.specs.Soundness.{IsCertified};
ghost use Rattle.fx_c99.specs.CHeader.{bounds_of, count_macros, input_group, state_group, output_group, opening_text, reset_declaration, declarations_text, header_text};
ghost use Rattle.fx_c99.specs.CHeaderMeaning.{SaysHeader};

use crate::groups::{put_count_macros, put_input_macros, put_output_macros, put_state_macros};
use crate::head::{put_reset_head, put_step_head};
use crate::lookup::{
    bound_at, high_at, input_name, low_at, output_code, point_at, state_name, title, word_at,
    word_of,
};
use crate::start::start_words;
use fx_c99::header_law;
use fx_expr::Function;
use fx_num::{Dyadic, Memory};
use fx_program::Program;
use fx_rust::{put, put_title};
use std::alloc::{AllocError, Global};

// The macros of input `k`.
fn put_input(
    out: &mut Vec<u8>,
    function: &Function,
    program: &Program,
    k: u32,
) -> Result<(), AllocError>
    requires { k < program.now.inputs }
    ensures { OnOk result (out.new.items ≡ out.old.items ++ input_group function.now program.now k) }
{
    program.keeps();
    let f = point_at(program, k);
    put_input_macros(
        out,
        title(program),
        k,
        input_name(function, k),
        f,
        word_of(low_at(function, k), f),
        word_of(high_at(function, k), f),
    )?;
    Ok(())
}

// The macros of all inputs.
fn put_inputs(out: &mut Vec<u8>, function: &Function, program: &Program) -> Result<(), AllocError>
    ensures { OnOk result (out.new.items ≡ out.old.items
        ++ numbered_lines (input_group function.now program.now) 0 program.now.inputs) }
{
    let inputs = program.inputs;
    for k in 0..inputs {
        put_input(out, function, program, k)?;
    }
    Ok(())
}

// The macros of state `k`, whose start words are these.
fn put_state(
    out: &mut Vec<u8>,
    function: &Function,
    program: &Program,
    starts: &[i64],
    k: u32,
) -> Result<(), AllocError>
    requires state { k < program.now.states }
    requires starts { starts.now ≡ start_words program.now.codes }
    ensures { OnOk result (out.new.items ≡ out.old.items ++ state_group function.now program.now k) }
{
    program.keeps();
    put_state_macros(
        out,
        title(program),
        k,
        state_name(function, k),
        point_at(program, program.inputs + k),
        word_at(starts, k),
    )?;
    Ok(())
}

// The macros of all states.
fn put_states(
    out: &mut Vec<u8>,
    function: &Function,
    program: &Program,
    starts: &[i64],
) -> Result<(), AllocError>
    requires { starts.now ≡ start_words program.now.codes }
    ensures { OnOk result (out.new.items ≡ out.old.items
        ++ numbered_lines (state_group function.now program.now) 0 program.now.states) }
{
    let states = program.states;
    for k in 0..states {
        put_state(out, function, program, starts, k)?;
    }
    Ok(())
}

// The macros of output `j`.
fn put_output(
    out: &mut Vec<u8>,
    program: &Program,
    bounds: &[Dyadic],
    j: u32,
) -> Result<(), AllocError>
    requires { j < program.now.outputs }
    ensures { OnOk result (out.new.items ≡ out.old.items ++ output_group program.now bounds.now j) }
{
    let n = output_code(program, j);
    put_output_macros(
        out,
        title(program),
        j,
        point_at(program, n),
        bound_at(bounds, j),
    )?;
    Ok(())
}

// The macros of all outputs.
fn put_outputs(out: &mut Vec<u8>, program: &Program, bounds: &[Dyadic]) -> Result<(), AllocError>
    ensures { OnOk result (out.new.items ≡ out.old.items
        ++ numbered_lines (output_group program.now bounds.now) 0 program.now.outputs) }
{
    let outputs = program.outputs;
    for j in 0..outputs {
        put_output(out, program, bounds, j)?;
    }
    Ok(())
}

// The guard, and the types.
fn put_opening(out: &mut Vec<u8>, title: &[u8], width: u32) -> Result<(), AllocError>
    ensures { OnOk result (out.new.items ≡ out.old.items ++ opening_text title.now width) }
{
    put(out, b"/* ")?;
    put_title(out, title, width)?;
    put(out, b" */\n#ifndef FIXD_")?;
    put(out, title)?;
    put(out, b"_H\n#define FIXD_")?;
    put(out, title)?;
    put(out, b"_H\n\n#include <stdint.h>\n\n")?;
    Ok(())
}

// The declaration of the reset, if there is a state.
fn put_reset_declaration(
    out: &mut Vec<u8>,
    title: &[u8],
    width: u32,
    states: u32,
) -> Result<(), AllocError>
    ensures { OnOk result (out.new.items ≡ out.old.items ++ reset_declaration title.now width states) }
{
    if states == 0 {
        return Ok(());
    }
    put_reset_head(out, title, width, states)?;
    put(out, b";\n")
}

// Both declarations, and the end.
fn put_declarations(
    out: &mut Vec<u8>,
    title: &[u8],
    width: u32,
    states: u32,
    inputs: u32,
    outputs: u32,
) -> Result<(), AllocError>
    ensures { OnOk result (out.new.items ≡ out.old.items
        ++ declarations_text title.now width states inputs outputs) }
{
    put(out, b"\n#ifdef __cplusplus\nextern \"C\" {\n#endif\n\n")?;
    put_reset_declaration(out, title, width, states)?;
    put_step_head(out, title, width, states, inputs, outputs)?;
    put(out, b";\n\n#ifdef __cplusplus\n}\n#endif\n\n#endif\n")?;
    Ok(())
}

// All above the groups of the arrays' elements.
fn put_front(out: &mut Vec<u8>, program: &Program) -> Result<(), AllocError>
    ensures { OnOk result (out.new.items ≡ out.old.items ++ (opening_text program.now.name program.now.width
        ++ count_macros program.now.name program.now.width program.now.inputs program.now.states
        program.now.outputs)) }
{
    put_opening(out, title(program), program.width)?;
    put_count_macros(
        out,
        title(program),
        program.width,
        program.inputs,
        program.states,
        program.outputs,
    )?;
    Ok(())
}

// All below them.
fn put_back(out: &mut Vec<u8>, program: &Program) -> Result<(), AllocError>
    ensures { OnOk result (out.new.items ≡ out.old.items ++ declarations_text program.now.name program.now.width
        program.now.states program.now.inputs program.now.outputs) }
{
    put_declarations(
        out,
        title(program),
        program.width,
        program.states,
        program.inputs,
        program.outputs,
    )
}

/// The one header of the program, whose outputs have these bounds. With those of a certificate that is accepted it says
/// what is certified.
pub fn c_header(
    alloc: Global,
    function: &Function,
    program: &Program,
    bounds: &[Dyadic],
) -> Result<Vec<u8>, Memory>
    ensures text { IfOk result (λ t. t.items ≡ header_text function.now program.now bounds.now) }
    ensures says { (rewrite : Rewrites) (cert : Certificate) →
        IsCertified rewrite function.now program.now cert → bounds.now ≡ bounds_of program.now cert →
        IfOk result (λ t. SaysHeader function.now program.now cert t.items) }
{
    function.keeps();
    header_law();
    let starts = start_words(alloc, &program.codes)?;
    let mut out = Vec::new(alloc);
    put_front(&mut out, program)?;
    put_inputs(&mut out, function, program)?;
    put_states(&mut out, function, program, starts.as_slice())?;
    put_outputs(&mut out, program, bounds)?;
    put_back(&mut out, program)?;
    Ok(out)
}
