//! The heads of the two functions, which the text and the header share.

ghost use Rattle.std.specs.Prelude.{◌≡◌, ◌++◌, OnOk};
ghost use Rattle.fx_c99.specs.CText.{state_text, state_parameter, arrays_text, step_head, reset_head};

use crate::piece::put_type;
use fx_rust::{put, put_between};
use std::alloc::AllocError;

// `int16_t state[2]`.
fn put_state(out: &mut Vec<u8>, width: u32, states: u32) -> Result<(), AllocError>
    ensures { OnOk result (out.new.items ≡ out.old.items ++ state_text width states) }
{
    put_type(out, width)?;
    put_between(out, b" state[", states, b"]")
}

// `int16_t state[2], `, and nothing where there is no state.
fn put_state_parameter(out: &mut Vec<u8>, width: u32, states: u32) -> Result<(), AllocError>
    ensures { OnOk result (out.new.items ≡ out.old.items ++ state_parameter width states) }
{
    if states == 0 {
        return Ok(());
    }
    put_state(out, width, states)?;
    put(out, b", ")
}

// The arrays that a step reads and writes.
fn put_arrays(out: &mut Vec<u8>, width: u32, inputs: u32, outputs: u32) -> Result<(), AllocError>
    ensures { OnOk result (out.new.items ≡ out.old.items ++ arrays_text width inputs outputs) }
{
    put(out, b"const ")?;
    put_type(out, width)?;
    put_between(out, b" input[", inputs, b"], ")?;
    put_type(out, width)?;
    put_between(out, b" output[", outputs, b"])")?;
    Ok(())
}

/// The head of the step.
pub fn put_step_head(
    out: &mut Vec<u8>,
    title: &[u8],
    width: u32,
    states: u32,
    inputs: u32,
    outputs: u32,
) -> Result<(), AllocError>
    ensures { OnOk result (out.new.items ≡ out.old.items ++ step_head title.now width states inputs outputs) }
{
    put(out, b"void fixd_")?;
    put(out, title)?;
    put(out, b"_step(")?;
    put_state_parameter(out, width, states)?;
    put_arrays(out, width, inputs, outputs)?;
    Ok(())
}

/// The head of the reset.
pub fn put_reset_head(
    out: &mut Vec<u8>,
    title: &[u8],
    width: u32,
    states: u32,
) -> Result<(), AllocError>
    ensures { OnOk result (out.new.items ≡ out.old.items ++ reset_head title.now width states) }
{
    put(out, b"void fixd_")?;
    put(out, title)?;
    put(out, b"_reset(")?;
    put_state(out, width, states)?;
    put(out, b")")?;
    Ok(())
}
