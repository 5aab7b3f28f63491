//! The groups of a header's macros, each below a comment.

ghost use Rattle.std.specs.Prelude.{◌≡◌, ◌++◌, codes, OnOk};
ghost use Rattle.fx_c99.specs.CHeader.{element_comment, output_comment, count_macros, input_macros, state_macros, output_macros};

use crate::macros::{put_count, put_element_macro, put_point};
use fx_num::Dyadic;
use fx_rust::{put, put_element};
use std::alloc::AllocError;

// The comment on an element with a name.
fn put_named_comment(
    out: &mut Vec<u8>,
    array: &[u8],
    k: u32,
    name: &[u8],
    says: &[u8],
) -> Result<(), AllocError>
    ensures { OnOk result (out.new.items ≡ out.old.items
        ++ element_comment array.now k (codes ", " ++ (name.now ++ says.now))) }
{
    put_element(out, b"\n/* ", array, k, b"]")?;
    put(out, b", ")?;
    put(out, name)?;
    put(out, says)?;
    Ok(())
}

/// The macros of the width and of the arrays.
pub fn put_count_macros(
    out: &mut Vec<u8>,
    title: &[u8],
    width: u32,
    inputs: u32,
    states: u32,
    outputs: u32,
) -> Result<(), AllocError>
    ensures { OnOk result (out.new.items ≡ out.old.items ++ count_macros title.now width inputs states outputs) }
{
    put(
        out,
        b"/* bits of a word w, which stands for w / 2^POINT, and elements of the arrays */\n",
    )?;
    put_count(out, title, b"WIDTH", width)?;
    put_count(out, title, b"INPUTS", inputs)?;
    put_count(out, title, b"STATES", states)?;
    put_count(out, title, b"OUTPUTS", outputs)?;
    Ok(())
}

/// The macros of input `k`, of this name and at point `f`.
pub fn put_input_macros(
    out: &mut Vec<u8>,
    title: &[u8],
    k: u32,
    name: &[u8],
    f: i32,
    least: i128,
    greatest: i128,
) -> Result<(), AllocError>
    ensures { OnOk result (out.new.items ≡ out.old.items ++ input_macros title.now k name.now f least greatest) }
{
    put_named_comment(
        out,
        b"input",
        k,
        name,
        b": the words of its range, each a value times 2^POINT, rounded down */\n",
    )?;
    put_point(out, title, b"INPUT", k, f)?;
    put_element_macro(out, title, b"INPUT", k, b"_LEAST", least)?;
    put_element_macro(out, title, b"INPUT", k, b"_GREATEST", greatest)?;
    Ok(())
}

/// The macros of state `k`, of this name and at point `f`.
pub fn put_state_macros(
    out: &mut Vec<u8>,
    title: &[u8],
    k: u32,
    name: &[u8],
    f: i32,
    start: i64,
) -> Result<(), AllocError>
    ensures { OnOk result (out.new.items ≡ out.old.items ++ state_macros title.now k name.now f start) }
{
    put_named_comment(
        out,
        b"state",
        k,
        name,
        b": the word that the reset writes */\n",
    )?;
    put_point(out, title, b"STATE", k, f)?;
    put_element_macro(out, title, b"STATE", k, b"_START", i128::from(start))?;
    Ok(())
}

// The comment on an output.
fn put_output_comment(out: &mut Vec<u8>, j: u32) -> Result<(), AllocError>
    ensures { OnOk result (out.new.items ≡ out.old.items ++ output_comment j) }
{
    put_element(out, b"\n/* ", b"output", j, b"]")?;
    put(
        out,
        b": for inputs in range at most BOUND / 2^BOUND_POINT from the exact value */\n",
    )?;
    Ok(())
}

/// The macros of output `j`, at point `f`.
pub fn put_output_macros(
    out: &mut Vec<u8>,
    title: &[u8],
    j: u32,
    f: i32,
    bound: Dyadic,
) -> Result<(), AllocError>
    ensures { OnOk result (out.new.items ≡ out.old.items ++ output_macros title.now j f bound) }
{
    put_output_comment(out, j)?;
    put_point(out, title, b"OUTPUT", j, f)?;
    put_element_macro(out, title, b"OUTPUT", j, b"_BOUND", bound.m)?;
    put_element_macro(
        out,
        title,
        b"OUTPUT",
        j,
        b"_BOUND_POINT",
        i128::from(bound.e),
    )?;
    Ok(())
}
