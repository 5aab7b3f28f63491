//! Writing one statement.

ghost use Rattle.std.specs.Prelude.{◌≡◌, ◌++◌, OnOk};
ghost use Rattle.fx_program.specs.CodeView.{kind_of, code_of};
ghost use Rattle.fx_statements.specs.OfProgram.{store_of};
ghost use Rattle.fx_c99.specs.CText.{c_let_text, assignment_text, start_text};
ghost use Rattle.fx_c99.specs.OfProgram.{c_let_of};

use crate::piece::{put_cast, put_literal, put_type};
use crate::value::put_value;
use fx_program::{Code, Kind};
use fx_rust::{put, put_between, put_element, put_name};
use std::alloc::AllocError;

// The name of a code of this kind.
fn put_kind(out: &mut Vec<u8>, n: usize, width: u32, own: u32, kind: Kind) -> Result<(), AllocError>
    ensures { OnOk result (out.new.items ≡ out.old.items ++ c_let_text width (c_let_of width n own (kind_of kind))) }
{
    put(out, b"    const ")?;
    put_type(out, own)?;
    put(out, b" ")?;
    put_name(out, n)?;
    put(out, b" = ")?;
    put_value(out, width, own, kind)?;
    put(out, b";\n")
}

/// `    const int16_t w3 = VALUE;`
pub fn put_let(
    out: &mut Vec<u8>,
    n: usize,
    width: u32,
    own: u32,
    code: Code,
) -> Result<(), AllocError>
    ensures { OnOk result (out.new.items ≡ out.old.items ++ c_let_text width (c_let_of width n own (code_of code))) }
{
    put_kind(out, n, width, own, code.kind())
}

/// `    state[0] = (int16_t)w3;`
pub fn put_assignment(
    out: &mut Vec<u8>,
    array: &[u8],
    width: u32,
    place: usize,
    name: usize,
) -> Result<(), AllocError>
    ensures { OnOk result (out.new.items ≡ out.old.items ++ assignment_text array.now width (store_of place name)) }
{
    put_element(out, b"    ", array, place, b"] = ")?;
    put_cast(out, width)?;
    put_name(out, name)?;
    put(out, b";\n")?;
    Ok(())
}

/// `    state[0] = 5;`
pub fn put_start(out: &mut Vec<u8>, place: usize, w: i64) -> Result<(), AllocError>
    ensures { OnOk result (out.new.items ≡ out.old.items ++ start_text place w) }
{
    put_between(out, b"    state[", place, b"] = ")?;
    put_literal(out, w)?;
    put(out, b";\n")
}
