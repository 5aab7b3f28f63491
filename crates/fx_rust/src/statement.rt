//! Writing one statement.

ghost use Rattle.std.specs.Prelude.{◌≡◌, ◌++◌, OnOk};
ghost use Rattle.fx_program.specs.CodeView.{kind_of, code_of};
ghost use Rattle.fx_statements.specs.RustText.{let_text, long_text, store_text};
ghost use Rattle.fx_statements.specs.OfProgram.{let_of, store_of};

use crate::piece::{put, put_between, put_name, put_size};
use crate::value::put_value;
use fx_program::{Code, Kind};
use std::alloc::AllocError;

/// The name of a code of this kind.
fn put_kind(out: &mut Vec<u8>, n: usize, width: u32, kind: Kind) -> Result<(), AllocError>
    ensures { OnOk result (out.new.items ≡ out.old.items ++ let_text (let_of n width (kind_of kind))) }
{
    put(out, b"    let ")?;
    put_name(out, n)?;
    put(out, b": ")?;
    put_size(out, width)?;
    put(out, b" = ")?;
    put_value(out, width, kind)?;
    put(out, b";\n")
}

/// `    let w3: i16 = VALUE;`
pub fn put_let(out: &mut Vec<u8>, n: usize, width: u32, code: Code) -> Result<(), AllocError>
    ensures { OnOk result (out.new.items ≡ out.old.items ++ let_text (let_of n width (code_of code))) }
{
    put_kind(out, n, width, code.kind())
}

/// `w3 as i64`
pub fn put_long(out: &mut Vec<u8>, name: usize) -> Result<(), AllocError>
    ensures { OnOk result (out.new.items ≡ out.old.items ++ long_text name) }
{
    put_name(out, name)?;
    put(out, b" as i64")
}

/// `    s[0] = w3 as i64;`
pub fn put_store(out: &mut Vec<u8>, place: usize, name: usize) -> Result<(), AllocError>
    ensures { OnOk result (out.new.items ≡ out.old.items ++ store_text (store_of place name)) }
{
    put_between(out, b"    s[", place, b"] = ")?;
    put_long(out, name)?;
    put(out, b";\n")
}
