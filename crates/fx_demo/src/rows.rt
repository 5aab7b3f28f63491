//! The rows of a demonstration.
ghost use Rattle.std.specs.Prelude.{◌≡◌, ◌++◌, ◌≤◌, OnOk, IfOk};
ghost use Rattle.fx_model.specs.LineText.{numbered_lines};
ghost use Rattle.fx_demo.specs.Rows.{demo_rows, hundredths, hundredths_text, row_line};

use fx_num::Memory;
use itoa::Buffer;
use std::alloc::{AllocError, Global};

// How many rows there are.
const ROWS: u32 = 1_000;

// How many hundredths stand for this number.
fn hundredths(k: u32) -> i32
    ensures { result ≡ hundredths k }
{
    (k % 201) as i32 - 100
}

fn put_hundredths(out: &mut Vec<u8>, k: u32) -> Result<(), AllocError>
    ensures { OnOk result (out.new.items ≡ out.old.items ++ hundredths_text k) }
{
    let mut digits = Buffer::new();
    out.extend_from_slice(digits.format(hundredths(k)).as_bytes())?;
    out.extend_from_slice(b"e-2")
}

// The line of row `r`.
fn put_row(out: &mut Vec<u8>, r: u32) -> Result<(), AllocError>
    requires { r ≤ 1000 }
    ensures { OnOk result (out.new.items ≡ out.old.items ++ row_line r) }
{
    put_hundredths(out, 7 * r)?;
    out.push(b',')?;
    put_hundredths(out, 11 * r)?;
    out.push(b'\n')?;
    Ok(())
}

// The lines of all rows.
fn put_rows(out: &mut Vec<u8>) -> Result<(), AllocError>
    ensures { OnOk result (out.new.items ≡ out.old.items ++ numbered_lines row_line 1 1000) }
{
    for r in 1..ROWS + 1 {
        put_row(out, r)?;
    }
    Ok(())
}

// The header and the rows.
fn put_input(out: &mut Vec<u8>) -> Result<(), AllocError>
    ensures { OnOk result (out.new.items ≡ out.old.items ++ demo_rows) }
{
    out.extend_from_slice(b"x,y\n")?;
    put_rows(out)?;
    Ok(())
}

/// The header and the rows, as the text of an input.
pub fn rows_text(alloc: Global) -> Result<Vec<u8>, Memory>
    ensures { IfOk result (λ text. text.items ≡ demo_rows) }
{
    let mut out = Vec::new(alloc);
    match put_input(&mut out) {
        Ok(()) => Ok(out),
        Err(_) => Err(Memory),
    }
}
