//! The source of a demonstration, and its function.
ghost use Rattle.std.specs.Prelude.{◌≡◌, ◌++◌, ◌<◌, ◌≤◌, OnOk, IfOk, None, Ok};
ghost use Rattle.fx_grammar.specs.Sources.{parsed};
ghost use Rattle.fx_model.specs.LineText.{numbered_lines};
ghost use Rattle.fx_demo.specs.Source.{demo_source, head_text, result_text, temp_line, two_digits};
ghost use Rattle.std.specs.Fmt.{decimal};

use fx_expr::Function;
use fx_num::Memory;
use fx_parser::parse;
use itoa::Buffer;
use std::alloc::{AllocError, Global};

// A number, as its digits.
fn put_count(out: &mut Vec<u8>, count: u32) -> Result<(), AllocError>
    ensures { OnOk result (out.new.items ≡ out.old.items ++ decimal count) }
{
    let mut digits = Buffer::new();
    out.extend_from_slice(digits.format(count).as_bytes())
}

// The two digits of a number below 100.
fn put_two_digits(out: &mut Vec<u8>, number: u32) -> Result<(), AllocError>
    requires { number < 100 }
    ensures { OnOk result (out.new.items ≡ out.old.items ++ two_digits number) }
{
    out.extend_from_slice(&[b'0' + (number / 10) as u8, b'0' + (number % 10) as u8])
}

// The line of temp `i`.
fn put_temp(out: &mut Vec<u8>, i: u32) -> Result<(), AllocError>
    requires { i ≤ 500 }
    ensures { OnOk result (out.new.items ≡ out.old.items ++ temp_line i) }
{
    out.extend_from_slice(b"  val t")?;
    put_count(out, i)?;
    out.extend_from_slice(b" = 0.")?;
    put_two_digits(out, 37 * i % 100)?;
    out.extend_from_slice(b" * x + y\n")
}

// The lines of `n` temps.
fn put_temps(out: &mut Vec<u8>, n: u32) -> Result<(), AllocError>
    requires { n ≤ 500 }
    ensures { OnOk result (out.new.items ≡ out.old.items ++ numbered_lines temp_line 1 n) }
{
    for i in 1..n + 1 {
        put_temp(out, i)?;
    }
    Ok(())
}

// The sum of the first temp and the last.
fn put_result(out: &mut Vec<u8>, n: u32) -> Result<(), AllocError>
    ensures { OnOk result (out.new.items ≡ out.old.items ++ result_text n) }
{
    out.extend_from_slice(b"  t1 + t")?;
    put_count(out, n)?;
    out.extend_from_slice(b"\n}\n")
}

// What stands before the temps.
fn put_head(out: &mut Vec<u8>) -> Result<(), AllocError>
    ensures { OnOk result (out.new.items ≡ out.old.items ++ head_text) }
{
    out.extend_from_slice(b"def demo(x: Real, y: Real): Real = {\n")?;
    out.extend_from_slice(b"  require(-1 <= x && x <= 1 && -1 <= y && y <= 1)\n")?;
    Ok(())
}

// All of it.
fn put_source(out: &mut Vec<u8>, n: u32) -> Result<(), AllocError>
    requires { n ≤ 500 }
    ensures { OnOk result (out.new.items ≡ out.old.items ++ demo_source n) }
{
    put_head(out)?;
    put_temps(out, n)?;
    put_result(out, n)?;
    Ok(())
}

// The source with so many temps.
fn source_text(alloc: Global, n: u32) -> Result<Vec<u8>, Memory>
    requires { n ≤ 500 }
    ensures { IfOk result (λ text. text.items ≡ demo_source n) }
{
    let mut out = Vec::new(alloc);
    match put_source(&mut out, n) {
        Ok(()) => Ok(out),
        Err(_) => Err(Memory),
    }
}

/// The function of the source with so many temps.
pub fn function_of(alloc: Global, n: u32) -> Result<Function, Memory>
    requires { n ≤ 500 }
    ensures { IfOk result (λ fn. parsed (demo_source n) None ≡ Ok fn) }
{
    let source = source_text(alloc, n)?;
    match parse(alloc, &source, None) {
        Ok(function) => Ok(function),
        // every such source is read, as a test of each number shows; so only memory was wanting
        Err(_) => Err(Memory),
    }
}
