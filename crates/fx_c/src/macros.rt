//! The macros of a header, each on a line of its own.

ghost use Rattle.std.specs.Prelude.{◌≡◌, ◌++◌, pos, codes, OnOk};
ghost use Rattle.fx_c99.specs.CHeader.{number_text, macro_text, of_element};

use fx_rust::{put, put_between, put_digits};
use std::alloc::AllocError;

// A number, as `#if` reads it.
fn put_number(out: &mut Vec<u8>, v: i128) -> Result<(), AllocError>
    ensures { OnOk result (out.new.items ≡ out.old.items ++ number_text v) }
{
    if v >= 0 {
        put_digits(out, v)
    } else if v == i128::from(i64::MIN) {
        put(out, b"(-9223372036854775807 - 1)")
    } else {
        put_between(out, b"(", v, b")")
    }
}

// `#define FIXD_NAME_`.
fn open_macro(out: &mut Vec<u8>, title: &[u8]) -> Result<(), AllocError>
    ensures { OnOk result (out.new.items ≡ out.old.items ++ codes "#define FIXD_" ++ title.now ++ codes "_") }
{
    put(out, b"#define FIXD_")?;
    put(out, title)?;
    put(out, b"_")
}

// ` 16`, and the end of the line.
fn close_macro(out: &mut Vec<u8>, v: i128) -> Result<(), AllocError>
    ensures { OnOk result (out.new.items ≡ out.old.items ++ codes " " ++ number_text v ++ codes "\n") }
{
    put(out, b" ")?;
    put_number(out, v)?;
    put(out, b"\n")
}

// `#define FIXD_NAME_WIDTH 16`.
fn put_macro(out: &mut Vec<u8>, title: &[u8], what: &[u8], v: i128) -> Result<(), AllocError>
    ensures { OnOk result (out.new.items ≡ out.old.items ++ macro_text title.now what.now v) }
{
    open_macro(out, title)?;
    put(out, what)?;
    close_macro(out, v)?;
    Ok(())
}

/// `#define FIXD_NAME_INPUT0_LEAST (-4096)`.
pub fn put_element_macro(
    out: &mut Vec<u8>,
    title: &[u8],
    array: &[u8],
    k: u32,
    what: &[u8],
    v: i128,
) -> Result<(), AllocError>
    ensures { OnOk result (out.new.items ≡ out.old.items
        ++ macro_text title.now (of_element array.now k what.now) v) }
{
    open_macro(out, title)?;
    put(out, array)?;
    put_digits(out, k)?;
    put(out, what)?;
    close_macro(out, v)?;
    Ok(())
}

/// `#define FIXD_NAME_INPUTS 1`.
pub fn put_count(out: &mut Vec<u8>, title: &[u8], what: &[u8], n: u32) -> Result<(), AllocError>
    ensures { OnOk result (out.new.items ≡ out.old.items ++ macro_text title.now what.now (pos n)) }
{
    put_macro(out, title, what, i128::from(n))
}

/// `#define FIXD_NAME_INPUT0_POINT 12`.
pub fn put_point(
    out: &mut Vec<u8>,
    title: &[u8],
    array: &[u8],
    k: u32,
    f: i32,
) -> Result<(), AllocError>
    ensures { OnOk result (out.new.items ≡ out.old.items
        ++ macro_text title.now (of_element array.now k (codes "_POINT")) f) }
{
    put_element_macro(out, title, array, k, b"_POINT", i128::from(f))
}
