//! The least pieces of a text.
//!
//! Each call appends what its clause says. What a failed call has appended isn't told: its caller drops the text.

ghost use Rattle.std.specs.Prelude.{◌≡◌, ◌++◌, codes, decimal, OnOk};
ghost use Rattle.fx_statements.specs.RustText.{size_text, cast_text};
ghost use Rattle.fx_statements.specs.OfProgram.{least_size};

use itoa::{Buffer, Integer};
use std::alloc::AllocError;

/// A text as it is.
pub fn put(out: &mut Vec<u8>, text: &[u8]) -> Result<(), AllocError>
    ensures { OnOk result (out.new.items ≡ out.old.items ++ text.now) }
{
    out.extend_from_slice(text)
}

/// A whole number, with no space before it.
pub fn put_digits<I: Integer>(out: &mut Vec<u8>, n: I) -> Result<(), AllocError>
    ensures { OnOk result (out.new.items ≡ out.old.items ++ I.text n) }
{
    let mut buffer = Buffer::new();
    put(out, buffer.format(n).as_bytes())
}

/// A whole number between two texts.
pub fn put_between<I: Integer>(
    out: &mut Vec<u8>,
    before: &[u8],
    n: I,
    behind: &[u8],
) -> Result<(), AllocError>
    ensures { OnOk result (out.new.items ≡ out.old.items ++ before.now ++ I.text n ++ behind.now) }
{
    put(out, before)?;
    put_digits(out, n)?;
    put(out, behind)
}

/// An element of an array, between two texts of which the second one has the closing bracket.
pub fn put_element<I: Integer>(
    out: &mut Vec<u8>,
    before: &[u8],
    array: &[u8],
    k: I,
    behind: &[u8],
) -> Result<(), AllocError>
    ensures { OnOk result (out.new.items ≡ out.old.items ++ before.now ++ array.now ++ codes "[" ++ I.text k
        ++ behind.now) }
{
    put(out, before)?;
    put(out, array)?;
    put_between(out, b"[", k, behind)
}

/// `NAME, width 16`.
pub fn put_title(out: &mut Vec<u8>, title: &[u8], width: u32) -> Result<(), AllocError>
    ensures { OnOk result (out.new.items ≡ out.old.items ++ title.now ++ codes ", width " ++ decimal width) }
{
    put(out, title)?;
    put(out, b", width ")?;
    put_digits(out, width)
}

/// `w3`.
pub fn put_name<I: Integer>(out: &mut Vec<u8>, name: I) -> Result<(), AllocError>
    ensures { OnOk result (out.new.items ≡ out.old.items ++ codes "w" ++ I.text name) }
{
    put(out, b"w")?;
    put_digits(out, name)
}

/// The type of a width.
pub fn put_size(out: &mut Vec<u8>, width: u32) -> Result<(), AllocError>
    ensures { OnOk result (out.new.items ≡ out.old.items ++ size_text (least_size width)) }
{
    if width <= 8 {
        put(out, b"i8")
    } else if width <= 16 {
        put(out, b"i16")
    } else if width <= 32 {
        put(out, b"i32")
    } else {
        put(out, b"i64")
    }
}

/// ` as i16`.
pub fn put_cast(out: &mut Vec<u8>, width: u32) -> Result<(), AllocError>
    ensures { OnOk result (out.new.items ≡ out.old.items ++ cast_text (least_size width)) }
{
    put(out, b" as ")?;
    put_size(out, width)
}
