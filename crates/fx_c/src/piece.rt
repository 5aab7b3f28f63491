//! The least pieces of a text.
//!
//! Each call appends what its clause says. What a failed call has appended isn't told: its caller drops the text.

ghost use Rattle.std.specs.Prelude.{◌≡◌, ◌++◌, codes, decimal, OnOk};
ghost use Rattle.fx_statements.specs.OfProgram.{least_size};
ghost use Rattle.fx_c99.specs.CText.{type_text, c_cast_text, working_text, power_text, floor_name, literal_text};

use fx_rust::{put, put_between, put_digits};
use std::alloc::AllocError;

/// The type of a width.
pub fn put_type(out: &mut Vec<u8>, width: u32) -> Result<(), AllocError>
    ensures { OnOk result (out.new.items ≡ out.old.items ++ type_text (least_size width)) }
{
    if width <= 8 {
        put(out, b"int8_t")
    } else if width <= 16 {
        put(out, b"int16_t")
    } else if width <= 32 {
        put(out, b"int32_t")
    } else {
        put(out, b"int64_t")
    }
}

/// `(int16_t)`.
pub fn put_cast(out: &mut Vec<u8>, width: u32) -> Result<(), AllocError>
    ensures { OnOk result (out.new.items ≡ out.old.items ++ c_cast_text (least_size width)) }
{
    put(out, b"(")?;
    put_type(out, width)?;
    put(out, b")")
}

/// The type of so many bits, to compute in.
pub fn put_working(out: &mut Vec<u8>, bits: u32) -> Result<(), AllocError>
    ensures { OnOk result (out.new.items ≡ out.old.items ++ working_text bits) }
{
    if bits == 32 {
        put(out, b"int32_t")
    } else if bits == 64 {
        put(out, b"int64_t")
    } else {
        put(out, b"fixd_wide")
    }
}

/// The helping function at so many bits.
pub fn put_floor_name(out: &mut Vec<u8>, bits: u32) -> Result<(), AllocError>
    ensures { OnOk result (out.new.items ≡ out.old.items ++ floor_name bits) }
{
    put(out, b"fixd_floor")?;
    put_digits(out, bits)
}

// `(int32_t)16384`.
fn put_literal_power(out: &mut Vec<u8>, bits: u32, n: u64) -> Result<(), AllocError>
    ensures { OnOk result (out.new.items ≡ out.old.items ++ codes "(" ++ working_text bits ++ codes ")" ++ decimal n) }
{
    put(out, b"(")?;
    put_working(out, bits)?;
    put(out, b")")?;
    put_digits(out, n)
}

// `((fixd_wide)1 << 64)`.
fn put_shifted_one(out: &mut Vec<u8>, bits: u32, s: u64) -> Result<(), AllocError>
    ensures { OnOk result (out.new.items ≡ out.old.items ++ codes "((" ++ working_text bits ++ codes ")1 << "
        ++ decimal s ++ codes ")") }
{
    put(out, b"((")?;
    put_working(out, bits)?;
    put_between(out, b")1 << ", s, b")")
}

/// A power of two.
pub fn put_power(out: &mut Vec<u8>, bits: u32, s: u64) -> Result<(), AllocError>
    ensures { OnOk result (out.new.items ≡ out.old.items ++ power_text bits s) }
{
    if s < 63 {
        put_literal_power(out, bits, 1 << s)
    } else {
        put_shifted_one(out, bits, s)
    }
}

/// A word.
pub fn put_literal(out: &mut Vec<u8>, w: i64) -> Result<(), AllocError>
    ensures { OnOk result (out.new.items ≡ out.old.items ++ literal_text w) }
{
    if w == i64::MIN {
        put(out, b"INT64_MIN")
    } else {
        put_digits(out, w)
    }
}
