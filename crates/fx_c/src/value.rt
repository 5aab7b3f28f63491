//! What a name stands for.
//!
//! Each expression is written by one function, for the number of bits that its statement computes in.

ghost use Rattle.std.specs.Prelude.{◌≡◌, ◌++◌, codes, OnOk};
ghost use Rattle.fx_model.specs.Machine as machine;
ghost use Rattle.fx_program.specs.CodeView.{round_of, kind_of};
ghost use Rattle.fx_statements.specs.Statements.{Over, Widened, Negated, Two, Narrowed};
ghost use Rattle.fx_statements.specs.RustText.{operator_text};
ghost use Rattle.fx_statements.specs.OfProgram.{least_size, product};
ghost use Rattle.fx_c99.specs.CText.{c_wide_text, c_value_text};
ghost use Rattle.fx_c99.specs.OfProgram.{raised, c_rounded, c_operand, c_value_for};
ghost use Rattle.fx_c.specs.Choices.{operator_of};

use crate::piece::{put_cast, put_literal, put_power, put_working};
use crate::rounding::{close_rounded, open_rounded};
use crate::working::{Sign, copy_bits, double_bits, few, plain_bits, sum_bits};
use fx_program::{Kind, Round};
use fx_rust::{put, put_between, put_name};
use std::alloc::AllocError;

// `(int32_t)w3`.
fn put_widened(out: &mut Vec<u8>, bits: u32, name: u32) -> Result<(), AllocError>
    ensures { OnOk result (out.new.items ≡ out.old.items ++ c_wide_text bits (Widened name)) }
{
    put(out, b"(")?;
    put_working(out, bits)?;
    put(out, b")")?;
    put_name(out, name)
}

// A word, times a power of two.
fn put_raised(out: &mut Vec<u8>, bits: u32, a: u32, s: u64) -> Result<(), AllocError>
    ensures { OnOk result (out.new.items ≡ out.old.items ++ c_wide_text bits (raised a s)) }
{
    put(out, b"(")?;
    put_widened(out, bits, a)?;
    put(out, b" * ")?;
    put_power(out, bits, s)?;
    put(out, b")")
}

// A word, shifted to the right and rounded.
fn put_lowered(out: &mut Vec<u8>, bits: u32, r: Round, a: u32, s: u64) -> Result<(), AllocError>
    ensures { OnOk result (out.new.items ≡ out.old.items ++ c_wide_text bits (c_rounded (round_of r) (Widened a) s)) }
{
    open_rounded(out, bits, r, s)?;
    put_widened(out, bits, a)?;
    close_rounded(out, bits, r, s)?;
    Ok(())
}

// An operand that is rounded down, or raised, as the sign of `s` says.
fn put_operand(out: &mut Vec<u8>, width: u32, bits: u32, a: u32, s: i64) -> Result<(), AllocError>
    ensures { OnOk result (out.new.items ≡ out.old.items ++ c_wide_text bits (c_operand width machine.Floor a s)) }
{
    if s < 0 {
        put_raised(out, bits, a, s.unsigned_abs())
    } else {
        put_lowered(out, bits, Round::Floor, a, few(width, s.unsigned_abs()))
    }
}

// A copy.
fn put_copy(
    out: &mut Vec<u8>,
    width: u32,
    bits: u32,
    r: Round,
    a: u32,
    s: i64,
) -> Result<(), AllocError>
    ensures { OnOk result (out.new.items ≡ out.old.items ++ c_wide_text bits (c_operand width (round_of r) a s)) }
{
    match r {
        Round::Floor => put_operand(out, width, bits, a, s),
        Round::Nearest if s < 0 => put_raised(out, bits, a, s.unsigned_abs()),
        Round::Nearest => put_lowered(out, bits, Round::Nearest, a, s.unsigned_abs()),
    }
}

// What stands between two operands.
fn put_sign(out: &mut Vec<u8>, sign: Sign) -> Result<(), AllocError>
    ensures { OnOk result (out.new.items ≡ out.old.items ++ operator_text (operator_of sign)) }
{
    match sign {
        Sign::Plus => put(out, b" + "),
        Sign::Minus => put(out, b" - "),
    }
}

// A sum, or a difference, of two shifted operands, in so many bits.
fn put_sum(
    out: &mut Vec<u8>,
    width: u32,
    bits: u32,
    sign: Sign,
    a: u32,
    sa: i32,
    b: u32,
    sb: i32,
) -> Result<(), AllocError>
    ensures { OnOk result (out.new.items ≡ out.old.items ++ codes "("
        ++ c_wide_text bits (c_operand width machine.Floor a sa) ++ operator_text (operator_of sign)
        ++ c_wide_text bits (c_operand width machine.Floor b sb) ++ codes ")") }
{
    put(out, b"(")?;
    put_operand(out, width, bits, a, i64::from(sa))?;
    put_sign(out, sign)?;
    put_operand(out, width, bits, b, i64::from(sb))?;
    put(out, b")")
}

// A product of two words.
fn put_product(out: &mut Vec<u8>, bits: u32, a: u32, b: u32) -> Result<(), AllocError>
    ensures { OnOk result (out.new.items ≡ out.old.items ++ c_wide_text bits (product a b)) }
{
    put(out, b"(")?;
    put_widened(out, bits, a)?;
    put(out, b" * ")?;
    put_widened(out, bits, b)?;
    put(out, b")")
}

// A product of two words, shifted to the right and rounded.
fn put_rounded_product(
    out: &mut Vec<u8>,
    bits: u32,
    r: Round,
    a: u32,
    b: u32,
    s: u64,
) -> Result<(), AllocError>
    ensures { OnOk result (out.new.items ≡ out.old.items ++ c_wide_text bits (c_rounded (round_of r) (product a b) s)) }
{
    open_rounded(out, bits, r, s)?;
    put_product(out, bits, a, b)?;
    close_rounded(out, bits, r, s)?;
    Ok(())
}

// A quotient of a raised dividend.
fn put_quotient(out: &mut Vec<u8>, bits: u32, a: u32, b: u32, s: u64) -> Result<(), AllocError>
    ensures { OnOk result (out.new.items ≡ out.old.items ++ c_wide_text bits (Two Over (raised a s) (Widened b))) }
{
    put(out, b"(")?;
    put_raised(out, bits, a, s)?;
    put(out, b" / ")?;
    put_widened(out, bits, b)?;
    put(out, b")")
}

// A negation.
fn put_negation(out: &mut Vec<u8>, bits: u32, a: u32) -> Result<(), AllocError>
    ensures { OnOk result (out.new.items ≡ out.old.items ++ c_wide_text bits (Negated (Widened a))) }
{
    put(out, b"(-")?;
    put_widened(out, bits, a)?;
    put(out, b")")
}

// A sum, or a difference, in the type that it is computed in, and cast.
fn put_cast_sum(
    out: &mut Vec<u8>,
    width: u32,
    own: u32,
    sign: Sign,
    a: u32,
    sa: i32,
    b: u32,
    sb: i32,
) -> Result<(), AllocError>
    ensures { OnOk result (out.new.items ≡ out.old.items ++ c_value_text width (least_size own) (Narrowed
        (Two (operator_of sign) (c_operand width machine.Floor a sa) (c_operand width machine.Floor b sb)))) }
{
    let bits = sum_bits(width, sign, a, sa, b, sb);
    put_cast(out, own)?;
    put_sum(out, width, bits, sign, a, sa, b, sb)?;
    Ok(())
}

/// What the name of such a code stands for, at the type of its own width.
pub fn put_value(out: &mut Vec<u8>, width: u32, own: u32, kind: Kind) -> Result<(), AllocError>
    ensures { OnOk result (out.new.items ≡ out.old.items
        ++ c_value_text width (least_size own) (c_value_for width (kind_of kind))) }
{
    match kind {
        Kind::Input { k, .. } => {
            put_cast(out, own)?;
            put_between(out, b"input[", k, b"]")
        }
        Kind::State { k, .. } => {
            put_cast(out, own)?;
            put_between(out, b"state[", k, b"]")
        }
        Kind::Const { w, .. } => put_literal(out, w),
        Kind::Neg { a } => {
            put_cast(out, own)?;
            put_negation(out, plain_bits(width), a)
        }
        Kind::Add { a, b, sa, sb } => put_cast_sum(out, width, own, Sign::Plus, a, sa, b, sb),
        Kind::Sub { a, b, sa, sb } => put_cast_sum(out, width, own, Sign::Minus, a, sa, b, sb),
        Kind::Mul { r, a, b, s } => {
            put_cast(out, own)?;
            put_rounded_product(out, double_bits(width), r, a, b, u64::from(s))
        }
        Kind::Div { a, b, s } => {
            put_cast(out, own)?;
            put_quotient(out, double_bits(width), a, b, u64::from(s))
        }
        Kind::Copy { r, a, s } => {
            put_cast(out, own)?;
            put_copy(out, width, copy_bits(width, r, a, s), r, a, s)
        }
    }
}
