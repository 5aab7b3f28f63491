//! What a name stands for.
//!
//! Each expression of type i128 is written by one function, and in parentheses of its own.

ghost use Rattle.std.specs.Prelude.{◌≡◌, ◌++◌, codes, OnOk};
ghost use Rattle.fx_model.specs.Machine as machine;
ghost use Rattle.fx_program.specs.CodeView.{round_of, kind_of};
ghost use Rattle.fx_statements.specs.Statements.{Over, Left, Widened, Negated, Two, Shifted};
ghost use Rattle.fx_statements.specs.RustText.{wide_text, value_text};
ghost use Rattle.fx_statements.specs.OfProgram.{least_size, rounded, operand, product, value_for};

use crate::piece::{put, put_between, put_cast, put_digits, put_name};
use crate::rounding::{close_rounded, open_rounded};
use fx_program::{Kind, Round};
use std::alloc::AllocError;

/// `(w3 as i128)`.
fn put_widened(out: &mut Vec<u8>, name: u32) -> Result<(), AllocError>
    ensures { OnOk result (out.new.items ≡ out.old.items ++ wide_text (Widened name)) }
{
    put(out, b"(")?;
    put_name(out, name)?;
    put(out, b" as i128)")
}

/// A word, shifted to the left.
fn put_raised(out: &mut Vec<u8>, a: u32, s: u64) -> Result<(), AllocError>
    ensures { OnOk result (out.new.items ≡ out.old.items ++ wide_text (Shifted Left (Widened a) s)) }
{
    put(out, b"(")?;
    put_widened(out, a)?;
    put_between(out, b" << ", s, b")")
}

/// A word, shifted to the right and rounded.
fn put_lowered(out: &mut Vec<u8>, r: Round, a: u32, s: u64) -> Result<(), AllocError>
    ensures { OnOk result (out.new.items ≡ out.old.items ++ wide_text (rounded (round_of r) (Widened a) s)) }
{
    open_rounded(out, r, s)?;
    put_widened(out, a)?;
    close_rounded(out, r, s)?;
    Ok(())
}

/// Either, as the sign of `s` says.
fn put_operand(out: &mut Vec<u8>, r: Round, a: u32, s: i64) -> Result<(), AllocError>
    ensures { OnOk result (out.new.items ≡ out.old.items ++ wide_text (operand (round_of r) a s)) }
{
    if s < 0 {
        put_raised(out, a, s.unsigned_abs())
    } else {
        put_lowered(out, r, a, s.unsigned_abs())
    }
}

/// A sum, or a difference, of two shifted operands, as the text between them says.
fn put_sum(
    out: &mut Vec<u8>,
    a: u32,
    sa: i32,
    operator: &[u8],
    b: u32,
    sb: i32,
) -> Result<(), AllocError>
    ensures { OnOk result (out.new.items ≡ out.old.items ++ codes "(" ++ wide_text (operand machine.Floor a sa)
        ++ operator.now ++ wide_text (operand machine.Floor b sb) ++ codes ")") }
{
    put(out, b"(")?;
    put_operand(out, Round::Floor, a, i64::from(sa))?;
    put(out, operator)?;
    put_operand(out, Round::Floor, b, i64::from(sb))?;
    put(out, b")")
}

/// A product of two words.
fn put_product(out: &mut Vec<u8>, a: u32, b: u32) -> Result<(), AllocError>
    ensures { OnOk result (out.new.items ≡ out.old.items ++ wide_text (product a b)) }
{
    put(out, b"(")?;
    put_widened(out, a)?;
    put(out, b" * ")?;
    put_widened(out, b)?;
    put(out, b")")
}

/// A product of two words, shifted to the right and rounded.
fn put_rounded_product(
    out: &mut Vec<u8>,
    r: Round,
    a: u32,
    b: u32,
    s: u64,
) -> Result<(), AllocError>
    ensures { OnOk result (out.new.items ≡ out.old.items ++ wide_text (rounded (round_of r) (product a b) s)) }
{
    open_rounded(out, r, s)?;
    put_product(out, a, b)?;
    close_rounded(out, r, s)?;
    Ok(())
}

/// A quotient of a raised dividend.
fn put_quotient(out: &mut Vec<u8>, a: u32, b: u32, s: u64) -> Result<(), AllocError>
    ensures { OnOk result (out.new.items ≡ out.old.items
        ++ wide_text (Two Over (Shifted Left (Widened a) s) (Widened b))) }
{
    put(out, b"(")?;
    put_raised(out, a, s)?;
    put(out, b" / ")?;
    put_widened(out, b)?;
    put(out, b")")
}

/// A negation.
fn put_negation(out: &mut Vec<u8>, a: u32) -> Result<(), AllocError>
    ensures { OnOk result (out.new.items ≡ out.old.items ++ wide_text (Negated (Widened a))) }
{
    put(out, b"(-")?;
    put_widened(out, a)?;
    put(out, b")")
}

/// What the name of such a code stands for, at the type of the width.
pub fn put_value(out: &mut Vec<u8>, width: u32, kind: Kind) -> Result<(), AllocError>
    ensures { OnOk result (out.new.items ≡ out.old.items ++ value_text (least_size width) (value_for (kind_of kind))) }
{
    match kind {
        Kind::Input { k, .. } => {
            put_between(out, b"x[", k, b"]")?;
            put_cast(out, width)
        }
        Kind::State { k, .. } => {
            put_between(out, b"s[", k, b"]")?;
            put_cast(out, width)
        }
        Kind::Const { w, .. } => put_digits(out, w),
        Kind::Neg { a } => {
            put_negation(out, a)?;
            put_cast(out, width)
        }
        Kind::Add { a, b, sa, sb } => {
            put_sum(out, a, sa, b" + ", b, sb)?;
            put_cast(out, width)
        }
        Kind::Sub { a, b, sa, sb } => {
            put_sum(out, a, sa, b" - ", b, sb)?;
            put_cast(out, width)
        }
        Kind::Mul { r, a, b, s } => {
            put_rounded_product(out, r, a, b, u64::from(s))?;
            put_cast(out, width)
        }
        Kind::Div { a, b, s } => {
            put_quotient(out, a, b, u64::from(s))?;
            put_cast(out, width)
        }
        Kind::Copy { r, a, s } => {
            put_operand(out, r, a, s)?;
            put_cast(out, width)
        }
    }
}
