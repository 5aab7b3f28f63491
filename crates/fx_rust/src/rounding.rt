//! What stands around an expression that is shifted to the right and rounded.
//!
//! The trap: by no shift nothing is dropped, so there the nearest has no half. No lawful code asks for it, but the
//! clauses do.

ghost use Rattle.std.specs.Prelude.{◌≡◌, ◌++◌, ◌<◌, ◌-◌, codes, decimal, OnOk};
ghost use Rattle.fx_program.specs.CodeView.{round_of};
ghost use Rattle.fx_rust.specs.Around.{opening, closing};

use crate::piece::{put, put_between};
use fx_program::Round;
use std::alloc::AllocError;

/// What stands before it.
pub fn open_rounded(out: &mut Vec<u8>, r: Round, s: u64) -> Result<(), AllocError>
    ensures { OnOk result (out.new.items ≡ out.old.items ++ opening (round_of r) s) }
{
    match r {
        Round::Nearest if s > 0 => put(out, b"(("),
        _ => put(out, b"("),
    }
}

/// Half a unit of what is kept.
fn put_half(out: &mut Vec<u8>, s: u64) -> Result<(), AllocError>
    requires { 0 < s }
    ensures { OnOk result (out.new.items ≡ out.old.items ++ codes " + (1i128 << " ++ decimal (s - 1) ++ codes "))") }
{
    put_between(out, b" + (1i128 << ", s - 1, b"))")
}

/// What stands behind it.
pub fn close_rounded(out: &mut Vec<u8>, r: Round, s: u64) -> Result<(), AllocError>
    ensures { OnOk result (out.new.items ≡ out.old.items ++ closing (round_of r) s) }
{
    match r {
        Round::Nearest if s > 0 => put_half(out, s)?,
        _ => {}
    }
    put_between(out, b" >> ", s, b")")
}
