//! What stands around an expression that is shifted to the right and rounded.

ghost use Rattle.std.specs.Prelude.{◌≡◌, ◌++◌, ◌<◌, ◌-◌, codes, OnOk};
ghost use Rattle.fx_program.specs.CodeView.{round_of};
ghost use Rattle.fx_c99.specs.CText.{power_text};
ghost use Rattle.fx_c.specs.Around.{opening, closing};

use crate::piece::{put_floor_name, put_power};
use fx_program::Round;
use fx_rust::{put, put_between};
use std::alloc::AllocError;

/// What stands before it.
pub fn open_rounded(out: &mut Vec<u8>, bits: u32, r: Round, s: u64) -> Result<(), AllocError>
    ensures { OnOk result (out.new.items ≡ out.old.items ++ opening bits (round_of r) s) }
{
    if s == 0 {
        return Ok(());
    }
    put_floor_name(out, bits)?;
    match r {
        Round::Floor => put(out, b"("),
        Round::Nearest => put(out, b"(("),
    }
}

// Half a unit of what is kept.
fn put_half(out: &mut Vec<u8>, bits: u32, s: u64) -> Result<(), AllocError>
    requires { 0 < s }
    ensures { OnOk result (out.new.items ≡ out.old.items ++ codes " + " ++ power_text bits (s - 1) ++ codes ")") }
{
    put(out, b" + ")?;
    put_power(out, bits, s - 1)?;
    put(out, b")")
}

/// What stands behind it.
pub fn close_rounded(out: &mut Vec<u8>, bits: u32, r: Round, s: u64) -> Result<(), AllocError>
    ensures { OnOk result (out.new.items ≡ out.old.items ++ closing bits (round_of r) s) }
{
    if s == 0 {
        return Ok(());
    }
    match r {
        Round::Floor => {}
        Round::Nearest => put_half(out, bits, s)?,
    }
    put_between(out, b", ", s, b"U)")
}
