//! Names that no statement takes, of which compilers warn.

ghost use Rattle.std.specs.Prelude.{◌≡◌, ℕ, List, ◌++◌, ◌||◌, ◌&&◌, ◌<◌, [], length, map, nat_eq, nat_lt, not, false, codes, if◌then◌else◌, OnOk, IfOk};
ghost use Rattle.std.specs.List.{list_any};
ghost use Rattle.fx_model.specs.Tree.{at};
ghost use Rattle.fx_program.specs.CodeView.{kind_of, code_of};
ghost use Rattle.fx_statements.specs.RustText.{name_text};
ghost use Rattle.fx_c99.specs.CText.{unreads_text};
ghost use Rattle.fx_c99.specs.OfProgram.{c_lets_from};
ghost use Rattle.fx_c.specs.Around.{code_takes};

use fx_program::{Code, Kind};
use fx_rust::{put, put_name};
use std::alloc::{AllocError, Global};

// Marks the name of code `a`.
fn mark(taken: &mut [bool], a: u32)
    ensures length { length taken.new ≡ length taken.old }
    ensures each { (m : ℕ) → m < length taken.old →
        at false taken.new m ≡ (at false taken.old m || nat_eq a m) }
{
    let a = a as usize;
    if a < taken.len() {
        taken[a] = true;
    }
}

// Marks the names of two codes.
fn mark_both(taken: &mut [bool], a: u32, b: u32)
    ensures length { length taken.new ≡ length taken.old }
    ensures each { (m : ℕ) → m < length taken.old →
        at false taken.new m ≡ (at false taken.old m || (nat_eq a m || nat_eq b m)) }
{
    mark(taken, a);
    mark(taken, b);
}

// Marks the names that a code of this kind takes.
fn mark_operands(taken: &mut [bool], kind: Kind)
    ensures length { length taken.new ≡ length taken.old }
    ensures each { (m : ℕ) → m < length taken.old →
        at false taken.new m ≡ (at false taken.old m || code_takes m (kind_of kind)) }
{
    match kind {
        Kind::Input { .. } | Kind::State { .. } | Kind::Const { .. } => {}
        Kind::Neg { a } => mark(taken, a),
        Kind::Add { a, b, .. } => mark_both(taken, a, b),
        Kind::Sub { a, b, .. } => mark_both(taken, a, b),
        Kind::Mul { a, b, .. } => mark_both(taken, a, b),
        Kind::Div { a, b, .. } => mark_both(taken, a, b),
        Kind::Copy { a, .. } => mark(taken, a),
    }
}

// Which names are taken, in one pass over the codes.
fn taken_names(alloc: Global, codes: &[Code]) -> Result<Vec<bool>, AllocError>
    ensures length { IfOk result (λ taken. length taken.items ≡ length codes.now) }
    ensures each { IfOk result (λ taken. (m : ℕ) → m < length codes.now →
        at false taken.items m ≡ list_any (code_takes m) (map code_of codes.now)) }
{
    let mut taken = vec![in alloc; false; codes.len()]?;
    for code in codes {
        mark_operands(&mut taken, code.kind());
    }
    Ok(taken)
}

// `    (void)w3;`, if the name isn't taken and is one of the first.
fn put_unread(out: &mut Vec<u8>, name: usize, first: usize, taken: bool) -> Result<(), AllocError>
    ensures { OnOk result (out.new.items ≡ out.old.items
        ++ (if nat_lt name first && not taken then codes "    (void)" ++ (name_text name ++ codes ";\n") else [])) }
{
    if name < first && !taken {
        put(out, b"    (void)")?;
        put_name(out, name)?;
        put(out, b";\n")
    } else {
        Ok(())
    }
}

/// Each of the first names that no statement takes, as a statement that takes it.
pub fn put_unreads(
    alloc: Global,
    out: &mut Vec<u8>,
    first: usize,
    codes: &[Code],
) -> Result<(), AllocError>
    ensures { (n : ℕ) (widths : List ℕ) → OnOk result (out.new.items ≡ out.old.items
        ++ unreads_text (c_lets_from n 0 widths (map code_of codes.now)) first
        (c_lets_from n 0 widths (map code_of codes.now))) }
{
    let taken = taken_names(alloc, codes)?;
    for name in 0..codes.len() {
        put_unread(out, name, first, taken[name])?;
    }
    Ok(())
}
