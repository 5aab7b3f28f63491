//! Reading the path of a rewriting step.

ghost use Rattle.std.specs.Prelude.{◌≡◌, ◌-◌, map, IfOk};
ghost use Rattle.fx_text.specs.Lines.{GivesFields, GivesLine};
ghost use Rattle.fx_cert_text.specs.FieldReading.{are_turns, known_turns, known_path, path_at};

use fx_expr::Items;
use fx_num::HEIGHT_LIMIT;
use fx_text::{Fields, TextKind};
use std::alloc::{AllocError, Global};

fn are_turns(text: &[u8]) -> bool
    ensures { result ≡ are_turns text.now }
{
    text.iter().all(|c| *c == b'0' || *c == b'1')
}

/// The turn that each digit is.
fn turns(alloc: Global, text: &[u8]) -> Result<Vec<u8>, AllocError>
    ensures { IfOk result (λ v. v.items ≡ map (λ d. d - 48) text.now) }
{
    let mut found = Vec::new(alloc);
    for c in text {
        found.push(c.saturating_sub(b'0'))?;
    }
    Ok(found)
}

/// Turns, as they are written.
#[tactic(auto, unfolding(crate::specs::FieldReading::known_turns))]
fn known_turns(alloc: Global, text: &[u8]) -> Result<Items<u8>, TextKind>
    ensures { GivesLine (λ path. path) result (known_turns text.now) }
{
    if text.is_empty() {
        return Err(TextKind::BadLine);
    }
    if !are_turns(text) {
        return Err(TextKind::BadLine);
    }
    if text.len() > HEIGHT_LIMIT as usize {
        return Err(TextKind::OutOfRange);
    }
    let found = turns(alloc, text)?;
    Ok(Items::from_vec(found))
}

/// A path as it is written, which is a minus where it has no turn.
#[tactic(auto, unfolding(crate::specs::FieldReading::known_path))]
fn known_path(alloc: Global, text: &[u8]) -> Result<Items<u8>, TextKind>
    ensures { GivesLine (λ path. path) result (known_path text.now) }
{
    if text == b"-".as_slice() {
        return Ok(Items::from_vec(Vec::new(alloc)));
    }
    known_turns(alloc, text)
}

/// A path: BadLine where it isn't of its form, else OutOfRange where it is too long.
#[tactic(auto, unfolding(crate::specs::FieldReading::path_at))]
pub fn path(alloc: Global, fields: &mut Fields<'_>) -> Result<Items<u8>, TextKind>
    ensures { GivesFields (λ path. path) result fields.new (path_at fields.old) }
{
    let field = fields.next().ok_or(TextKind::BadLine)?;
    known_path(alloc, field)
}
