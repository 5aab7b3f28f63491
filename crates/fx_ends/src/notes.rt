//! A line on the notes.
//!
//! It goes out in pieces that end at the first failure, and no memory is taken for it.
//! The trap: a line is written when the status is decided already, and one that fails changes nothing.
ghost use Rattle.std.specs.Prelude.{◌∷◌, map, codes, OnOk, OnErr};
ghost use Rattle.std.specs.List.{concat};
ghost use Rattle.std.specs.Io.KnownBytes.{Appends};
ghost use Rattle.fx_base.specs.Causes.{HasCause};
ghost use Rattle.fx_base.specs.Calls.{AppendsFront};
ghost use Rattle.fx_ends.specs.Notes.{IsNoted};

use fx_base::{Failed, Sink, put_all};

/// Writes these pieces one behind the other.
pub fn put_pieces<N: Sink>(pieces: &[&str], notes: &mut N) -> Result<(), Failed>
    ensures all { OnOk result
        (Appends (N.seen notes.old).taken (N.seen notes.new).taken (concat (map (λ p. p.now) pieces.now))) }
    ensures front { OnErr result
        (AppendsFront (N.seen notes.old).taken (N.seen notes.new).taken (concat (map (λ p. p.now) pieces.now))) }
    ensures cause { HasCause (N.seen notes.old).faults (N.seen notes.new).faults result }
{
    for piece in pieces {
        put_all(notes, piece.as_bytes())?;
    }
    Ok(())
}

// Writes the line that a program of this name has of these pieces.
fn put_line<N: Sink>(program: &str, pieces: &[&str], notes: &mut N) -> Result<(), Failed>
    ensures all { OnOk result (Appends (N.seen notes.old).taken (N.seen notes.new).taken
        (concat (program.now ∷ codes ": " ∷ map (λ p. p.now) pieces.now))) }
    ensures front { OnErr result (AppendsFront (N.seen notes.old).taken (N.seen notes.new).taken
        (concat (program.now ∷ codes ": " ∷ map (λ p. p.now) pieces.now))) }
    ensures cause { HasCause (N.seen notes.old).faults (N.seen notes.new).faults result }
{
    put_all(notes, program.as_bytes())?;
    put_all(notes, b": ")?;
    put_pieces(pieces, notes)
}

/// Writes the line that a program of this name has of these pieces, or a front of it where the notes fail.
#[tactic(auto, using(crate::proofs::Noted::noted))]
pub fn note_line<N: Sink>(program: &str, pieces: &[&str], notes: &mut N)
    ensures { IsNoted (N.seen notes.old) (N.seen notes.new)
        (concat (program.now ∷ codes ": " ∷ map (λ p. p.now) pieces.now)) }
{
    let _ = put_line(program, pieces, notes);
}
