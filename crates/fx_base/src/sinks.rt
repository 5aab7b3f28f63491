//! What is written to: the trait `Sink`, and its two kinds in memory.
//!
//! A sink may tell the bytes that it has taken (`taken`). `BytesOut` keeps them and fails at chosen calls; `Silent`
//! takes all and tells nothing, for notes that nobody reads.
//! The trap: a sink that answers `Ok(0)` for a piece with bytes would keep its writer in a loop for ever. Clause `some`
//! forbids it, so an adapter over a real stream turns a write of nothing into `Failed`.
ghost use Rattle.std.specs.Prelude.{◌≡◌, [], length, Contains, IsErr, IfOk, Ok, Some, None};
ghost use Rattle.std.specs.Io.{WritesAtMost};
ghost use Rattle.std.specs.Io.KnownBytes.{WriteAppends};
ghost use Rattle.fx_base.specs.Causes.{HasCause, counted};
ghost use Rattle.fx_base.specs.Sink.{WritesSome};
ghost use Rattle.fx_base.specs.Views.{SinkView};

use crate::Failed;
use std::marker::Model;

/// A sink of bytes. Of the bytes that it has taken it may tell nothing.
pub trait Sink {
    // What it tells of itself.
    ghost seen: { Self → SinkView };

    /// Appends the front of `piece` and gives its length, at least 1 for a piece that isn't empty. A write that fails
    /// appends nothing.
    fn write(&mut self, piece: &[u8]) -> Result<usize, Failed>
        ensures bound { WritesAtMost result piece.now }
        ensures some { WritesSome result piece.now }
        ensures bytes { WriteAppends (seen self.old).taken (seen self.new).taken result piece.now }
        ensures cause { HasCause (seen self.old).faults (seen self.new).faults result };
}

/// A list in memory. The writes whose numbers, from 1, stand in a list fail, and so does one that finds no memory.
#[derive(Debug, Drop)]
pub struct BytesOut {
    bytes: Vec<u8>,
    fails: Vec<u64>,
    calls: u64,
    faults: u64,
}

impl Model for BytesOut {
    ghost use Rattle.fx_base.specs.Kinds.{OutputState};

    ghost Value = { OutputState };

    ghost view = { λ s. record { taken = s.bytes.items; fails = s.fails.items; calls = s.calls; faults = s.faults } };
}

impl BytesOut {
    /// Nothing is written yet. `fails` has the numbers of the writes that fail, from 1; its allocator serves the bytes.
    pub fn new(fails: Vec<u64>) -> Self
        ensures { result ≡ record { taken = []; fails = fails.items; calls = 0; faults = 0 } }
    {
        BytesOut {
            bytes: Vec::new(*fails.allocator()),
            fails,
            calls: 0,
            faults: 0,
        }
    }

    /// What was written.
    pub fn bytes(&self) -> &[u8]
        ensures { result.now ≡ self.now.taken }
    {
        &self.bytes
    }
}

impl Sink for BytesOut {
    ghost use Rattle.fx_base.specs.Kinds.{after_write};

    ghost seen = { λ s. record { taken = Some s.taken; faults = s.faults } };

    fn write(&mut self, piece: &[u8]) -> Result<usize, Failed>
        ensures bound { WritesAtMost result piece.now }
        ensures some { WritesSome result piece.now }
        ensures bytes { WriteAppends (Some self.old.taken) (Some self.new.taken) result piece.now }
        ensures cause { HasCause self.old.faults self.new.faults result }

        // Not `↔`: a list that finds no memory fails too.
        ensures fails { Contains self.old.fails (counted self.old.calls) → IsErr result }
        ensures count { IfOk result (λ n. n ≡ length piece.now) }
        ensures after { self.new ≡ after_write self.old piece.now result }
    {
        self.calls = self.calls.saturating_add(1);
        if !self.fails.contains(&self.calls) && self.bytes.extend_from_slice(piece).is_ok() {
            return Ok(piece.len());
        }
        self.faults = self.faults.saturating_add(1);
        Err(Failed)
    }
}

/// Takes every piece whole, and tells nothing.
#[derive(Clone, Copy, Debug)]
pub struct Silent;

impl Silent {
    /// It never fails.
    pub fn new() -> Self
        ensures { (⟦<Silent as Sink>⟧.seen result).faults ≡ 0 }
    {
        Silent
    }
}

impl Sink for Silent {
    ghost seen = { λ s. record { taken = None; faults = 0 } };

    fn write(&mut self, piece: &[u8]) -> Result<usize, Failed>
        ensures bound { WritesAtMost result piece.now }
        ensures some { WritesSome result piece.now }
        ensures bytes { WriteAppends None None result piece.now }
        ensures cause { HasCause 0 0 result }

        ensures count { result ≡ Ok (length piece.now) }
    {
        Ok(piece.len())
    }
}
