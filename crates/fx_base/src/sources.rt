//! What is read from in order: the trait `Source`, and its two kinds in memory.
//!
//! A source tells what is `seen` of it, and may tell the bytes still to come (`left`). Callers are generic, so what
//! they prove of a source that tells holds of the bytes of a real stream, which tells nothing. Whoever feeds a source
//! may look at a sink before more bytes come, so each read is shown that sink: what a caller owes by then can be said
//! of the moments that a source notes (`asked`). `BytesIn` comes in pieces and fails at chosen calls, to show that a
//! caller gives the same bytes whatever the pieces; `CleanIn` never fails. The trap: a method here that states clauses
//! of its own has to repeat the trait's.
ghost use Rattle.std.specs.Prelude.{◌≡◌, ◌≤◌, ◌↔◌, [], length, drop, min, Contains, IsErr, IfOk, OnErr, IsOkAnd, Some};
ghost use Rattle.std.specs.Io.{ReadsAtMost};
ghost use Rattle.std.specs.Io.KnownBytes.{ReadConsumes};
ghost use Rattle.fx_base.specs.Causes.{HasCause, counted};
ghost use Rattle.fx_base.specs.Moments.{Moment, Notes};
ghost use Rattle.fx_base.specs.Views.{SourceView};

use crate::copies::copy_from;
use crate::{Failed, Sink};
use std::marker::Model;

/// A source of bytes, whose feeder sees what the sink `K` has taken. Of the bytes still to come it may tell nothing.
pub trait Source<K: Sink> {
    // What it tells of itself.
    ghost seen: { Self → SourceView };

    /// Puts the next bytes into the front of `buf` and gives their count. `Ok(0)` for a buffer with room is the end of
    /// input. A read that fails takes nothing.
    fn read(&mut self, buf: &mut [u8], shown: &K) -> Result<usize, Failed>
        ensures bound { ReadsAtMost result buf.new }
        ensures bytes { ReadConsumes (seen self.old).left (seen self.new).left result buf.new }
        ensures moment { Notes (record { left = (seen self.old).left; taken = (K.seen shown.now).taken })
            (seen self.old).asked (seen self.new).asked }
        ensures cause { HasCause (seen self.old).faults (seen self.new).faults result };
}

/// Bytes in memory that come in pieces. The reads whose numbers, from 1, stand in a list fail.
#[derive(Debug, Drop)]
pub struct BytesIn {
    bytes: Vec<u8>,
    at: usize,
    piece: usize,
    fails: Vec<u64>,
    calls: u64,
    faults: u64,
}

impl Model for BytesIn {
    ghost use Rattle.std.specs.Prelude.{◌≤◌, drop, vec_len};
    ghost use Rattle.fx_base.specs.Kinds.{InputState};

    ghost Value = { InputState };

    ghost view = { λ s. record {
      left = drop s.at s.bytes.items;
      piece = s.piece;
      fails = s.fails.items;
      calls = s.calls;
      faults = s.faults;
    } };

    ghost invariant = { λ s. (s.at ≤ vec_len s.bytes) × (1 ≤ s.piece) };
}

impl BytesIn {
    /// Each read gives at most `piece` bytes. `fails` has the numbers of the reads that fail, from 1.
    pub fn new(bytes: Vec<u8>, piece: usize, fails: Vec<u64>) -> Self
        requires { 1 ≤ piece }
        ensures { result ≡ record { left = bytes.items; piece = piece; fails = fails.items; calls = 0; faults = 0 } }
    {
        BytesIn {
            bytes,
            at: 0,
            piece,
            fails,
            calls: 0,
            faults: 0,
        }
    }
}

impl<K: Sink> Source<K> for BytesIn {
    ghost use Rattle.fx_base.specs.Kinds.{InputState, after_read};

    ghost seen = { λ s. record { left = Some s.left; asked = []; faults = s.faults } };

    fn read(&mut self, buf: &mut [u8], _shown: &K) -> Result<usize, Failed>
        ensures bound { ReadsAtMost result buf.new }
        ensures bytes { ReadConsumes (Some self.old.left) (Some self.new.left) result buf.new }
        ensures moment { Notes {X = Moment} (record { left = Some self.old.left; taken = (K.seen _shown.now).taken }) []
            [] }
        ensures cause { HasCause self.old.faults self.new.faults result }

        ensures fails { IsErr result ↔ Contains self.old.fails (counted self.old.calls) }
        ensures count { IfOk result (λ n. n ≡ min (min self.old.piece (length buf.old)) (length self.old.left)) }
        ensures after { self.new ≡ after_read self.old result }
        ensures kept { OnErr result (buf.new ≡ buf.old) }
    {
        self.calls = self.calls.saturating_add(1);
        if self.fails.contains(&self.calls) {
            self.faults = self.faults.saturating_add(1);
            return Err(Failed);
        }
        let count = copy_from(&self.bytes, self.at, self.piece, buf);
        self.at += count;
        Ok(count)
    }
}

/// Bytes in memory that never fail to come, each read as many as it has room for.
#[derive(Debug, Drop)]
pub struct CleanIn {
    bytes: Vec<u8>,
    at: usize,
}

impl Model for CleanIn {
    ghost use Rattle.std.specs.Prelude.{ℕ, List, ◌≤◌, drop, vec_len};

    ghost Value = { List ℕ };

    ghost view = { λ s. drop s.at s.bytes.items };

    ghost invariant = { λ s. s.at ≤ vec_len s.bytes };
}

impl CleanIn {
    /// It gives these bytes, from the first one on.
    pub fn new(bytes: Vec<u8>) -> Self
        ensures { result ≡ bytes.items }
    {
        CleanIn { bytes, at: 0 }
    }
}

impl<K: Sink> Source<K> for CleanIn {
    ghost seen = { λ s. record { left = Some s; asked = []; faults = 0 } };

    fn read(&mut self, buf: &mut [u8], _shown: &K) -> Result<usize, Failed>
        ensures bound { ReadsAtMost result buf.new }
        ensures bytes { ReadConsumes (Some self.old) (Some self.new) result buf.new }
        ensures moment { Notes {X = Moment} (record { left = Some self.old; taken = (K.seen _shown.now).taken }) [] [] }
        ensures cause { HasCause 0 0 result }

        ensures count { IsOkAnd result (λ n. n ≡ min (length buf.old) (length self.old)) }
        ensures after { IfOk result (λ n. self.new ≡ drop n self.old) }
    {
        let count = copy_from(&self.bytes, self.at, usize::MAX, buf);
        self.at += count;
        Ok(count)
    }
}
