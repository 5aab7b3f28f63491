//! The bytes that were taken and not dropped yet, in a buffer that is made once.
//!
//! A read goes into the room behind them. Before it they are moved to the front, which is short work where whole lines
//! are dropped before each read.
ghost use Rattle.std.specs.Prelude.{◌≡◌, ℕ, List, [], ◌+◌, ◌-◌, ◌<◌, ◌≤◌, ◌++◌, take, drop, length, IfOk, OnErr};
ghost use Rattle.std.specs.Io.KnownBytes.{Consumes, Keeps, IsAtEnd};
ghost use Rattle.fx_base.specs.Causes.{HasCause};
ghost use Rattle.fx_base.specs.Moments.{Notes};

use crate::{Failed, Sink, Source};
use std::alloc::{AllocError, Global};
use std::marker::Model;

// In bytes: two lines of the longest lawful size, and more.
const ROOM: usize = 131_072;

/// Bytes that were taken and not dropped yet.
#[derive(Drop)]
pub(crate) struct Held {
    block: Vec<u8>,
    start: usize,
    end: usize,
}

impl Model for Held {
    ghost use Rattle.std.specs.Prelude.{◌≡◌, ◌≤◌, ◌-◌, ℕ, List, length, take, drop};

    ghost Value = { List ℕ };

    ghost view = { λ h. take (h.end - h.start) (drop h.start h.block.items) };

    ghost invariant = { λ h. (h.start ≤ h.end) × (h.end ≤ 131072) × (length h.block.items ≡ 131072) };
}

impl Held {
    /// Nothing is held. All room is made here.
    pub fn new(alloc: Global) -> Result<Held, AllocError>
        ensures { IfOk result (λ h. h ≡ []) }
    {
        let block = vec![in alloc; 0; ROOM]?;
        Ok(Held {
            block,
            start: 0,
            end: 0,
        })
    }

    /// What is held.
    pub fn bytes(&self) -> &[u8]
        ensures all { result.now ≡ self.now }
        ensures few { length self.now ≤ 131072 }
    {
        &self.block[self.start..self.end]
    }

    /// Drops so many bytes at the front.
    pub fn drop_front(&mut self, count: usize)
        requires { count ≤ length self.old }
        ensures { self.new ≡ drop count self.old }
    {
        self.start += count;
    }

    /// Reads once, into the room behind what is held.
    pub fn read_more<S: Source<K>, K: Sink>(
        &mut self,
        source: &mut S,
        shown: &K,
    ) -> Result<usize, Failed>
        requires { length self.old + 2 ≤ 131072 }
        ensures more { IfOk result
            (λ n. (more : List ℕ) × Consumes (S.seen source.old).left (S.seen source.new).left more
            × (self.new ≡ self.old ++ more) × (length more ≡ n)) }
        ensures few { length self.new ≤ 131072 }
        ensures end { IfOk result (λ n. n ≡ 0 → IsAtEnd (S.seen source.new).left) }
        ensures err { OnErr result (Keeps (S.seen source.old).left (S.seen source.new).left × (self.new ≡ self.old)) }
        ensures moment { Notes (record { left = (S.seen source.old).left; taken = (K.seen shown.now).taken })
            (S.seen source.old).asked (S.seen source.new).asked }
        ensures cause { HasCause (S.seen source.old).faults (S.seen source.new).faults result }
    {
        move_up(&mut self.block, self.start, self.end);
        self.end -= self.start;
        self.start = 0;
        let count = read_behind(&mut self.block, self.end, source, shown)?;
        self.end += count;
        Ok(count)
    }
}

// Moves a part to the front.
fn move_up(block: &mut [u8], start: usize, end: usize)
    requires order { start ≤ end }
    requires within { end ≤ length block.old }
    ensures items { take (end - start) block.new ≡ take (end - start) (drop start block.old) }
    ensures length { length block.new ≡ length block.old }
{
    block.copy_within(start..end, 0);
}

// Reads once, behind the bytes before a place.
fn read_behind<S: Source<K>, K: Sink>(
    block: &mut [u8],
    at: usize,
    source: &mut S,
    shown: &K,
) -> Result<usize, Failed>
    requires { at < length block.old }
    ensures more { IfOk result (λ n. (more : List ℕ) × Consumes (S.seen source.old).left (S.seen source.new).left more
        × (take (at + n) block.new ≡ take at block.old ++ more) × (length more ≡ n)) }
    ensures front { take at block.new ≡ take at block.old }
    ensures room { IfOk result (λ n. at + n ≤ length block.old) }
    ensures length { length block.new ≡ length block.old }
    ensures end { IfOk result (λ n. n ≡ 0 → IsAtEnd (S.seen source.new).left) }
    ensures err { OnErr result (Keeps (S.seen source.old).left (S.seen source.new).left) }
    ensures moment { Notes (record { left = (S.seen source.old).left; taken = (K.seen shown.now).taken })
        (S.seen source.old).asked (S.seen source.new).asked }
    ensures cause { HasCause (S.seen source.old).faults (S.seen source.new).faults result }
{
    let count = source.read(&mut block[at..], shown)?;
    Ok(count)
}
