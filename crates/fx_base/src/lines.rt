//! The lines of a source, one at a time, through a buffer that is made once.
//!
//! A line is answered as soon as the bytes taken hold its end, and a read comes only where they hold none. The mark EF
//! BB BF at the front of the input and a carriage return before a line feed are no part of a line; a last piece without
//! a line feed is a line where it isn't empty. The trap: after that last line the end is answered without a read, since
//! a read may fail and no line would be left for the fault.
ghost use Rattle.std.specs.Prelude.{◌≡◌, ◌≢◌, ℕ, List, [], ◌+◌, ◌-◌, ◌^◌, ◌<◌, ◌≤◌, ◌==◌, ◌++◌, ◌↔◌, ◌⊎◌, true, false, min, length, position, IfOk, IsTrue, OnOk, OnErr, IsErrOf, Ok, None};
ghost use Rattle.std.specs.Io.KnownBytes.{Consumes, IsAtEnd};
ghost use Rattle.fx_base.specs.Causes.{Rose};

use crate::cut::first_cut;
use crate::fetch::fetch;
use crate::held::Held;
use crate::{LineFault, Sink, Source};
use fx_num::Memory;
use std::alloc::Global;
use std::marker::Model;

/// What a step gave.
#[derive(Clone, Copy, Debug, PartialEq, Eq)]
pub enum LineStep {
    /// A line, which `line` gives.
    Line,
    /// The input has ended, and no line is left.
    End,
}

/// The lines of a source, one at a time. All room is made once.
#[derive(Drop)]
pub struct Lines {
    held: Held,
    from: usize,
    to: usize,
    next: usize,
    ahead: Option<usize>,
    number: u64,
    taken: u64,
    limit: u64,
    is_ready: bool,
    is_ended: bool,
}

impl Model for Lines {
    ghost use Rattle.std.specs.Prelude.{◌≡◌, ◌≤◌, ◌<◌, ◌+◌, ◌-◌, ◌^◌, ◌==◌, [], IsTrue, take, drop, length, position};
    ghost use Rattle.fx_base.specs.LineSteps.{LinesState};

    ghost Value = { LinesState };

    ghost view = { λ s. record {
      line = take (s.to - s.from) (drop s.from s.held);
      held = drop s.next s.held;
      number = s.number;
      taken = s.taken;
      limit = s.limit;
      is_ready = s.is_ready;
      is_ended = s.is_ended;
    } };

    ghost invariant = { λ s. (s.from ≤ s.to) × (s.to ≤ length s.held) × (s.next ≤ length s.held)
        × (length s.held ≤ 131072) × (s.limit < 2 ^ 64 - 1)
        × (IsTrue s.is_ready → (s.taken ≤ s.limit) × (s.number + (length s.held - s.next) ≤ s.taken)
        × (s.ahead ≡ position (λ b. b == 10) (drop s.next s.held)))
        × (IsTrue s.is_ended → drop s.next s.held ≡ []) };
}

impl Lines {
    ghost use Rattle.fx_base.specs.LineSteps.{LinesState, TakesLine};
    ghost use Rattle.fx_base.specs.Moments.{HoldsEachTime, IsSought};
    ghost use Rattle.fx_base.specs.Text.{text_at};

    /// Makes all room that is ever needed. More than `limit` bytes are `TooLong`.
    pub fn new(alloc: Global, limit: u64) -> Result<Lines, Memory>
        requires { limit < 2 ^ 64 - 1 }
        ensures { IfOk result (λ s. s ≡ record {
          line = [];
          held = [];
          number = 0;
          taken = 0;
          limit = limit;
          is_ready = true;
          is_ended = false;
        }) }
    {
        let held = Held::new(alloc)?;
        Ok(Lines {
            held,
            from: 0,
            to: 0,
            next: 0,
            ahead: None,
            number: 0,
            taken: 0,
            limit,
            is_ready: true,
            is_ended: false,
        })
    }

    /// Whether a further line may be asked for: no end, no fault and no line of more than 65,536 bytes was answered.
    pub fn ready(&self) -> bool
        ensures { result ≡ self.now.is_ready }
    {
        self.is_ready
    }

    /// The line last answered, of which at most 65,537 bytes are shown.
    pub fn line(&self) -> &[u8]
        ensures { result.now ≡ self.now.line }
    {
        &self.held.bytes()[self.from..self.to]
    }

    /// The number of the line last answered, from 1.
    pub fn number(&self) -> u64
        ensures { result ≡ self.now.number }
    {
        self.number
    }

    /// Whether the bytes that were taken hold the next line whole.
    pub fn holds_line(&self) -> bool
        requires { IsTrue self.now.is_ready }
        ensures { IsTrue result ↔ (position (λ b. b == 10) self.now.held ≢ None) }
    {
        self.ahead.is_some()
    }

    /// Takes the next line, which then stands in `line`. It reads only where no whole line is held, and `shown` is what
    /// whoever feeds the source sees then.
    pub fn next_line<S: Source<K>, K: Sink>(
        &mut self,
        source: &mut S,
        shown: &K,
    ) -> Result<LineStep, LineFault>
        requires { IsTrue self.old.is_ready }
        ensures taken { (more : List ℕ) × Consumes (S.seen source.old).left (S.seen source.new).left more
            × (self.new.taken ≡ min (self.old.taken + length more) (2 ^ 64 - 1))
            × (length self.old.held + length more ≤ 131072)
            × (result ≡ Ok LineStep.Line → TakesLine self.old self.new more)
            × (result ≡ Ok LineStep.End → text_at (self.old.number == 0) (self.old.held ++ more) ≡ [])
            × (OnErr result (self.new.held ≡ self.old.held ++ more)) }
        ensures counts { result ≡ Ok LineStep.Line → IsTrue self.new.is_ready →
            self.new.number + length self.new.held ≤ self.new.taken }
        ensures end { IsTrue self.new.is_ended → IsTrue self.old.is_ended ⊎ IsAtEnd (S.seen source.new).left }
        ensures ended { result ≡ Ok LineStep.End → self.new.is_ended ≡ true }
        ensures stop { result ≢ Ok LineStep.Line → (self.new.line ≡ []) × (self.new.is_ready ≡ false) ×
            (self.new.number ≡ self.old.number) }
        ensures read_fault { IsErrOf result LineFault.ReadFault → Rose (S.seen source.old).faults
            (S.seen source.new).faults
            × (position (λ b. b == 10) self.new.held ≡ None) }
        ensures too_long { IsErrOf result LineFault.TooLong ↔ (self.old.limit < self.new.taken) }
        ensures within { OnOk result (self.new.taken ≤ self.old.limit) }
        ensures limit { self.new.limit ≡ self.old.limit }
        ensures lazy { position (λ b. b == 10) self.old.held ≢ None →
            (source.new ≡ source.old) × (self.new.taken ≡ self.old.taken) × (result ≡ Ok LineStep.Line) }
        ensures after_end { IsTrue self.old.is_ended →
            (source.new ≡ source.old) × (self.new.taken ≡ self.old.taken) × (result ≡ Ok LineStep.End) }
        ensures sought { HoldsEachTime (IsSought self.old.held (S.seen source.old).left (K.seen shown.now).taken)
            (S.seen source.old).asked (S.seen source.new).asked }
        ensures later { (S.seen source.old).faults ≤ (S.seen source.new).faults }
    {
        let is_first = self.number == 0;
        self.held.drop_front(self.next);
        self.from = 0;
        self.to = 0;
        self.next = 0;
        self.is_ready = false;
        if self.is_ended {
            return Ok(LineStep::End);
        }
        let fetched = fetch(
            &mut self.held,
            self.ahead,
            &mut self.taken,
            self.limit,
            source,
            shown,
        )?;
        let bytes = self.held.bytes();
        let Some(cut) = first_cut(bytes, fetched, is_first) else {
            self.next = bytes.len();
            self.is_ended = true;
            return Ok(LineStep::End);
        };
        self.from = cut.from;
        self.to = cut.to;
        self.next = cut.next;
        self.ahead = cut.ahead;
        self.is_ready = cut.is_ready;
        self.is_ended = cut.is_ended;
        self.number += 1;
        Ok(LineStep::Line)
    }
}
