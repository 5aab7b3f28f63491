//! The reads behind a line: until its end is held, or it is too long, or the input ends.
//!
//! Bytes that were searched for a line's end aren't searched again, so that a line in pieces of one byte stays linear.
//! The trap: a line may be too long only with its mark and its carriage return, which are no part of it.
ghost use Rattle.std.specs.Prelude.{◌≡◌, ◌≢◌, ℕ, List, ◌+◌, ◌-◌, ◌^◌, ◌<◌, ◌≤◌, ◌==◌, ◌++◌, ◌↔◌, min, length, position, IfOk, OnOk, IsErrOf, None};
ghost use Rattle.std.specs.Io.KnownBytes.{Consumes};
ghost use Rattle.fx_base.specs.Causes.{Rose};
ghost use Rattle.fx_base.specs.declared.answers.LineFault.TheVariants.{ReadFault};
ghost use Rattle.fx_base.specs.Fetches.{HasFetched};
ghost use Rattle.fx_base.specs.Moments.{HoldsEachTime, IsSought};

use crate::cuts::line_end_from;
use crate::held::Held;
use crate::{LineFault, Sink, Source};

/// What is held once a line was sought.
#[derive(Clone, Copy)]
pub(crate) enum Fetched {
    // The first line's end stands there.
    Whole(usize),
    // No end stands within what a line may have.
    Long,
    // The input has ended, and no line's end is held.
    Ended,
}

// A mark, a line of the greatest length and a carriage return.
const LONG: usize = 65_540;

/// Reads until the bytes hold a line's end, or more than a line may have. `ahead` is the end that they hold already.
pub(crate) fn fetch<S: Source<K>, K: Sink>(
    held: &mut Held,
    ahead: Option<usize>,
    taken: &mut u64,
    limit: u64,
    source: &mut S,
    shown: &K,
) -> Result<Fetched, LineFault>
    requires ahead { ahead ≡ position (λ b. b == 10) held.old }
    requires room { length held.old ≤ 131072 }
    requires limit { limit < 2 ^ 64 - 1 }
    requires within { taken.old ≤ limit }
    ensures more { (more : List ℕ) × Consumes (S.seen source.old).left (S.seen source.new).left more
        × (held.new ≡ held.old ++ more) × (taken.new ≡ min (taken.old + length more) (2 ^ 64 - 1)) }
    ensures fetched { IfOk result (HasFetched held.new (S.seen source.new).left) }
    ensures within { OnOk result (taken.new ≤ limit) }
    ensures no_line { IsErrOf result LineFault.ReadFault → position (λ b. b == 10) held.new ≡ None }
    ensures read_fault { IsErrOf result LineFault.ReadFault →
        Rose (S.seen source.old).faults (S.seen source.new).faults }
    ensures too_long { IsErrOf result LineFault.TooLong ↔ (limit < taken.new) }
    ensures lazy { ahead ≢ None → (source.new ≡ source.old) × (held.new ≡ held.old) × (taken.new ≡ taken.old) }
    ensures sought { HoldsEachTime (IsSought held.old (S.seen source.old).left (K.seen shown.now).taken)
        (S.seen source.old).asked (S.seen source.new).asked }
    ensures later { (S.seen source.old).faults ≤ (S.seen source.new).faults }
    ensures few { length held.new ≤ 131072 }
{
    if let Some(end) = ahead {
        return Ok(Fetched::Whole(end));
    }
    'reads: loop {
        let seen = held.bytes().len();
        if seen > LONG {
            return Ok(Fetched::Long);
        }
        let count = held.read_more(source, shown)?;
        *taken = taken.saturating_add(count as u64);
        if *taken > limit {
            return Err(LineFault::TooLong);
        }
        if count == 0 {
            return Ok(Fetched::Ended);
        }
        if let Some(end) = line_end_from(held.bytes(), seen) {
            return Ok(Fetched::Whole(end));
        }
    }
}
