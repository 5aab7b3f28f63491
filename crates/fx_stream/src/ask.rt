//! One turn of the run: what is printed goes out where the next line isn't held whole, and then the line is asked for.
//!
//! Each says what it keeps of a run that stands, so that the loop only passes it on.
//! The trap: a write that fails comes before the read, so it leaves the source untouched.
ghost use Rattle.std.specs.Prelude.{◌≡◌, ◌≢◌, ◌⊎◌, ◌+◌, ◌-◌, ◌^◌, ◌<◌, ◌≤◌, ◌==◌, ◌++◌, ◌∷◌, [], ℕ, List, Option, None, true, position, IsTrue, IfOk, IfErr, OnOk, OnErr, IsErrOf, MatchResult};
ghost use Rattle.fx_base.specs.Causes.{Rose, HasCause};
ghost use Rattle.fx_base.specs.Calls.{AppendsFront};
ghost use Rattle.fx_base.specs.Moments.{HoldsEachTime};
ghost use Rattle.fx_base.specs.declared.answers.LineFault.TheVariants as LineFault;
ghost use Rattle.fx_stream.specs.Rooms.{HasRoom};
ghost use Rattle.fx_stream.specs.Outcome.{Outcome, behind_lines, behind_text, one, IfBad};
ghost use Rattle.fx_stream.specs.Promise.{Grows, IsAnswered, IsFailed};
ghost use Rattle.fx_stream.specs.Running.{Ran, IsFlushed, IsAsked, EndsAs, GoesOut, IsBadLine, StopsAs, as_run};
ghost use Rattle.fx_stream.specs.declared.fault.RunFault.TheVariants.{ReadFault, WriteFault};

use crate::fault::RunFault;
use crate::page::Page;
use crate::printer::{Printer, Stop};
use fx_base::{Failed, LineFault, LineStep, Lines, Sink, Source};

// Writes all text where that is due, or where a line might not find room.
fn flush<K: Sink>(page: &mut Page, must: bool, sink: &mut K) -> Result<(), Failed>
    ensures all { OnOk result (IsFlushed must (K.seen sink.old).taken (K.seen sink.new).taken page.old page.new) }
    ensures room { OnOk result (HasRoom page.new) }
    ensures front { OnErr result (AppendsFront (K.seen sink.old).taken (K.seen sink.new).taken page.old) }
    ensures grown { Grows (K.seen sink.old).taken (K.seen sink.new).taken }
    ensures cause { HasCause (K.seen sink.old).faults (K.seen sink.new).faults result }
{
    if must || !page.has_room() {
        page.write_out(sink)?;
    }
    Ok(())
}

// What a call for a line gave, as a run tells it.
fn as_run<F>(step: Result<LineStep, LineFault>) -> Result<LineStep, RunFault<F>>
    ensures is { result ≡ as_run step }
    ensures read { IsErrOf result ReadFault → IsErrOf step LineFault.ReadFault }
    ensures no_write { result ≢ Err WriteFault }
{
    match step {
        Ok(step) => Ok(step),
        Err(LineFault::ReadFault) => Err(RunFault::ReadFault),
        Err(LineFault::TooLong) => Err(RunFault::TooLong),
    }
}

// Reads on to the next line. What is printed so far is written before, where the bytes that were taken don't hold it
// whole.
fn ask<P: Printer, S: Source<K>, K: Sink>(
    lines: &mut Lines,
    page: &mut Page,
    source: &mut S,
    sink: &mut K,
) -> Result<LineStep, RunFault<P::Flaw>>
    requires ready { IsTrue lines.old.is_ready }
    requires limit { lines.old.limit < 2 ^ 64 - 1 }
    ensures written { position (λ b. b == 10) lines.old.held ≡ None → result ≢ Err WriteFault → page.new ≡ [] }
    ensures untouched { IsErrOf result WriteFault → (source.new ≡ source.old) × (lines.new ≡ lines.old) }
    ensures asked { (o now : List (List ℕ) → Outcome P.Told) (left before : Option (List ℕ)) (count : ℕ) →
        (GoesOut lines.old page.old → (now []).text ≡ [])
        → Ran o now lines.old left (S.seen source.old).left before (K.seen sink.old).taken page.old count
        lines.old.limit
        → MatchResult result
        (λ step. IsAsked o now lines.old lines.new left (S.seen source.old).left (S.seen source.new).left before
        (K.seen sink.new).taken page.new count lines.old.limit step)
        (λ fault. IsFailed P.told o left (S.seen source.new).left before (K.seen sink.new).taken lines.old.limit
        fault) }
    ensures prompt { (o now : List (List ℕ) → Outcome P.Told) (left before : Option (List ℕ)) (count : ℕ) →
        (GoesOut lines.old page.old → (now []).text ≡ [])
        → Ran o now lines.old left (S.seen source.old).left before (K.seen sink.old).taken page.old count
        lines.old.limit
        → HoldsEachTime (IsAnswered o left before) (S.seen source.old).asked (S.seen source.new).asked }
    ensures room { OnOk result (HasRoom page.new) }
    ensures grown { Grows (K.seen sink.old).taken (K.seen sink.new).taken }
    ensures read_fault { IsErrOf result ReadFault → Rose (S.seen source.old).faults (S.seen source.new).faults }
    ensures write_fault { IsErrOf result WriteFault → Rose (K.seen sink.old).faults (K.seen sink.new).faults }
    ensures later { (S.seen source.old).faults ≤ (S.seen source.new).faults }
    ensures later_sink { (K.seen sink.old).faults ≤ (K.seen sink.new).faults }
{
    if flush(page, !lines.holds_line(), sink).is_err() {
        return Err(RunFault::WriteFault);
    }
    as_run(lines.next_line(source, sink))
}

// Has a printer append what it holds back where a read may follow.
fn put_held_before<P: Printer>(lines: &Lines, printer: &mut P, page: &mut Page)
    requires ready { IsTrue lines.now.is_ready }
    requires can { P.can_take printer.old }
    requires held { P.holds_none printer.old ⊎ HasRoom page.old }
    ensures can { P.can_take printer.new }
    ensures none_held { GoesOut lines.now page.new → P.holds_none printer.new }
    ensures put { (text : List ℕ) × (page.new ≡ page.old ++ text)
        × ((rest : List (List ℕ)) → P.outcome printer.old rest ≡ behind_text text (P.outcome printer.new rest)) }
{
    if !lines.holds_line() {
        printer.put_held(page);
    }
}

/// Asks for the next line, behind what a printer holds back.
pub(crate) fn next<P: Printer, S: Source<K>, K: Sink>(
    lines: &mut Lines,
    printer: &mut P,
    page: &mut Page,
    source: &mut S,
    sink: &mut K,
) -> Result<LineStep, RunFault<P::Flaw>>
    requires ready { IsTrue lines.old.is_ready }
    requires limit { lines.old.limit < 2 ^ 64 - 1 }
    requires can { P.can_take printer.old }
    requires held { P.holds_none printer.old ⊎ HasRoom page.old }
    ensures can { P.can_take printer.new }
    ensures none_held { position (λ b. b == 10) lines.old.held ≡ None → P.holds_none printer.new }
    ensures asked { (o : List (List ℕ) → Outcome P.Told) (left before : Option (List ℕ)) (count : ℕ)
        → Ran o (P.outcome printer.old) lines.old left (S.seen source.old).left before (K.seen sink.old).taken page.old
        count lines.old.limit
        → MatchResult result
        (λ step. IsAsked o (P.outcome printer.new) lines.old lines.new left (S.seen source.old).left
        (S.seen source.new).left before (K.seen sink.new).taken page.new count lines.old.limit step)
        (λ fault. IsFailed P.told o left (S.seen source.new).left before (K.seen sink.new).taken lines.old.limit
        fault) }
    ensures prompt { (o : List (List ℕ) → Outcome P.Told) (left before : Option (List ℕ)) (count : ℕ)
        → Ran o (P.outcome printer.old) lines.old left (S.seen source.old).left before (K.seen sink.old).taken page.old
        count lines.old.limit
        → HoldsEachTime (IsAnswered o left before) (S.seen source.old).asked (S.seen source.new).asked }
    ensures room { OnOk result (HasRoom page.new) }
    ensures grown { Grows (K.seen sink.old).taken (K.seen sink.new).taken }
    ensures read_fault { IsErrOf result ReadFault → Rose (S.seen source.old).faults (S.seen source.new).faults }
    ensures write_fault { IsErrOf result WriteFault → Rose (K.seen sink.old).faults (K.seen sink.new).faults }
    ensures later { (S.seen source.old).faults ≤ (S.seen source.new).faults }
    ensures later_sink { (K.seen sink.old).faults ≤ (K.seen sink.new).faults }
{
    put_held_before(lines, printer, page);
    ask::<P, S, K>(lines, page, source, sink)
}

/// Gives the line last answered to a printer.
pub(crate) fn take_line<P: Printer>(
    lines: &Lines,
    printer: &mut P,
    page: &mut Page,
) -> Result<bool, Stop<P::Flaw>>
    requires can { P.can_take printer.old }
    requires room { HasRoom page.old }
    ensures can { OnOk result (P.can_take printer.new) }
    ensures held { OnOk result (P.holds_none printer.new ⊎ HasRoom page.new) }
    ensures ready { OnOk result (lines.now.is_ready ≡ true) }
    ensures taken { IfOk result (λ is_row. (text : List ℕ) × (page.new ≡ page.old ++ text)
        × ((rest : List (List ℕ)) →
        P.outcome printer.old (lines.now.line ∷ rest)
        ≡ behind_lines 1 text (one is_row) (P.outcome printer.new rest))) }
    ensures bad { IfErr result
        (IfBad (λ fault. (text : List ℕ) × (page.new ≡ page.old ++ text) ×
        IsBadLine P.told (P.outcome printer.old) lines.now text fault)) }
{
    if !lines.ready() {
        printer.put_held(page);
        return Err(Stop::Bad(printer.too_long()));
    }
    printer.take(lines.line(), page)
}

/// The end of the run at the line of this number, which stops it: what is printed before a bad line is written.
pub(crate) fn stop_at<F: Drop, K: Sink>(
    number: u64,
    stop: Stop<F>,
    page: &mut Page,
    sink: &mut K,
) -> RunFault<F>
    ensures stops { StopsAs stop number (K.seen sink.old).taken (K.seen sink.new).taken page.old result }
    ensures write_fault { result ≡ WriteFault → Rose (K.seen sink.old).faults (K.seen sink.new).faults }
    ensures later_sink { (K.seen sink.old).faults ≤ (K.seen sink.new).faults }
{
    let Stop::Bad(fault) = stop else {
        return RunFault::Memory;
    };
    if page.write_out(sink).is_err() {
        return RunFault::WriteFault;
    }
    RunFault::Row {
        line: number,
        fault,
    }
}

/// The end of the run behind the line of this number, where no line is left.
pub(crate) fn end_at<P: Printer>(
    number: u64,
    printer: &P,
    count: u64,
) -> Result<u64, RunFault<P::Flaw>>
    requires { number < 2 ^ 64 - 1 }
    ensures { EndsAs P.told (P.outcome printer.now []) number count result }
{
    match printer.end() {
        None => Ok(count),
        Some(fault) => Err(RunFault::Row {
            line: number + 1,
            fault,
        }),
    }
}
