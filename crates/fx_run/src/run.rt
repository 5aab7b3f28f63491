//! The run of a certified program over a source and a sink.
ghost use Rattle.std.specs.Prelude.{◌≡◌, ◌-◌, ◌^◌, ◌<◌, ◌≤◌, Contains, IfOk};
ghost use Rattle.fx_model.specs.LawfulProgram.{widths};
ghost use Rattle.fx_model.specs.Machine.{start_words};
ghost use Rattle.fx_rows.specs.Faults.{row_fault_of};
ghost use Rattle.fx_stream.specs.Ending.{EndsRun, streams};
ghost use Rattle.fx_run.specs.Printed.{RowsLaw, run_outcome};
ghost use Rattle.fx_run.specs.Steps.{CanStep};

use crate::held::HeldStep;
use crate::law::rows_law;
use crate::step::CertifiedStep;
use fx_base::{Sink, Source};
use fx_checker::Certified;
use fx_lanes::{NarrowLanes, SideBySide, WideLanes};
use fx_machine::Registers;
use fx_num::Memory;
use fx_rows::RowFault;
use fx_stream::run_steps;
use fx_word::widths;
use std::alloc::Global;

/// Why a run over the rows of an input ended before the input did.
pub type RunFault = fx_stream::RunFault<RowFault>;

// A certified program before its first row.
fn first_step<'a, const B: u32>(
    alloc: Global,
    certified: &'a Certified,
) -> Result<CertifiedStep<'a, B>, Memory>
    requires { certified.now.program.width ≡ B }
    ensures whose { IfOk result (λ s. s.certified.now ≡ certified.now) }
    ensures can { IfOk result (λ s. CanStep certified.now B s.registers) }
    ensures start { IfOk result (λ s. s.registers.states ≡ start_words certified.now.program.codes) }
{
    certified.certified();
    let registers = Registers::<B>::new(alloc, certified.program())?;
    Ok(CertifiedStep {
        certified,
        registers,
    })
}

// `run_rows` of a program that may have states, at its width: row by row.
fn run_in_turn<const B: u32, S: Source<K>, K: Sink>(
    alloc: Global,
    certified: &Certified,
    source: &mut S,
    sink: &mut K,
    limit: u64,
) -> Result<u64, RunFault>
    requires width { certified.now.program.width ≡ B }
    requires limit { limit < 2 ^ 64 - 1 }
    ensures { let at = streams S.seen K.seen in
        EndsRun row_fault_of (run_outcome certified.now.function certified.now.program) limit
        (at source.old sink.old) (at source.new sink.new) result }
{
    rows_law(certified);
    let Ok(step) = first_step::<B>(alloc, certified) else {
        return Err(RunFault::Memory);
    };
    run_steps(alloc, step, source, sink, limit)
}

// `run_rows` of a program without states, at its width.
fn run_held<const B: u32, L: SideBySide<B>, S: Source<K>, K: Sink>(
    alloc: Global,
    certified: &Certified,
    source: &mut S,
    sink: &mut K,
    limit: u64,
) -> Result<u64, RunFault>
    requires width { certified.now.program.width ≡ B }
    requires lane_room { L.HasRoom }
    requires states { certified.now.program.states ≡ 0 }
    requires limit { limit < 2 ^ 64 - 1 }
    ensures { let at = streams S.seen K.seen in
        EndsRun row_fault_of (run_outcome certified.now.function certified.now.program) limit
        (at source.old sink.old) (at source.new sink.new) result }
{
    rows_law(certified);
    let Ok(step) = HeldStep::<B, L>::new(alloc, certified) else {
        return Err(RunFault::Memory);
    };
    run_steps(alloc, step, source, sink, limit)
}

// The width of a certified program is from 8 to 64.
fn width_law(certified: &Certified)
    ensures least { 8 ≤ certified.now.program.width }
    ensures most { certified.now.program.width ≤ 64 }
{
    certified.program().keeps();
}

// `run_rows` at the program's width.
fn run_at<const B: u32, S: Source<K>, K: Sink>(
    alloc: Global,
    certified: &Certified,
    source: &mut S,
    sink: &mut K,
    limit: u64,
) -> Result<u64, RunFault>
    requires width { certified.now.program.width ≡ B }
    requires limit { limit < 2 ^ 64 - 1 }
    ensures { let at = streams S.seen K.seen in
        EndsRun row_fault_of (run_outcome certified.now.function certified.now.program) limit
        (at source.old sink.old) (at source.new sink.new) result }
{
    width_law(certified);
    if certified.program().states > 0 {
        run_in_turn::<B, S, K>(alloc, certified, source, sink, limit)
    } else if B <= 32 {
        run_held::<B, NarrowLanes<B>, S, K>(alloc, certified, source, sink, limit)
    } else {
        run_held::<B, WideLanes<B>, S, K>(alloc, certified, source, sink, limit)
    }
}

// The width of a certified program, which is one of the eight.
fn width_of(certified: &Certified) -> u32
    ensures value { result ≡ certified.now.program.width }
    ensures lawful { Contains widths result }
{
    certified.certified();
    certified.program().width
}

/// Runs the rows of a source through a certified program, and writes their page. Gives the number of rows.
///
/// Lines end at LF, and a CR before it and the mark EF BB BF at the front are no part of one. The first line that isn't
/// blank names the columns, in any order; the others are rows, one for each state of the machine after the other. Each
/// row is written before a line is asked for that the bytes taken don't hold whole. More than `limit` bytes are
/// TooLong.
pub fn run_rows<S: Source<K>, K: Sink>(
    alloc: Global,
    certified: &Certified,
    source: &mut S,
    sink: &mut K,
    limit: u64,
) -> Result<u64, RunFault>
    requires limit { limit < 2 ^ 64 - 1 }
    ensures ends { let at = streams S.seen K.seen in
        EndsRun row_fault_of (run_outcome certified.now.function certified.now.program) limit
        (at source.old sink.old) (at source.new sink.new) result }
    ensures honest { RowsLaw certified.now.function certified.now.program certified.now.certificate }
{
    rows_law(certified);
    widths!(
        width_of(certified),
        run_at::<S, K>(alloc, certified, source, sink, limit),
        unreachable!()
    )
}
