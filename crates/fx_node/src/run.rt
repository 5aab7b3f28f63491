//! The run of a certified program's units over a source and a sink.
ghost use Rattle.std.specs.Prelude.{◌≡◌, ◌-◌, ◌^◌, ◌<◌, ◌≤◌, length, Contains, IfOk, None};
ghost use Rattle.std.specs.Vec.{vec_capacity};
ghost use Rattle.fx_model.specs.LawfulProgram.{widths};
ghost use Rattle.fx_stream.specs.Ending.{EndsRun, streams};
ghost use Rattle.fx_node.specs.Faults.{flaw_of};
ghost use Rattle.fx_node.specs.NodePage.{UnitsLaw, node_outcome};
ghost use Rattle.fx_node.specs.Units.{first_units};

use crate::fault::Flaw;
use crate::law::units_law;
use crate::node::UnitRuns;
use crate::printer::NodePrinter;
use fx_base::{Sink, Source};
use fx_checker::Certified;
use fx_num::Memory;
use fx_stream::run_lines;
use fx_word::widths;
use std::alloc::Global;

/// Why a run over the rows of many units ended before the input did.
pub type NodeFault = fx_stream::RunFault<Flaw>;

// A program's units before their first rows. All room is made here.
fn first_printer<'a, const B: u32>(
    alloc: Global,
    certified: &'a Certified,
    units: u32,
) -> Result<NodePrinter<'a, B>, Memory>
    requires width { certified.now.program.width ≡ B }
    requires some { 1 ≤ units }
    requires few { units ≤ 1024 }
    ensures node { IfOk result (λ s. s.node ≡ first_units certified.now units) }
    ensures units { IfOk result (λ s. s.units ≡ units) }
    ensures before { IfOk result (λ s. s.reader ≡ None) }
    ensures room { IfOk result (λ s. length certified.now.function.inputs ≤ vec_capacity s.row) }
{
    let row = Vec::with_capacity(alloc, certified.function().inputs.len())?;
    let node = UnitRuns::<B>::new(alloc, certified, units)?;
    Ok(NodePrinter {
        node,
        units,
        reader: None,
        row,
        alloc,
    })
}

// `run_node` at the program's width.
fn run_at<const B: u32, S: Source<K>, K: Sink>(
    alloc: Global,
    certified: &Certified,
    units: u32,
    source: &mut S,
    sink: &mut K,
    limit: u64,
) -> Result<u64, NodeFault>
    requires width { certified.now.program.width ≡ B }
    requires some { 1 ≤ units }
    requires few { units ≤ 1024 }
    requires limit { limit < 2 ^ 64 - 1 }
    ensures { let at = streams S.seen K.seen in
        EndsRun flaw_of (node_outcome certified.now.function certified.now.program units) limit
        (at source.old sink.old) (at source.new sink.new) result }
{
    units_law(certified);
    let Ok(mut printer) = first_printer::<B>(alloc, certified, units) else {
        return Err(NodeFault::Memory);
    };
    run_lines(alloc, &mut printer, source, sink, limit)
}

// The width of a certified program, which is one of the eight.
fn width_of(certified: &Certified) -> u32
    ensures value { result ≡ certified.now.program.width }
    ensures lawful { Contains widths result }
{
    certified.certified();
    certified.program().width
}

/// Runs rows of many units, as they come from a source, through a certified program, and writes their page. Gives the
/// number of rows.
///
/// Lines are read as `run_rows` of `fx_run` reads them; the header has a column `unit` besides, which may also be an
/// input's, and each row names a unit from 0 that is below `units`. A row steps its own unit alone, and its line is
/// that unit's number with the outputs behind it.
pub fn run_node<S: Source<K>, K: Sink>(
    alloc: Global,
    certified: &Certified,
    units: u32,
    source: &mut S,
    sink: &mut K,
    limit: u64,
) -> Result<u64, NodeFault>
    requires some { 1 ≤ units }
    requires few { units ≤ 1024 }
    requires limit { limit < 2 ^ 64 - 1 }
    ensures ends { let at = streams S.seen K.seen in
        EndsRun flaw_of (node_outcome certified.now.function certified.now.program units) limit
        (at source.old sink.old) (at source.new sink.new) result }
    ensures honest { UnitsLaw certified.now.function certified.now.program certified.now.certificate }
{
    units_law(certified);
    widths!(
        width_of(certified),
        run_at::<S, K>(alloc, certified, units, source, sink, limit),
        unreachable!()
    )
}
