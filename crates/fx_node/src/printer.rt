//! The printer of events: the header, and then a line for each row of a unit.
//!
//! What may be wrong with a header or a row comes first, and what is wrong with its unit behind it. No row is held
//! back: each steps its own unit and is printed at once. The trap: the numbers of a row find their room before the
//! first row.
ghost use Rattle.std.specs.Prelude.{◌≡◌, ◌≢◌, ◌<◌, ◌≤◌, ◌⊎◌, ◌++◌, ◌∷◌, ℕ, List, false, length, map, codes, option_map, is_some, Some, None, Ok, Err, IfOk, IfErr, IfSome};
ghost use Rattle.std.specs.List.{list_any};
ghost use Rattle.std.specs.Vec.{vec_capacity};
ghost use Rattle.fx_rational.specs.Decimal.{decimal_value};
ghost use Rattle.fx_model.specs.Limits.{line_limit};
ghost use Rattle.fx_model.specs.Rows.{IsInRange};
ghost use Rattle.fx_rows.specs.Line.{is_special};
ghost use Rattle.fx_rows.specs.Ranges.{Serves};
ghost use Rattle.fx_rows.specs.UnitColumn.{column_of, unit_of};
ghost use Rattle.fx_rows.specs.Values.{row_of};
ghost use Rattle.fx_rows.specs.declared.fault.RowKind.TheVariants as kind;
ghost use Rattle.fx_stream.specs.Rooms.{HasRoom};
ghost use Rattle.fx_stream.specs.Outcome.{behind_lines, behind_text, one, stopped_lines, IfBad};
ghost use Rattle.fx_stream.specs.declared.printer.Stop.TheVariants as stop;
ghost use Rattle.fx_node.specs.Events.{GivenEvents, after_line, flawed_here, node_header_of, with_unit};
ghost use Rattle.fx_node.specs.Faults.{flaw_of};
ghost use Rattle.fx_node.specs.Steps.{event_then, node_columns, units_outcome};
ghost use Rattle.fx_node.specs.declared.fault.Flaw.TheVariants as flaw;

use crate::fault::Flaw;
use crate::node::UnitRuns;
use fx_expr::Function;
use fx_fraction::Decimal;
use fx_num::Memory;
use fx_rows::{
    Column, RowFault, RowKind, RowReader, UnitKind, find_column, read_header, read_unit,
};
use fx_stream::{LINE_TOO_LONG, NO_HEADER, Page, Printer, Stop, stop_of};
use std::alloc::Global;

// The name of the units' column.
const UNIT: &[u8] = b"unit";

/// By which columns rows and their units are read.
#[derive(Debug, Drop)]
pub(crate) struct NodeReader {
    pub(crate) rows: RowReader,
    pub(crate) unit: u32,
}

/// The header and the rows of units as they come.
#[derive(Drop)]
pub(crate) struct NodePrinter<'a, const B: u32> {
    pub(crate) node: UnitRuns<'a, B>,
    pub(crate) units: u32,
    pub(crate) reader: Option<NodeReader>,
    pub(crate) row: Vec<Decimal>,
    pub(crate) alloc: Global,
}

// Why a row's fault stops the run of units.
fn stop_at_row(fault: RowFault) -> Stop<Flaw>
    ensures { (fault.kind ≡ kind.Memory × result ≡ stop.Memory) ⊎
        (fault.kind ≢ kind.Memory × result ≡ stop.Bad (flaw.Row fault)) }
{
    match stop_of(fault) {
        Stop::Bad(fault) => Stop::Bad(Flaw::Row(fault)),
        Stop::Memory => Stop::Memory,
    }
}

// The column of the units in a header line.
fn unit_column(alloc: Global, line: &[u8]) -> Result<u32, Stop<Flaw>>
    requires { length line.now ≤ line_limit }
    ensures found { IfOk result (λ place. (inputs : List ℕ) →
        with_unit inputs (column_of (codes "unit") line.now) ≡ Ok (Some record { inputs = inputs; unit = place })) }
    ensures bad { IfErr result (IfBad (λ fault. (inputs : List ℕ) →
        with_unit inputs (column_of (codes "unit") line.now) ≡ Err (flaw_of fault))) }
{
    match find_column(alloc, line, UNIT) {
        Ok(Column::At(place)) => Ok(place),
        Ok(Column::Missing) => Err(Stop::Bad(Flaw::Unit(UnitKind::NoUnitColumn))),
        Ok(Column::Several) => Err(Stop::Bad(Flaw::Unit(UnitKind::UnitTwice))),
        Err(_) => Err(Stop::Memory),
    }
}

// By which columns a header line has rows read, if it isn't blank.
fn reader_of(
    alloc: Global,
    line: &[u8],
    function: &Function,
) -> Result<Option<NodeReader>, Stop<Flaw>>
    ensures read { IfOk result (λ o. node_header_of function.now line.now ≡ Ok (option_map node_columns o)) }
    ensures serves { IfOk result (λ o. IfSome o (λ r. Serves r.rows function.now)) }
    ensures bad { IfErr result (IfBad (λ fault. node_header_of function.now line.now ≡ Err (flaw_of fault))) }
{
    let columns = match read_header(alloc, line, function) {
        Ok(Some(columns)) => columns,
        Ok(None) => return Ok(None),
        Err(fault) => return Err(stop_at_row(fault)),
    };
    let unit = match unit_column(alloc, line) {
        Ok(unit) => unit,
        Err(stop) => return Err(stop),
    };
    match RowReader::new(alloc, columns, function) {
        Ok(rows) => Ok(Some(NodeReader { rows, unit })),
        Err(Memory) => Err(Stop::Memory),
    }
}

// The unit of a row's line, whose values are left in `row`. None at a blank line.
fn read_event(
    alloc: Global,
    line: &[u8],
    reader: &NodeReader,
    function: &Function,
    units: u32,
    row: &mut Vec<Decimal>,
) -> Result<Option<u32>, Stop<Flaw>>
    requires serves { Serves reader.now.rows function.now }
    requires room { length function.now.inputs ≤ vec_capacity row.old }
    ensures event { IfOk result (λ o. (more : GivenEvents) →
        after_line (row_of function.now (node_columns reader.now).inputs line.now)
        (unit_of units reader.now.unit line.now) more ≡ event_then row.new.items o more) }
    ensures bad { IfErr result (IfBad (λ fault. (more : GivenEvents) →
        after_line (row_of function.now (node_columns reader.now).inputs line.now)
        (unit_of units reader.now.unit line.now) more ≡ flawed_here (flaw_of fault))) }
    ensures below { IfOk result (λ o. IfSome o (λ u. u < units)) }
    ensures in_range { IfOk result
        (λ o. IfSome o (λ u. IsInRange function.now.inputs (map decimal_value row.new.items))) }
    ensures kept { vec_capacity row.old ≤ vec_capacity row.new }
    ensures memory { list_any is_special line.now ≡ false → result ≢ Err stop.Memory }
{
    match reader.rows.read(alloc, line, function, row) {
        Ok(true) => match read_unit(alloc, line, reader.unit, units) {
            Ok(Some(unit)) => Ok(Some(unit)),
            Ok(None) => Err(Stop::Bad(Flaw::Unit(UnitKind::BadUnit))),
            Err(Memory) => Err(Stop::Memory),
        },
        Ok(false) => Ok(None),
        Err(fault) => Err(stop_at_row(fault)),
    }
}

// The header of a line, if it isn't blank. The page's header is appended.
#[tactic(auto, unfolding(crate::specs::Steps::lines_from))]
fn take_header<'a, const B: u32>(
    alloc: Global,
    line: &[u8],
    node: &UnitRuns<'a, B>,
    page: &mut Page,
) -> Result<Option<NodeReader>, Stop<Flaw>>
    requires room { HasRoom page.old }
    ensures serves { IfOk result (λ o. IfSome o (λ r. Serves r.rows node.now.accepted.function)) }
    ensures taken { IfOk result (λ o. (text : List ℕ) × (page.new ≡ page.old ++ text)
        × ((rest : List (List ℕ)) →
        units_outcome node.now None (line.now ∷ rest)
        ≡ behind_lines 1 text 0 (units_outcome node.now (option_map node_columns o) rest))) }
    ensures bad { IfErr result (IfBad (λ fault. (text : List ℕ) × (page.new ≡ page.old ++ text)
        × ((rest : List (List ℕ)) →
        units_outcome node.now None (line.now ∷ rest) ≡ behind_text text (stopped_lines (flaw_of fault))))) }
{
    match reader_of(alloc, line, node.certified().function()) {
        Ok(Some(reader)) => {
            node.put_head(page);
            Ok(Some(reader))
        }
        Ok(None) => Ok(None),
        Err(stop) => Err(stop),
    }
}

// The row of a line, and whether it is one. Its unit takes a turn, and its line is appended.
#[tactic(auto, unfolding(crate::specs::Steps::lines_from))]
fn take_event<'a, const B: u32>(
    alloc: Global,
    line: &[u8],
    reader: &NodeReader,
    node: &mut UnitRuns<'a, B>,
    units: u32,
    row: &mut Vec<Decimal>,
    page: &mut Page,
) -> Result<bool, Stop<Flaw>>
    requires serves { Serves reader.now.rows node.old.accepted.function }
    requires units { length node.old.registers ≡ units }
    requires row_room { length node.old.accepted.function.inputs ≤ vec_capacity row.old }
    requires room { HasRoom page.old }
    ensures accepted { node.new.accepted ≡ node.old.accepted }
    ensures units { length node.new.registers ≡ units }
    ensures row_room { vec_capacity row.old ≤ vec_capacity row.new }
    ensures taken { IfOk result (λ is_row. (text : List ℕ) × (page.new ≡ page.old ++ text)
        × ((rest : List (List ℕ)) → units_outcome node.old (Some (node_columns reader.now)) (line.now ∷ rest)
        ≡ behind_lines 1 text (one is_row) (units_outcome node.new (Some (node_columns reader.now)) rest))) }
    ensures bad { IfErr result (IfBad (λ fault. (text : List ℕ) × (page.new ≡ page.old ++ text)
        × ((rest : List (List ℕ)) →
        units_outcome node.old (Some (node_columns reader.now)) (line.now ∷ rest)
        ≡ behind_text text (stopped_lines (flaw_of fault))))) }
{
    match read_event(alloc, line, reader, node.certified().function(), units, row) {
        Ok(Some(unit)) => {
            node.turn(unit, row);
            node.put_line(unit, page);
            Ok(true)
        }
        Ok(None) => Ok(false),
        Err(stop) => Err(stop),
    }
}

impl<'a, const B: u32> Printer for NodePrinter<'a, B> {
    ghost use Rattle.std.specs.Prelude.{⊤, length, option_map, IfSome, ◌≤◌, ◌≡◌};
    ghost use Rattle.std.specs.Vec.{vec_capacity};
    ghost use Rattle.fx_rows.specs.Ranges.{Serves};
    ghost use Rattle.fx_node.specs.Events.{LineFlaw};
    ghost use Rattle.fx_node.specs.Faults.{flaw_of};
    ghost use Rattle.fx_node.specs.Steps.{node_columns, nothing_printed, units_outcome};

    type Flaw = Flaw;

    ghost Told = { LineFlaw };

    ghost told = { flaw_of };

    ghost can_take = { λ s. IfSome s.reader (λ r. Serves r.rows s.node.accepted.function)
        × (length s.node.registers ≡ s.units)
        × (length s.node.accepted.function.inputs ≤ vec_capacity s.row) };

    ghost holds_none = { λ _. ⊤ };

    ghost outcome = { λ s ls. units_outcome s.node (option_map node_columns s.reader) ls };

    fn take(&mut self, line: &[u8], page: &mut Page) -> Result<bool, Stop<Flaw>> {
        match &self.reader {
            None => match take_header(self.alloc, line, &self.node, page) {
                Ok(reader) => {
                    self.reader = reader;
                    Ok(false)
                }
                Err(stop) => Err(stop),
            },
            Some(reader) => take_event(
                self.alloc,
                line,
                reader,
                &mut self.node,
                self.units,
                &mut self.row,
                page,
            ),
        }
    }

    // Each row is printed at once.
    fn put_held(&mut self, _page: &mut Page) {}

    fn too_long(&self) -> Flaw {
        Flaw::Row(LINE_TOO_LONG)
    }

    fn end(&self) -> Option<Flaw> {
        if self.reader.is_some() {
            None
        } else {
            Some(Flaw::Row(NO_HEADER))
        }
    }

    ghost none = { λ s _. nothing_printed s.node (option_map node_columns s.reader) };
}
