//! The values of a row.
ghost use Rattle.std.specs.Prelude.{◌≡◌, ◌≢◌, ◌+◌, ◌<◌, ◌≤◌, List, true, false, Ok, [], map, length, option_map, IfOk, IfErr, OnOk, IsTrue};
ghost use Rattle.std.specs.List.{list_any};
ghost use Rattle.std.specs.Vec.{vec_capacity, vec_len};
ghost use Rattle.fx_rows.specs.declared.fault.RowKind.TheVariants as kind;
ghost use Rattle.fx_rational.specs.Decimal.{decimal_value};
ghost use Rattle.fx_model.specs.Function as model;
ghost use Rattle.fx_model.specs.Function.{Input};
ghost use Rattle.fx_model.specs.Rows.{IsInRange};
ghost use Rattle.fx_model.specs.Limits.{line_limit};
ghost use Rattle.fx_rows.specs.Line.{line_fields, is_return, is_special, pieces};
ghost use Rattle.fx_rows.specs.Seen.{seen};
ghost use Rattle.fx_rows.specs.Header.{columns_of, HasPlaces};
ghost use Rattle.fx_rows.specs.Ranges.{reader_columns, AreRangesOf, IsRangeOf, Serves};
ghost use Rattle.fx_rows.specs.Results.{IsAdded, IsRead, IsRowRead};
ghost use Rattle.fx_rows.specs.Values.{field_value, values_from, row_of, row_of_fields};

use crate::blanks::trimmed;
use crate::columns::Columns;
use crate::fault::{LINE_LIMIT, MEMORY, RowFault, RowKind, line_fault};
use crate::inputs::InputColumns;
use crate::order::Order;
use crate::quick::read_quick;
use crate::reader::{RowReader, ranges_of};
use crate::{Pieces, Record, piece_from, plain_text, record_of, unmarked_line_law};
use fx_expr::Function;
use fx_fraction::{Decimal, Range, read_decimal};
use fx_num::Memory;
use std::alloc::Global;

// The value of a field for an input of this range.
fn read_value(range: &Range, field: Option<&[u8]>) -> Result<Decimal, RowKind>
    ensures value { (i : Input) → IsRangeOf i range.now → result ≡ field_value i (option_map (λ f. f.now) field.entry) }
    ensures known { IfErr result (λ k. k ≢ kind.Memory) }
{
    let Some(field) = field else {
        return Err(RowKind::TooFew);
    };
    let Ok(given) = read_decimal(trimmed(field)) else {
        return Err(RowKind::BadNumber);
    };
    if range.contains(given) {
        Ok(given)
    } else {
        Err(RowKind::OutOfRange)
    }
}

// Adds the value of a field for input `i`, of this range. Want of memory leaves nothing in the row.
fn add_value(
    range: &Range,
    field: Option<&[u8]>,
    i: u32,
    row: &mut Vec<Decimal>,
) -> Result<(), RowFault>
    ensures added { (x : Input) → IsRangeOf x range.now →
        IsAdded result i (field_value x (option_map (λ f. f.now) field.entry)) row.old.items row.new.items }
    ensures longer { OnOk result (vec_len row.new ≡ vec_len row.old + 1) }
    ensures room { IfErr result (λ e. e.kind ≡ kind.Memory → vec_capacity row.old < vec_len row.old + 1) }
    ensures kept { vec_capacity row.old ≤ vec_capacity row.new }
{
    match read_value(range, field) {
        Ok(value) => {
            if row.push(value).is_err() {
                row.clear();
                return Err(MEMORY);
            }
            Ok(())
        }
        Err(kind) => Err(RowFault { kind, input: i }),
    }
}

// Reads the values of the inputs at their columns into `row`, which is empty, by a walk over the text: one where the
// columns rise.
fn read_along(
    text: &[u8],
    columns: &InputColumns<'_>,
    row: &mut Vec<Decimal>,
) -> Result<(), RowFault>
    requires { row.old.items ≡ [] }
    ensures read { (is : List Input) → AreRangesOf is columns.now.ranges.now →
        IsRead result row.new.items (values_from 0 is columns.now.places.now (pieces text.now)) }
    ensures room { IfErr result (λ e. e.kind ≡ kind.Memory → vec_capacity row.old < length columns.now.ranges.now) }
    ensures kept { vec_capacity row.old ≤ vec_capacity row.new }
{
    let places = columns.places;
    let ranges = columns.ranges;
    let mut rest = Some(text);
    let mut column = 0usize;
    for (i, range) in ranges.iter().enumerate() {
        let place = places[i] as usize;
        let (field, others) = piece_from(text, rest, column, place);
        rest = others;
        column = place + 1;
        add_value(range, field, i as u32, row)?;
    }
    Ok(())
}

// Reads the values of the inputs into `row`, which is empty, from fields that are found in any order at once.
fn read_values(
    fields: &Record,
    columns: &InputColumns<'_>,
    row: &mut Vec<Decimal>,
) -> Result<(), RowFault>
    requires { row.old.items ≡ [] }
    ensures read { (is : List Input) → AreRangesOf is columns.now.ranges.now →
        IsRead result row.new.items (values_from 0 is columns.now.places.now (seen fields.now)) }
    ensures room { IfErr result (λ e. e.kind ≡ kind.Memory → vec_capacity row.old < length columns.now.ranges.now) }
    ensures kept { vec_capacity row.old ≤ vec_capacity row.new }
{
    let places = columns.places;
    let ranges = columns.ranges;
    for (i, range) in ranges.iter().enumerate() {
        let place = places[i] as usize;
        add_value(range, fields.get(place), i as u32, row)?;
    }
    Ok(())
}

// Whether each place is behind the one before it.
fn are_rising(places: &[u32]) -> bool {
    let mut next = 0u32;
    for place in places {
        if *place < next {
            return false;
        }
        next = *place;
    }
    true
}

// Reads the values of the inputs into `row`, which is empty, from the pieces of a text: by a walk where the columns
// rise, and else by a table.
fn read_pieces(
    text: &[u8],
    columns: &InputColumns<'_>,
    row: &mut Vec<Decimal>,
) -> Result<(), RowFault>
    requires { row.old.items ≡ [] }
    ensures read { (is : List Input) → AreRangesOf is columns.now.ranges.now →
        IsRead result row.new.items (values_from 0 is columns.now.places.now (pieces text.now)) }
    ensures room { IfErr result (λ e. e.kind ≡ kind.Memory → vec_capacity row.old < length columns.now.ranges.now) }
    ensures kept { vec_capacity row.old ≤ vec_capacity row.new }
{
    if are_rising(columns.places) {
        read_along(text, columns, row)
    } else {
        read_table(text, columns, row)
    }
}

// Reads the values of the inputs into `row`, which is empty, from a table of the pieces of a text. The table is large,
// and only made where it serves.
#[inline(never)]
fn read_table(
    text: &[u8],
    columns: &InputColumns<'_>,
    row: &mut Vec<Decimal>,
) -> Result<(), RowFault>
    requires { row.old.items ≡ [] }
    ensures read { (is : List Input) → AreRangesOf is columns.now.ranges.now →
        IsRead result row.new.items (values_from 0 is columns.now.places.now (pieces text.now)) }
    ensures room { IfErr result (λ e. e.kind ≡ kind.Memory → vec_capacity row.old < length columns.now.ranges.now) }
    ensures kept { vec_capacity row.old ≤ vec_capacity row.new }
{
    let fields = Record::Plain(Pieces::of(text));
    read_values(&fields, columns, row)
}

// Reads the values of any line into `row`, which is empty, by `csv`. False at a blank line.
#[inline(never)]
fn read_record(
    alloc: Global,
    line: &[u8],
    columns: &InputColumns<'_>,
    row: &mut Vec<Decimal>,
) -> Result<bool, RowFault>
    requires { row.old.items ≡ [] }
    ensures read { (is : List Input) → AreRangesOf is columns.now.ranges.now →
        IsRowRead result row.new.items (row_of_fields is columns.now.places.now (line_fields line.now)) }
    ensures kept { vec_capacity row.old ≤ vec_capacity row.new }
{
    match record_of(alloc, line) {
        Ok(Some(record)) => match read_values(&Record::Parsed(record), columns, row) {
            Ok(()) => Ok(true),
            Err(fault) => Err(fault),
        },
        Ok(None) => Ok(false),
        Err(Memory) => Err(MEMORY),
    }
}

// Reads the values of a line without a return into `row`, which is empty: by its pieces where they are its fields, and
// else by `csv`. False at a blank line.
fn read_line(
    alloc: Global,
    line: &[u8],
    columns: &InputColumns<'_>,
    row: &mut Vec<Decimal>,
) -> Result<bool, RowFault>
    requires empty { row.old.items ≡ [] }
    requires no_return { list_any is_return line.now ≡ false }
    ensures read { (is : List Input) → AreRangesOf is columns.now.ranges.now →
        IsRowRead result row.new.items (row_of_fields is columns.now.places.now (line_fields line.now)) }
    ensures room { list_any is_special line.now ≡ false →
        IfErr result (λ e. e.kind ≡ kind.Memory → vec_capacity row.old < length columns.now.ranges.now) }
    ensures kept { vec_capacity row.old ≤ vec_capacity row.new }
{
    let Some(text) = plain_text(line) else {
        return read_record(alloc, line, columns, row);
    };
    if text.is_empty() {
        return Ok(false);
    }
    match read_pieces(text, columns, row) {
        Ok(()) => Ok(true),
        Err(fault) => Err(fault),
    }
}

// Reads a line that is one number, for one input at the first column, as nearly every line is where there is one input.
// No other test of the line is due then. False leaves the row empty.
fn read_one(line: &[u8], columns: &InputColumns<'_>, row: &mut Vec<Decimal>) -> bool
    requires { row.old.items ≡ [] }
    ensures short { IsTrue result → length line.now ≤ line_limit }
    ensures no_return { IsTrue result → list_any is_return line.now ≡ false }
    ensures read { IsTrue result → (is : List Input) → AreRangesOf is columns.now.ranges.now →
        IsRowRead (Ok true) row.new.items (row_of_fields is columns.now.places.now (line_fields line.now)) }
    ensures left { result ≡ false → row.new.items ≡ [] }
    ensures kept { vec_capacity row.old ≤ vec_capacity row.new }
{
    let places = columns.places;
    let ranges = columns.ranges;
    if ranges.len() != 1 || places[0] != 0 || line.len() > LINE_LIMIT {
        return false;
    }
    let Ok(given) = read_decimal(line) else {
        return false;
    };
    if !ranges[0].contains(given) {
        return false;
    }
    unmarked_line_law(line);
    row.push(given).is_ok()
}

// Reads the values of any line at these columns, and answers false at a blank one.
fn read_by(
    alloc: Global,
    line: &[u8],
    columns: &InputColumns<'_>,
    row: &mut Vec<Decimal>,
) -> Result<bool, RowFault>
    ensures read { (f : model.Function) → AreRangesOf f.inputs columns.now.ranges.now →
        IsRowRead result row.new.items (row_of f columns.now.places.now line.now) }
    ensures room { list_any is_special line.now ≡ false →
        IfErr result (λ e. e.kind ≡ kind.Memory → vec_capacity row.old < length columns.now.ranges.now) }
    ensures kept { vec_capacity row.old ≤ vec_capacity row.new }
    ensures in_range { (f : model.Function) → AreRangesOf f.inputs columns.now.ranges.now →
        IfOk result (λ b. IsTrue b → IsInRange f.inputs (map decimal_value row.new.items)) }
{
    if read_quick(line, columns, row) {
        return Ok(true);
    }
    row.clear();
    if read_one(line, columns, row) {
        return Ok(true);
    }
    if let Some(kind) = line_fault(line) {
        return Err(RowFault { kind, input: 0 });
    }
    read_line(alloc, line, columns, row)
}

impl RowReader {
    /// Reads the values of a row, in the order of the inputs, and answers false at a blank line. After a fault of an
    /// input `row` holds the values before it, after any other nothing.
    pub fn read(
        &self,
        alloc: Global,
        line: &[u8],
        function: &Function,
        row: &mut Vec<Decimal>,
    ) -> Result<bool, RowFault>
        requires { Serves self.now function.now }
        ensures read { IsRowRead result row.new.items (row_of function.now (reader_columns self.now) line.now) }
        ensures room { list_any is_special line.now ≡ false →
            IfErr result (λ e. e.kind ≡ kind.Memory → vec_capacity row.old < length function.now.inputs) }
        ensures kept { vec_capacity row.old ≤ vec_capacity row.new }
        ensures in_range { IfOk result (λ b. IsTrue b →
            IsInRange function.now.inputs (map decimal_value row.new.items)) }
    {
        function.keeps();
        let inputs = InputColumns {
            places: self.places.as_slice(),
            ranges: self.ranges.as_slice(),
            order: &self.order,
        };
        read_by(alloc, line, &inputs, row)
    }
}

/// Reads the values of one row, as a `RowReader` reads those of many: it makes the ranges anew.
pub fn read_row(
    alloc: Global,
    line: &[u8],
    columns: &Columns,
    function: &Function,
    row: &mut Vec<Decimal>,
) -> Result<bool, RowFault>
    requires { HasPlaces columns.now function.now }
    ensures read { IsRowRead result row.new.items (row_of function.now (columns_of columns.now) line.now) }
    ensures kept { vec_capacity row.old ≤ vec_capacity row.new }
    ensures in_range { IfOk result (λ b. IsTrue b → IsInRange function.now.inputs (map decimal_value row.new.items)) }
{
    function.keeps();
    match ranges_of(alloc, function.inputs.as_slice()) {
        Ok(ranges) => {
            let order = Order::none(alloc, 0);
            let inputs = InputColumns {
                places: columns.places.as_slice(),
                ranges: ranges.as_slice(),
                order: &order,
            };
            read_by(alloc, line, &inputs, row)
        }
        Err(Memory) => {
            row.clear();
            Err(MEMORY)
        }
    }
}
