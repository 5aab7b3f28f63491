//! The quick way to the values of a row: one walk over the line, by the inputs in the order of their columns.
//!
//! Each number is read where it stands and written into the row at its input's place. Nothing here says what is wrong:
//! at a quote, a line end, a blank round a number, a field that is no number or out of range, the whole way begins from
//! the start, and finds the first fault in declared order.
ghost use Rattle.std.specs.Prelude.{◌≡◌, ◌<◌, ◌≤◌, List, ℕ, true, false, Ok, All, length, IfSome, IsTrue, OnSome, slice_index};
ghost use Rattle.std.specs.List.{list_any};
ghost use Rattle.std.specs.Vec.{vec_capacity, vec_len};
ghost use Rattle.fx_model.specs.Function.{Input};
ghost use Rattle.fx_model.specs.Limits.{line_limit};
ghost use Rattle.fx_rows.specs.Line.{line_fields, is_return, is_special, has_mark, pieces};
ghost use Rattle.fx_rows.specs.Passing.{IsValue, HasValue};
ghost use Rattle.fx_rows.specs.Ranges.{AreRangesOf};
ghost use Rattle.fx_rows.specs.Results.{IsRowRead};
ghost use Rattle.fx_rows.specs.Values.{row_of_fields};

use crate::fault::LINE_LIMIT;
use crate::inputs::InputColumns;
use crate::skip::{behind_piece, is_plain_left, skip_columns};
use crate::unmarked_line_law;
use fx_fraction::{Decimal, Range};
use fx_text::leading_decimal;

// What fills a row before it is read.
const ZERO: Decimal = Decimal { a: 0, b: 0 };

// The number in this range that stands first in a text, and where it ends.
#[inline]
fn value_in(text: &[u8], range: &Range) -> Option<(Decimal, usize)>
    ensures { IfSome result (λ r. IsValue text.now range.now r.0 r.1) }
{
    let (value, end) = leading_decimal(text)?;
    if !range.contains(value) {
        return None;
    }
    Some((value, end))
}

// Reads the columns of the inputs in this order into the row, which has room for them. None says nothing of the line.
fn read_columns(
    line: &[u8],
    order: &[u32],
    columns: &InputColumns<'_>,
    row: &mut [Decimal],
) -> Option<()>
    requires long { length row.old ≡ length columns.now.ranges.now }
    requires each { All (λ i. i < length columns.now.ranges.now) order.now }
    ensures long { length row.new ≡ length row.old }
    ensures plain { OnSome result (list_any is_special line.now ≡ false) }
    ensures values { OnSome result ((is : List Input) → AreRangesOf is columns.now.ranges.now
        → (k : ℕ) → k < length order.now
        → HasValue is columns.now.places.now (pieces line.now) row.new (slice_index order.now k)) }
{
    let places = columns.places;
    let ranges = columns.ranges;
    let mut rest = Some(line);
    let mut column = 0usize;
    for (k, input) in order.iter().enumerate() {
        let i = *input as usize;
        let place = places[i] as usize;
        if place < column {
            return None;
        }
        let text = skip_columns(rest, place - column)?;
        let (value, end) = value_in(text, &ranges[i])?;
        row[i] = value;
        rest = behind_piece(text, end);
        column = place + 1;
    }
    if is_plain_left(rest) { Some(()) } else { None }
}

// Gives the row so many values, whatever they are.
#[inline]
fn fill(row: &mut Vec<Decimal>, count: usize) -> bool
    ensures long { IsTrue result → vec_len row.new ≡ count }
    ensures kept { vec_capacity row.old ≤ vec_capacity row.new }
{
    if row.len() == count {
        return true;
    }
    row.clear();
    row.resize(count, ZERO).is_ok()
}

// Whether a line is short enough, and a byte order mark doesn't stand first. An empty one isn't.
#[inline]
fn is_usual(line: &[u8]) -> bool
    ensures short { IsTrue result → length line.now ≤ line_limit }
    ensures some { IsTrue result → 0 < length line.now }
    ensures unmarked { IsTrue result → has_mark line.now ≡ false }
{
    let [first, ..] = line else {
        return false;
    };
    *first != 0xef && line.len() <= LINE_LIMIT
}

/// Reads the values of a row whose columns are as plain as nearly all are. False says nothing of the line.
pub(crate) fn read_quick(line: &[u8], columns: &InputColumns<'_>, row: &mut Vec<Decimal>) -> bool
    ensures short { IsTrue result → length line.now ≤ line_limit }
    ensures no_return { IsTrue result → list_any is_return line.now ≡ false }
    ensures read { IsTrue result → (is : List Input) → AreRangesOf is columns.now.ranges.now →
        IsRowRead (Ok true) row.new.items (row_of_fields is columns.now.places.now (line_fields line.now)) }
    ensures kept { vec_capacity row.old ≤ vec_capacity row.new }
{
    let order = columns.order;
    let ranges = columns.ranges;
    let inputs = order.inputs.as_slice();
    if inputs.is_empty() || order.count != ranges.len() {
        return false;
    }
    if !is_usual(line) || !fill(row, ranges.len()) {
        return false;
    }
    if read_columns(line, inputs, columns, row.as_mut_slice()).is_none() {
        return false;
    }
    unmarked_line_law(line);
    true
}
