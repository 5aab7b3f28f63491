//! The unit of a row, and what is wrong with a unit.
//!
//! A unit is looked for only in a line that is a row already, so no other test of the line is due.
ghost use Rattle.std.specs.Prelude.{◌≡◌, false, option_map, IfOk, IsOk};
ghost use Rattle.std.specs.List.{list_any};
ghost use Rattle.fx_rows.specs.Line.{is_return, is_special};
ghost use Rattle.fx_rows.specs.UnitColumn.{unit_in_field, unit_named, unit_of};

use crate::blanks::trimmed;
use crate::{piece_from, plain_text, record_of};
use fx_fraction::read_natural;
use fx_num::Memory;
use std::alloc::Global;
use std::fmt;

// In digits: the text of a unit.
const MOST_DIGITS: usize = 10;

/// What is wrong with a header or a row of many units, behind all that may be wrong with its inputs.
#[derive(Clone, Copy, Debug, PartialEq, Eq)]
pub enum UnitKind {
    /// No column of the header has the name `unit`.
    NoUnitColumn,
    /// Several columns of the header have it.
    UnitTwice,
    /// The row has no field there, or not 1 to 10 digits of a unit that there is.
    BadUnit,
}

impl fmt::Display for UnitKind {
    fn fmt<W: fmt::Write>(&self, f: &mut fmt::Formatter<W>) -> fmt::Result {
        fmt::Debug::fmt(self, f)
    }
}

// The unit that a text without blanks names.
fn unit_named(text: &[u8], units: u32) -> Option<u32>
    ensures { result ≡ unit_named units text.now }
{
    if text.is_empty() || text.len() > MOST_DIGITS {
        return None;
    }
    match read_natural(text) {
        Some(number) if number < u64::from(units) => Some(number as u32),
        _ => None,
    }
}

// The unit that a field names, if there is one.
fn unit_in_field(field: Option<&[u8]>, units: u32) -> Option<u32>
    ensures { result ≡ unit_in_field units (option_map (λ f. f.now) field.entry) }
{
    match field {
        Some(field) => unit_named(trimmed(field), units),
        None => None,
    }
}

// The unit of any line, by `csv`.
#[inline(never)]
fn read_record(alloc: Global, line: &[u8], place: u32, units: u32) -> Result<Option<u32>, Memory>
    ensures { IfOk result (λ o. o ≡ unit_of units place line.now) }
{
    match record_of(alloc, line) {
        Ok(Some(row)) => Ok(unit_in_field(row.get(place as usize), units)),
        Ok(None) => Ok(None),
        Err(Memory) => Err(Memory),
    }
}

/// The unit of a row's line, which is below `units`, where the units' column is at this place. Only a line with a quote
/// wants memory.
pub fn read_unit(alloc: Global, line: &[u8], place: u32, units: u32) -> Result<Option<u32>, Memory>
    requires { list_any is_return line.now ≡ false }
    ensures unit { IfOk result (λ o. o ≡ unit_of units place line.now) }
    ensures memory { list_any is_special line.now ≡ false → IsOk result }
{
    let Some(text) = plain_text(line) else {
        return read_record(alloc, line, place, units);
    };
    let (field, _) = piece_from(text, Some(text), 0, place as usize);
    Ok(unit_in_field(field, units))
}
