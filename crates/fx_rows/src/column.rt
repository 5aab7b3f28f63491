//! A column that is found by its name alone, as that of the units.
ghost use Rattle.std.specs.Prelude.{◌≡◌, ◌≤◌, ◌+◌, map, length, IfOk, if◌then◌else◌};
ghost use Rattle.csv.specs.Records.{fields_of};
ghost use Rattle.fx_model.specs.Limits.{line_limit};
ghost use Rattle.fx_rows.specs.Blanks.{without_blanks};
ghost use Rattle.fx_rows.specs.Places.{places_of};
ghost use Rattle.fx_rows.specs.UnitColumn.{column_after, column_among, column_of};

use crate::blanks::trimmed;
use crate::record_of;
use csv::ByteRecord;
use fx_num::Memory;
use std::alloc::Global;

/// Where a name stands in a header.
#[derive(Clone, Copy, Debug, PartialEq, Eq)]
pub enum Column {
    /// No column has it.
    Missing,
    /// The column of this number, from 0, has it.
    At(u32),
    /// Several columns have it.
    Several,
}

// What is kept of a name behind a further field, which may have it.
fn found_after(found: Column, has_name: bool, place: u32) -> Column
    ensures { result ≡ (if has_name then column_after found place else found) }
{
    if !has_name {
        return found;
    }
    match found {
        Column::Missing => Column::At(place),
        Column::At(_) | Column::Several => Column::Several,
    }
}

// The column of that name among the fields of a record.
fn column_in(row: &ByteRecord, name: &[u8]) -> Column
    requires { length (fields_of row.now) ≤ line_limit + 1 }
    ensures { result ≡ column_among (places_of name.now (map without_blanks (fields_of row.now))) }
{
    let mut found = Column::Missing;
    for i in 0..row.len() {
        match row.get(i) {
            Some(field) => found = found_after(found, trimmed(field) == name, i as u32),
            None => unreachable!(),
        }
    }
    found
}

/// The column of that name in a header line, whatever else the line holds.
pub fn find_column(alloc: Global, line: &[u8], name: &[u8]) -> Result<Column, Memory>
    requires { length line.now ≤ line_limit }
    ensures { IfOk result (λ column. column ≡ column_of name.now line.now) }
{
    match record_of(alloc, line) {
        Ok(Some(row)) => Ok(column_in(&row, name)),
        Ok(None) => Ok(Column::Missing),
        Err(Memory) => Err(Memory),
    }
}
