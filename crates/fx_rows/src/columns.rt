//! The columns that a header gives to the inputs.
ghost use Rattle.std.specs.Prelude.{◌≡◌, ◌≤◌, ◌+◌, ℕ, List, Ok, Some, None, length, map, option_map, IfOk, IfSome, MatchResult, if◌then◌else◌};
ghost use Rattle.std.specs.Str.{bytes_eq};
ghost use Rattle.csv.specs.Records.{fields_of};
ghost use Rattle.indexmap.specs.IndexMap.{get_by};
ghost use Rattle.fx_model.specs.Limits.{input_limit, line_limit};
ghost use Rattle.fx_expr.specs.Parts.{input_of};
ghost use Rattle.fx_rows.specs.Blanks.{without_blanks};
ghost use Rattle.fx_rows.specs.Header.{columns_of, columns_from, header_of, HasPlaces, IsHeaderFault};
ghost use Rattle.fx_rows.specs.Places.{places_of, kept_of};

use crate::blanks::trimmed;
use crate::fault::{MEMORY, RowFault, RowKind, line_fault};
use crate::record_of;
use csv::ByteRecord;
use fx_expr::{Function, Input, Items};
use fx_num::Memory;
use indexmap::IndexMap;
use std::alloc::Global;

/// The columns of the inputs.
#[derive(Debug, Drop)]
pub struct Columns {
    /// The number of the column of each input, from 0.
    pub places: Items<u32>,
}

// What is kept of a name at a further place of it.
fn kept_after(known: bool, place: u32) -> Option<u32>
    ensures { result ≡ (if known then None else Some place) }
{
    if known { None } else { Some(place) }
}

// For each name among the fields its place, or nothing where several fields have it.
fn seen_columns<'r>(
    alloc: Global,
    row: &'r ByteRecord,
) -> Result<IndexMap<&'r [u8], Option<u32>>, Memory>
    requires { length (fields_of row.now) ≤ line_limit + 1 }
    ensures { IfOk result (λ m. (name : List ℕ) →
        get_by (λ k. bytes_eq name k.now) m ≡ kept_of (places_of name (map without_blanks (fields_of row.now)))) }
{
    let mut seen = IndexMap::new(alloc);
    for i in 0..row.len() {
        match row.get(i) {
            Some(field) => {
                let name = trimmed(field);
                let known = seen.contains_key(name);
                if seen.insert(name, kept_after(known, i as u32)).is_err() {
                    return Err(Memory);
                }
            }
            None => unreachable!(),
        }
    }
    Ok(seen)
}

// The numbers of the columns of the inputs among the fields of a record.
fn places_in(alloc: Global, row: &ByteRecord, inputs: &[Input]) -> Result<Items<u32>, RowFault>
    requires few_inputs { length inputs.now ≤ input_limit }
    requires few_fields { length (fields_of row.now) ≤ line_limit + 1 }
    ensures { MatchResult result
        (λ ps. columns_from 0 (map (λ i. i.name) (map input_of inputs.now)) (map without_blanks (fields_of row.now))
        ≡ Ok ps)
        (λ e. IsHeaderFault e (columns_from 0 (map (λ i. i.name) (map input_of inputs.now))
        (map without_blanks (fields_of row.now)))) }
{
    let seen = match seen_columns(alloc, row) {
        Ok(seen) => seen,
        Err(Memory) => return Err(MEMORY),
    };
    let mut places = Vec::new(alloc);
    for (i, input) in inputs.iter().enumerate() {
        match seen.get(input.name.as_str().as_bytes()).copied() {
            None => {
                return Err(RowFault {
                    kind: RowKind::MissingColumn,
                    input: i as u32,
                });
            }
            Some(None) => {
                return Err(RowFault {
                    kind: RowKind::TwiceNamed,
                    input: i as u32,
                });
            }
            Some(Some(place)) => {
                if places.push(place).is_err() {
                    return Err(MEMORY);
                }
            }
        }
    }
    Ok(Items::from_vec(places))
}

/// The columns that a header line gives to the inputs of a function. None at a blank line.
pub fn read_header(
    alloc: Global,
    line: &[u8],
    function: &Function,
) -> Result<Option<Columns>, RowFault>
    ensures columns { MatchResult result
        (λ o. header_of function.now line.now ≡ Ok (option_map columns_of o))
        (λ e. IsHeaderFault e (header_of function.now line.now)) }
    ensures places { IfOk result (λ o. IfSome o (λ c. HasPlaces c function.now)) }
{
    if let Some(kind) = line_fault(line) {
        return Err(RowFault { kind, input: 0 });
    }
    function.keeps();
    match record_of(alloc, line) {
        Ok(Some(row)) => match places_in(alloc, &row, function.inputs.as_slice()) {
            Ok(places) => Ok(Some(Columns { places })),
            Err(fault) => Err(fault),
        },
        Ok(None) => Ok(None),
        Err(Memory) => Err(MEMORY),
    }
}
