//! A line, and the two ways to its fields.
ghost use Rattle.std.specs.Prelude.{◌≡◌, false, true, not, ◌||◌, IfOk, IfSome, IfNone, option_map};
ghost use Rattle.std.specs.List.{list_any};
ghost use Rattle.csv.specs.Reading.{strip_bom};
ghost use Rattle.csv.specs.Records.{field_at, fields_of};
ghost use Rattle.fx_rows.specs.Line.{line_fields, is_special, is_quote, is_return, is_feed, has_mark, plain_fields};
ghost use Rattle.fx_rows.specs.Seen.{seen};

use crate::pieces::Pieces;
use csv::{ByteRecord, ErrorKind, ReaderBuilder};
use fx_num::Memory;
use std::alloc::Global;

/// A record: the fields of a line.
#[derive(Drop)]
pub enum Record<'a> {
    /// Those of a line without quotes.
    Plain(Pieces<'a>),
    /// Those of any line.
    Parsed(ByteRecord),
}

impl<'a> Record<'a> {
    /// The field at a place.
    pub fn get(&self, place: usize) -> Option<&[u8]>
        ensures { option_map (λ f. f.now) result ≡ field_at (seen self.now) place }
    {
        match self {
            Record::Plain(pieces) => pieces.get(place),
            Record::Parsed(record) => record.get(place),
        }
    }
}

/// The record that `csv` gives for a line, if it gives one.
pub fn record_of(alloc: Global, line: &[u8]) -> Result<Option<ByteRecord>, Memory>
    ensures { IfOk result (λ o. option_map fields_of o ≡ line_fields line.now) }
{
    let mut reader = ReaderBuilder::new()
        .has_headers(false)
        .flexible(true)
        .from_reader(alloc, line);
    let mut row = ByteRecord::new(alloc);
    match reader.read_byte_record(&mut row) {
        Ok(true) => Ok(Some(row)),
        Ok(false) => Ok(None),
        Err(error) => match error.into_kind() {
            ErrorKind::Io(_) | ErrorKind::OutOfMemory => Err(Memory),
            _ => unreachable!(),
        },
    }
}

// The line without a byte order mark at its start.
fn unmarked(line: &[u8]) -> &[u8]
    ensures { result.now ≡ strip_bom line.now }
{
    match line.strip_prefix(&[0xef, 0xbb, 0xbf]) {
        Some(rest) => rest,
        None => line,
    }
}

// Whether no quote and no line feed is among the bytes. Three searches of one byte each are faster than one of three.
fn is_plain(text: &[u8]) -> bool
    ensures { result ≡ not (list_any is_quote text.now || list_any is_feed text.now) }
{
    let has_quote = text.contains(&b'"');
    let has_feed = text.contains(&b'\n');
    !(has_quote || has_feed)
}

/// The text whose pieces between commas are the fields of the line, which has none where the text is empty. None only
/// where a quote or a line feed is in the line.
pub fn plain_text(line: &[u8]) -> Option<&[u8]>
    requires { list_any is_return line.now ≡ false }
    ensures fields { IfSome result (λ text. line_fields line.now ≡ plain_fields text.now) }
    ensures none { IfNone result (list_any is_special line.now ≡ true) }
{
    let text = unmarked(line);
    if is_plain(text) { Some(text) } else { None }
}

/// A line without quotes and line ends has the fields between its commas, but for a byte order mark at its start; an
/// empty one has no record.
pub fn plain_line_law(line: &[u8])
    requires { list_any is_special line.now ≡ false }
    ensures { line_fields line.now ≡ plain_fields (strip_bom line.now) }
{
    let _ = line;
}

/// A line without quotes, line ends and mark has the fields between its commas.
pub fn unmarked_line_law(line: &[u8])
    requires plain { list_any is_special line.now ≡ false }
    requires unmarked { has_mark line.now ≡ false }
    ensures { line_fields line.now ≡ plain_fields line.now }
{
    let _ = line;
}
