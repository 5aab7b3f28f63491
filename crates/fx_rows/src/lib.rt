//! Rows of a line: its fields, columns by their names, and the values of the inputs.
//!
//! # Contract
//!
//! The fields of a line are those of the one record that `csv` gives for its bytes alone; `plain_line_law`: where no
//! quote and no line end is in it they stand between its commas, behind the byte order mark where the line begins with
//! one, so nearly every line is read where it stands.
//!
//! `read_header` gives each input its column (`columns`, `places`), `read_row` gives each input its value (`read`), or
//! the first check that fails, in the order of `header_of` and `row_of`; a row of values is in range (`in_range`). A
//! `RowReader` does it for many rows: it keeps the ranges of the inputs beside their columns (`serves`), and their
//! order, each at least once or none at all (`IsOrder`): by it one walk over a line reads the number of each
//! (`read_quick`: where it answers true, that is the row), and where anything is unusual the whole way begins anew, and
//! only a line with a quote wants memory once there is room (`room`, `kept`). `read_rows` (`specs/ReadRows.antt`) says
//! which rows an input gives, up to its first bad line; `rows_in_range_law`: each is in range. `find_column` finds a
//! column by its name alone, and `read_unit` gives the unit (see `fx_node`) that a row names in such a column (`unit`),
//! without memory where the line has no quote (`memory`).
//!
//! # Inside
//!
//! A header gives each input of a function its column; a row gives each a decimal in its range. The checks have one
//! order, and the first that fails is the answer. Extra columns are ignored, and spaces and tabs round a field dropped.
//! A line without quotes is cut at its commas where it stands, and nothing is allocated. Any other line goes through
//! `csv`.
#![tactic(auto)]

mod blanks;
mod column;
mod columns;
mod fault;
mod inputs;
mod law;
mod line;
mod order;
mod pieces;
mod quick;
mod reader;
mod row;
mod skip;
mod unit;

pub use column::{Column, find_column};
pub use columns::{Columns, read_header};
pub use fault::{RowFault, RowKind};
pub use law::rows_in_range_law;
pub use line::{Record, plain_line_law, plain_text, record_of, unmarked_line_law};
pub use pieces::{Pieces, piece_from};
pub use reader::RowReader;
pub use row::read_row;
pub use unit::{UnitKind, read_unit};
