//! What reads the rows of a function: the columns of its inputs, and which values each may be given.
//!
//! The ends of each range are widened by the input's error and scaled once, so that a row needs nothing of the source.
ghost use Rattle.std.specs.Prelude.{◌≡◌, map, IfOk};
ghost use Rattle.fx_expr.specs.Parts.{input_of};
ghost use Rattle.fx_rows.specs.Header.{columns_of, HasPlaces};
ghost use Rattle.fx_rows.specs.Ranges.{reader_columns, AreRangesOf, Serves};

use crate::columns::Columns;
use crate::order::Order;
use fx_expr::{Function, Input, Items};
use fx_fraction::Range;
use fx_num::Memory;
use std::alloc::Global;

/// The columns of the inputs of a function, with their ranges.
#[derive(Debug, Drop)]
pub struct RowReader {
    // The number of the column of each input.
    pub(crate) places: Items<u32>,
    // Which values each input may be given.
    pub(crate) ranges: Items<Range>,
    // The inputs in the order of their columns, where the quick way may be tried.
    pub(crate) order: Order,
}

/// The ranges of the inputs.
pub(crate) fn ranges_of(alloc: Global, inputs: &[Input]) -> Result<Items<Range>, Memory>
    ensures { IfOk result (λ rs. AreRangesOf (map input_of inputs.now) rs) }
{
    let mut ranges = Vec::new(alloc);
    for input in inputs {
        ranges.push(Range::new(input.lo, input.hi, input.err))?;
    }
    Ok(Items::from_vec(ranges))
}

impl RowReader {
    /// Reads rows of this function by these columns.
    pub fn new(alloc: Global, columns: Columns, function: &Function) -> Result<RowReader, Memory>
        requires { HasPlaces columns function.now }
        ensures columns { IfOk result (λ r. reader_columns r ≡ columns_of columns) }
        ensures serves { IfOk result (λ r. Serves r function.now) }
    {
        function.keeps();
        let ranges = ranges_of(alloc, function.inputs.as_slice())?;
        let order = Order::of(alloc, columns.places.as_slice())?;
        Ok(RowReader {
            places: columns.places,
            ranges,
            order,
        })
    }
}
