//! What holds of the rows of an input, whatever its bytes.
ghost use Rattle.fx_rows.specs.ReadRows.{RowsInRangeLaw};

/// Each row of an input has a value in range for each input of the function.
pub fn rows_in_range_law()
    ensures { RowsInRangeLaw }
{}
