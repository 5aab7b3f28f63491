//! What certification is worth for the rows of an input.
ghost use Rattle.fx_run.specs.Printed.{RowsLaw};

use fx_checker::Certified;
use fx_model::in_range_law;
use fx_rows::rows_in_range_law;
use fx_sound::{bound_law, run_law};
use fx_widths::own_width_law;

/// On the rows of any lines the machine isn't stuck, each word lies in its least width, each printed value keeps the
/// ends that the source demands of it, and for all rows that may be the true ones the exact run is there and each
/// output is within its certified bound of it.
pub fn rows_law(certified: &Certified)
    ensures { RowsLaw certified.now.function certified.now.program certified.now.certificate }
{
    certified.certified();
    certified.function().keeps();
    in_range_law();
    rows_in_range_law();
    run_law();
    bound_law();
    own_width_law();
}
