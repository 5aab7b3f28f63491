//! What certification is worth for each of many units, and that units stand apart.
ghost use Rattle.fx_node.specs.Events.{EventsInRangeLaw};
ghost use Rattle.fx_node.specs.NodePage.{UnitRunLaw, UnitsApartLaw, UnitsLaw};

use fx_checker::Certified;
use fx_model::in_range_law;
use fx_sound::{bound_law, run_law};
use fx_widths::own_width_law;

/// On each unit's rows of any lines the machine isn't stuck, each word lies in its least width, each printed value
/// keeps the ends that the source demands of it, and for all rows that may be the true ones the exact run is there and
/// each output is within its certified bound of it.
pub fn units_law(certified: &Certified)
    ensures { UnitsLaw certified.now.function certified.now.program certified.now.certificate }
{
    certified.certified();
    certified.function().keeps();
    in_range_law();
    events_in_range_law();
    run_law();
    bound_law();
    own_width_law();
}

/// The lines of a unit are a matter of its own rows, whatever stands between them.
pub fn units_apart_law()
    ensures { UnitsApartLaw }
{}

/// The lines of a unit are those of the program's one run over its rows, as if no other unit were there.
pub fn unit_run_law()
    ensures { UnitRunLaw }
{}

/// Each row of each unit has a value in range for each input of the function.
pub fn events_in_range_law()
    ensures { EventsInRangeLaw }
{}
