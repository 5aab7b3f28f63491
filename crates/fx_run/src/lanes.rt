//! The step of what is certified and has no states, for sixteen rows.
ghost use Rattle.std.specs.Prelude.{◌≡◌, ◌<◌, ◌*◌, ℕ, [], map, length, Some};
ghost use Rattle.fx_rational.specs.Decimal.{decimal_value};
ghost use Rattle.fx_model.specs.Machine.{machine_step};
ghost use Rattle.fx_machine.specs.Steps.{step_taken};
ghost use Rattle.fx_lanes.specs.RowsSideBySide.{row_at, lane};
ghost use Rattle.fx_run.specs.Blocks.{IsBlockInRange};

use fx_checker::Certified;
use fx_fraction::Decimal;
use fx_lanes::{LaneRegisters, SideBySide, step_lanes};
use fx_model::in_range_law;
use fx_sound::step_law;

/// Carries out sixteen rows, that lie one behind the other: of each, what `step` of the machine does.
pub(crate) fn certified_lanes<const B: u32, L: SideBySide<B>>(
    certified: &Certified,
    registers: &mut LaneRegisters<B, L>,
    rows: &[Decimal],
)
    requires width { certified.now.program.width ≡ B }
    requires lane_room { L.HasRoom }
    requires states { certified.now.program.states ≡ 0 }
    requires words { length registers.old ≡ length certified.now.program.codes }
    requires many { length rows.now ≡ 16 * certified.now.program.inputs }
    requires in_range { IsBlockInRange certified.now.function.inputs certified.now.program.inputs rows.now }
    ensures sizes { length registers.new ≡ length certified.now.program.codes }
    ensures step { (k : ℕ) → k < 16 →
        machine_step certified.now.program (map decimal_value (row_at certified.now.program.inputs k rows.now)) []
        ≡ Some (step_taken certified.now.program (lane k registers.new)) }
{
    certified.certified();
    certified.function().keeps();
    in_range_law();
    step_law();
    fx_machine::step_law();
    step_lanes::<B, L>(certified.program(), registers, rows);
}
