//! A certified program as what a row does: the machine's step, and the line of its outputs.
//!
//! The state is carried in the registers from row to row, and no word of it is ever put back to its start.
ghost use Rattle.std.specs.Prelude.{◌≡◌, ◌+◌, ◌≤◌, ◌++◌, map, length, Some};
ghost use Rattle.fx_rational.specs.Decimal.{decimal_value};
ghost use Rattle.fx_rational.specs.Decimal as rational;
ghost use Rattle.fx_model.specs.Machine.{machine_step};
ghost use Rattle.fx_model.specs.Page.{line_of, names_from};
ghost use Rattle.fx_model.specs.Rows.{IsInRange};
ghost use Rattle.fx_machine.specs.Steps.{step_taken};
ghost use Rattle.fx_checker.specs.CertifiedView.{IsStepReady};
ghost use Rattle.fx_stream.specs.Rooms.{HasLineRoom, line_room};
ghost use Rattle.fx_run.specs.Steps.{CanStep, lines_from, step_line};

use crate::words::{put_header, put_words};
use fx_checker::{Certified, certified_step};
use fx_expr::Function;
use fx_fraction::Decimal;
use fx_machine::Registers;
use fx_stream::{Page, RowStep};

/// Carries out a row, and puts its line.
pub(crate) fn run_row<const B: u32>(
    certified: &Certified,
    registers: &mut Registers<B>,
    row: &[Decimal],
    page: &mut Page,
)
    requires width { certified.now.program.width ≡ B }
    requires in_range { IsInRange certified.now.function.inputs (map decimal_value row.now) }
    requires ready { IsStepReady certified.now registers.old.words registers.old.states }
    requires room { HasLineRoom page.old }
    ensures step { machine_step certified.now.program (map decimal_value row.now) registers.old.states
        ≡ Some (step_taken certified.now.program registers.new.words) }
    ensures states { registers.new.states ≡ (step_taken certified.now.program registers.new.words).next }
    ensures ready { IsStepReady certified.now registers.new.words registers.new.states }
    ensures line { page.new ≡ page.old
        ++ step_line certified.now.program (step_taken certified.now.program registers.new.words) }
    ensures short { length page.new ≤ length page.old + line_room }
{
    certified_step::<B>(certified, registers, row);
    put_words(page, certified.program(), &*registers);
}

/// A certified program with its registers.
#[derive(Drop)]
pub(crate) struct CertifiedStep<'a, const B: u32> {
    pub(crate) certified: &'a Certified,
    pub(crate) registers: Registers<B>,
}

impl<'a, const B: u32> RowStep for CertifiedStep<'a, B> {
    ghost use Rattle.std.specs.Prelude.{⊤};
    ghost use Rattle.fx_model.specs.Page.{line_of, names_from};
    ghost use Rattle.fx_run.specs.Steps.{CanStep, lines_from, nothing_from};

    ghost meaning = { λ s. s.certified.now.function };

    ghost can_run = { λ s. CanStep s.certified.now B s.registers };

    ghost holds_none = { λ _. ⊤ };

    ghost head = { λ s. line_of (names_from 1 s.certified.now.program.outputs) };

    ghost printed = { λ s rows. lines_from s.certified.now.program rows s.registers.states };

    fn function(&self) -> &Function {
        self.certified.function()
    }

    fn put_head(&self, page: &mut Page) {
        put_header(page, self.certified.program());
    }

    fn put_row(&mut self, row: &[Decimal], page: &mut Page) {
        run_row::<B>(self.certified, &mut self.registers, row, page);
    }

    // Each row is printed at once.
    fn put_held(&mut self, _page: &mut Page) {}

    ghost none = { λ s _. nothing_from s.certified.now.program s.registers.states };
}
