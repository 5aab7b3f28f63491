//! What a command that takes FILE alone does with the bundle in it.
ghost use Rattle.std.specs.Prelude.{◌≡◌};
ghost use Rattle.fx_command.specs.Promise.{task_of};
ghost use Rattle.fx_command.specs.TaskView.{HasFewUnits, task_view};

use fx_arguments::FileCommand;
use fx_bundle_commands::{Rows, Sheet};

/// What is done with the bundle in FILE.
#[derive(Clone, Copy)]
pub(crate) enum Task {
    /// The lines of the input are run through it.
    Run(Rows),
    /// A text of it is printed.
    Print(Sheet),
}

/// The task of a command.
pub(crate) fn task_of(command: FileCommand) -> Task
    ensures task { task_view result ≡ task_of command }
    ensures few { HasFewUnits result }
{
    match command {
        FileCommand::Run => Task::Run(Rows::Alike),
        FileCommand::Mixed => Task::Run(Rows::Apart),
        FileCommand::Check => Task::Print(Sheet::Bounds),
        FileCommand::Show => Task::Print(Sheet::Table),
        FileCommand::Migrate => Task::Print(Sheet::SecondVersion),
        FileCommand::Widths => Task::Print(Sheet::Widths),
        FileCommand::Rust => Task::Print(Sheet::Rust),
    }
}
