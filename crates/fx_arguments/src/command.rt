//! The command that the words are.
ghost use Rattle.std.specs.Prelude.{◌≡◌, ◌≢◌, [], IfOk, IfErr, Some, None};
ghost use Rattle.clap.specs.Words.{fault_of, subcommand_of, subcommand_rows_of};
ghost use Rattle.fx_arguments.specs.App.{fixd_app};
ghost use Rattle.fx_arguments.specs.Command.{IsLawfulCommand, command_of, texts};
ghost use Rattle.fx_arguments.specs.CommandView.{IfUsage, command_view};

use crate::found::command_in;
use crate::settings::fixd;
use clap::ArgMatches;
use clap::error::ErrorKind;
use fx_wanted::Wanted;
use std::alloc::Global;

/// A command that takes FILE alone.
#[derive(Clone, Copy, Debug, PartialEq, Eq)]
pub enum FileCommand {
    /// Runs the rows of the input.
    Run,
    /// Prints the bounds of the bundle.
    Check,
    /// Prints the codes of the bundle with their intervals, and the bounds.
    Show,
    /// Writes the bundle as one of the second version.
    Migrate,
    /// Runs the rows of the input, each word in its own width.
    Mixed,
    /// Prints the least width of each code.
    Widths,
    /// Prints the program as Rust text.
    Rust,
}

/// The commands that take FILE alone, by their names.
pub const FILE_COMMANDS: [(&str, FileCommand); 7] = [
    ("run", FileCommand::Run),
    ("check", FileCommand::Check),
    ("show", FileCommand::Show),
    ("migrate", FileCommand::Migrate),
    ("mixed", FileCommand::Mixed),
    ("widths", FileCommand::Widths),
    ("rust", FileCommand::Rust),
];

/// What is to be done, with the name of FILE or the number of a demonstration.
#[derive(Clone, Copy, Debug, PartialEq, Eq)]
pub enum Command<'a> {
    /// One that takes FILE alone.
    OnFile {
        /// Which of them.
        command: FileCommand,
        /// The name of FILE.
        file: &'a str,
    },
    /// Runs the rows of so many units.
    Node {
        /// How many.
        units: u32,
        /// The name of FILE.
        file: &'a str,
    },
    /// Makes a bundle of a source.
    Synth(Synthesis<'a>),
    /// Synthesises and runs the source of this number.
    Demo(u32),
}

/// What a synthesis is asked for.
#[derive(Clone, Copy, Debug, PartialEq, Eq)]
pub struct Synthesis<'a> {
    /// The width, the tries and the way to round.
    pub wanted: Wanted,
    /// The name of the function, where it is given.
    pub function: Option<&'a str>,
    /// Where the random choices of the attempts begin.
    pub seed: u64,
    /// The name of the source's file.
    pub file: &'a str,
}

/// Why there is no command.
#[derive(Clone, Copy, Debug, PartialEq, Eq)]
pub enum WordFault {
    /// The words are none.
    Usage,
    /// There is no memory to read them.
    Memory,
}

// What `clap` makes of the words.
fn matches_of<'a>(alloc: Global, words: &'a [String]) -> Result<ArgMatches<'a>, WordFault>
    ensures passed { IfOk result (λ m. fault_of fixd_app (texts words.entry.now) ≡ []) }
    ensures found { IfOk result (λ m. subcommand_rows_of m ≡ subcommand_of fixd_app (texts words.entry.now)) }
    ensures usage { IfErr result (λ e. IfUsage e (fault_of fixd_app (texts words.entry.now) ≢ [])) }
{
    let Ok(parser) = fixd(alloc) else {
        return Err(WordFault::Memory);
    };
    match parser.try_get_matches_from(words) {
        Ok(matches) => Ok(matches),
        Err(error) => match error.kind() {
            ErrorKind::OutOfMemory => Err(WordFault::Memory),
            _ => Err(WordFault::Usage),
        },
    }
}

/// The command that the words are, which stand behind the program's name.
pub fn read_words<'a>(alloc: Global, words: &'a [String]) -> Result<Command<'a>, WordFault>
    ensures command { IfOk result (λ c. command_of (texts words.entry.now) ≡ Some (command_view c)) }
    ensures lawful { IfOk result (λ c. IsLawfulCommand (command_view c)) }
    ensures usage { IfErr result (λ e. IfUsage e (command_of (texts words.entry.now) ≡ None)) }
{
    match matches_of(alloc, words) {
        Ok(matches) => match command_in(&matches) {
            Some(command) => Ok(command),
            None => Err(WordFault::Usage),
        },
        Err(fault) => Err(fault),
    }
}
