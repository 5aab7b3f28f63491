//! The words of the command line.
//!
//! # Contract
//!
//! `read_words` has `clap` read them and answers exactly the command that the grammar gives (`command`, by `command_of`
//! of `specs/Command.antt`), at a known width, with lawful tries and a lawful number (`lawful`), and `Usage` only where
//! it gives none (`usage`). `one_file_law`: each command that takes FILE alone (`on_file`) takes exactly the one, and
//! behind `--` any word is one.
//!
//! # Inside
//!
//! A command's name comes first, and then its options and FILE, or the number of `demo`. `specs/Grammar.antt` says
//! which words are such, without `clap`, and `specs/Command.antt` which command they are; `read_words` lets `clap` read
//! them, and answers the same. The trap: `clap` takes an empty value, and one behind `=` that begins with a minus, and
//! knows none of our numbers; so values are tested when a command is made of them. To add a command that takes FILE
//! alone, give it a variant of `FileCommand`, and a row in `FILE_COMMANDS` and in `file_commands` of
//! `specs/Command.antt`. Give any other a variant of `Command`, its settings in `settings.rt` and `specs/App.antt`, a
//! line in `options_of`, in `command_given` and in `command_in`, and a proof of `IsCommand` with its lines in
//! `which-command` of `proofs/Commands.antt`.
#![tactic(auto)]

mod command;
mod found;
mod law;
mod number;
mod round;
mod settings;

pub use command::{Command, FileCommand, Synthesis, WordFault, read_words};
pub use law::one_file_law;
