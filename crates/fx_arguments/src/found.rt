//! The command that `clap` found.
ghost use Rattle.std.specs.Prelude.{◌≡◌, IfSome, option_map, codes, true};
ghost use Rattle.std.specs.Option.{option_copied, option_map_or};
ghost use Rattle.clap.specs.Words.{first_of, found_of, rows_of, subcommand_rows_of};
ghost use Rattle.fx_wanted.specs.Asked.{IsLawfulWanted};
ghost use Rattle.fx_arguments.specs.Command.{IsLawfulCommand, demo_given, file_command_given, lawful_command, node_options, on_file, synth_options, wanted_given};
ghost use Rattle.fx_arguments.specs.CommandView.{command_found, command_view};
ghost use Rattle.fx_arguments.specs.Grammar.{is_value, have_values};

use crate::command::{Command, FILE_COMMANDS, FileCommand, Synthesis};
use crate::number::{demo_number, is_value, number_or, units_given, width_given};
use crate::round::round_given;
use clap::ArgMatches;
use fx_wanted::{TRIES_LIMIT, Wanted};

// The text that stands under a name.
fn text_of<'a>(matches: &ArgMatches<'a>, name: &str) -> Option<&'a str>
    ensures { option_copied result ≡ first_of name.now (rows_of (found_of matches.now)) }
{
    matches.get_str(name)
}

// Whether an option has a value, if it is given.
fn has_value(matches: &ArgMatches, name: &str) -> bool
    ensures { result ≡ option_map_or is_value (first_of name.now (rows_of (found_of matches.now))) true }
{
    match text_of(matches, name) {
        Some(text) => is_value(text),
        None => true,
    }
}

// Whether each option of `synth` has one.
fn have_values(matches: &ArgMatches) -> bool
    ensures { result ≡ have_values synth_options (λ name. first_of name (rows_of (found_of matches.now))) }
{
    has_value(matches, "width")
        && has_value(matches, "function")
        && has_value(matches, "seed")
        && has_value(matches, "tries")
        && has_value(matches, "round")
}

// The command of this name that takes FILE alone.
fn on_file(name: &str) -> Option<FileCommand>
    ensures { result ≡ on_file name.now }
{
    FILE_COMMANDS
        .iter()
        .find(|(known, _)| *known == name)
        .map(|(_, command)| *command)
}

fn file_command_in<'a>(name: &str, matches: &ArgMatches<'a>) -> Option<Command<'a>>
    ensures command { option_map command_view result
        ≡ file_command_given name.now (first_of (codes "file") (rows_of (found_of matches.now))) }
    ensures lawful { IfSome result (λ c. IsLawfulCommand (command_view c)) }
{
    let command = on_file(name)?;
    let file = text_of(matches, "file")?;
    Some(Command::OnFile { command, file })
}

fn node_in<'a>(matches: &ArgMatches<'a>) -> Option<Command<'a>>
    ensures command { option_map command_view result
        ≡ lawful_command (codes "node") node_options (λ name. first_of name (rows_of (found_of matches.now))) }
    ensures lawful { IfSome result (λ c. IsLawfulCommand (command_view c)) }
{
    if !has_value(matches, "units") {
        return None;
    }
    let units = units_given(text_of(matches, "units"))?;
    let file = text_of(matches, "file")?;
    Some(Command::Node { units, file })
}

// What is asked of a synthesis.
fn wanted_in(matches: &ArgMatches) -> Option<Wanted>
    ensures wanted { result ≡ wanted_given (λ name. first_of name (rows_of (found_of matches.now))) }
    ensures lawful { IfSome result IsLawfulWanted }
{
    let width = width_given(text_of(matches, "width"))?;
    let tries = number_or(text_of(matches, "tries"), 200, u64::from(TRIES_LIMIT))? as u32;
    let round = round_given(text_of(matches, "round"))?;
    Some(Wanted {
        width,
        tries,
        round,
    })
}

fn synth_in<'a>(matches: &ArgMatches<'a>) -> Option<Command<'a>>
    ensures command { option_map command_view result
        ≡ lawful_command (codes "synth") synth_options (λ name. first_of name (rows_of (found_of matches.now))) }
    ensures lawful { IfSome result (λ c. IsLawfulCommand (command_view c)) }
{
    if !have_values(matches) {
        return None;
    }
    let wanted = wanted_in(matches)?;
    let function = text_of(matches, "function");
    let seed = number_or(text_of(matches, "seed"), 0, u64::MAX)?;
    let file = text_of(matches, "file")?;
    Some(Command::Synth(Synthesis {
        wanted,
        function,
        seed,
        file,
    }))
}

fn demo_in<'a>(matches: &ArgMatches<'a>) -> Option<Command<'a>>
    ensures command { option_map command_view result
        ≡ demo_given (first_of (codes "file") (rows_of (found_of matches.now))) }
    ensures lawful { IfSome result (λ c. IsLawfulCommand (command_view c)) }
{
    let number = demo_number(text_of(matches, "file")?)?;
    Some(Command::Demo(number))
}

/// The command of what was found.
pub fn command_in<'a>(matches: &ArgMatches<'a>) -> Option<Command<'a>>
    ensures command { option_map command_view result ≡ command_found (subcommand_rows_of matches.now) }
    ensures lawful { IfSome result (λ c. IsLawfulCommand (command_view c)) }
{
    let (name, found) = matches.subcommand()?;
    match name {
        "node" => node_in(found),
        "synth" => synth_in(found),
        "demo" => demo_in(found),
        _ => file_command_in(name, found),
    }
}
