//! What `clap` is told of the command line.
ghost use Rattle.std.specs.Prelude.{◌≡◌, IfOk, false};
ghost use Rattle.clap.specs.Words.{app_of, rule_of};
ghost use Rattle.clap.specs.declared.builder.command.Command.TheViews.{out-Command};
ghost use Rattle.clap.specs.Simple.{with_rule, with_subcommand};
ghost use Rattle.fx_arguments.specs.App.{file_rule, option_rule, required_option_rule, file_app, node_app, synth_app, top_app, bundles_app, rows_app, fixd_app};

use crate::command::FILE_COMMANDS;
use clap::{Arg, ArgAction, Command as Parser};
use std::alloc::{AllocError, Global};

// FILE, or the number of `demo`.
fn file<'a>(alloc: Global) -> Arg<'a>
    ensures rule { rule_of result ≡ file_rule }
    ensures own { result.global ≡ false }
{
    Arg::new(alloc, "file")
        .action(ArgAction::Set)
        .required(true)
}

// An option that may be left out.
fn option<'a>(alloc: Global, name: &'a str) -> Arg<'a>
    ensures rule { rule_of result ≡ option_rule name.entry.now }
    ensures own { result.global ≡ false }
{
    Arg::new(alloc, name).long(name).action(ArgAction::Set)
}

fn required_option<'a>(alloc: Global, name: &'a str) -> Arg<'a>
    ensures rule { rule_of result ≡ required_option_rule name.entry.now }
    ensures own { result.global ≡ false }
{
    option(alloc, name).required(true)
}

// A command that takes this one word alone.
fn file_command<'a>(alloc: Global, name: &'a str) -> Result<Parser<'a>, AllocError>
    ensures app { IfOk result (λ c. app_of c ≡ file_app name.entry.now) }
    ensures own { IfOk result (λ c. (out-Command c).has_globals ≡ false) }
{
    Parser::new(alloc, name).arg(file(alloc))
}

// A command with one argument more.
fn with_argument<'a>(command: Parser<'a>, arg: Arg<'a>) -> Result<Parser<'a>, AllocError>
    requires local { (out-Command command).has_globals ≡ false }
    requires plain { arg.global ≡ false }
    ensures app { IfOk result (λ c. app_of c ≡ with_rule (app_of command.entry) (rule_of arg.entry)) }
    ensures own { IfOk result (λ c. (out-Command c).has_globals ≡ false) }
{
    command.arg(arg)
}

fn node<'a>(alloc: Global) -> Result<Parser<'a>, AllocError>
    ensures app { IfOk result (λ c. app_of c ≡ node_app) }
    ensures own { IfOk result (λ c. (out-Command c).has_globals ≡ false) }
{
    let command = Parser::new(alloc, "node");
    let command = with_argument(command, required_option(alloc, "units"))?;
    with_argument(command, file(alloc))
}

fn synth<'a>(alloc: Global) -> Result<Parser<'a>, AllocError>
    ensures app { IfOk result (λ c. app_of c ≡ synth_app) }
    ensures own { IfOk result (λ c. (out-Command c).has_globals ≡ false) }
{
    let command = Parser::new(alloc, "synth");
    let command = with_argument(command, required_option(alloc, "width"))?;
    let command = with_argument(command, option(alloc, "function"))?;
    let command = with_argument(command, option(alloc, "seed"))?;
    let command = with_argument(command, option(alloc, "tries"))?;
    let command = with_argument(command, option(alloc, "round"))?;
    with_argument(command, file(alloc))
}

// The words without the program's name, which begin with a command's.
fn top<'a>(alloc: Global) -> Parser<'a>
    ensures { app_of result ≡ top_app }
{
    Parser::new(alloc, "fixd")
        .no_binary_name(true)
        .disable_help_flag(true)
        .disable_help_subcommand(true)
        .disable_version_flag(true)
        .subcommand_required(true)
}

// A command line with one command more.
fn with_command<'a>(line: Parser<'a>, command: Parser<'a>) -> Result<Parser<'a>, AllocError>
    requires { (out-Command command).has_globals ≡ false }
    ensures { IfOk result (λ c. app_of c ≡ with_subcommand (app_of line.entry) (app_of command.entry).top) }
{
    line.subcommand(command)
}

// A command line with one command more that takes this one word alone.
fn with_file_command<'a>(
    alloc: Global,
    line: Parser<'a>,
    name: &'a str,
) -> Result<Parser<'a>, AllocError>
    ensures { IfOk result (λ c. app_of c ≡ with_subcommand (app_of line.entry) (file_app name.entry.now).top) }
{
    let command = file_command(alloc, name)?;
    with_command(line, command)
}

// The command line of the commands that take FILE alone.
fn on_bundles<'a>(alloc: Global) -> Result<Parser<'a>, AllocError>
    ensures { IfOk result (λ c. app_of c ≡ bundles_app) }
{
    let mut line = top(alloc);
    for (name, _) in &FILE_COMMANDS {
        line = with_file_command(alloc, line, name)?;
    }
    Ok(line)
}

// The command line with the rows of many units too.
fn on_rows<'a>(alloc: Global) -> Result<Parser<'a>, AllocError>
    ensures { IfOk result (λ c. app_of c ≡ rows_app) }
{
    let line = on_bundles(alloc)?;
    let node = node(alloc)?;
    with_command(line, node)
}

/// The whole command line.
pub fn fixd<'a>(alloc: Global) -> Result<Parser<'a>, AllocError>
    ensures { IfOk result (λ c. app_of c ≡ fixd_app) }
{
    let line = on_rows(alloc)?;
    let synth = synth(alloc)?;
    let line = with_command(line, synth)?;
    with_file_command(alloc, line, "demo")
}
