//! The command line, made of the rows of the commands.

use crate::arguments::{argument, file};
use crate::commands::COMMANDS;
use crate::helps::Helps;
use crate::rows::CommandRow;
use crate::version::VERSION;
use clap::{Arg, Command};
use std::alloc::{AllocError, Global};
use std::slice::Iter;

/// Returns the command line of `clockbed`, whose options have these helps.
pub fn command_line<'a>(alloc: Global, helps: &'a Helps) -> Result<Command<'a>, AllocError> {
    let mut texts = helps.texts.iter();
    let mut program = clockbed(alloc);
    for row in COMMANDS.iter() {
        program = with_command(program, command(alloc, row, &mut texts))?;
    }
    Ok(program)
}

/// Returns the names of the commands, in the order of the help.
pub fn command_names(alloc: Global) -> Result<Vec<&'static str>, AllocError> {
    let mut names = Vec::new(alloc);
    for row in COMMANDS.iter() {
        names.push(row.name)?;
    }
    Ok(names)
}

/// Returns the program without its commands.
fn clockbed<'a>(alloc: Global) -> Command<'a> {
    Command::new(alloc, "clockbed")
        .about("A testbed for Byzantine fault-tolerant clock synchronisation")
        .version(VERSION)
        .after_help("Example: clockbed run examples/four_clocks.toml\nPage: docs/COMMANDS.md")
        .subcommand_required(true)
        .arg_required_else_help(true)
}

/// Returns the command of a row, whose options take the next helps.
fn command<'a>(
    alloc: Global,
    row: &CommandRow,
    texts: &mut Iter<'a, String>,
) -> Result<Command<'a>, AllocError> {
    let mut command = Command::new(alloc, row.name)
        .about(row.about)
        .after_help(row.after);
    for option in row.options {
        command = with_argument(command, argument(alloc, option, texts))?;
    }
    if row.reads_file {
        command.arg(file(alloc))
    } else {
        Ok(command)
    }
}

/// Adds a command, unless its allocation failed.
fn with_command<'a>(
    program: Command<'a>,
    command: Result<Command<'a>, AllocError>,
) -> Result<Command<'a>, AllocError> {
    program.subcommand(command?)
}

/// Adds an argument, unless its allocation failed.
fn with_argument<'a>(
    command: Command<'a>,
    argument: Result<Arg<'a>, AllocError>,
) -> Result<Command<'a>, AllocError> {
    command.arg(argument?)
}
