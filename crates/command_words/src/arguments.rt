//! The arguments of the commands, made of the rows of their options.

use crate::rows::{DefaultText, FlagOption, NumberOption, OptionRow, TextOption};
use clap::{Arg, ArgAction, value_parser};
use std::alloc::{AllocError, Global};
use std::slice::Iter;

/// Returns the argument for the file that a command reads.
pub(crate) fn file<'a>(alloc: Global) -> Arg<'a> {
    Arg::new(alloc, "file")
        .value_name("FILE")
        .help("File to read; standard input if it is - or missing")
}

/// Returns the argument for an option. Where its help isn't in its row, the help is the next one.
pub(crate) fn argument<'a>(
    alloc: Global,
    option: &OptionRow,
    helps: &mut Iter<'a, String>,
) -> Result<Arg<'a>, AllocError> {
    match option {
        OptionRow::Number(option) => {
            let argument = numbers(alloc, option, helps);
            needing(within(argument, option.least, option.most), option.needs)
        }
        OptionRow::Long(option) => {
            let argument = numbers(alloc, option, helps);
            needing(
                long_within(argument, option.least, option.most),
                option.needs,
            )
        }
        OptionRow::Span(option) => needing(numbers(alloc, option, helps), option.needs),
        OptionRow::LongSpan(option) => needing(numbers(alloc, option, helps), option.needs),
        OptionRow::Flag(option) => flag(alloc, option),
        OptionRow::Text(option) => text(alloc, option),
    }
}

/// Returns the argument for an option that takes numbers, without its range.
fn numbers<'a, N>(
    alloc: Global,
    option: &NumberOption<&'static str, N>,
    helps: &mut Iter<'a, String>,
) -> Arg<'a> {
    let help = match helps.next() {
        Some(help) => help.as_str(),
        None => "",
    };
    let is_required = matches!(option.default_text, DefaultText::Required);
    with_value(alloc, option.name, option.value, help).required(is_required)
}

/// Returns an option with a value.
fn with_value<'a>(
    alloc: Global,
    name: &'static str,
    value: &'static str,
    help: &'a str,
) -> Arg<'a> {
    Arg::new(alloc, name)
        .long(name)
        .value_name(value)
        .help(help)
}

/// Returns the option, whose value is a number from `least` to `most`. The greatest number of all is no bound.
fn within<'a>(argument: Arg<'a>, least: u32, most: u32) -> Arg<'a> {
    let least = i64::from(least);
    if most == u32::MAX {
        argument.value_parser(value_parser!(u32).range(least..))
    } else {
        argument.value_parser(value_parser!(u32).range(least..=i64::from(most)))
    }
}

/// Returns the option, whose value is a long number from `least` to `most`.
fn long_within<'a>(argument: Arg<'a>, least: u64, most: u64) -> Arg<'a> {
    let least = i64::try_from(least).unwrap_or(i64::MAX);
    let most = i64::try_from(most).unwrap_or(i64::MAX);
    argument.value_parser(value_parser!(u64).range(least..=most))
}

/// Returns an option without a value.
fn flag<'a>(alloc: Global, option: &FlagOption) -> Result<Arg<'a>, AllocError> {
    let argument = Arg::new(alloc, option.name)
        .long(option.name)
        .help(option.help)
        .action(ArgAction::SetTrue)
        .conflicts_with_all(option.excludes)?;
    needing(argument, option.needs)
}

/// Returns an option whose value is a text.
fn text<'a>(alloc: Global, option: &TextOption) -> Result<Arg<'a>, AllocError> {
    let argument = with_value(alloc, option.name, option.value, option.help)
        .allow_hyphen_values(option.may_begin_with_dash)
        .conflicts_with_all(option.excludes)?;
    needing(argument, option.needs)
}

/// Returns the argument, which needs the option of this name, if it is the name of any.
fn needing<'a>(argument: Arg<'a>, name: &'static str) -> Result<Arg<'a>, AllocError> {
    if name.is_empty() {
        Ok(argument)
    } else {
        argument.requires_arg(name)
    }
}
