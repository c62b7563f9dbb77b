//! The help of the options that take numbers, with their ranges and defaults.

use crate::commands::COMMANDS;
use crate::rows::{DefaultText, NumberOption, OptionRow, RangeText};
use std::alloc::{AllocError, Global};
use std::fmt::Display;

/// The help of each option that takes numbers, in the order of the commands and of their options.
#[derive(Drop)]
pub struct Helps {
    pub(crate) texts: Vec<String>,
}

impl Helps {
    /// Returns the help of each option that takes numbers.
    pub fn new(alloc: Global) -> Result<Helps, AllocError> {
        let mut texts = Vec::new(alloc);
        for command in COMMANDS.iter() {
            for option in command.options {
                if let Some(text) = help_of(alloc, option)? {
                    texts.push(text)?;
                }
            }
        }
        Ok(Helps { texts })
    }
}

/// Returns the help of an option that takes numbers. That of others is in their rows.
fn help_of(alloc: Global, option: &OptionRow) -> Result<Option<String>, AllocError> {
    match option {
        OptionRow::Number(option) | OptionRow::Span(option) => Ok(Some(numbers(alloc, option)?)),
        OptionRow::Long(option) | OptionRow::LongSpan(option) => Ok(Some(numbers(alloc, option)?)),
        OptionRow::Flag(_) | OptionRow::Text(_) => Ok(None),
    }
}

/// Returns what an option is, with its range and its default.
fn numbers<N: Display>(
    alloc: Global,
    option: &NumberOption<&str, N>,
) -> Result<String, AllocError> {
    let range = range_of(alloc, option)?;
    let default = default_of(alloc, option)?;
    format!(in alloc; "{} [{range}; {default}]", option.what)
}

fn range_of<N: Display>(
    alloc: Global,
    option: &NumberOption<&str, N>,
) -> Result<String, AllocError> {
    let least = &option.least;
    let most = &option.most;
    match option.range_text {
        RangeText::Ends => format!(in alloc; "{least}..={most}"),
        RangeText::Multiples => format!(in alloc; "{least}..={most}, multiple of {least}"),
        RangeText::Least => format!(in alloc; "{least}.."),
        RangeText::Words(words) => String::from_str(alloc, words),
    }
}

fn default_of<N: Display>(
    alloc: Global,
    option: &NumberOption<&str, N>,
) -> Result<String, AllocError> {
    match option.default_text {
        DefaultText::Number => format!(in alloc; "default: {}", option.default),
        DefaultText::Words(words) => format!(in alloc; "default: {words}"),
        DefaultText::Required => String::from_str(alloc, "required"),
    }
}
