//! Numbers and flags of options, as `clap` reads them.
ghost use Rattle.clap.specs.Matches.{found_of};
ghost use Rattle.command_line.specs.Numbers.{HasFlag, OptionHasNumber, IsNumberOr};

use clap::ArgMatches;
use command_words::rows::{FlagOption, NumberOption};

/// Returns the number of an option, or its default.
pub(crate) fn number(options: &ArgMatches<'_>, option: &NumberOption<&str, u32>) -> u32
    ensures { IsNumberOr 32 option.now.default (found_of options.now) option.now.name.now result }
{
    number_if_named(options, option).unwrap_or(option.default)
}

/// Returns the number of an option, if it is there.
pub(crate) fn number_if_named(
    options: &ArgMatches<'_>,
    option: &NumberOption<&str, u32>,
) -> Option<u32>
    ensures { OptionHasNumber 32 (found_of options.now) option.now.name.now result }
{
    options.get_one(option.name)
}

/// Returns the long number of an option, or its default.
pub(crate) fn long_number(options: &ArgMatches<'_>, option: &NumberOption<&str, u64>) -> u64
    ensures { IsNumberOr 64 option.now.default (found_of options.now) option.now.name.now result }
{
    long_number_if_named(options, option).unwrap_or(option.default)
}

/// Returns the long number of an option, if it is there.
fn long_number_if_named(options: &ArgMatches<'_>, option: &NumberOption<&str, u64>) -> Option<u64>
    ensures { OptionHasNumber 64 (found_of options.now) option.now.name.now result }
{
    options.get_one(option.name)
}

/// Returns true if a flag is there.
pub(crate) fn flag(options: &ArgMatches<'_>, option: &FlagOption) -> bool
    ensures { HasFlag (found_of options.now) option.now.name.now result }
{
    options.get_flag(option.name)
}
