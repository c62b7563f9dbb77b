//! The rows of the tables of options and commands.

/// How the help shows the range of an option.
#[derive(Clone, Copy)]
pub(crate) enum RangeText<T> {
    /// The least and the greatest number.
    Ends,
    /// The same, and that each number is a multiple of the least.
    Multiples,
    /// The least number alone.
    Least,
    /// These words.
    Words(T),
}

/// How the help shows what applies if an option isn't there.
#[derive(Clone, Copy)]
pub(crate) enum DefaultText<T> {
    /// The default number.
    Number,
    /// These words.
    Words(T),
    /// The option has to be there.
    Required,
}

/// An option whose value is a number, or a span of numbers as FIRST..LAST. `T` is `&str`, and `N` is `u32` or `u64`. If
/// the type had `&str` in place of `T`, no definition could name a row.
#[derive(Clone, Copy)]
pub struct NumberOption<T, N> {
    pub name: T,
    /// The value's name in the help.
    pub(crate) value: T,
    /// What it is, in the help.
    pub(crate) what: T,
    pub least: N,
    pub most: N,
    /// The number if the option isn't there. Spans and `--workers` of `sweep` have none: nothing reads this one.
    pub default: N,
    pub(crate) range_text: RangeText<T>,
    pub(crate) default_text: DefaultText<T>,
    /// The option that has to be there with this one, if any.
    pub(crate) needs: T,
}

/// An option without a value.
#[derive(Clone, Copy)]
pub struct FlagOption {
    pub name: &'static str,
    pub(crate) help: &'static str,
    /// The option that has to be there with this one, if any.
    pub(crate) needs: &'static str,
    /// The options that can't be there with this one.
    pub(crate) excludes: &'static [&'static str],
}

/// An option whose value is a text.
#[derive(Clone, Copy)]
pub struct TextOption {
    pub name: &'static str,
    /// The value's name in the help.
    pub(crate) value: &'static str,
    pub(crate) help: &'static str,
    /// The option that has to be there with this one, if any.
    pub(crate) needs: &'static str,
    /// The options that can't be there with this one.
    pub(crate) excludes: &'static [&'static str],
    /// Whether the value may begin with a dash.
    pub(crate) may_begin_with_dash: bool,
}

/// An option of a command.
#[derive(Clone, Copy)]
pub(crate) enum OptionRow {
    /// `clap` takes a number of the range.
    Number(NumberOption<&'static str, u32>),
    Long(NumberOption<&'static str, u64>),
    /// `clap` takes any text, and `clockbed` reads its numbers.
    Span(NumberOption<&'static str, u32>),
    LongSpan(NumberOption<&'static str, u64>),
    Flag(FlagOption),
    Text(TextOption),
}

/// A command.
#[derive(Clone, Copy)]
pub(crate) struct CommandRow {
    pub(crate) name: &'static str,
    /// What it does, in the help.
    pub(crate) about: &'static str,
    /// The end of its help.
    pub(crate) after: &'static str,
    /// Its options, in the order of the help.
    pub(crate) options: &'static [OptionRow],
    /// Whether it reads a file.
    pub(crate) reads_file: bool,
}
