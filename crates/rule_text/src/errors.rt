//! Why a text is no rule.
ghost use Rattle.std.specs.Prelude.{◌≡◌};
ghost use Rattle.rule_text.specs.Errors.{error_name};

use std::alloc::AllocError;

/// What is wrong at a place of the text.
#[derive(Clone, Copy, Debug, PartialEq, Eq)]
pub enum RuleError {
    /// No token begins with this byte, or a letter directly follows a number.
    BadCharacter,
    /// The line begins in no column of a block, or with a blank other than a space.
    BadIndent,
    /// The number is above 4294967295, or the name has more than 32 letters.
    OutOfRange,
    /// Another token must stand here.
    Expected,
    /// Nothing has this name here.
    UnknownName,
    /// The new name has a meaning already, or the statement sets it twice.
    NameTwice,
    /// The statement sets what has a fixed number.
    NotAssignable,
    /// More than 200 parts are in one another, or more than 200 names are in scope.
    TooDeep,
    /// A line has too many tokens, it is the 513th line with tokens, or it has the 65th lookup in a table.
    TooLong,
}

impl RuleError {
    /// Returns the name of the error, as refusals print it.
    pub fn name(self) -> &'static str
        ensures { result.now ≡ error_name self }
    {
        match self {
            RuleError::BadCharacter => "BadCharacter",
            RuleError::BadIndent => "BadIndent",
            RuleError::OutOfRange => "OutOfRange",
            RuleError::Expected => "Expected",
            RuleError::UnknownName => "UnknownName",
            RuleError::NameTwice => "NameTwice",
            RuleError::NotAssignable => "NotAssignable",
            RuleError::TooDeep => "TooDeep",
            RuleError::TooLong => "TooLong",
        }
    }
}

/// Why a text is not read: its first error, or memory was short. Lines and columns count from 1.
#[derive(Clone, Copy, Debug, PartialEq, Eq)]
pub enum ReadRuleError {
    At {
        error: RuleError,
        line: usize,
        column: usize,
    },
    Memory,
}

impl From<AllocError> for ReadRuleError {
    ghost use Rattle.std.specs.Prelude.{◌≡◌};
    ghost use Rattle.rule_text.specs.declared.errors.ReadRuleError.TheVariants.{Memory};

    ghost from_gives = { λ _ e. e ≡ Memory };

    fn from(_e: AllocError) -> ReadRuleError {
        ReadRuleError::Memory
    }
}
