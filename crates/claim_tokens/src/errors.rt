//! Why a text isn't read as claims.

use std::alloc::{AllocError, AllocFailed};
use std::fmt;

/// What is wrong at a place of a text.
#[derive(Clone, Copy, Debug, PartialEq, Eq)]
pub enum ClaimError {
    /// No token begins with this byte.
    BadCharacter,
    /// Another token has to be here.
    Expected,
    /// A name with no meaning.
    UnknownName,
    /// A name that has a meaning already.
    NameTwice,
    /// A number, or a sum of a claim, is out of range.
    OutOfRange,
    /// Too many parts in one another.
    TooDeep,
    /// More bytes than claims may have.
    TooLong,
    /// A set, a term or a word of which certificates say nothing.
    NotCovered,
    /// The sizes of a scenario aren't those that are meant.
    NotAssumed,
}

impl ClaimError {
    ghost use Rattle.std.specs.Prelude.{◌≡◌};
    ghost use Rattle.claim_tokens.specs.Errors.{claim_error_name};

    /// Returns the name that the line of a refusal has.
    pub fn name(self) -> &'static str
        ensures { result.now ≡ claim_error_name self }
    {
        match self {
            ClaimError::BadCharacter => "BadCharacter",
            ClaimError::Expected => "Expected",
            ClaimError::UnknownName => "UnknownName",
            ClaimError::NameTwice => "NameTwice",
            ClaimError::OutOfRange => "OutOfRange",
            ClaimError::TooDeep => "TooDeep",
            ClaimError::TooLong => "TooLong",
            ClaimError::NotCovered => "NotCovered",
            ClaimError::NotAssumed => "NotAssumed",
        }
    }
}

/// Why a text isn't read as claims: its first error, or memory ran out.
#[derive(Clone, Copy, Debug, PartialEq, Eq)]
pub enum ReadClaimsError {
    Memory,
    Refused(ClaimsRefusal),
}

/// The first error of a text, with its line and column from 1. Its text is the line that refuses the claims, without its end.
#[derive(Clone, Copy, Debug, PartialEq, Eq)]
pub struct ClaimsRefusal {
    pub error: ClaimError,
    pub line: usize,
    pub column: usize,
}

impl fmt::Display for ClaimsRefusal {
    ghost use Rattle.std.specs.Prelude.{Some};
    ghost use Rattle.claim_tokens.specs.Errors.{claims_refusal_line};

    ghost output = { λ refusal. Some (claims_refusal_line refusal.error refusal.line refusal.column) };

    fn fmt<W: fmt::Write>(&self, f: &mut fmt::Formatter<W>) -> fmt::Result {
        let ClaimsRefusal {
            error,
            line,
            column,
        } = *self;
        let name = error.name();
        write!(f, "refused claims {name} line {line} column {column}")
    }
}

impl From<AllocError> for ReadClaimsError {
    fn from(_e: AllocError) -> ReadClaimsError {
        ReadClaimsError::Memory
    }
}

impl<T: Drop> From<AllocFailed<T>> for ReadClaimsError {
    fn from(_e: AllocFailed<T>) -> ReadClaimsError {
        ReadClaimsError::Memory
    }
}
