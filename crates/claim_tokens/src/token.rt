//! Tokens of claims.

use crate::errors::{ClaimError, ClaimsRefusal, ReadClaimsError};

/// A part of a text.
#[derive(Clone, Copy)]
pub struct Span {
    pub from: usize,
    pub bytes: usize,
}

impl Span {
    /// Returns the bytes of the part.
    pub fn of(self, text: &[u8]) -> &[u8] {
        let rest = &text[self.from.min(text.len())..];
        &rest[..self.bytes.min(rest.len())]
    }
}

/// A sign of the language.
#[derive(Clone, Copy, PartialEq, Eq)]
pub enum Sign {
    Arrow,
    Dot,
    Equal,
    NotEqual,
    AtMost,
    AtLeast,
    Less,
    Greater,
    Plus,
    Minus,
    Times,
    Over,
    Modulo,
    Assign,
    Colon,
    Comma,
    Open,
    Close,
    OpenSquare,
    CloseSquare,
}

/// What a token is.
#[derive(Clone, Copy, PartialEq, Eq)]
pub enum Kind {
    Number(u32),
    Name,
    Mark(Sign),
    LineEnd,
    TextEnd,
    Fault(ClaimError),
}

/// A token at its place.
#[derive(Clone, Copy)]
pub struct Token {
    pub kind: Kind,
    pub span: Span,
    pub line: usize,
    pub column: usize,
}

impl Token {
    /// Returns the error at the token: its own fault, if it is one.
    pub fn error(self, error: ClaimError) -> ReadClaimsError {
        let error = match self.kind {
            Kind::Fault(own) => own,
            _ => error,
        };
        ReadClaimsError::Refused(ClaimsRefusal {
            error,
            line: self.line,
            column: self.column,
        })
    }
}

/// Returns the sign that two bytes are.
pub fn long_sign(first: u8, second: u8) -> Option<Sign> {
    match (first, second) {
        (b'-', b'>') => Some(Sign::Arrow),
        (b'=', b'=') => Some(Sign::Equal),
        (b'!', b'=') => Some(Sign::NotEqual),
        (b'<', b'=') => Some(Sign::AtMost),
        (b'>', b'=') => Some(Sign::AtLeast),
        _ => None,
    }
}

/// Returns the sign that a byte is.
pub fn short_sign(byte: u8) -> Option<Sign> {
    match byte {
        b'.' => Some(Sign::Dot),
        b'<' => Some(Sign::Less),
        b'>' => Some(Sign::Greater),
        b'+' => Some(Sign::Plus),
        b'-' => Some(Sign::Minus),
        b'*' => Some(Sign::Times),
        b'/' => Some(Sign::Over),
        b'%' => Some(Sign::Modulo),
        b'=' => Some(Sign::Assign),
        b':' => Some(Sign::Colon),
        b',' => Some(Sign::Comma),
        b'(' => Some(Sign::Open),
        b')' => Some(Sign::Close),
        b'[' => Some(Sign::OpenSquare),
        b']' => Some(Sign::CloseSquare),
        _ => None,
    }
}
