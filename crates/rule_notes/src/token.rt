//! Words, numbers and signs of a rule (docs/RULES.md, "Tokens").

use std::alloc::{AllocError, Global};
use std::str;

/// The words of the language.
pub(crate) const RESERVED: [&str; 22] = [
    "state", "let", "if", "elif", "else", "for", "count", "send", "to", "and", "or", "not", "mail",
    "n", "f", "M", "me", "coin", "none", "clock", "table", "sorted",
];

/// A word, a number or a sign at its place.
#[derive(Clone, Copy)]
pub(crate) struct Token<'a> {
    /// How it is written.
    pub(crate) text: &'a str,
    pub(crate) line: usize,
    pub(crate) column: usize,
    /// Whether it begins a line of the rule: brackets join lines.
    pub(crate) begins_line: bool,
}

/// What a token is.
#[derive(Clone, Copy)]
pub(crate) enum Kind {
    Number,
    Name,
    Reserved,
    Sign,
}

/// The place of a byte, the line of the token before it, and how many brackets are open.
#[derive(Clone, Copy)]
struct Spot {
    line: usize,
    column: usize,
    last_line: usize,
    depth: usize,
}

const FIRST_SPOT: Spot = Spot {
    line: 1,
    column: 1,
    last_line: 0,
    depth: 0,
};

impl Spot {
    fn past(self, byte: u8) -> Spot {
        if byte == b'\n' {
            Spot {
                line: self.line.saturating_add(1),
                column: 1,
                ..self
            }
        } else {
            Spot {
                column: self.column.saturating_add(1),
                ..self
            }
        }
    }

    /// Returns the place after a token that begins here.
    fn past_token(self, text: &str) -> Spot {
        let depth = match text {
            "(" | "[" => self.depth.saturating_add(1),
            ")" | "]" => self.depth.saturating_sub(1),
            _ => self.depth,
        };
        Spot {
            last_line: self.line,
            depth,
            ..self
        }
    }

    fn token(self, text: &str) -> Token<'_> {
        Token {
            text,
            line: self.line,
            column: self.column,
            begins_line: self.last_line != self.line && self.depth == 0,
        }
    }
}

fn is_letter(byte: u8) -> bool {
    byte.is_ascii_alphanumeric() || byte == b'_'
}

/// Returns how many bytes belong to the token, the comment or the blank that begins a text.
fn length_at(text: &[u8]) -> usize {
    let all = text.len();
    match text {
        [] => 0,
        [b'#', ..] => text.iter().position(|byte| *byte == b'\n').unwrap_or(all),
        [b'0'..=b'9', ..] => text
            .iter()
            .position(|byte| !byte.is_ascii_digit())
            .unwrap_or(all),
        [b'a'..=b'z' | b'A'..=b'Z' | b'_', ..] => text
            .iter()
            .position(|byte| !is_letter(*byte))
            .unwrap_or(all),
        [b'=' | b'!' | b'<' | b'>', b'=', ..] => 2,
        [_, ..] => 1,
    }
}

/// Returns the bytes of the token, the comment or the blank that begins a text.
pub(crate) fn first_of(text: &[u8]) -> &[u8] {
    &text[..length_at(text).min(text.len())]
}

/// Returns true if a token begins with the byte.
fn begins_token(byte: u8) -> bool {
    !matches!(byte, b' ' | b'\t' | b'\r' | b'\n' | b'#')
}

/// Returns the tokens of a text. A byte that is no token is one without text.
pub(crate) fn tokens_of(alloc: Global, text: &[u8]) -> Result<Vec<Token<'_>>, AllocError> {
    let mut tokens = Vec::new(alloc);
    let mut spot = FIRST_SPOT;
    let mut skip = 0usize;
    for (i, byte) in text.iter().enumerate() {
        if skip > 0 {
            skip = skip.saturating_sub(1);
        } else {
            let found = first_of(&text[i..]);
            skip = found.len().saturating_sub(1);
            if begins_token(*byte) {
                let words = str::from_utf8(found).unwrap_or_default();
                tokens.push(spot.token(words))?;
                spot = spot.past_token(words);
            }
        }
        spot = spot.past(*byte);
    }
    Ok(tokens)
}

/// Returns what a token is.
pub(crate) fn kind_of(text: &str) -> Kind {
    match text.as_bytes() {
        [b'0'..=b'9', ..] => Kind::Number,
        [b'a'..=b'z' | b'A'..=b'Z' | b'_', ..] => {
            if RESERVED.iter().any(|word| *word == text) {
                Kind::Reserved
            } else {
                Kind::Name
            }
        }
        _ => Kind::Sign,
    }
}
