//! A text, token by token.

use crate::errors::{ClaimError, ReadClaimsError};
use crate::token::{Kind, Sign, Span, Token, long_sign, short_sign};

/// The most letters of a name.
const MAX_LETTERS: usize = 32;

/// The most bytes of a text. It bounds how deep the conditions of a step are.
const MAX_BYTES: usize = 16_384;

/// A place of a text, with how many brackets are open there.
#[derive(Clone, Copy)]
struct Place {
    at: usize,
    line: usize,
    column: usize,
    depth: usize,
}

const FIRST_PLACE: Place = Place {
    at: 0,
    line: 1,
    column: 1,
    depth: 0,
};

impl Place {
    /// Returns the place so many bytes later, in the same line.
    fn later(self, bytes: usize) -> Place {
        Place {
            at: self.at.saturating_add(bytes),
            column: self.column.saturating_add(bytes),
            ..self
        }
    }

    /// Returns the place past the end of a line.
    fn next_line(self) -> Place {
        Place {
            at: self.at.saturating_add(1),
            line: self.line.saturating_add(1),
            column: 1,
            ..self
        }
    }
}

/// A text that is read, the next token, and where the token before it ends.
#[derive(Clone, Copy)]
pub struct Reader<'a> {
    pub text: &'a [u8],
    place: Place,
    pub now: Token,
    pub past: usize,
}

/// A token of a text, to which a reader can go back.
#[derive(Clone, Copy)]
pub struct Bookmark {
    place: Place,
    now: Token,
}

fn is_letter(byte: u8) -> bool {
    byte.is_ascii_alphanumeric() || byte == b'_'
}

/// Returns how many letters and digits a list begins with.
fn letters_of(bytes: &[u8]) -> usize {
    match bytes.iter().position(|byte| !is_letter(*byte)) {
        Some(count) => count,
        None => bytes.len(),
    }
}

/// Returns how many bytes come before the end of the line.
fn rest_of_line(bytes: &[u8]) -> usize {
    match bytes.iter().position(|byte| *byte == b'\n') {
        Some(count) => count,
        None => bytes.len(),
    }
}

/// Returns the number of some digits.
fn number_of(digits: &[u8]) -> Kind {
    let mut number: u32 = 0;
    for digit in digits {
        if !digit.is_ascii_digit() {
            return Kind::Fault(ClaimError::BadCharacter);
        }
        let next = match number.checked_mul(10) {
            Some(tens) => tens.checked_add(u32::from(*digit - b'0')),
            None => None,
        };
        match next {
            Some(next) => number = next,
            None => return Kind::Fault(ClaimError::OutOfRange),
        }
    }
    Kind::Number(number)
}

impl<'a> Reader<'a> {
    /// Returns the reader at the beginning of a text.
    pub fn new(text: &'a [u8]) -> Reader<'a> {
        let mut reader = Reader {
            text,
            place: FIRST_PLACE,
            now: Token {
                kind: Kind::LineEnd,
                span: Span { from: 0, bytes: 0 },
                line: 1,
                column: 1,
            },
            past: 0,
        };
        reader.step();
        reader
    }

    /// Returns the next token, to go back to.
    pub fn mark(&self) -> Bookmark {
        Bookmark {
            place: self.place,
            now: self.now,
        }
    }

    /// Returns the reader at a token of its text.
    pub fn back(&self, to: Bookmark) -> Reader<'a> {
        Reader {
            text: self.text,
            place: to.place,
            now: to.now,
            past: 0,
        }
    }

    /// Returns the token that is next, and goes past it.
    pub fn next(&mut self) -> Token {
        let now = self.now;
        self.step();
        now
    }

    /// Returns the bytes of a token.
    pub fn text_of(&self, token: Token) -> &'a [u8] {
        token.span.of(self.text)
    }

    /// Returns true if the next token is this sign.
    pub fn is_at(&self, sign: Sign) -> bool {
        self.now.kind == Kind::Mark(sign)
    }

    /// Returns true if the next token is this word.
    pub fn is_at_word(&self, word: &str) -> bool {
        self.now.kind == Kind::Name && self.text_of(self.now) == word.as_bytes()
    }

    /// Goes past a sign, if it is next.
    pub fn take(&mut self, sign: Sign) -> bool {
        let is_there = self.is_at(sign);
        if is_there {
            self.step();
        }
        is_there
    }

    /// Goes past a word, if it is next.
    pub fn take_word(&mut self, word: &str) -> bool {
        let is_there = self.is_at_word(word);
        if is_there {
            self.step();
        }
        is_there
    }

    /// Goes past a sign that has to be next.
    pub fn expect(&mut self, sign: Sign) -> Result<(), ReadClaimsError> {
        if self.take(sign) {
            Ok(())
        } else {
            Err(self.now.error(ClaimError::Expected))
        }
    }

    /// Goes past a word that has to be next.
    pub fn expect_word(&mut self, word: &str) -> Result<(), ReadClaimsError> {
        if self.take_word(word) {
            Ok(())
        } else {
            Err(self.now.error(ClaimError::Expected))
        }
    }

    /// Goes past a name that has to be next.
    pub fn expect_name(&mut self) -> Result<Token, ReadClaimsError> {
        let token = self.now;
        if token.kind == Kind::Name {
            self.step();
            Ok(token)
        } else {
            Err(token.error(ClaimError::Expected))
        }
    }

    /// Goes past the end of a line, which has to be next.
    pub fn expect_end(&mut self) -> Result<(), ReadClaimsError> {
        match self.now.kind {
            Kind::LineEnd => {
                self.step();
                Ok(())
            }
            Kind::TextEnd => Ok(()),
            _ => Err(self.now.error(ClaimError::Expected)),
        }
    }

    /// Goes to the next token.
    fn step(&mut self) {
        self.past = self.now.span.from.saturating_add(self.now.span.bytes);
        self.skip();
        let rest = Span {
            from: self.place.at,
            bytes: self.text.len(),
        };
        self.now = match rest.of(self.text) {
            _ if self.place.at > MAX_BYTES => self.token(Kind::Fault(ClaimError::TooLong), 0),
            [] => self.token(Kind::TextEnd, 0),
            [b'\n', ..] => self.line_end(),
            [first, second, ..] => match long_sign(*first, *second) {
                Some(sign) => self.token(Kind::Mark(sign), 2),
                None => self.short_token(*first),
            },
            [only] => self.short_token(*only),
        };
    }

    /// Goes past white space and comments, and past ends of lines within brackets.
    fn skip(&mut self) {
        for _ in 0..self.text.len() {
            let rest = Span {
                from: self.place.at,
                bytes: self.text.len(),
            }
            .of(self.text);
            match rest {
                [b' ' | b'\t' | b'\r', ..] => self.place = self.place.later(1),
                [b'#', ..] => self.place = self.place.later(rest_of_line(rest)),
                [b'\n', ..] => {
                    if self.place.depth == 0 && self.now.kind != Kind::LineEnd {
                        return;
                    }
                    self.place = self.place.next_line();
                }
                _ => return,
            }
        }
    }

    /// Returns the token of so many bytes at the place, and goes past them.
    fn token(&mut self, kind: Kind, bytes: usize) -> Token {
        let token = Token {
            kind,
            span: Span {
                from: self.place.at,
                bytes,
            },
            line: self.place.line,
            column: self.place.column,
        };
        let depth = match kind {
            Kind::Mark(Sign::Open | Sign::OpenSquare) => self.place.depth.saturating_add(1),
            Kind::Mark(Sign::Close | Sign::CloseSquare) => self.place.depth.saturating_sub(1),
            _ => self.place.depth,
        };
        self.place = Place {
            depth,
            ..self.place.later(bytes)
        };
        token
    }

    /// Returns the end of a line, and goes past it.
    fn line_end(&mut self) -> Token {
        let token = self.token(Kind::LineEnd, 0);
        self.place = self.place.next_line();
        token
    }

    /// Returns a token that is no sign of two bytes.
    fn short_token(&mut self, first: u8) -> Token {
        if is_letter(first) {
            return self.word(first);
        }
        match short_sign(first) {
            Some(sign) => self.token(Kind::Mark(sign), 1),
            None => self.token(Kind::Fault(ClaimError::BadCharacter), 1),
        }
    }

    /// Returns a name or a number.
    fn word(&mut self, first: u8) -> Token {
        let rest = Span {
            from: self.place.at,
            bytes: self.text.len(),
        }
        .of(self.text);
        let letters = letters_of(rest);
        let word = Span {
            from: self.place.at,
            bytes: letters,
        }
        .of(self.text);
        let kind = if first.is_ascii_digit() {
            number_of(word)
        } else if letters > MAX_LETTERS {
            Kind::Fault(ClaimError::OutOfRange)
        } else {
            Kind::Name
        };
        self.token(kind, letters)
    }
}
