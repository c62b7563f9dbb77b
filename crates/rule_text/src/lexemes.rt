//! From bytes to words, numbers and signs.
ghost use Rattle.std.specs.Prelude.{◌≡◌, ℕ, List, ◌∷◌, ◌≤◌, ◌<◌, ◌+◌, ◌^◌, ◌++◌, length, IfOk, OnOk};
ghost use Rattle.rule_text.specs.Tokens.{is_in, run, number_spelled, number_kind, word_kind, number_lexeme, word_from};
ghost use Rattle.rule_text.specs.Tokens.{word_lexeme};
ghost use Rattle.rule_text.specs.Tokens.{lexeme_of_sign, sign_lexeme, lexeme_at, past, token, tokens_at, end_after};
ghost use Rattle.rule_text.specs.Tokens.{is_space, is_digit, begins_name, lexemes_from, lexemes_of};

use crate::errors::RuleError;
use crate::signs::{Sign, sign_of, spelling};
use std::alloc::{AllocError, Global};

/// The most letters of a name.
pub const MAX_NAME_LETTERS: usize = 32;

/// A name: its bytes in the text.
#[derive(Clone, Copy)]
pub struct Name {
    pub from: usize,
    pub letters: usize,
}

/// What a token is.
#[derive(Clone, Copy)]
pub enum Kind {
    Number(u32),
    Named(Name),
    Mark(Sign),
    /// Bytes that are no token.
    Fault(RuleError),
    LineStart,
    TextEnd,
}

/// A line and a column of a text.
#[derive(Clone, Copy)]
pub struct Position {
    pub line: usize,
    pub column: usize,
}

/// A token at its place. `spaced` is true if only spaces precede it in its line. The token before it ends before
/// `last_end`.
#[derive(Clone, Copy)]
pub struct Token {
    pub kind: Kind,
    pub line: usize,
    pub column: usize,
    pub spaced: bool,
    pub last_end: Position,
}

/// The place of a byte, the byte before it, and whether only spaces precede it in its line.
#[derive(Clone, Copy)]
pub struct Place {
    pub offset: usize,
    pub line: usize,
    pub column: usize,
    pub before: u8,
    pub spaced: bool,
}

/// What begins at a byte: a token or none, and how many further bytes belong to it.
#[derive(Clone, Copy)]
pub struct Lexeme {
    pub kind: Option<Kind>,
    pub further: usize,
}

/// How many bytes from a place on belong to the last token or comment before it, and where the last token ends.
#[derive(Clone, Copy)]
pub struct Scan {
    pub skip: usize,
    pub end: Position,
}

/// Bytes that stand together: digits, the letters of words, or all that is on the line.
#[derive(Clone, Copy)]
pub enum Class {
    Digits,
    Letters,
    Comment,
}

fn is_space(byte: u8) -> bool
    ensures { result ≡ is_space byte }
{
    matches!(byte, b' ' | b'\t' | b'\r' | b'\n')
}

fn is_digit(byte: u8) -> bool
    ensures { result ≡ is_digit byte }
{
    matches!(byte, b'0'..=b'9')
}

fn begins_name(byte: u8) -> bool
    ensures { result ≡ begins_name byte }
{
    matches!(byte, b'a'..=b'z' | b'A'..=b'Z' | b'_')
}

pub fn is_in(class: Class, byte: u8) -> bool
    ensures { result ≡ is_in class byte }
{
    match class {
        Class::Digits => is_digit(byte),
        Class::Letters => begins_name(byte) || is_digit(byte),
        Class::Comment => byte != b'\n',
    }
}

#[tactic(auto, using(crate::proofs::TokenLemmas::run_more, crate::proofs::TokenLemmas::run_ends))]
/// Returns how many bytes of a class stand at the front.
fn run(class: Class, text: &[u8]) -> usize
    ensures count { result ≡ run class text.now }
    ensures within { result ≤ length text.now }
{
    for (i, byte) in text.iter().enumerate() {
        if !is_in(class, *byte) {
            return i;
        }
    }
    text.len()
}

#[tactic(auto, using(crate::proofs::TokenLemmas::next_decimal))]
/// Returns the number that digits write, if it is at most 4294967295.
fn number_of(digits: &[u8]) -> Option<u32>
    ensures { result ≡ number_spelled digits.now }
{
    let mut total = 0u64;
    for byte in digits {
        total = total * 10 + u64::from(byte.saturating_sub(b'0'));
        if total > 4_294_967_295 {
            return None;
        }
    }
    Some(total as u32)
}

fn number_kind(digits: &[u8]) -> Kind
    ensures { result ≡ number_kind (number_spelled digits.now) }
{
    match number_of(digits) {
        Some(v) => Kind::Number(v),
        None => Kind::Fault(RuleError::OutOfRange),
    }
}

/// Returns what a word is: reserved, or a name.
fn word_kind(from: usize, word: &[u8]) -> Kind
    ensures { result ≡ word_kind from word.now }
{
    match sign_of(word) {
        Some(sign) => Kind::Mark(sign),
        None => {
            let letters = word.len();
            if letters <= MAX_NAME_LETTERS {
                Kind::Named(Name { from, letters })
            } else {
                Kind::Fault(RuleError::OutOfRange)
            }
        }
    }
}

fn number_lexeme(text: &[u8]) -> Lexeme
    ensures lexeme { result ≡ number_lexeme text.now }
    ensures within { result.further + 1 < 2 ^ 63 }
{
    let letters = run(Class::Digits, text);
    Lexeme {
        kind: Some(number_kind(&text[..letters])),
        further: letters.saturating_sub(1),
    }
}

/// Returns what a word at a place is; none may directly follow a number.
fn word_at(at: Place, word: &[u8]) -> Kind
    ensures { result ≡ word_from at word.now }
{
    if is_digit(at.before) {
        Kind::Fault(RuleError::BadCharacter)
    } else {
        word_kind(at.offset, word)
    }
}

#[tactic(auto, unfolding(crate::specs::Tokens::word_lexeme))]
fn word_lexeme(at: Place, text: &[u8]) -> Lexeme
    ensures lexeme { result ≡ word_lexeme at text.now }
    ensures within { result.further + 1 < 2 ^ 63 }
{
    let letters = run(Class::Letters, text);
    Lexeme {
        kind: Some(word_at(at, &text[..letters])),
        further: letters.saturating_sub(1),
    }
}

fn marked(sign: Sign) -> Lexeme
    ensures lexeme { result ≡ lexeme_of_sign sign }
    ensures within { result.further + 1 < 2 ^ 63 }
{
    Lexeme {
        kind: Some(Kind::Mark(sign)),
        further: spelling(sign).len().saturating_sub(1),
    }
}

fn sign_lexeme(text: &[u8]) -> Lexeme
    ensures lexeme { result ≡ sign_lexeme text.now }
    ensures within { result.further + 1 < 2 ^ 63 }
{
    if let Some(sign) = sign_of(&text[..text.len().min(2)]) {
        return marked(sign);
    }
    match sign_of(&text[..text.len().min(1)]) {
        Some(sign) => marked(sign),
        None => Lexeme {
            kind: Some(Kind::Fault(RuleError::BadCharacter)),
            further: 0,
        },
    }
}

/// Returns what begins with the first byte of a text.
fn lexeme_at(at: Place, text: &[u8]) -> Lexeme
    ensures lexeme { result ≡ lexeme_at at text.now }
    ensures within { result.further + 1 < 2 ^ 63 }
{
    match text {
        [] => Lexeme {
            kind: None,
            further: 0,
        },
        [first, rest @ ..] => {
            if is_space(*first) {
                Lexeme {
                    kind: None,
                    further: 0,
                }
            } else if *first == b'#' {
                Lexeme {
                    kind: None,
                    further: run(Class::Comment, rest),
                }
            } else if is_digit(*first) {
                number_lexeme(text)
            } else if begins_name(*first) {
                word_lexeme(at, text)
            } else {
                sign_lexeme(text)
            }
        }
    }
}

pub const FIRST_PLACE: Place = Place {
    offset: 0,
    line: 1,
    column: 1,
    before: b'\n',
    spaced: true,
};

const FIRST_END: Position = Position { line: 1, column: 1 };

/// Returns the place after a byte.
fn past(at: Place, byte: u8) -> Place
    requires offset { at.offset < 2 ^ 63 }
    requires line { at.line ≤ at.offset + 1 }
    requires column { at.column ≤ at.offset + 1 }
    ensures { result ≡ past at byte }
{
    let end = byte == b'\n';
    Place {
        offset: at.offset + 1,
        line: if end { at.line + 1 } else { at.line },
        column: if end { 1 } else { at.column + 1 },
        before: byte,
        spaced: end || (at.spaced && byte == b' '),
    }
}

/// Returns a token at a place, after one with this end.
fn token_at(kind: Kind, end: Position, at: Place) -> Token
    ensures { result ≡ token kind end at }
{
    Token {
        kind,
        line: at.line,
        column: at.column,
        spaced: at.spaced,
        last_end: end,
    }
}

/// Returns where the last token ends after what begins at a place. Before that it ended here.
fn end_after(here: Lexeme, end: Position, at: Place) -> Position
    requires column { at.column ≤ 2 ^ 63 }
    requires within { here.further + 1 < 2 ^ 63 }
    ensures { result ≡ end_after here.kind here.further end at }
{
    match here.kind {
        Some(_) => Position {
            line: at.line,
            column: at.column + (here.further + 1),
        },
        None => end,
    }
}

/// Appends the token that begins at a place, if one does.
fn push_kind(
    tokens: &mut Vec<Token>,
    kind: Option<Kind>,
    end: Position,
    at: Place,
) -> Result<(), AllocError>
    ensures { OnOk result (tokens.new.items ≡ tokens.old.items ++ tokens_at kind end at) }
{
    match kind {
        Some(kind) => {
            tokens.push(token_at(kind, end, at))?;
            Ok(())
        }
        None => Ok(()),
    }
}

/// Reads one more byte, the first of `rest`. Returns what is known after it.
#[tactic(auto, using(crate::proofs::TokenLemmas::byte_skipped))]
fn push_byte(
    tokens: &mut Vec<Token>,
    scan: Scan,
    at: Place,
    rest: &[u8],
) -> Result<Scan, AllocError>
    requires { at.column ≤ 2 ^ 63 }
    ensures { IfOk result (λ next. (c : ℕ) (cs : List ℕ) → rest.now ≡ c ∷ cs →
        tokens.old.items ++ lexemes_from scan.skip scan.end at (c ∷ cs)
        ≡ tokens.new.items ++ lexemes_from next.skip next.end (past at c) cs) }
{
    if scan.skip > 0 {
        return Ok(Scan {
            skip: scan.skip - 1,
            end: scan.end,
        });
    }
    let here = lexeme_at(at, rest);
    push_kind(tokens, here.kind, scan.end, at)?;
    Ok(Scan {
        skip: here.further,
        end: end_after(here, scan.end, at),
    })
}

/// Returns the tokens of a text, without the starts of lines.
#[tactic(auto, using(crate::proofs::TokenLemmas::next_byte))]
pub fn lexemes(alloc: Global, text: &[u8]) -> Result<Vec<Token>, AllocError>
    ensures { IfOk result (λ tokens. tokens.items ≡ lexemes_of text.now) }
{
    let mut tokens = Vec::new(alloc);
    let mut at = FIRST_PLACE;
    let mut scan = Scan {
        skip: 0,
        end: FIRST_END,
    };
    for (i, byte) in text.iter().enumerate() {
        scan = push_byte(&mut tokens, scan, at, &text[i..])?;
        at = past(at, *byte);
    }
    push_kind(&mut tokens, Some(Kind::TextEnd), scan.end, at)?;
    Ok(tokens)
}
