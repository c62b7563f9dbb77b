//! Names and their meanings.
ghost use Rattle.std.specs.Prelude.{◌≡◌, ◌≤◌, ◌++◌, [], ◌∷◌, length, Ok, IfOk, IfErr};
ghost use Rattle.rule_text.specs.Scopes.{letters_of, is_same_name, found_entry, meaning_of, means_local, is_loop, is_word};
ghost use Rattle.rule_text.specs.Scopes.{means_table};
ghost use Rattle.rule_text.specs.Scopes.{next_meaning, added, words_of};
ghost use Rattle.rule_text.specs.Scopes.{TellsError, named_entry, new_name, rule_error_at, error_in, told_instead};
ghost use Rattle.rule_text.specs.Scopes.{error_position};

use crate::errors::{ReadRuleError, RuleError};
use crate::lexemes::{Kind, Name, Position, Token};
use std::alloc::{AllocError, Global};

/// The most names in scope at once.
pub const MAX_NAMES: usize = 200;

/// What a name means: a number by `let`, the node of a loop, a word of the memory, or a table.
#[derive(Clone, Copy)]
pub enum Meaning {
    Local(u32),
    LoopNode(u32),
    Word(u32),
    Table(u32),
}

/// A name in scope.
#[derive(Clone, Copy)]
pub struct Entry {
    pub name: Name,
    pub meaning: Meaning,
}

/// What makes a new name.
#[derive(Clone, Copy)]
pub enum Maker {
    Let,
    Loop,
    State,
    Table,
}

/// Returns the error at a token: its own fault, if it is one, and otherwise the given error.
fn told(error: RuleError, kind: Kind) -> RuleError
    ensures { result ≡ told_instead error kind }
{
    match kind {
        Kind::Fault(other) => other,
        _ => error,
    }
}

/// Returns the place of an error at a token. What is missing before the next line or the end of the text is missing
/// where the last token ends.
fn position_of(error: RuleError, t: Token) -> Position
    ensures { result ≡ error_position error t }
{
    let is_missing = matches!(error, RuleError::Expected);
    match t.kind {
        Kind::LineStart | Kind::TextEnd if is_missing => t.last_end,
        _ => Position {
            line: t.line,
            column: t.column,
        },
    }
}

pub fn error_at(error: RuleError, t: Token) -> ReadRuleError
    ensures { result ≡ rule_error_at error t }
{
    let Position { line, column } = position_of(error, t);
    ReadRuleError::At {
        error: told(error, t.kind),
        line,
        column,
    }
}

/// Returns the error at the first of the tokens.
pub fn error_in(error: RuleError, tokens: &[Token]) -> ReadRuleError
    ensures { result ≡ error_in error tokens.now }
{
    match tokens {
        [first, ..] => error_at(error, *first),
        [] => ReadRuleError::At {
            error,
            line: 0,
            column: 0,
        },
    }
}

/// Returns the bytes of a name.
pub fn letters_of(text: &[u8], name: Name) -> &[u8]
    ensures { result.now ≡ letters_of text.now name }
{
    let rest = &text[name.from.min(text.len())..];
    &rest[..name.letters.min(rest.len())]
}

fn is_same_name(text: &[u8], a: Name, b: Name) -> bool
    ensures { result ≡ is_same_name text.now a b }
{
    letters_of(text, a) == letters_of(text, b)
}

/// Returns the entry of a name.
fn entry_of(text: &[u8], names: &[Entry], name: Name) -> Option<Entry>
    ensures { result ≡ found_entry text.now names.now name }
{
    names
        .iter()
        .copied()
        .find(|entry| is_same_name(text, entry.name, name))
}

/// Returns what a name means.
pub fn meaning_of(text: &[u8], names: &[Entry], name: Name) -> Option<Meaning>
    ensures { result ≡ meaning_of text.now names.now name }
{
    match entry_of(text, names, name) {
        Some(entry) => Some(entry.meaning),
        None => None,
    }
}

fn is_local(meaning: Meaning) -> bool
    ensures { result ≡ means_local meaning }
{
    match meaning {
        Meaning::Local(_) => true,
        _ => false,
    }
}

fn is_loop(meaning: Meaning) -> bool
    ensures { result ≡ is_loop meaning }
{
    match meaning {
        Meaning::LoopNode(_) => true,
        _ => false,
    }
}

pub fn is_word(meaning: Meaning) -> bool
    ensures { result ≡ is_word meaning }
{
    match meaning {
        Meaning::Word(_) => true,
        _ => false,
    }
}

fn means_table(meaning: Meaning) -> bool
    ensures { result ≡ means_table meaning }
{
    match meaning {
        Meaning::Table(_) => true,
        _ => false,
    }
}

/// Returns what the next name of a maker means: it is numbered by those before it.
fn next_meaning(maker: Maker, names: &[Entry]) -> Meaning
    requires { length names.now ≤ MAX_NAMES }
    ensures { result ≡ next_meaning maker names.now }
{
    match maker {
        Maker::Let => {
            let before = names.iter().filter(|e| is_local(e.meaning)).count();
            Meaning::Local(before as u32)
        }
        Maker::Loop => {
            let before = names.iter().filter(|e| is_loop(e.meaning)).count();
            Meaning::LoopNode(before as u32)
        }
        Maker::State => {
            let before = names.iter().filter(|e| is_word(e.meaning)).count();
            Meaning::Word(before as u32 + 1)
        }
        Maker::Table => {
            let before = names.iter().filter(|e| means_table(e.meaning)).count();
            Meaning::Table(before as u32)
        }
    }
}

/// Returns the names with one more.
fn with_entry(alloc: Global, names: &[Entry], entry: Entry) -> Result<Vec<Entry>, AllocError>
    ensures { IfOk result (λ more. more.items ≡ names.now ++ entry ∷ []) }
{
    let mut more = Vec::new(alloc);
    more.extend_from_slice(names)?;
    more.push(entry)?;
    Ok(more)
}

/// Returns the names with a new one, unless it has a meaning already or there are too many.
fn added(
    alloc: Global,
    known: Option<Meaning>,
    maker: Maker,
    name: Name,
    names: &[Entry],
    t: Token,
) -> Result<Vec<Entry>, ReadRuleError>
    ensures names { IfOk result (λ more. added known maker name names.now t ≡ Ok more.items) }
    ensures error { IfErr result (TellsError (added known maker name names.now t)) }
{
    if let Some(_) = known {
        return Err(error_at(RuleError::NameTwice, t));
    }
    if names.len() >= MAX_NAMES {
        return Err(error_at(RuleError::TooDeep, t));
    }
    let meaning = next_meaning(maker, names);
    Ok(with_entry(alloc, names, Entry { name, meaning })?)
}

/// Returns the names with the new one that a token gives.
pub fn named_entry(
    alloc: Global,
    text: &[u8],
    maker: Maker,
    names: &[Entry],
    t: Token,
) -> Result<Vec<Entry>, ReadRuleError>
    ensures names { IfOk result (λ more. named_entry text.now maker names.now t ≡ Ok more.items) }
    ensures error { IfErr result (TellsError (named_entry text.now maker names.now t)) }
{
    match t.kind {
        Kind::Named(name) => {
            let known = meaning_of(text, names, name);
            added(alloc, known, maker, name, names, t)
        }
        _ => Err(error_at(RuleError::Expected, t)),
    }
}

/// Reads a new name. Returns the names with it, and the tokens after it.
pub fn new_name<'a>(
    alloc: Global,
    text: &[u8],
    maker: Maker,
    names: &[Entry],
    tokens: &'a [Token],
) -> Result<(Vec<Entry>, &'a [Token]), ReadRuleError>
    ensures names { IfOk result (λ x. new_name text.now maker names.now tokens.now ≡ Ok (x.0.items, x.1.now)) }
    ensures error { IfErr result (TellsError (new_name text.now maker names.now tokens.now)) }
{
    match tokens {
        [first, rest @ ..] => {
            let more = named_entry(alloc, text, maker, names, *first)?;
            Ok((more, rest))
        }
        [] => Err(error_in(RuleError::Expected, tokens)),
    }
}

/// Returns how many words of the memory the names and the clock are.
pub fn word_count(names: &[Entry]) -> usize
    ensures { result ≡ words_of names.now }
{
    let found = names.iter().filter(|e| is_word(e.meaning)).count();
    found + 1
}
