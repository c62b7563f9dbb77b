//! What a note says of an error. Nothing is promised of it.

use crate::character::of_character;
use crate::expected::of_expected;
use crate::foreign::{of_foreign_name, of_new_name};
use crate::names::Maker;
use crate::near::nearest;
use crate::place::{Place, place_in};
use crate::reading::{Reading, reading_at};
use crate::shown::shown;
use crate::walk::{Next, TableNext};
use rule_text::RuleError;
use std::alloc::{AllocError, Global};

fn of_indent(alloc: Global, place: Place<'_>, reading: &Reading<'_>) -> Result<String, AllocError> {
    if place.before.iter().any(|byte| *byte != b' ') {
        return String::from_str(alloc, "only spaces indent a line");
    }
    match reading.columns_near() {
        (Some(below), Some(above)) => {
            format!(in alloc; "expected column {below} or {above}, those of open blocks")
        }
        (Some(below), None) => {
            format!(in alloc; "expected column {below}; a deeper block follows a \":\"")
        }
        (None, Some(above)) => format!(in alloc; "expected column {above}, that of the first line"),
        (None, None) => Ok(String::new(alloc)),
    }
}

fn of_range(here: &str) -> &'static str {
    match here.as_bytes() {
        [b'0'..=b'9', ..] => "a number is at most 4294967295",
        _ => "a name has at most 32 letters",
    }
}

/// Returns the fix for an unknown name, or a question: nothing if neither is known.
fn fix_of_unknown(alloc: Global, reading: &Reading<'_>) -> Result<String, AllocError> {
    let foreign = of_foreign_name(alloc, reading)?;
    if foreign.len() > 0 {
        return Ok(foreign);
    }
    let known = reading.known(alloc)?;
    match nearest(alloc, reading.here, known.as_slice())? {
        Some(near) => format!(in alloc; "did you mean {near}?"),
        None => of_new_name(alloc, reading),
    }
}

fn of_unknown(alloc: Global, reading: &mut Reading<'_>) -> Result<String, AllocError> {
    reading.begin()?;
    let fix = fix_of_unknown(alloc, reading)?;
    let name = shown(alloc, reading.here)?;
    let name = name.as_str();
    if fix.len() == 0 {
        return format!(in alloc; "unknown name {name}");
    }
    let fix = fix.as_str();
    format!(in alloc; "unknown name {name}; {fix}")
}

/// Returns what to do with a name that has a meaning already.
fn other_name(maker: Maker, before: Maker) -> &'static str {
    match (maker, before) {
        (Maker::Let, Maker::Let | Maker::State) => "without \"let\" the line sets it",
        (Maker::Let | Maker::State | Maker::Table | Maker::For | Maker::Aggregate, _) => {
            "choose another name"
        }
    }
}

fn of_twice(alloc: Global, reading: &Reading<'_>) -> Result<String, AllocError> {
    let name = shown(alloc, reading.here)?;
    let name = name.as_str();
    let Some(maker) = reading.walk.maker() else {
        return format!(in alloc; "one statement sets {name} once");
    };
    match reading.declared() {
        Some((line, before)) => {
            let fix = other_name(maker, before);
            format!(in alloc; "{name} has a meaning since line {line}; {fix}")
        }
        None => format!(in alloc; "{name} has a meaning already; choose another name"),
    }
}

fn of_depth(reading: &Reading<'_>) -> &'static str {
    if reading.walk.maker().is_some() {
        return "at most 200 names are in scope: end a block, or use a name again";
    }
    if reading.begins_line {
        return "at most 200 blocks are in one another";
    }
    "at most 200 parts are in one another: name an inner one with \"let\""
}

fn of_length(reading: &Reading<'_>) -> &'static str {
    if reading.begins_line {
        return "a rule has at most 2048 lines with tokens: set several names in one, or use \"for\"";
    }
    match reading.walk.next {
        Next::OfTable(TableNext::Cell | TableNext::MoreCells) => "a table has at most 1024 cells",
        Next::OfTable(TableNext::IndexSquare) =>
            "a rule has at most 64 lookups in tables: name one with \"let\", and use it again",
        _ => "a line has at most 1000 tokens: name parts of it with \"let\"",
    }
}

fn words_on(
    alloc: Global,
    place: Place<'_>,
    error: RuleError,
    mut reading: Reading<'_>,
) -> Result<String, AllocError> {
    match error {
        RuleError::BadCharacter => of_character(alloc, place.rest),
        RuleError::BadIndent => of_indent(alloc, place, &reading),
        RuleError::OutOfRange => String::from_str(alloc, of_range(reading.here)),
        RuleError::Expected => of_expected(alloc, &mut reading),
        RuleError::UnknownName => of_unknown(alloc, &mut reading),
        RuleError::NameTwice => of_twice(alloc, &reading),
        RuleError::NotAssignable => String::from_str(
            alloc,
            "only \"clock\" and names of \"let\" and \"state\" can be set",
        ),
        RuleError::TooDeep => String::from_str(alloc, of_depth(&reading)),
        RuleError::TooLong => String::from_str(alloc, of_length(&reading)),
    }
}

/// Returns what is wrong at a place of a text: nothing if it isn't known. Line and column count from 1.
pub fn advice_at(
    alloc: Global,
    text: &[u8],
    error: RuleError,
    line: usize,
    column: usize,
) -> Result<String, AllocError> {
    let place = place_in(text, line, column);
    let reading = reading_at(alloc, place, line, column)?;
    words_on(alloc, place, error, reading)
}

/// Returns what is wrong at a place of a text: at least that something is.
pub(crate) fn advice_on(
    alloc: Global,
    text: &[u8],
    error: RuleError,
    line: usize,
    column: usize,
) -> Result<String, AllocError> {
    let words = advice_at(alloc, text, error, line, column)?;
    if words.len() > 0 {
        return Ok(words);
    }
    String::from_str(alloc, "this can't be here")
}
