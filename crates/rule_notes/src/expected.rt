//! What a note says of a token that can't be at its place.

use crate::foreign::of_foreign_sign;
use crate::near::nearest;
use crate::reading::Reading;
use crate::shown::shown;
use crate::token::{Kind, kind_of};
use crate::walk::{Next, Part};
use std::alloc::{AllocError, Global};
use std::str;

/// Returns what may follow: nothing if that isn't known.
fn may_follow(next: Next, part: Option<Part>) -> &'static str {
    match next {
        Next::Statement => "\"let\", \"send\", \"if\", \"for\" or an assignment",
        Next::Block => "\"let\", \"send\", an assignment, or deeper lines",
        Next::Name(_) => "a new name",
        Next::MoreNames => "\",\" or the end of the line",
        Next::Becomes => "\"=\"",
        Next::Target(_) => "a name or \"clock\"",
        Next::MoreTargets(_) => "\"=\" or \",\"",
        Next::BlockColon | Next::AggregateColon => "\":\"",
        Next::Square | Next::PlaceSquare => "\"[\"",
        Next::OfTable(next) => next.expected(),
        Next::Operand(_) => operand(part),
        Next::AfterTerm => after_term(part),
        Next::Unknown => "",
    }
}

fn operand(part: Option<Part>) -> &'static str {
    match part {
        Some(Part::Place { .. }) => "a constant, such as f or n - 1",
        Some(
            Part::Round { .. }
            | Part::Square { .. }
            | Part::Test
            | Part::Condition
            | Part::Sent
            | Part::Value(_),
        )
        | None => "a term, such as a number or a name",
    }
}

fn after_term(part: Option<Part>) -> &'static str {
    match part {
        Some(Part::Round { .. }) => "an operator, \"if\" or \")\"",
        Some(Part::Square { .. }) => "an operator, \"if\" or \"]\"",
        Some(Part::Place { .. }) => "an operator or \"]\"",
        Some(Part::Test) => "an operator or \"else\"",
        Some(Part::Condition) => "an operator, \"if\" or \":\"",
        Some(Part::Sent) => "an operator, \"if\", \"to\" or the end of the line",
        Some(Part::Value(0)) => "an operator, \"if\" or the end of the line",
        Some(Part::Value(_)) => "an operator, \"if\" or \",\"",
        None => "",
    }
}

/// Returns the fix for a token that can't follow: nothing if it isn't known.
fn fix(next: Next, part: Option<Part>, compared: bool, text: &str) -> &'static str {
    match next {
        Next::Statement => fix_of_statement(text),
        Next::Block => fix_of_block(text),
        Next::Operand(_) => fix_of_operand(part, text),
        Next::AfterTerm => fix_after_term(part, compared, text),
        Next::OfTable(next) => next.fix(),
        Next::Name(_)
        | Next::MoreNames
        | Next::Becomes
        | Next::Target(_)
        | Next::MoreTargets(_)
        | Next::BlockColon
        | Next::AggregateColon
        | Next::Square
        | Next::PlaceSquare
        | Next::Unknown => "",
    }
}

fn fix_of_statement(text: &str) -> &'static str {
    match text {
        "else" | "elif" => "it follows the block of an \"if\", in the same column",
        "state" | "table" => "lines of \"state\" and \"table\" come first",
        _ => "",
    }
}

fn fix_of_block(text: &str) -> &'static str {
    match text {
        "if" | "for" => "a block in a block begins a line of its own",
        _ => "",
    }
}

fn fix_of_operand(part: Option<Part>, text: &str) -> &'static str {
    match text {
        _ if matches!(part, Some(Part::Place { .. })) => "",
        "not" | "count" | "sorted" => "put it in brackets, with its term",
        "if" => "a choice is x if t else y",
        "table" => "a table has a line of its own, before the statements",
        _ => "",
    }
}

fn fix_after_term(part: Option<Part>, compared: bool, text: &str) -> &'static str {
    match text {
        "=" => "\"==\" compares",
        "==" | "!=" | "<" | "<=" | ">" | ">=" if compared => { "join two comparisons with \"and\"" }
        "if" if matches!(part, Some(Part::Test)) => "put a choice in a test in brackets",
        _ => "",
    }
}

/// Returns the words of more than two letters that can follow a term.
fn words_after_term(part: Option<Part>) -> &'static [&'static str] {
    match part {
        Some(Part::Test) => &["and", "else"],
        Some(Part::Place { .. }) => &[],
        Some(
            Part::Round { .. }
            | Part::Square { .. }
            | Part::Condition
            | Part::Sent
            | Part::Value(_),
        ) => &["and"],
        None => &[],
    }
}

/// Returns a question for the word that a name after a term may be meant for.
fn question(alloc: Global, reading: &Reading<'_>) -> Result<String, AllocError> {
    let (Next::AfterTerm, Kind::Name) = (reading.walk.next, kind_of(reading.here)) else {
        return Ok(String::new(alloc));
    };
    match nearest(alloc, reading.here, words_after_term(reading.walk.part()))? {
        Some(word) => format!(in alloc; "; did you mean {word}?"),
        None => Ok(String::new(alloc)),
    }
}

/// Returns that a bracket is open, if it is of a line before.
fn open_bracket(alloc: Global, reading: &Reading<'_>) -> Result<String, AllocError> {
    match reading.walk.part() {
        Some(Part::Round { line, .. }) if line < reading.line => {
            format!(in alloc; "; \"(\" of line {line} is open")
        }
        Some(Part::Square { line, .. } | Part::Place { line }) if line < reading.line => {
            format!(in alloc; "; \"[\" of line {line} is open")
        }
        Some(_) | None => Ok(String::new(alloc)),
    }
}

/// Returns the place after `sorted` that begins with the token: up to the bracket that ends it, or the line.
fn place_text<'a>(rest: &'a str) -> &'a str {
    let bytes = rest.as_bytes();
    let mut depth = 0_usize;
    for (at, byte) in bytes.iter().enumerate() {
        match *byte {
            b'[' | b'(' => depth = depth.saturating_add(1),
            b']' if depth == 0 => {
                let end = at.min(bytes.len());
                return str::from_utf8(&bytes[..end]).unwrap_or_default();
            }
            b']' | b')' => depth = depth.saturating_sub(1),
            _ => {}
        }
    }
    rest
}

/// Returns the whole place that begins with the token, if it may be one that is no constant.
fn found_place<'a>(reading: &Reading<'a>) -> Option<&'a str> {
    let is_first = reading.is_in_place() && reading.last == "[";
    let is_term = match kind_of(reading.here) {
        Kind::Sign => reading.here == "(",
        Kind::Number | Kind::Name | Kind::Reserved => true,
    };
    if is_first && is_term && !reading.begins_line {
        Some(place_text(reading.rest))
    } else {
        None
    }
}

/// Returns what is there: a token, or the end of a line or of the text.
fn found(alloc: Global, reading: &Reading<'_>) -> Result<String, AllocError> {
    let here = reading.here;
    if here.len() == 0 && reading.is_text_end {
        return String::from_str(alloc, "the end of the text");
    }
    if here.len() == 0 {
        return String::from_str(alloc, "the end of the line");
    }
    if let Some(place) = found_place(reading) {
        let place = shown(alloc, place)?;
        let place = place.as_str();
        return format!(in alloc; "\"{place}\"");
    }
    let words = shown(alloc, here)?;
    let words = words.as_str();
    match kind_of(here) {
        Kind::Reserved => format!(in alloc; "the word \"{words}\""),
        Kind::Number | Kind::Name | Kind::Sign => format!(in alloc; "\"{words}\""),
    }
}

/// Returns what is said of a token of which nothing else is known.
fn unexpected(alloc: Global, reading: &Reading<'_>) -> Result<String, AllocError> {
    if reading.begins_line {
        return Ok(String::new(alloc));
    }
    let found = found(alloc, reading)?;
    let found = found.as_str();
    format!(in alloc; "unexpected {found}")
}

/// Returns the fix for the token, or a question.
fn hint(alloc: Global, reading: &Reading<'_>) -> Result<String, AllocError> {
    let foreign = of_foreign_sign(alloc, reading)?;
    if foreign.len() > 0 {
        let foreign = foreign.as_str();
        return format!(in alloc; "; {foreign}");
    }
    let walk = &reading.walk;
    let fix = fix(walk.next, walk.part(), walk.compared, reading.here);
    if fix.len() > 0 {
        return format!(in alloc; "; {fix}");
    }
    let question = question(alloc, reading)?;
    if question.len() > 0 {
        return Ok(question);
    }
    open_bracket(alloc, reading)
}

fn of_token(alloc: Global, reading: &Reading<'_>) -> Result<String, AllocError> {
    let expected = may_follow(reading.walk.next, reading.walk.part());
    if expected.len() == 0 {
        return unexpected(alloc, reading);
    }
    let found = found(alloc, reading)?;
    let hint = hint(alloc, reading)?;
    let found = found.as_str();
    let hint = hint.as_str();
    format!(in alloc; "expected {expected}, found {found}{hint}")
}

/// Returns what could be at the place of a token, and what is there.
pub(crate) fn of_expected(alloc: Global, reading: &mut Reading<'_>) -> Result<String, AllocError> {
    if reading.is_before_block() {
        let column = reading.block_column();
        return format!(in alloc; "expected a line deeper than column {column}");
    }
    reading.begin()?;
    of_token(alloc, reading)
}
