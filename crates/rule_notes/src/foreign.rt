//! What a rule has in place of words and signs of other languages.

use crate::reading::Reading;
use crate::shown::written_for;
use crate::token::first_of;
use crate::walk::{Grade, Next, Part, TableNext};
use std::alloc::{AllocError, Global};
use std::str;

/// Returns the word of a rule for a name of other languages: nothing if there is none.
fn same_word(name: &str) -> &'static str {
    match name {
        "true" | "True" | "TRUE" => "1",
        "false" | "False" | "FALSE" => "0",
        "None" | "null" | "NULL" | "nil" => "none",
        "N" => "n",
        "F" => "f",
        "m" => "M",
        "self" | "id" => "me",
        "elseif" | "elsif" => "elif",
        "var" | "int" | "const" | "auto" => "let",
        _ => "",
    }
}

/// Returns what there is in place of a statement of other languages: nothing if that isn't known.
fn other_statement(name: &str) -> &'static str {
    match name {
        "return" => "there is no return: set \"clock\", and \"send\" a number",
        "while" | "loop" | "repeat" | "foreach" => {
            "there is no loop with a test: \"for j:\" goes over all nodes"
        }
        "print" | "printf" | "println" | "log" => {
            "there is no print: clockbed run --trace shows each step of a node"
        }
        "def" | "fn" | "func" | "function" => "there is no function: name a term with \"let\"",
        "pass" | "break" | "continue" => "there is no such statement: leave its branch out",
        "switch" | "match" | "case" => "there is no such statement: use \"if\" and \"elif\"",
        _ => "",
    }
}

/// Returns the sign between the two terms of a choice of the smaller or the greater one.
fn sign_of_choice(name: &str) -> &'static str {
    match name {
        "min" => "<",
        "max" => ">",
        _ => "",
    }
}

/// Returns the choice that is meant by a call of `min` or `max`, if the rest of a line begins with one.
fn choice(alloc: Global, name: &str, rest: &str) -> Result<String, AllocError> {
    let sign = sign_of_choice(name);
    if sign.is_empty() {
        return Ok(String::new(alloc));
    }
    let Some((first, second)) = two_terms(name, rest) else {
        return format!(in alloc; "there is no {name}: write \"a if a {sign} b else b\"");
    };
    let (a, b) = (first.trim(), second.trim());
    format!(in alloc;
        "write \"({a} if {a} {sign} {b} else {b})\" in place of \"{name}({first},{second})\""
    )
}

/// Returns the choice that is meant by a call of `abs`, with which the rest of a line begins.
fn distance(alloc: Global, rest: &str) -> Result<String, AllocError> {
    let Some((a, b)) = two_operands(rest) else {
        return String::from_str(
            alloc,
            "there is no abs, and no number is below 0: write \"a - b if a > b else b - a\"",
        );
    };
    format!(in alloc;
        "write \"({a} - {b} if {a} > {b} else {b} - {a})\" in place of \"abs({a} - {b})\""
    )
}

/// Returns the two operands of the difference of which `abs` is called, if they have neither brackets nor blanks.
fn two_operands(rest: &str) -> Option<(&str, &str)> {
    let (inside, _) = rest.strip_prefix("abs(")?.split_once(')')?;
    let (first, second) = inside.split_once('-')?;
    let (first, second) = (first.trim(), second.trim());
    if !is_single(first) || !is_single(second) {
        return None;
    }
    Some((first, second))
}

fn is_single(term: &str) -> bool {
    !term.is_empty()
        && term.bytes().all(|byte| byte.is_ascii_alphanumeric()
            || matches!(byte, b'_' | b'[' | b']'))
}

/// Returns the two terms of a call, if they have no brackets of their own.
fn two_terms<'a>(name: &str, rest: &'a str) -> Option<(&'a str, &'a str)> {
    let inside = rest.strip_prefix(name)?.strip_prefix("(")?;
    let (first, more) = inside.split_once(',')?;
    let (second, _) = more.split_once(')')?;
    if first.contains('(') || second.contains('(') || second.contains(',') {
        return None;
    }
    Some((first, second))
}

/// Returns true if a name is set that has no meaning.
fn sets(next: Next, name: &str, rest: &str) -> bool {
    if !matches!(next, Next::Statement | Next::Block) {
        return false;
    }
    match rest.strip_prefix(name) {
        Some(more) => {
            let more = more.trim_start();
            more.starts_with('=') && !more.starts_with("==")
        }
        None => false,
    }
}

/// Returns what there is in place of a name of other languages: nothing if that isn't known.
pub(crate) fn of_foreign_name(alloc: Global, reading: &Reading<'_>) -> Result<String, AllocError> {
    let name = reading.here;
    let word = same_word(name);
    if word.len() > 0 {
        return written_for(alloc, word, name);
    }
    let statement = other_statement(name);
    if statement.len() > 0 {
        return String::from_str(alloc, statement);
    }
    if name == "least" {
        return String::from_str(alloc, of_least(reading.walk.next));
    }
    if name == "abs" {
        return distance(alloc, reading.rest);
    }
    choice(alloc, name, reading.rest)
}

/// Returns how `least` is the word of a term: nothing if no term can begin here.
fn of_least(next: Next) -> &'static str {
    match next {
        Next::Operand(Grade::Whole) => {
            "\"least j: t\" is the least message from a node j for which t holds"
        }
        Next::Operand(Grade::Inverse | Grade::Atom) => "put \"least\" in brackets, with its term",
        Next::Statement
        | Next::Block
        | Next::Name(_)
        | Next::MoreNames
        | Next::Becomes
        | Next::Target(_)
        | Next::MoreTargets(_)
        | Next::BlockColon
        | Next::AggregateColon
        | Next::Square
        | Next::PlaceSquare
        | Next::OfTable(_)
        | Next::AfterTerm
        | Next::Unknown => "",
    }
}

/// Returns that a name is made where it is set: nothing if it isn't set here.
pub(crate) fn of_new_name(alloc: Global, reading: &Reading<'_>) -> Result<String, AllocError> {
    let name = reading.here;
    if sets(reading.walk.next, name, reading.rest) {
        format!(in alloc; "write \"let {name}\" in place of \"{name}\"")
    } else {
        Ok(String::new(alloc))
    }
}

/// Returns what to write in place of a sign or word that can't follow: nothing if that isn't known.
pub(crate) fn of_foreign_sign(alloc: Global, reading: &Reading<'_>) -> Result<String, AllocError> {
    match reading.walk.next {
        Next::Statement | Next::Block => of_beginning(alloc, reading),
        Next::MoreTargets(_) => of_target(alloc, reading),
        Next::Becomes | Next::OfTable(TableNext::Becomes) => of_becomes(alloc, reading),
        Next::BlockColon | Next::AggregateColon => of_colon(alloc, reading),
        Next::Square | Next::PlaceSquare => of_square(alloc, reading),
        Next::Operand(_) => of_operand(alloc, reading),
        Next::AfterTerm => of_end(alloc, reading),
        Next::Name(_) | Next::MoreNames => of_name(alloc, reading),
        Next::OfTable(TableNext::IndexSquare) => of_square(alloc, reading),
        Next::OfTable(_) | Next::Target(_) | Next::Unknown => Ok(String::new(alloc)),
    }
}

fn of_beginning(alloc: Global, reading: &Reading<'_>) -> Result<String, AllocError> {
    if reading.rest.starts_with("//") {
        return written_for(alloc, "#", "//");
    }
    if reading.rest.starts_with("/*") {
        return String::from_str(alloc, "\"#\" begins a comment, which ends with its line");
    }
    Ok(String::new(alloc))
}

/// Returns what to write in place of an assignment of other languages.
fn of_target(alloc: Global, reading: &Reading<'_>) -> Result<String, AllocError> {
    let (name, sign) = (reading.last, reading.here);
    if reading.rest.starts_with("++") || reading.rest.starts_with("--") {
        return format!(in alloc; "write \"= {name} {sign} 1\" in place of \"{sign}{sign}\"");
    }
    match sign {
        "+" | "-" | "*" | "/" | "%" => match reading.rest.strip_prefix(sign) {
            Some(more) if more.starts_with('=') => {
                format!(in alloc; "write \"= {name} {sign}\" in place of \"{sign}=\"")
            }
            Some(_) | None => Ok(String::new(alloc)),
        },
        _ => of_becomes(alloc, reading),
    }
}

fn of_becomes(alloc: Global, reading: &Reading<'_>) -> Result<String, AllocError> {
    match reading.here {
        ":" if reading.rest.starts_with(":=") => written_for(alloc, "=", ":="),
        "==" => written_for(alloc, "=", "=="),
        _ => Ok(String::new(alloc)),
    }
}

/// Returns what to write in place of what is before a colon.
fn of_colon(alloc: Global, reading: &Reading<'_>) -> Result<String, AllocError> {
    match reading.here {
        "if" if reading.last == "else" => written_for(alloc, "elif", "else if"),
        "in" => match reading.rest.split_once(':') {
            Some((nodes, _block)) => {
                format!(in alloc; "write \":\" in place of \"{nodes}:\"; it goes over all nodes")
            }
            None => String::from_str(alloc, "\"for j:\" goes over all nodes"),
        },
        _ => Ok(String::new(alloc)),
    }
}

fn of_square(alloc: Global, reading: &Reading<'_>) -> Result<String, AllocError> {
    let Some(inside) = reading.rest.strip_prefix("(") else {
        return Ok(String::new(alloc));
    };
    match inside.split_once(')') {
        Some((node, _more)) if !node.contains('(') => {
            format!(in alloc; "write \"[{node}]\" in place of \"({node})\"")
        }
        Some(_) | None => String::from_str(alloc, "the number is in square brackets"),
    }
}

/// Returns the token after the first of a line's rest.
fn second<'a>(rest: &'a str, first: &str) -> &'a str {
    match rest.strip_prefix(first) {
        Some(more) => str::from_utf8(first_of(more.as_bytes())).unwrap_or_default(),
        None => "",
    }
}

fn of_operand(alloc: Global, reading: &Reading<'_>) -> Result<String, AllocError> {
    match (reading.last, reading.here) {
        ("/", "/") => written_for(alloc, "#", "//"),
        ("<", ">") => written_for(alloc, "!=", "<>"),
        ("*", "*") => String::from_str(alloc, "there is no power: multiply"),
        ("[", "-") if reading.is_in_place() => of_place_from_end(alloc, second(reading.rest, "-")),
        (_, "-") => of_minus(alloc, second(reading.rest, "-")),
        _ => Ok(String::new(alloc)),
    }
}

/// Returns what to write in place of a place that is counted from the end.
fn of_place_from_end(alloc: Global, number: &str) -> Result<String, AllocError> {
    if number.is_empty() {
        return Ok(String::new(alloc));
    }
    format!(in alloc; "write \"n - {number}\" in place of \"-{number}\"")
}

/// Returns what to write in place of a number below 0.
fn of_minus(alloc: Global, number: &str) -> Result<String, AllocError> {
    match number.as_bytes() {
        [b'1'] => written_for(alloc, "none", "-1"),
        [b'0'..=b'9' | b'a'..=b'z' | b'A'..=b'Z', ..] => {
            format!(in alloc; "write \"(0 - {number})\" in place of \"-{number}\"")
        }
        _ => String::from_str(alloc, "no term begins with a sign: write \"0 - x\""),
    }
}

/// Returns what to write in place of a word that ends a term.
fn of_end(alloc: Global, reading: &Reading<'_>) -> Result<String, AllocError> {
    match reading.here {
        "then" | "do" if matches!(reading.walk.part(), Some(Part::Condition)) => {
            written_for(alloc, ":", reading.here)
        }
        "mod" => written_for(alloc, "%", "mod"),
        "is" => written_for(alloc, "==", "is"),
        _ => Ok(String::new(alloc)),
    }
}

fn of_name(alloc: Global, reading: &Reading<'_>) -> Result<String, AllocError> {
    match (reading.last, reading.here) {
        ("count", "(") => String::from_str(alloc, "put the bracket before \"count\""),
        ("for", "(") => String::from_str(alloc, "\"for j:\" has no bracket"),
        (_, "=") if matches!(reading.walk.next, Next::MoreNames) => {
            String::from_str(
                alloc,
                "a word of the memory has no first value: set it in a statement",
            )
        }
        _ => Ok(String::new(alloc)),
    }
}
