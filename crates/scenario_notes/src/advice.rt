//! What a note says of the fix. Nothing is promised of it.

use crate::asm_advice::of_text;
use crate::known::{has_version, key_beside, unknown_key};
use crate::limits::past_limit;
use crate::program_words::why;
use crate::table::{table_at, text_at};
use crate::wanted::{COINS_NAMES, program_names, wanted};
use bpf_asm::{TextError, assemble};
use bpf_insn::MAX_SLOTS;
use bpf_verify::explain;
use node_env::Shape;
use rule_notes::advice_at;
use rule_notes::near::nearest;
use rule_notes::shown::shown;
use rule_programs::RuleRefusal;
use rule_syntax::Sizes;
use scenario_text::keys::Key;
use scenario_text::{
    CLOCK_VERSION, MAX_TEXT, NOISE_VERSION, Place, RULE_VERSION, ScenarioError, ZERO_VERSION,
};
use std::alloc::{AllocError, Global};
use std::str;
use toml::Table;

/// What a rule has too much of.
const NO_ROOM_WORDS: &str =
    "clock and each name of state take 4 bytes of the memory, and at most 131 numbers are in use at once";

/// The keys that have lists of tables.
const ENTRY_KEYS: [&str; 4] = ["load", "unload", "corrupt", "coin"];

/// How a file in UTF-16 begins.
const WIDE_BEGINNINGS: [&[u8]; 2] = [b"\xff\xfe", b"\xfe\xff"];

/// Returns a question for the nearest of some words, before what else is said.
fn did_you_mean(
    alloc: Global,
    word: Option<&str>,
    known: &[&'static str],
) -> Result<String, AllocError> {
    let Some(word) = word else {
        return Ok(String::new(alloc));
    };
    match nearest(alloc, word, known)? {
        Some(name) => format!(in alloc; "did you mean \"{name}\"? "),
        None => Ok(String::new(alloc)),
    }
}

/// Returns what a key may be, which has a value that isn't right.
fn of_value(alloc: Global, table: &Table, place: Place, key: &str) -> Result<String, AllocError> {
    let value = match table_at(table, place) {
        Some(entry) => entry.get(key).and_then(toml::Value::as_str),
        None => None,
    };
    if key == "program" && value == Some("noise") && !has_version(table, NOISE_VERSION) {
        return format!(in alloc; "program = \"noise\" needs version = {NOISE_VERSION}");
    }
    if place == Place::Top && is_head(table, key) {
        return heads_words(alloc, key);
    }
    let question = question_on(alloc, table, key, value)?;
    let words = wanted(alloc, table, place, key)?;
    let question = question.as_str();
    let words = words.as_str();
    format!(in alloc; "{question}{words}")
}

/// Returns true if a key at the top that has a list of tables has one table.
fn is_head(table: &Table, key: &str) -> bool {
    ENTRY_KEYS.iter().any(|entry| *entry == key)
        && table.get(key).and_then(toml::Value::as_table).is_some()
}

/// Returns how the head of an entry is written.
fn heads_words(alloc: Global, key: &str) -> Result<String, AllocError> {
    format!(in alloc; "write \"[[{key}]]\" in place of \"[{key}]\", above each entry")
}

/// Returns the first key whose entries have heads with single brackets in a file, if one has.
fn single_head(file: &str) -> Option<&'static str> {
    for line in file.lines() {
        for key in ENTRY_KEYS {
            if head_name(line.trim()) == Some(key) {
                return Some(key);
            }
        }
    }
    None
}

/// Returns the name in the single brackets of a line.
fn head_name(line: &str) -> Option<&str> {
    let (name, _) = line.strip_prefix("[")?.split_once(']')?;
    Some(name.trim())
}

/// Returns a question for the nearest of the words that a key may have.
fn question_on(
    alloc: Global,
    table: &Table,
    key: &str,
    value: Option<&str>,
) -> Result<String, AllocError> {
    if key == "coins" {
        return did_you_mean(alloc, value, &COINS_NAMES);
    }
    if key == "program" {
        return did_you_mean(alloc, value, program_names(table));
    }
    Ok(String::new(alloc))
}

/// Returns an unknown key of the table there that may be meant by the one that is missing.
fn meant_by<'a>(
    alloc: Global,
    table: &'a Table,
    place: Place,
    key: &'static str,
) -> Result<Option<&'a str>, AllocError> {
    let Some(entry) = table_at(table, place) else {
        return Ok(None);
    };
    let Some(unknown) = unknown_key(entry, place) else {
        return Ok(None);
    };
    match nearest(alloc, unknown, &[key])? {
        Some(_) => Ok(Some(unknown)),
        None => Ok(None),
    }
}

/// Returns what of a scenario is drawn from a key, and asks for it first.
fn drawn_from_key(table: &Table) -> &'static str {
    if table.get("coins").and_then(toml::Value::as_str) == Some("chacha") {
        "coins = \"chacha\""
    } else {
        "program = \"noise\""
    }
}

/// Returns what of a key is said that isn't there.
fn of_missing(
    alloc: Global,
    table: &Table,
    place: Place,
    key: &'static str,
) -> Result<String, AllocError> {
    let words = wanted(alloc, table, place, key)?;
    let words = words.as_str();
    if place == Place::Top && key == "key" {
        let drawn = drawn_from_key(table);
        return format!(in alloc; "{drawn} needs key: {words}");
    }
    match meant_by(alloc, table, place, key)? {
        Some(unknown) => {
            let unknown = shown(alloc, unknown)?;
            let unknown = unknown.as_str();
            format!(in alloc; "{key} is missing, and {unknown} is no key: {words}")
        }
        None => format!(in alloc; "{key} is missing: {words}"),
    }
}

/// Returns what an unknown key needs beside it.
fn of_unknown(alloc: Global, table: &Table, place: Place) -> Result<String, AllocError> {
    let Some(entry) = table_at(table, place) else {
        return Ok(String::new(alloc));
    };
    match unknown_key(entry, place).and_then(|name| key_beside(place, name)) {
        Some(key) => of_unlike(alloc, key),
        None => Ok(String::new(alloc)),
    }
}

/// Returns what a key needs that is known beside others alone.
fn of_unlike(alloc: Global, key: Key) -> Result<String, AllocError> {
    match key {
        Key::Clock => format!(in alloc; "clock needs version = {CLOCK_VERSION}"),
        Key::Rule => format!(in alloc; "rule needs version = {RULE_VERSION}, and no key clock"),
        Key::ZeroAgrees => format!(in alloc; "zero_agrees needs version = {ZERO_VERSION}"),
        Key::Values => String::from_str(alloc, "values goes with program = \"say\""),
        Key::Text => String::from_str(alloc, "text goes with program = \"asm\" or \"rule\""),
        _ => Ok(String::new(alloc)),
    }
}

/// Returns what is wrong with a rule.
fn of_rule(
    alloc: Global,
    table: &Table,
    place: Place,
    key: &str,
    error: RuleRefusal,
) -> Result<String, AllocError> {
    match error {
        RuleRefusal::Text {
            error,
            line,
            column,
        } => {
            let text = text_at(table, place, key).unwrap_or_default();
            let advice = advice_at(alloc, text.as_bytes(), error, line, column)?;
            let advice = advice.as_str();
            format!(in alloc; "column {column}: {advice}")
        }
        RuleRefusal::NoRoom => {
            let place = of_limit(alloc, table, place, key)?;
            let place = place.as_str();
            format!(in alloc; "{NO_ROOM_WORDS}{place}")
        }
        RuleRefusal::TooLong => {
            let place = of_limit(alloc, table, place, key)?;
            let place = place.as_str();
            format!(in alloc;
                "a program has at most {MAX_SLOTS} slots, and for and count are written out for each node{place}"
            )
        }
    }
}

/// Returns the sizes of the scenario's nodes.
fn sizes_in(table: &Table) -> Option<Sizes> {
    Some(Sizes {
        nodes: number_in(table, "nodes")?,
        faults: number_in(table, "faults")?,
        modulus: number_in(table, "modulus")?,
        memory: number_in(table, "memory")?,
    })
}

/// Returns which line of the rule is the first past a limit: nothing if that isn't known.
fn of_limit(alloc: Global, table: &Table, place: Place, key: &str) -> Result<String, AllocError> {
    let (Some(text), Some(sizes)) = (text_at(table, place, key), sizes_in(table)) else {
        return Ok(String::new(alloc));
    };
    match past_limit(alloc, text.as_bytes(), sizes)? {
        Some((line, column)) => format!(in alloc;
            "; line {line}, column {column} of the rule is past that"
        ),
        None => Ok(String::new(alloc)),
    }
}

/// Returns the number under a key at the top.
fn number_in(table: &Table, key: &str) -> Option<u32> {
    let number = table.get(key).and_then(toml::Value::as_integer)?;
    u32::try_from(number).ok()
}

/// Returns the shape of the scenario's nodes.
fn shape_in(table: &Table) -> Option<Shape> {
    Shape::of(number_in(table, "nodes")?, number_in(table, "memory")?)
}

/// Returns why the program of a text isn't accepted: what was known, and what the rule asks.
fn of_program(alloc: Global, table: &Table, place: Place, key: &str) -> Result<String, AllocError> {
    let (Some(text), Some(shape)) = (text_at(table, place, key), shape_in(table)) else {
        return Ok(String::new(alloc));
    };
    let program = match assemble(alloc, text.as_bytes()) {
        Ok(program) => program,
        Err(TextError::Memory) => return Err(AllocError),
        Err(_) => return Ok(String::new(alloc)),
    };
    let findings = explain(alloc, &program, shape)?;
    why(alloc, &program, shape, &findings)
}

/// Returns what is said of bytes that aren't TOML, beside what the parser says.
fn of_bytes(alloc: Global, file: &[u8]) -> Result<String, AllocError> {
    for beginning in WIDE_BEGINNINGS {
        if file.starts_with(beginning) {
            return String::from_str(alloc, "the file is UTF-16: save it as UTF-8");
        }
    }
    match single_head(str::from_utf8(file).unwrap_or_default()) {
        Some(key) => heads_words(alloc, key),
        None => Ok(String::new(alloc)),
    }
}

/// Returns what is said of the fix: nothing if it is not known.
pub(crate) fn advice_on(
    alloc: Global,
    file: &[u8],
    table: Option<&Table>,
    error: &ScenarioError,
) -> Result<String, AllocError> {
    if let ScenarioError::TooLong = error {
        return format!(in alloc; "the text has more than {MAX_TEXT} bytes");
    }
    let Some(table) = table else {
        return of_bytes(alloc, file);
    };
    match error {
        ScenarioError::UnknownKey { place } => of_unknown(alloc, table, *place),
        ScenarioError::MissingKey { place, key } => of_missing(alloc, table, *place, key),
        ScenarioError::WrongKind { place, key } | ScenarioError::OutOfRange { place, key } => {
            of_value(alloc, table, *place, key)
        }
        ScenarioError::UnknownProgram { load } => {
            of_value(alloc, table, Place::Load(*load), "program")
        }
        ScenarioError::BadText { place, key, error } => {
            let text = text_at(table, *place, key).unwrap_or_default();
            of_text(alloc, text, *error)
        }
        ScenarioError::BadRule { place, key, error } => {
            of_rule(alloc, table, *place, key, *error)
        }
        ScenarioError::NotAccepted { place, key, .. } => of_program(alloc, table, *place, key),
        ScenarioError::TooLong | ScenarioError::NotToml | ScenarioError::Memory(_) => {
            Ok(String::new(alloc))
        }
    }
}
