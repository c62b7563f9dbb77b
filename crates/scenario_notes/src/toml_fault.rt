//! What the parser says of a text that it doesn't read.

use crate::finding::without_comment;
use crate::remark::Remark;
use rule_notes::parted::begins_letter;
use std::alloc::{AllocError, Global};
use std::str;

/// Returns the line and the column after a front.
fn place_behind(front: &[u8]) -> (usize, usize) {
    let mut line = 1usize;
    let mut column = 1usize;
    for byte in front {
        if *byte == b'\n' {
            line = line.saturating_add(1);
            column = 1;
        } else if begins_letter(*byte) {
            column = column.saturating_add(1);
        }
    }
    (line, column)
}

/// Returns the word that is the rest of a line: nothing if the rest isn't one word.
fn word_of(rest: &str) -> &str {
    let line = rest.split('\n').next().unwrap_or_default();
    let word = without_comment(line).trim();
    if word.bytes().all(|byte| byte.is_ascii_alphabetic()) {
        word
    } else {
        ""
    }
}

/// Returns what to write where the parser stops, after what it says: nothing if that isn't known.
fn fix(alloc: Global, message: &str, rest: &str) -> Result<String, AllocError> {
    if rest.starts_with(':') {
        return String::from_str(alloc, "; write \"=\" in place of \":\"");
    }
    let word = word_of(rest);
    if word.len() > 0 && message.starts_with("invalid value") {
        return format!(in alloc; "; a word is in quotes: \"{word}\"");
    }
    Ok(String::new(alloc))
}

/// Returns the remark on the error of the parser.
pub(crate) fn toml_note(
    alloc: Global,
    text: &[u8],
    error: &toml::de::Error,
) -> Result<Option<Remark>, AllocError> {
    let Some(span) = error.span() else {
        return Ok(None);
    };
    let start = span.start.min(text.len());
    let (line, column) = place_behind(&text[..start]);
    let rest = str::from_utf8(&text[start..]).unwrap_or_default();
    let fix = fix(alloc, error.message(), rest)?;
    let fix = fix.as_str();
    let message = format!(in alloc; "{}{fix}", error.message())?;
    Ok(Some(Remark::NotToml {
        line,
        column,
        message,
    }))
}
