//! What a note says of a character that begins no token.

use crate::shown::shown;
use std::alloc::{AllocError, Global};
use std::str;

/// The most bytes of a character.
const MAX_BYTES: usize = 4;

/// Returns the character that begins a text, if it is one.
fn first_character(text: &[u8]) -> Option<&str> {
    for length in 1..=MAX_BYTES {
        if let Ok(character) = str::from_utf8(&text[..length.min(text.len())]) {
            return Some(character);
        }
    }
    None
}

/// Returns what to write instead of a character that begins a text.
fn instead_of(character: &str, text: &[u8]) -> &'static str {
    match character {
        "&" if text.starts_with(b"&&") => "; write \"and\" in place of \"&&\"",
        "&" => "; write \"and\" in place of \"&\"",
        "|" if text.starts_with(b"||") => "; write \"or\" in place of \"||\"",
        "|" => "; write \"or\" in place of \"|\"",
        "!" => "; write \"not \" in place of \"!\"",
        ";" => "; a statement ends with its line",
        "{" | "}" => "; a block is a \":\" and deeper lines",
        "." => "; numbers are whole",
        "?" => "; a choice is x if t else y",
        "^" => "; there is no power: multiply",
        "\"" | "'" => "; a rule has numbers, and no texts",
        _ => "",
    }
}

/// Returns the character as it is shown, or its number if it isn't shown.
fn character_words(alloc: Global, character: &str) -> Result<String, AllocError> {
    let words = shown(alloc, character)?;
    if words.as_str().trim().len() > 0 {
        return Ok(words);
    }
    match character.chars().next() {
        Some(letter) => {
            let code = u32::from(letter);
            format!(in alloc; "U+{code:04x}")
        }
        None => Ok(words),
    }
}

/// Returns why no token begins here.
pub(crate) fn of_character(alloc: Global, text: &[u8]) -> Result<String, AllocError> {
    match text {
        [b'a'..=b'z' | b'A'..=b'Z' | b'_', ..] => {
            String::from_str(alloc, "a letter can't directly follow a number")
        }
        [byte, ..] => match first_character(text) {
            Some(character) => {
                let words = character_words(alloc, character)?;
                let words = words.as_str();
                let instead = instead_of(character, text);
                format!(in alloc; "no token begins with {words}{instead}")
            }
            None => format!(in alloc; "no token begins with the byte {byte:02x}"),
        },
        [] => Ok(String::new(alloc)),
    }
}
