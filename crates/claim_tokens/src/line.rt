//! The text of a claim in a line.

use std::alloc::{AllocError, Global};
use std::str;

/// Returns a part of a text with one space between words.
pub fn in_one_line(alloc: Global, bytes: &[u8]) -> Result<String, AllocError> {
    let mut line = String::new(alloc);
    let Ok(text) = str::from_utf8(bytes) else {
        return Ok(line);
    };
    for word in text.split_whitespace() {
        if !line.is_empty() {
            line.push_str(" ")?;
        }
        line.push_str(word)?;
    }
    Ok(line)
}
