//! A line of a source, parted at a place.

use std::str;

/// A line of a source, parted at a place.
#[derive(Clone, Copy)]
pub struct Parted<'a> {
    /// The line before the place.
    pub before: &'a str,
    /// The line from the place on.
    pub rest: &'a str,
}

/// Returns a line parted before the byte in this column, from 1 on: nothing of it if a character isn't whole.
pub fn parted_at<'a>(line: &'a [u8], column: usize) -> Parted<'a> {
    let length = column.saturating_sub(1).min(line.len());
    match (
        str::from_utf8(&line[..length]),
        str::from_utf8(&line[length..]),
    ) {
        (Ok(before), Ok(rest)) => Parted { before, rest },
        _ => Parted {
            before: "",
            rest: "",
        },
    }
}

/// Returns a line parted before the character in this column, from 1 on.
pub fn parted_at_letter(line: &str, column: usize) -> Parted<'_> {
    let bytes = line.as_bytes();
    let mut letters = 0usize;
    for (i, byte) in bytes.iter().enumerate() {
        if begins_letter(*byte) {
            letters = letters.saturating_add(1);
        }
        if letters >= column {
            return parted_at(bytes, i.saturating_add(1));
        }
    }
    Parted {
        before: line,
        rest: "",
    }
}

/// Returns true if a byte of UTF-8 is the first of its character.
pub fn begins_letter(byte: u8) -> bool {
    byte & 0xc0 != 0x80
}
