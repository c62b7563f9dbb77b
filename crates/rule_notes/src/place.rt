//! The line of an error.

use crate::parted::{Parted, parted_at};
use crate::token::first_of;
use std::str;

/// A place in a line of a text.
#[derive(Clone, Copy)]
pub(crate) struct Place<'a> {
    /// The bytes of the line before the place.
    pub(crate) before: &'a [u8],
    /// All bytes from the place on.
    pub(crate) rest: &'a [u8],
    /// The text up to the end of the token at the place.
    pub(crate) through: &'a [u8],
}

/// Returns where a line of a text begins, counted from 1.
pub fn line_start(text: &[u8], line: usize) -> usize {
    let mut left = line;
    for (i, byte) in text.iter().enumerate() {
        if left <= 1 {
            return i;
        }
        if *byte == b'\n' {
            left = left.saturating_sub(1);
        }
    }
    text.len()
}

/// Returns the bytes up to the first one of these.
fn up_to(text: &[u8], end: u8) -> &[u8] {
    let length = text
        .iter()
        .position(|byte| *byte == end)
        .unwrap_or(text.len());
    &text[..length.min(text.len())]
}

/// Returns a place of a text, with line and column counted from 1, in bytes.
pub(crate) fn place_in(text: &[u8], line: usize, column: usize) -> Place<'_> {
    let start = line_start(text, line).min(text.len());
    let from = &text[start..];
    let length = column.saturating_sub(1).min(from.len());
    let rest = &from[length..];
    let end = start
        .saturating_add(length)
        .saturating_add(first_of(rest).len());
    Place {
        before: &from[..length],
        rest,
        through: &text[..end.min(text.len())],
    }
}

/// Returns the line from a place on, without its comment and the blanks at its end: nothing if it isn't UTF-8.
pub(crate) fn rest_of_line(place: Place<'_>) -> &str {
    let rest = up_to(up_to(place.rest, b'\n'), b'#');
    str::from_utf8(rest).unwrap_or_default().trim_end()
}

/// Returns the line of a place without its end, parted there, with line and column counted from 1, in bytes.
pub fn line_parted(text: &[u8], line: usize, column: usize) -> Parted<'_> {
    let start = line_start(text, line).min(text.len());
    parted_at(up_to(&text[start..], b'\n'), column)
}
