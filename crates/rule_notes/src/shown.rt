//! Texts of others, as a note shows them.

use std::alloc::{AllocError, Global};

/// The most characters of a text that are shown.
const MAX_SHOWN: usize = 120;

/// Returns true for characters that a terminal doesn't show as they are: controls, and those that turn the direction of
/// writing or take no room.
fn is_hidden(letter: char) -> bool {
    letter.is_control()
        || matches!(letter, '\u{ad}' | '\u{61c}' | '\u{200b}'..='\u{200f}' | '\u{2028}'..='\u{202e}' | '\u{2060}'..='\u{206f}' | '\u{feff}')
}

/// The most characters of a line that are shown before a mark, and from it on.
const MAX_BEFORE_MARK: usize = 80;

const MAX_FROM_MARK: usize = 100;

/// Returns a character as it is shown: a blank for one that is hidden.
fn plain(letter: char) -> char {
    if is_hidden(letter) { ' ' } else { letter }
}

/// Returns a character of a source as it is shown: a tab stays.
fn plain_in_line(letter: char) -> char {
    if letter == '\t' {
        letter
    } else {
        plain(letter)
    }
}

/// Returns the last characters of a line before a place, as they are shown.
pub(crate) fn line_before(alloc: Global, before: &str) -> Result<String, AllocError> {
    let cut = before.chars().count().saturating_sub(MAX_BEFORE_MARK);
    let mut line = String::new(alloc);
    if cut > 0 {
        line.push_str("..")?;
    }
    for letter in before.chars().skip(cut) {
        line.push(plain_in_line(letter))?;
    }
    Ok(line)
}

/// Returns the first characters of a line from a place on, as they are shown, without the blanks at its end.
pub(crate) fn line_from(alloc: Global, rest: &str) -> Result<String, AllocError> {
    let rest = rest.trim_end();
    let mut line = String::new(alloc);
    for letter in rest.chars().take(MAX_FROM_MARK) {
        line.push(plain_in_line(letter))?;
    }
    if rest.chars().count() > MAX_FROM_MARK {
        line.push_str("..")?;
    }
    Ok(line)
}

/// Returns the first characters of a text without the blanks at its ends; one that is hidden is a blank.
pub fn shown(alloc: Global, text: &str) -> Result<String, AllocError> {
    let mut line = String::new(alloc);
    for letter in text.trim().chars().take(MAX_SHOWN) {
        line.push(plain(letter))?;
    }
    Ok(line)
}

/// Returns that one text is written in place of another.
pub fn written_for(alloc: Global, right: &str, wrong: &str) -> Result<String, AllocError> {
    format!(in alloc; "write \"{right}\" in place of \"{wrong}\"")
}
