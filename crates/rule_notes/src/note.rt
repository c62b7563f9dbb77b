//! A note: a line of words, and at most one line of a source with a mark under a place of it.
ghost use Rattle.std.specs.List.{list_any};
ghost use Rattle.std.specs.Prelude.{◌≡◌, ◌==◌, [], IfOk, IfSome, Some, string_bytes};
ghost use Rattle.rule_notes.specs.Words.{IsMark, IsNote, IsWholeNote, below_byte, note_text, padding};

use crate::parted::Parted;
use crate::shown::{line_before, line_from};
use std::alloc::{AllocError, Global};
use std::fmt;
use std::marker::Model;

/// What a note says.
#[derive(Debug, Drop)]
pub struct Note {
    words: String,
    /// The marked line and the line with the mark, each with its end, or nothing.
    mark: String,
}

impl Model for Note {
    ghost use Rattle.std.specs.Prelude.{string_bytes};
    ghost use Rattle.rule_notes.specs.Words.{IsWholeNote, Note};

    ghost Value = { Note };

    ghost view = { λ n. record { words = string_bytes n.words; mark = string_bytes n.mark } };

    ghost invariant = { λ n. IsWholeNote (record { words = string_bytes n.words; mark = string_bytes n.mark }) };
}

impl fmt::Display for Note {
    ghost output = { λ note. Some (note_text note) };

    fn fmt<W: fmt::Write>(&self, f: &mut fmt::Formatter<W>) -> fmt::Result {
        let words = self.words.as_str();
        let mark = self.mark.as_str();
        write!(f, "note: {words}\n{mark}")
    }
}

impl Note {
    /// Returns the note with these words, if there are any and they are one line.
    pub fn of(alloc: Global, words: String) -> Option<Note>
        ensures words { IfSome result (λ note. note.words ≡ string_bytes words) }
        ensures unmarked { IfSome result (λ note. note.mark ≡ []) }
    {
        if words.len() == 0 || has_line_end(words.as_str()) {
            return None;
        }
        Some(Note {
            words,
            mark: String::new(alloc),
        })
    }

    /// Returns the note with these words and a mark under the place of a line, if there are any and they are one line.
    pub fn marked(alloc: Global, words: String, place: Parted<'_>) -> Option<Note>
        ensures words { IfSome result (λ note. note.words ≡ string_bytes words) }
    {
        if words.len() == 0 || has_line_end(words.as_str()) {
            return None;
        }
        let mark = mark_under(alloc, place).ok()?;
        Some(Note { words, mark })
    }

    /// Returns the text of the note, if there is memory for it.
    pub fn text(&self, alloc: Global) -> Option<String>
        ensures text { IfSome result (λ text. string_bytes text ≡ note_text self.now) }
        ensures note { IfSome result (λ text. IsNote (string_bytes text)) }
    {
        let _words = &self.words; // brings that it is whole
        format!(in alloc; "{self}").ok()
    }
}

fn has_line_end(text: &str) -> bool
    ensures { result ≡ list_any (λ c. c == 10) text.now }
{
    text.as_bytes().contains(&b'\n')
}

/// Returns what is below a byte of a line.
fn below_byte(byte: u8) -> &'static str
    ensures { result.now ≡ below_byte byte }
{
    if byte == b'\t' {
        "\t"
    } else if byte >= 128 && byte < 192 {
        ""
    } else {
        " "
    }
}

/// Returns what is below the characters before a mark.
fn padding(alloc: Global, before: &str) -> Result<String, AllocError>
    ensures { IfOk result (λ below. string_bytes below ≡ padding before.now) }
{
    let mut below = String::new(alloc);
    for byte in before.as_bytes() {
        below.push_str(below_byte(*byte))?;
    }
    Ok(below)
}

/// Returns the line of a place as it is shown, and below it the line with the mark: nothing of an empty line.
fn mark_under(alloc: Global, place: Parted<'_>) -> Result<String, AllocError>
    ensures { IfOk result (λ mark. IsMark (string_bytes mark)) }
{
    let before = line_before(alloc, place.before)?;
    let rest = line_from(alloc, place.rest)?;
    let is_empty = before.len() == 0 && rest.len() == 0;
    if is_empty || has_line_end(before.as_str()) || has_line_end(rest.as_str()) {
        return Ok(String::new(alloc));
    }
    let padding = padding(alloc, before.as_str())?;
    let before = before.as_str();
    let rest = rest.as_str();
    let padding = padding.as_str();
    format!(in alloc; "{before}{rest}\n{padding}^\n")
}
