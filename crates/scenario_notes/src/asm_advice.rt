//! What is wrong with a text of the assembler, and what to write.

use crate::asm_words::{form_of, meant_word};
use crate::finding::{line_at, without_comment};
use crate::respelled::{readable, readable_with};
use bpf_asm::TextError;
use bpf_insn::MAX_SLOTS;
use rule_notes::Note;
use rule_notes::near::nearest;
use rule_notes::parted::parted_at;
use rule_notes::shown::{shown, written_for};
use std::alloc::{AllocError, Global};
use std::str;

/// The helpers that a text can name.
const HELPER_NAMES: [&str; 4] = ["id", "recv", "send", "coin"];

/// An instruction of a line.
#[derive(Clone, Copy)]
struct Written<'a> {
    /// The instruction without label, comment and the blanks at its ends.
    whole: &'a str,
    word: &'a str,
    operands: &'a str,
}

/// Returns the instruction of a line.
fn instruction_in(line: &str) -> Written<'_> {
    let words = without_comment(line).trim();
    let whole = match words.split_once(':') {
        Some((_label, rest)) => rest.trim(),
        None => words,
    };
    match whole.split_once(' ') {
        Some((word, operands)) => Written {
            whole,
            word: word.trim(),
            operands: operands.trim(),
        },
        None => Written {
            whole,
            word: whole,
            operands: "",
        },
    }
}

/// Returns what is wrong with a word that no instruction has.
fn of_word(alloc: Global, here: Written<'_>) -> Result<String, AllocError> {
    let word = shown(alloc, here.word)?;
    let word = word.as_str();
    let meant = meant_word(alloc, here.word)?;
    if meant.len() == 0 {
        return format!(in alloc; "no instruction has the name {word} (docs/ASSEMBLER.md)");
    }
    let meant = meant.as_str();
    let right = readable_with(alloc, meant, here.operands)?;
    if right.len() == 0 {
        return format!(in alloc; "no instruction has the name {word}; did you mean {meant}?");
    }
    let advice = written_for(alloc, right.as_str().trim(), here.whole)?;
    let advice = advice.as_str();
    format!(in alloc; "no instruction has the name {word}; {advice}")
}

/// Returns what is wrong with a helper that isn't there.
fn of_helper(alloc: Global, name: &str) -> Result<String, AllocError> {
    match nearest(alloc, name, &HELPER_NAMES)? {
        Some(near) => {
            format!(in alloc; "did you mean \"{near}\"? a helper is id, recv, send or coin")
        }
        None => String::from_str(alloc, "a helper is id, recv, send or coin"),
    }
}

/// Returns what the operands of an instruction may be.
fn of_operands(alloc: Global, here: Written<'_>) -> Result<String, AllocError> {
    if here.word == "call" {
        return of_helper(alloc, here.operands);
    }
    let form = form_of(here.word);
    if here.word == "exit" {
        return format!(in alloc; "{form}; write \"exit\" in place of \"{}\"", here.whole);
    }
    let right = readable(alloc, here.whole)?;
    if right.len() == 0 {
        return String::from_str(alloc, form);
    }
    let advice = written_for(alloc, right.as_str(), here.whole)?;
    let advice = advice.as_str();
    format!(in alloc; "{form}; {advice}")
}

/// Returns what is wrong with a text, without the place.
pub(crate) fn of_text(alloc: Global, text: &str, error: TextError) -> Result<String, AllocError> {
    let line = match error.line() {
        Some(number) => line_at(text, number).unwrap_or_default(),
        None => "",
    };
    let here = instruction_in(line);
    match error {
        TextError::UnknownWord(_) => of_word(alloc, here),
        TextError::BadOperand(_) => of_operands(alloc, here),
        TextError::OutOfRange(_) => String::from_str(
            alloc,
            "a number is out of its range: an immediate has 32 bits, and lddw takes one of 64",
        ),
        TextError::UnknownLabel(_) => String::from_str(alloc, "no line has this label"),
        TextError::LabelTwice(_) => String::from_str(alloc, "an earlier line has this label"),
        TextError::TooLong(_) => format!(in alloc; "a program has at most {MAX_SLOTS} slots"),
        TextError::Empty => String::from_str(alloc, "the text has no instruction"),
        TextError::Memory => Ok(String::new(alloc)),
    }
}

/// Returns the column in which the instruction of a line begins, from 1 on.
pub(crate) fn instruction_column(line: &str) -> usize {
    let instruction = instruction_in(line).whole;
    match line.split_once(instruction) {
        Some((before, _)) if !instruction.is_empty() => before.len().saturating_add(1),
        Some(_) | None => 1,
    }
}

/// Returns the note with these words on the instruction of a line.
pub(crate) fn note_at_line(
    alloc: Global,
    text: &str,
    number: usize,
    words: &str,
) -> Result<Option<Note>, AllocError> {
    let line = line_at(text, number).unwrap_or_default();
    let column = instruction_column(line);
    let words = format!(in alloc; "line {number}, column {column}: {words}")?;
    Ok(Note::marked(alloc, words, parted_at(line.as_bytes(), column)))
}

/// Returns the note on a text that means no program, if there is something to say.
pub fn note_on_text(
    alloc: Global,
    bytes: &[u8],
    error: TextError,
) -> Result<Option<Note>, AllocError> {
    let text = str::from_utf8(bytes).unwrap_or_default();
    let advice = of_text(alloc, text, error)?;
    match error.line() {
        Some(line) => note_at_line(alloc, text, line, advice.as_str()),
        None => Ok(Note::of(alloc, advice)),
    }
}
