//! Which command a word is meant for that names none.

use command_words::command_names;
use rule_notes::Note;
use rule_notes::near::nearest;
use rule_notes::shown::shown;
use std::alloc::{AllocError, Global};

/// Returns the command and its options that read a file with this name: nothing if that isn't known.
fn reader_of(name: &str) -> &'static str {
    if name.ends_with(".toml") {
        "run"
    } else if name.ends_with(".rule") {
        "compile"
    } else if name.ends_with(".s") || name.ends_with(".asm") {
        "verify --text"
    } else if name.ends_with(".bpf") || name.ends_with(".bin") {
        "verify"
    } else {
        ""
    }
}

/// Returns the words of the note on a word in place of a command: nothing if it isn't known what is meant. If `clap` has a
/// tip, only a file has a note.
fn words_on(alloc: Global, word: &str, has_tip: bool) -> Result<String, AllocError> {
    let reader = reader_of(word);
    if reader.len() > 0 {
        let name = shown(alloc, word)?;
        let name = name.as_str();
        return format!(in alloc; "a command comes before the file: clockbed {reader} {name}");
    }
    if has_tip {
        return Ok(String::new(alloc));
    }
    match nearest(alloc, word, command_names(alloc)?.as_slice())? {
        Some(command) => format!(in alloc; "did you mean {command}?"),
        None => Ok(String::new(alloc)),
    }
}

/// Returns the note on a word in place of a command, if it is known what is meant.
pub(crate) fn command_note(
    alloc: Global,
    word: &str,
    has_tip: bool,
) -> Result<Option<Note>, AllocError> {
    let words = words_on(alloc, word, has_tip)?;
    Ok(Note::of(alloc, words))
}
