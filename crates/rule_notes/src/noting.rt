//! The note on an error of a rule.
ghost use Rattle.std.specs.Prelude.{◌≡◌, IfOk, IfSome, string_bytes};
ghost use Rattle.rule_notes.specs.Words.{TellsPlace};

use crate::advice::advice_on;
use crate::note::Note;
use crate::place::line_parted;
use rule_text::RuleError;
use std::alloc::{AllocError, Global};

/// Returns the note on an error of a text, with a mark under its place, if there is something to say. Line and column
/// count from 1.
pub fn note_on_rule(
    alloc: Global,
    text: &[u8],
    error: RuleError,
    line: usize,
    column: usize,
) -> Result<Option<Note>, AllocError>
    ensures { IfOk result (λ found. IfSome found (TellsPlace line column)) }
{
    let advice = advice_on(alloc, text, error, line, column)?;
    let words = format!(in alloc; "line {line}, column {column}: {advice}")?;
    Ok(Note::marked(alloc, words, line_parted(text, line, column)))
}
