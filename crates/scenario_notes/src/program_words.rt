//! Why the program of a text or an image isn't accepted.

use crate::asm_advice::note_at_line;
use crate::slot_line::line_of_slot;
use bpf_explain::reason;
use bpf_insn::Program;
use bpf_verify::{Findings, Verdict};
use node_env::Shape;
use rule_notes::Note;
use std::alloc::{AllocError, Global};
use std::str;

/// Returns what was known where a rule is broken, and what the rule asks: nothing if that isn't known.
pub(crate) fn why(
    alloc: Global,
    program: &Program,
    shape: Shape,
    findings: &Findings,
) -> Result<String, AllocError> {
    let line = reason(alloc, program, shape, findings)?;
    match line.as_str().trim().split_once(": ") {
        Some((_rule, why)) => String::from_str(alloc, why),
        None => Ok(String::new(alloc)),
    }
}

/// Returns where and why a program breaks a rule: nothing if it breaks none.
fn broken_words(
    alloc: Global,
    program: &Program,
    shape: Shape,
    findings: &Findings,
) -> Result<String, AllocError> {
    let Verdict::Refused { slot, rule } = findings.verdict() else {
        return Ok(String::new(alloc));
    };
    let why = why(alloc, program, shape, findings)?;
    let (number, name) = (rule.number(), rule.name());
    let why = why.as_str();
    format!(in alloc; "slot {slot}: rule {number}, {name} (docs/VERIFIER.md); {why}")
}

/// Returns the line of a text whose instruction breaks a rule, if that is known.
fn broken_line(
    alloc: Global,
    text: &[u8],
    findings: &Findings,
) -> Result<Option<usize>, AllocError> {
    match findings.verdict() {
        Verdict::Refused { slot, .. } => line_of_slot(alloc, text, slot),
        Verdict::Accepted { .. } => Ok(None),
    }
}

/// Returns the note on a program that breaks a rule: of a text, on the line of the instruction.
pub fn note_on_program(
    alloc: Global,
    program: &Program,
    shape: Shape,
    findings: &Findings,
    text: Option<&[u8]>,
) -> Result<Option<Note>, AllocError> {
    let words = broken_words(alloc, program, shape, findings)?;
    let Some(text) = text else {
        return Ok(Note::of(alloc, words));
    };
    match broken_line(alloc, text, findings)? {
        Some(line) => {
            let text = str::from_utf8(text).unwrap_or_default();
            note_at_line(alloc, text, line, words.as_str())
        }
        None => Ok(Note::of(alloc, words)),
    }
}
