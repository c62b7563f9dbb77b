//! Where a rule goes past a limit of the compiler. Nothing is promised of it.

use node_env::Shape;
use rule_notes::line_start;
use rule_programs::{RuleRefusal, program_of_text};
use rule_syntax::Sizes;
use rule_text::statement_lines;
use std::alloc::{AllocError, Global};

/// How many statements before one are tried, if the text through it is no rule, since a block is missing.
const MAX_HEADS: usize = 4;

/// More halvings than a list has.
const MAX_HALVINGS: u32 = 64;

/// What the compiler makes of a text.
#[derive(Clone, Copy)]
enum Outcome {
    Compiled,
    PastLimit,
    NoRule,
}

/// Returns the text through this many statements, by the lines of all.
fn through<'a>(text: &'a [u8], lines: &[usize], count: usize) -> &'a [u8] {
    match lines.get(count) {
        Some(next) => {
            let end = line_start(text, *next).min(text.len());
            &text[..end]
        }
        None => text,
    }
}

/// Returns what the compiler makes of a text for these sizes.
fn compiled(alloc: Global, text: &[u8], sizes: Sizes) -> Result<Outcome, AllocError> {
    let Some(shape) = Shape::of(sizes.nodes, sizes.memory) else {
        return Ok(Outcome::NoRule);
    };
    match program_of_text(alloc, text, shape, sizes.faults, sizes.modulus)? {
        Ok(_program) => Ok(Outcome::Compiled),
        Err(RuleRefusal::Text { .. }) => Ok(Outcome::NoRule),
        Err(RuleRefusal::NoRoom) | Err(RuleRefusal::TooLong) => Ok(Outcome::PastLimit),
    }
}

/// Returns at most this number of first statements that are past a limit: none if they are within the limits.
fn are_past(
    alloc: Global,
    text: &[u8],
    lines: &[usize],
    sizes: Sizes,
    count: usize,
) -> Result<Option<usize>, AllocError> {
    for fewer in 0..MAX_HEADS {
        let tried = count.saturating_sub(fewer);
        match compiled(alloc, through(text, lines, tried), sizes)? {
            Outcome::Compiled => return Ok(None),
            Outcome::PastLimit => return Ok(Some(tried)),
            Outcome::NoRule => {}
        }
    }
    Ok(None)
}

/// Returns how many first statements are past a limit, such that one fewer aren't, if all are.
fn first_past(
    alloc: Global,
    text: &[u8],
    lines: &[usize],
    sizes: Sizes,
) -> Result<usize, AllocError> {
    let mut within = 0usize;
    let mut past = lines.len();
    for _halving in 0..MAX_HALVINGS {
        let middle = within.saturating_add(past.saturating_sub(within) / 2);
        if middle <= within {
            return Ok(past);
        }
        match are_past(alloc, text, lines, sizes, middle)? {
            Some(tried) if tried > within => past = tried,
            Some(_) | None => within = middle,
        }
    }
    Ok(past)
}

/// Returns the column of the first letter of a line, both counted from 1.
fn first_column(text: &[u8], line: usize) -> usize {
    let start = line_start(text, line).min(text.len());
    let blanks = text[start..].iter().position(|byte| *byte != b' ');
    blanks.unwrap_or_default().saturating_add(1)
}

/// Returns line and column of the first statement of a rule at which it goes past a limit of the compiler, if it does.
pub fn past_limit(
    alloc: Global,
    text: &[u8],
    sizes: Sizes,
) -> Result<Option<(usize, usize)>, AllocError> {
    let lines = statement_lines(alloc, text)?;
    // The words of the memory alone.
    if let Outcome::PastLimit = compiled(alloc, through(text, &lines, 0), sizes)? {
        return Ok(None);
    }
    let count = first_past(alloc, text, &lines, sizes)?;
    match lines.get(count.saturating_sub(1)) {
        Some(line) => Ok(Some((*line, first_column(text, *line)))),
        None => Ok(None),
    }
}
