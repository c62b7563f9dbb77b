//! The C text so far, and how far the rule is in it.

use crate::names::{Names, code_of, names_in};
use std::alloc::{AllocError, Global};
use std::fmt;

/// What a rule's text has beside its meaning.
#[derive(Drop)]
pub(crate) struct Source {
    pub(crate) names: Names,
    /// Its lines, without the blanks around them.
    lines: Vec<String>,
}

/// Returns the names and the lines of a rule's text.
pub(crate) fn source_of(alloc: Global, text: &str) -> Result<Source, AllocError> {
    let names = names_in(alloc, text)?;
    let mut lines = Vec::new(alloc);
    for line in text.lines() {
        lines.push(String::from_str(alloc, line.trim())?)?;
    }
    Ok(Source { names, lines })
}

/// The blanks before a line of C in this many blocks.
#[derive(Clone, Copy)]
pub(crate) struct Indent(pub(crate) usize);

impl fmt::Display for Indent {
    fn fmt<W: fmt::Write>(&self, f: &mut fmt::Formatter<W>) -> fmt::Result {
        for _block in 0..self.0 {
            write!(f, "  ")?;
        }
        Ok(())
    }
}

/// The C text so far, and how many statements and made names of the rule are in it.
#[derive(Drop)]
pub(crate) struct Page<'a> {
    pub(crate) text: String,
    pub(crate) source: &'a Source,
    /// The line of each statement, in the order of the rule's text.
    pub(crate) statement_lines: &'a [usize],
    pub(crate) statements: usize,
    pub(crate) made: usize,
    /// The line of the last comment.
    pub(crate) line: usize,
}

impl Page<'_> {
    /// Adds a text.
    pub(crate) fn add(&mut self, text: &str) -> Result<(), AllocError> {
        self.text.push_str(text)
    }

    /// Returns the place of the next name that is made, and passes it.
    pub(crate) fn take_made(&mut self) -> usize {
        let place = self.made;
        self.made = place.saturating_add(1);
        place
    }

    /// Passes a statement, and adds its line as a comment, unless the last comment has it.
    pub(crate) fn add_comment(&mut self, depth: usize) -> Result<(), AllocError> {
        let statement = self.statements;
        self.statements = statement.saturating_add(1);
        let Some(line) = self.statement_lines.get(statement) else {
            return Ok(());
        };
        let line = *line;
        if line == self.line {
            return Ok(());
        }
        self.line = line;
        let source = self.source;
        match source.lines.get(line.saturating_sub(1)) {
            Some(text) => {
                let indent = Indent(depth);
                let comment = comment_of(text.as_str());
                write!(self.text, "{indent}/* {comment} */\n")
            }
            None => Ok(()),
        }
    }
}

/// Returns what a comment can have of a line. Only a rule's comment can have the end of one of C.
fn comment_of(line: &str) -> &str {
    match line.split_once("*/") {
        Some(_) => code_of(line).trim(),
        None => line,
    }
}
