//! The line of a key, of the head of an entry, and of a line of a text, where these can be told for sure.
//! The texts are TOML, as the crate `toml` reads it.

use crate::scan::after_statement;
use toml_parser::text::skip_blank;

/// What is looked for: a key, or if none is named the head of the entry.
#[derive(Clone, Copy)]
pub(crate) struct Sought<'a> {
    /// The array of the entry, and which of its entries, from 0 on; none at the top.
    pub(crate) entry: Option<(&'a str, usize)>,
    pub(crate) key: Option<&'a str>,
}

/// How far the search has come.
#[derive(Clone, Copy)]
struct Search<'a> {
    sought: Sought<'a>,
    /// How many heads of entries of the array have come.
    heads: usize,
    /// Whether statements here are those of the table that is sought.
    is_within: bool,
}

/// What a statement is to the search.
#[derive(Clone, Copy)]
enum Met {
    Sought,
    Other,
    /// A head that may be another name for what is counted.
    Unsure,
}

impl Search<'_> {
    fn new(sought: Sought<'_>) -> Search<'_> {
        Search {
            sought,
            heads: 0,
            is_within: sought.entry.is_none(),
        }
    }

    /// Returns the line of a statement.
    fn meet(&mut self, line: &str) -> Met {
        let words = line.trim();
        if words.starts_with('[') {
            self.meet_head(words)
        } else {
            self.meet_key(words)
        }
    }

    fn meet_head(&mut self, words: &str) -> Met {
        let head = without_comment(words);
        if head.contains('"') || head.contains('\'') {
            return Met::Unsure;
        }
        self.is_within = false;
        let Some((array, index)) = self.sought.entry else {
            return Met::Other;
        };
        if array_of_head(head) != Some(array) {
            return Met::Other;
        }
        self.is_within = self.heads == index;
        self.heads = self.heads.saturating_add(1);
        if self.is_within && self.sought.key.is_none() {
            Met::Sought
        } else {
            Met::Other
        }
    }

    fn meet_key(&self, words: &str) -> Met {
        match (words.split_once('='), self.sought.key) {
            (Some((name, _value)), Some(key)) if self.is_within && name.trim() == key => {
                Met::Sought
            }
            (Some(_), Some(_)) | (Some(_), None) | (None, Some(_)) | (None, None) => Met::Other,
        }
    }
}

/// Returns a line up to its comment. The head of an entry with a quoted name is cut within the quotes at worst.
pub(crate) fn without_comment(words: &str) -> &str {
    match words.split_once('#') {
        Some((head, _comment)) => head,
        None => words,
    }
}

/// Returns the array of which a head begins an entry, or the table of a head with single brackets.
fn array_of_head(head: &str) -> Option<&str> {
    let name = head.strip_prefix("[")?;
    let name = name.strip_prefix("[").unwrap_or(name);
    let (name, _end) = name.split_once(']')?;
    Some(name.trim())
}

/// Returns the number of the line, from 1 on, and the line without the blanks before it.
pub(crate) fn find<'a>(text: &'a str, sought: Sought<'_>) -> Option<(usize, &'a str)> {
    let mut search = Search::new(sought);
    let mut rest = text;
    for _statement in 0..text.len() {
        rest = skip_blank(rest, true);
        if rest.is_empty() {
            return None;
        }
        let line = rest.split('\n').next()?;
        match search.meet(line) {
            Met::Sought => return Some((line_number(text, rest), line)),
            Met::Unsure => return None,
            Met::Other => rest = after_statement(rest),
        }
    }
    None
}

/// Returns the line, from 1 on, in which the rest of a text begins.
fn line_number(text: &str, rest: &str) -> usize {
    let before = text.len().saturating_sub(rest.len());
    let ends = text.bytes().take(before).filter(|byte| *byte == b'\n');
    ends.count().saturating_add(1)
}

/// Returns the line with this number, from 1 on.
pub(crate) fn line_at(text: &str, number: usize) -> Option<&str> {
    let mut left = number;
    for line in text.split('\n') {
        if left == 1 {
            return Some(line);
        }
        left = left.saturating_sub(1);
    }
    None
}

/// Returns the column of the value of a line with a key, or that of its first word, from 1 on and in characters.
pub(crate) fn value_column(line: &str) -> usize {
    let is_head = line.trim_start().starts_with('[');
    let value = match line.split_once('=') {
        Some((_key, value)) if !is_head => value,
        Some(_) | None => line,
    };
    let blanks = line.trim_end().chars().count().saturating_add(1);
    blanks.saturating_sub(value.trim().chars().count())
}

/// Returns the line of the file that has a line of the text under a key, both from 1 on. Only a text between `'''` has
/// its lines there as they are.
pub(crate) fn find_in_text(
    file: &str,
    sought: Sought<'_>,
    number: usize,
    words: &str,
) -> Option<usize> {
    let (first, opening) = find(file, sought)?;
    let (_key, value) = opening.split_once('=')?;
    let content = value.trim_start().strip_prefix("'''")?;
    // A line end right after the quotes is no part of the text.
    let before = if content.trim_end().is_empty() {
        first
    } else {
        first.saturating_sub(1)
    };
    let found = before.checked_add(number)?;
    if line_at(file, found)?.contains(words) {
        Some(found)
    } else {
        None
    }
}
