//! Where a statement of a TOML text ends.

use toml_parser::text::{first, skip_blank, skip_ws};

/// What begins and ends a string, the longer ones first.
const QUOTES: [&str; 4] = ["\"\"\"", "'''", "\"", "'"];

/// Returns the text after a table's head, or after a key and its value.
pub(crate) fn after_statement(text: &str) -> &str {
    let mut rest = text;
    let mut depth = 0usize;
    for _token in 0..text.len() {
        depth = depth_behind(depth, first(rest));
        let after = after_token(rest);
        rest = if depth == 0 {
            skip_ws(after)
        } else {
            skip_blank(after, true)
        };
        if depth == 0 && is_at_end(rest) {
            return rest;
        }
    }
    rest
}

/// Returns how many brackets are open after a byte outside of strings.
fn depth_behind(depth: usize, byte: u8) -> usize {
    match byte {
        b'[' | b'{' => depth.saturating_add(1),
        b']' | b'}' => depth.saturating_sub(1),
        _ => depth,
    }
}

/// Returns true if a statement that may end here does.
fn is_at_end(rest: &str) -> bool {
    rest.is_empty() || matches!(first(rest), b'#' | b'\n' | b'\r')
}

/// Returns the text after a string or a letter.
fn after_token(text: &str) -> &str {
    for quotes in QUOTES {
        if let Some(content) = text.strip_prefix(quotes) {
            return after_string(content, quotes);
        }
    }
    after_letter(text)
}

/// Returns the text after the content of a string and its quotes: a long one may end in two more of them.
fn after_string<'a>(content: &'a str, quotes: &str) -> &'a str {
    let mut rest = content;
    for _letter in 0..content.len() {
        if let Some(after) = rest.strip_prefix(quotes) {
            return after.trim_start_matches(char::from(first(quotes)));
        }
        if first(rest) == b'\\' && first(quotes) == b'"' {
            rest = after_letter(rest);
        }
        rest = after_letter(rest);
    }
    rest
}

/// Returns the text after its first letter.
fn after_letter(text: &str) -> &str {
    let mut letters = text.chars();
    letters.next();
    letters.as_str()
}
