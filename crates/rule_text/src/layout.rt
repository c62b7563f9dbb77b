//! Where lines start.
ghost use Rattle.std.specs.Prelude.{◌≡◌, ◌<◌, ◌^◌, ◌++◌, IfOk, OnOk};
ghost use Rattle.rule_text.specs.Tokens.{opened, begins_line, of_kind, beyond, start_kind, inner_kind, is_end};
ghost use Rattle.rule_text.specs.Tokens.{opens_index, is_lookup, is_named, begins_table, most_tokens, is_past_limit};
ghost use Rattle.rule_text.specs.Tokens.{laid, laid_from, first_lines};

use crate::errors::RuleError;
use crate::lexemes::{Kind, Token};
use crate::signs::Sign;
use std::alloc::{AllocError, Global};

/// The most lines with tokens.
pub const MAX_LINES: usize = 2_048;

/// The most tokens of a line; brackets join lines.
pub const MAX_LINE_TOKENS: usize = 1_000;

/// The most cells of a table.
pub const MAX_TABLE_CELLS: usize = 1_024;

/// The most lookups in tables.
pub const MAX_LOOKUPS: usize = 64;

/// The tokens so far: the line of the last one, the open brackets, the tokens of its line, and the lines. Also whether
/// its line begins with `table`, whether it is a name, and the lookups in tables.
#[derive(Clone, Copy)]
pub struct Lines {
    pub line: usize,
    pub depth: usize,
    pub tokens: usize,
    pub lines: usize,
    pub in_table: bool,
    pub after_name: bool,
    pub lookups: usize,
}

const FIRST_LINES: Lines = Lines {
    line: 0,
    depth: 0,
    tokens: 0,
    lines: 0,
    in_table: false,
    after_name: false,
    lookups: 0,
};

fn opened(kind: Kind, depth: usize) -> usize
    requires { depth < 2 ^ 63 }
    ensures { result ≡ opened kind depth }
{
    match kind {
        Kind::Mark(Sign::Open) => depth + 1,
        Kind::Mark(Sign::OpenSquare) => depth + 1,
        Kind::Mark(Sign::Close) => depth.saturating_sub(1),
        Kind::Mark(Sign::CloseSquare) => depth.saturating_sub(1),
        _ => depth,
    }
}

fn begins_line(s: Lines, t: Token) -> bool
    ensures { result ≡ begins_line s t }
{
    s.line != t.line && s.depth == 0
}

/// Returns true for the bracket after a name.
fn opens_index(after_name: bool, kind: Kind) -> bool
    ensures { result ≡ opens_index after_name kind }
{
    match kind {
        Kind::Mark(Sign::OpenSquare) => after_name,
        _ => false,
    }
}

/// Returns true for the bracket of a lookup in a table.
fn is_lookup(s: Lines, t: Token) -> bool
    ensures { result ≡ is_lookup s t }
{
    opens_index(s.after_name, t.kind) && !begins_line(s, t)
}

/// Returns true for a name.
pub fn is_named(kind: Kind) -> bool
    ensures { result ≡ is_named kind }
{
    match kind {
        Kind::Named(_) => true,
        _ => false,
    }
}

fn begins_table(kind: Kind) -> bool
    ensures { result ≡ begins_table kind }
{
    match kind {
        Kind::Mark(Sign::Table) => true,
        _ => false,
    }
}

/// Returns the most tokens of a line. A table has four before its cells, and a comma or a bracket after each of them.
fn most_tokens(s: Lines) -> usize
    ensures { result ≡ most_tokens s }
{
    if s.in_table {
        2 * MAX_TABLE_CELLS + 4
    } else {
        MAX_LINE_TOKENS
    }
}

fn of_kind(kind: Kind, t: Token) -> Token
    ensures { result ≡ of_kind kind t }
{
    Token {
        kind,
        line: t.line,
        column: t.column,
        spaced: t.spaced,
        last_end: t.last_end,
    }
}

/// Returns what is known after a token.
fn beyond(s: Lines, t: Token) -> Lines
    requires depth { s.depth < 2 ^ 63 }
    requires tokens { s.tokens < 2 ^ 63 }
    requires lines { s.lines < 2 ^ 63 }
    requires lookups { s.lookups < 2 ^ 63 }
    ensures { result ≡ beyond s t }
{
    let begins = begins_line(s, t);
    Lines {
        line: t.line,
        depth: opened(t.kind, s.depth),
        tokens: if begins { 1 } else { s.tokens + 1 },
        lines: if begins { s.lines + 1 } else { s.lines },
        in_table: if begins {
            begins_table(t.kind)
        } else {
            s.in_table
        },
        after_name: is_named(t.kind),
        lookups: if is_lookup(s, t) {
            s.lookups + 1
        } else {
            s.lookups
        },
    }
}

fn start_kind(s: Lines, t: Token) -> Kind
    ensures { result ≡ start_kind s t }
{
    if !t.spaced {
        Kind::Fault(RuleError::BadIndent)
    } else if s.lines >= MAX_LINES {
        Kind::Fault(RuleError::TooLong)
    } else {
        Kind::LineStart
    }
}

/// Returns true for a token too many in its line, or a lookup too many in the text.
fn is_past_limit(s: Lines, t: Token) -> bool
    ensures { result ≡ is_past_limit s t }
{
    s.tokens >= most_tokens(s) || (is_lookup(s, t) && s.lookups >= MAX_LOOKUPS)
}

fn inner_kind(s: Lines, t: Token) -> Kind
    ensures { result ≡ inner_kind s t }
{
    if is_past_limit(s, t) {
        Kind::Fault(RuleError::TooLong)
    } else {
        t.kind
    }
}

fn is_end(kind: Kind) -> bool
    ensures { result ≡ is_end kind }
{
    match kind {
        Kind::TextEnd => true,
        _ => false,
    }
}

/// Appends a token, and before it the start of a line if it begins one.
fn push_laid(tokens: &mut Vec<Token>, s: Lines, t: Token) -> Result<(), AllocError>
    ensures { OnOk result (tokens.new.items ≡ tokens.old.items ++ laid s t) }
{
    if is_end(t.kind) {
        tokens.push(t)?;
        return Ok(());
    }
    if begins_line(s, t) {
        tokens.push(of_kind(start_kind(s, t), t))?;
        tokens.push(t)?;
        return Ok(());
    }
    tokens.push(of_kind(inner_kind(s, t), t))?;
    Ok(())
}

/// Returns the tokens of a text with the starts of lines.
#[tactic(auto, using(crate::proofs::TokenLemmas::next_token))]
pub fn laid_out(alloc: Global, lexemes: &[Token]) -> Result<Vec<Token>, AllocError>
    ensures { IfOk result (λ tokens. tokens.items ≡ laid_from first_lines lexemes.now) }
{
    let mut tokens = Vec::new(alloc);
    let mut s = FIRST_LINES;
    for t in lexemes {
        push_laid(&mut tokens, s, *t)?;
        s = beyond(s, *t);
    }
    Ok(tokens)
}
