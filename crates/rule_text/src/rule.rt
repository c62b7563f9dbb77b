//! From a text to a rule.
ghost use Rattle.std.specs.Prelude.{◌≡◌, MatchOption, Some, None, Ok, Err, IfOk, IfErr};
ghost use Rattle.rule_text.specs.Forms.{statement_form};
ghost use Rattle.rule_text.specs.Scopes.{TellsError};
ghost use Rattle.rule_text.specs.Statements.{state_names_with, state_names, states_read, after_heading};
ghost use Rattle.rule_text.specs.Statements.{header_with, header_read};
ghost use Rattle.rule_text.specs.Statements.{ended, first_column, rule_in, rule_read};
ghost use Rattle.rule_text.specs.Tables.{header_form};
ghost use Rattle.rule_text.specs.Rules.{rule_form};

use crate::errors::{ReadRuleError, RuleError};
use crate::joints::after;
use crate::layout::{MAX_LINE_TOKENS, MAX_LINES, laid_out};
use crate::lexemes::{Kind, Token, lexemes};
use crate::scope::{Entry, Maker, error_at, error_in, new_name, word_count};
use crate::signs::Sign;
use crate::statements::{Block, Layer, MAX_STEPS, is_start, lines};
use crate::tables::{Header, Source, table_line};
use crate::terms::MAX_PARTS;
use rule_syntax::Statement;
use std::alloc::Global;

/// A rule: what it does in a pulse, and how many words of the memory it has, the clock among them.
#[derive(Drop)]
pub struct Rule {
    pub statement: Statement,
    pub words: usize,
}

/// Reads a new name, and further ones after a comma.
#[cycle(state_names)]
fn state_names_with<'a>(
    alloc: Global,
    text: &[u8],
    names: &[Entry],
    tokens: &'a [Token],
    left: usize,
) -> Result<(Vec<Entry>, &'a [Token]), ReadRuleError>
    ensures read { IfOk result (λ x. state_names_with (state_names left text.now) text.now names.now tokens.now
        ≡ Ok (x.0.items, x.1.now)) }
    ensures error { IfErr result (TellsError
        (state_names_with (state_names left text.now) text.now names.now tokens.now)) }
{
    let (more, rest) = new_name(alloc, text, Maker::State, names, tokens)?;
    match after(Sign::Comma, rest) {
        Some(behind) => state_names(alloc, text, &more, behind, left),
        None => Ok((more, rest)),
    }
}

/// Reads the names after `state`, at most this many.
#[cycle(state_names)]
fn state_names<'a>(
    alloc: Global,
    text: &[u8],
    names: &[Entry],
    tokens: &'a [Token],
    left: usize,
) -> Result<(Vec<Entry>, &'a [Token]), ReadRuleError>
    ensures read { IfOk result (λ x. state_names left text.now names.now tokens.now ≡ Ok (x.0.items, x.1.now)) }
    ensures error { IfErr result (TellsError (state_names left text.now names.now tokens.now)) }
{
    if left == 0 {
        return Err(error_in(RuleError::TooLong, tokens));
    }
    state_names_with(alloc, text, names, tokens, left - 1)
}

/// Returns the tokens after a word that begins a line of the column.
fn heading(word: Sign, column: usize, tokens: &[Token]) -> Option<&[Token]>
    ensures { MatchOption result (after_heading word column tokens.now ≡ None)
        (λ rest. after_heading word column tokens.now ≡ Some rest.now) }
{
    let (first, rest) = tokens.split_first()?;
    if is_start(first.kind) && first.column == column {
        after(word, rest)
    } else {
        None
    }
}

/// Reads what follows `state`.
fn states<'a>(
    alloc: Global,
    text: &[u8],
    before: Header,
    tokens: &'a [Token],
) -> Result<(Header, &'a [Token]), ReadRuleError>
    ensures read { IfOk result (λ x. states_read text.now (header_form before) tokens.now
        ≡ Ok (header_form x.0, x.1.now)) }
    ensures error { IfErr result (TellsError (states_read text.now (header_form before) tokens.now)) }
{
    let (names, rest) = state_names(alloc, text, &before.names, tokens, MAX_LINE_TOKENS)?;
    let tables = before.tables;
    Ok((Header { names, tables }, rest))
}

/// Reads the lines that name words of the memory and tables.
#[cycle(header)]
fn header_with<'a>(
    alloc: Global,
    text: &[u8],
    before: Header,
    tokens: &'a [Token],
    column: usize,
    left: usize,
) -> Result<(Header, &'a [Token]), ReadRuleError>
    ensures read { IfOk result (λ x.
        header_with (header_read left text.now column) text.now column (header_form before) tokens.now
        ≡ Ok (header_form x.0, x.1.now)) }
    ensures error { IfErr result (TellsError
        (header_with (header_read left text.now column) text.now column (header_form before) tokens.now)) }
{
    if let Some(inside) = heading(Sign::State, column, tokens) {
        let (more, rest) = states(alloc, text, before, inside)?;
        return header(alloc, text, more, rest, column, left);
    }
    match heading(Sign::Table, column, tokens) {
        Some(inside) => {
            let (more, rest) = table_line(alloc, text, before, inside)?;
            header(alloc, text, more, rest, column, left)
        }
        None => Ok((before, tokens)),
    }
}

/// Reads the lines that name words of the memory and tables, at most this many.
#[cycle(header)]
pub fn header<'a>(
    alloc: Global,
    text: &[u8],
    before: Header,
    tokens: &'a [Token],
    column: usize,
    left: usize,
) -> Result<(Header, &'a [Token]), ReadRuleError>
    ensures read { IfOk result (λ x. header_read left text.now column (header_form before) tokens.now
        ≡ Ok (header_form x.0, x.1.now)) }
    ensures error { IfErr result (TellsError (header_read left text.now column (header_form before) tokens.now)) }
{
    if left == 0 {
        return Err(error_in(RuleError::TooLong, tokens));
    }
    header_with(alloc, text, before, tokens, column, left - 1)
}

fn ended(names: &[Entry], statement: Statement, tokens: &[Token]) -> Result<Rule, ReadRuleError>
    ensures read { IfOk result (λ x. ended names.now (statement_form statement) tokens.now ≡ Ok (rule_form x)) }
    ensures error { IfErr result (λ e. ended names.now (statement_form statement) tokens.now ≡ Err e) }
{
    let Some((first, _)) = tokens.split_first() else {
        return Err(error_in(RuleError::Expected, tokens));
    };
    match first.kind {
        Kind::TextEnd => Ok(Rule {
            statement,
            words: word_count(names),
        }),
        _ => Err(error_at(RuleError::BadIndent, *first)),
    }
}

pub fn first_column(tokens: &[Token]) -> usize
    ensures { result ≡ first_column tokens.now }
{
    match tokens {
        [first, ..] => first.column,
        [] => 0,
    }
}

fn rule_in(alloc: Global, text: &[u8], tokens: &[Token]) -> Result<Rule, ReadRuleError>
    ensures read { IfOk result (λ x. rule_in text.now tokens.now ≡ Ok (rule_form x)) }
    ensures error { IfErr result (TellsError (rule_in text.now tokens.now)) }
{
    let column = first_column(tokens);
    let (found, rest) = header(alloc, text, Header::new(alloc), tokens, column, MAX_LINES)?;
    let top = Block {
        left: MAX_STEPS,
        room: MAX_PARTS,
        column,
    };
    let source = Source {
        text,
        tables: &found.tables,
    };
    let (statement, rest) = lines(alloc, &source, &found.names, rest, Layer::Rest, top)?;
    ended(&found.names, statement, rest)
}

/// Reads the rule of a text.
pub fn read_rule(alloc: Global, text: &[u8]) -> Result<Rule, ReadRuleError>
    ensures read { IfOk result (λ x. rule_read text.now ≡ Ok (rule_form x)) }
    ensures error { IfErr result (TellsError (rule_read text.now)) }
{
    let found = lexemes(alloc, text)?;
    let tokens = laid_out(alloc, &found)?;
    rule_in(alloc, text, &tokens)
}
