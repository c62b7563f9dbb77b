//! From tokens to statements.
ghost use Rattle.std.specs.Prelude.{◌≡◌, Ok, IfOk, IfErr};
ghost use Rattle.rule_text.specs.Forms.{term_form, statement_form};
ghost use Rattle.rule_text.specs.Scopes.{TellsError};
ghost use Rattle.rule_text.specs.Tables.{source_form};
ghost use Rattle.rule_text.specs.Statements.{let_read, send_read, let_alone, simple_read, is_start, deeper_read};
ghost use Rattle.rule_text.specs.Statements.{body_read};
ghost use Rattle.rule_text.specs.Statements.{other_read, branch_read, followed, let_line, for_line, line_read};
ghost use Rattle.rule_text.specs.Statements.{rest_read};
ghost use Rattle.rule_text.specs.Statements.{lines_read};

use crate::assignments::assignment;
use crate::errors::{ReadRuleError, RuleError};
use crate::joints::{after, wanted};
use crate::lexemes::{Kind, Token};
use crate::parts::{branch_of, each_of, let_of, sequence_of};
use crate::scope::{Entry, Maker, error_at, error_in, new_name};
use crate::signs::Sign;
use crate::tables::Source;
use crate::terms::term;
use rule_syntax::{Statement, Term};
use std::alloc::Global;

/// The most steps from line to line: two for each line.
pub const MAX_STEPS: u32 = 4_100;

/// What is read of lines: the rest of a block, or what follows `if` or `elif`.
#[derive(Clone, Copy)]
pub enum Layer {
    Rest,
    Branch,
}

/// A block: how many steps are left, the room for blocks in one another, and its column.
#[derive(Clone, Copy)]
pub struct Block {
    pub left: u32,
    pub room: u32,
    pub column: usize,
}

/// Reads what follows `let`: its number, and the names with its own.
fn let_head<'a>(
    alloc: Global,
    source: &Source,
    names: &[Entry],
    tokens: &'a [Token],
) -> Result<(Term, Vec<Entry>, &'a [Token]), ReadRuleError>
    ensures read { IfOk result (λ x. let_read (source_form source.now) names.now tokens.now
        ≡ Ok (term_form x.0, x.1.items, x.2.now)) }
    ensures error { IfErr result (TellsError (let_read (source_form source.now) names.now tokens.now)) }
{
    let (more, rest) = new_name(alloc, source.text, Maker::Let, names, tokens)?;
    let rest = wanted(Sign::Becomes, rest)?;
    let (number, rest) = term(alloc, source, names, rest)?;
    Ok((number, more, rest))
}

/// Reads what follows `send`.
fn send<'a>(
    alloc: Global,
    source: &Source,
    names: &[Entry],
    tokens: &'a [Token],
) -> Result<(Statement, &'a [Token]), ReadRuleError>
    ensures read { IfOk result (λ x. send_read (source_form source.now) names.now tokens.now
        ≡ Ok (statement_form x.0, x.1.now)) }
    ensures error { IfErr result (TellsError (send_read (source_form source.now) names.now tokens.now)) }
{
    let (number, rest) = term(alloc, source, names, tokens)?;
    let Some(behind) = after(Sign::To, rest) else {
        return Ok((Statement::SendAll(number), rest));
    };
    let (receiver, rest) = term(alloc, source, names, behind)?;
    Ok((Statement::SendTo(number, receiver), rest))
}

fn let_alone<'a>(
    alloc: Global,
    source: &Source,
    names: &[Entry],
    tokens: &'a [Token],
) -> Result<(Statement, &'a [Token]), ReadRuleError>
    ensures read { IfOk result (λ x. let_alone (source_form source.now) names.now tokens.now
        ≡ Ok (statement_form x.0, x.1.now)) }
    ensures error { IfErr result (TellsError (let_alone (source_form source.now) names.now tokens.now)) }
{
    let (number, _, rest) = let_head(alloc, source, names, tokens)?;
    Ok((let_of(alloc, number, Statement::Nothing)?, rest))
}

/// Reads a statement without blocks.
fn simple<'a>(
    alloc: Global,
    source: &Source,
    names: &[Entry],
    tokens: &'a [Token],
) -> Result<(Statement, &'a [Token]), ReadRuleError>
    ensures read { IfOk result (λ x. simple_read (source_form source.now) names.now tokens.now
        ≡ Ok (statement_form x.0, x.1.now)) }
    ensures error { IfErr result (TellsError (simple_read (source_form source.now) names.now tokens.now)) }
{
    let Some((first, rest)) = tokens.split_first() else {
        return Err(error_in(RuleError::Expected, tokens));
    };
    match first.kind {
        Kind::Mark(Sign::Let) => let_alone(alloc, source, names, rest),
        Kind::Mark(Sign::Send) => send(alloc, source, names, rest),
        _ => assignment(alloc, source, names, tokens),
    }
}

pub fn is_start(kind: Kind) -> bool
    ensures { result ≡ is_start kind }
{
    match kind {
        Kind::LineStart => true,
        _ => false,
    }
}

/// Reads the lines of a deeper block, which starts here.
#[cycle(statements)]
fn deeper<'a>(
    alloc: Global,
    source: &Source,
    names: &[Entry],
    tokens: &'a [Token],
    first: Token,
    at: Block,
) -> Result<(Statement, &'a [Token]), ReadRuleError>
    ensures read { IfOk result (λ x.
        deeper_read (lines_read at.left (source_form source.now)) at.room at.column names.now first tokens.now
        ≡ Ok (statement_form x.0, x.1.now)) }
    ensures error { IfErr result (TellsError
        (deeper_read (lines_read at.left (source_form source.now)) at.room at.column names.now first tokens.now)) }
{
    if first.column <= at.column {
        return Err(error_at(RuleError::Expected, first));
    }
    if at.room == 0 {
        return Err(error_at(RuleError::TooDeep, first));
    }
    let inside = Block {
        left: at.left,
        room: at.room - 1,
        column: first.column,
    };
    lines(alloc, source, names, tokens, Layer::Rest, inside)
}

/// Reads a colon and the block after it: deeper lines, or a simple statement on the same line.
#[cycle(statements)]
fn body<'a>(
    alloc: Global,
    source: &Source,
    names: &[Entry],
    tokens: &'a [Token],
    at: Block,
) -> Result<(Statement, &'a [Token]), ReadRuleError>
    ensures read { IfOk result (λ x.
        body_read (lines_read at.left (source_form source.now)) (source_form source.now) at.room at.column names.now
        tokens.now
        ≡ Ok (statement_form x.0, x.1.now)) }
    ensures error { IfErr result (TellsError
        (body_read (lines_read at.left (source_form source.now)) (source_form source.now) at.room at.column names.now
        tokens.now)) }
{
    let rest = wanted(Sign::Colon, tokens)?;
    let Some((first, _)) = rest.split_first() else {
        return Err(error_in(RuleError::Expected, rest));
    };
    if is_start(first.kind) {
        deeper(alloc, source, names, rest, *first, at)
    } else {
        simple(alloc, source, names, rest)
    }
}

/// Reads what is done otherwise: a line of the same column that begins with `elif` or `else`.
#[cycle(statements)]
fn otherwise<'a>(
    alloc: Global,
    source: &Source,
    names: &[Entry],
    tokens: &'a [Token],
    at: Block,
) -> Result<(Statement, &'a [Token]), ReadRuleError>
    ensures read { IfOk result (λ x.
        other_read (lines_read at.left (source_form source.now)) (source_form source.now) at.room at.column names.now
        tokens.now
        ≡ Ok (statement_form x.0, x.1.now)) }
    ensures error { IfErr result (TellsError
        (other_read (lines_read at.left (source_form source.now)) (source_form source.now) at.room at.column names.now
        tokens.now)) }
{
    match tokens {
        [start, word, rest @ ..] => {
            if !is_start(start.kind) || start.column != at.column {
                return Ok((Statement::Nothing, tokens));
            }
            match word.kind {
                Kind::Mark(Sign::Elif) => lines(alloc, source, names, rest, Layer::Branch, at),
                Kind::Mark(Sign::Else) => body(alloc, source, names, rest, at),
                _ => Ok((Statement::Nothing, tokens)),
            }
        }
        _ => Ok((Statement::Nothing, tokens)),
    }
}

/// Reads what follows `if` or `elif`.
#[cycle(statements)]
fn after_if<'a>(
    alloc: Global,
    source: &Source,
    names: &[Entry],
    tokens: &'a [Token],
    at: Block,
) -> Result<(Statement, &'a [Token]), ReadRuleError>
    ensures read { IfOk result (λ x.
        branch_read (lines_read at.left (source_form source.now)) (source_form source.now) at.room at.column names.now
        tokens.now
        ≡ Ok (statement_form x.0, x.1.now)) }
    ensures error { IfErr result (TellsError
        (branch_read (lines_read at.left (source_form source.now)) (source_form source.now) at.room at.column names.now
        tokens.now)) }
{
    let (test, rest) = term(alloc, source, names, tokens)?;
    let (first, rest) = body(alloc, source, names, rest, at)?;
    let (second, rest) = otherwise(alloc, source, names, rest, at)?;
    Ok((branch_of(alloc, test, first, second)?, rest))
}

/// Reads the rest of the block after a statement.
#[cycle(statements)]
fn followed<'a>(
    alloc: Global,
    source: &Source,
    names: &[Entry],
    statement: Statement,
    tokens: &'a [Token],
    at: Block,
) -> Result<(Statement, &'a [Token]), ReadRuleError>
    ensures read { IfOk result (λ x.
        followed (lines_read at.left (source_form source.now)) at.room at.column names.now (statement_form statement)
        tokens.now
        ≡ Ok (statement_form x.0, x.1.now)) }
    ensures error { IfErr result (TellsError
        (followed (lines_read at.left (source_form source.now)) at.room at.column names.now (statement_form statement)
        tokens.now)) }
{
    let (behind, rest) = lines(alloc, source, names, tokens, Layer::Rest, at)?;
    Ok((sequence_of(alloc, statement, behind)?, rest))
}

#[cycle(statements)]
fn let_line<'a>(
    alloc: Global,
    source: &Source,
    names: &[Entry],
    tokens: &'a [Token],
    at: Block,
) -> Result<(Statement, &'a [Token]), ReadRuleError>
    ensures read { IfOk result (λ x.
        let_line (lines_read at.left (source_form source.now)) (source_form source.now) at.room at.column names.now
        tokens.now
        ≡ Ok (statement_form x.0, x.1.now)) }
    ensures error { IfErr result (TellsError
        (let_line (lines_read at.left (source_form source.now)) (source_form source.now) at.room at.column names.now
        tokens.now)) }
{
    let (number, more, rest) = let_head(alloc, source, names, tokens)?;
    let (behind, rest) = lines(alloc, source, &more, rest, Layer::Rest, at)?;
    Ok((let_of(alloc, number, behind)?, rest))
}

#[cycle(statements)]
fn for_line<'a>(
    alloc: Global,
    source: &Source,
    names: &[Entry],
    tokens: &'a [Token],
    at: Block,
) -> Result<(Statement, &'a [Token]), ReadRuleError>
    ensures read { IfOk result (λ x.
        for_line (lines_read at.left (source_form source.now)) (source_form source.now) at.room at.column names.now
        tokens.now
        ≡ Ok (statement_form x.0, x.1.now)) }
    ensures error { IfErr result (TellsError
        (for_line (lines_read at.left (source_form source.now)) (source_form source.now) at.room at.column names.now
        tokens.now)) }
{
    let (more, rest) = new_name(alloc, source.text, Maker::Loop, names, tokens)?;
    let (inside, rest) = body(alloc, source, &more, rest, at)?;
    followed(alloc, source, names, each_of(alloc, inside)?, rest, at)
}

/// Reads a line and the rest of its block.
#[cycle(statements)]
fn line<'a>(
    alloc: Global,
    source: &Source,
    names: &[Entry],
    tokens: &'a [Token],
    at: Block,
) -> Result<(Statement, &'a [Token]), ReadRuleError>
    ensures read { IfOk result (λ x.
        line_read (lines_read at.left (source_form source.now)) (source_form source.now) at.room at.column names.now
        tokens.now
        ≡ Ok (statement_form x.0, x.1.now)) }
    ensures error { IfErr result (TellsError
        (line_read (lines_read at.left (source_form source.now)) (source_form source.now) at.room at.column names.now
        tokens.now)) }
{
    let Some((first, rest)) = tokens.split_first() else {
        return Err(error_in(RuleError::Expected, tokens));
    };
    match first.kind {
        Kind::Mark(Sign::Let) => let_line(alloc, source, names, rest, at),
        Kind::Mark(Sign::For) => for_line(alloc, source, names, rest, at),
        Kind::Mark(Sign::If) => {
            let (statement, rest) = lines(alloc, source, names, rest, Layer::Branch, at)?;
            followed(alloc, source, names, statement, rest, at)
        }
        _ => {
            let (statement, rest) = simple(alloc, source, names, tokens)?;
            followed(alloc, source, names, statement, rest, at)
        }
    }
}

/// Reads the rest of a block: a line further left ends it.
#[cycle(statements)]
fn rest_of<'a>(
    alloc: Global,
    source: &Source,
    names: &[Entry],
    tokens: &'a [Token],
    at: Block,
) -> Result<(Statement, &'a [Token]), ReadRuleError>
    ensures read { IfOk result (λ x.
        rest_read (lines_read at.left (source_form source.now)) (source_form source.now) at.room at.column names.now
        tokens.now
        ≡ Ok (statement_form x.0, x.1.now)) }
    ensures error { IfErr result (TellsError
        (rest_read (lines_read at.left (source_form source.now)) (source_form source.now) at.room at.column names.now
        tokens.now)) }
{
    let Some((first, rest)) = tokens.split_first() else {
        return Err(error_in(RuleError::Expected, tokens));
    };
    match first.kind {
        Kind::TextEnd => Ok((Statement::Nothing, tokens)),
        Kind::LineStart => {
            if first.column < at.column {
                return Ok((Statement::Nothing, tokens));
            }
            if at.column < first.column {
                return Err(error_at(RuleError::BadIndent, *first));
            }
            line(alloc, source, names, rest, at)
        }
        _ => Err(error_at(RuleError::Expected, *first)),
    }
}

/// Reads lines.
#[cycle(statements)]
pub fn lines<'a>(
    alloc: Global,
    source: &Source,
    names: &[Entry],
    tokens: &'a [Token],
    layer: Layer,
    at: Block,
) -> Result<(Statement, &'a [Token]), ReadRuleError>
    ensures read { IfOk result (λ x. lines_read at.left (source_form source.now) layer at.room at.column names.now
        tokens.now
        ≡ Ok (statement_form x.0, x.1.now)) }
    ensures error { IfErr result (TellsError
        (lines_read at.left (source_form source.now) layer at.room at.column names.now tokens.now)) }
{
    let left = at.left;
    if left == 0 {
        return Err(error_in(RuleError::TooLong, tokens));
    }
    let next = Block {
        left: left - 1,
        room: at.room,
        column: at.column,
    };
    match layer {
        Layer::Rest => rest_of(alloc, source, names, tokens, next),
        Layer::Branch => after_if(alloc, source, names, tokens, next),
    }
}
