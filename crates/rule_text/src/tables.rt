//! Tables: their names and their cells.
ghost use Rattle.std.specs.Prelude.{◌≡◌, ◌≤◌, ◌+◌, ◌++◌, ◌∷◌, [], length, Ok, IfOk, IfErr, map};
ghost use Rattle.rule_text.specs.Scopes.{TellsError};
ghost use Rattle.rule_text.specs.Statements.{cell_by, cell_read, cells_with, cells_read, table_read};
ghost use Rattle.rule_text.specs.Tables.{cells_of, header_form, no_header, table_at};

use crate::errors::{ReadRuleError, RuleError};
use crate::joints::{after, wanted};
use crate::layout::MAX_TABLE_CELLS;
use crate::lexemes::{Kind, Token};
use crate::scope::{Entry, Maker, error_at, error_in, new_name};
use crate::signs::Sign;
use node_env::NO_MAIL;
use std::alloc::{AllocError, Global};

/// A table.
#[derive(Drop)]
pub struct Table {
    pub cells: Vec<u32>,
}

/// The names of words and tables that a rule begins with, and its tables.
#[derive(Drop)]
pub struct Header {
    pub names: Vec<Entry>,
    pub tables: Vec<Table>,
}

impl Header {
    pub fn new(alloc: Global) -> Header
        ensures { header_form result ≡ no_header }
    {
        Header {
            names: Vec::new(alloc),
            tables: Vec::new(alloc),
        }
    }
}

/// What statements are read of: the text, and its tables.
#[derive(Clone, Copy)]
pub struct Source<'a> {
    pub text: &'a [u8],
    pub tables: &'a [Table],
}

fn cells_of(table: &Table) -> &[u32]
    ensures cells { result.now ≡ cells_of table.now }
    ensures short { length result.now ≤ MAX_TABLE_CELLS }
{
    let all: &[u32] = &table.cells;
    &all[..MAX_TABLE_CELLS.min(all.len())]
}

/// Returns the cells of a table, by its number.
#[tactic(auto, using(crate::proofs::TableLemmas::table_found))]
pub fn table_at(tables: &[Table], k: u32) -> &[u32]
    ensures cells { result.now ≡ table_at (map cells_of tables.now) k }
    ensures short { length result.now ≤ MAX_TABLE_CELLS }
{
    match tables.get(k as usize) {
        Some(table) => cells_of(table),
        None => &[],
    }
}

/// Returns the number of a cell: a number, or `none`.
fn cell_at(t: Token) -> Result<u32, ReadRuleError>
    ensures read { IfOk result (λ x. cell_by t.kind t ≡ Ok x) }
    ensures error { IfErr result (λ e. cell_by t.kind t ≡ Err e) }
{
    match t.kind {
        Kind::Number(v) => Ok(v),
        Kind::Mark(Sign::NoMessage) => Ok(NO_MAIL),
        _ => Err(error_at(RuleError::Expected, t)),
    }
}

fn cell(tokens: &[Token]) -> Result<(u32, &[Token]), ReadRuleError>
    ensures read { IfOk result (λ x. cell_read tokens.now ≡ Ok (x.0, x.1.now)) }
    ensures error { IfErr result (λ e. cell_read tokens.now ≡ Err e) }
{
    match tokens {
        [first, rest @ ..] => Ok((cell_at(*first)?, rest)),
        [] => Err(error_in(RuleError::Expected, tokens)),
    }
}

/// Returns the cells with one more.
fn with_cell(mut done: Vec<u32>, cell: u32) -> Result<Vec<u32>, AllocError>
    ensures { IfOk result (λ more. more.items ≡ done.items ++ cell ∷ []) }
{
    done.push(cell)?;
    Ok(done)
}

/// Reads one more cell, and further ones after a comma.
#[cycle(cells)]
fn cells_with(
    done: Vec<u32>,
    tokens: &[Token],
    left: usize,
) -> Result<(Vec<u32>, &[Token]), ReadRuleError>
    ensures read { IfOk result (λ x. cells_with (cells_read left) done.items tokens.now ≡ Ok (x.0.items, x.1.now)) }
    ensures error { IfErr result (TellsError (cells_with (cells_read left) done.items tokens.now)) }
    ensures short { IfOk result (λ x. length x.0.items ≤ length done.items + (left + 1)) }
{
    let (number, rest) = cell(tokens)?;
    let more = with_cell(done, number)?;
    match after(Sign::Comma, rest) {
        Some(behind) => cells(more, behind, left),
        None => Ok((more, rest)),
    }
}

/// Reads cells, at most this many.
#[cycle(cells)]
fn cells(
    done: Vec<u32>,
    tokens: &[Token],
    left: usize,
) -> Result<(Vec<u32>, &[Token]), ReadRuleError>
    ensures read { IfOk result (λ x. cells_read left done.items tokens.now ≡ Ok (x.0.items, x.1.now)) }
    ensures error { IfErr result (TellsError (cells_read left done.items tokens.now)) }
    ensures short { IfOk result (λ x. length x.0.items ≤ length done.items + left) }
{
    if left == 0 {
        return Err(error_in(RuleError::TooLong, tokens));
    }
    cells_with(done, tokens, left - 1)
}

/// Returns the tables with one more.
fn with_table(mut tables: Vec<Table>, cells: Vec<u32>) -> Result<Vec<Table>, AllocError>
    requires { length cells.items ≤ MAX_TABLE_CELLS }
    ensures { IfOk result (λ more. map cells_of more.items ≡ map cells_of tables.items ++ cells.items ∷ []) }
{
    tables.push(Table { cells })?;
    Ok(tables)
}

/// Reads what follows `table`.
pub fn table_line<'a>(
    alloc: Global,
    text: &[u8],
    before: Header,
    tokens: &'a [Token],
) -> Result<(Header, &'a [Token]), ReadRuleError>
    ensures read { IfOk result (λ x. table_read text.now (header_form before) tokens.now
        ≡ Ok (header_form x.0, x.1.now)) }
    ensures error { IfErr result (TellsError (table_read text.now (header_form before) tokens.now)) }
{
    let (names, rest) = new_name(alloc, text, Maker::Table, &before.names, tokens)?;
    let rest = wanted(Sign::Becomes, rest)?;
    let inside = wanted(Sign::OpenSquare, rest)?;
    let (cells, rest) = cells(Vec::new(alloc), inside, MAX_TABLE_CELLS)?;
    let rest = wanted(Sign::CloseSquare, rest)?;
    let tables = with_table(before.tables, cells)?;
    Ok((Header { names, tables }, rest))
}
