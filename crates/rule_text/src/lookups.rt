//! Lookups in tables, as searches by halves for the run of equal cells that has a place.
ghost use Rattle.std.specs.Prelude.{◌≡◌, ◌≤◌, ◌++◌, length, Ok, IfOk, IfErr, OnOk};
ghost use Rattle.rule_text.specs.Forms.{term_form, leaf_form};
ghost use Rattle.rule_text.specs.Scopes.{TellsError};
ghost use Rattle.rule_text.specs.Tables.{source_form, cell_at, run_at, runs_of, first_run, looked_up, table_term};
ghost use Rattle.rule_text.specs.Terms.{lookup_read};

use crate::errors::ReadRuleError;
use crate::joints::{binary_of, choice_of, wanted};
use crate::layout::MAX_TABLE_CELLS;
use crate::leaves::{Leaf, leaf_in, leaf_term};
use crate::lexemes::Token;
use crate::scope::Entry;
use crate::signs::Sign;
use crate::tables::{Source, table_at};
use node_env::NO_MAIL;
use rule_syntax::{Comparison, Operator, Term};
use std::alloc::{AllocError, Global};

/// Equal cells beside one another: the place of the first, and their number.
#[derive(Clone, Copy)]
pub struct Run {
    pub first: u32,
    pub number: u32,
}

/// Appends the run that begins at a cell, if its number isn't that of the cell before.
fn push_run(runs: &mut Vec<Run>, place: u32, last: u32, cell: u32) -> Result<(), AllocError>
    ensures { OnOk result (runs.new.items ≡ runs.old.items ++ run_at place last cell) }
{
    if cell != last {
        runs.push(Run {
            first: place,
            number: cell,
        })?;
    }
    Ok(())
}

/// Returns the first cell of a table.
fn first_cell(cells: &[u32]) -> u32
    ensures { result ≡ cell_at cells.now 0 }
{
    match cells {
        [first, ..] => *first,
        [] => NO_MAIL,
    }
}

/// Returns the runs of a table. The last one goes on past its end.
#[tactic(auto, using(crate::proofs::TableLemmas::next_run, crate::proofs::TableLemmas::last_run))]
fn runs_of(alloc: Global, cells: &[u32]) -> Result<Vec<Run>, AllocError>
    requires { length cells.now ≤ MAX_TABLE_CELLS }
    ensures { IfOk result (λ runs. runs.items ≡ runs_of cells.now) }
{
    let mut runs = Vec::new(alloc);
    let mut last = first_cell(cells);
    runs.push(Run {
        first: 0,
        number: last,
    })?;
    for (place, cell) in cells.iter().enumerate() {
        push_run(&mut runs, place as u32, last, *cell)?;
        last = *cell;
    }
    push_run(&mut runs, cells.len() as u32, last, NO_MAIL)?;
    Ok(runs)
}

fn first_run(runs: &[Run]) -> Run
    ensures { result ≡ first_run runs.now }
{
    match runs {
        [first, ..] => *first,
        [] => Run {
            first: 0,
            number: NO_MAIL,
        },
    }
}

/// Returns the term that searches the runs for the place that a term gives, in at most this many steps.
fn looked_up(alloc: Global, runs: &[Run], x: Leaf, steps: usize) -> Result<Term, AllocError>
    ensures { IfOk result (λ t. term_form t ≡ looked_up steps runs.now (leaf_form x)) }
{
    let half = runs.len() / 2;
    if steps == 0 || half == 0 {
        return Ok(Term::Number(first_run(runs).number));
    }
    let (front, back) = runs.split_at(half);
    let first = Term::Number(first_run(back).first);
    let test = binary_of(
        alloc,
        Operator::Compare(Comparison::Less),
        leaf_term(x),
        first,
    )?;
    let left = looked_up(alloc, front, x, steps - 1)?;
    let right = looked_up(alloc, back, x, steps - 1)?;
    choice_of(alloc, test, left, right)
}

/// Returns the term for the cell at the place that a term gives.
fn table_term(alloc: Global, cells: &[u32], x: Leaf) -> Result<Term, AllocError>
    requires { length cells.now ≤ MAX_TABLE_CELLS }
    ensures { IfOk result (λ t. term_form t ≡ table_term cells.now (leaf_form x)) }
{
    let runs = runs_of(alloc, cells)?;
    looked_up(alloc, &runs, x, runs.len())
}

/// Reads what follows the name of a table, by its number.
pub fn lookup<'a>(
    alloc: Global,
    source: &Source,
    names: &[Entry],
    table: u32,
    tokens: &'a [Token],
) -> Result<(Term, &'a [Token]), ReadRuleError>
    ensures read { IfOk result (λ x. lookup_read (source_form source.now) names.now table tokens.now
        ≡ Ok (term_form x.0, x.1.now)) }
    ensures error { IfErr result (TellsError (lookup_read (source_form source.now) names.now table tokens.now)) }
{
    let inside = wanted(Sign::OpenSquare, tokens)?;
    let (place, rest) = leaf_in(source.text, names, inside)?;
    let rest = wanted(Sign::CloseSquare, rest)?;
    let cells = table_at(source.tables, table);
    Ok((table_term(alloc, cells, place)?, rest))
}
