//! From tokens to assignments.
ghost use Rattle.std.specs.Prelude.{◌≡◌, Ok, Err, IfOk, IfErr};
ghost use Rattle.rule_text.specs.Forms.{term_form, assignment_form, statement_form, also};
ghost use Rattle.rule_text.specs.Scopes.{TellsError};
ghost use Rattle.rule_text.specs.Tables.{source_form};
ghost use Rattle.rule_text.specs.Statements.{same_target, target_meant, target_marked, target_by, has_target};
ghost use Rattle.rule_text.specs.Statements.{with_target};
ghost use Rattle.rule_text.specs.Statements.{new_target, targets_with, targets_read, values_read, numbers_read};
ghost use Rattle.rule_text.specs.Statements.{assign_read};

use crate::errors::{ReadRuleError, RuleError};
use crate::joints::{after, wanted};
use crate::layout::MAX_LINE_TOKENS;
use crate::lexemes::{Kind, Token};
use crate::scope::{Entry, Meaning, error_at, error_in, meaning_of};
use crate::signs::Sign;
use crate::tables::Source;
use crate::terms::term;
use rule_syntax::{Assignment, Statement, Target, Term};
use std::alloc::{AllocError, Global};

fn same_target(a: Target, b: Target) -> bool
    ensures { result ≡ same_target a b }
{
    match (a, b) {
        (Target::ToLocal(j), Target::ToLocal(k)) => j == k,
        (Target::ToWord(j), Target::ToWord(k)) => j == k,
        _ => false,
    }
}

fn target_meant(meaning: Option<Meaning>, t: Token) -> Result<Target, ReadRuleError>
    ensures read { IfOk result (λ x. target_meant meaning t ≡ Ok x) }
    ensures error { IfErr result (λ e. target_meant meaning t ≡ Err e) }
{
    match meaning {
        Some(Meaning::Local(k)) => Ok(Target::ToLocal(k)),
        Some(Meaning::Word(k)) => Ok(Target::ToWord(k)),
        Some(Meaning::LoopNode(_)) => Err(error_at(RuleError::NotAssignable, t)),
        Some(Meaning::Table(_)) => Err(error_at(RuleError::NotAssignable, t)),
        None => Err(error_at(RuleError::UnknownName, t)),
    }
}

fn target_marked(sign: Sign, t: Token) -> Result<Target, ReadRuleError>
    ensures read { IfOk result (λ x. target_marked sign t ≡ Ok x) }
    ensures error { IfErr result (λ e. target_marked sign t ≡ Err e) }
{
    match sign {
        Sign::Clock => Ok(Target::ToWord(0)),
        Sign::Nodes => Err(error_at(RuleError::NotAssignable, t)),
        Sign::Faults => Err(error_at(RuleError::NotAssignable, t)),
        Sign::Modulus => Err(error_at(RuleError::NotAssignable, t)),
        Sign::Me => Err(error_at(RuleError::NotAssignable, t)),
        Sign::Coin => Err(error_at(RuleError::NotAssignable, t)),
        Sign::NoMessage => Err(error_at(RuleError::NotAssignable, t)),
        _ => Err(error_at(RuleError::Expected, t)),
    }
}

fn target_at(text: &[u8], names: &[Entry], t: Token) -> Result<Target, ReadRuleError>
    ensures read { IfOk result (λ x. target_by text.now names.now t.kind t ≡ Ok x) }
    ensures error { IfErr result (λ e. target_by text.now names.now t.kind t ≡ Err e) }
{
    match t.kind {
        Kind::Named(name) => target_meant(meaning_of(text, names, name), t),
        Kind::Mark(sign) => target_marked(sign, t),
        _ => Err(error_at(RuleError::Expected, t)),
    }
}

fn has_target(done: &[Target], target: Target) -> bool
    ensures { result ≡ has_target done.now target }
{
    done.iter().any(|other| same_target(target, *other))
}

/// Returns the targets with one more that isn't among them.
fn with_target(
    mut done: Vec<Target>,
    target: Target,
    t: Token,
) -> Result<Vec<Target>, ReadRuleError>
    ensures read { IfOk result (λ x. with_target done.items target t ≡ Ok x.items) }
    ensures error { IfErr result (TellsError (with_target done.items target t)) }
{
    if has_target(&done, target) {
        return Err(error_at(RuleError::NameTwice, t));
    }
    match done.push(target) {
        Ok(()) => Ok(done),
        Err(_) => Err(ReadRuleError::Memory),
    }
}

/// Reads one more target.
fn new_target<'a>(
    text: &[u8],
    names: &[Entry],
    done: Vec<Target>,
    tokens: &'a [Token],
) -> Result<(Vec<Target>, &'a [Token]), ReadRuleError>
    ensures read { IfOk result (λ x. new_target text.now names.now done.items tokens.now
        ≡ Ok (x.0.items, x.1.now)) }
    ensures error { IfErr result (TellsError (new_target text.now names.now done.items tokens.now)) }
{
    match tokens {
        [first, rest @ ..] => {
            let target = target_at(text, names, *first)?;
            let more = with_target(done, target, *first)?;
            Ok((more, rest))
        }
        [] => Err(error_in(RuleError::Expected, tokens)),
    }
}

/// Reads a target, further ones after a comma, and the `=` after them.
#[cycle(targets)]
fn targets_with<'a>(
    text: &[u8],
    names: &[Entry],
    done: Vec<Target>,
    tokens: &'a [Token],
    left: usize,
) -> Result<(Vec<Target>, &'a [Token]), ReadRuleError>
    ensures read { IfOk result (λ x. targets_with (targets_read left text.now names.now) text.now names.now done.items
        tokens.now ≡ Ok (x.0.items, x.1.now)) }
    ensures error { IfErr result (TellsError (targets_with (targets_read left text.now names.now) text.now names.now
        done.items tokens.now)) }
{
    let (more, rest) = new_target(text, names, done, tokens)?;
    match after(Sign::Comma, rest) {
        Some(behind) => targets(text, names, more, behind, left),
        None => {
            let rest = wanted(Sign::Becomes, rest)?;
            Ok((more, rest))
        }
    }
}

/// Reads the targets, at most this many, and the `=` after them.
#[cycle(targets)]
fn targets<'a>(
    text: &[u8],
    names: &[Entry],
    done: Vec<Target>,
    tokens: &'a [Token],
    left: usize,
) -> Result<(Vec<Target>, &'a [Token]), ReadRuleError>
    ensures read { IfOk result (λ x. targets_read left text.now names.now done.items tokens.now
        ≡ Ok (x.0.items, x.1.now)) }
    ensures error { IfErr result (TellsError (targets_read left text.now names.now done.items tokens.now)) }
{
    if left == 0 {
        return Err(error_in(RuleError::TooLong, tokens));
    }
    targets_with(text, names, done, tokens, left - 1)
}

fn also_of(
    alloc: Global,
    front: Assignment,
    target: Target,
    e: Term,
) -> Result<Assignment, AllocError>
    ensures { IfOk result (λ a. assignment_form a ≡ also (assignment_form front) target (term_form e)) }
{
    let others = Box::new(alloc, front)?;
    Ok(Assignment::Also(others, target, e))
}

/// Reads the numbers of further targets.
fn values<'a>(
    alloc: Global,
    source: &Source,
    names: &[Entry],
    front: Assignment,
    targets: &[Target],
    tokens: &'a [Token],
) -> Result<(Assignment, &'a [Token]), ReadRuleError>
    ensures read { IfOk result (λ x. values_read (source_form source.now) names.now (assignment_form front) targets.now
        tokens.now
        ≡ Ok (assignment_form x.0, x.1.now)) }
    ensures error { IfErr result (TellsError
        (values_read (source_form source.now) names.now (assignment_form front) targets.now tokens.now)) }
{
    let Some((target, others)) = targets.split_first() else {
        return Ok((front, tokens));
    };
    let rest = wanted(Sign::Comma, tokens)?;
    let (number, rest) = term(alloc, source, names, rest)?;
    let more = also_of(alloc, front, *target, number)?;
    values(alloc, source, names, more, others, rest)
}

fn numbers<'a>(
    alloc: Global,
    source: &Source,
    names: &[Entry],
    targets: &[Target],
    tokens: &'a [Token],
) -> Result<(Statement, &'a [Token]), ReadRuleError>
    ensures read { IfOk result (λ x. numbers_read (source_form source.now) names.now targets.now tokens.now
        ≡ Ok (statement_form x.0, x.1.now)) }
    ensures error { IfErr result (TellsError (numbers_read (source_form source.now) names.now targets.now tokens.now)) }
{
    let Some((target, others)) = targets.split_first() else {
        return Err(error_in(RuleError::Expected, tokens));
    };
    let (number, rest) = term(alloc, source, names, tokens)?;
    let first = Assignment::One(*target, number);
    let (all, rest) = values(alloc, source, names, first, others, rest)?;
    Ok((Statement::Assign(all), rest))
}

/// Reads an assignment.
pub fn assignment<'a>(
    alloc: Global,
    source: &Source,
    names: &[Entry],
    tokens: &'a [Token],
) -> Result<(Statement, &'a [Token]), ReadRuleError>
    ensures read { IfOk result (λ x. assign_read (source_form source.now) names.now tokens.now
        ≡ Ok (statement_form x.0, x.1.now)) }
    ensures error { IfErr result (TellsError (assign_read (source_form source.now) names.now tokens.now)) }
{
    let (found, rest) = targets(source.text, names, Vec::new(alloc), tokens, MAX_LINE_TOKENS)?;
    numbers(alloc, source, names, &found, rest)
}
