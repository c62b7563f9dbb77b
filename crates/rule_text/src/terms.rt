//! From tokens to terms.
ghost use Rattle.std.specs.Prelude.{◌≡◌, Ok, IfOk, IfErr};
ghost use Rattle.rule_text.specs.Scopes.{TellsError};
ghost use Rattle.rule_text.specs.Forms.{term_form};
ghost use Rattle.rule_text.specs.Tables.{source_form};
ghost use Rattle.rule_text.specs.Terms.{bracketed, message_read, atom};
ghost use Rattle.rule_text.specs.Terms.{compare_read, inverse_read, operand_read, chain_read};
ghost use Rattle.rule_text.specs.Terms.{choice_read, item_read, aggregate_read, place_read, sorted_read, sorted_or_plain};
ghost use Rattle.rule_text.specs.Terms.{whole_read, part, term_read};

use crate::aggregates::{Aggregate, aggregate_in, aggregated, constant_only, sorted_of};
use crate::errors::{ReadRuleError, RuleError};
use crate::joints::{
    Chain, after, binary_of, choice_of, comparison_in, inverse_of, joined, joint_in, message_of,
    wanted,
};
use crate::layout::MAX_LINE_TOKENS;
use crate::leaves::{found_leaf, leaf_of, leaf_term, named_leaf};
use crate::lexemes::{Kind, Token};
use crate::lookups::lookup;
use crate::scope::{Entry, Maker, Meaning, error_at, error_in, meaning_of, new_name};
use crate::signs::Sign;
use crate::tables::Source;
use rule_syntax::{Operator, Term};
use std::alloc::Global;

/// The most parts in one another.
pub const MAX_PARTS: u32 = 200;

/// A part that has a level of its own: a whole term, or what follows `not`.
#[derive(Clone, Copy)]
pub enum Grade {
    Whole,
    Inverse,
}

/// Reads a term and the bracket after it.
#[cycle(terms)]
fn bracketed<'a>(
    alloc: Global,
    source: &Source,
    names: &[Entry],
    tokens: &'a [Token],
    room: u32,
) -> Result<(Term, &'a [Token]), ReadRuleError>
    ensures read { IfOk result (λ x. bracketed (part room (source_form source.now)) names.now tokens.now
        ≡ Ok (term_form x.0, x.1.now)) }
    ensures error { IfErr result (TellsError (bracketed (part room (source_form source.now)) names.now tokens.now)) }
{
    let (term, rest) = part(alloc, source, names, tokens, Grade::Whole, room)?;
    let rest = wanted(Sign::Close, rest)?;
    Ok((term, rest))
}

/// Reads what follows `mail`.
#[cycle(terms)]
fn message<'a>(
    alloc: Global,
    source: &Source,
    names: &[Entry],
    tokens: &'a [Token],
    room: u32,
) -> Result<(Term, &'a [Token]), ReadRuleError>
    ensures read { IfOk result (λ x. message_read (part room (source_form source.now)) names.now tokens.now
        ≡ Ok (term_form x.0, x.1.now)) }
    ensures error { IfErr result (TellsError (message_read (part room (source_form source.now)) names.now tokens.now)) }
{
    let inside = wanted(Sign::OpenSquare, tokens)?;
    let (node, rest) = part(alloc, source, names, inside, Grade::Whole, room)?;
    let rest = wanted(Sign::CloseSquare, rest)?;
    Ok((message_of(alloc, node)?, rest))
}

#[cycle(terms)]
fn atom<'a>(
    alloc: Global,
    source: &Source,
    names: &[Entry],
    tokens: &'a [Token],
    room: u32,
) -> Result<(Term, &'a [Token]), ReadRuleError>
    ensures read { IfOk result (λ x. atom (part room (source_form source.now)) (source_form source.now) names.now
        tokens.now
        ≡ Ok (term_form x.0, x.1.now)) }
    ensures error { IfErr result (TellsError
        (atom (part room (source_form source.now)) (source_form source.now) names.now tokens.now)) }
{
    let Some((first, rest)) = tokens.split_first() else {
        return Err(error_in(RuleError::Expected, tokens));
    };
    match first.kind {
        Kind::Number(v) => Ok((Term::Number(v), rest)),
        Kind::Named(name) => match meaning_of(source.text, names, name) {
            Some(Meaning::Table(k)) => lookup(alloc, source, names, k, rest),
            other => Ok((leaf_term(named_leaf(other, *first)?), rest)),
        },
        Kind::Mark(Sign::Open) => bracketed(alloc, source, names, rest, room),
        Kind::Mark(Sign::Mail) => message(alloc, source, names, rest, room),
        Kind::Mark(sign) => Ok((leaf_term(found_leaf(leaf_of(sign), *first)?), rest)),
        _ => Err(error_at(RuleError::Expected, *first)),
    }
}

/// Reads an operand of a chain.
#[cycle(terms)]
fn operand<'a>(
    alloc: Global,
    source: &Source,
    names: &[Entry],
    tokens: &'a [Token],
    chain_kind: Chain,
    room: u32,
) -> Result<(Term, &'a [Token]), ReadRuleError>
    ensures read { IfOk result (λ x. operand_read (part room (source_form source.now)) (source_form source.now)
        names.now chain_kind tokens.now
        ≡ Ok (term_form x.0, x.1.now)) }
    ensures error { IfErr result (TellsError (operand_read
        (part room (source_form source.now)) (source_form source.now) names.now chain_kind tokens.now)) }
{
    match chain_kind {
        Chain::Product => atom(alloc, source, names, tokens, room),
        Chain::Sum => chain(alloc, source, names, tokens, Chain::Product, room),
        Chain::Both => inverse(alloc, source, names, tokens, room),
        Chain::Either => chain(alloc, source, names, tokens, Chain::Both, room),
    }
}

/// Reads operands of one precedence, which group from the left.
#[cycle(terms)]
fn chain<'a>(
    alloc: Global,
    source: &Source,
    names: &[Entry],
    tokens: &'a [Token],
    kind: Chain,
    room: u32,
) -> Result<(Term, &'a [Token]), ReadRuleError>
    ensures read { IfOk result (λ x. chain_read (part room (source_form source.now)) (source_form source.now) names.now
        kind tokens.now
        ≡ Ok (term_form x.0, x.1.now)) }
    ensures error { IfErr result (TellsError
        (chain_read (part room (source_form source.now)) (source_form source.now) names.now kind tokens.now)) }
{
    let (mut left, mut rest) = operand(alloc, source, names, tokens, kind, room)?;
    for _step in 0..MAX_LINE_TOKENS {
        let Some((joint, behind)) = joint_in(kind, rest) else {
            return Ok((left, rest));
        };
        let (right, behind) = operand(alloc, source, names, behind, kind, room)?;
        left = joined(alloc, joint, left, right)?;
        rest = behind;
    }
    Err(error_in(RuleError::TooLong, rest))
}

/// Reads a sum, or two and a comparison between them.
#[cycle(terms)]
fn compare<'a>(
    alloc: Global,
    source: &Source,
    names: &[Entry],
    tokens: &'a [Token],
    room: u32,
) -> Result<(Term, &'a [Token]), ReadRuleError>
    ensures read { IfOk result (λ x. compare_read (part room (source_form source.now)) (source_form source.now)
        names.now tokens.now
        ≡ Ok (term_form x.0, x.1.now)) }
    ensures error { IfErr result (TellsError
        (compare_read (part room (source_form source.now)) (source_form source.now) names.now tokens.now)) }
{
    let (left, rest) = chain(alloc, source, names, tokens, Chain::Sum, room)?;
    let Some((comparison, behind)) = comparison_in(rest) else {
        return Ok((left, rest));
    };
    let (right, rest) = chain(alloc, source, names, behind, Chain::Sum, room)?;
    Ok((
        binary_of(alloc, Operator::Compare(comparison), left, right)?,
        rest,
    ))
}

#[cycle(terms)]
fn inverse<'a>(
    alloc: Global,
    source: &Source,
    names: &[Entry],
    tokens: &'a [Token],
    room: u32,
) -> Result<(Term, &'a [Token]), ReadRuleError>
    ensures read { IfOk result (λ x. inverse_read (part room (source_form source.now)) (source_form source.now)
        names.now tokens.now
        ≡ Ok (term_form x.0, x.1.now)) }
    ensures error { IfErr result (TellsError
        (inverse_read (part room (source_form source.now)) (source_form source.now) names.now tokens.now)) }
{
    let Some(inside) = after(Sign::Not, tokens) else {
        return compare(alloc, source, names, tokens, room);
    };
    let (condition, rest) = part(alloc, source, names, inside, Grade::Inverse, room)?;
    Ok((inverse_of(alloc, condition)?, rest))
}

/// Reads the rest of a choice, whose first term is read.
#[cycle(terms)]
fn choice<'a>(
    alloc: Global,
    source: &Source,
    names: &[Entry],
    first: Term,
    tokens: &'a [Token],
    room: u32,
) -> Result<(Term, &'a [Token]), ReadRuleError>
    ensures read { IfOk result (λ x. choice_read (part room (source_form source.now)) (source_form source.now)
        names.now (term_form first) tokens.now
        ≡ Ok (term_form x.0, x.1.now)) }
    ensures error { IfErr result (TellsError
        (choice_read (part room (source_form source.now)) (source_form source.now) names.now (term_form first)
        tokens.now)) }
{
    let (test, rest) = chain(alloc, source, names, tokens, Chain::Either, room)?;
    let rest = wanted(Sign::Else, rest)?;
    let (second, rest) = part(alloc, source, names, rest, Grade::Whole, room)?;
    Ok((choice_of(alloc, test, first, second)?, rest))
}

/// Reads the name of a node, a colon and a term, which can use the node.
#[cycle(terms)]
fn item<'a>(
    alloc: Global,
    source: &Source,
    names: &[Entry],
    tokens: &'a [Token],
    room: u32,
) -> Result<(Term, &'a [Token]), ReadRuleError>
    ensures read { IfOk result (λ x. item_read (part room (source_form source.now)) (source_form source.now) names.now
        tokens.now
        ≡ Ok (term_form x.0, x.1.now)) }
    ensures error { IfErr result (TellsError
        (item_read (part room (source_form source.now)) (source_form source.now) names.now tokens.now)) }
{
    let (more, rest) = new_name(alloc, source.text, Maker::Loop, names, tokens)?;
    let rest = wanted(Sign::Colon, rest)?;
    part(alloc, source, &more, rest, Grade::Whole, room)
}

/// Reads what follows `count` or `least`.
#[cycle(terms)]
fn aggregate<'a>(
    alloc: Global,
    source: &Source,
    names: &[Entry],
    tokens: &'a [Token],
    kind: Aggregate,
    room: u32,
) -> Result<(Term, &'a [Token]), ReadRuleError>
    ensures read { IfOk result (λ x. aggregate_read (part room (source_form source.now)) (source_form source.now)
        names.now kind tokens.now
        ≡ Ok (term_form x.0, x.1.now)) }
    ensures error { IfErr result (TellsError
        (aggregate_read (part room (source_form source.now)) (source_form source.now) names.now kind tokens.now)) }
{
    let (condition, rest) = item(alloc, source, names, tokens, room)?;
    Ok((aggregated(alloc, kind, condition)?, rest))
}

/// Reads a constant in square brackets.
#[cycle(terms)]
fn place<'a>(
    alloc: Global,
    source: &Source,
    names: &[Entry],
    tokens: &'a [Token],
    room: u32,
) -> Result<(Term, &'a [Token]), ReadRuleError>
    ensures read { IfOk result (λ x. place_read (part room (source_form source.now)) names.now tokens.now
        ≡ Ok (term_form x.0, x.1.now)) }
    ensures error { IfErr result (TellsError (place_read (part room (source_form source.now)) names.now tokens.now)) }
{
    let inside = wanted(Sign::OpenSquare, tokens)?;
    let (found, rest) = part(alloc, source, names, inside, Grade::Whole, room)?;
    let at = constant_only(found, inside)?;
    let rest = wanted(Sign::CloseSquare, rest)?;
    Ok((at, rest))
}

/// Reads what follows `sorted`.
#[cycle(terms)]
fn sorted<'a>(
    alloc: Global,
    source: &Source,
    names: &[Entry],
    tokens: &'a [Token],
    room: u32,
) -> Result<(Term, &'a [Token]), ReadRuleError>
    ensures read { IfOk result (λ x. sorted_read (part room (source_form source.now)) (source_form source.now) names.now
        tokens.now
        ≡ Ok (term_form x.0, x.1.now)) }
    ensures error { IfErr result (TellsError
        (sorted_read (part room (source_form source.now)) (source_form source.now) names.now tokens.now)) }
{
    let (at, rest) = place(alloc, source, names, tokens, room)?;
    let (numbers, rest) = item(alloc, source, names, rest, room)?;
    Ok((sorted_of(alloc, at, numbers)?, rest))
}

/// Reads a term that doesn't begin with `count` or `least`.
#[cycle(terms)]
fn sorted_or_plain<'a>(
    alloc: Global,
    source: &Source,
    names: &[Entry],
    tokens: &'a [Token],
    room: u32,
) -> Result<(Term, &'a [Token]), ReadRuleError>
    ensures read { IfOk result (λ x. sorted_or_plain (part room (source_form source.now)) (source_form source.now) names.now
        tokens.now
        ≡ Ok (term_form x.0, x.1.now)) }
    ensures error { IfErr result (TellsError
        (sorted_or_plain (part room (source_form source.now)) (source_form source.now) names.now tokens.now)) }
{
    if let Some(inside) = after(Sign::Sorted, tokens) {
        return sorted(alloc, source, names, inside, room);
    }
    let (first, rest) = chain(alloc, source, names, tokens, Chain::Either, room)?;
    match after(Sign::If, rest) {
        Some(behind) => choice(alloc, source, names, first, behind, room),
        None => Ok((first, rest)),
    }
}

#[cycle(terms)]
fn whole<'a>(
    alloc: Global,
    source: &Source,
    names: &[Entry],
    tokens: &'a [Token],
    room: u32,
) -> Result<(Term, &'a [Token]), ReadRuleError>
    ensures read { IfOk result (λ x. whole_read (part room (source_form source.now)) (source_form source.now) names.now
        tokens.now
        ≡ Ok (term_form x.0, x.1.now)) }
    ensures error { IfErr result (TellsError
        (whole_read (part room (source_form source.now)) (source_form source.now) names.now tokens.now)) }
{
    if let Some((kind, inside)) = aggregate_in(source.text, tokens) {
        return aggregate(alloc, source, names, inside, kind, room);
    }
    sorted_or_plain(alloc, source, names, tokens, room)
}

/// Reads a part, with room for this many in one another.
#[cycle(terms)]
fn part<'a>(
    alloc: Global,
    source: &Source,
    names: &[Entry],
    tokens: &'a [Token],
    grade: Grade,
    room: u32,
) -> Result<(Term, &'a [Token]), ReadRuleError>
    ensures read { IfOk result (λ x. part room (source_form source.now) grade names.now tokens.now
        ≡ Ok (term_form x.0, x.1.now)) }
    ensures error { IfErr result (TellsError (part room (source_form source.now) grade names.now tokens.now)) }
{
    if room == 0 {
        return Err(error_in(RuleError::TooDeep, tokens));
    }
    match grade {
        Grade::Whole => whole(alloc, source, names, tokens, room - 1),
        Grade::Inverse => inverse(alloc, source, names, tokens, room - 1),
    }
}

/// Reads a term.
pub fn term<'a>(
    alloc: Global,
    source: &Source,
    names: &[Entry],
    tokens: &'a [Token],
) -> Result<(Term, &'a [Token]), ReadRuleError>
    ensures read { IfOk result (λ x. term_read (source_form source.now) names.now tokens.now
        ≡ Ok (term_form x.0, x.1.now)) }
    ensures error { IfErr result (TellsError (term_read (source_form source.now) names.now tokens.now)) }
{
    part(alloc, source, names, tokens, Grade::Whole, MAX_PARTS)
}
