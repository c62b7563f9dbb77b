//! Aggregates over the nodes: `count`, `least` and `sorted`.
ghost use Rattle.std.specs.Prelude.{◌≡◌, IfOk, IfErr, Ok, Err, Some, None, MatchOption};
ghost use Rattle.rule_text.specs.Forms.{term_form, is_constant_form, count, least, sorted};
ghost use Rattle.rule_text.specs.Terms.{is_least, begins_with_name, after_least, aggregate_in, aggregated};
ghost use Rattle.rule_text.specs.Terms.{constant_only};

use crate::errors::{ReadRuleError, RuleError};
use crate::joints::after;
use crate::layout::is_named;
use crate::lexemes::{Kind, Token};
use crate::scope::{error_in, letters_of};
use crate::signs::Sign;
use rule_syntax::Term;
use std::alloc::{AllocError, Global};

/// What a term makes of the nodes for which a condition holds: their number, or the least message from one.
#[derive(Clone, Copy)]
pub enum Aggregate {
    Count,
    Least,
}

/// Returns true for a name with the letters of `least`, which is no reserved word.
fn is_least(text: &[u8], kind: Kind) -> bool
    ensures { result ≡ is_least text.now kind }
{
    match kind {
        Kind::Named(name) => letters_of(text, name) == "least".as_bytes(),
        _ => false,
    }
}

fn begins_with_name(tokens: &[Token]) -> bool
    ensures { result ≡ begins_with_name tokens.now }
{
    match tokens {
        [first, ..] => is_named(first.kind),
        [] => false,
    }
}

/// Returns the tokens after the word `least`: it is one if it is the first token, and the second is a name.
fn after_least<'a>(text: &[u8], tokens: &'a [Token]) -> Option<&'a [Token]>
    ensures { MatchOption result (after_least text.now tokens.now ≡ None)
        (λ rest. after_least text.now tokens.now ≡ Some rest.now) }
{
    let (first, rest) = tokens.split_first()?;
    if is_least(text, first.kind) && begins_with_name(rest) {
        Some(rest)
    } else {
        None
    }
}

/// Returns the aggregate that begins here, and the tokens after its word.
pub fn aggregate_in<'a>(text: &[u8], tokens: &'a [Token]) -> Option<(Aggregate, &'a [Token])>
    ensures { MatchOption result (aggregate_in text.now tokens.now ≡ None)
        (λ x. aggregate_in text.now tokens.now ≡ Some (x.0, x.1.now)) }
{
    if let Some(rest) = after(Sign::Count, tokens) {
        return Some((Aggregate::Count, rest));
    }
    match after_least(text, tokens) {
        Some(rest) => Some((Aggregate::Least, rest)),
        None => None,
    }
}

fn count_of(alloc: Global, a: Term) -> Result<Term, AllocError>
    ensures { IfOk result (λ t. term_form t ≡ count (term_form a)) }
{
    let condition = Box::new(alloc, a)?;
    Ok(Term::Count(condition))
}

fn least_of(alloc: Global, a: Term) -> Result<Term, AllocError>
    ensures { IfOk result (λ t. term_form t ≡ least (term_form a)) }
{
    let condition = Box::new(alloc, a)?;
    Ok(Term::Least(condition))
}

/// Returns the aggregate with this condition.
pub fn aggregated(alloc: Global, aggregate: Aggregate, a: Term) -> Result<Term, AllocError>
    ensures { IfOk result (λ t. term_form t ≡ aggregated aggregate (term_form a)) }
{
    match aggregate {
        Aggregate::Count => count_of(alloc, a),
        Aggregate::Least => least_of(alloc, a),
    }
}

/// Returns true for a constant: a number, a size, the node of a loop, or computed of constants.
fn is_constant(term: &Term) -> bool
    ensures { result ≡ is_constant_form (term_form term.now) }
{
    match term {
        Term::Number(_) | Term::Nodes | Term::Faults | Term::Modulus | Term::LoopNode(_) => true,
        Term::Binary(_, a, b) => is_constant(a) && is_constant(b),
        _ => false,
    }
}

/// Returns a term that has to be a constant, and begins with these tokens.
pub fn constant_only(term: Term, tokens: &[Token]) -> Result<Term, ReadRuleError>
    ensures read { IfOk result (λ k. constant_only (term_form term) tokens.now ≡ Ok (term_form k)) }
    ensures error { IfErr result (λ e. constant_only (term_form term) tokens.now ≡ Err e) }
{
    if is_constant(&term) {
        Ok(term)
    } else {
        Err(error_in(RuleError::Expected, tokens))
    }
}

/// Returns the term for the number at a place among those of an item.
pub fn sorted_of(alloc: Global, place: Term, item: Term) -> Result<Term, AllocError>
    ensures { IfOk result (λ t. term_form t ≡ sorted (term_form place) (term_form item)) }
{
    let at = Box::new(alloc, place)?;
    let numbers = Box::new(alloc, item)?;
    Ok(Term::Sorted(at, numbers))
}
