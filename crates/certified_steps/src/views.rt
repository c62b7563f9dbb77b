//! Formulas of conditions.
ghost use Rattle.std.specs.Prelude.{◌≡◌, pos, ◌+ℤ◌, ◌≤ℤ◌, IfOk};
ghost use Rattle.linear_certificates.specs.Meaning.{linear_value};
ghost use Rattle.linear_certificates.specs.Meaning as linear;
ghost use Rattle.rule_paths.specs.Relations.{Numbers, expression_number};
ghost use Rattle.rule_formulas.specs.Numbers.{expression, integers, Implies};
ghost use Rattle.step_searches.specs.Views as views;
ghost use Rattle.certified_steps.specs.Views.{view};

use crate::errors::Unproved;
use linear_certificates::{Formula, Linear};
use rule_formulas::{
    MAX_VARIABLES, Number, Store, always, both, either, never, with_added, with_taken, word_now,
};
use std::alloc::Global;
use step_searches::{Condition, Quantity, Total};

/// The numbers of a node between pulses: what its words are, and the number that it sent.
#[derive(Clone, Copy)]
pub struct View<'a> {
    pub store: &'a Store<'a>,
    pub sent: Number,
}

/// Returns a word of a node.
fn word_of<'a>(node: &'a View<'a>, k: u32) -> Result<Number, Unproved>
    ensures { IfOk result (λ x. expression x ≡ (view node.now).words k) }
{
    match word_now(node.store, k) {
        Some(x) => Ok(x),
        None => Err(Unproved::TooMany),
    }
}

/// Returns a quantity of two nodes.
fn viewed<'a>(p: &'a View<'a>, q: &'a View<'a>, x: Quantity) -> Result<Number, Unproved>
    ensures { IfOk result (λ n. expression n ≡ views.viewed (view p.now) (view q.now) x) }
{
    match x {
        Quantity::Number(c) => Ok(Number::Constant(u64::from(c))),
        Quantity::Nodes => Ok(Number::Variable(0)),
        Quantity::Faults => Ok(Number::Variable(1)),
        Quantity::Modulus => Ok(Number::Variable(2)),
        Quantity::Free(k) => {
            if k < MAX_VARIABLES {
                Ok(Number::Variable(3 + k))
            } else {
                Err(Unproved::TooMany)
            }
        }
        Quantity::FirstSent => Ok(p.sent),
        Quantity::FirstWord(k) => word_of(p, k),
        Quantity::SecondSent => Ok(q.sent),
        Quantity::SecondWord(k) => word_of(q, k),
    }
}

/// Returns a sum with a total added.
fn added_total<'a>(
    sum: Linear,
    total: &Total,
    p: &'a View<'a>,
    q: &'a View<'a>,
) -> Result<Linear, Unproved>
    ensures { IfOk result (λ l. (v : Numbers) → linear_value (integers v) l
        ≡ linear_value (integers v) sum +ℤ pos (expression_number v (views.summed (view p.now) (view q.now) total.now))) }
{
    match total {
        Total::Zero => Ok(sum),
        Total::Plus(x, rest) => {
            let number = viewed(p, q, *x)?;
            let next = with_added(sum, number)?;
            added_total(next, rest, p, q)
        }
    }
}

/// Returns a sum with a total taken from it.
fn taken_total<'a>(
    sum: Linear,
    total: &Total,
    p: &'a View<'a>,
    q: &'a View<'a>,
) -> Result<Linear, Unproved>
    ensures { IfOk result (λ l. (v : Numbers) → linear_value (integers v) l
        +ℤ pos (expression_number v (views.summed (view p.now) (view q.now) total.now)) ≡ linear_value (integers v) sum) }
{
    match total {
        Total::Zero => Ok(sum),
        Total::Plus(x, rest) => {
            let number = viewed(p, q, *x)?;
            let next = with_taken(sum, number)?;
            taken_total(next, rest, p, q)
        }
    }
}

/// Returns the formula that a total is so much less than another one at least.
fn at_most_total<'a>(
    alloc: Global,
    a: &Total,
    b: &Total,
    less: i128,
    p: &'a View<'a>,
    q: &'a View<'a>,
) -> Result<Formula, Unproved>
    ensures { IfOk result (λ f. (v : Numbers) →
        ((less +ℤ pos (expression_number v (views.summed (view p.now) (view q.now) a.now)))
        ≤ℤ pos (expression_number v (views.summed (view p.now) (view q.now) b.now))) → linear.FormulaHolds (integers v) f) }
{
    let nothing = Linear {
        terms: Vec::new(alloc),
        constant: less,
    };
    let left = added_total(nothing, a, p, q)?;
    Ok(Formula::Atom(taken_total(left, b, p, q)?))
}

/// Returns the formula of a condition.
pub fn stated<'a>(
    alloc: Global,
    c: &Condition,
    p: &'a View<'a>,
    q: &'a View<'a>,
) -> Result<Formula, Unproved>
    ensures { IfOk result (λ f. Implies (views.stated (view p.now) (view q.now) c.now) f) }
{
    match c {
        Condition::Anything => Ok(always(alloc)?),
        Condition::AtMost(a, b) => at_most_total(alloc, a, b, 0, p, q),
        Condition::Both(a, b) => {
            let first = stated(alloc, a, p, q)?;
            let second = stated(alloc, b, p, q)?;
            Ok(both(alloc, first, second)?)
        }
        Condition::Either(a, b) => {
            let first = stated(alloc, a, p, q)?;
            let second = stated(alloc, b, p, q)?;
            Ok(either(alloc, first, second)?)
        }
    }
}

/// Returns the formula that a condition isn't met.
pub fn denied<'a>(
    alloc: Global,
    c: &Condition,
    p: &'a View<'a>,
    q: &'a View<'a>,
) -> Result<Formula, Unproved>
    ensures { IfOk result (λ f. Implies (views.denied (view p.now) (view q.now) c.now) f) }
{
    match c {
        Condition::Anything => Ok(never(alloc)?),
        Condition::AtMost(a, b) => at_most_total(alloc, b, a, 1, p, q),
        Condition::Both(a, b) => {
            let first = denied(alloc, a, p, q)?;
            let second = denied(alloc, b, p, q)?;
            Ok(either(alloc, first, second)?)
        }
        Condition::Either(a, b) => {
            let first = denied(alloc, a, p, q)?;
            let second = denied(alloc, b, p, q)?;
            Ok(both(alloc, first, second)?)
        }
    }
}
