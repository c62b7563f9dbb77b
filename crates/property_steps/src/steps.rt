//! The step that a property is.
ghost use Rattle.std.specs.Prelude.{IfOk, IfSome, IsTrue};
ghost use Rattle.property_steps.specs.Steps.{IsOfSizes, IsPropertyStep};
ghost use Rattle.property_steps.specs.inner.Conditions.{IsQuantityOfSizes, IsTotalOfSizes};

use crate::conditions::condition_if;
use properties::PairTerm;
use std::alloc::{AllocError, Global};
use step_searches::{Coins, Condition, Quantity, Step, Total};

/// Returns true only if a quantity is one of sizes, or a number.
fn is_quantity_of_sizes(x: Quantity) -> bool
    ensures { IsTrue result → IsQuantityOfSizes x }
{
    match x {
        Quantity::Number(_) | Quantity::Free(_) => true,
        Quantity::Nodes | Quantity::Faults | Quantity::Modulus => true,
        Quantity::FirstSent | Quantity::SecondSent => false,
        Quantity::FirstWord(_) | Quantity::SecondWord(_) => false,
    }
}

/// Returns true only if a sum has quantities of sizes alone.
fn is_total_of_sizes(sum: &Total) -> bool
    ensures { IsTrue result → IsTotalOfSizes sum.now }
{
    match sum {
        Total::Zero => true,
        Total::Plus(x, rest) => is_quantity_of_sizes(*x) && is_total_of_sizes(rest),
    }
}

/// Returns true only if a condition speaks of sizes alone.
fn is_of_sizes(condition: &Condition) -> bool
    ensures { IsTrue result → IsOfSizes condition.now }
{
    match condition {
        Condition::Anything => true,
        Condition::AtMost(a, b) => is_total_of_sizes(a) && is_total_of_sizes(b),
        Condition::Both(a, b) | Condition::Either(a, b) => is_of_sizes(a) && is_of_sizes(b),
    }
}

/// Returns the step from any state of nodes with so many words, at the sizes that a condition admits, to where the term
/// of a property holds. None if the term isn't made of comparisons of words, sizes and numbers alone, or if the condition
/// speaks of nodes.
pub fn step_of_property(
    alloc: Global,
    words: u32,
    sizes: Condition,
    term: &PairTerm,
) -> Result<Option<Step>, AllocError>
    ensures { IfOk result (λ found. IfSome found (IsPropertyStep term.now.term)) }
{
    if !is_of_sizes(&sizes) {
        return Ok(None);
    }
    let Some(after) = condition_if(alloc, true, &term.term)? else {
        return Ok(None);
    };
    Ok(Some(Step {
        words,
        names: 0,
        coins: Coins::Any,
        before: sizes,
        after,
    }))
}
