//! Terms of properties as conditions on two nodes after a pulse.
ghost use Rattle.std.specs.Prelude.{◌≡◌, ℕ, Bool, IfOk, IfSome, if◌then◌else◌, not};
ghost use Rattle.rule_syntax.specs.declared.syntax.Comparison.TheVariants.{AtMost, Less};
ghost use Rattle.rule_syntax.specs.declared.syntax.Connective.TheVariants.{And, Or};
ghost use Rattle.rule_syntax.specs.declared.syntax.Term.TheVariants.{Local};
ghost use Rattle.rule_meaning.specs.Meaning.{combine, compare};
ghost use Rattle.property_steps.specs.Steps.{IsQuantityOf, SaysIf};
ghost use Rattle.property_steps.specs.inner.Conditions.{ComparesQuantities, ComparesTerms, IsSumOf, Joins};

use rule_syntax::{Comparison, Connective, Operator, Term};
use std::alloc::{AllocError, Global};
use step_searches::{Condition, Quantity, Total};

/// The locals of a term that are no words: the numbers of the two nodes.
const NODE_NUMBERS: u32 = 2;

/// The names of a word: of each node after the pulse, and before it.
const NAMES_OF_A_WORD: u32 = 4;

/// Returns the word after the pulse that a local of a term is.
fn word_of(local: u32) -> Option<Quantity>
    ensures { IfSome result (IsQuantityOf (Local local)) }
{
    if local < NODE_NUMBERS {
        return None;
    }
    let place = local - NODE_NUMBERS;
    let word = place / NAMES_OF_A_WORD;
    match place % NAMES_OF_A_WORD {
        0 => Some(Quantity::FirstWord(word)),
        2 => Some(Quantity::SecondWord(word)),
        _ => None,
    }
}

/// Returns the quantity that a term is.
fn quantity_of(term: &Term) -> Option<Quantity>
    ensures { IfSome result (IsQuantityOf term.now) }
{
    match term {
        Term::Number(number) => Some(Quantity::Number(*number)),
        Term::Nodes => Some(Quantity::Nodes),
        Term::Faults => Some(Quantity::Faults),
        Term::Modulus => Some(Quantity::Modulus),
        Term::Local(local) => word_of(*local),
        _ => None,
    }
}

/// Returns a quantity as a sum.
fn alone(alloc: Global, x: Quantity) -> Result<Total, AllocError>
    ensures { IfOk result (IsSumOf x 0) }
{
    Ok(Total::Plus(x, Box::new(alloc, Total::Zero)?))
}

/// Returns a sum of a quantity and 1.
fn one_more(alloc: Global, x: Quantity) -> Result<Total, AllocError>
    ensures { IfOk result (IsSumOf x 1) }
{
    let rest = alone(alloc, x)?;
    Ok(Total::Plus(Quantity::Number(1), Box::new(alloc, rest)?))
}

/// Returns the condition that a quantity is at most another one.
fn at_most(alloc: Global, x: Quantity, y: Quantity) -> Result<Condition, AllocError>
    ensures { IfOk result (ComparesQuantities AtMost x y) }
{
    Ok(Condition::AtMost(alone(alloc, x)?, alone(alloc, y)?))
}

/// Returns the condition that a quantity is less than another one.
fn less(alloc: Global, x: Quantity, y: Quantity) -> Result<Condition, AllocError>
    ensures { IfOk result (ComparesQuantities Less x y) }
{
    Ok(Condition::AtMost(one_more(alloc, x)?, alone(alloc, y)?))
}

/// Returns the condition that two conditions hold.
fn both(alloc: Global, a: Condition, b: Condition) -> Result<Condition, AllocError>
    ensures { IfOk result (Joins And a b) }
{
    Ok(Condition::Both(Box::new(alloc, a)?, Box::new(alloc, b)?))
}

/// Returns the condition that one of two conditions holds.
fn either(alloc: Global, a: Condition, b: Condition) -> Result<Condition, AllocError>
    ensures { IfOk result (Joins Or a b) }
{
    Ok(Condition::Either(Box::new(alloc, a)?, Box::new(alloc, b)?))
}

/// Returns the condition that two quantities compare so.
fn compared(
    alloc: Global,
    comparison: Comparison,
    x: Quantity,
    y: Quantity,
) -> Result<Condition, AllocError>
    ensures { IfOk result (ComparesQuantities comparison x y) }
{
    match comparison {
        Comparison::Equal => {
            let low = at_most(alloc, x, y)?;
            let high = at_most(alloc, y, x)?;
            both(alloc, low, high)
        }
        Comparison::NotEqual => {
            let low = less(alloc, x, y)?;
            let high = less(alloc, y, x)?;
            either(alloc, low, high)
        }
        Comparison::Less => less(alloc, x, y),
        Comparison::AtMost => at_most(alloc, x, y),
        Comparison::Greater => less(alloc, y, x),
        Comparison::AtLeast => at_most(alloc, y, x),
    }
}

/// Returns the comparison that holds if this one doesn't.
fn opposite(comparison: Comparison) -> Comparison
    ensures { (a b : ℕ) → compare result a b ≡ not (compare comparison a b) }
{
    match comparison {
        Comparison::Equal => Comparison::NotEqual,
        Comparison::NotEqual => Comparison::Equal,
        Comparison::Less => Comparison::AtLeast,
        Comparison::AtMost => Comparison::Greater,
        Comparison::Greater => Comparison::AtMost,
        Comparison::AtLeast => Comparison::Less,
    }
}

/// Returns the comparison that holds of two numbers if this one does, or if it doesn't.
fn comparison_if(holds: bool, comparison: Comparison) -> Comparison
    ensures { (a b : ℕ) → compare result a b ≡ (if holds then compare comparison a b else not (compare comparison a b)) }
{
    if holds {
        comparison
    } else {
        opposite(comparison)
    }
}

/// Returns the condition that two terms compare so, or that they don't, if they are quantities.
fn comparison_of(
    alloc: Global,
    holds: bool,
    comparison: Comparison,
    a: &Term,
    b: &Term,
) -> Result<Option<Condition>, AllocError>
    ensures { IfOk result (λ found. IfSome found (ComparesTerms holds comparison a.now b.now)) }
{
    let (Some(x), Some(y)) = (quantity_of(a), quantity_of(b)) else {
        return Ok(None);
    };
    let comparison = comparison_if(holds, comparison);
    Ok(Some(compared(alloc, comparison, x, y)?))
}

/// Returns the condition that a term that is a quantity isn't 0, or that it is.
fn test_of(alloc: Global, holds: bool, term: &Term) -> Result<Option<Condition>, AllocError>
    ensures { IfOk result (λ found. IfSome found (SaysIf holds term.now)) }
{
    let Some(x) = quantity_of(term) else {
        return Ok(None);
    };
    let comparison = comparison_if(holds, Comparison::NotEqual);
    Ok(Some(compared(alloc, comparison, x, Quantity::Number(0))?))
}

/// Returns the condition that both conditions hold, or that one of them does.
fn joined(
    alloc: Global,
    connective: Connective,
    a: Condition,
    b: Condition,
) -> Result<Condition, AllocError>
    ensures { IfOk result (Joins connective a b) }
{
    match connective {
        Connective::And => both(alloc, a, b),
        Connective::Or => either(alloc, a, b),
    }
}

/// Returns how conditions are joined if those that they are joined from hold, or if they don't.
fn connective_if(holds: bool, connective: Connective) -> Connective
    ensures { (a b : Bool) → combine result (if holds then a else not a) (if holds then b else not b)
        ≡ (if holds then combine connective a b else not (combine connective a b)) }
{
    match connective {
        Connective::And if holds => Connective::And,
        Connective::And => Connective::Or,
        Connective::Or if holds => Connective::Or,
        Connective::Or => Connective::And,
    }
}

/// Returns the condition that a term holds, or that it doesn't, of two nodes after a pulse. None if the term isn't made
/// of comparisons of words, sizes and numbers alone.
pub(crate) fn condition_if(
    alloc: Global,
    holds: bool,
    term: &Term,
) -> Result<Option<Condition>, AllocError>
    ensures { IfOk result (λ found. IfSome found (SaysIf holds term.now)) }
{
    match term {
        Term::Not(part) => condition_if(alloc, !holds, part),
        Term::Logical(connective, a, b) => {
            let Some(first) = condition_if(alloc, holds, a)? else {
                return Ok(None);
            };
            let Some(second) = condition_if(alloc, holds, b)? else {
                return Ok(None);
            };
            let connective = connective_if(holds, *connective);
            Ok(Some(joined(alloc, connective, first, second)?))
        }
        Term::Binary(Operator::Compare(comparison), a, b) => {
            comparison_of(alloc, holds, *comparison, a, b)
        }
        _ => test_of(alloc, holds, term),
    }
}
