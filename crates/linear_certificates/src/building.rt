//! Formulas of several parts.

ghost use Rattle.std.specs.Prelude.{pos, ◌+ℤ◌, ◌≤ℤ◌, IfOk};
ghost use Rattle.linear_certificates.specs.Meaning.{Assignment, terms_value, FormulaHolds};
ghost use Rattle.linear_certificates.specs.Parts.{AllOf, AnyOf};

use crate::data::{Formula, Linear, Term};
use std::alloc::{AllocError, Global};

/// Returns the atom that a constant is at most 0.
fn constant(alloc: Global, constant: i128) -> Formula
    ensures { (v : Assignment) → constant ≤ℤ pos 0 → FormulaHolds v result }
{
    Formula::Atom(Linear {
        terms: Vec::new(alloc),
        constant,
    })
}

/// Returns the atom that a sum of terms and a constant is at most 0.
pub fn at_most_0(alloc: Global, terms: &[Term], constant: i128) -> Result<Formula, AllocError>
    ensures { IfOk result (λ f. (v : Assignment) → (terms_value v terms.now +ℤ constant) ≤ℤ pos 0 → FormulaHolds v f) }
{
    let terms = Vec::from_slice(alloc, terms)?;
    Ok(Formula::Atom(Linear { terms, constant }))
}

/// Returns a formula that holds where all parts do. The first part is outermost.
pub fn all_of(alloc: Global, mut parts: Vec<Formula>) -> Result<Formula, AllocError>
    ensures { IfOk result (λ f. (v : Assignment) → AllOf v parts.items → FormulaHolds v f) }
{
    let Some(mut joined) = parts.pop() else {
        return Ok(constant(alloc, 0));
    };
    while let Some(part) = parts.pop() {
        joined = Formula::Both(Box::new(alloc, part)?, Box::new(alloc, joined)?);
    }
    Ok(joined)
}

/// Returns a formula that holds where some part does. The first part is outermost.
pub fn any_of(alloc: Global, mut parts: Vec<Formula>) -> Result<Formula, AllocError>
    ensures { IfOk result (λ f. (v : Assignment) → AnyOf v parts.items → FormulaHolds v f) }
{
    let Some(mut joined) = parts.pop() else {
        return Ok(constant(alloc, 1));
    };
    while let Some(part) = parts.pop() {
        joined = Formula::Either(Box::new(alloc, part)?, Box::new(alloc, joined)?);
    }
    Ok(joined)
}
