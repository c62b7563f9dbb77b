//! The check of a certificate.

ghost use Rattle.std.specs.Prelude.{◌≡◌, ℤ, pos, ◌≤ℤ◌, ◌⊎◌, IfOk, IfSome, IsTrue};
ghost use Rattle.linear_certificates.specs.Meaning.{Assignment, linear_value, FormulaHolds, HasNoSolution};
ghost use Rattle.linear_certificates.specs.Facts.{AllHold};

use crate::data::{Certificate, Formula, Linear, Multiple, Refusal};
use crate::known::{Known, fact_at};
use crate::sums::{add_multiple, constant_of, zero};
use std::alloc::Global;

/// The depth to which a certificate is read.
pub const MAX_DEPTH: u32 = 300;

/// Adds multiples of known atoms, if each of them is one.
fn sum_of<'a>(
    alloc: Global,
    known: &'a Known<'a>,
    multiples: &[Multiple],
) -> Result<Option<Linear>, Refusal>
    ensures { IfOk result (λ o. IfSome o (λ s. (v : Assignment) → AllHold v known.now → linear_value v s ≤ℤ pos 0)) }
{
    let mut sum = zero(alloc);
    for multiple in multiples {
        match fact_at(known, multiple.fact) {
            Some(Formula::Atom(added)) => add_multiple(&mut sum, multiple.times, added)?,
            _ => return Ok(None),
        }
    }
    Ok(Some(sum))
}

/// Returns true if multiples of known atoms add up to a constant above 0.
fn is_absurd<'a>(
    alloc: Global,
    known: &'a Known<'a>,
    multiples: &[Multiple],
) -> Result<bool, Refusal>
    ensures { IfOk result (λ yes. IsTrue yes → (v : Assignment) → AllHold v known.now → ⊥) }
{
    match sum_of(alloc, known, multiples)? {
        Some(sum) => match constant_of(&sum) {
            Some(c) => Ok(c > 0),
            None => Ok(false),
        },
        None => Ok(false),
    }
}

/// Returns true if the two sums add up to a constant of at most 1, so that one of them is at most 0.
fn covers(alloc: Global, a: &Linear, b: &Linear) -> Result<bool, Refusal>
    ensures { IfOk result (λ yes. IsTrue yes → (v : Assignment) → (linear_value v a.now ≤ℤ pos 0) ⊎ (linear_value v b.now ≤ℤ pos 0)) }
{
    let mut sum = zero(alloc);
    add_multiple(&mut sum, 1, a)?;
    add_multiple(&mut sum, 1, b)?;
    match constant_of(&sum) {
        Some(c) => Ok(c <= 1),
        None => Ok(false),
    }
}

/// Returns true if a certificate shows that not all of the known facts hold.
#[cycle(checks)]
fn closes<'a>(
    alloc: Global,
    known: &'a Known<'a>,
    certificate: &'a Certificate,
    depth: u32,
) -> Result<bool, Refusal>
    ensures { IfOk result (λ yes. IsTrue yes → (v : Assignment) → AllHold v known.now → ⊥) }
{
    if depth == 0 {
        return Err(Refusal::TooDeep);
    }
    match certificate {
        Certificate::Sum(multiples) => is_absurd(alloc, known, multiples),
        Certificate::Open(which, rest) => match fact_at(known, *which) {
            Some(Formula::Both(a, b)) => {
                let first = Known::Fact(a, known);
                let both = Known::Fact(b, &first);
                closes(alloc, &both, rest, depth - 1)
            }
            _ => Ok(false),
        },
        Certificate::Split(which, left, right) => match fact_at(known, *which) {
            Some(Formula::Either(a, b)) => neither(alloc, known, a, left, b, right, depth - 1),
            _ => Ok(false),
        },
        Certificate::Cut(low, high, left, right) => match (low, high) {
            (Formula::Atom(a), Formula::Atom(b)) => {
                if covers(alloc, a, b)? {
                    neither(alloc, known, low, left, high, right, depth - 1)
                } else {
                    Ok(false)
                }
            }
            _ => Ok(false),
        },
    }
}

/// Returns true if certificates show that neither of two formulas holds beside the known facts.
#[cycle(checks)]
fn neither<'a>(
    alloc: Global,
    known: &'a Known<'a>,
    a: &'a Formula,
    left: &'a Certificate,
    b: &'a Formula,
    right: &'a Certificate,
    depth: u32,
) -> Result<bool, Refusal>
    ensures { IfOk result (λ yes. IsTrue yes → (v : Assignment) → AllHold v known.now → FormulaHolds v a.now ⊎ FormulaHolds v b.now → ⊥) }
{
    let with_a = Known::Fact(a, known);
    let with_b = Known::Fact(b, known);
    if closes(alloc, &with_a, left, depth)? {
        closes(alloc, &with_b, right, depth)
    } else {
        Ok(false)
    }
}

/// Returns true if a certificate shows that no integers make all of the known facts hold. A false says nothing of them.
pub fn contradicts<'a>(
    alloc: Global,
    known: &'a Known<'a>,
    certificate: &'a Certificate,
) -> Result<bool, Refusal>
    ensures { IfOk result (λ yes. IsTrue yes → (v : Assignment) → AllHold v known.now → ⊥) }
{
    closes(alloc, known, certificate, MAX_DEPTH)
}

/// Returns true if a certificate shows that no integers make a formula hold. A false says nothing of the formula.
pub fn refutes(alloc: Global, formula: &Formula, certificate: &Certificate) -> Result<bool, Refusal>
    ensures { IfOk result (λ yes. IsTrue yes → HasNoSolution formula.now) }
{
    let nothing = Known::Nothing;
    let known = Known::Fact(formula, &nothing);
    closes(alloc, &known, certificate, MAX_DEPTH)
}
