//! Sums of multiples.

ghost use Rattle.std.specs.Prelude.{◌≡◌, ℤ, pos, ◌+ℤ◌, ◌*ℤ◌, IfOk, IfSome, OnOk};
ghost use Rattle.linear_certificates.specs.Meaning.{Assignment, terms_value, linear_value};

use crate::data::{Linear, Refusal, Term};
use std::alloc::Global;

/// Returns the sum of two numbers.
fn plus(a: i128, b: i128) -> Result<i128, Refusal>
    ensures { IfOk result (λ c. c ≡ a +ℤ b) }
{
    match a.checked_add(b) {
        Some(c) => Ok(c),
        None => Err(Refusal::Overflow),
    }
}

/// Returns so many times a number.
fn times_of(times: u64, a: i128) -> Result<i128, Refusal>
    ensures { IfOk result (λ c. c ≡ pos times *ℤ a) }
{
    match i128::from(times).checked_mul(a) {
        Some(c) => Ok(c),
        None => Err(Refusal::Overflow),
    }
}

/// Adds a variable, so many times.
fn add_term(sum: &mut Vec<Term>, variable: u32, amount: i128) -> Result<(), Refusal>
    ensures { OnOk result ((v : Assignment) → terms_value v sum.new.items ≡ terms_value v sum.old.items +ℤ amount *ℤ v variable) }
{
    for i in 0..sum.len() {
        if sum[i].variable == variable {
            sum[i].coefficient = plus(sum[i].coefficient, amount)?;
            return Ok(());
        }
    }
    sum.push(Term {
        variable,
        coefficient: amount,
    })?;
    Ok(())
}

/// Adds so many times a sum to another one.
pub fn add_multiple(sum: &mut Linear, times: u64, added: &Linear) -> Result<(), Refusal>
    ensures { OnOk result ((v : Assignment) → linear_value v sum.new ≡ linear_value v sum.old +ℤ pos times *ℤ linear_value v added.now) }
{
    for term in &added.terms {
        let amount = times_of(times, term.coefficient)?;
        add_term(&mut sum.terms, term.variable, amount)?;
    }
    let amount = times_of(times, added.constant)?;
    sum.constant = plus(sum.constant, amount)?;
    Ok(())
}

/// Returns the constant that a sum is, if its terms are all 0.
pub fn constant_of(sum: &Linear) -> Option<i128>
    ensures { IfSome result (λ c. (v : Assignment) → linear_value v sum.now ≡ c) }
{
    for term in &sum.terms {
        if term.coefficient != 0 {
            return None;
        }
    }
    Some(sum.constant)
}

/// Returns the empty sum.
pub fn zero(alloc: Global) -> Linear
    ensures { (v : Assignment) → linear_value v result ≡ pos 0 }
{
    Linear {
        terms: Vec::new(alloc),
        constant: 0,
    }
}
