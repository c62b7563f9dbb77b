//! Sums of numbers as formulas.
ghost use Rattle.std.specs.Prelude.{◌≡◌, ℕ, ◌+◌, ◌^◌, ℤ, pos, ◌+ℤ◌, ◌*ℤ◌, ◌≤ℤ◌, IfOk};
ghost use Rattle.linear_certificates.specs.Meaning.{linear_value};
ghost use Rattle.rule_paths.specs.Relations.{Numbers, expression_number, IsAtMost};
ghost use Rattle.rule_formulas.specs.Numbers.{expression, sum_expression, integers, Implies};

use linear_certificates::{Formula, Linear, Term, at_most_0};
use std::alloc::{AllocError, AllocFailed, Global};

/// A number that is known, or a variable.
#[derive(Clone, Copy, Debug, PartialEq, Eq)]
pub enum Number {
    Constant(u64),
    Variable(u32),
}

/// A number, or the sum of two.
#[derive(Clone, Copy, Debug, PartialEq, Eq)]
pub enum Sum {
    Only(Number),
    Two(Number, Number),
}

/// Why there is no formula.
#[derive(Clone, Copy, Debug, PartialEq, Eq)]
pub enum Unformed {
    Memory,
    /// There are more variables than `MAX_VARIABLES`.
    TooMany,
}

impl From<AllocError> for Unformed {
    fn from(_e: AllocError) -> Unformed {
        Unformed::Memory
    }
}

impl<T: Drop> From<AllocFailed<T>> for Unformed {
    fn from(_e: AllocFailed<T>) -> Unformed {
        Unformed::Memory
    }
}

/// The variables are below this number.
pub const MAX_VARIABLES: u32 = 1_000_000_000;

/// A term and a constant.
#[derive(Clone, Copy)]
struct Part {
    term: Term,
    constant: i128,
}

/// Two terms and a constant.
#[derive(Clone, Copy)]
struct Parts {
    first: Term,
    second: Term,
    constant: i128,
}

/// Returns a number as a part of a sum.
fn added(number: Number) -> Part
    ensures says { (v : Numbers) →
        result.term.coefficient *ℤ integers v result.term.variable +ℤ result.constant
        ≡ pos (expression_number v (expression number)) }
    ensures low { pos 0 ≤ℤ result.constant }
    ensures high { result.constant ≤ℤ pos (2 ^ 64) }
{
    match number {
        Number::Constant(c) => Part {
            term: Term {
                variable: 0,
                coefficient: 0,
            },
            constant: i128::from(c),
        },
        Number::Variable(variable) => Part {
            term: Term {
                variable,
                coefficient: 1,
            },
            constant: 0,
        },
    }
}

/// Returns a number as a part that is taken from a sum.
fn taken(number: Number) -> Part
    ensures says { (v : Numbers) →
        (result.term.coefficient *ℤ integers v result.term.variable +ℤ result.constant)
        +ℤ pos (expression_number v (expression number)) ≡ pos 0 }
    ensures low { pos 0 ≤ℤ (result.constant +ℤ pos (2 ^ 64)) }
    ensures high { result.constant ≤ℤ pos 0 }
{
    match number {
        Number::Constant(c) => Part {
            term: Term {
                variable: 0,
                coefficient: 0,
            },
            constant: 0 - i128::from(c),
        },
        Number::Variable(variable) => Part {
            term: Term {
                variable,
                coefficient: -1,
            },
            constant: 0,
        },
    }
}

/// Returns the sum of two parts.
fn joined(a: Part, b: Part) -> Parts
    requires low { (pos 0 ≤ℤ (a.constant +ℤ pos (2 ^ 64))) × (pos 0 ≤ℤ (b.constant +ℤ pos (2 ^ 64))) }
    requires high { (a.constant ≤ℤ pos (2 ^ 64)) × (b.constant ≤ℤ pos (2 ^ 64)) }
    ensures first { result.first ≡ a.term }
    ensures second { result.second ≡ b.term }
    ensures constant { result.constant ≡ a.constant +ℤ b.constant }
    ensures low { pos 0 ≤ℤ (result.constant +ℤ pos (2 ^ 65)) }
    ensures high { result.constant ≤ℤ pos (2 ^ 65) }
{
    Parts {
        first: a.term,
        second: b.term,
        constant: a.constant + b.constant,
    }
}

/// Returns the two numbers of a sum.
fn two_of(sum: Sum) -> (Number, Number)
    ensures { (v : Numbers) → expression_number v (sum_expression sum)
        ≡ expression_number v (expression result.0) + expression_number v (expression result.1) }
{
    match sum {
        Sum::Only(a) => (a, Number::Constant(0)),
        Sum::Two(a, b) => (a, b),
    }
}

/// Returns a sum.
fn sum_of(sum: Sum) -> Parts
    ensures says { (v : Numbers) →
        (result.first.coefficient *ℤ integers v result.first.variable
        +ℤ result.second.coefficient *ℤ integers v result.second.variable) +ℤ result.constant
        ≡ pos (expression_number v (sum_expression sum)) }
    ensures low { pos 0 ≤ℤ (result.constant +ℤ pos (2 ^ 65)) }
    ensures high { result.constant ≤ℤ pos (2 ^ 65) }
{
    let (a, b) = two_of(sum);
    joined(added(a), added(b))
}

/// Returns what is taken by a sum.
fn taken_sum_of(sum: Sum) -> Parts
    ensures says { (v : Numbers) →
        ((result.first.coefficient *ℤ integers v result.first.variable
        +ℤ result.second.coefficient *ℤ integers v result.second.variable) +ℤ result.constant)
        +ℤ pos (expression_number v (sum_expression sum)) ≡ pos 0 }
    ensures low { pos 0 ≤ℤ (result.constant +ℤ pos (2 ^ 65)) }
    ensures high { result.constant ≤ℤ pos (2 ^ 65) }
{
    let (a, b) = two_of(sum);
    joined(taken(a), taken(b))
}

/// Returns the sum of two constants.
fn constant_of(a: i128, b: i128) -> i128
    requires low { (pos 0 ≤ℤ (a +ℤ pos (2 ^ 65))) × (pos 0 ≤ℤ (b +ℤ pos (2 ^ 65))) }
    requires high { (a ≤ℤ pos (2 ^ 65)) × (b ≤ℤ pos (2 ^ 65)) }
    ensures { result ≡ a +ℤ b }
{
    a + b
}

/// Returns the formula that a sum is at most another one.
pub fn at_most(alloc: Global, a: Sum, b: Sum) -> Result<Formula, Unformed>
    ensures { IfOk result (λ f. Implies (IsAtMost (sum_expression a) (sum_expression b)) f) }
{
    let left = sum_of(a);
    let right = taken_sum_of(b);
    let terms = [left.first, left.second, right.first, right.second];
    let constant = constant_of(left.constant, right.constant);
    Ok(at_most_0(alloc, &terms, constant)?)
}

/// Returns the sum of two numbers.
fn plus(a: i128, b: i128) -> Result<i128, Unformed>
    ensures { IfOk result (λ c. c ≡ a +ℤ b) }
{
    match a.checked_add(b) {
        Some(c) => Ok(c),
        None => Err(Unformed::TooMany),
    }
}

/// Returns a sum with a number added.
pub fn with_added(sum: Linear, number: Number) -> Result<Linear, Unformed>
    ensures { IfOk result (λ l. (v : Numbers) →
        linear_value (integers v) l ≡ linear_value (integers v) sum +ℤ pos (expression_number v (expression number))) }
{
    let Linear {
        mut terms,
        constant,
    } = sum;
    let part = added(number);
    terms.push(part.term)?;
    let constant = plus(constant, part.constant)?;
    Ok(Linear { terms, constant })
}

/// Returns a sum with a number taken from it.
pub fn with_taken(sum: Linear, number: Number) -> Result<Linear, Unformed>
    ensures { IfOk result (λ l. (v : Numbers) →
        linear_value (integers v) l +ℤ pos (expression_number v (expression number)) ≡ linear_value (integers v) sum) }
{
    let Linear {
        mut terms,
        constant,
    } = sum;
    let part = taken(number);
    terms.push(part.term)?;
    let constant = plus(constant, part.constant)?;
    Ok(Linear { terms, constant })
}
