//! Tests of two nodes.

use crate::amounts::{Amount, NoAmount};
use std::alloc::Global;
use step_searches::Condition;

/// How two sums are compared.
#[derive(Clone, Copy)]
pub(crate) enum Comparison {
    Equal,
    NotEqual,
    Less,
    AtMost,
    Greater,
    AtLeast,
}

/// A test: the condition that it holds, and the one that it doesn't.
#[derive(Drop)]
pub(crate) struct Test {
    pub(crate) holds: Condition,
    pub(crate) fails: Condition,
}

/// What a term is: a number or a test.
#[derive(Drop)]
pub(crate) enum Value {
    Number(Amount),
    Truth(Test),
}

/// Returns the condition that two conditions hold.
pub(crate) fn both(alloc: Global, a: Condition, b: Condition) -> Result<Condition, NoAmount> {
    Ok(Condition::Both(Box::new(alloc, a)?, Box::new(alloc, b)?))
}

fn either(alloc: Global, a: Condition, b: Condition) -> Result<Condition, NoAmount> {
    Ok(Condition::Either(Box::new(alloc, a)?, Box::new(alloc, b)?))
}

/// Returns the condition that a sum, with a number added, is at most another one.
pub(crate) fn at_most(
    alloc: Global,
    left: &Amount,
    right: &Amount,
    more: i64,
) -> Result<Condition, NoAmount> {
    let mut difference = Amount::constant(alloc, more);
    difference.add(left, 1)?;
    difference.add(right, -1)?;
    let low = difference.side(alloc, false)?;
    let high = difference.side(alloc, true)?;
    Ok(Condition::AtMost(low, high))
}

fn equal(alloc: Global, left: &Amount, right: &Amount) -> Result<Condition, NoAmount> {
    let low = at_most(alloc, left, right, 0)?;
    let high = at_most(alloc, right, left, 0)?;
    both(alloc, low, high)
}

fn unequal(alloc: Global, left: &Amount, right: &Amount) -> Result<Condition, NoAmount> {
    let low = at_most(alloc, left, right, 1)?;
    let high = at_most(alloc, right, left, 1)?;
    either(alloc, low, high)
}

/// Returns a comparison of two sums.
pub(crate) fn compared(
    alloc: Global,
    comparison: Comparison,
    left: &Amount,
    right: &Amount,
) -> Result<Test, NoAmount> {
    let (holds, fails) = match comparison {
        Comparison::Equal => (equal(alloc, left, right)?, unequal(alloc, left, right)?),
        Comparison::NotEqual => (unequal(alloc, left, right)?, equal(alloc, left, right)?),
        Comparison::Less => (
            at_most(alloc, left, right, 1)?,
            at_most(alloc, right, left, 0)?,
        ),
        Comparison::AtMost => (
            at_most(alloc, left, right, 0)?,
            at_most(alloc, right, left, 1)?,
        ),
        Comparison::Greater => (
            at_most(alloc, right, left, 1)?,
            at_most(alloc, left, right, 0)?,
        ),
        Comparison::AtLeast => (
            at_most(alloc, right, left, 0)?,
            at_most(alloc, left, right, 1)?,
        ),
    };
    Ok(Test { holds, fails })
}

/// Returns the test that both tests hold.
pub(crate) fn and(alloc: Global, a: Test, b: Test) -> Result<Test, NoAmount> {
    Ok(Test {
        holds: both(alloc, a.holds, b.holds)?,
        fails: either(alloc, a.fails, b.fails)?,
    })
}

/// Returns the test that one of two tests holds.
pub(crate) fn or(alloc: Global, a: Test, b: Test) -> Result<Test, NoAmount> {
    Ok(Test {
        holds: either(alloc, a.holds, b.holds)?,
        fails: both(alloc, a.fails, b.fails)?,
    })
}

/// Returns the test that a test doesn't hold.
pub(crate) fn not(test: Test) -> Test {
    let Test { holds, fails } = test;
    Test {
        holds: fails,
        fails: holds,
    }
}

/// Returns a term as a test: a number holds if it isn't 0.
pub(crate) fn as_test(alloc: Global, value: Value) -> Result<Test, NoAmount> {
    match value {
        Value::Truth(test) => Ok(test),
        Value::Number(amount) => {
            let zero = Amount::constant(alloc, 0);
            compared(alloc, Comparison::NotEqual, &amount, &zero)
        }
    }
}
