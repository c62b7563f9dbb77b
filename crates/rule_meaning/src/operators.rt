//! What operators make of two numbers, as in rules.
ghost use Rattle.std.specs.Prelude.{◌≡◌};
ghost use Rattle.rule_meaning.specs.Meaning.{apply, apply_operator, bit_of, combine, compare, truth};

use rule_syntax::{Comparison, Connective, Operation, Operator};

fn apply_of(op: Operation, a: u32, b: u32) -> u32
    ensures { result ≡ apply op a b }
{
    match op {
        Operation::Sum => a.wrapping_add(b),
        Operation::Difference => a.wrapping_sub(b),
        Operation::Product => a.wrapping_mul(b),
        Operation::Quotient => { if b == 0 { 0 } else { a / b } }
        Operation::Remainder => { if b == 0 { a } else { a % b } }
    }
}

fn compare_of(comparison: Comparison, a: u32, b: u32) -> bool
    ensures { result ≡ compare comparison a b }
{
    match comparison {
        Comparison::Equal => a == b,
        Comparison::NotEqual => a != b,
        Comparison::Less => a < b,
        Comparison::AtMost => a <= b,
        Comparison::Greater => a > b,
        Comparison::AtLeast => a >= b,
    }
}

/// Returns 1 if a condition holds, and otherwise 0.
pub fn number_of_bit(holds: bool) -> u32
    ensures { result ≡ bit_of holds }
{
    if holds { 1 } else { 0 }
}

/// Returns what an operator makes of two numbers.
pub fn operate_of(operator: Operator, a: u32, b: u32) -> u32
    ensures { result ≡ apply_operator operator a b }
{
    match operator {
        Operator::Compute(op) => apply_of(op, a, b),
        Operator::Compare(comparison) => number_of_bit(compare_of(comparison, a, b)),
    }
}

/// Returns true if a number holds as a condition.
pub fn truth_of(number: u32) -> bool
    ensures { result ≡ truth number }
{
    number != 0
}

/// Returns two conditions as one.
pub fn combined(connective: Connective, a: bool, b: bool) -> bool
    ensures { result ≡ combine connective a b }
{
    match connective {
        Connective::And => a && b,
        Connective::Or => a || b,
    }
}
