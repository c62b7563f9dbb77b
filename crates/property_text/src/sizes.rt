//! Lines `assume T`: the sizes of a bench that are meant.

use claim_tokens::ClaimError;
use rule_syntax::{Comparison, Connective, Operation, Operator, Sizes, Term};

/// Returns what an operation makes of two whole numbers, if claims for all sizes have it.
fn computed(operation: Operation, a: i64, b: i64) -> Result<i64, ClaimError> {
    let made = match operation {
        Operation::Sum => a.checked_add(b),
        Operation::Difference => a.checked_sub(b),
        Operation::Product => a.checked_mul(b),
        Operation::Quotient | Operation::Remainder => return Err(ClaimError::NotCovered),
    };
    made.ok_or(ClaimError::OutOfRange)
}

/// Returns true if two whole numbers compare so.
fn compares(comparison: Comparison, a: i64, b: i64) -> bool {
    match comparison {
        Comparison::Equal => a == b,
        Comparison::NotEqual => a != b,
        Comparison::Less => a < b,
        Comparison::AtMost => a <= b,
        Comparison::Greater => b < a,
        Comparison::AtLeast => b <= a,
    }
}

/// Returns the whole number that a term of sizes is.
fn whole_number(term: &Term, sizes: Sizes) -> Result<i64, ClaimError> {
    match term {
        Term::Number(number) => Ok(i64::from(*number)),
        Term::Nodes => Ok(i64::from(sizes.nodes)),
        Term::Faults => Ok(i64::from(sizes.faults)),
        Term::Modulus => Ok(i64::from(sizes.modulus)),
        Term::Binary(Operator::Compute(operation), a, b) => {
            let left = whole_number(a, sizes)?;
            computed(*operation, left, whole_number(b, sizes)?)
        }
        Term::Binary(Operator::Compare(comparison), a, b) => {
            let left = whole_number(a, sizes)?;
            let right = whole_number(b, sizes)?;
            Ok(i64::from(compares(*comparison, left, right)))
        }
        Term::Logical(connective, a, b) => {
            let first = whole_number(a, sizes)? != 0;
            let second = whole_number(b, sizes)? != 0;
            Ok(i64::from(match connective {
                Connective::And => first && second,
                Connective::Or => first || second,
            }))
        }
        Term::Not(part) => Ok(i64::from(whole_number(part, sizes)? == 0)),
        _ => Err(ClaimError::NotCovered),
    }
}

/// Returns true if a term holds of sizes: every number but 0 does.
pub(crate) fn holds_of(term: &Term, sizes: Sizes) -> Result<bool, ClaimError> {
    Ok(whole_number(term, sizes)? != 0)
}
