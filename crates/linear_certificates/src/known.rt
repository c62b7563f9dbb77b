//! The facts known at a place of a certificate.

ghost use Rattle.std.specs.Prelude.{IfSome};
ghost use Rattle.linear_certificates.specs.Meaning.{Assignment, FormulaHolds};
ghost use Rattle.linear_certificates.specs.Facts.{AllHold};

use crate::data::Formula;

/// Facts, the latest first.
#[derive(Clone, Copy)]
pub enum Known<'a> {
    Nothing,
    Fact(&'a Formula, &'a Known<'a>),
}

/// Returns a fact, by how many are later.
pub fn fact_at<'a>(known: &'a Known<'a>, which: usize) -> Option<&'a Formula>
    ensures { IfSome result (λ f. (v : Assignment) → AllHold v known.now → FormulaHolds v f.now) }
{
    match known {
        Known::Nothing => None,
        Known::Fact(fact, others) => {
            if which == 0 {
                Some(fact)
            } else {
                fact_at(others, which - 1)
            }
        }
    }
}
