//! Why a proof of a step isn't judged.

use linear_certificates::Refusal;
use rule_formulas::Unformed;
use std::alloc::{AllocError, AllocFailed};
use step_searches::Uncovered;

/// Why a proof of a step isn't judged.
#[derive(Clone, Copy, Debug, PartialEq, Eq)]
pub enum Unproved {
    Memory,
    /// The rule or the step isn't covered.
    Uncovered(Uncovered),
    /// The rule sends no number on some path.
    Silent,
    /// There are too many variables.
    TooMany,
    /// The rule or a certificate is deeper than the bound.
    TooDeep,
    /// A number of a certificate is out of range.
    Overflow,
}

impl From<AllocError> for Unproved {
    fn from(_e: AllocError) -> Unproved {
        Unproved::Memory
    }
}

impl<T: Drop> From<AllocFailed<T>> for Unproved {
    fn from(_e: AllocFailed<T>) -> Unproved {
        Unproved::Memory
    }
}

impl From<Uncovered> for Unproved {
    fn from(e: Uncovered) -> Unproved {
        Unproved::Uncovered(e)
    }
}

impl From<Unformed> for Unproved {
    fn from(e: Unformed) -> Unproved {
        match e {
            Unformed::Memory => Unproved::Memory,
            Unformed::TooMany => Unproved::TooMany,
        }
    }
}

impl From<Refusal> for Unproved {
    fn from(e: Refusal) -> Unproved {
        match e {
            Refusal::Memory => Unproved::Memory,
            Refusal::Overflow => Unproved::Overflow,
            Refusal::TooDeep => Unproved::TooDeep,
        }
    }
}
