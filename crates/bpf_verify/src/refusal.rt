//! Refusals.

use crate::rule::Rule;

/// Why a program isn't accepted: the first slot whose instruction breaks a rule, and the lowest rule that it breaks; or
/// memory was short.
#[derive(Clone, Copy, Debug, PartialEq, Eq)]
pub enum VerifyError {
    /// The instruction at the slot breaks the rule.
    Refused { slot: u32, rule: Rule },
    /// Memory was short.
    Memory,
}
