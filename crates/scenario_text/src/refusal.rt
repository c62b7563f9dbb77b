//! Why a text or a table is no scenario.
use bpf_asm::TextError;
use bpf_verify::Rule;
use rule_programs::RuleRefusal;
use std::alloc::AllocError;
use thiserror::Error;

/// Where in a scenario: at the top, or in an entry of an array, from 0 on.
#[derive(Clone, Copy, Debug, PartialEq, Eq)]
pub enum Place {
    Top,
    Load(usize),
    Unload(usize),
    Corrupt(usize),
    Coin(usize),
}

/// Why a text or a table is no scenario, or lack of memory. Of all refusals the first in the order of
/// docs/SCENARIOS.md is told; [`RefusalLine`](crate::RefusalLine) has the line that tells it.
#[derive(Debug, Drop, Error)]
pub enum ScenarioError {
    #[error("the text is too long")]
    TooLong,
    #[error("the text is not TOML")]
    NotToml,
    #[error("unknown key in {place:?}")]
    UnknownKey {
        place: Place,
    },
    #[error("no {key} in {place:?}")]
    MissingKey {
        place: Place,
        key: &'static str,
    },
    #[error("{key} in {place:?} is of another kind")]
    WrongKind {
        place: Place,
        key: &'static str,
    },
    #[error("{key} in {place:?} is out of its range")]
    OutOfRange {
        place: Place,
        key: &'static str,
    },
    #[error("load {load} names no program")]
    UnknownProgram {
        load: usize,
    },
    #[error("the text {key} in {place:?} is refused")]
    BadText {
        place: Place,
        key: &'static str,
        error: TextError,
    },
    #[error("the rule {key} in {place:?} is refused")]
    BadRule {
        place: Place,
        key: &'static str,
        error: RuleRefusal,
    },
    /// `key` is that of the text, or of the name of a listing.
    #[error("{key} in {place:?} is not accepted")]
    NotAccepted {
        place: Place,
        key: &'static str,
        slot: u32,
        rule: Rule,
    },
    #[error(transparent)]
    Memory(#[from(alloc)] AllocError),
}
