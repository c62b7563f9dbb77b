//! Answers the command `prove`: the steps of claims about a rule, by certificates (docs/ALL_SIZES.md, "Certificates").
//!
//! - `prove_claims` returns the lines of the answers, or the line of a refusal with its note.
#![tactic(auto)]

mod answering;
mod lines;

pub use answering::prove_claims;
