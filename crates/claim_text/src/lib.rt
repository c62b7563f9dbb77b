//! Reads claims about a rule for all sizes (docs/ALL_SIZES.md, "The language"): each step of a text as sums of whole
//! numbers, and each property of runs as the step that it is.
//!
//! - `read_claims` returns the claims of a text, or its first error with line and column.
//! - `ClaimedLine` has a claim as data, with its line and its text.
//!
//! ```
//! use claim_text::read_claims;
//!
//! let (rule, claims) = (b"send clock\n", b"step any -> any\n");
//! let lines = read_claims(rt.alloc(), rule, claims).map_err(|_| "no claims")?;
//! assert_eq!(rt; lines.len(), 1);
//! ```
#![tactic(auto)]

mod amounts;
mod claims;
mod conditions;
mod terms;

pub use claims::{Claim, ClaimedLine, read_claims};
