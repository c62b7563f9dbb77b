//! Has what exploring a bench found, and the lines that say it (docs/EXPLORE_REFERENCE.md).
//!
//! - `claim_answer` returns the answer on a property of which something was found.
//! - `claims_finding_text` returns the lines of the answers on properties.
//! - `finding_text` returns the lines of a finding.
//! - `odds_table` returns the odds of each number of pulses as CSV.
//! - `reach_asked` returns when the share that was asked has stabilised.
//!
//! ```
//! use exploration::odds_table;
//!
//! let table = odds_table(rt.alloc(), 1, &[0, 1 << 31, 1 << 32])?;
//! let rows = "pulses,at_least,of\n1,2147483648,4294967296\n2,4294967296,4294967296\n";
//! assert_eq!(rt; table.as_str(), rows);
//! ```
#![tactic(auto)]

mod answer;
mod claims;
mod claims_text;
mod nodes;
mod odds;
mod reached;
mod start;
mod table;
mod text;

pub use answer::{Finding, Found, Reach, Tried, Unfit};
pub use claims::{
    ClaimAnswer, ClaimFound, ClaimViolation, ClaimsFinding, claim_answer, safety_skip,
};
pub use claims_text::claims_finding_text;
pub use reached::reach_asked;
pub use table::odds_table;
pub use text::finding_text;
