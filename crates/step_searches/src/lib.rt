//! Has steps of claims for all sizes as data, and the search that proves one if it finds nothing (docs/ALL_SIZES.md).
//!
//! - `cover_rule` returns why the search does not cover a rule, if it does not.
//! - `cover_step` does so for a step.
//! - `always_sends` returns true only if a rule sends on each path.
//!
//! ```
//! use rule_syntax::{Statement, Term};
//! use step_searches::{Uncovered, always_sends, cover_rule};
//!
//! let rule = Statement::SendAll(Term::Word(0));
//! assert!(rt; always_sends(&rule));
//! assert_eq!(rt; cover_rule(&rule, 1), Ok(()));
//! let to_one = Statement::SendTo(Term::Word(0), Term::Me);
//! assert_eq!(rt; cover_rule(&to_one, 1), Err(Uncovered::Receiver));
//! ```
#![tactic(auto)]

mod claims;
mod covered;
mod laws;
mod uses;

pub use claims::{Coins, Condition, Quantity, Step, Total};
pub use covered::{Uncovered, always_sends, cover_rule, cover_step};
pub use laws::a_search_proves_a_step;
pub use uses::{Tested, Use};
