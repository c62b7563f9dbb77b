//! Has the formulas of a rule's terms, for certificates of `linear_certificates`.
//!
//! - `form` returns the formula of a term over numbers that are variables.
//! - `equal` and `less` return formulas of two sums.
//! - `never` returns a formula that no numbers meet.
//!
//! ```
//! use linear_certificates::{read_certificate, refutes};
//! use rule_formulas::never;
//!
//! let formula = never(rt.alloc()).map_err(|_| "no formula")?;
//! let mut words = "sum 1 0 1".split_whitespace();
//! let certificate = read_certificate(rt.alloc(), &mut words)?;
//! assert_eq!(rt; refutes(rt.alloc(), &formula, &certificate), Ok(true));
//! ```
#![tactic(auto)]

mod numbers;
mod relations;
mod stores;
mod terms;

pub use numbers::{MAX_VARIABLES, Number, Sum, Unformed, at_most, with_added, with_taken};
pub use relations::{always, both, either, equal, is_number, less, never};
pub use stores::{Store, Write, coin_now, local_now, me_now, word_now};
pub use terms::{Answers, Around, Formed, Valued, What, as_number, both_answers, form};
