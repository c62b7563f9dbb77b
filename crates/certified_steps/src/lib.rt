//! Checks a proof that a step of a rule holds for all n, f and M (docs/ALL_SIZES.md). The maker of the proof is
//! untrusted.
//!
//! - `step_holds` returns true only if the step holds for all sizes.
//! - `Proof` has the instances of laws that are used, and a plan with certificates.
//! - `Unproved` says why a step was not judged.
//!
//! ```
//! use certified_steps::{Plan, Proof, step_holds};
//! use linear_certificates::read_certificate;
//! use rule_syntax::{Statement, Term};
//! use step_searches::{Coins, Condition, Quantity, Step, Total};
//!
//! let rule = Statement::SendAll(Term::Word(0));
//! let sent = Total::Plus(Quantity::FirstSent, Box::new(rt.alloc(), Total::Zero)?);
//! let clock = Total::Plus(Quantity::FirstWord(0), Box::new(rt.alloc(), Total::Zero)?);
//! let (before, after) = (Condition::Anything, Condition::AtMost(sent, clock));
//! let step = Step {
//!     words: 1,
//!     names: 0,
//!     coins: Coins::Any,
//!     before,
//!     after,
//! };
//! let certificate = read_certificate(rt.alloc(), &mut "sum 1 0 1".split_whitespace())?;
//! let proof = Proof {
//!     uses: Vec::new(rt.alloc()),
//!     plan: Plan::Refute(certificate),
//! };
//! assert_eq!(rt; step_holds(rt.alloc(), &rule, &step, &proof), Ok(true));
//! ```
#![tactic(auto)]

mod errors;
mod instances;
mod proofs;
mod search;
mod steps;
mod views;

pub use errors::Unproved;
pub use proofs::{Plan, Proof};
pub use search::MAX_DEPTH;
pub use steps::step_holds;
