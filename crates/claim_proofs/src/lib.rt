//! Proves steps of claims for all sizes by certificates (docs/ALL_SIZES.md, "Certificates"). Whoever made them isn't
//! trusted.
//!
//! - `prove` reads a rule, claims about it and certificates, and returns an answer for each step.
//! - `Answer` has a step, with its line, its text and what the certificates say of it.
//! - `Refusal` says what is wrong with the rule, the claims or the certificates.
//!
//! ```
//! use claim_proofs::{Outcome, prove};
//!
//! let (rule, claims) = (b"send clock\n", b"step any -> any\n");
//! let answers = prove(rt.alloc(), rule, claims, b"").map_err(|_| "refused")?;
//! for answer in &answers {
//!     assert_eq!(rt; answer.outcome, Outcome::NoCertificate);
//! }
//! ```
#![tactic(auto)]

mod proving;
mod reader;

pub use proving::{Answer, NotProved, Outcome, Refusal, prove};
pub use reader::CertificateError;
