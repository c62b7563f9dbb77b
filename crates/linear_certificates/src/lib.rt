//! Checks refutations in linear integer arithmetic. The maker of a certificate is untrusted.
//!
//! - `refutes` returns true only if no integers meet the formula.
//! - `read_certificate` returns the certificate that words spell.
//! - `at_most_0` returns the formula that a sum of terms and a constant is at most 0.
//!
//! ```
//! use linear_certificates::{at_most_0, read_certificate, refutes};
//!
//! let impossible = at_most_0(rt.alloc(), &[], 1)?;
//! let mut words = "sum 1 0 1".split_whitespace();
//! let certificate = read_certificate(rt.alloc(), &mut words)?;
//! assert_eq!(rt; refutes(rt.alloc(), &impossible, &certificate), Ok(true));
//! ```
#![tactic(auto)]

mod building;
mod checker;
mod data;
mod known;
mod reader;
mod sums;

pub use building::{all_of, any_of, at_most_0};
pub use checker::{MAX_DEPTH, contradicts, refutes};
pub use data::{Certificate, Formula, Linear, Multiple, Refusal, Term};
pub use known::Known;
pub use reader::{ReadError, read_certificate, read_formula};
