//! Accepts a program before it is loaded, and returns the length of its longest path (docs/VERIFIER.md).
//!
//! - `verify` returns the accepted program, or the first slot that breaks a rule.
//! - `check` returns the announced count alone.
//! - `VerifiedProgram::budget` returns the announced count of an accepted program.
//!
//! ```
//! use bpf_asm::assemble;
//! use bpf_verify::{Rule, VerifyError, check, verify};
//! use node_env::Shape;
//!
//! let shape = Shape::of(4, 16).ok_or("no shape")?;
//! let right = assemble(rt.alloc(), b"mov64 r0, 7\nexit").map_err(|_| "no program")?;
//! let accepted = verify(rt.alloc(), &right, shape).map_err(|_| "not accepted")?;
//! assert_eq!(rt; accepted.budget(), 2);
//! let wrong = assemble(rt.alloc(), b"exit").map_err(|_| "no program")?;
//! let rejected = VerifyError::Refused {
//!     slot: 0,
//!     rule: Rule::UnsetRegister,
//! };
//! assert_eq!(rt; check(rt.alloc(), &wrong, shape), Err(rejected));
//! ```
#![tactic(auto)]

mod abstract_state;
mod abstract_value;
mod findings;
mod laws;
mod longest;
mod marks;
mod outcomes;
mod refusal;
mod rule;
mod rules;
mod verified;
mod walk;

pub use abstract_state::{AbstractState, REGISTERS};
pub use abstract_value::AbstractValue;
pub use findings::{Findings, Verdict, explain};
pub use laws::{more_keeps_rules, one_verdict};
pub use outcomes::alu_kind;
pub use refusal::VerifyError;
pub use rule::Rule;
pub use rules::{
    bytes_taken, is_astray, is_pointer, is_unset, moved, operand_kind, registers_of, takes_dword,
};
pub use verified::{VerifiedProgram, check, verify};
