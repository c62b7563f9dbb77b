//! Has what the verifier knows of a number: a range of unsigned 64-bit numbers (docs/RANGES.md).
//!
//! - `Range::of` returns the range from a number to another, if they are in order.
//! - `alu` returns a range that contains the results of an operation.
//! - `branch` returns both ranges after a condition, or none if no numbers take the edge.
//!
//! ```
//! use bpf_insn::{AluOp, Width};
//! use value_range::{Range, alu, meet};
//!
//! let few = Range::of(1, 4).ok_or("no range")?;
//! let sum = alu(AluOp::Add, Width::W64, few, Range::single(10));
//! assert_eq!(rt; (sum.lo(), sum.hi()), (11, 14));
//! assert!(rt; meet(few, sum).is_none());
//! ```
#![tactic(auto)]

mod arithmetic;
mod conditions;
mod laws;
mod range;

pub use arithmetic::{alu, movsx, neg, swap};
pub use conditions::branch;
pub use laws::{branches_grow, joins_grow, results_grow};
pub use range::{Range, hull, meet};
