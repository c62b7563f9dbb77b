//! Prints what the verifier knows at each slot of a program, and why a rule is broken (docs/VERIFIER.md).
//!
//! - `reason` returns the line that names the broken rule.
//! - `rows` returns a line for each slot with what is known there.
//!
//! ```
//! use bpf_asm::assemble;
//! use bpf_explain::reason;
//! use bpf_verify::explain;
//! use node_env::Shape;
//!
//! let shape = Shape::of(4, 16).ok_or("no shape")?;
//! let program = assemble(rt.alloc(), b"call 5\nexit").map_err(|_| "no program")?;
//! let findings = explain(rt.alloc(), &program, shape)?;
//! let line = reason(rt.alloc(), &program, shape, &findings)?;
//! assert_eq!(rt;
//!     line.as_str(),
//!     "rule 3, UnknownHelper: there is no helper 5\n"
//! );
//! ```
#![tactic(auto)]

mod access;
mod fact;
mod facts;
mod loaded;
mod reasons;
mod row_texts;

pub use parameters::Detail;
pub use reasons::reason;
pub use row_texts::rows;
