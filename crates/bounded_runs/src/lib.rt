//! Decides whether a program can tell large numbers apart: if not, one run represents many inputs
//! (docs/EXPLORE_METHOD.md).
//!
//! - `ends_of` returns how the runs of a program from alike inputs end.
//! - `alike_memories` returns memories such that each memory is alike one of them.
//! - `Ends::is_known` returns true if the kinds of ends are known.
//!
//! ```
//! use bounded_runs::ends_of;
//! use bpf_asm::assemble;
//! use bpf_verify::verify;
//! use node_env::Shape;
//!
//! let shape = Shape::of(1, 8).ok_or("no shape")?;
//! let text = b"mov64 r1, 0\ncall recv\nmov64 r0, 0\nexit";
//! let program = assemble(rt.alloc(), text).map_err(|_| "no program")?;
//! let accepted = verify(rt.alloc(), &program, shape).map_err(|_| "not accepted")?;
//! let ends = ends_of(rt.alloc(), &accepted, 0, 1, &[false; 2])?;
//! assert!(rt; ends.is_known());
//! ```
#![tactic(auto)]

mod all;
mod ends;
mod marks;
mod run;

pub use all::{alike_memories, ends_of};
pub use ends::Ends;
