//! Has the commands on one program: `asm`, `compile`, `dis`, `clock`, `exec`, `explain` and `verify`
//! (docs/COMMANDS.md).
//!
//! - `asm::asm` returns the image of a text.
//! - `verify::verify` returns the verdict on an image.
//! - `exec_bytes` writes the answer of a run.
//!
//! ```
//! use program_commands::asm::asm;
//!
//! let response = asm(rt.alloc(), false, b"exit").map_err(|_| "a fault")?;
//! assert_eq!(rt;
//!     response.text.as_slice(),
//!     [0x95, 0, 0, 0, 0, 0, 0, 0].as_slice()
//! );
//! ```
#![tactic(auto)]

pub mod asm;
pub mod compile;
pub mod dis;
mod exec;
pub mod explanation;
mod program;
mod traced;
mod verdict;
mod verdict_note;
pub mod verify;

pub use exec::exec_bytes;
