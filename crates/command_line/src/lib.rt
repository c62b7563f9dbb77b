//! Reads the words of a command line as a request (docs/COMMANDS.md).
//!
//! - `parse_args` returns the request and its file, or the message on words that are rejected.
//!
//! ```
//! use command_line::parse_args;
//! use requests::Request;
//!
//! let words = ["clockbed", "asm", "clock.s"];
//! let invocation = parse_args(rt.alloc(), &words).map_err(|_| "no request")?;
//! assert!(rt; matches!(invocation.request, Request::Asm { list: false }));
//! assert_eq!(rt;
//!     invocation.file.as_ref().map(|file| file.as_str()),
//!     Some("clock.s")
//! );
//! ```
#![tactic(auto)]

mod exec_words;
mod explore_words;
mod lists;
mod meant;
mod options;
mod request;

pub use request::{Invocation, WordsFault, parse_args};
