//! Performs a request over any streams (docs/COMMANDS.md).
//!
//! - `perform::perform` returns the exit status, and writes to the two outputs.
//!
//! ```
//! use bench_space::Silent;
//! use bench_workers::TrackedThreads;
//! use commands::perform::perform;
//! use requests::Request;
//! use stream_io::Tracked;
//!
//! let (mut text, request): (&[u8], Request) = (b"exit", Request::Asm { list: false });
//! let mut out = Tracked::of(Vec::new(rt.alloc()));
//! let mut err = Tracked::of(Vec::new(rt.alloc()));
//! let mut threads = TrackedThreads::of(&rt);
//! let status = perform(
//!     &mut threads,
//!     rt.alloc(),
//!     &request,
//!     &mut text,
//!     &mut out,
//!     &mut err,
//!     &mut Silent,
//! );
//! assert_eq!(rt; (status, out.stream.len(), err.stream.len()), (0, 8, 0));
//! ```
#![tactic(auto)]

mod claimed_explore;
mod explore;
pub mod laws;
pub mod perform;
mod scenario;
mod unfinished;
