//! Has the commands that run benches: `run` with its forms, `dis --node`, `sweep` and `stress` (docs/COMMANDS.md).
//!
//! - `run::run` writes the report of a scenario.
//! - `claims_file::properties_in` returns the properties of the text of `--claims`, and `claims_file::refused_claims` the
//!   answer that refuses it.
//! - `lines::lines` writes the lines of `run --json`.
//! - `sweep::sweep` writes a row for each seed.
//!
//! ```
//! use bench_workers::TrackedThreads;
//! use command_answers::Ending;
//! use requests::RunOptions;
//! use run_commands::run::run;
//! use scenario_text::scenario_in;
//! use stream_io::Tracked;
//!
//! let text = b"nodes = 4\nfaults = 1\nmodulus = 8\nmemory = 8\npulses = 1\ncoins = \"ones\"\n";
//! let scenario = scenario_in(rt.alloc(), text).map_err(|_| "no scenario")?;
//!
//! let options = RunOptions {
//!     workers: 1,
//!     check: true,
//! };
//! let mut threads = TrackedThreads::of(&rt);
//! let mut report = Tracked::of(Vec::new(rt.alloc()));
//! let ending = run(&mut threads, rt.alloc(), options, &scenario, &mut report).map_err(
//!     |_| "a fault",
//! )?;
//! assert_eq!(rt; ending, Ending::Done);
//! ```
#![tactic(auto)]

pub mod claimed_run;
pub mod claimed_sweep;
pub mod claims_file;
pub mod lines;
mod node_lines;
pub mod node_program;
mod node_rule;
mod node_text;
pub mod run;
pub mod stress;
pub mod sweep;
pub mod traced_run;
