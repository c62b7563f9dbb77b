//! Runs scenarios, from their texts to their reports (docs/SCENARIOS.md).
//!
//! - `run_scenario` reads a scenario, runs it and writes the report.
//! - `write_report` writes the report of a scenario that was read, and returns true if no pulse has `agree no`.
//! - `run_watched` runs a scenario before a watcher.
//!
//! ```
//! use bench_scenario::run_scenario;
//! use stream_io::Tracked;
//!
//! let mut text: &[u8] =
//!     b"nodes = 1\nfaults = 0\nmodulus = 2\nmemory = 8\npulses = 1\ncoins = \"ones\"\n";
//! let mut report = Tracked::of(Vec::new(rt.alloc()));
//! assert!(rt; run_scenario(&rt, rt.alloc(), &mut text, &mut report, 1).is_ok());
//! assert!(rt; report.stream.as_slice().ends_with(b"agreed 1 of 1\n"));
//! ```
#![tactic(auto)]

mod coins;
mod in_step;
mod inputs;
mod keyed;
pub mod laws;
mod noise;
mod noisy;
mod paying;
mod printing;
mod reading;
mod run;
mod schedule;
mod summary;
mod verdicts;
mod watched;

pub use in_step::in_step_since;
pub use inputs::{InputFault, NodeInput, node_input};
pub use keyed::{run_watched_with_key, run_with_key};
pub use printing::{RunReport, clock_name, report};
pub use reading::{TextFault, read_scenario};
pub use run::{MAX_BYTES, MAX_CALLS, ReportFault, ScenarioFault, run_scenario, write_report};
pub use scenario_text::{RefusalLine, Scenario, ScenarioError, scenario_of};
pub use schedule::events;
pub use summary::{RunSummary, summary_of};
pub use verdicts::{Judged, judged_of, judgement, none_disagrees};
pub use watched::{WatchedFault, run_watched};
