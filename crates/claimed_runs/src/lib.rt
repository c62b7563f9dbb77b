//! Runs scenarios and judges properties of each closed pulse (docs/PROPERTIES.md).
//!
//! - `write_claims` runs a scenario and writes its report, then the verdicts and the answers of the properties; or these
//!   as lines of JSON.
//! - `judged_run` runs a scenario, and returns the verdicts on the properties in each closed pulse.
//! - `judged_run_with_key` does so with another key of the coins.
//! - `pulse_claims` returns the verdicts on the properties in a pulse that was shown.
//!
//! ```
//! use bench_workers::TrackedThreads;
//! use claimed_runs::{ClaimedRun, ClaimsForm, write_claims};
//! use scenario_text::scenario_in;
//! use stream_io::Tracked;
//!
//! let text = b"nodes = 4\nfaults = 1\nmodulus = 8\nmemory = 8\npulses = 1\ncoins = \"ones\"\n";
//! let scenario = scenario_in(rt.alloc(), text).map_err(|_| "no scenario")?;
//!
//! let asked = ClaimedRun {
//!     scenario: &scenario,
//!     properties: &[],
//!     form: ClaimsForm::Text,
//!     workers: 1,
//! };
//! let mut threads = TrackedThreads::of(&rt);
//! let mut out = Tracked::of(Vec::new(rt.alloc()));
//! let says = write_claims(&mut threads, rt.alloc(), &asked, &mut out).map_err(|_| "a fault")?;
//! assert!(rt; says.holds);
//! assert!(rt; out.stream.as_slice().ends_with(b"pulse 1 claims\n"));
//! ```
#![tactic(auto)]

mod judged;
mod keyed;
mod nodes;
mod pulses;
mod report;
mod watcher;

pub use judged::{ClaimedRun, ClaimsForm, JudgedRun, judged_run};
pub use keyed::judged_run_with_key;
pub use nodes::sizes_of;
pub use pulses::pulse_claims;
pub use report::{ClaimsReport, write_claims};
