//! Runs lists of events on a bench, on workers (docs/THREADS.md).
//!
//! - `run_events` returns the records of the pulses and the memories at the end.
//! - `run_events_watched` does so before a watcher, which may stop the run.
//! - `run_tasks` returns the results of the tasks of a pulse.
//!
//! All but `run_events` take `TrackedThreads`: a runtime, and whether a start of a thread failed.
//!
//! ```
//! use bench_workers::{Event, Open, run_events};
//! use clock_nodes::ClockRule;
//! use node_env::Shape;
//!
//! let shape = Shape::of(4, 8).ok_or("no shape")?;
//! let rule = ClockRule::of(4, 1, 8).ok_or("no rule")?;
//! let coins = vec![in rt.alloc(); 0; 4]?;
//! let events = vec![in rt.alloc(); Event::Pulse(coins)]?;
//! let run = run_events(&rt, rt.alloc(), &Open, 2, shape, rule, events).map_err(|_| "no run")?;
//! assert_eq!(rt; run.records.len(), 1);
//! ```
#![tactic(auto)]

mod batch;
mod deal;
mod engine;
mod event;
mod gate;
pub mod laws;
mod opening;
mod tasks;
mod thread_starts;
mod waiting;
mod watched;
mod watcher;
mod work_error;
mod workers;

pub use engine::{run_events, run_events_on};
pub use event::{Event, Run, RunFault, RunRefusal};
pub use gate::{Gate, Open};
pub use opening::{OpenBench, open_pulse_of};
pub use tasks::{MAX_WORKERS, run_tasks};
pub use thread_starts::{ThreadStarts, TrackedThreads};
pub use watched::run_events_watched;
pub use watcher::{Shown, Stop, WatchFault, Watcher};
pub use work_error::WorkError;
