//! Runs pulses of a shared bench, and exports the runs of `bench_workers` (docs/THREADS.md).
//!
//! - `pulse` returns the record of a pulse that is posted on the board. `pulse_with` also tells whether a thread
//!   couldn't be started.
//! - `run_events` and `run_events_watched` run lists of events.
//!
//! ```
//! ghost use Rattle.std.specs.Prelude.{◌≡◌, ◌+◌};
//!
//! use bench_engine::{Open, pulse};
//! use bench_shared::SharedBench;
//! use clock_nodes::ClockRule;
//! use node_env::Shape;
//! use std::alloc::Global;
//! use std::marker::Brand;
//! use std::sync::Wait;
//! use std::sync::ledger::{Blank, Ledger};
//! use std::test::Fail;
//! use std::thread::Threads;
//!
//! /// Returns the number of a pulse that two workers run on a new bench.
//! fn pulse_of<B: Ledger, C: Ledger, R: Threads + Wait + Sync>(
//!     rt: &R,
//!     alloc: Global,
//!     entries: Blank,
//!     closes: Blank,
//! ) -> Result<u32, Fail>
//!     requires entries { (entries.name ≡ B.name) × (entries.parts ≡ B.parts) × (entries.parts ≡ 1 + 1) }
//!     requires closes { (closes.name ≡ C.name) × (closes.parts ≡ C.parts) × (closes.parts ≡ 1) }
//! {
//!     let shape = Shape::of(1, 8).ok_or("no shape")?;
//!     let rule = ClockRule::of(1, 0, 2).ok_or("no rule")?;
//!     let (shared, board, mut engine, _loaders, _watchers) = SharedBench::<B, C>::new(
//!         alloc, entries, closes, shape, rule, 1, 0,
//!     )?;
//!     match pulse(rt, alloc, &shared, &board, &mut engine, &Open, 2, &[0]) {
//!         Ok(record) => Ok(record.row.pulse),
//!         Err(_error) => Err("no pulse")?,
//!     }
//! }
//!
//! let (entries, closes) = (Blank::new(2), Blank::new(1));
//! let number = pulse_of::<Brand, Brand, HostRuntime>(&rt, rt.alloc(), entries, closes)?;
//! assert_eq!(rt; number, 1);
//! ```
#![tactic(auto)]

mod engine_error;
mod shared_pulse;

pub use bench_workers::{
    Event, Gate, MAX_WORKERS, Open, Run, RunFault, RunRefusal, Shown, Stop, ThreadStarts,
    TrackedThreads, WatchFault, Watcher, WorkError, laws, run_events, run_events_on,
    run_events_watched,
};
pub use engine_error::EngineError;
pub use shared_pulse::{pulse, pulse_with};
