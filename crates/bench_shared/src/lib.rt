//! Has a bench that threads share: loaders stage changes while the pulses of the engine run, and watchers see the rows
//! (docs/THREADS.md).
//!
//! - `SharedBench::load` stages a load, with a receipt.
//! - `SharedBench::open_pulse` returns the tasks of a pulse.
//! - `Board::look` returns the latest row to a watcher.
//!
//! ```
//! ghost use Rattle.std.specs.Prelude.{◌≡◌, ◌+◌};
//!
//! use bench_shared::SharedBench;
//! use clock_nodes::ClockRule;
//! use node_env::Shape;
//! use std::alloc::Global;
//! use std::marker::Brand;
//! use std::sync::Wait;
//! use std::sync::ledger::{Blank, Ledger};
//! use std::test::Fail;
//!
//! /// Returns how many entries the history of a bench has after its one loader corrupted node 0.
//! fn entries_of<B: Ledger, C: Ledger, R: Wait>(
//!     rt: &R,
//!     alloc: Global,
//!     entries: Blank,
//!     closes: Blank,
//! ) -> Result<usize, Fail>
//!     requires entries { (entries.name ≡ B.name) × (entries.parts ≡ B.parts) × (entries.parts ≡ 1 + 1) }
//!     requires closes { (closes.name ≡ C.name) × (closes.parts ≡ C.parts) × (closes.parts ≡ 1) }
//! {
//!     let shape = Shape::of(1, 8).ok_or("no shape")?;
//!     let rule = ClockRule::of(1, 0, 2).ok_or("no rule")?;
//!     let (shared, _board, engine, mut loaders, _watchers) = SharedBench::<B, C>::new(
//!         alloc, entries, closes, shape, rule, 1, 0,
//!     )?;
//!     let image = [1, 0, 0, 0, 0, 0, 0, 0].to_vec(alloc)?;
//!     if shared
//!         .corrupt(rt, alloc, &mut loaders[0], 0, image)
//!         .is_err()
//!     {
//!         return Err("not corrupted")?;
//!     }
//!     match shared.finish(engine, loaders) {
//!         Ok(finished) => Ok(finished.history().len()),
//!         Err(_refused) => Err("not finished")?,
//!     }
//! }
//!
//! let (entries, closes) = (Blank::new(2), Blank::new(1));
//! let count = entries_of::<Brand, Brand, HostRuntime>(&rt, rt.alloc(), entries, closes)?;
//! assert_eq!(rt; count, 1);
//! ```
#![tactic(auto)]

mod board;
mod finish;
mod locked_bench;
mod passes;
mod rule;
mod shared;
mod word;

pub use board::{Board, WatchPass};
pub use finish::Finished;
pub use passes::{EnginePass, LoaderPass, Receipt};
pub use shared::{MAX_LOADERS, MAX_WATCHERS, SharedBench};
