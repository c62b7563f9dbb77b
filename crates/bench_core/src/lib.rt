//! Has the bench: nodes that move in common pulses, and the history of what was done to them (docs/PULSE.md).
//!
//! - `Bench::stage` puts a change on the list of the next pulse, or hands it back with the reason.
//! - `Bench::open_pulse` returns a task for each node with a program.
//! - `Bench::close_pulse` returns the record of the pulse, or hands the results back with the reason.
//!
//! ```
//! use bench_core::{Actor, Bench, Change};
//! use bpf_verify::verify;
//! use clock_nodes::{ClockRule, dolev_welch};
//! use node_env::Shape;
//!
//! let shape = Shape::of(1, 8).ok_or("no shape")?;
//! let rule = ClockRule::of(1, 0, 2).ok_or("no rule")?;
//! let clock = dolev_welch(rt.alloc(), shape, rule)?;
//! let program = verify(rt.alloc(), &clock, shape).map_err(|_| "not accepted")?;
//! let mut bench = Bench::new(rt.alloc(), shape, rule)?;
//! let load = Change::Load { node: 0, program };
//! assert!(rt; bench.stage(Actor::Engine, load).is_ok());
//! let tasks = bench
//!     .open_pulse(rt.alloc(), &[1])
//!     .map_err(|_| "not opened")?;
//! let dones = tasks
//!     .into_iter()
//!     .map(|task| task.run())
//!     .collect(rt.alloc())?;
//! let record = bench
//!     .close_pulse(rt.alloc(), dones)
//!     .map_err(|_| "not closed")?;
//! assert_eq!(rt; record.clocks.as_slice(), [Some(0)].as_slice());
//! ```
#![tactic(auto)]

mod actor;
mod bench;
mod change;
mod clock_program;
mod close;
mod entry;
mod found;
mod laws;
mod limits;
mod node;
mod node_clocks;
mod node_flags;
mod pulse;
mod recent;
mod record;
mod refusal;
mod row;
mod runs;
mod steps;
mod task;
mod task_lists;

pub use actor::Actor;
pub use bench::{Bench, are_coins, stage_error};
pub use change::Change;
pub use clock_program::ClockProgram;
pub use entry::Entry;
pub use laws::{
    clocks_agree, every_run, one_refusal, one_replay, only_its_own, pair_moves_on, results_fit,
    rows_count, steps_are_entries,
};
pub use limits::{CLOCKS_DIFFER, MAX_BENCH_PULSES, MAX_COUNTED, MAX_ENTRIES};
pub use node_clocks::NodeClocks;
pub use node_flags::NodeFlags;
pub use recent::Recent;
pub use record::{PulseRecord, Ran};
pub use refusal::{CloseError, OpenError, StageError};
pub use row::Row;
pub use steps::steps_by_node;
pub use task::{NodeDone, NodeTask};
