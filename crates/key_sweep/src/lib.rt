//! Runs a scenario with one seed after the other (docs/LUCK.md).
//!
//! - `sweep` writes a row of CSV for each seed.
//! - `sweep_rows` writes the rows of a `RowMaker` instead.
//! - `KeySpan` has the seeds from the first to the last.
//!
//! ```
//! use key_sweep::{KeySpan, sweep};
//! use scenario_text::scenario_in;
//! use stream_io::Tracked;
//!
//! let text = b"version = 2
//! nodes = 4
//! faults = 1
//! modulus = 8
//! memory = 8
//! pulses = 1
//! coins = \"chacha\"
//! key = 1
//! ";
//! let scenario = scenario_in(rt.alloc(), text).map_err(|_| "no scenario")?;
//! let keys = KeySpan::of(1, 3).ok_or("no keys")?;
//! let mut rows = Tracked::of(Vec::new(rt.alloc()));
//! assert!(rt; sweep(&rt, rt.alloc(), &scenario, keys, 2, &mut rows).is_ok());
//! assert_eq!(rt; rows.stream.as_slice().split(|byte| *byte == 10).count(), 5);
//! ```
#![tactic(auto)]

mod block;
mod maker;
mod rows;
mod runs;
mod sweeping;
mod writing;

pub use maker::RowMaker;
pub use parameters::{KeySpan, MAX_SWEEP_KEY};
pub use sweeping::{SweepFault, sweep, sweep_rows};
pub use writing::MAX_SWEEPERS;
