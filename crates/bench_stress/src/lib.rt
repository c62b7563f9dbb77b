//! Runs loaders in threads of their own beside an engine on one bench (docs/THREADS.md, "`stress`").
//!
//! - `stress_bench` returns the history of what they did. `stress_bench_with` also tells whether a thread couldn't be
//!   started.
//!
//! ```
//! use bench_stress::{StressOptions, stress_bench};
//!
//! let options = StressOptions {
//!     loaders: 2,
//!     loads: 3,
//!     pulses: 2,
//!     workers: 1,
//! };
//! let finished = stress_bench(&rt, rt.alloc(), options).map_err(|_| "stopped")?;
//! assert_eq!(rt; (finished.loads(), finished.closes()), (6, 2));
//! ```
#![tactic(auto)]

mod hands;
mod loaders;
mod setup;
mod stop;

pub use bench_engine::ThreadStarts;
pub use hands::{stress_bench, stress_bench_with};
pub use parameters::StressOptions;
pub use setup::{FAULTS, MEMORY, MODULUS, NODES};
pub use stop::Stop;
