//! Has the types that both libraries and requests use: spans of seeds and pulses, formats, options of `stress`.
//!
//! - `KeySpan::of` returns the seeds from the first to the last, if there is one.
//! - `KeySpan::count` returns how many they are.
//! - `PulseSpan::contains` returns true if a pulse is in the span.
//!
//! ```
//! use parameters::{KeySpan, PulseSpan};
//!
//! let keys = KeySpan::of(1, 20).ok_or("no keys")?;
//! assert_eq!(rt; keys.count(), 20);
//! let pulses = PulseSpan::of(3, 5).ok_or("no pulses")?;
//! assert!(rt; pulses.contains(5) && !pulses.contains(6));
//! ```
#![tactic(auto)]

mod detail;
mod keys;
mod lines;
mod pulses;
mod stress;

pub use detail::Detail;
pub use keys::{KeySpan, MAX_SWEEP_KEY};
pub use lines::{LineFormat, LinesForm};
pub use pulses::PulseSpan;
pub use stress::StressOptions;
