//! Prints a run as lines of JSON (docs/OUTPUT.md, "JSON lines").
//!
//! - `tell_lines` writes a line for each pulse, and returns true if no pulse has `agree no`.
//! - `frame_line` returns the first line: the numbers of the scenario.
//! - `pulse_line` returns the line of a pulse.
//!
//! ```
//! use run_lines::frame_line;
//! use scenario_text::scenario_in;
//!
//! let text = b"nodes = 4\nfaults = 1\nmodulus = 8\nmemory = 8\npulses = 1\ncoins = \"ones\"\n";
//! let scenario = scenario_in(rt.alloc(), text).map_err(|_| "no scenario")?;
//!
//! let line = frame_line(rt.alloc(), &scenario)?;
//! assert!(rt; line.as_str().contains("\"nodes\":4"));
//! ```
#![tactic(auto)]

mod fault;
mod formats;
mod frame_lines;
pub mod laws;
mod nodes;
mod pulse_lines;
mod staged;
mod telling;
mod writer;

pub use fault::LinesFault;
pub use frame_lines::{frame_line, last_line};
pub use parameters::{LineFormat, LinesForm, PulseSpan};
pub use pulse_lines::pulse_line;
pub use telling::tell_lines;
