//! Prints what was found by exploring as one line of JSON (docs/EXPLORE_REFERENCE.md).
//!
//! - `claims_lines` returns the lines of what was found of properties.
//! - `exploration_line` returns the line of what was asked and found. `rows/explore.txt` has such lines.
#![tactic(auto)]

mod claims;
mod line;
mod spans;
mod words;

pub use claims::claims_lines;
pub use line::exploration_line;
