//! Has values of JSON without floats, and their lines.
//!
//! - `line_of` returns the line of a value.
//! - `number_or_null` returns the value of a number, or null.
//! - `numbers` returns the list of numbers.
//!
//! ```
//! use json_values::{line_of, number_or_null};
//!
//! let line = line_of(rt.alloc(), &number_or_null(Some(3)))?;
//! assert_eq!(rt; line.as_str(), "3\n");
//! ```
#![tactic(auto)]

mod text;
mod values;

pub use text::line_of;
pub use values::{
    count_or_null, flags, number_or_null, numbers, numbers_or_null, place_or_null, verdict_or_null,
    word_or_null,
};
