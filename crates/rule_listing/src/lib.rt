//! Prints the instructions of a rule below the lines that made them (docs/RULES.md).
//!
//! - `list_rule` returns the listing of a text and its program.
//! - `line_at` returns the line of a slot, or 0 if no line made it.
//! - `push_heading` adds the row of a line of the text above its instructions.
//!
//! ```
//! use node_env::Shape;
//! use rule_listing::list_rule;
//! use rule_programs::program_with_lines;
//!
//! let shape = Shape::of(1, 8).ok_or("no shape")?;
//! let made = program_with_lines(rt.alloc(), b"# none", shape, 0, 8)?.map_err(|_| "no rule")?;
//! let listing = list_rule(rt.alloc(), b"# none", &made.lines, &made.program)?;
//! assert!(rt;
//!     listing
//!         .as_slice()
//!         .starts_with(b"slot 0 bf16000000000000 mov64 r6, r1\n")
//! );
//! ```
#![tactic(auto)]

mod lines;
mod listing;

pub use listing::{line_at, list_rule, push_heading};
