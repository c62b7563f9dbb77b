//! Makes the program of a rule that is a text (docs/RULES.md).
//!
//! - `program_of_text` returns the program, or why the text has none.
//! - `program_with_lines` returns it with lines: entry k is the line that made slot k + 1.
//! - `what_a_table_means` states what a lookup in a table is.
//!
//! ```
//! use node_env::Shape;
//! use rule_programs::program_with_lines;
//!
//! let shape = Shape::of(1, 8).ok_or("no shape")?;
//! let text = b"clock = 3\nsend clock";
//! let made = program_with_lines(rt.alloc(), text, shape, 0, 8)?.map_err(|_| "no rule")?;
//! assert_eq!(rt; made.program.slot_count(), 7);
//! assert_eq!(rt; made.lines.as_slice(), [1, 2, 2, 2].as_slice());
//! ```
#![tactic(auto)]

mod laws;
mod program;
mod program_lines;

pub use laws::what_a_table_means;
pub use program::{RuleRefusal, WORD_BYTES, program_of_text};
pub use program_lines::{ProgramWithLines, program_with_lines};
