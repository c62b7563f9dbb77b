//! Has notes, and those on rejected rules, which tell where to look (docs/RULES.md, "Errors").
//!
//! - `note_on_rule` returns the note on an error of a rule.
//! - `Note::text` returns the lines of a note.
//! - `near::nearest` returns the known name that is nearest to a wrong one.
//!
//! ```
//! use rule_notes::note_on_rule;
//! use rule_text::RuleError;
//!
//! let found = note_on_rule(rt.alloc(), b"send clok", RuleError::UnknownName, 1, 6)?;
//! let note = found.ok_or("no note")?.text(rt.alloc()).ok_or("no text")?;
//! assert!(rt;
//!     note.as_str()
//!         .contains("unknown name clok; did you mean clock?")
//! );
//! ```
#![tactic(auto)]

mod advice;
mod character;
mod expected;
mod foreign;
mod names;
pub mod near;
mod note;
mod noting;
pub mod parted;
mod place;
mod reading;
pub mod shown;
mod token;
mod walk;

pub use advice::advice_at;
pub use note::Note;
pub use noting::note_on_rule;
pub use place::{line_parted, line_start};
