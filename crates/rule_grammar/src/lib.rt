//! Has the law that each text of the grammar is read as the rule that it spells, within the limits of the reader
//! (docs/RULES.md). The converse is `what_is_read_is_spelled` of `rule_text`. A caller needs neither: it calls
//! `read_rule`.
//!
//! - `what_is_spelled_is_read` states the law.
#![tactic(auto)]

mod laws;

pub use laws::what_is_spelled_is_read;
