//! Reads the text of a rule (docs/RULES.md).
//!
//! - `read_rule` returns the rule of a text, or the first error with its line and column.
//! - `statement_lines` returns the line of each statement.
//! - `RuleError::name` returns the name of an error.
//!
//! ```
//! use rule_text::{ReadRuleError, RuleError, read_rule};
//!
//! let rule = read_rule(rt.alloc(), b"state mark\nsend clock + mark").map_err(|_| "no rule")?;
//! assert_eq!(rt; rule.words, 2);
//! let wrong = read_rule(rt.alloc(), b"send clok").err();
//! let (error, line, column) = (RuleError::UnknownName, 1, 6);
//! assert_eq!(rt;
//!     wrong,
//!     Some(ReadRuleError::At {
//!         error,
//!         line,
//!         column
//!     })
//! );
//! ```
#![tactic(auto)]

mod aggregates;
mod assignments;
mod errors;
mod joints;
mod laws;
mod layout;
mod leaves;
mod lexemes;
mod lines;
mod lookups;
mod parts;
mod rule;
mod scope;
mod signs;
mod statements;
mod tables;
mod terms;
mod words;

pub use errors::{ReadRuleError, RuleError};
pub use laws::{each_statement_has_a_line, what_is_read_is_spelled};
pub use lines::statement_lines;
pub use rule::{Rule, read_rule};
pub use words::word_names;
