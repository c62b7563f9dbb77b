//! Has the rule of the built-in clock as a text, and the law on what it means (docs/RULES.md).
//!
//! - `CLOCK_RULE` is the text.
//! - `read_clock_rule` returns its rule.
//! - `the_clock_rule_means_the_pair` states that the rule computes what docs/CLOCK.md defines.
//!
//! ```
//! use clock_rule::{CLOCK_RULE, read_clock_rule};
//!
//! let rule = read_clock_rule(rt.alloc()).map_err(|_| "no rule")?;
//! assert_eq!(rt; rule.words, 2);
//! assert!(rt; CLOCK_RULE.ends_with(b"send clock\n"));
//! ```
#![tactic(auto)]

mod laws;
mod text;

pub use laws::{the_clock_rule_means_the_pair, the_text_reads_as_the_rule};
pub use text::{CLOCK_RULE, read_clock_rule};
