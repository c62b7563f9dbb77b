//! Prints a rule as a function in C (docs/RULE_IN_C.md). Its contract promises only that it may run out of memory: that
//! the function computes what the rule means is tested.
//!
//! - `rule_in_c` returns the function.
//!
//! ```
//! use rule_c::rule_in_c;
//! use rule_syntax::Sizes;
//! use rule_text::{read_rule, statement_lines};
//!
//! let text = b"send clock";
//! let rule = read_rule(rt.alloc(), text).map_err(|_| "no rule")?;
//! let lines = statement_lines(rt.alloc(), text)?;
//! let sizes = Sizes {
//!     nodes: 4,
//!     faults: 1,
//!     modulus: 8,
//!     memory: 16,
//! };
//! let page = rule_in_c(rt.alloc(), text, &lines, &rule.statement, sizes)?;
//! assert!(rt; page.as_str().contains("send"));
//! ```
#![tactic(auto)]

mod assignments;
mod names;
mod page;
mod statements;
mod terms;

pub use statements::rule_in_c;
