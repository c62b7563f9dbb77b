//! Defines what rules mean (docs/RULES.md), with nothing of programs: `rule_nodes` compiles rules, and `properties` judges
//! terms of them.
//!
//! - `operate_of` returns what an operator makes of two numbers.
//! - `truth_of` returns whether a number holds as a condition.
//!
//! ```
//! use rule_meaning::{operate_of, truth_of};
//! use rule_syntax::{Comparison, Operation, Operator};
//!
//! assert!(rt; operate_of(Operator::Compute(Operation::Difference), 0, 1) == 4294967295);
//! assert!(rt; truth_of(operate_of(Operator::Compare(Comparison::Less), 1, 2)));
//! ```
#![tactic(auto)]

mod operators;

pub use operators::{combined, number_of_bit, operate_of, truth_of};
