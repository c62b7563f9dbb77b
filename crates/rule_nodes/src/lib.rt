//! Compiles a rule to a node's program, and defines what the rule means (docs/RULES.md).
//!
//! - `compile_rule` returns the program of a rule for a shape, f and M.
//! - `compile_with_owners` returns it with the statement of each instruction.
//!
//! ```
//! use node_env::Shape;
//! use rule_nodes::compile_rule;
//! use rule_syntax::{Statement, Term};
//!
//! let shape = Shape::of(4, 16).ok_or("no shape")?;
//! let rule = Statement::SendAll(Term::Word(0));
//! let program = compile_rule(rt.alloc(), &rule, shape, 1, 8).map_err(|_| "no program")?;
//! assert_eq!(rt; program.slot_count(), 15);
//! ```
#![tactic(auto)]

mod assignments;
mod binary;
mod compile;
mod errors;
mod fits;
mod insns;
mod laws;
mod numbers;
mod operands;
mod owners;
mod parts;
mod sorts;
mod statements;
mod tallies;
mod terms;

pub use compile::compile_rule;
pub use errors::CompileError;
pub use laws::{order_rises, rule_ends, rule_is_taken};
pub use owners::{ProgramWithOwners, compile_with_owners};
