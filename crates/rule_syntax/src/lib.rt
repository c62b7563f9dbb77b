//! Has the syntax tree of rules, with names resolved: `rule_text` makes it and `rule_nodes` compiles it
//! (docs/RULES.md).
//!
//! - `Statement` is a rule, and `Term` a term in it.
//! - `Target` is a word of the memory or a local name.
//! - `Sizes` has the numbers n, f and M, and the bytes of memory, of a compilation.
//!
//! ```
//! use rule_syntax::{Statement, Target, Term};
//!
//! let send = Statement::SendAll(Term::Word(0));
//! assert!(rt; matches!(&send, Statement::SendAll(Term::Word(0))));
//! assert!(rt; Target::ToWord(0) != Target::ToLocal(0));
//! ```
#![tactic(auto)]

mod syntax;

pub use syntax::{
    Assignment, Comparison, Connective, Operation, Operator, Sizes, Statement, Target, Term,
};
