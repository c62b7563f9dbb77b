//! Properties of runs as steps for all sizes (docs/ALL_SIZES.md, "A property for all sizes").
//!
//! - `step_of_property` returns the step from any state to where a property's term holds, if the term compares words,
//!   sizes and numbers alone.
//! - `laws` says what follows for runs of a rule if that step holds of it.
//!
//! ```
//! use properties::PairTerm;
//! use property_steps::step_of_property;
//! use rule_syntax::Term;
//! use step_searches::Condition;
//!
//! let term = PairTerm::of(Term::Local(2)).ok_or("no term of two nodes")?;
//! let step = step_of_property(rt.alloc(), 1, Condition::Anything, &term)?;
//! assert!(rt; step.is_some());
//! ```
#![tactic(auto)]

mod conditions;
pub mod laws;
mod steps;

pub use steps::step_of_property;
