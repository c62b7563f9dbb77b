//! Has the law that each pulse of a covered rule takes one of its paths, each a relation in linear arithmetic. A proof
//! cites it, as `a_search_proves_a_step` of `step_searches` does.
//!
//! - `a_pulse_is_a_path` states the law.
//! - `a_pulse_leaves_a_node` states that a rule that sends to all on each path sends one number to all.
//! - `a_count_is_tested` states the relation that holds at a node whose message the test of a count passes.
#![tactic(auto)]

mod laws;

pub use laws::{a_count_is_tested, a_pulse_is_a_path, a_pulse_leaves_a_node};
