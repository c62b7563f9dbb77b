//! Explores the bench of a scenario over all coins and messages (docs/EXPLORE.md).
//!
//! - `claims_on` returns what was found of properties, or why the scenario is not explored.
//! - `finding_on` returns what was found, or why the scenario is not explored.
//! - `unfit_of` returns why a scenario is not explored, if it is not.
//! - `states_enough` returns a limit of states that is enough, if one was found.
//!
//! ```
//! use bench_space::Silent;
//! use exploration::{Finding, Unfit};
//! use explored::{ExploreOptions, Form, Question, Starts};
//! use scenario_explorer::finding_on;
//! use scenario_text::scenario_in;
//!
//! let text = b"nodes = 4\nfaults = 1\nmodulus = 8\nmemory = 8\npulses = 1\ncoins = \"ones\"\n";
//! let scenario = scenario_in(rt.alloc(), text).map_err(|_| "no scenario")?;
//!
//! let options = ExploreOptions {
//!     question: Question::Agreement,
//!     mail: None,
//!     start: Starts::Zero,
//!     states: 100,
//!     depth: 100,
//!     memory: 1,
//!     odds: None,
//!     reach: None,
//!     form: Form::Text,
//! };
//!
//! let finding = finding_on(&rt, rt.alloc(), &options, &scenario, &mut Silent)?;
//! assert!(rt; matches!(finding, Finding::Unfit(Unfit::Unloaded)));
//! ```
#![tactic(auto)]

mod aims;
mod claims;
mod exploring;
mod fit;
mod laws;
mod renaming;
mod same_bench;
mod theorem;
mod violation;
mod wider;

pub use claims::claims_on;
pub use exploring::finding_on;
pub use fit::{uncovered_of, unfit_of};
pub use laws::{one_exploration, rules_explored, rules_move};
pub use wider::{is_finished_by_all_pulses, states_enough};
