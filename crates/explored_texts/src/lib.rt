//! Has texts of what exploring finds: the scenario of a counterexample, the state space, the words of a rule. No
//! contract promises the first two: a counterexample is run before it is printed, and a script of the gate reads the
//! state space back.
//!
//! - `shown_text` returns the scenario of a counterexample.
//! - `graph_text` returns the state space for Graphviz or PRISM.
//! - `state_words` returns the names of the words of the rule.
//!
//! ```
//! use explored_texts::state_words;
//! use scenario_text::scenario_in;
//!
//! let text = b"nodes = 4\nfaults = 1\nmodulus = 8\nmemory = 8\npulses = 1\ncoins = \"ones\"\n";
//! let scenario = scenario_in(rt.alloc(), text).map_err(|_| "no scenario")?;
//!
//! let words = state_words(rt.alloc(), &scenario)?;
//! assert!(rt; words.is_empty());
//! ```
#![tactic(auto)]

mod graph;
mod shown;
mod words;

pub use graph::graph_text;
pub use shown::{held_off_text, shown_text};
pub use words::state_words;
