//! Reads scenarios, which are TOML texts (docs/SCENARIOS.md).
//!
//! - `scenario_in` returns the scenario of a text, or why it is rejected.
//! - `parse_scenario` returns the same, and with a reason the table of the text, for notes.
//! - `Scenario::rule` returns the numbers n, f and M of its clock.
//!
//! ```
//! use scenario_text::{Coins, scenario_in};
//!
//! let text = b"nodes = 4\nfaults = 1\nmodulus = 8\nmemory = 8\npulses = 1\ncoins = \"ones\"\n";
//! let scenario = scenario_in(rt.alloc(), text).map_err(|_| "no scenario")?;
//!
//! assert_eq!(rt; (scenario.nodes, scenario.pulses), (4, 1));
//! assert_eq!(rt; scenario.coins, Coins::Ones);
//! ```
#![tactic(auto)]

mod arrays;
mod coin_entries;
mod corruptions;
mod entries;
pub mod keys;
pub mod laws;
mod limits;
mod line;
mod loads;
mod noise;
mod numbers;
mod programs;
mod refusal;
mod scenario;
mod setup;
mod table;
mod text;
mod top;
mod unloads;
mod whole;

pub use limits::{
    CLOCK_VERSION, FIRST_MAX_NODES, FIRST_VERSION, LAST_VERSION, MAX_CHANGES, MAX_COIN_ENTRIES,
    MAX_KEY, MAX_NOISE, MAX_PULSES, MAX_SAID, MAX_TEXT, NOISE_VERSION, RULE_VERSION, ZERO_VERSION,
};
pub use line::RefusalLine;
pub use programs::say_program;
pub use refusal::{Place, ScenarioError};
pub use scenario::{CoinEntry, Coins, Corrupt, Frame, Kind, Load, ProgramText, Scenario, Unload};
pub use text::{Parsed, Rejected, parse_scenario, scenario_in};
pub use whole::scenario_of;
