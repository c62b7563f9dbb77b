//! Judges properties of runs (docs/PROPERTIES.md): what a term says of two nodes in a pulse, and what a run makes of a
//! property.
//!
//! - `local_of` returns the local of a term that is a name.
//! - `number_of` returns the number of a term for two nodes in a pulse.
//! - `verdict_of` returns whether a term holds in a pulse, for all pairs of its nodes.
//! - `answer_of` returns what the verdicts of a run's pulses say of a property.
//! - `add_claims` adds the text of verdicts and answers.
//!
//! ```
//! use properties::{Answer, Form, PropertyVerdict, PulseVerdict, answer_of};
//!
//! let verdicts = [PulseVerdict {
//!     pulse: 2,
//!     verdict: PropertyVerdict::Holds,
//! }];
//! assert!(rt; answer_of(Form::Always, &verdicts) == Answer::Holds { judged: 1 });
//! ```
#![tactic(auto)]

mod answers;
mod claims;
pub mod laws;
mod names;
mod pairs;
mod property;
mod terms;
mod texts;
mod verdicts;

pub use answers::{Answer, PulseVerdict, Violation, answer_of};
pub use claims::{PulseClaims, add_claims, answer_at};
pub use names::{MAX_NAMED_WORDS, PairName, Side, local_of};
pub use pairs::{NodeView, PairView, number_of};
pub use property::{Form, MAX_WITHIN, PairTerm, Property};
pub use terms::{has_before, is_pair_term};
pub use verdicts::{PropertyVerdict, verdict_of};
