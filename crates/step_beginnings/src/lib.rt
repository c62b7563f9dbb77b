//! States that begin steps of claims (docs/ALL_SIZES.md, "Certificates"): a step that no state begins holds of every rule,
//! so it says nothing.
//!
//! - `begins` returns true only if a step is begun at the sizes of a `Beginning`.
//!
//! ```
//! use step_beginnings::{Beginning, begins};
//! use step_searches::{Coins, Condition, Step};
//!
//! let step = Step {
//!     words: 1,
//!     names: 0,
//!     coins: Coins::Fixed(1),
//!     before: Condition::Anything,
//!     after: Condition::Anything,
//! };
//! let beginning = Beginning {
//!     nodes: 4,
//!     faults: 1,
//!     modulus: 8,
//!     free: Vec::new(rt.alloc()),
//!     sent: 0,
//!     memory: Vec::from_slice(rt.alloc(), &[0; 8])?,
//! };
//! assert!(rt; begins(&step, &beginning));
//! ```
#![tactic(auto)]

mod beginning;
mod values;

pub use beginning::{Beginning, begins};
