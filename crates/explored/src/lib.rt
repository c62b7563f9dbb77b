//! Has what `explore` is asked and what its search finds: types of the search, its answer and the command line
//! (docs/EXPLORE_REFERENCE.md).
//!
//! - `Question::asks_agreement` returns true if agreement is asked.
//! - `Question::asks_stabilisation` returns true if stabilisation is asked.
//! - `ExploreOptions` and `Recovery` have no calls: the crates above read their fields.
//!
//! ```
//! use explored::Question;
//!
//! let question = Question::Agreement;
//! assert!(rt; question.asks_agreement());
//! assert!(rt; !question.asks_stabilisation());
//! ```
#![tactic(auto)]

mod found;
mod options;
mod question;

pub use found::{Cause, MAX_INBOXES, MEAN_UNIT, ODDS_WHOLE, Odds, Recovery};
pub use options::{
    AnyStart, ByteSpan, Cells, ExploreOptions, Form, GraphFormat, Mail, MailSpan, Memories, Share,
    Starts,
};
pub use question::Question;
