//! Properties of a file.
ghost use Rattle.std.specs.Prelude.{◌≡◌, true};
ghost use Rattle.properties.specs.Pairs.{is_pair_term};

use crate::terms::is_pair_term;
use rule_syntax::Term;

/// The most pulses after which a property of the form `within` may begin to hold.
pub const MAX_WITHIN: u32 = 1_000_000;

/// When the term of a property has to hold.
#[derive(Clone, Copy, Debug, PartialEq, Eq)]
pub enum Form {
    /// In every judged pulse.
    Always,
    /// In every judged pulse from some pulse on.
    EventuallyAlways,
    /// In every judged pulse after the first pulses of this number.
    Within(u32),
}

/// A term about two nodes.
#[derive(Drop)]
pub struct PairTerm {
    pub term: Term,
    pub ghost is_pair: { is_pair_term term ≡ true },
}

impl PairTerm {
    /// Returns a term as one about two nodes, if it is.
    pub fn of(term: Term) -> Option<PairTerm> {
        if is_pair_term(&term) {
            Some(PairTerm { term })
        } else {
            None
        }
    }
}

/// A property of a file, with its line and its text there.
#[derive(Drop)]
pub struct Property {
    pub line: u32,
    pub text: String,
    pub form: Form,
    pub holds: PairTerm,
}
