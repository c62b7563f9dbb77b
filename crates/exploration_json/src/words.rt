//! Words and numbers of what was found.
ghost use Rattle.std.specs.Prelude.{◌≡◌, Option, map, option_map};
ghost use Rattle.exploration_json.specs.Data.{agreed_of, agreement_word, holds_word, limit_of, limit_word, method_of, pulses_of, question_word, scenario_of, stabilisation_of, stabilisation_word, states_of, transitions_of, violated_in, within};

use exploration::Found;
use explored::{Cause, Question, Recovery};

/// Returns the word for a question.
pub(crate) fn question_word(question: Question) -> &'static str
    ensures { result.now ≡ question_word question }
{
    match question {
        Question::Agreement => "agreement",
        Question::Stabilisation => "stabilisation",
        Question::Both => "both",
    }
}

fn holds_word(alone: bool) -> &'static str
    ensures { result.now ≡ holds_word alone }
{
    if alone { "none" } else { "holds" }
}

/// Returns the word for agreement, if it is known.
pub(crate) fn agreement_word(alone: bool, found: &Found) -> Option<&'static str>
    ensures { option_map (λ word. word.now) result ≡ agreement_word alone found.now }
{
    match found {
        Found::Closed { agrees: true, .. } | Found::Theorem { agrees: true, .. } => {
            Some(holds_word(alone))
        }
        Found::Parts { .. } => Some("violated"),
        Found::Closed { .. } | Found::Theorem { .. } | Found::Unfinished { .. } => None,
    }
}

/// Returns the word for how clocks stabilise.
pub(crate) fn stabilisation_word(recovery: &Recovery) -> &'static str
    ensures { result.now ≡ stabilisation_word recovery.now }
{
    match recovery {
        Recovery::InStep { .. } => "certain",
        Recovery::Luck { .. } => "possible",
        Recovery::HeldOff => "preventable",
        Recovery::Unbounded => "unbounded",
        Recovery::Unknown { .. } => "undecided",
    }
}

/// Returns the word for what answers: a search, or the theorem on the built-in clock.
pub(crate) fn method_of(found: &Found) -> &'static str
    ensures { result.now ≡ method_of found.now }
{
    match found {
        Found::Closed { renamed: true, .. } => "renaming",
        Found::Closed { renamed: false, .. } | Found::Parts { .. } | Found::Unfinished { .. } =>
            "search",
        Found::Theorem { .. } => "theorem",
    }
}

/// Returns the word for a limit.
pub(crate) fn limit_word(cause: Cause) -> &'static str
    ensures { result.now ≡ limit_word cause }
{
    match cause {
        Cause::States => "states",
        Cause::Transitions => "transitions",
        Cause::Pulses => "depth",
        Cause::Inboxes { .. } => "inboxes",
        Cause::Counterexample => "counterexample",
        Cause::Memory => "memory",
    }
}

/// Returns the word for the limit that ended the search, if one did.
pub(crate) fn limit_of(found: &Found) -> Option<&'static str>
    ensures { option_map (λ word. word.now) result ≡ limit_of found.now }
{
    match found {
        Found::Closed { .. } | Found::Parts { .. } | Found::Theorem { .. } => None,
        Found::Unfinished { cause, .. } => Some(limit_word(*cause)),
    }
}

/// Returns how many states were seen.
pub(crate) fn states_of(found: &Found) -> u64
    ensures { result ≡ states_of found.now }
{
    match found {
        Found::Closed { states, .. }
        | Found::Parts { states, .. }
        | Found::Unfinished { states, .. } => *states,
        Found::Theorem { .. } => 0,
    }
}

/// Returns how many transitions were tried, if all were.
pub(crate) fn transitions_of(found: &Found) -> Option<u64>
    ensures { result ≡ transitions_of found.now }
{
    match found {
        Found::Closed { moves, .. } => Some(*moves),
        Found::Parts { .. } | Found::Theorem { .. } | Found::Unfinished { .. } => None,
    }
}

/// Returns the pulse of the counterexample that violates agreement.
pub(crate) fn violated_in(found: &Found) -> Option<u64>
    ensures { result ≡ violated_in found.now }
{
    match found {
        Found::Parts { pulse, .. } => Some(*pulse),
        Found::Closed { .. } | Found::Theorem { .. } | Found::Unfinished { .. } => None,
    }
}

/// Returns after how many pulses clocks agree for good, if that is told.
pub(crate) fn agreed_of(found: &Found) -> Option<u64>
    ensures { result ≡ agreed_of found.now }
{
    match found {
        Found::Closed { agreed, .. } => *agreed,
        Found::Parts { .. } | Found::Theorem { .. } | Found::Unfinished { .. } => None,
    }
}

/// Returns the bound on the stabilisation time, if there is one.
pub(crate) fn within(recovery: &Recovery) -> Option<u64>
    ensures { result ≡ within recovery.now }
{
    match recovery {
        Recovery::InStep { pulses } | Recovery::Luck { pulses } => Some(*pulses),
        Recovery::HeldOff | Recovery::Unbounded | Recovery::Unknown { .. } => None,
    }
}
