//! What exploring a bench found of properties.
ghost use Rattle.std.specs.Prelude.{◌≡◌};
ghost use Rattle.exploration.specs.Claims.{claim_answer, form_answer, liveness_answer, safety_answer, shown_from, skipped_pulses, unjudged};

use crate::answer::{Tried, Unfit};
use explored::{Cause, Recovery};
use properties::{Form, Property, Violation, has_before};

/// A scenario in whose run a property is violated, last in this pulse by these nodes.
#[derive(Debug, Drop)]
pub struct ClaimViolation {
    pub last: Violation,
    pub scenario: String,
}

/// What was found of a property.
#[derive(Debug, Drop)]
pub enum ClaimFound {
    /// Every transition was tried: of this many states, this many transitions.
    Closed {
        states: u64,
        moves: u64,
        /// How the property comes to hold for good.
        recovery: Recovery,
        /// A counterexample to `always` or `within`, if one was made.
        violation: Option<ClaimViolation>,
        /// The text of a run that repeats for ever, if the adversary can prevent the property and one was made.
        repeats: Option<String>,
    },
    /// A counterexample to `always` or `within` ended the search after this many states.
    Violated {
        states: u64,
        violation: ClaimViolation,
    },
    /// After this many states, and why.
    Unfinished {
        states: u64,
        cause: Cause,
    },
}

/// Why nothing is explored, or what was tried and found of each property.
#[derive(Debug, Drop)]
pub enum ClaimsFinding {
    Unfit(Unfit),
    Searched {
        tried: Tried,
        found: Vec<ClaimFound>,
    },
}

/// The answer on a property, for all runs.
#[derive(Clone, Copy, Debug, PartialEq, Eq)]
pub enum ClaimAnswer {
    Holds,
    /// Some run violates it: that of the counterexample in this pulse.
    ViolatedBy(Violation),
    /// Some run violates it, but no counterexample was made.
    Violated,
    /// It holds after this many pulses.
    HoldsAfter { pulses: u64 },
    /// From every reachable state some coins lead within this many pulses to where it holds for good.
    MayHoldAfter { pulses: u64 },
    /// The adversary can prevent for ever that it holds for good.
    Prevented,
    /// It comes to hold for good, with no bound on the pulses.
    Unbounded,
    /// It isn't decided, for lack of memory or since a state has too many choices.
    Undecided { memory: bool },
    Unfinished { cause: Cause },
}

/// Returns how many pulses of a run aren't judged by a property: the first, and also the second if its term is about the
/// pulse before.
fn unjudged(looks_back: bool) -> u32
    ensures { result ≡ unjudged looks_back }
{
    if looks_back { 2 } else { 1 }
}

/// Returns how many first pulses a property leaves out.
fn skipped_pulses(form: Form, looks_back: bool) -> u32
    ensures { result ≡ skipped_pulses form looks_back }
{
    let unjudged = unjudged(looks_back);
    match form {
        Form::Within(pulses) => { if pulses < unjudged { unjudged } else { pulses } }
        Form::Always | Form::EventuallyAlways => unjudged,
    }
}

/// Returns after how many first pulses a single pulse can violate a property: `eventually always` has no such pulse. It
/// steers the search for a counterexample, and nothing is promised of it.
pub fn safety_skip(property: &Property) -> Option<u32> {
    let form = property.form;
    match form {
        Form::Always | Form::Within(_) => {
            Some(skipped_pulses(form, has_before(&property.holds.term)))
        }
        Form::EventuallyAlways => None,
    }
}

/// Returns the answer on a property that has to hold in each pulse after the first so many.
fn safety_answer(skipped: u32, recovery: &Recovery) -> ClaimAnswer
    ensures { result ≡ safety_answer skipped recovery.now }
{
    match recovery {
        Recovery::InStep { pulses } => {
            if u64::from(skipped) < *pulses {
                ClaimAnswer::Violated
            } else {
                ClaimAnswer::Holds
            }
        }
        Recovery::Luck { .. } | Recovery::HeldOff | Recovery::Unbounded => ClaimAnswer::Violated,
        Recovery::Unknown { memory } => ClaimAnswer::Undecided { memory: *memory },
    }
}

/// Returns the answer on a property that has to hold from some pulse on.
fn liveness_answer(recovery: &Recovery) -> ClaimAnswer
    ensures { result ≡ liveness_answer recovery.now }
{
    match recovery {
        Recovery::InStep { pulses } => ClaimAnswer::HoldsAfter { pulses: *pulses },
        Recovery::Luck { pulses } => ClaimAnswer::MayHoldAfter { pulses: *pulses },
        Recovery::HeldOff => ClaimAnswer::Prevented,
        Recovery::Unbounded => ClaimAnswer::Unbounded,
        Recovery::Unknown { memory } => ClaimAnswer::Undecided { memory: *memory },
    }
}

/// Returns the answer by how a property comes to hold for good.
fn form_answer(form: Form, looks_back: bool, recovery: &Recovery) -> ClaimAnswer
    ensures { result ≡ form_answer form looks_back recovery.now }
{
    match form {
        Form::Always | Form::Within(_) => safety_answer(skipped_pulses(form, looks_back), recovery),
        Form::EventuallyAlways => liveness_answer(recovery),
    }
}

/// Returns the answer on a property of which this was found.
pub fn claim_answer(property: &Property, found: &ClaimFound) -> ClaimAnswer
    ensures { result ≡ claim_answer property.now found.now }
{
    match found {
        ClaimFound::Closed {
            violation: Some(violation),
            ..
        } => ClaimAnswer::ViolatedBy(violation.last),
        ClaimFound::Closed {
            recovery,
            violation: None,
            ..
        } => form_answer(property.form, has_before(&property.holds.term), recovery),
        ClaimFound::Violated { violation, .. } => ClaimAnswer::ViolatedBy(violation.last),
        ClaimFound::Unfinished { cause, .. } => ClaimAnswer::Unfinished { cause: *cause },
    }
}

impl ClaimFound {
    ghost use Rattle.std.specs.Prelude.{◌≡◌, option_map};
    ghost use Rattle.exploration.specs.Claims.{scenario_in};

    /// Returns the scenario that shows the answer, if there is one.
    pub fn scenario(&self) -> Option<&str>
        ensures { option_map (λ text. text.now) result ≡ scenario_in self.now }
    {
        match self {
            ClaimFound::Closed {
                violation: Some(violation),
                ..
            }
            | ClaimFound::Violated { violation, .. } => Some(violation.scenario.as_str()),
            ClaimFound::Closed {
                violation: None,
                repeats: Some(text),
                ..
            } => Some(text.as_str()),
            ClaimFound::Closed {
                violation: None,
                repeats: None,
                ..
            }
            | ClaimFound::Unfinished { .. } => None,
        }
    }
}

/// Returns the place of the first property whose answer has a scenario.
pub(crate) fn shown_place(found: &[ClaimFound]) -> Option<usize>
    ensures { result ≡ shown_from 0 found.now }
{
    for place in 0..found.len() {
        if found[place].scenario().is_some() {
            return Some(place);
        }
    }
    None
}
