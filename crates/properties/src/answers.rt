//! What the verdicts of a run's pulses say of a property.
ghost use Rattle.std.specs.Prelude.{◌≡◌, ◌<◌, ◌≤◌, ◌++◌, ◌∷◌, ◌+◌, ◌^◌, [], List};
ghost use Rattle.properties.specs.Answers.{answer, counts_for, left_out, violation_of, was_judged};
ghost use Rattle.properties.specs.inner.Tallies.{IsTally};

use crate::property::Form;
use crate::verdicts::PropertyVerdict;

/// The verdict on a property in a pulse.
#[derive(Clone, Copy, Debug, PartialEq, Eq)]
pub struct PulseVerdict {
    pub pulse: u32,
    pub verdict: PropertyVerdict,
}

/// A pulse in which a property is violated, and the first two nodes for which its term doesn't hold.
#[derive(Clone, Copy, Debug, PartialEq, Eq)]
pub struct Violation {
    pub pulse: u32,
    pub first: u32,
    pub second: u32,
}

/// What a run says of a property.
#[derive(Clone, Copy, Debug, PartialEq, Eq)]
pub enum Answer {
    NothingJudged,
    /// In all judged pulses.
    Holds {
        judged: usize,
    },
    /// From this pulse on.
    HoldsFrom {
        pulse: u32,
    },
    /// In some judged pulses it's violated, last in this one.
    Violated {
        violated: usize,
        judged: usize,
        last: Violation,
    },
    /// It's violated in the last judged pulse.
    ViolatedLast {
        last: Violation,
    },
}

/// What the verdicts so far say.
#[derive(Clone, Copy)]
struct Tally {
    judged: usize,
    violated: usize,
    last: Option<Violation>,
    /// The first judged pulse after the last violated one.
    since: Option<u32>,
}

fn left_out(form: Form) -> u32
    ensures { result ≡ left_out form }
{
    match form {
        Form::Always | Form::EventuallyAlways => 0,
        Form::Within(pulses) => pulses,
    }
}

fn was_judged(verdict: PropertyVerdict) -> bool
    ensures { result ≡ was_judged verdict }
{
    match verdict {
        PropertyVerdict::NotJudged => false,
        PropertyVerdict::Holds | PropertyVerdict::Violated { .. } => true,
    }
}

fn counts_for(form: Form, one: PulseVerdict) -> bool
    ensures { result ≡ counts_for form one }
{
    left_out(form) < one.pulse && was_judged(one.verdict)
}

fn violation_of(one: PulseVerdict) -> Option<Violation>
    ensures { result ≡ violation_of one }
{
    match one.verdict {
        PropertyVerdict::NotJudged | PropertyVerdict::Holds => None,
        PropertyVerdict::Violated { first, second } => Some(Violation {
            pulse: one.pulse,
            first,
            second,
        }),
    }
}

/// Returns the tally with one more verdict.
fn with_verdict(tally: Tally, form: Form, one: PulseVerdict) -> Tally
    requires few { tally.judged < 2 ^ 62 }
    requires fewer { tally.violated ≤ tally.judged }
    ensures tally { (vs : List PulseVerdict) → IsTally form vs tally → IsTally form (vs ++ one ∷ []) result }
    ensures few { result.judged ≤ tally.judged + 1 }
    ensures fewer { result.violated ≤ result.judged }
{
    if !counts_for(form, one) {
        return tally;
    }
    match violation_of(one) {
        Some(violation) => Tally {
            judged: tally.judged + 1,
            violated: tally.violated + 1,
            last: Some(violation),
            since: None,
        },
        None => Tally {
            judged: tally.judged + 1,
            violated: tally.violated,
            last: tally.last,
            since: Some(tally.since.unwrap_or(one.pulse)),
        },
    }
}

/// Returns what all verdicts say.
fn tally_of(form: Form, verdicts: &[PulseVerdict]) -> Tally
    ensures { IsTally form verdicts.now result }
{
    let mut tally = Tally {
        judged: 0,
        violated: 0,
        last: None,
        since: None,
    };
    for one in verdicts {
        tally = with_verdict(tally, form, *one);
    }
    tally
}

/// Returns what the verdicts of a run's pulses say of a property.
pub fn answer_of(form: Form, verdicts: &[PulseVerdict]) -> Answer
    ensures { result ≡ answer form verdicts.now }
{
    let tally = tally_of(form, verdicts);
    if tally.judged == 0 {
        return Answer::NothingJudged;
    }
    match (form, tally.last, tally.since) {
        (Form::EventuallyAlways, _, Some(pulse)) => Answer::HoldsFrom { pulse },
        (Form::EventuallyAlways, Some(last), None) => Answer::ViolatedLast { last },
        (Form::EventuallyAlways, None, None) => Answer::NothingJudged,
        (Form::Always | Form::Within(_), Some(last), _) => Answer::Violated {
            violated: tally.violated,
            judged: tally.judged,
            last,
        },
        (Form::Always | Form::Within(_), None, _) => Answer::Holds {
            judged: tally.judged,
        },
    }
}
