//! How many pulses were judged, and how many violate a property.
ghost use Rattle.std.specs.Prelude.{◌≡◌, IfOk, map};
ghost use Rattle.claims_json.specs.Data.{judged_count, last_violated, violated_count};
ghost use Rattle.claims_json.specs.inner.Counting.{counting_form};
ghost use Rattle.properties.specs.Claims.{claimed_in, claims_in_view, verdict_at};

use properties::{Answer, Form, PropertyVerdict, PulseClaims, PulseVerdict, Violation, answer_of};
use std::alloc::{AllocError, Global};

/// The pulses of a run in which a property was judged: how many, how many of them violate it, and the last of these.
#[derive(Clone, Copy)]
pub(crate) struct Counts {
    pub(crate) judged: usize,
    pub(crate) violated: usize,
    pub(crate) last: Option<Violation>,
}

/// Returns the verdict on the property at a place.
fn verdict_at(place: usize, claims: &PulseClaims) -> PulseVerdict
    ensures { result ≡ verdict_at place (claims_in_view claims.now) }
{
    let verdicts = claims.verdicts.as_slice();
    let verdict = if place < verdicts.len() {
        verdicts[place]
    } else {
        PropertyVerdict::NotJudged
    };
    PulseVerdict {
        pulse: claims.pulse,
        verdict,
    }
}

/// Returns the verdicts on the property at a place, pulse by pulse.
pub(crate) fn verdicts_at(
    alloc: Global,
    place: usize,
    pulses: &[PulseClaims],
) -> Result<Vec<PulseVerdict>, AllocError>
    ensures { IfOk result (λ verdicts. verdicts.items ≡ map (verdict_at place) (claimed_in pulses.now)) }
{
    let mut verdicts = Vec::with_capacity(alloc, pulses.len())?;
    for claims in pulses {
        verdicts.push(verdict_at(place, claims))?;
    }
    Ok(verdicts)
}

/// Returns the form that judges the same pulses, and whose answer counts them.
fn counting_form(form: Form) -> Form
    ensures { result ≡ counting_form form }
{
    match form {
        Form::Always | Form::EventuallyAlways => Form::Always,
        Form::Within(pulses) => Form::Within(pulses),
    }
}

/// Returns the counts of a property with these verdicts.
pub(crate) fn counts_of(form: Form, verdicts: &[PulseVerdict]) -> Counts
    ensures judged { result.judged ≡ judged_count form verdicts.now }
    ensures violated { result.violated ≡ violated_count form verdicts.now }
    ensures last { result.last ≡ last_violated form verdicts.now }
{
    match answer_of(counting_form(form), verdicts) {
        Answer::NothingJudged | Answer::HoldsFrom { .. } | Answer::ViolatedLast { .. } => Counts {
            judged: 0,
            violated: 0,
            last: None,
        },
        Answer::Holds { judged } => Counts {
            judged,
            violated: 0,
            last: None,
        },
        Answer::Violated {
            violated,
            judged,
            last,
        } => Counts {
            judged,
            violated,
            last: Some(last),
        },
    }
}
