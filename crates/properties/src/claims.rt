//! The pulses of a run with the verdicts on its properties, and the answers.
ghost use Rattle.std.specs.Prelude.{◌≡◌, ◌++◌, IfOk, OnOk, map, string_bytes};
ghost use Rattle.properties.specs.Claims.{answer_at, claimed_in, claims_in_view, verdict_at};
ghost use Rattle.properties.specs.Texts.{all_hold, answer_lines_from, claims_text, is_violation};

use crate::answers::{Answer, PulseVerdict, answer_of};
use crate::property::{Form, Property};
use crate::texts::{add_claim_lines, add_property};
use crate::verdicts::PropertyVerdict;
use std::alloc::{AllocError, Global};

/// A pulse, and the verdict on each property in it.
#[derive(Drop)]
pub struct PulseClaims {
    pub pulse: u32,
    pub verdicts: Vec<PropertyVerdict>,
}

/// Returns the verdict on the property at a place.
fn verdict_at(place: usize, claims: &PulseClaims) -> PulseVerdict
    ensures { result ≡ verdict_at place (claims_in_view claims.now) }
{
    let verdicts = claims.verdicts.as_slice();
    let verdict = if place < verdicts.len() {
        verdicts[place]
    } else {
        PropertyVerdict::NotJudged
    };
    PulseVerdict {
        pulse: claims.pulse,
        verdict,
    }
}

/// Returns the answer of the property at a place, which has this form.
pub fn answer_at(
    alloc: Global,
    form: Form,
    place: usize,
    pulses: &[PulseClaims],
) -> Result<Answer, AllocError>
    ensures { IfOk result (λ answer. answer ≡ answer_at form place (claimed_in pulses.now)) }
{
    let mut verdicts = Vec::new(alloc);
    for claims in pulses {
        verdicts.push(verdict_at(place, claims))?;
    }
    Ok(answer_of(form, verdicts.as_slice()))
}

fn is_violation(answer: Answer) -> bool
    ensures { result ≡ is_violation answer }
{
    match answer {
        Answer::NothingJudged | Answer::Holds { .. } | Answer::HoldsFrom { .. } => false,
        Answer::Violated { .. } | Answer::ViolatedLast { .. } => true,
    }
}

/// Adds two lines for each property, and returns true if none is violated.
fn add_answers(
    alloc: Global,
    text: &mut String,
    properties: &[Property],
    pulses: &[PulseClaims],
) -> Result<bool, AllocError>
    ensures text { OnOk result (string_bytes text.new
        ≡ string_bytes text.old ++ answer_lines_from 0 properties.now (claimed_in pulses.now)) }
    ensures holds { IfOk result (λ holds. holds ≡ all_hold properties.now (claimed_in pulses.now)) }
{
    let mut holds = true;
    for place in 0..properties.len() {
        let property = &properties[place];
        let answer = answer_at(alloc, property.form, place, pulses)?;
        add_property(text, property, answer)?;
        holds = holds && !is_violation(answer);
    }
    Ok(holds)
}

/// Adds a line for each pulse and two for each property, and returns true if none is violated.
pub fn add_claims(
    alloc: Global,
    text: &mut String,
    properties: &[Property],
    pulses: &[PulseClaims],
) -> Result<bool, AllocError>
    ensures text { OnOk result (string_bytes text.new
        ≡ string_bytes text.old ++ claims_text properties.now (claimed_in pulses.now)) }
    ensures holds { IfOk result (λ holds. holds ≡ all_hold properties.now (claimed_in pulses.now)) }
{
    add_claim_lines(text, pulses)?;
    add_answers(alloc, text, properties, pulses)
}
