//! The text of verdicts and answers.
ghost use Rattle.std.specs.Prelude.{◌≡◌, ◌++◌, OnOk, codes, flat_map, map, string_bytes};
ghost use Rattle.std.specs.Fmt.{decimal};
ghost use Rattle.properties.specs.Texts.{property_answer_text, claim_line, pair_text, violated_by_text, property_lines, verdict_name};
ghost use Rattle.properties.specs.Claims.{claimed_in, claims_in_view};

use crate::answers::{Answer, Violation};
use crate::claims::PulseClaims;
use crate::property::Property;
use crate::verdicts::PropertyVerdict;
use itoa::Buffer;
use std::alloc::AllocError;

fn add(text: &mut String, part: &str) -> Result<(), AllocError>
    ensures { OnOk result (string_bytes text.new ≡ string_bytes text.old ++ part.now) }
{
    text.push_str(part)
}

fn add_number(text: &mut String, number: u64) -> Result<(), AllocError>
    ensures { OnOk result (string_bytes text.new ≡ string_bytes text.old ++ decimal number) }
{
    let mut digits = Buffer::new();
    add(text, digits.format(number))
}

fn verdict_name(verdict: PropertyVerdict) -> &'static str
    ensures { result.now ≡ verdict_name verdict }
{
    match verdict {
        PropertyVerdict::NotJudged => " none",
        PropertyVerdict::Holds => " yes",
        PropertyVerdict::Violated { .. } => " no",
    }
}

fn add_verdicts(text: &mut String, verdicts: &[PropertyVerdict]) -> Result<(), AllocError>
    ensures { OnOk result (string_bytes text.new ≡ string_bytes text.old ++ flat_map verdict_name verdicts.now) }
{
    for verdict in verdicts {
        add(text, verdict_name(*verdict))?;
    }
    Ok(())
}

/// Adds the line of a pulse.
pub(crate) fn add_claim_line(text: &mut String, claims: &PulseClaims) -> Result<(), AllocError>
    ensures { OnOk result (string_bytes text.new
        ≡ string_bytes text.old ++ claim_line (claims_in_view claims.now)) }
{
    add(text, "pulse ")?;
    add_number(text, u64::from(claims.pulse))?;
    add(text, " claims")?;
    add_verdicts(text, claims.verdicts.as_slice())?;
    add(text, "\n")
}

/// Adds the lines of pulses.
pub(crate) fn add_claim_lines(text: &mut String, pulses: &[PulseClaims]) -> Result<(), AllocError>
    ensures { OnOk result (string_bytes text.new
        ≡ string_bytes text.old ++ flat_map claim_line (claimed_in pulses.now)) }
{
    for claims in pulses {
        add_claim_line(text, claims)?;
    }
    Ok(())
}

fn add_nodes(text: &mut String, violation: Violation) -> Result<(), AllocError>
    ensures { OnOk result (string_bytes text.new ≡ string_bytes text.old ++ pair_text violation) }
{
    add(text, " by nodes ")?;
    add_number(text, u64::from(violation.first))?;
    add(text, " and ")?;
    add_number(text, u64::from(violation.second))
}

/// Adds the pulse of a violation, a sign, and the two nodes.
fn add_place(text: &mut String, violation: Violation, sign: &str) -> Result<(), AllocError>
    ensures { OnOk result (string_bytes text.new ≡ string_bytes text.old
        ++ violated_by_text violation sign.now) }
{
    add_number(text, u64::from(violation.pulse))?;
    add(text, sign)?;
    add_nodes(text, violation)
}

fn add_answer(text: &mut String, answer: Answer) -> Result<(), AllocError>
    ensures { OnOk result (string_bytes text.new ≡ string_bytes text.old ++ property_answer_text answer) }
{
    match answer {
        Answer::NothingJudged => add(text, "no pulse was judged"),
        Answer::Holds { judged } => {
            add(text, "holds in ")?;
            add_number(text, judged as u64)?;
            add(text, " pulses")
        }
        Answer::HoldsFrom { pulse } => {
            add(text, "holds from pulse ")?;
            add_number(text, u64::from(pulse))?;
            add(text, " on")
        }
        Answer::Violated {
            violated,
            judged,
            last,
        } => {
            add(text, "violated in ")?;
            add_number(text, violated as u64)?;
            add(text, " of ")?;
            add_number(text, judged as u64)?;
            add(text, " pulses, last in pulse ")?;
            add_place(text, last, "")
        }
        Answer::ViolatedLast { last } => {
            add(text, "violated in the last judged pulse, ")?;
            add_place(text, last, ",")
        }
    }
}

/// Adds the two lines of a property.
pub(crate) fn add_property(
    text: &mut String,
    property: &Property,
    answer: Answer,
) -> Result<(), AllocError>
    ensures { OnOk result (string_bytes text.new
        ≡ string_bytes text.old ++ property_lines property.now answer) }
{
    add(text, "line ")?;
    add_number(text, u64::from(property.line))?;
    add(text, ": ")?;
    add(text, property.text.as_str())?;
    add(text, "\n  ")?;
    add_answer(text, answer)?;
    add(text, "\n")
}
