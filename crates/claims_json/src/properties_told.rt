//! The line of a property.
ghost use Rattle.std.specs.Prelude.{◌≡◌, ◌∷◌, [], IfOk, OnOk, string_bytes};
ghost use Rattle.serde_json.specs.View.{members_view, view};
ghost use Rattle.json_values.specs.Texts.{json_line};
ghost use Rattle.json_values.specs.Values.{with_members};
ghost use Rattle.claims_json.specs.Data.{property_answer_word, from_members, last_members, property_data, property_members};

use crate::counts::counts_of;
use json_values::{line_of, numbers};
use properties::{Answer, Property, PulseVerdict, Violation, answer_of};
use serde_json::{Map, Value, put};
use std::alloc::{AllocError, Global};

fn property_answer_word(answer: Answer) -> &'static str
    ensures { result.now ≡ property_answer_word answer }
{
    match answer {
        Answer::NothingJudged => "none",
        Answer::Holds { .. } | Answer::HoldsFrom { .. } => "holds",
        Answer::Violated { .. } | Answer::ViolatedLast { .. } => "violated",
    }
}

/// Adds the line and the text of a property, the counts and the answer.
fn add_property(
    alloc: Global,
    members: &mut Map<String, Value>,
    property: &Property,
    verdicts: &[PulseVerdict],
) -> Result<(), AllocError>
    ensures { OnOk result (members_view members.new.entries ≡ with_members (members_view members.old.entries)
        (property_members property.now verdicts.now)) }
{
    let counts = counts_of(property.form, verdicts);
    let claim = Value::try_from_str(alloc, property.text.as_str())?;
    let word = property_answer_word(answer_of(property.form, verdicts));
    let answer = Value::try_from_str(alloc, word)?;
    put(members, alloc, "line", Value::from(property.line))?;
    put(members, alloc, "claim", claim)?;
    put(members, alloc, "judged", Value::from(counts.judged))?;
    put(members, alloc, "violated", Value::from(counts.violated))?;
    put(members, alloc, "answer", answer)
}

/// Adds the last violated pulse and its two nodes, if there is one.
fn add_last(
    alloc: Global,
    members: &mut Map<String, Value>,
    last: Option<Violation>,
) -> Result<(), AllocError>
    ensures { OnOk result (members_view members.new.entries ≡ with_members (members_view members.old.entries)
        (last_members last)) }
{
    let Some(last) = last else {
        return Ok(());
    };
    let nodes = numbers(alloc, &[last.first, last.second])?;
    put(members, alloc, "last", Value::from(last.pulse))?;
    put(members, alloc, "nodes", nodes)
}

/// Adds the pulse from which the property holds, if the answer has it.
fn add_from(
    alloc: Global,
    members: &mut Map<String, Value>,
    answer: Answer,
) -> Result<(), AllocError>
    ensures { OnOk result (members_view members.new.entries ≡ with_members (members_view members.old.entries)
        (from_members answer)) }
{
    match answer {
        Answer::HoldsFrom { pulse } => put(members, alloc, "from", Value::from(pulse)),
        Answer::NothingJudged
        | Answer::Holds { .. }
        | Answer::Violated { .. }
        | Answer::ViolatedLast { .. } => Ok(()),
    }
}

/// Returns a property with its answer.
fn property_value(
    alloc: Global,
    property: &Property,
    verdicts: &[PulseVerdict],
) -> Result<Value, AllocError>
    ensures { IfOk result (λ v. view v ≡ property_data property.now verdicts.now) }
{
    let last = counts_of(property.form, verdicts).last;
    let answer = answer_of(property.form, verdicts);
    let mut members = Map::new(alloc);
    add_property(alloc, &mut members, property, verdicts)?;
    add_last(alloc, &mut members, last)?;
    add_from(alloc, &mut members, answer)?;
    Ok(Value::Object(members))
}

/// Returns the line of a property with these verdicts, pulse by pulse.
pub(crate) fn property_line(
    alloc: Global,
    property: &Property,
    verdicts: &[PulseVerdict],
) -> Result<String, AllocError>
    ensures { IfOk result (λ s. string_bytes s ≡ json_line (property_data property.now verdicts.now)) }
{
    let value = property_value(alloc, property, verdicts)?;
    line_of(alloc, &value)
}
