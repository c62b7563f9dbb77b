//! The lines of an exploration of properties.
ghost use Rattle.std.specs.Prelude.{◌≡◌, ◌++◌, IfOk, OnOk, option_map, slice_get, string_bytes};
ghost use Rattle.serde_json.specs.View.{members_view, view};
ghost use Rattle.json_values.specs.Texts.{json_line};
ghost use Rattle.json_values.specs.Values.{option_data, with_members};
ghost use Rattle.exploration_json.specs.Claims.{answer_pulses, answer_violation, answer_word, claim_answer_members, claim_data, claim_limit, claim_line_at, claim_lines_from, claim_search_members, claim_states, claim_transitions, explored_claims_json, nodes_data, tried_data, tried_members};

use crate::line::add_nodes;
use crate::spans::{spans_value, start_value};
use crate::words::limit_word;
use exploration::{ClaimAnswer, ClaimFound, Tried, claim_answer};
use explored::ExploreOptions;
use json_values::{count_or_null, line_of, number_or_null, numbers, word_or_null};
use properties::{Property, Violation};
use serde_json::{Map, Value, put};
use std::alloc::{AllocError, Global};

fn answer_word(answer: ClaimAnswer) -> &'static str
    ensures { result.now ≡ answer_word answer }
{
    match answer {
        ClaimAnswer::Holds => "holds",
        ClaimAnswer::ViolatedBy(_) | ClaimAnswer::Violated => "violated",
        ClaimAnswer::HoldsAfter { .. } => "certain",
        ClaimAnswer::MayHoldAfter { .. } => "possible",
        ClaimAnswer::Prevented => "preventable",
        ClaimAnswer::Unbounded => "unbounded",
        ClaimAnswer::Undecided { .. } => "undecided",
        ClaimAnswer::Unfinished { .. } => "unfinished",
    }
}

/// Returns after how many pulses a property holds, or may hold.
fn answer_pulses(answer: ClaimAnswer) -> Option<u64>
    ensures { result ≡ answer_pulses answer }
{
    match answer {
        ClaimAnswer::HoldsAfter { pulses } | ClaimAnswer::MayHoldAfter { pulses } => Some(pulses),
        ClaimAnswer::Holds
        | ClaimAnswer::ViolatedBy(_)
        | ClaimAnswer::Violated
        | ClaimAnswer::Prevented
        | ClaimAnswer::Unbounded
        | ClaimAnswer::Undecided { .. }
        | ClaimAnswer::Unfinished { .. } => None,
    }
}

/// Returns how the counterexample violates a property.
fn answer_violation(answer: ClaimAnswer) -> Option<Violation>
    ensures { result ≡ answer_violation answer }
{
    match answer {
        ClaimAnswer::ViolatedBy(last) => Some(last),
        ClaimAnswer::Holds
        | ClaimAnswer::Violated
        | ClaimAnswer::HoldsAfter { .. }
        | ClaimAnswer::MayHoldAfter { .. }
        | ClaimAnswer::Prevented
        | ClaimAnswer::Unbounded
        | ClaimAnswer::Undecided { .. }
        | ClaimAnswer::Unfinished { .. } => None,
    }
}

/// Returns the two nodes of a violation, or null.
fn nodes_value(alloc: Global, violation: Option<Violation>) -> Result<Value, AllocError>
    ensures { IfOk result (λ v. view v ≡ option_data nodes_data violation) }
{
    match violation {
        Some(violation) => numbers(alloc, &[violation.first, violation.second]),
        None => Ok(Value::Null),
    }
}

/// Returns the pulse of a violation, or none.
fn pulse_of(violation: Option<Violation>) -> Option<u32>
    ensures { result ≡ option_map (λ v. v.pulse) violation }
{
    match violation {
        Some(violation) => Some(violation.pulse),
        None => None,
    }
}

/// Adds a property and its answer.
fn add_answer(
    alloc: Global,
    members: &mut Map<String, Value>,
    property: &Property,
    answer: ClaimAnswer,
) -> Result<(), AllocError>
    ensures { OnOk result (members_view members.new.entries ≡ with_members (members_view members.old.entries)
        (claim_answer_members property.now answer)) }
{
    let violation = answer_violation(answer);
    let claim = Value::try_from_str(alloc, property.text.as_str())?;
    let word = Value::try_from_str(alloc, answer_word(answer))?;
    let nodes = nodes_value(alloc, violation)?;
    put(members, alloc, "line", Value::from(property.line))?;
    put(members, alloc, "claim", claim)?;
    put(members, alloc, "answer", word)?;
    put(
        members,
        alloc,
        "pulses",
        count_or_null(answer_pulses(answer)),
    )?;
    put(
        members,
        alloc,
        "violated_in",
        number_or_null(pulse_of(violation)),
    )?;
    put(members, alloc, "nodes", nodes)
}

fn claim_states(found: &ClaimFound) -> u64
    ensures { result ≡ claim_states found.now }
{
    match found {
        ClaimFound::Closed { states, .. }
        | ClaimFound::Violated { states, .. }
        | ClaimFound::Unfinished { states, .. } => *states,
    }
}

fn claim_transitions(found: &ClaimFound) -> Option<u64>
    ensures { result ≡ claim_transitions found.now }
{
    match found {
        ClaimFound::Closed { moves, .. } => Some(*moves),
        ClaimFound::Violated { .. } | ClaimFound::Unfinished { .. } => None,
    }
}

/// Returns the limit that ended the search, if one did.
fn claim_limit(found: &ClaimFound) -> Option<&'static str>
    ensures { option_map (λ word. word.now) result ≡ claim_limit found.now }
{
    match found {
        ClaimFound::Closed { .. } | ClaimFound::Violated { .. } => None,
        ClaimFound::Unfinished { cause, .. } => Some(limit_word(*cause)),
    }
}

/// Adds how far the search came, and the scenario that shows the answer.
fn add_search(
    alloc: Global,
    members: &mut Map<String, Value>,
    found: &ClaimFound,
) -> Result<(), AllocError>
    ensures { OnOk result (members_view members.new.entries ≡ with_members (members_view members.old.entries)
        (claim_search_members found.now)) }
{
    let limit = word_or_null(alloc, claim_limit(found))?;
    let scenario = word_or_null(alloc, found.scenario())?;
    put(members, alloc, "states", Value::from(claim_states(found)))?;
    put(
        members,
        alloc,
        "transitions",
        count_or_null(claim_transitions(found)),
    )?;
    put(members, alloc, "limit", limit)?;
    put(members, alloc, "scenario", scenario)
}

/// Returns what the line of a property tells.
fn claim_value(alloc: Global, property: &Property, found: &ClaimFound) -> Result<Value, AllocError>
    ensures { IfOk result (λ v. view v ≡ claim_data property.now found.now) }
{
    let answer = claim_answer(property, found);
    let mut members = Map::new(alloc);
    add_answer(alloc, &mut members, property, answer)?;
    add_search(alloc, &mut members, found)?;
    Ok(Value::Object(members))
}

/// Returns the line of a property.
fn claim_line(alloc: Global, property: &Property, found: &ClaimFound) -> Result<String, AllocError>
    ensures { IfOk result (λ s. string_bytes s ≡ json_line (claim_data property.now found.now)) }
{
    let value = claim_value(alloc, property, found)?;
    line_of(alloc, &value)
}

/// Adds the line of the property at a place, if something was found of it.
fn add_line_at(
    alloc: Global,
    text: &mut String,
    property: &Property,
    place: usize,
    found: &[ClaimFound],
) -> Result<(), AllocError>
    ensures { OnOk result (string_bytes text.new ≡ string_bytes text.old
        ++ claim_line_at property.now (slice_get found.now place)) }
{
    let Some(found) = found.get(place) else {
        return Ok(());
    };
    let line = claim_line(alloc, property, found)?;
    text.push_str(line.as_str())
}

/// Adds the lines of the properties.
fn add_lines(
    alloc: Global,
    text: &mut String,
    properties: &[Property],
    found: &[ClaimFound],
) -> Result<(), AllocError>
    ensures { OnOk result (string_bytes text.new ≡ string_bytes text.old
        ++ claim_lines_from 0 properties.now found.now) }
{
    for place in 0..properties.len() {
        add_line_at(alloc, text, &properties[place], place, found)?;
    }
    Ok(())
}

/// Returns what the first line tells: who is who, and what was tried.
fn tried_value(alloc: Global, options: &ExploreOptions, tried: &Tried) -> Result<Value, AllocError>
    ensures { IfOk result (λ v. view v ≡ tried_data options.now tried.now) }
{
    let messages = spans_value(alloc, &tried.mail)?;
    let start = start_value(alloc, &options.start)?;
    let mut members = Map::new(alloc);
    add_nodes(alloc, &mut members, tried)?;
    put(&mut members, alloc, "messages", messages)?;
    put(&mut members, alloc, "start", start)?;
    Ok(Value::Object(members))
}

/// Returns the line of what was tried.
fn tried_line(alloc: Global, options: &ExploreOptions, tried: &Tried) -> Result<String, AllocError>
    ensures { IfOk result (λ s. string_bytes s ≡ json_line (tried_data options.now tried.now)) }
{
    let value = tried_value(alloc, options, tried)?;
    line_of(alloc, &value)
}

/// Returns a line of what was tried, and one of what was found of each property.
pub fn claims_lines(
    alloc: Global,
    options: &ExploreOptions,
    properties: &[Property],
    tried: &Tried,
    found: &[ClaimFound],
) -> Result<String, AllocError>
    ensures { IfOk result (λ text. string_bytes text
        ≡ explored_claims_json options.now tried.now properties.now found.now) }
{
    let mut text = tried_line(alloc, options, tried)?;
    add_lines(alloc, &mut text, properties, found)?;
    Ok(text)
}
