//! The line of an exploration.
ghost use Rattle.std.specs.Prelude.{◌≡◌, IfOk, OnOk, map, option_map, string_bytes};
ghost use Rattle.serde_json.specs.Data.{string};
ghost use Rattle.serde_json.specs.View.{members_view, view};
ghost use Rattle.json_values.specs.Texts.{ReadsBack, json_line};
ghost use Rattle.json_values.specs.Values.{list_data, number_data, option_data, with_members};
ghost use Rattle.exploration.specs.Answers.{is_alone};
ghost use Rattle.exploration_json.specs.Data.{agreement_word, answer_members, exploration_data, least_mean_of, mean_data, mean_of, node_members, odds_data, odds_most_parts, odds_of, odds_parts, pulses_of, question_members, reach_data, reach_of, scenario_of, search_members, stabilisation_of, stabilisation_word, word_data};

use crate::spans::{spans_value, start_value};
use crate::words::{
    agreed_of, agreement_word, limit_of, method_of, question_word, stabilisation_word, states_of,
    transitions_of, violated_in, within,
};
use exploration::{Found, Reach, Tried};
use explored::{ExploreOptions, MEAN_UNIT, ODDS_WHOLE, Odds, Recovery};
use json_values::{count_or_null, line_of, numbers, word_or_null};
use serde_json::{Map, Value, put};
use std::alloc::{AllocError, Global};

/// Adds who is who.
pub(crate) fn add_nodes(
    alloc: Global,
    members: &mut Map<String, Value>,
    tried: &Tried,
) -> Result<(), AllocError>
    ensures { OnOk result (members_view members.new.entries ≡ with_members (members_view members.old.entries)
        (node_members tried.now)) }
{
    let correct = numbers(alloc, &tried.correct)?;
    let programmed = numbers(alloc, &tried.programmed)?;
    let liars = numbers(alloc, &tried.liars)?;
    put(members, alloc, "correct", correct)?;
    put(members, alloc, "runs_clock", Value::Bool(tried.has_clock))?;
    put(members, alloc, "byzantine_loaded", programmed)?;
    put(members, alloc, "byzantine", liars)?;
    put(members, alloc, "faults", Value::from(tried.faults))
}

/// Adds what was asked and tried.
fn add_question(
    alloc: Global,
    members: &mut Map<String, Value>,
    options: &ExploreOptions,
    tried: &Tried,
) -> Result<(), AllocError>
    ensures { OnOk result (members_view members.new.entries ≡ with_members (members_view members.old.entries)
        (question_members options.now tried.now)) }
{
    let ask = Value::try_from_str(alloc, question_word(options.question))?;
    let messages = spans_value(alloc, &tried.mail)?;
    let start = start_value(alloc, &options.start)?;
    put(members, alloc, "ask", ask)?;
    put(members, alloc, "messages", messages)?;
    put(members, alloc, "start", start)
}

/// Adds how far the search came.
fn add_search(
    alloc: Global,
    members: &mut Map<String, Value>,
    found: &Found,
) -> Result<(), AllocError>
    ensures { OnOk result (members_view members.new.entries ≡ with_members (members_view members.old.entries)
        (search_members found.now)) }
{
    let limit = word_or_null(alloc, limit_of(found))?;
    let method = Value::try_from_str(alloc, method_of(found))?;
    put(members, alloc, "by", method)?;
    put(members, alloc, "states", Value::from(states_of(found)))?;
    put(
        members,
        alloc,
        "transitions",
        count_or_null(transitions_of(found)),
    )?;
    put(members, alloc, "limit", limit)
}

/// Returns how clocks stabilise, if that was asked and found.
fn stabilisation_of(found: &Found) -> Option<Recovery>
    ensures { result ≡ stabilisation_of found.now }
{
    match found {
        Found::Closed { recovery, .. } => *recovery,
        Found::Theorem {
            pulses: Some(pulses),
            ..
        } => Some(Recovery::Luck { pulses: *pulses }),
        Found::Theorem { pulses: None, .. } | Found::Parts { .. } | Found::Unfinished { .. } =>
            None,
    }
}

/// Returns the word for how clocks stabilise, or null.
fn stabilisation_value(alloc: Global, found: &Found) -> Result<Value, AllocError>
    ensures { IfOk result (λ v. view v ≡ word_data (option_map stabilisation_word (stabilisation_of found.now))) }
{
    match stabilisation_of(found) {
        Some(recovery) => Value::try_from_str(alloc, stabilisation_word(&recovery)),
        None => Ok(Value::Null),
    }
}

/// Returns the bound on the stabilisation time, or null.
fn pulses_value(found: &Found) -> Value
    ensures { view result ≡ option_data number_data (pulses_of (stabilisation_of found.now)) }
{
    match stabilisation_of(found) {
        Some(recovery) => count_or_null(within(&recovery)),
        None => Value::Null,
    }
}

/// Returns the odds, if they were asked.
fn odds_of(found: &Found) -> Option<&Odds>
    ensures { option_map (λ odds. odds.now) result ≡ odds_of found.now }
{
    match found {
        Found::Closed { odds, .. } => odds.as_ref(),
        Found::Parts { .. } | Found::Theorem { .. } | Found::Unfinished { .. } => None,
    }
}

/// Returns the counts.
fn counts(alloc: Global, counts: &[u64]) -> Result<Value, AllocError>
    ensures { IfOk result (λ v. view v ≡ list_data number_data counts.now) }
{
    let mut values = Vec::with_capacity(alloc, counts.len())?;
    for count in counts {
        values.push(Value::from(*count))?;
    }
    Ok(Value::Array(values))
}

/// Returns the parts of the whole, for each number of pulses, or null.
fn parts_value(alloc: Global, odds: &Odds) -> Result<Value, AllocError>
    ensures { IfOk result (λ v. view v ≡ option_data (list_data number_data) (odds_parts odds.now)) }
{
    match odds {
        Odds::Known { parts, .. } => counts(alloc, parts),
        Odds::Unknown { .. } => Ok(Value::Null),
    }
}

/// Returns those that some adversary leaves at most, or null.
fn most_parts_value(alloc: Global, odds: &Odds) -> Result<Value, AllocError>
    ensures { IfOk result (λ v. view v ≡ option_data (list_data number_data) (odds_most_parts odds.now)) }
{
    match odds {
        Odds::Known {
            most_parts: Some(parts),
            ..
        } => counts(alloc, parts),
        Odds::Known {
            most_parts: None,
            ..
        }
        | Odds::Unknown { .. } => Ok(Value::Null),
    }
}

/// Returns the bounds on the mean number of pulses, or null.
fn mean_value(alloc: Global, odds: &Odds) -> Result<Value, AllocError>
    ensures { IfOk result (λ v. view v ≡ option_data (mean_data (least_mean_of odds.now)) (mean_of odds.now)) }
{
    match odds {
        Odds::Known {
            mean: Some(parts),
            least_mean,
            ..
        } => mean_object(alloc, *parts, *least_mean),
        Odds::Known { mean: None, .. } | Odds::Unknown { .. } => Ok(Value::Null),
    }
}

/// Returns the bound from below or null, the parts of a pulse that a unit has, and the bound from above in them.
fn mean_object(alloc: Global, parts: u64, least: Option<u64>) -> Result<Value, AllocError>
    ensures { IfOk result (λ v. view v ≡ mean_data least parts) }
{
    let mut members = Map::new(alloc);
    put(&mut members, alloc, "least_parts", count_or_null(least))?;
    put(&mut members, alloc, "of", Value::from(MEAN_UNIT))?;
    put(&mut members, alloc, "parts", Value::from(parts))?;
    Ok(Value::Object(members))
}

/// Returns after how many pulses a share has stabilised, if that was asked and the odds are known.
fn reach_of(found: &Found) -> Option<Reach>
    ensures { result ≡ reach_of found.now }
{
    match found {
        Found::Closed { reach, .. } => *reach,
        Found::Parts { .. } | Found::Theorem { .. } | Found::Unfinished { .. } => None,
    }
}

/// Returns a share, and the number of pulses or null.
fn reach_object(alloc: Global, reach: Reach) -> Result<Value, AllocError>
    ensures { IfOk result (λ v. view v ≡ reach_data reach) }
{
    let mut members = Map::new(alloc);
    put(&mut members, alloc, "of", Value::from(reach.share.of))?;
    put(&mut members, alloc, "parts", Value::from(reach.share.parts))?;
    put(&mut members, alloc, "pulses", count_or_null(reach.pulses))?;
    Ok(Value::Object(members))
}

/// Returns the same, or null.
fn reach_value(alloc: Global, reach: Option<Reach>) -> Result<Value, AllocError>
    ensures { IfOk result (λ v. view v ≡ option_data reach_data reach) }
{
    match reach {
        Some(reach) => reach_object(alloc, reach),
        None => Ok(Value::Null),
    }
}

/// Returns the mean, the whole and its parts from both sides, and when a share has stabilised.
fn odds_object(alloc: Global, odds: &Odds, reach: Option<Reach>) -> Result<Value, AllocError>
    ensures { IfOk result (λ v. view v ≡ odds_data reach odds.now) }
{
    let mean = mean_value(alloc, odds)?;
    let most_parts = most_parts_value(alloc, odds)?;
    let parts = parts_value(alloc, odds)?;
    let reached = reach_value(alloc, reach)?;
    let mut members = Map::new(alloc);
    put(&mut members, alloc, "mean", mean)?;
    put(&mut members, alloc, "most_parts", most_parts)?;
    put(&mut members, alloc, "of", Value::from(ODDS_WHOLE))?;
    put(&mut members, alloc, "parts", parts)?;
    put(&mut members, alloc, "reach", reached)?;
    Ok(Value::Object(members))
}

/// Returns the odds, or null.
fn odds_value(alloc: Global, found: &Found) -> Result<Value, AllocError>
    ensures { IfOk result (λ v. view v ≡ option_data (odds_data (reach_of found.now)) (odds_of found.now)) }
{
    match odds_of(found) {
        Some(odds) => odds_object(alloc, odds, reach_of(found)),
        None => Ok(Value::Null),
    }
}

/// Returns the text of the counterexample, or null.
fn scenario_value(alloc: Global, found: &Found) -> Result<Value, AllocError>
    ensures { IfOk result (λ v. view v ≡ word_data (scenario_of found.now)) }
{
    match found {
        Found::Parts { shown, .. } => Value::try_from_str(alloc, shown.as_str()),
        Found::Closed {
            shown: Some(shown),
            ..
        } => Value::try_from_str(alloc, shown.as_str()),
        Found::Closed { .. } | Found::Theorem { .. } | Found::Unfinished { .. } => Ok(Value::Null),
    }
}

/// Returns the word for agreement, or null.
fn agreement_value(alloc: Global, tried: &Tried, found: &Found) -> Result<Value, AllocError>
    ensures { IfOk result (λ v. view v ≡ word_data (agreement_word (is_alone tried.now) found.now)) }
{
    let alone = tried.is_alone();
    word_or_null(alloc, agreement_word(alone, found))
}

/// Adds what was found.
fn add_answer(
    alloc: Global,
    members: &mut Map<String, Value>,
    tried: &Tried,
    found: &Found,
) -> Result<(), AllocError>
    ensures { OnOk result (members_view members.new.entries ≡ with_members (members_view members.old.entries)
        (answer_members tried.now found.now)) }
{
    let agreement = agreement_value(alloc, tried, found)?;
    let stabilisation = stabilisation_value(alloc, found)?;
    let odds = odds_value(alloc, found)?;
    let scenario = scenario_value(alloc, found)?;
    put(members, alloc, "agreement", agreement)?;
    put(
        members,
        alloc,
        "agreement_after",
        count_or_null(agreed_of(found)),
    )?;
    put(
        members,
        alloc,
        "violated_in",
        count_or_null(violated_in(found)),
    )?;
    put(members, alloc, "stabilisation", stabilisation)?;
    put(members, alloc, "pulses", pulses_value(found))?;
    put(members, alloc, "odds", odds)?;
    put(members, alloc, "scenario", scenario)
}

/// Returns what the line tells.
fn exploration_value(
    alloc: Global,
    options: &ExploreOptions,
    tried: &Tried,
    found: &Found,
) -> Result<Value, AllocError>
    ensures { IfOk result (λ v. view v ≡ exploration_data options.now tried.now found.now) }
{
    let mut members = Map::new(alloc);
    add_nodes(alloc, &mut members, tried)?;
    add_question(alloc, &mut members, options, tried)?;
    add_search(alloc, &mut members, found)?;
    add_answer(alloc, &mut members, tried, found)?;
    Ok(Value::Object(members))
}

/// Returns the line of what was tried and found.
pub fn exploration_line(
    alloc: Global,
    options: &ExploreOptions,
    tried: &Tried,
    found: &Found,
) -> Result<String, AllocError>
    ensures line { IfOk result (λ s. string_bytes s ≡ json_line (exploration_data options.now tried.now found.now)) }
    ensures reads { OnOk result (ReadsBack (exploration_data options.now tried.now found.now)) }
{
    let value = exploration_value(alloc, options, tried, found)?;
    line_of(alloc, &value)
}
