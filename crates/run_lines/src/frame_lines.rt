//! The first line and the last.
ghost use Rattle.std.specs.Prelude.{◌≡◌, ◌∷◌, [], IfOk, OnOk, codes, is_some, string_bytes};
ghost use Rattle.serde_json.specs.View.{members_view, view};
ghost use Rattle.scenario_text.specs.Views.{frame_of};
ghost use Rattle.json_values.specs.Texts.{json_line};
ghost use Rattle.json_values.specs.Values.{number_data, with_members};
ghost use Rattle.run_lines.specs.Data.{clock_members, frame_data, last_data, zero_members};

use bench_scenario::{RunSummary, clock_name};
use json_values::{line_of, place_or_null};
use scenario_text::{Scenario, ZERO_VERSION};
use serde_json::{Map, Value, put};
use std::alloc::{AllocError, Global};

/// Adds the version of the scenario, and its nodes and their rule.
fn add_rule(
    alloc: Global,
    members: &mut Map<String, Value>,
    scenario: &Scenario,
) -> Result<(), AllocError>
    ensures { OnOk result (members_view members.new.entries ≡ with_members (members_view members.old.entries)
        ((codes "format", number_data scenario.now.version)
        ∷ (codes "nodes", number_data scenario.now.nodes)
        ∷ (codes "faults", number_data scenario.now.faults)
        ∷ (codes "modulus", number_data scenario.now.modulus) ∷ [])) }
{
    put(members, alloc, "format", Value::from(scenario.version))?;
    put(members, alloc, "nodes", Value::from(scenario.nodes))?;
    put(members, alloc, "faults", Value::from(scenario.faults))?;
    put(members, alloc, "modulus", Value::from(scenario.modulus))
}

/// Adds the bytes of each memory, and the pulses.
fn add_extent(
    alloc: Global,
    members: &mut Map<String, Value>,
    scenario: &Scenario,
) -> Result<(), AllocError>
    ensures { OnOk result (members_view members.new.entries ≡ with_members (members_view members.old.entries)
        ((codes "memory", number_data scenario.now.memory)
        ∷ (codes "pulses", number_data scenario.now.pulses) ∷ [])) }
{
    put(members, alloc, "memory", Value::from(scenario.memory))?;
    put(members, alloc, "pulses", Value::from(scenario.pulses))
}

/// Adds whether 0 agrees with every clock, if the version knows that.
fn add_zero(
    alloc: Global,
    members: &mut Map<String, Value>,
    scenario: &Scenario,
) -> Result<(), AllocError>
    ensures { OnOk result (members_view members.new.entries ≡ with_members (members_view members.old.entries)
        (zero_members (frame_of scenario.now))) }
{
    if u64::from(scenario.version) < ZERO_VERSION {
        return Ok(());
    }
    put(
        members,
        alloc,
        "zero_agrees",
        Value::from(scenario.zero_agrees),
    )
}

/// Adds whose clock it is, and whether 0 agrees with every clock, if the version knows that.
fn add_clock(
    alloc: Global,
    members: &mut Map<String, Value>,
    scenario: &Scenario,
) -> Result<(), AllocError>
    ensures { OnOk result (members_view members.new.entries ≡ with_members (members_view members.old.entries)
        (clock_members (frame_of scenario.now) (is_some scenario.now.clock))) }
{
    if !scenario.is_judged() {
        return Ok(());
    }
    let clock = clock_name(scenario.version, scenario.clock.is_some());
    put(members, alloc, "clock", Value::try_from_str(alloc, clock)?)?;
    add_zero(alloc, members, scenario)
}

/// Returns what the first line tells.
fn frame_value(alloc: Global, scenario: &Scenario) -> Result<Value, AllocError>
    ensures { IfOk result (λ v. view v ≡ frame_data (frame_of scenario.now) (is_some scenario.now.clock)) }
{
    let mut members = Map::new(alloc);
    add_rule(alloc, &mut members, scenario)?;
    add_extent(alloc, &mut members, scenario)?;
    add_clock(alloc, &mut members, scenario)?;
    Ok(Value::Object(members))
}

/// Returns the first line: the numbers of the scenario.
pub fn frame_line(alloc: Global, scenario: &Scenario) -> Result<String, AllocError>
    ensures { IfOk result (λ s. string_bytes s
        ≡ json_line (frame_data (frame_of scenario.now) (is_some scenario.now.clock))) }
{
    let value = frame_value(alloc, scenario)?;
    line_of(alloc, &value)
}

/// Returns what the last line tells.
fn last_value(alloc: Global, summary: &RunSummary) -> Result<Value, AllocError>
    ensures { IfOk result (λ v. view v ≡ last_data summary.now) }
{
    let since = place_or_null(summary.in_step_since);
    let mut members = Map::new(alloc);
    put(&mut members, alloc, "agreed", Value::from(summary.agreed))?;
    put(&mut members, alloc, "of", Value::from(summary.judged))?;
    put(&mut members, alloc, "in_step_since", since)?;
    Ok(Value::Object(members))
}

/// Returns the last line: what the whole run results in.
pub fn last_line(alloc: Global, summary: &RunSummary) -> Result<String, AllocError>
    ensures { IfOk result (λ s. string_bytes s ≡ json_line (last_data summary.now)) }
{
    let value = last_value(alloc, summary)?;
    line_of(alloc, &value)
}
