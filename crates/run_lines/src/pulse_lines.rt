//! The line of a pulse.
ghost use Rattle.std.specs.Prelude.{◌≡◌, ◌∷◌, [], IfOk, OnOk, codes, length, string_bytes};
ghost use Rattle.serde_json.specs.Data.{boolean};
ghost use Rattle.serde_json.specs.View.{members_view, view};
ghost use Rattle.bench_workers.specs.Watching.{seen_of};
ghost use Rattle.scenario_text.specs.Views.{frame_of};
ghost use Rattle.json_values.specs.Texts.{ReadsBack, json_line};
ghost use Rattle.json_values.specs.Values.{list_data, number_data, option_data, with_members};
ghost use Rattle.run_lines.specs.Data.{memory_data, pulse_data, ran_data, sent_data, staged_data, verdict_members};
ghost use Rattle.run_lines.specs.Staged.{staged_at};

use crate::nodes::{memories, ran, sent};
use crate::staged::staged;
use bench_scenario::Judged;
use bench_workers::Shown;
use json_values::{flags, line_of, numbers, numbers_or_null, verdict_or_null};
use scenario_text::Scenario;
use serde_json::{Map, Value, put};
use std::alloc::{AllocError, Global};

/// Adds what was done in a pulse: its number, what was staged before it, the coins, and what each node ran.
fn add_doings(
    alloc: Global,
    members: &mut Map<String, Value>,
    scenario: &Scenario,
    shown: &Shown,
) -> Result<(), AllocError>
    ensures { OnOk result (members_view members.new.entries ≡ with_members (members_view members.old.entries)
        ((codes "pulse", number_data (seen_of shown.now).told.row.pulse)
        ∷ (codes "staged", list_data staged_data (staged_at scenario.now (seen_of shown.now).told.row.pulse))
        ∷ (codes "coins", list_data number_data (seen_of shown.now).coins)
        ∷ (codes "ran", list_data ran_data (seen_of shown.now).after.nodes) ∷ [])) }
{
    let told = shown.told;
    let pulse = told.row.pulse;
    put(members, alloc, "pulse", Value::from(pulse))?;
    put(members, alloc, "staged", staged(alloc, scenario, pulse)?)?;
    put(members, alloc, "coins", numbers(alloc, shown.coins)?)?;
    put(members, alloc, "ran", ran(alloc, shown.bench)?)
}

/// Adds what its record tells node by node, and the steps of each.
fn add_record(
    alloc: Global,
    members: &mut Map<String, Value>,
    shown: &Shown,
) -> Result<(), AllocError>
    ensures { OnOk result (members_view members.new.entries ≡ with_members (members_view members.old.entries)
        ((codes "clocks", list_data (option_data number_data) (seen_of shown.now).told.clocks)
        ∷ (codes "settled", list_data boolean (seen_of shown.now).told.settled)
        ∷ (codes "steps", list_data number_data (seen_of shown.now).steps) ∷ [])) }
{
    let told = shown.told;
    let clocks = numbers_or_null(alloc, told.clocks.as_slice())?;
    put(members, alloc, "clocks", clocks)?;
    put(
        members,
        alloc,
        "settled",
        flags(alloc, told.settled.as_slice())?,
    )?;
    put(members, alloc, "steps", numbers(alloc, shown.steps)?)
}

/// Adds what it left: the memories and the messages.
fn add_left(
    alloc: Global,
    members: &mut Map<String, Value>,
    shown: &Shown,
) -> Result<(), AllocError>
    ensures { OnOk result (members_view members.new.entries ≡ with_members (members_view members.old.entries)
        ((codes "memory", list_data memory_data (seen_of shown.now).after.nodes)
        ∷ (codes "sent", list_data (sent_data (length (seen_of shown.now).after.mail)) (seen_of shown.now).after.mail)
        ∷ [])) }
{
    put(members, alloc, "memory", memories(alloc, shown.bench)?)?;
    put(members, alloc, "sent", sent(alloc, shown.bench.mail())?)
}

/// Adds what is judged of it.
fn add_verdicts(
    alloc: Global,
    members: &mut Map<String, Value>,
    scenario: &Scenario,
    judged: Judged,
) -> Result<(), AllocError>
    ensures { OnOk result (members_view members.new.entries ≡ with_members (members_view members.old.entries)
        (verdict_members (frame_of scenario.now) judged)) }
{
    put(members, alloc, "agree", verdict_or_null(judged.agree))?;
    if !scenario.is_judged() {
        return Ok(());
    }
    put(members, alloc, "counts", verdict_or_null(judged.counts))
}

/// Returns what the line of a pulse tells.
fn pulse_value(
    alloc: Global,
    scenario: &Scenario,
    shown: &Shown,
    judged: Judged,
) -> Result<Value, AllocError>
    ensures { IfOk result (λ v. view v ≡ pulse_data (frame_of scenario.now) judged
        (staged_at scenario.now (seen_of shown.now).told.row.pulse) (seen_of shown.now)) }
{
    let mut members = Map::new(alloc);
    add_doings(alloc, &mut members, scenario, shown)?;
    add_record(alloc, &mut members, shown)?;
    add_left(alloc, &mut members, shown)?;
    add_verdicts(alloc, &mut members, scenario, judged)?;
    Ok(Value::Object(members))
}

/// Returns the line of a closed pulse of a scenario's run, of which this is judged. The text reads back as what the
/// line tells.
pub fn pulse_line(
    alloc: Global,
    scenario: &Scenario,
    shown: &Shown,
    judged: Judged,
) -> Result<String, AllocError>
    ensures line { IfOk result (λ s. string_bytes s ≡ json_line (pulse_data (frame_of scenario.now) judged
        (staged_at scenario.now (seen_of shown.now).told.row.pulse) (seen_of shown.now))) }
    ensures reads { OnOk result (ReadsBack (pulse_data (frame_of scenario.now) judged
        (staged_at scenario.now (seen_of shown.now).told.row.pulse) (seen_of shown.now))) }
{
    let value = pulse_value(alloc, scenario, shown, judged)?;
    line_of(alloc, &value)
}
