//! The events of a scenario. Each change is put once into the row of its pulse, and then the rows are joined.

ghost use Rattle.std.specs.Prelude.{◌≡◌, ◌++◌, ◌∷◌, [], ℕ, ◌≤◌, IfOk, OnOk, flat_map, get_or, length, map};
ghost use Rattle.bench_workers.specs.Events.{Pulse, event_of};
ghost use Rattle.bench_scenario.specs.Coins.{coins_in_pulse, keyed};
ghost use Rattle.bench_scenario.specs.Events.{corrupt_events, events_of, load_events, unload_events};
ghost use Rattle.bench_scenario.specs.inner.Rows.{AreChanges, Grew, of_pulse, told_events};

use crate::coins::coins_of;
use crate::noise::{Draw, add_noise};
use crate::noisy::{note_changes, quiet_nodes};
use bench_core::Change;
use bench_workers::Event;
use scenario_text::{Corrupt, Load, Scenario, Unload};
use std::alloc::{AllocError, Global};

/// Puts an event at the end of the row of this pulse. There is no row of pulse 0, and none past the last.
fn put(rows: &mut Vec<Vec<Event>>, pulse: u32, event: Event) -> Result<(), AllocError>
    ensures { OnOk result (Grew (told_events (λ r. r.items) rows.old.items) (told_events (λ r. r.items) rows.new.items)
        (of_pulse pulse (event_of event ∷ []))) }
{
    if pulse == 0 {
        return Ok(());
    }
    let place = (pulse - 1) as usize;
    if place >= rows.len() {
        return Ok(());
    }
    let row = &mut rows[place];
    row.push(event)?;
    Ok(())
}

fn put_load(rows: &mut Vec<Vec<Event>>, load: &Load) -> Result<(), AllocError>
    ensures { OnOk result (Grew (told_events (λ r. r.items) rows.old.items) (told_events (λ r. r.items) rows.new.items)
        (λ p. load_events p load.now)) }
{
    for node in &load.nodes {
        let program = load.program.copy()?;
        let change = Change::Load {
            node: *node,
            program,
        };
        put(rows, load.pulse, Event::Stage(change))?;
    }
    Ok(())
}

fn put_loads(rows: &mut Vec<Vec<Event>>, loads: &[Load]) -> Result<(), AllocError>
    ensures { OnOk result (Grew (told_events (λ r. r.items) rows.old.items) (told_events (λ r. r.items) rows.new.items)
        (λ p. flat_map (load_events p) loads.now)) }
{
    for load in loads {
        put_load(rows, load)?;
    }
    Ok(())
}

fn put_unloads(rows: &mut Vec<Vec<Event>>, unloads: &[Unload]) -> Result<(), AllocError>
    ensures { OnOk result (Grew (told_events (λ r. r.items) rows.old.items) (told_events (λ r. r.items) rows.new.items)
        (λ p. flat_map (unload_events p) unloads.now)) }
{
    for unload in unloads {
        let change = Change::Unload { node: unload.node };
        put(rows, unload.pulse, Event::Stage(change))?;
    }
    Ok(())
}

fn put_corruptions(
    alloc: Global,
    rows: &mut Vec<Vec<Event>>,
    corruptions: &[Corrupt],
) -> Result<(), AllocError>
    ensures { OnOk result (Grew (told_events (λ r. r.items) rows.old.items) (told_events (λ r. r.items) rows.new.items)
        (λ p. flat_map (corrupt_events p) corruptions.now)) }
{
    for corruption in corruptions {
        let image = Vec::from_slice(alloc, &corruption.image)?;
        let change = Change::Corrupt {
            node: corruption.node,
            image,
        };
        put(rows, corruption.pulse, Event::Stage(change))?;
    }
    Ok(())
}

fn empty_rows(alloc: Global, pulses: u32) -> Result<Vec<Vec<Event>>, AllocError>
    ensures count { IfOk result (λ rows. length (told_events (λ r. r.items) rows.items) ≡ pulses) }
    ensures none { IfOk result (λ rows. (k : ℕ) → get_or (told_events (λ r. r.items) rows.items) k [] ≡ []) }
{
    let mut rows = Vec::new(alloc);
    for _pulse in 0..pulses {
        rows.push(Vec::new(alloc))?;
    }
    Ok(rows)
}

/// Returns what is staged before each pulse: its loads, unloads and corruptions, each in order.
fn changes(alloc: Global, scenario: &Scenario) -> Result<Vec<Vec<Event>>, AllocError>
    ensures { IfOk result (λ rows. AreChanges scenario.now (told_events (λ r. r.items) rows.items) 0) }
{
    let mut rows = empty_rows(alloc, scenario.pulses)?;
    put_loads(&mut rows, scenario.loads.as_slice())?;
    put_unloads(&mut rows, scenario.unloads.as_slice())?;
    put_corruptions(alloc, &mut rows, scenario.corruptions.as_slice())?;
    Ok(rows)
}

fn add_events(
    alloc: Global,
    events: &mut Vec<Event>,
    row: &mut Vec<Event>,
    scenario: &Scenario,
    key: u64,
    pulse: u32,
) -> Result<(), AllocError>
    requires { 1 ≤ pulse }
    ensures { OnOk result (map event_of events.new.items ≡ map event_of events.old.items
        ++ (map event_of row.old.items ++ Pulse (coins_in_pulse (keyed scenario.now key) pulse) ∷ [])) }
{
    events.append(row)?;
    let coins = coins_of(alloc, scenario, key, pulse)?;
    events.push(Event::Pulse(coins))?;
    Ok(())
}

/// Returns what is done to the bench of a scenario, in order: for each pulse its loads, unloads and corruptions, then
/// the loads of drawn messages, and then the pulse.
pub fn events(alloc: Global, scenario: &Scenario) -> Result<Vec<Event>, AllocError>
    ensures { IfOk result (λ es. map event_of es.items ≡ events_of scenario.now) }
{
    events_with_key(alloc, scenario, scenario.key.unwrap_or(0))
}

/// Returns the same if the scenario has this key.
pub(crate) fn events_with_key(
    alloc: Global,
    scenario: &Scenario,
    key: u64,
) -> Result<Vec<Event>, AllocError>
    ensures { IfOk result (λ es. map event_of es.items ≡ events_of (keyed scenario.now key)) }
{
    let mut rows = changes(alloc, scenario)?;
    let mut noisy = quiet_nodes(alloc, scenario.nodes)?;
    let mut events = Vec::new(alloc);
    for before in 0..scenario.pulses {
        let draw = Draw {
            key,
            pulse: before + 1,
        };
        note_changes(noisy.as_mut_slice(), scenario, draw.pulse);
        let row = &mut rows[before as usize];
        add_noise(alloc, row, scenario, noisy.as_slice(), draw)?;
        add_events(alloc, &mut events, row, scenario, key, before + 1)?;
    }
    Ok(events)
}
