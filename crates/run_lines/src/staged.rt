//! What was staged before a pulse.
ghost use Rattle.std.specs.Prelude.{◌≡◌, ◌++◌, IfOk, OnOk, flat_map, map};
ghost use Rattle.serde_json.specs.View.{view};
ghost use Rattle.json_values.specs.Values.{list_data};
ghost use Rattle.run_lines.specs.Data.{load_kind_text, staged_data};
ghost use Rattle.run_lines.specs.Staged.{Corrupted, Loaded, Unloaded, staged_at, told_corrupt, told_load, told_unload};

use scenario_text::{Corrupt, Kind, Load, Scenario, Unload};
use serde_json::{Map, Value, put};
use std::alloc::{AllocError, Global};

fn kind_text(kind: Kind) -> &'static str
    ensures { result.now ≡ load_kind_text kind }
{
    match kind {
        Kind::Clock => "clock",
        Kind::Say => "say",
        Kind::Echo => "echo",
        Kind::Asm => "asm",
        Kind::Rule => "rule",
        Kind::Noise => "noise",
    }
}

/// Returns a load into one node.
fn loaded(alloc: Global, node: u32, kind: Kind) -> Result<Value, AllocError>
    ensures { IfOk result (λ v. view v ≡ staged_data (Loaded node kind)) }
{
    let program = Value::try_from_str(alloc, kind_text(kind))?;
    let mut members = Map::new(alloc);
    put(&mut members, alloc, "load", Value::from(node))?;
    put(&mut members, alloc, "program", program)?;
    Ok(Value::Object(members))
}

fn unloaded(alloc: Global, node: u32) -> Result<Value, AllocError>
    ensures { IfOk result (λ v. view v ≡ staged_data (Unloaded node)) }
{
    let mut members = Map::new(alloc);
    put(&mut members, alloc, "unload", Value::from(node))?;
    Ok(Value::Object(members))
}

fn corrupted(alloc: Global, node: u32) -> Result<Value, AllocError>
    ensures { IfOk result (λ v. view v ≡ staged_data (Corrupted node)) }
{
    let mut members = Map::new(alloc);
    put(&mut members, alloc, "corrupt", Value::from(node))?;
    Ok(Value::Object(members))
}

fn add_load(
    alloc: Global,
    values: &mut Vec<Value>,
    load: &Load,
    pulse: u32,
) -> Result<(), AllocError>
    ensures { OnOk result (map view values.new.items ≡ map view values.old.items
        ++ map staged_data (told_load pulse load.now)) }
{
    if load.pulse != pulse {
        return Ok(());
    }
    for node in &load.nodes {
        values.push(loaded(alloc, *node, load.kind)?)?;
    }
    Ok(())
}

fn add_loads(
    alloc: Global,
    values: &mut Vec<Value>,
    loads: &[Load],
    pulse: u32,
) -> Result<(), AllocError>
    ensures { OnOk result (map view values.new.items ≡ map view values.old.items
        ++ map staged_data (flat_map (told_load pulse) loads.now)) }
{
    for load in loads {
        add_load(alloc, values, load, pulse)?;
    }
    Ok(())
}

fn add_unloads(
    alloc: Global,
    values: &mut Vec<Value>,
    unloads: &[Unload],
    pulse: u32,
) -> Result<(), AllocError>
    ensures { OnOk result (map view values.new.items ≡ map view values.old.items
        ++ map staged_data (flat_map (told_unload pulse) unloads.now)) }
{
    for unload in unloads {
        if unload.pulse == pulse {
            values.push(unloaded(alloc, unload.node)?)?;
        }
    }
    Ok(())
}

fn add_corruptions(
    alloc: Global,
    values: &mut Vec<Value>,
    corruptions: &[Corrupt],
    pulse: u32,
) -> Result<(), AllocError>
    ensures { OnOk result (map view values.new.items ≡ map view values.old.items
        ++ map staged_data (flat_map (told_corrupt pulse) corruptions.now)) }
{
    for corruption in corruptions {
        if corruption.pulse == pulse {
            values.push(corrupted(alloc, corruption.node)?)?;
        }
    }
    Ok(())
}

/// Returns what was staged before a pulse: its loads, its unloads and its corruptions, each in order.
pub(crate) fn staged(alloc: Global, scenario: &Scenario, pulse: u32) -> Result<Value, AllocError>
    ensures { IfOk result (λ v. view v ≡ list_data staged_data (staged_at scenario.now pulse)) }
{
    let mut values = Vec::new(alloc);
    add_loads(alloc, &mut values, scenario.loads.as_slice(), pulse)?;
    add_unloads(alloc, &mut values, scenario.unloads.as_slice(), pulse)?;
    add_corruptions(alloc, &mut values, scenario.corruptions.as_slice(), pulse)?;
    Ok(Value::Array(values))
}
