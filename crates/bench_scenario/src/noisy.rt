//! Which nodes of a scenario have noise: a note for each node, changed by the loads and unloads before each pulse.
ghost use Rattle.std.specs.Prelude.{◌≡◌, ◌==◌, ◌&&◌, if◌then◌else◌, ℕ, Bool, false, IfOk, map};
ghost use Rattle.scenario_text.specs.Noise.{is_noise};
ghost use Rattle.bench_scenario.specs.Coins.{places_below};
ghost use Rattle.bench_scenario.specs.Noise.{after_loads, after_unloads, loads_node};

use scenario_text::{Load, Scenario, Unload};
use std::alloc::{AllocError, Global};

/// Notes that no node has noise.
pub(crate) fn quiet_nodes(alloc: Global, nodes: u32) -> Result<Vec<bool>, AllocError>
    ensures { IfOk result (λ noisy. noisy.items ≡ map (λ i. false) (places_below nodes)) }
{
    vec![in alloc; false; nodes as usize]
}

/// Notes whether a node has noise.
fn set_noise(noisy: &mut [bool], node: u32, noise: bool)
    ensures { (f : ℕ → Bool) (n : ℕ) → noisy.old ≡ map f (places_below n)
        → noisy.new ≡ map (λ i. if node == i then noise else f i) (places_below n) }
{
    let place = node as usize;
    if place < noisy.len() {
        noisy[place] = noise;
    }
}

/// Notes what a load makes of its nodes, if it is one before this pulse.
fn note_load(noisy: &mut [bool], load: &Load, pulse: u32)
    ensures { (f : ℕ → Bool) (n : ℕ) → noisy.old ≡ map f (places_below n)
        → noisy.new ≡ map (λ i. if loads_node pulse i load.now then is_noise load.now.kind else f i)
        (places_below n) }
{
    if load.pulse != pulse {
        return;
    }
    let noise = load.kind.is_noise();
    for node in &load.nodes {
        set_noise(noisy, *node, noise);
    }
}

fn note_loads(noisy: &mut [bool], loads: &[Load], pulse: u32)
    ensures { (f : ℕ → Bool) (n : ℕ) → noisy.old ≡ map f (places_below n)
        → noisy.new ≡ map (λ i. after_loads pulse i loads.now (f i)) (places_below n) }
{
    for load in loads {
        note_load(noisy, load, pulse);
    }
}

/// Notes that the node of an unload has no noise, if it is one before this pulse.
fn note_unload(noisy: &mut [bool], unload: &Unload, pulse: u32)
    ensures { (f : ℕ → Bool) (n : ℕ) → noisy.old ≡ map f (places_below n)
        → noisy.new ≡ map (λ i. if (unload.now.pulse == pulse) && (unload.now.node == i) then false else f i)
        (places_below n) }
{
    if unload.pulse == pulse {
        set_noise(noisy, unload.node, false);
    }
}

fn note_unloads(noisy: &mut [bool], unloads: &[Unload], pulse: u32)
    ensures { (f : ℕ → Bool) (n : ℕ) → noisy.old ≡ map f (places_below n)
        → noisy.new ≡ map (λ i. after_unloads pulse i unloads.now (f i)) (places_below n) }
{
    for unload in unloads {
        note_unload(noisy, unload, pulse);
    }
}

/// Notes what the loads and then the unloads before a pulse make of the nodes.
pub(crate) fn note_changes(noisy: &mut [bool], scenario: &Scenario, pulse: u32)
    ensures { (f : ℕ → Bool) (n : ℕ) → noisy.old ≡ map f (places_below n)
        → noisy.new ≡ map (λ i. after_unloads pulse i scenario.now.unloads.items
        (after_loads pulse i scenario.now.loads.items (f i))) (places_below n) }
{
    note_loads(noisy, scenario.loads.as_slice(), pulse);
    note_unloads(noisy, scenario.unloads.as_slice(), pulse);
}
