//! The messages of noise, and the programs that send them.
ghost use Rattle.std.specs.Prelude.{◌≡◌, ◌≤◌, ◌<◌, ◌+◌, ◌-◌, ◌*◌, ◌^◌, ◌++◌, IfOk, OnOk, map};
ghost use Rattle.bench_workers.specs.Events.{event_of};
ghost use Rattle.bench_scenario.specs.Coins.{keyed, places_below};
ghost use Rattle.bench_scenario.specs.Noise.{has_noise, message_of, messages_of, noise_events, noise_place, noise_program};

use crate::coins::generator_at;
use bench_core::Change;
use bench_workers::Event;
use bpf_verify::VerifiedProgram;
use node_env::MAX_NODES;
use rand_core::utils::NextWord;
use scenario_text::{Scenario, say_program};
use std::alloc::{AllocError, Global};

/// The stream of the generator from which messages are drawn; coins are drawn from another.
const NOISE_STREAM: u64 = 1;

/// What messages are drawn by: a key, and the pulse.
#[derive(Clone, Copy)]
pub(crate) struct Draw {
    pub(crate) key: u64,
    pub(crate) pulse: u32,
}

/// Returns the place of a node's first message in a pulse.
fn first_place(nodes: u32, pulse: u32, sender: u32) -> u64
    requires few { nodes ≤ MAX_NODES }
    requires first { 1 ≤ pulse }
    ensures { result ≡ noise_place nodes pulse sender 0 }
{
    let row = u64::from(pulse - 1) * u64::from(nodes) + u64::from(sender);
    row * u64::from(nodes)
}

/// Returns the message that a word gives.
fn message_of(modulus: u32, word: u32) -> Option<u32>
    ensures { result ≡ message_of modulus word }
{
    let modulus = u64::from(modulus);
    let drawn = u64::from(word) % (modulus + 2);
    if drawn == modulus + 1 {
        None
    } else {
        Some(drawn as u32)
    }
}

/// Returns the messages of a node in a pulse, by receiver.
fn messages(
    alloc: Global,
    scenario: &Scenario,
    draw: Draw,
    sender: u32,
) -> Result<Vec<Option<u32>>, AllocError>
    requires { 1 ≤ draw.pulse }
    ensures { IfOk result (λ sent. sent.items ≡ messages_of (keyed scenario.now draw.key) draw.pulse sender) }
{
    let place = first_place(scenario.nodes, draw.pulse, sender);
    let mut generator = generator_at(draw.key, NOISE_STREAM, place);
    let mut sent = Vec::with_capacity(alloc, scenario.nodes as usize)?;
    for _ in 0..scenario.nodes {
        sent.push(message_of(scenario.modulus, generator.next_word()))?;
    }
    Ok(sent)
}

/// Returns the program that sends a node's messages in a pulse.
fn noise_program(
    alloc: Global,
    scenario: &Scenario,
    draw: Draw,
    node: u32,
) -> Result<VerifiedProgram, AllocError>
    requires { 1 ≤ draw.pulse }
    ensures { IfOk result (λ v. v ≡ noise_program (keyed scenario.now draw.key) draw.pulse node) }
{
    let shape = scenario.shape();
    let sent = messages(alloc, scenario, draw, node)?;
    let program = say_program(alloc, shape, sent.as_slice())?;
    let _announced = program.budget(); // brings that it is the longest path
    Ok(program)
}

/// Adds to what is staged before a pulse the loads of the nodes that have noise.
pub(crate) fn add_noise(
    alloc: Global,
    row: &mut Vec<Event>,
    scenario: &Scenario,
    noisy: &[bool],
    draw: Draw,
) -> Result<(), AllocError>
    requires pulse { 1 ≤ draw.pulse }
    requires noisy { noisy.now ≡ map (has_noise scenario.now draw.pulse) (places_below scenario.now.nodes) }
    ensures { OnOk result (map event_of row.new.items ≡ map event_of row.old.items
        ++ noise_events (keyed scenario.now draw.key) draw.pulse) }
{
    for node in 0..scenario.nodes {
        if noisy[node as usize] {
            let program = noise_program(alloc, scenario, draw, node)?;
            row.push(Event::Stage(Change::Load { node, program }))?;
        }
    }
    Ok(())
}
