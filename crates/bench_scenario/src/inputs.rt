//! What a node runs in a pulse of the run of a scenario.
ghost use Rattle.std.specs.Prelude.{◌≡◌, ◌<◌, ◌≤◌, ℕ, List, Some, IfErr, IfOk, length, map};
ghost use Rattle.std.specs.FinMap.{get};
ghost use Rattle.bench_core.specs.State.{AreCoins, node_at};
ghost use Rattle.bench_workers.specs.Opening.{OpensPulse};
ghost use Rattle.scenario_text.specs.Texts.{ReadsText};
ghost use Rattle.bench_scenario.specs.Events.{events_of};
ghost use Rattle.bench_scenario.specs.Inputs.{FitsInput, IsInputOf, IsNoInput, RunsIn};
ghost use Rattle.bench_scenario.specs.Runs.{bench_of};

use crate::keyed::want_of;
use crate::run::bench_for;
use crate::schedule::events;
use bench_workers::{OpenBench, open_pulse_of};
use bpf_verify::VerifiedProgram;
use node_env::Mail;
use scenario_text::Scenario;
use std::alloc::{AllocError, Global};
use std::sync::Wait;
use std::thread::Threads;

/// What a node runs in a pulse.
#[derive(Drop)]
pub struct NodeInput {
    pub program: VerifiedProgram,
    /// Its memory when the pulse begins.
    pub memory: Vec<u8>,
    /// What each node sent to it in the pulse before, by sender.
    pub heard: Vec<Option<u32>>,
    pub coin: u32,
}

/// Why a node runs nothing in a pulse of a scenario.
#[derive(Clone, Copy, Debug, PartialEq, Eq)]
pub enum InputFault {
    /// The scenario doesn't have the pulse. Its first is pulse 1.
    NoPulse,
    NoNode,
    /// The node has no program in the pulse.
    NoProgram,
    Memory,
}

/// Returns what each node sent to this one.
fn heard_by(alloc: Global, mail: &Mail, node: u32) -> Result<Vec<Option<u32>>, AllocError>
    requires { node < length mail.now }
    ensures { IfOk result (λ heard. heard.items ≡ map (λ row. get row node) mail.now) }
{
    let mut heard = Vec::new(alloc);
    for sender in 0..mail.nodes() {
        heard.push(mail.slot(sender, node))?;
    }
    Ok(heard)
}

/// Returns the input of a node with this program, in an open pulse.
fn input_of(
    alloc: Global,
    opened: &OpenBench,
    node: u32,
    program: &VerifiedProgram,
) -> Result<NodeInput, AllocError>
    requires node { node < opened.now.bench.setup.shape.nodes }
    requires coins { AreCoins opened.now.bench.setup.shape opened.now.coins.items }
    requires program { (node_at opened.now.bench.state.nodes node).program ≡ Some program.now }
    ensures input { IfOk result (IsInputOf opened.now.bench.state opened.now.coins.items node) }
    ensures fits { IfOk result (FitsInput opened.now.bench.setup.shape node) }
{
    let bench = &opened.bench;
    let _history = bench.history(); // brings what holds of its state
    let program = program.copy()?;
    let memory = Vec::from_slice(alloc, bench.memory(node))?;
    let heard = heard_by(alloc, bench.mail(), node)?;
    let coin = opened.coins[node as usize];
    Ok(NodeInput {
        program,
        memory,
        heard,
        coin,
    })
}

/// Opens a pulse of the run of a scenario.
fn opened_in<T: Threads + Wait + Sync>(
    rt: &T,
    alloc: Global,
    scenario: &Scenario,
    pulse: u32,
) -> Result<OpenBench, AllocError>
    requires reads { (text : List ℕ) × ReadsText text scenario.now }
    requires first { 1 ≤ pulse }
    requires last { pulse ≤ scenario.now.pulses }
    ensures setup { IfOk result (λ o. o.bench.setup ≡ bench_of scenario.now) }
    ensures opened { IfOk result (λ o.
        OpensPulse (bench_of scenario.now) (events_of scenario.now) pulse o.coins.items o.bench.state) }
{
    let events = events(alloc, scenario)?;
    let bench = bench_for(alloc, scenario)?;
    match open_pulse_of(rt, alloc, bench, events, pulse) {
        Ok(opened) => Ok(opened),
        Err(fault) => Err(want_of(fault.fault)),
    }
}

/// Returns what a node runs in a pulse of the run of a scenario that was read. All is done in the caller's thread.
pub fn node_input<T: Threads + Wait + Sync>(
    rt: &T,
    alloc: Global,
    scenario: &Scenario,
    pulse: u32,
    node: u32,
) -> Result<NodeInput, InputFault>
    requires reads { (text : List ℕ) × ReadsText text scenario.now }
    ensures input { IfOk result (RunsIn scenario.now pulse node) }
    ensures fits { IfOk result (FitsInput (bench_of scenario.now).shape node) }
    ensures fault { IfErr result (IsNoInput scenario.now pulse node) }
{
    if pulse == 0 || scenario.pulses < pulse {
        return Err(InputFault::NoPulse);
    }
    if scenario.nodes <= node {
        return Err(InputFault::NoNode);
    }
    let Ok(opened) = opened_in(rt, alloc, scenario, pulse) else {
        return Err(InputFault::Memory);
    };
    let Some(program) = opened.bench.program(node) else {
        return Err(InputFault::NoProgram);
    };
    match input_of(alloc, &opened, node, program) {
        Ok(input) => Ok(input),
        Err(_) => Err(InputFault::Memory),
    }
}
