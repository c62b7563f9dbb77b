//! Calls on scenarios.

use crate::stop::{Ended, Stop, Wrong, expect, stubbornly};
use bench_engine::{MAX_WORKERS, Open, RunFault, RunRefusal, run_events};
use bench_scenario::{ScenarioFault, events, report, run_scenario};
use clock_nodes::ClockRule;
use node_env::Shape;
use scenario_text::{Place, Scenario, ScenarioError, scenario_in};
use std::alloc::Global;
use std::sync::Wait;
use std::thread::Threads;
use stream_io::Tracked;

const TEXT: &[u8] = b"nodes = 4
faults = 1
modulus = 8
memory = 8
pulses = 3
coins = \"ones\"
[[load]]
pulse = 1
nodes = [0, 1, 2, 3]
program = \"clock\"
";

const REPORT: &[u8] = b"nodes 4 faults 1 modulus 8
pulse 1 clocks 0 0 0 0 settled 0 steps 36 agree yes
pulse 2 clocks 1 1 1 1 settled 4 steps 44 agree yes
pulse 3 clocks 2 2 2 2 settled 4 steps 41 agree yes
agreed 3 of 3
";

/// A text with too many nodes.
const MANY: &[u8] = b"nodes = 33\n";

fn scenario(alloc: Global) -> Result<Scenario, Stop> {
    scenario_of(alloc, TEXT)
}

fn scenario_of(alloc: Global, text: &[u8]) -> Result<Scenario, Stop> {
    scenario_in(alloc, text).map_err(|error| stop_of_text(&error))
}

fn stop_of_text(error: &ScenarioError) -> Stop {
    match error {
        ScenarioError::Memory(_) => Stop::Memory,
        _ => Stop::Wrong(Wrong::Refusal),
    }
}

/// Tries the scenario of a text.
pub fn reads(alloc: Global) -> Result<Ended, Stop> {
    let (scenario, ended) = stubbornly(|| scenario(alloc))?;
    expect(scenario.nodes == 4 && scenario.pulses == 3, Wrong::Answer)?;
    match scenario.loads.as_slice() {
        [load] => expect(
            load.nodes.as_slice() == [0, 1, 2, 3].as_slice(),
            Wrong::Answer,
        )?,
        _ => return Err(Stop::Wrong(Wrong::Answer)),
    }
    Ok(ended)
}

/// Tries a text that is refused.
pub fn refuses(alloc: Global) -> Result<Ended, Stop> {
    let (is_told, ended) = stubbornly(|| match scenario_in(alloc, MANY) {
        Err(ScenarioError::Memory(_)) => Err(Stop::Memory),
        Err(
            ScenarioError::OutOfRange {
                place: Place::Top,
                key: "nodes",
            },
        ) => Ok(true),
        Ok(_) | Err(_) => Ok(false),
    })?;
    expect(is_told, Wrong::Answer)?;
    Ok(ended)
}

/// Tries the events of a scenario: four loads and the pulses.
pub fn schedules(alloc: Global) -> Result<Ended, Stop> {
    let scenario = scenario(alloc)?;
    let (events, ended) = stubbornly(|| Ok(events(alloc, &scenario)?))?;
    expect(events.len() == 7, Wrong::Answer)?;
    Ok(ended)
}

/// Tries the report of a run.
pub fn reports<R: Threads + Wait + Sync>(rt: &R, alloc: Global) -> Result<Ended, Stop> {
    let scenario = scenario(alloc)?;
    let events = events(alloc, &scenario)?;
    let Some(shape) = Shape::of(4, 8) else {
        return Err(Stop::Wrong(Wrong::Answer));
    };
    let Some(rule) = ClockRule::of(4, 1, 8) else {
        return Err(Stop::Wrong(Wrong::Answer));
    };
    let run = match run_events(rt, alloc, &Open, 1, shape, rule, events) {
        Ok(run) => run,
        Err(fault) => return Err(stop_of(fault)),
    };
    let (report, ended) = stubbornly(|| Ok(report(alloc, &scenario, &run)?))?;
    expect(
        report.text.as_bytes() == REPORT && report.agrees,
        Wrong::Answer,
    )?;
    Ok(ended)
}

/// Tries a run from the text to the report, with this many workers.
pub fn runs<R: Threads + Wait + Sync>(rt: &R, alloc: Global, workers: u32) -> Result<Ended, Stop> {
    let (written, ended) = stubbornly(|| written(rt, alloc, workers))?;
    expect(written.as_slice() == REPORT, Wrong::Answer)?;
    Ok(ended)
}

/// Returns what the run of a scenario writes. Nothing is written if it is refused.
fn written<R: Threads + Wait + Sync>(rt: &R, alloc: Global, workers: u32) -> Result<Vec<u8>, Stop> {
    let workers = workers.clamp(1, MAX_WORKERS);
    let mut reader = TEXT;
    let mut writer = Tracked::of(Vec::with_capacity(alloc, REPORT.len())?);
    match run_scenario(rt, alloc, &mut reader, &mut writer, workers) {
        Ok(()) => Ok(writer.stream),
        Err(fault) => {
            expect(writer.stream.is_empty(), Wrong::Changed)?;
            Err(stop_of_scenario(fault))
        }
    }
}

/// Returns what was refused.
fn stop_of(fault: RunFault) -> Stop {
    match fault.fault {
        RunRefusal::Memory => Stop::Memory,
        RunRefusal::NoThread => Stop::Thread,
        _ => Stop::Wrong(Wrong::Refusal),
    }
}

fn stop_of_scenario(fault: ScenarioFault) -> Stop {
    match fault {
        ScenarioFault::Memory => Stop::Memory,
        ScenarioFault::Run(fault) => stop_of(fault),
        ScenarioFault::Read | ScenarioFault::Refused(_) | ScenarioFault::Write { .. } => {
            Stop::Wrong(Wrong::Refusal)
        }
    }
}
