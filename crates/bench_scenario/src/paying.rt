//! On how many workers a scenario is run: on threads only where they pay (docs/THREADS.md, "When workers pay").
ghost use Rattle.std.specs.Prelude.{◌≡◌};
ghost use Rattle.bench_scenario.specs.inner.Paying.{announced_at, announced_by, announced_of, useful_workers};

use scenario_text::{Load, Scenario};

/// From this many steps on, threads pay in a pulse (benchmarks/README.md, "Workers").
const PAYING_STEPS: u64 = 100_000;

/// Returns what a load's program announces in a node: nothing if it isn't loaded there.
fn announced_of(load: &Load, node: u32) -> u32
    ensures { result ≡ announced_of load.now node }
{
    if load.nodes.as_slice().contains(&node) {
        load.program.budget()
    } else {
        0
    }
}

/// Returns the most that a program announces which comes into a node.
fn announced_at(loads: &[Load], node: u32) -> u32
    ensures { result ≡ announced_at loads.now node }
{
    let mut most = 0;
    for load in loads {
        most = announced_of(load, node).max(most);
    }
    most
}

/// Returns the sum of that over the nodes: no pulse takes more steps, if no messages are drawn. Those of noise are few.
fn announced_by(scenario: &Scenario) -> u64
    ensures { result ≡ announced_by scenario.now.loads.items scenario.now.nodes }
{
    let mut sum: u64 = 0;
    for node in 0..scenario.nodes {
        sum += u64::from(announced_at(scenario.loads.as_slice(), node));
    }
    sum
}

/// Returns as many of the workers as pay.
pub(crate) fn useful_workers(scenario: &Scenario, workers: u32) -> u32
    ensures { result ≡ useful_workers scenario.now workers }
{
    if announced_by(scenario) < PAYING_STEPS {
        1
    } else {
        workers
    }
}
