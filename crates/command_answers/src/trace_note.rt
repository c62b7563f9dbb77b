//! The words of the note on a run of a node that a scenario doesn't have.

use requests::NodeInPulse;
use scenario_text::{Load, Scenario};
use std::alloc::{AllocError, Global};

/// Returns what the scenario has in place of a node in a pulse.
pub(crate) fn words_on_trace(
    alloc: Global,
    options: NodeInPulse,
    scenario: &Scenario,
) -> Result<String, AllocError> {
    let NodeInPulse { pulse, node } = options;
    if pulse == 0 || scenario.pulses < pulse {
        let last = scenario.pulses;
        return format!(in alloc; "the scenario's pulses are 1 to {last}");
    }
    if scenario.nodes <= node {
        let last = scenario.nodes.saturating_sub(1);
        return format!(in alloc; "the scenario's nodes are 0 to {last}");
    }
    match next_load(&scenario.loads, pulse, node) {
        Some(next) => format!(in alloc;
            "node {node} has no program in pulse {pulse}; pulse {next} loads one"
        ),
        None => format!(in alloc;
            "node {node} has no program in pulse {pulse}, and no later pulse loads one"
        ),
    }
}

/// Returns the first pulse after this one that loads a program into the node.
fn next_load(loads: &[Load], pulse: u32, node: u32) -> Option<u32> {
    let mut next: Option<u32> = None;
    for load in loads {
        if load.pulse > pulse && load.nodes.contains(&node) {
            next = match next {
                Some(first) if first <= load.pulse => Some(first),
                _ => Some(load.pulse),
            };
        }
    }
    next
}
