//! The nodes of which properties speak in a pulse.
ghost use Rattle.std.specs.Prelude.{◌≡◌, ◌+◌, ◌&&◌, ◌||◌, ◌<◌, not, false, slice_index_or, IfOk, length, map, option_copied, []};
ghost use Rattle.bench_core.specs.State.{Node, node_at};
ghost use Rattle.bench_workers.specs.Watching.{seen_of};
ghost use Rattle.properties.specs.Views.{node_in_view};
ghost use Rattle.scenario_text.specs.Views.{frame_of};
ghost use Rattle.claimed_runs.specs.Claims.{is_flagged, is_spoken_of, judged_nodes, settled_flags_of, scenario_sizes};
ghost use Rattle.claimed_runs.specs.Views.{memory_lists};

use bench_core::{Bench, PulseRecord};
use bench_workers::Shown;
use properties::NodeView;
use rule_syntax::Sizes;
use scenario_text::Scenario;
use std::alloc::{AllocError, Global};

/// Returns the sizes of a scenario.
pub fn sizes_of(scenario: &Scenario) -> Sizes
    ensures { result ≡ scenario_sizes (frame_of scenario.now) }
{
    Sizes {
        nodes: scenario.nodes,
        faults: scenario.faults,
        modulus: scenario.modulus,
        memory: scenario.memory,
    }
}

/// Returns how many nodes a bench has.
fn node_count(bench: &Bench) -> u32
    ensures shape { result ≡ bench.now.setup.shape.nodes }
    ensures nodes { result ≡ length bench.now.state.nodes }
{
    let _history = bench.history(); // brings its replay
    bench.shape().nodes()
}

/// Returns the memory of each node.
pub(crate) fn memories(alloc: Global, bench: &Bench) -> Result<Vec<Vec<u8>>, AllocError>
    ensures { IfOk result (λ memories. memory_lists memories.items
        ≡ map (λ (x : Node). x.memory) bench.now.state.nodes) }
{
    let mut memories = Vec::new(alloc);
    for node in 0..node_count(bench) {
        memories.push(Vec::from_slice(alloc, bench.memory(node))?)?;
    }
    Ok(memories)
}

/// Returns a node's flag, false past the last.
fn is_flagged(flags: &[bool], node: u32) -> bool
    ensures { result ≡ is_flagged flags.now node }
{
    let place = node as usize;
    place < flags.len() && flags[place]
}

/// Returns whether a node was settled in the pulse before, if there was one.
fn was_settled(earlier: Option<&PulseRecord>, node: u32) -> bool
    ensures { result ≡ is_flagged (settled_flags_of (option_copied earlier.entry)) node }
{
    match earlier {
        Some(earlier) => is_flagged(earlier.settled.as_slice(), node),
        None => false,
    }
}

/// Returns whether a property speaks of a node in a pulse.
fn is_spoken_of(looks_back: bool, shown: &Shown, node: u32) -> bool
    ensures { result ≡ is_spoken_of looks_back (seen_of shown.now) node }
{
    let told = shown.told;
    is_flagged(told.settled.as_slice(), node) && (!looks_back || was_settled(shown.earlier, node))
}

/// Returns a node's memory before a pulse, empty if there is none.
fn memory_before(before: &[Vec<u8>], node: u32) -> &[u8]
    ensures { result.now ≡ slice_index_or (memory_lists before.now) node [] }
{
    let place = node as usize;
    if place < before.len() {
        before[place].as_slice()
    } else {
        &[]
    }
}

/// Returns the nodes of which a property speaks in a pulse.
pub(crate) fn judged_nodes<'a>(
    alloc: Global,
    shown: &Shown<'a>,
    before: &'a [Vec<u8>],
    looks_back: bool,
) -> Result<Vec<NodeView<'a>>, AllocError>
    ensures { IfOk result (λ nodes. map node_in_view nodes.items
        ≡ judged_nodes looks_back (memory_lists before.now) (seen_of shown.now)) }
{
    let bench = shown.bench;
    let mut nodes = Vec::new(alloc);
    for node in 0..node_count(bench) {
        if is_spoken_of(looks_back, shown, node) {
            nodes.push(NodeView {
                node,
                after: bench.memory(node),
                before: memory_before(before, node),
            })?;
        }
    }
    Ok(nodes)
}
