//! How many instructions each node ran in a pulse.
ghost use Rattle.std.specs.Prelude.{◌≡◌, [], IfOk, slice_set, unwrap_or};
ghost use Rattle.bench_core.specs.Told.{AreSteps};
ghost use Rattle.bench_core.specs.State.{coins_of};
ghost use Rattle.bench_core.specs.Tasks.{HandedOut, IsEnd, IsExact};

use crate::bench::Bench;
use crate::task::NodeDone;
use std::alloc::{AllocError, Global};

/// Puts the steps of a result at the place of its node, if there is one.
#[tactic(auto, using(std::proofs::lemmas::List::set_past))]
fn note(steps: &mut Vec<u32>, done: &NodeDone)
    ensures noted { steps.new.items ≡ slice_set steps.old.items done.now.task.node done.now.end.steps }
    ensures end { IsEnd done.now }
{
    let node = done.node() as usize;
    if node < steps.len() {
        steps[node] = done.steps();
    }
}

/// Returns how many instructions each node ran, by the results that close the open pulse of a bench.
pub fn steps_by_node(
    alloc: Global,
    bench: &Bench,
    dones: &[NodeDone],
) -> Result<Vec<u32>, AllocError>
    requires { IsExact (HandedOut bench.now) bench.now.state.nodes dones.now }
    ensures { IfOk result (λ steps. AreSteps bench.now.setup bench.now.state
        (coins_of bench.now.state) steps.items) }
{
    let _history = bench.history(); // brings its replay
    let nodes = bench.shape().nodes();
    let mut steps = vec![in alloc; 0; nodes as usize]?;
    for done in dones {
        note(&mut steps, done);
    }
    Ok(steps)
}
