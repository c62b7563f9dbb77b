//! A worker's part of a pulse.
ghost use Rattle.std.specs.Prelude.{◌≡◌, ◌≤◌, [], true, IsSome, IfSome, length, vec_len, vec_capacity};
ghost use Rattle.bench_core.specs.Tasks.{IsAlike};
ghost use Rattle.bench_workers.specs.inner.Batches.{RanInOrder};

use crate::gate::Gate;
use crate::waiting::Waiting;
use bench_core::{NodeDone, NodeTask, Recent};
use bpf_run::RunScratch;
use std::snapshot::Snapshot;
use std::thread::Promise;

/// What a worker was given, as clauses see it.
pub(crate) struct Batch<G> {
    pub(crate) gate: Snapshot<G>,
    pub(crate) worker: u32,
    pub(crate) tasks: Snapshot<Waiting>,
}

impl<G> Drop for Batch<G> {
    fn drop(self) {
        let Self {
            gate: _,
            worker: _,
            tasks: _,
        } = self;
    }
}

/// What a worker gives is there where its gate always opens, and only where it let the worker in; and it is of the
/// tasks that the worker was given.
impl<G: Gate> Promise<Option<Vec<NodeDone>>> for Batch<G> {
    ghost use Rattle.std.specs.Prelude.{◌≡◌, true, IsSome, IfSome};
    ghost use Rattle.bench_workers.specs.inner.Batches.{RanInOrder};

    ghost kept_by = { λ batch given. (G.always batch.gate.value ≡ true → IsSome given)
        × IfSome given (λ dones. RanInOrder batch.tasks.value dones.items)
        × (IsSome given → G.lets_in batch.gate.value batch.worker ≡ true) };
}

/// Fewer tasks than this aren't compared: it would cost more than it saves, since images are compared, too.
const MIN_COMPARED: usize = 8;

/// Returns the places of the results that were run last, before this many tasks.
fn recent_of(tasks: usize) -> Recent {
    if tasks < MIN_COMPARED {
        Recent::never()
    } else {
        Recent::none(tasks)
    }
}

/// Returns the result of an equal input, if one of the places has it. Otherwise the task's own result will have the
/// next place.
fn alike<'a>(recent: &mut Recent, task: &NodeTask, dones: &'a [NodeDone]) -> Option<&'a NodeDone>
    ensures { IfSome result (λ done. IsAlike task.now done.now) }
{
    if !recent.is_patient() {
        return None;
    }
    let mut is_compared = false;
    for place in recent.places() {
        if let Some(done) = dones.get(place) {
            if task.may_be_alike(done) {
                if task.is_alike(done) {
                    recent.hit();
                    return Some(done);
                }
                is_compared = true;
            }
        }
    }
    recent.miss(dones.len(), is_compared);
    None
}

/// Enters the gate, which hands out the tasks, and then does each once, in order: it runs the task, all in one room, or
/// copies the result of an equal input. There is room for the results.
pub(crate) fn run_batch<G: Gate>(
    gate: &G,
    worker: u32,
    waiting: Waiting,
    room: Vec<NodeDone>,
) -> Option<Vec<NodeDone>>
    requires empty { room.items ≡ [] }
    requires enough { length waiting ≤ vec_capacity room }
    requires len { vec_len room ≡ 0 }
    ensures open { G.always gate.now ≡ true → IsSome result }
    ensures let_in { IsSome result → G.lets_in gate.now worker ≡ true }
    ensures ran { IfSome result (λ dones. RanInOrder waiting dones.items) }
{
    let tasks = waiting.enter(gate, worker)?;
    let mut dones = room;
    let mut bytes = RunScratch::new();
    let mut recent = recent_of(tasks.len());
    for task in tasks {
        let done = match alike(&mut recent, &task, &dones) {
            Some(other) => task.done_as(other),
            None => task.run_in(&mut bytes),
        };
        dones.push_reserved(done);
    }
    Some(dones)
}
