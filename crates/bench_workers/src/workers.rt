//! The workers of a pulse, on threads of a scope.
ghost use Rattle.std.specs.Prelude.{◌≡◌, ◌≢◌, ◌≤◌, ◌++◌, [], true, false, All, length, map, vec_len, vec_capacity};
ghost use Rattle.std.specs.Prelude.{IfOk, IfErr, IfSome, IfNone, IsSome, IsOk, OnOk};
ghost use Rattle.std.specs.List.{flat_map};
ghost use Rattle.bench_workers.specs.inner.Batches.{AreNumbered, RanInOrder};
ghost use Rattle.bench_workers.specs.ThreadStarts.{has_failed};
ghost use Rattle.bench_workers.specs.declared.work_error.WorkError.TheVariants.{GateShut, NoThread};
ghost use Rattle.bench_workers.specs.declared.tasks.TheConstants.{MAX_WORKERS};

use crate::batch::{Batch, run_batch};
use crate::gate::Gate;
use crate::thread_starts::ThreadStarts;
use crate::waiting::Waiting;
use crate::work_error::WorkError;
use bench_core::{NodeDone, NodeTask};
use std::alloc::Global;
use std::snapshot::Snapshot;
use std::thread::{PromisedHandle, Scope, Threads};

/// A worker that was started on its batch.
pub(crate) type Worker<G> = PromisedHandle<Option<Vec<NodeDone>>, Batch<G>>;

/// Starts a worker on its batch.
fn start<'s, E, G: Gate + Sync>(
    scope: &Scope<'s, E>,
    alloc: Global,
    gate: &'s G,
    worker: u32,
    tasks: Vec<NodeTask>,
    starts: &mut ThreadStarts,
) -> Result<Worker<G>, WorkError>
    ensures tasks { IfOk result (λ h. h.promise.tasks.value ≡ tasks.items) }
    ensures worker { IfOk result (λ h. h.promise.worker ≡ worker) }
    ensures gate { IfOk result (λ h. h.promise.gate.value ≡ gate.now) }
    ensures open { IfErr result (λ e. e ≢ GateShut) }
    ensures thread { has_failed starts.new ≡ false → IfErr result (λ e. e ≢ NoThread) }
{
    let Ok(room) = Vec::with_capacity(alloc, tasks.len()) else {
        return Err(WorkError::Memory);
    };
    let waiting = Waiting::of(tasks);
    let promise = Batch {
        gate: Snapshot::of(gate),
        worker,
        tasks: Snapshot::of(&waiting),
    };
    let job = move || -> Option<Vec<NodeDone>>
        requires empty { room.items ≡ [] }
        requires enough { length waiting ≤ vec_capacity room }
        requires len { vec_len room ≡ 0 }
        ensures open { G.always gate.entry.now ≡ true → IsSome result }
        ensures ran { IfSome result (λ dones. RanInOrder waiting dones.items) }
        ensures let_in { IsSome result → G.lets_in gate.entry.now worker ≡ true }
    { run_batch(gate, worker, waiting, room) };
    match starts.start_with(scope, promise, job) {
        Ok(handle) => Ok(handle),
        Err(_refused) => Err(WorkError::NoThread),
    }
}

/// Starts a worker on each batch, in order, until one can't be started. Answers those that were, and why one wasn't.
pub(crate) fn start_all<'s, E, G: Gate + Sync>(
    scope: &Scope<'s, E>,
    alloc: Global,
    gate: &'s G,
    batches: Vec<Vec<NodeTask>>,
    starts: &mut ThreadStarts,
) -> (Vec<Worker<G>>, Option<WorkError>)
    requires { vec_len batches ≤ MAX_WORKERS }
    ensures gate { All (λ h. h.promise.gate.value ≡ gate.now) result.0.items }
    ensures tasks { IfNone result.1 (map (λ h. h.promise.tasks.value) result.0.items
        ≡ map (λ b. b.items) batches.items) }
    ensures workers { AreNumbered (map (λ h. h.promise.worker) result.0.items) }
    ensures open { IfSome result.1 (λ e. e ≢ GateShut) }
    ensures thread { has_failed starts.new ≡ false → IfSome result.1 (λ e. e ≢ NoThread) }
{
    let Ok(mut started) = Vec::with_capacity(alloc, batches.len()) else {
        return (Vec::new(alloc), Some(WorkError::Memory));
    };
    let mut worker = 0;
    for batch in batches {
        match start(scope, alloc, gate, worker, batch, starts) {
            Ok(handle) => started.push_reserved(handle),
            Err(error) => return (started, Some(error)),
        }
        worker += 1;
    }
    (started, None)
}

/// Adds what a worker gave to what those before it gave.
fn gather(
    gathered: Result<Vec<NodeDone>, WorkError>,
    given: Option<Vec<NodeDone>>,
) -> Result<Vec<NodeDone>, WorkError>
    ensures both { OnOk result (IsOk gathered × IsSome given) }
    ensures items { IfOk result (λ all. IfOk gathered (λ before. IfSome given (λ more.
        all.items ≡ before.items ++ more.items))) }
    ensures open { IfErr gathered (λ e. e ≢ GateShut) → IsSome given → IfErr result (λ e. e ≢ GateShut) }
    ensures started { IfErr gathered (λ e. e ≢ NoThread) → IfErr result (λ e. e ≢ NoThread) }
{
    let mut dones = gathered?;
    let Some(mut given) = given else {
        return Err(WorkError::GateShut);
    };
    match dones.append(&mut given) {
        Ok(()) => Ok(dones),
        Err(_) => Err(WorkError::Memory),
    }
}

/// Joins every worker, and gathers what they gave, in order.
pub(crate) fn join_all<R: Threads, G: Gate>(
    rt: &R,
    alloc: Global,
    started: Vec<Worker<G>>,
) -> Result<Vec<NodeDone>, WorkError>
    ensures ran { IfOk result (λ dones.
        RanInOrder (flat_map (λ h. h.promise.tasks.value) started.items) dones.items) }
    ensures let_in { OnOk result (All (λ h. G.lets_in h.promise.gate.value h.promise.worker ≡ true) started.items) }
    ensures open { All (λ h. G.always h.promise.gate.value ≡ true) started.items
        → IfErr result (λ e. e ≢ GateShut) }
    ensures started { IfErr result (λ e. e ≢ NoThread) }
{
    let mut gathered = Ok(Vec::new(alloc));
    for worker in started {
        let given = worker.join(rt);
        gathered = gather(gathered, given);
    }
    gathered
}
