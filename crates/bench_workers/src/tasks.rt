//! The tasks of a pulse, run by its workers.
ghost use Rattle.std.specs.Prelude.{◌≡◌, ◌≢◌, ◌≤◌, true, false, IfOk, IfErr, OnOk};
ghost use Rattle.bench_core.specs.Tasks.{RanEach};
ghost use Rattle.bench_workers.specs.declared.work_error.WorkError.TheVariants.{GateShut, NoThread};
ghost use Rattle.bench_workers.specs.ThreadStarts.{has_failed};
ghost use Rattle.bench_workers.specs.declared.tasks.TheConstants.{MAX_WORKERS};

use crate::batch::run_batch;
use crate::deal::deal;
use crate::gate::Gate;
use crate::thread_starts::{ThreadStarts, TrackedThreads};
use crate::waiting::Waiting;
use crate::work_error::WorkError;
use crate::workers::{join_all, start_all};
use bench_core::{NodeDone, NodeTask};
use std::alloc::Global;
use std::sync::Wait;
use std::thread;
use std::thread::{Scope, Threads};

/// The most workers of a pulse.
pub const MAX_WORKERS: u32 = 8;

/// Runs each task once, by this many workers, each of which enters the gate once before its first task. One worker is
/// the caller's thread; for more, that many threads are started, and all are joined before this answers. `threads` tells
/// whether a start failed.
pub fn run_tasks<R: Threads + Wait + Sync, G: Gate + Sync>(
    threads: &mut TrackedThreads<'_, R>,
    alloc: Global,
    gate: &G,
    workers: u32,
    tasks: Vec<NodeTask>,
) -> Result<Vec<NodeDone>, WorkError>
    requires some { 1 ≤ workers }
    requires few { workers ≤ MAX_WORKERS }
    ensures ran { IfOk result (λ dones. RanEach tasks.items dones.items) }
    ensures open { G.always gate.now ≡ true → IfErr result (λ e. e ≢ GateShut) }
    ensures alone { workers ≡ 1 → IfErr result (λ e. e ≢ NoThread) }
    ensures thread { has_failed threads.new.starts ≡ false → IfErr result (λ e. e ≢ NoThread) }
{
    if workers == 1 {
        return run_alone(alloc, gate, tasks);
    }
    let rt = threads.runtime;
    let before = threads.starts;
    let (given, after) = thread::scope(
        thread::scope_env(),
        rt,
        |scope| -> (Result<Vec<NodeDone>, WorkError>, ThreadStarts)
            requires some { 1 ≤ workers }
            requires few { workers ≤ MAX_WORKERS }
            ensures ran { IfOk result.0 (λ dones. RanEach tasks.items dones.items) }
            ensures open { G.always gate.entry.now ≡ true → IfErr result.0 (λ e. e ≢ GateShut) }
            ensures thread { has_failed result.1 ≡ false → IfErr result.0 (λ e. e ≢ NoThread) }
        {
            let mut starts = before;
            let given = run_in(scope, rt, alloc, gate, workers, tasks, &mut starts);
            (given, starts)
        },
    );
    threads.starts = after;
    given
}

/// Runs each task once, on the caller's thread.
fn run_alone<G: Gate>(
    alloc: Global,
    gate: &G,
    tasks: Vec<NodeTask>,
) -> Result<Vec<NodeDone>, WorkError>
    ensures ran { IfOk result (λ dones. RanEach tasks.items dones.items) }
    ensures open { G.always gate.now ≡ true → IfErr result (λ e. e ≢ GateShut) }
    ensures alone { IfErr result (λ e. e ≢ NoThread) }
    ensures let_in { OnOk result (G.lets_in gate.now 0 ≡ true) }
{
    let Ok(room) = Vec::with_capacity(alloc, tasks.len()) else {
        return Err(WorkError::Memory);
    };
    match run_batch(gate, 0, Waiting::of(tasks), room) {
        Some(dones) => Ok(dones),
        None => Err(WorkError::GateShut),
    }
}

/// Runs each task once, on threads of the scope, and joins all that were started.
fn run_in<'s, E, R: Threads, G: Gate + Sync>(
    scope: &Scope<'s, E>,
    rt: &R,
    alloc: Global,
    gate: &'s G,
    workers: u32,
    tasks: Vec<NodeTask>,
    starts: &mut ThreadStarts,
) -> Result<Vec<NodeDone>, WorkError>
    requires some { 1 ≤ workers }
    requires few { workers ≤ MAX_WORKERS }
    ensures ran { IfOk result (λ dones. RanEach tasks.items dones.items) }
    ensures open { G.always gate.now ≡ true → IfErr result (λ e. e ≢ GateShut) }
    ensures thread { has_failed starts.new ≡ false → IfErr result (λ e. e ≢ NoThread) }
{
    let batches = deal(alloc, tasks, workers as usize)?;
    let (started, refused) = start_all(scope, alloc, gate, batches, starts);
    let joined = join_all(rt, alloc, started);
    match refused {
        Some(error) => Err(error),
        None => joined,
    }
}
