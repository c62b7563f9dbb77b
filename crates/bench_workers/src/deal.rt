//! The tasks of a pulse, dealt out to its workers.
ghost use Rattle.std.specs.Prelude.{◌≡◌, ◌≤◌, ◌<◌, [], ◌∷◌, ◌++◌, IfOk, IfErr, OnOk, get_or, map, slice_set, vec_len};
ghost use Rattle.std.specs.List.{flat_map};
ghost use Rattle.std.specs.List.Sorted.{IsPermutation};
ghost use Rattle.bench_workers.specs.inner.Batches.{AreDealt};
ghost use Rattle.bench_workers.specs.declared.work_error.WorkError.TheVariants.{Memory};
ghost use Rattle.bench_workers.specs.declared.tasks.TheConstants.{MAX_WORKERS};

use crate::work_error::WorkError;
use bench_core::NodeTask;
use std::alloc::Global;

/// Deals the tasks out in turn: the task at place k goes to worker k mod `workers`.
pub(crate) fn deal(
    alloc: Global,
    tasks: Vec<NodeTask>,
    workers: usize,
) -> Result<Vec<Vec<NodeTask>>, WorkError>
    requires some { 1 ≤ workers }
    requires few { workers ≤ MAX_WORKERS }
    ensures count { IfOk result (λ batches. vec_len batches ≡ workers) }
    ensures each { IfOk result (λ batches. AreDealt workers tasks.items (map (λ b. b.items) batches.items)) }
    ensures dealt { IfOk result (λ batches. IsPermutation tasks.items (flat_map (λ b. b.items) batches.items)) }
    ensures refusal { IfErr result (λ e. e ≡ Memory) }
{
    let mut batches = empty_batches(alloc, workers)?;
    let mut worker = 0;
    for task in tasks {
        give(&mut batches, worker, task)?;
        worker = (worker + 1) % workers;
    }
    Ok(batches)
}

/// Returns a batch without tasks for each worker.
fn empty_batches(alloc: Global, workers: usize) -> Result<Vec<Vec<NodeTask>>, WorkError>
    ensures count { IfOk result (λ batches. vec_len batches ≡ workers) }
    ensures none { IfOk result (λ batches. flat_map (λ b. b.items) batches.items ≡ []) }
    ensures refusal { IfErr result (λ e. e ≡ Memory) }
{
    let mut batches = Vec::new(alloc);
    for _worker in 0..workers {
        match batches.push(Vec::new(alloc)) {
            Ok(()) => {}
            Err(_) => return Err(WorkError::Memory),
        }
    }
    Ok(batches)
}

/// Puts a task last into a worker's batch.
fn give(batches: &mut Vec<Vec<NodeTask>>, worker: usize, task: NodeTask) -> Result<(), WorkError>
    requires { worker < vec_len batches.old }
    ensures count { vec_len batches.new ≡ vec_len batches.old }
    ensures given { OnOk result (IsPermutation (flat_map (λ b. b.items) batches.old.items ++ task ∷ [])
        (flat_map (λ b. b.items) batches.new.items)) }
    ensures batch { OnOk result (map (λ b. b.items) batches.new.items ≡ slice_set (map (λ b. b.items) batches.old.items)
        worker (get_or (map (λ b. b.items) batches.old.items) worker [] ++ task ∷ [])) }
    ensures refusal { IfErr result (λ e. e ≡ Memory) }
{
    let batch = &mut batches[worker];
    let Ok(()) = batch.push(task) else {
        return Err(WorkError::Memory);
    };
    Ok(())
}
