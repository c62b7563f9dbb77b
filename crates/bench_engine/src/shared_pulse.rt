//! A pulse of a shared bench.
ghost use Rattle.std.specs.Prelude.{◌≡◌, ◌≢◌, ◌≤◌, ℕ, List, ◌∷◌, ◌++◌, [], true, false, None, Some};
ghost use Rattle.std.specs.Prelude.{IfOk, IfErr, OnOk, OnErr};
ghost use Rattle.bench_core.specs.State.{AreCoins};
ghost use Rattle.bench_core.specs.Replay.{Opened, Closed};
ghost use Rattle.bench_shared.specs.Passes.{OneMore};
ghost use Rattle.bench_shared.specs.Told.{OpenedLast, TellsClose, TellsAgreement};
ghost use Rattle.bench_engine.specs.declared.engine_error.EngineError.TheVariants.{Work};
ghost use Rattle.bench_workers.specs.ThreadStarts.{has_failed};
ghost use Rattle.bench_workers.specs.declared.work_error.WorkError.TheVariants.{GateShut, NoThread};
ghost use Rattle.bench_workers.specs.declared.tasks.TheConstants.{MAX_WORKERS};
ghost use Rattle.bench_engine.specs.Pulses.{AddsReceipts, IsPulseRefusal, Stopped};
ghost use Rattle.bench_engine.specs.inner.Pulses.{IsLater};

use crate::engine_error::EngineError;
use bench_core::{NodeTask, PulseRecord};
use bench_shared::{Board, EnginePass, SharedBench};
use bench_workers::{Gate, TrackedThreads, run_tasks};
use std::alloc::Global;
use std::sync::Wait;
use std::sync::ledger::Ledger;
use std::thread::Threads;

/// Opens a pulse, runs its tasks on 1 to [`MAX_WORKERS`](crate::MAX_WORKERS) workers, closes it and posts its row.
/// What is refused past the opening is abandoned once all workers have ended; if that is refused, it is told as a
/// refused close, `NotOpen`.
pub fn pulse<B: Ledger, C: Ledger, R: Threads + Wait + Sync, G: Gate + Sync>(
    rt: &R,
    alloc: Global,
    shared: &SharedBench<B, C>,
    board: &Board,
    engine: &mut EnginePass<B, C>,
    gate: &G,
    workers: u32,
    coins: &[u32],
) -> Result<PulseRecord, EngineError>
    requires some { 1 ≤ workers }
    requires few { workers ≤ MAX_WORKERS }
    requires board { engine.old.board ≡ board.now }
    requires paid { engine.old.owed ≡ None }
    ensures closed { IfOk result (λ told.
        AddsReceipts engine.old.receipts (Opened coins.now ∷ Closed told.row ∷ []) engine.new.receipts) }
    ensures told { IfOk result (TellsClose shared.now.setup coins.now) }
    ensures agrees { IfOk result (TellsAgreement shared.now.setup) }
    ensures posted { IfOk result (λ told. engine.new.posted ≡ engine.old.posted ++ told.row ∷ []) }
    ensures stopped { IfErr result (λ e. Stopped e engine.old.receipts coins.now engine.new.receipts) }
    ensures silent { OnErr result (engine.new.posted ≡ engine.old.posted) }
    ensures paid { engine.new.owed ≡ None }
    ensures board { engine.new.board ≡ engine.old.board }
    ensures fits { OnOk result (AreCoins shared.now.setup.shape coins.now) }
    ensures refusal { IfErr result (IsPulseRefusal shared.now coins.now) }
    ensures open { G.always gate.now ≡ true → IfErr result (λ e. e ≢ Work GateShut) }
    ensures alone { workers ≡ 1 → IfErr result (λ e. e ≢ Work NoThread) }
{
    let mut threads = TrackedThreads::of(rt);
    pulse_with(
        &mut threads,
        alloc,
        shared,
        board,
        engine,
        gate,
        workers,
        coins,
    )
}

/// Does as [`pulse`], and tells whether a start of a thread failed.
pub fn pulse_with<B: Ledger, C: Ledger, R: Threads + Wait + Sync, G: Gate + Sync>(
    threads: &mut TrackedThreads<'_, R>,
    alloc: Global,
    shared: &SharedBench<B, C>,
    board: &Board,
    engine: &mut EnginePass<B, C>,
    gate: &G,
    workers: u32,
    coins: &[u32],
) -> Result<PulseRecord, EngineError>
    requires some { 1 ≤ workers }
    requires few { workers ≤ MAX_WORKERS }
    requires board { engine.old.board ≡ board.now }
    requires paid { engine.old.owed ≡ None }
    ensures closed { IfOk result (λ told.
        AddsReceipts engine.old.receipts (Opened coins.now ∷ Closed told.row ∷ []) engine.new.receipts) }
    ensures told { IfOk result (TellsClose shared.now.setup coins.now) }
    ensures agrees { IfOk result (TellsAgreement shared.now.setup) }
    ensures posted { IfOk result (λ told. engine.new.posted ≡ engine.old.posted ++ told.row ∷ []) }
    ensures stopped { IfErr result (λ e. Stopped e engine.old.receipts coins.now engine.new.receipts) }
    ensures silent { OnErr result (engine.new.posted ≡ engine.old.posted) }
    ensures paid { engine.new.owed ≡ None }
    ensures board { engine.new.board ≡ engine.old.board }
    ensures fits { OnOk result (AreCoins shared.now.setup.shape coins.now) }
    ensures refusal { IfErr result (IsPulseRefusal shared.now coins.now) }
    ensures open { G.always gate.now ≡ true → IfErr result (λ e. e ≢ Work GateShut) }
    ensures alone { workers ≡ 1 → IfErr result (λ e. e ≢ Work NoThread) }
    ensures thread { has_failed threads.new.starts ≡ false → IfErr result (λ e. e ≢ Work NoThread) }
{
    let tasks = match shared.open_pulse(threads.runtime, alloc, engine, coins) {
        Ok(tasks) => tasks,
        Err(error) => return Err(EngineError::Open(error)),
    };
    match run_and_close(threads, alloc, shared, engine, gate, workers, tasks) {
        Ok(told) => {
            board.post(engine, told.row);
            Ok(told)
        }
        Err(error) => match shared.abandon(threads.runtime, engine) {
            Ok(()) => Err(error),
            Err(refusal) => Err(EngineError::Close(refusal)),
        },
    }
}

/// Runs the tasks of the open pulse, and closes it.
fn run_and_close<B: Ledger, C: Ledger, R: Threads + Wait + Sync, G: Gate + Sync>(
    threads: &mut TrackedThreads<'_, R>,
    alloc: Global,
    shared: &SharedBench<B, C>,
    engine: &mut EnginePass<B, C>,
    gate: &G,
    workers: u32,
    tasks: Vec<NodeTask>,
) -> Result<PulseRecord, EngineError>
    requires some { 1 ≤ workers }
    requires few { workers ≤ MAX_WORKERS }
    requires paid { engine.old.owed ≡ None }
    ensures closed { IfOk result (λ told. OneMore engine.old.receipts (Closed told.row) engine.new.receipts) }
    ensures owed { IfOk result (λ told. engine.new.owed ≡ Some told.row) }
    ensures told { IfOk result (λ told. (coins : List ℕ)
        × OpenedLast engine.old.receipts coins × TellsClose shared.now.setup coins told) }
    ensures agrees { IfOk result (TellsAgreement shared.now.setup) }
    ensures board { engine.new.board ≡ engine.old.board }
    ensures posted { engine.new.posted ≡ engine.old.posted }
    ensures unchanged { OnErr result (engine.new ≡ engine.old) }
    ensures later { IfErr result IsLater }
    ensures open { G.always gate.now ≡ true → IfErr result (λ e. e ≢ Work GateShut) }
    ensures alone { workers ≡ 1 → IfErr result (λ e. e ≢ Work NoThread) }
    ensures thread { has_failed threads.new.starts ≡ false → IfErr result (λ e. e ≢ Work NoThread) }
{
    match run_tasks(threads, alloc, gate, workers, tasks) {
        Ok(dones) => match shared.close_pulse(threads.runtime, alloc, engine, dones) {
            Ok(told) => Ok(told),
            Err((_, error)) => Err(EngineError::Close(error)),
        },
        Err(error) => Err(EngineError::Work(error)),
    }
}
