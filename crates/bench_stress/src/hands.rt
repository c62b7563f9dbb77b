//! The engine beside the loaders, on one bench.

ghost use Rattle.std.specs.Prelude.{◌≡◌, ◌≢◌, ◌+◌, ◌≤◌, None, Some, All, IfErr, IfOk, IsTrue, false, vec_len, Contains};
ghost use Rattle.bench_core.specs.Replay.{StagesAccepted};
ghost use Rattle.bench_shared.specs.Ends.{HasReplay};
ghost use Rattle.bench_shared.specs.declared.shared.TheConstants.{MAX_LOADERS};
ghost use Rattle.bench_workers.specs.declared.tasks.TheConstants.{MAX_WORKERS};
ghost use Rattle.bench_workers.specs.ThreadStarts.{has_failed};
ghost use Rattle.bench_workers.specs.declared.work_error.WorkError.TheVariants.{NoThread};
ghost use Rattle.bench_engine.specs.declared.engine_error.EngineError.TheVariants.{Work};
ghost use Rattle.bench_stress.specs.declared.stop.Stop.TheVariants.{Thread};
ghost use Rattle.bench_stress.specs.Stressed.{HasEntries, nearest, stressed_setup};

use crate::loaders::{Programs, accept_both, begin, join_all};
use crate::setup::setup;
use crate::stop::{Stop, first_of};
use bench_core::{CloseError, OpenError};
use bench_engine::{
    EngineError, MAX_WORKERS, Open, ThreadStarts, TrackedThreads, WorkError, pulse_with,
};
use bench_shared::{Board, EnginePass, Finished, LoaderPass, MAX_LOADERS, SharedBench, WatchPass};
use parameters::StressOptions;
use std::alloc::Global;
use std::marker::Brand;
use std::sync::Wait;
use std::sync::ledger::{Blank, Ledger};
use std::thread;
use std::thread::{Scope, Threads};

/// The coins of each pulse.
const COINS: [u32; 4] = [1, 1, 1, 1];

/// Returns what is told of a pulse that is refused.
fn of_pulse(error: EngineError) -> Stop
    ensures { error ≢ Work NoThread → result ≢ Thread }
{
    match error {
        EngineError::Open(OpenError::Memory)
        | EngineError::Work(WorkError::Memory)
        | EngineError::Close(CloseError::Memory) => Stop::Memory,
        EngineError::Work(WorkError::NoThread) => Stop::Thread,
        EngineError::Open(_) | EngineError::Work(WorkError::GateShut) | EngineError::Close(_) => {
            Stop::Mismatch
        }
    }
}

/// Runs the pulses, and looks at the board after each.
fn all_pulses<B: Ledger, C: Ledger, R: Threads + Wait + Sync>(
    threads: &mut TrackedThreads<'_, R>,
    alloc: Global,
    options: StressOptions,
    shared: &SharedBench<B, C>,
    board: &Board,
    engine: &mut EnginePass<B, C>,
    watch: &mut WatchPass,
) -> Option<Stop>
    requires some { 1 ≤ options.workers }
    requires few { options.workers ≤ MAX_WORKERS }
    requires board { engine.old.board ≡ board.now }
    requires watcher { watch.old.board ≡ board.now }
    requires paid { engine.old.owed ≡ None }
    ensures paid { engine.new.owed ≡ None }
    ensures thread { has_failed threads.new.starts ≡ false → result ≢ Some Thread }
{
    for _pulse in 0..options.pulses {
        match pulse_with(
            threads,
            alloc,
            shared,
            board,
            engine,
            &Open,
            options.workers,
            &COINS,
        ) {
            Ok(_told) => {
                let _seen = board.look(watch);
            }
            Err(error) => return Some(of_pulse(error)),
        }
    }
    None
}

/// Starts the loaders, runs the pulses beside them, and waits for the loaders. Where a loader can't be started no
/// pulse is run.
fn run_in<'s, E, B: Ledger + Send + Sync, C: Ledger + Send + Sync, R: Threads + Wait + Sync>(
    scope: &Scope<'s, E>,
    threads: &mut TrackedThreads<'s, R>,
    alloc: Global,
    options: StressOptions,
    shared: &'s SharedBench<B, C>,
    programs: &'s Programs,
    board: &Board,
    engine: &mut EnginePass<B, C>,
    watch: &mut WatchPass,
    passes: Vec<LoaderPass<B, C>>,
) -> (Vec<LoaderPass<B, C>>, Option<Stop>)
    requires some { 1 ≤ options.workers }
    requires few { options.workers ≤ MAX_WORKERS }
    requires board { engine.old.board ≡ board.now }
    requires watcher { watch.old.board ≡ board.now }
    requires paid { engine.old.owed ≡ None }
    ensures paid { engine.new.owed ≡ None }
    ensures thread { has_failed threads.new.starts ≡ false → result.1 ≢ Some Thread }
{
    let loads = options.loads;
    let (begun, refused) = begin(scope, threads, alloc, shared, programs, passes, loads);
    let stopped = match refused {
        None => all_pulses(threads, alloc, options, shared, board, engine, watch),
        Some(_) => None,
    };
    let (passes, failed) = join_all(threads.runtime, alloc, begun);
    (passes, first_of(refused, first_of(stopped, failed)))
}

/// The engine's pass and those of the loaders after their work, and why they stopped, if they did.
type Worked<B, C> = (EnginePass<B, C>, Vec<LoaderPass<B, C>>, Option<Stop>);

/// Returns the loaders in threads of their own, and the engine beside them on the caller's.
fn beside<B: Ledger + Send + Sync, C: Ledger + Send + Sync, R: Threads + Wait + Sync>(
    threads: &mut TrackedThreads<'_, R>,
    alloc: Global,
    options: StressOptions,
    shared: &SharedBench<B, C>,
    programs: &Programs,
    board: &Board,
    engine: EnginePass<B, C>,
    watch: WatchPass,
    passes: Vec<LoaderPass<B, C>>,
) -> Worked<B, C>
    requires some { 1 ≤ options.workers }
    requires few { options.workers ≤ MAX_WORKERS }
    requires board { engine.board ≡ board.now }
    requires watcher { watch.board ≡ board.now }
    requires paid { engine.owed ≡ None }
    ensures paid { result.0.owed ≡ None }
    ensures thread { has_failed threads.new.starts ≡ false → result.2 ≢ Some Thread }
{
    let runtime = threads.runtime;
    let before = threads.starts;
    let (worked, after) = thread::scope(
        thread::scope_env(),
        runtime,
        move |scope| -> (Worked<B, C>, ThreadStarts)
            requires some { 1 ≤ options.workers }
            requires few { options.workers ≤ MAX_WORKERS }
            requires board { engine.board ≡ board.now }
            requires watcher { watch.board ≡ board.now }
            requires paid { engine.owed ≡ None }
            ensures paid { result.0.0.owed ≡ None }
            ensures thread { has_failed result.1 ≡ false → result.0.2 ≢ Some Thread }
        {
            let (mut engine, mut watch) = (engine, watch);
            let mut threads = TrackedThreads {
                runtime,
                starts: before,
            };
            let (passes, stop) = run_in(
                scope,
                &mut threads,
                alloc,
                options,
                shared,
                programs,
                board,
                &mut engine,
                &mut watch,
                passes,
            );
            ((engine, passes, stop), threads.starts)
        },
    );
    threads.starts = after;
    worked
}

/// Returns the one watcher.
fn only(watchers: Vec<WatchPass>) -> WatchPass
    requires { vec_len watchers ≡ 1 }
    ensures { Contains watchers.items result }
{
    let mut watchers = watchers;
    match watchers.pop() {
        Some(watch) => watch,
        None => unreachable!(),
    }
}

/// Returns true if the history has the entries that the options ask for, and no other.
fn has_entries(finished: &Finished, options: StressOptions) -> bool
    ensures { IsTrue result → HasEntries options.loaders options.loads options.pulses finished.now }
{
    let loads = u64::from(options.loaders) * u64::from(options.loads);
    let pulses = u64::from(options.pulses);
    finished.loads() as u64 == loads
        && finished.closes() as u64 == pulses
        && finished.history().len() as u64 == loads + 2 * pulses
}

/// Returns the history of the bench after all that its hands did.
fn hands<B: Ledger + Send + Sync, C: Ledger + Send + Sync, R: Threads + Wait + Sync>(
    threads: &mut TrackedThreads<'_, R>,
    alloc: Global,
    options: StressOptions,
    entries: Blank,
    closes: Blank,
) -> Result<Finished, Stop>
    requires entries { (entries.name ≡ B.name) × (entries.parts ≡ B.parts) × (entries.parts ≡ options.loaders + 1) }
    requires closes { (closes.name ≡ C.name) × (closes.parts ≡ C.parts) × (closes.parts ≡ 1) }
    requires loaders { (1 ≤ options.loaders) × (options.loaders ≤ MAX_LOADERS) }
    requires workers { (1 ≤ options.workers) × (options.workers ≤ MAX_WORKERS) }
    ensures replays { IfOk result (HasReplay stressed_setup) }
    ensures accepted { IfOk result (All StagesAccepted) }
    ensures entries { IfOk result (HasEntries options.loaders options.loads options.pulses) }
    ensures thread { has_failed threads.new.starts ≡ false → IfErr result (λ stop. stop ≢ Thread) }
{
    let (shape, rule) = setup();
    let programs = accept_both(alloc, shape, rule)?;
    let opened = SharedBench::<B, C>::new(alloc, entries, closes, shape, rule, options.loaders, 1);
    let Ok((shared, board, engine, passes, watchers)) = opened else {
        return Err(Stop::Memory);
    };
    let watch = only(watchers);
    let (engine, passes, stop) = beside(
        threads, alloc, options, &shared, &programs, &board, engine, watch, passes,
    );
    if let Some(stop) = stop {
        return Err(stop);
    }
    let Ok(finished) = shared.finish(engine, passes) else {
        return Err(Stop::Mismatch);
    };
    if has_entries(&finished, options) {
        Ok(finished)
    } else {
        Err(Stop::Mismatch)
    }
}

/// Lets loaders and an engine work on one bench at once, in threads of their own. Returns the bench's history if
/// it is what their receipts say, and has the entries that the options ask for. Clamps the numbers of loaders and workers
/// to their ranges.
pub fn stress_bench<R: Threads + Wait + Sync>(
    rt: &R,
    alloc: Global,
    options: StressOptions,
) -> Result<Finished, Stop>
    ensures replays { IfOk result (HasReplay stressed_setup) }
    ensures accepted { IfOk result (All StagesAccepted) }
    ensures entries { IfOk result (HasEntries (nearest options.loaders) options.loads options.pulses) }
{
    stress_bench_with(&mut TrackedThreads::of(rt), alloc, options)
}

/// Does as [`stress_bench`], and tells whether a start of a thread failed.
pub fn stress_bench_with<R: Threads + Wait + Sync>(
    threads: &mut TrackedThreads<'_, R>,
    alloc: Global,
    options: StressOptions,
) -> Result<Finished, Stop>
    ensures replays { IfOk result (HasReplay stressed_setup) }
    ensures accepted { IfOk result (All StagesAccepted) }
    ensures entries { IfOk result (HasEntries (nearest options.loaders) options.loads options.pulses) }
    ensures thread { has_failed threads.new.starts ≡ false → IfErr result (λ stop. stop ≢ Thread) }
{
    let loaders = options.loaders.clamp(1, MAX_LOADERS);
    let workers = options.workers.clamp(1, MAX_WORKERS);
    let options = StressOptions {
        loaders,
        workers,
        ..options
    };
    let (entries, closes) = (Blank::new(u64::from(loaders) + 1), Blank::new(1));
    hands::<Brand, Brand, R>(threads, alloc, options, entries, closes)
}
