//! The run of a scenario before a watcher.
ghost use Rattle.std.specs.Prelude.{◌≡◌, ◌≤◌, ℕ, List, IfErr, IfOk, false, map};
ghost use Rattle.bench_workers.specs.Runs.{IsRun};
ghost use Rattle.bench_workers.specs.ThreadStarts.{has_failed};
ghost use Rattle.bench_workers.specs.Watching.{Seen, Watched};
ghost use Rattle.scenario_text.specs.Texts.{ReadsText};
ghost use Rattle.bench_scenario.specs.Events.{events_of};
ghost use Rattle.bench_scenario.specs.Runs.{bench_of};
ghost use Rattle.bench_scenario.specs.Watching.{ScenarioEndsAt, WatchedHasThreads};

use crate::paying::useful_workers;
use crate::run::bench_for;
use crate::schedule::events;
use bench_workers::{
    MAX_WORKERS, Open, Run, RunFault, TrackedThreads, WatchFault, Watcher, run_events_watched,
};
use scenario_text::Scenario;
use std::alloc::Global;
use std::sync::Wait;
use std::thread::Threads;

/// Why the run of a scenario before a watcher has no end.
#[derive(Clone, Copy, Debug, PartialEq, Eq)]
pub enum WatchedFault {
    /// There is no memory to begin it.
    Memory,
    Run(RunFault),
    /// The watcher stopped it at the event of this place.
    Stopped(u32),
}

/// Runs a scenario that was read, before a watcher that is shown each closed pulse and may stop it, on as many of the
/// workers as pay. `threads` tells whether a start of a thread failed.
pub fn run_watched<T: Threads + Wait + Sync, S, K: Watcher<S>>(
    threads: &mut TrackedThreads<'_, T>,
    alloc: Global,
    scenario: &Scenario,
    workers: u32,
    watcher: &mut K,
    sink: &mut S,
) -> Result<Run, WatchedFault>
    requires some { 1 ≤ workers }
    requires few { workers ≤ MAX_WORKERS }
    requires reads { (text : List ℕ) × ReadsText text scenario.now }
    ensures run { IfOk result (λ run. IsRun (bench_of scenario.now) (events_of scenario.now) run.records.items
        (map (λ memory. memory.items) run.memories.items)) }
    ensures watched { IfOk result (λ run. (xs : List Seen) × (run.records.items ≡ map (λ x. x.told) xs)
        × Watched K.tells (bench_of scenario.now) (events_of scenario.now) watcher.old sink.old xs watcher.new
        sink.new) }
    ensures ends { IfErr result
        (ScenarioEndsAt K.tells K.stops scenario.now watcher.old sink.old watcher.new sink.new) }
    ensures thread { has_failed threads.new.starts ≡ false → IfErr result WatchedHasThreads }
{
    let Ok(events) = events(alloc, scenario) else {
        return Err(WatchedFault::Memory);
    };
    let Ok(bench) = bench_for(alloc, scenario) else {
        return Err(WatchedFault::Memory);
    };
    let workers = useful_workers(scenario, workers);
    match run_events_watched(threads, alloc, &Open, workers, bench, events, watcher, sink) {
        Ok(run) => Ok(run),
        Err(WatchFault::Run(fault)) => Err(WatchedFault::Run(fault)),
        Err(WatchFault::Stopped(event)) => Err(WatchedFault::Stopped(event)),
    }
}
