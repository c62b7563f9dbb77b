//! The run of a scenario with another key, by itself or before a watcher.
ghost use Rattle.std.specs.Prelude.{◌≡◌, ℕ, List, IfOk, map};
ghost use Rattle.bench_workers.specs.declared.event.RunRefusal.TheVariants.{Memory};
ghost use Rattle.bench_workers.specs.Runs.{IsRun};
ghost use Rattle.bench_workers.specs.Watching.{Seen, Watched};
ghost use Rattle.scenario_text.specs.Texts.{ReadsText};
ghost use Rattle.bench_scenario.specs.Coins.{keyed};
ghost use Rattle.bench_scenario.specs.Events.{events_of};
ghost use Rattle.bench_scenario.specs.Runs.{bench_of};

use crate::run::bench_for;
use crate::schedule::events_with_key;
use bench_workers::{
    Open, Run, RunRefusal, TrackedThreads, WatchFault, Watcher, run_events_on, run_events_watched,
};
use scenario_text::Scenario;
use std::alloc::{AllocError, Global};
use std::sync::Wait;
use std::thread::Threads;

/// Runs a scenario that was read in the caller's thread, with this key in place of its own.
pub fn run_with_key<T: Threads + Wait + Sync>(
    rt: &T,
    alloc: Global,
    scenario: &Scenario,
    key: u64,
) -> Result<Run, AllocError>
    requires reads { (text : List ℕ) × ReadsText text scenario.now }
    ensures { IfOk result (λ run. IsRun (bench_of scenario.now) (events_of (keyed scenario.now key)) run.records.items
        (map (λ memory. memory.items) run.memories.items)) }
{
    let events = events_with_key(alloc, scenario, key)?;
    let bench = bench_for(alloc, scenario)?;
    let mut threads = TrackedThreads::of(rt);
    match run_events_on(&mut threads, alloc, &Open, 1, bench, events) {
        Ok(run) => Ok(run),
        Err(fault) => Err(want_of(fault.fault)),
    }
}

/// Runs a scenario that was read in the caller's thread, with this key in place of its own, before a watcher that is shown
/// each closed pulse. A watcher that stops the run ends it as lack of memory does.
pub fn run_watched_with_key<T: Threads + Wait + Sync, S, K: Watcher<S>>(
    rt: &T,
    alloc: Global,
    scenario: &Scenario,
    key: u64,
    watcher: &mut K,
    sink: &mut S,
) -> Result<Run, AllocError>
    requires reads { (text : List ℕ) × ReadsText text scenario.now }
    ensures run { IfOk result (λ run. IsRun (bench_of scenario.now) (events_of (keyed scenario.now key))
        run.records.items (map (λ memory. memory.items) run.memories.items)) }
    ensures watched { IfOk result (λ run. (xs : List Seen) × (run.records.items ≡ map (λ x. x.told) xs)
        × Watched K.tells (bench_of scenario.now) (events_of (keyed scenario.now key)) watcher.old sink.old xs
        watcher.new sink.new) }
{
    let events = events_with_key(alloc, scenario, key)?;
    let bench = bench_for(alloc, scenario)?;
    let mut threads = TrackedThreads::of(rt);
    match run_events_watched(&mut threads, alloc, &Open, 1, bench, events, watcher, sink) {
        Ok(run) => Ok(run),
        Err(WatchFault::Run(fault)) => Err(want_of(fault.fault)),
        Err(WatchFault::Stopped(_)) => Err(AllocError),
    }
}

/// Returns the fault of a run in the caller's thread, which stops for lack of memory alone.
pub(crate) fn want_of(refusal: RunRefusal) -> AllocError
    requires { refusal ≡ Memory }
{
    match refusal {
        RunRefusal::Memory => AllocError,
        RunRefusal::BadNode
        | RunRefusal::OtherShape
        | RunRefusal::BadImage
        | RunRefusal::HistoryFull
        | RunRefusal::BadCoins
        | RunRefusal::NoThread
        | RunRefusal::GateShut => unreachable!(),
    }
}
