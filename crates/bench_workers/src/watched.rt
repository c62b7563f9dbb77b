//! The run of a list of events before a watcher.
ghost use Rattle.std.specs.Prelude.{◌≡◌, ◌≢◌, ◌≤◌, ◌<◌, ◌++◌, ◌∷◌, [], List, true, false, None, IfOk, IfErr, OnOk, length, map, vec_len, vec_capacity};
ghost use Rattle.bench_core.specs.declared.limits.TheConstants.{MAX_ENTRIES};
ghost use Rattle.bench_core.specs.State.{new_state};
ghost use Rattle.bench_workers.specs.declared.event.RunRefusal.TheVariants.{GateShut, NoThread};
ghost use Rattle.bench_workers.specs.declared.tasks.TheConstants.{MAX_WORKERS};
ghost use Rattle.bench_workers.specs.declared.watched.Halt.TheVariants.{Refused};
ghost use Rattle.bench_workers.specs.Events.{Pulse, event_of};
ghost use Rattle.bench_workers.specs.Runs.{IsRun};
ghost use Rattle.bench_workers.specs.ThreadStarts.{has_failed};
ghost use Rattle.bench_workers.specs.Watching.{EndsAt, IsNot, Seen, Watched};
ghost use Rattle.bench_workers.specs.inner.Watching.{IsHalted, IsWatched};

use crate::engine::{memories_of, pulse, stage};
use crate::event::{Event, Run, RunFault, RunRefusal};
use crate::gate::Gate;
use crate::thread_starts::TrackedThreads;
use crate::watcher::{Shown, Stop, WatchFault, Watcher};
use bench_core::{Bench, PulseRecord, Ran};
use std::alloc::Global;
use std::sync::Wait;
use std::thread::Threads;

/// Why an event isn't done: it is refused, or the watcher stopped the run.
#[derive(Clone, Copy)]
pub(crate) enum Halt {
    Refused(RunRefusal),
    Stopped,
}

impl Halt {
    ghost use Rattle.std.specs.Prelude.{◌≡◌};
    ghost use Rattle.bench_workers.specs.inner.Watching.{fault_at};

    /// Returns the fault of a run that halted at this event.
    fn at(self, event: u32) -> WatchFault
        ensures { result ≡ fault_at self event }
    {
        match self {
            Halt::Refused(fault) => WatchFault::Run(RunFault { event, fault }),
            Halt::Stopped => WatchFault::Stopped(event),
        }
    }
}

/// What an event adds to the history at most: a pulse is opened and closed.
const ENTRIES_OF_EVENT: usize = 2;

/// Returns no records, with room for those of this many events if there is memory for them.
fn records_of(alloc: Global, events: usize) -> Vec<PulseRecord>
    ensures { result.items ≡ [] }
{
    match Vec::with_capacity(alloc, events) {
        Ok(records) => records,
        Err(_) => Vec::new(alloc),
    }
}

/// Puts a record if there is room.
fn keep(records: &mut Vec<PulseRecord>, told: PulseRecord)
    requires { vec_len records.old < vec_capacity records.old }
    ensures { records.new.items ≡ records.old.items ++ told ∷ [] }
{
    records.push(told).unwrap();
}

/// Runs a pulse, shows it and keeps its record.
fn show_pulse<R: Threads + Wait + Sync, G: Gate + Sync, S, K: Watcher<S>>(
    threads: &mut TrackedThreads<'_, R>,
    alloc: Global,
    gate: &G,
    workers: u32,
    bench: &mut Bench,
    records: &mut Vec<PulseRecord>,
    coins: Vec<u32>,
    watcher: &mut K,
    sink: &mut S,
) -> Result<(), Halt>
    requires some { 1 ≤ workers }
    requires few { workers ≤ MAX_WORKERS }
    requires closed { bench.old.state.coins ≡ None }
    ensures ok { OnOk result (IsWatched K.tells bench.old records.old.items watcher.old sink.old (Pulse coins.items)
        bench.new records.new.items watcher.new sink.new) }
    ensures halt { IfErr result (IsHalted K.stops bench.old records.old.items watcher.old sink.old (Pulse coins.items)
        bench.new watcher.new sink.new) }
    ensures open { G.always gate.now ≡ true → IfErr result (λ e. e ≢ Refused GateShut) }
    ensures alone { workers ≡ 1 → IfErr result (λ e. e ≢ Refused NoThread) }
    ensures thread { has_failed threads.new.starts ≡ false → IfErr result (λ e. e ≢ Refused NoThread) }
{
    let Ran { told, coins, steps } = match pulse(threads, alloc, gate, workers, bench, coins) {
        Ok(ran) => ran,
        Err(refusal) => return Err(Halt::Refused(refusal)),
    };
    if records.reserve(1).is_err() {
        return Err(Halt::Refused(RunRefusal::Memory));
    }
    let earlier = records.last();
    let shown = Shown {
        bench,
        coins: &coins,
        told: &told,
        earlier,
        steps: &steps,
    };
    match watcher.see(sink, &shown) {
        Ok(()) => {
            keep(records, told);
            bench.reuse(coins, steps);
            Ok(())
        }
        Err(Stop) => Err(Halt::Stopped),
    }
}

/// Does one event, shows its pulse and keeps the record.
fn apply<R: Threads + Wait + Sync, G: Gate + Sync, S, K: Watcher<S>>(
    threads: &mut TrackedThreads<'_, R>,
    alloc: Global,
    gate: &G,
    workers: u32,
    bench: &mut Bench,
    records: &mut Vec<PulseRecord>,
    event: Event,
    watcher: &mut K,
    sink: &mut S,
) -> Result<(), Halt>
    requires some { 1 ≤ workers }
    requires few { workers ≤ MAX_WORKERS }
    requires closed { bench.old.state.coins ≡ None }
    ensures ok { OnOk result (IsWatched K.tells bench.old records.old.items watcher.old sink.old (event_of event)
        bench.new records.new.items watcher.new sink.new) }
    ensures few { OnOk result (length bench.new.history ≤ MAX_ENTRIES) }
    ensures halt { IfErr result (IsHalted K.stops bench.old records.old.items watcher.old sink.old (event_of event)
        bench.new watcher.new sink.new) }
    ensures open { G.always gate.now ≡ true → IfErr result (λ e. e ≢ Refused GateShut) }
    ensures alone { workers ≡ 1 → IfErr result (λ e. e ≢ Refused NoThread) }
    ensures thread { has_failed threads.new.starts ≡ false → IfErr result (λ e. e ≢ Refused NoThread) }
{
    match event {
        Event::Stage(change) => {
            if let Err(refusal) = stage(bench, change) {
                return Err(Halt::Refused(refusal));
            }
            let _few = bench.history(); // brings its bound
            Ok(())
        }
        Event::Pulse(coins) => {
            show_pulse(
                threads, alloc, gate, workers, bench, records, coins, watcher, sink,
            )?;
            let _few = bench.history(); // brings its bound
            Ok(())
        }
    }
}

/// Does as `run_events_on`, before a watcher that is shown each closed pulse, and may stop the run.
pub fn run_events_watched<R: Threads + Wait + Sync, G: Gate + Sync, S, K: Watcher<S>>(
    threads: &mut TrackedThreads<'_, R>,
    alloc: Global,
    gate: &G,
    workers: u32,
    bench: Bench,
    events: Vec<Event>,
    watcher: &mut K,
    sink: &mut S,
) -> Result<Run, WatchFault>
    requires some { 1 ≤ workers }
    requires few { workers ≤ MAX_WORKERS }
    requires state { bench.state ≡ new_state bench.setup }
    requires history { bench.history ≡ [] }
    ensures run { IfOk result (λ run. IsRun bench.setup (map event_of events.items) run.records.items
        (map (λ memory. memory.items) run.memories.items)) }
    ensures watched { IfOk result (λ run. (xs : List Seen) × (run.records.items ≡ map (λ x. x.told) xs)
        × Watched K.tells bench.setup (map event_of events.items) watcher.old sink.old xs watcher.new sink.new) }
    ensures ends { IfErr result (EndsAt K.tells K.stops bench.setup (map event_of events.items) watcher.old sink.old
        watcher.new sink.new) }
    ensures open { G.always gate.now ≡ true → IfErr result (IsNot GateShut) }
    ensures alone { workers ≡ 1 → IfErr result (IsNot NoThread) }
    ensures thread { has_failed threads.new.starts ≡ false → IfErr result (IsNot NoThread) }
{
    let fault = RunRefusal::Memory;
    let nodes = bench.shape().nodes();
    let mut bench = bench;
    bench.expect_entries(events.len().saturating_mul(ENTRIES_OF_EVENT));
    let mut records = records_of(alloc, events.len());
    let mut place = 0;
    for event in events {
        match apply(
            threads,
            alloc,
            gate,
            workers,
            &mut bench,
            &mut records,
            event,
            watcher,
            sink,
        ) {
            Ok(()) => place += 1,
            Err(halt) => return Err(halt.at(place)),
        }
    }
    let _history = bench.history(); // brings its replay
    match memories_of(alloc, &bench, nodes) {
        Ok(memories) => Ok(Run { records, memories }),
        Err(_) => Err(WatchFault::Run(RunFault {
            event: place,
            fault,
        })),
    }
}
