//! The run of a list of events on a bench of its own.
ghost use Rattle.std.specs.Prelude.{◌≡◌, ◌≢◌, ◌≤◌, ◌∷◌, [], true, false, None, IfOk, IfErr, OnOk, length, map};
ghost use Rattle.bench_core.specs.declared.limits.TheConstants.{MAX_ENTRIES};
ghost use Rattle.bench_core.specs.Told.{AreSteps};
ghost use Rattle.bench_core.specs.State.{new_state, opened_state};
ghost use Rattle.bench_core.specs.Views.{change_of, setup_of};
ghost use Rattle.bench_workers.specs.declared.event.RunRefusal.TheVariants.{GateShut, Memory, NoThread};
ghost use Rattle.bench_workers.specs.declared.work_error.WorkError.TheVariants as work;
ghost use Rattle.bench_workers.specs.declared.tasks.TheConstants.{MAX_WORKERS};
ghost use Rattle.bench_workers.specs.Events.{Stage, Pulse, event_of};
ghost use Rattle.bench_workers.specs.ThreadStarts.{has_failed};
ghost use Rattle.bench_workers.specs.inner.Going.{LeadsByEvent, IsOfWorkers};
ghost use Rattle.bench_workers.specs.declared.watcher.WatchFault.TheVariants as WatchFault;
ghost use Rattle.bench_workers.specs.inner.Watching.{IsOfRun};
ghost use Rattle.bench_workers.specs.Runs.{IsEventFault, IsRefusalOf, IsRun};

use crate::event::{Event, Run, RunFault, RunRefusal};
use crate::gate::Gate;
use crate::tasks::run_tasks;
use crate::thread_starts::TrackedThreads;
use crate::watched::run_events_watched;
use crate::watcher::{Nobody, WatchFault};
use crate::work_error::WorkError;
use bench_core::{
    Actor, Bench, Change, OpenError, Ran, StageError, are_coins, stage_error, steps_by_node,
};
use clock_nodes::ClockRule;
use node_env::Shape;
use std::alloc::{AllocError, Global};
use std::sync::Wait;
use std::thread::Threads;

/// Who stages the changes of a list of events.
const LOADER: Actor = Actor::Loader(0);

/// Stages a change.
pub(crate) fn stage(bench: &mut Bench, change: Change) -> Result<(), RunRefusal>
    requires { bench.old.state.coins ≡ None }
    ensures ok { OnOk result (LeadsByEvent bench.old (Stage (change_of change)) [] bench.new) }
    ensures refusal { IfErr result (IsRefusalOf bench.old.setup (length bench.old.history) (Stage (change_of change))) }
{
    match bench.stage(LOADER, change) {
        Ok(()) => Ok(()),
        Err((_, StageError::BadNode)) => Err(RunRefusal::BadNode),
        Err((_, StageError::OtherShape)) => Err(RunRefusal::OtherShape),
        Err((_, StageError::BadImage)) => Err(RunRefusal::BadImage),
        Err((_, StageError::HistoryFull)) => Err(RunRefusal::HistoryFull),
        Err((_, StageError::Memory)) => Err(RunRefusal::Memory),
    }
}

/// Opens a pulse, runs its tasks and closes it.
pub(crate) fn pulse<R: Threads + Wait + Sync, G: Gate + Sync>(
    threads: &mut TrackedThreads<'_, R>,
    alloc: Global,
    gate: &G,
    workers: u32,
    bench: &mut Bench,
    coins: Vec<u32>,
) -> Result<Ran, RunRefusal>
    requires some { 1 ≤ workers }
    requires few { workers ≤ MAX_WORKERS }
    requires closed { bench.old.state.coins ≡ None }
    ensures ok { IfOk result (λ r. LeadsByEvent bench.old (Pulse coins.items) (r.told ∷ []) bench.new) }
    ensures coins { IfOk result (λ r. r.coins.items ≡ coins.items) }
    ensures steps { IfOk result (λ r.
        AreSteps bench.old.setup (opened_state bench.old.state coins.items) coins.items r.steps.items) }
    ensures refusal { IfErr result (IsRefusalOf bench.old.setup (length bench.old.history) (Pulse coins.items)) }
    ensures open { G.always gate.now ≡ true → IfErr result (λ e. e ≢ GateShut) }
    ensures alone { workers ≡ 1 → IfErr result (λ e. e ≢ NoThread) }
    ensures thread { has_failed threads.new.starts ≡ false → IfErr result (λ e. e ≢ NoThread) }
{
    if workers == 1 {
        return pulse_alone(alloc, gate, bench, coins);
    }
    let tasks = match bench.open_pulse(alloc, &coins) {
        Ok(tasks) => tasks,
        Err(OpenError::PulseOpen) => unreachable!(),
        Err(OpenError::BadCoins) => return Err(RunRefusal::BadCoins),
        Err(OpenError::HistoryFull) => return Err(RunRefusal::HistoryFull),
        Err(OpenError::Memory) => return Err(RunRefusal::Memory),
    };
    let dones = match run_tasks(threads, alloc, gate, workers, tasks) {
        Ok(dones) => dones,
        Err(error) => return Err(of_work(error)),
    };
    let _history = bench.history(); // brings its replay
    let Ok(steps) = steps_by_node(alloc, bench, &dones) else {
        return Err(RunRefusal::Memory);
    };
    match bench.close_own(alloc, dones) {
        Ok(told) => Ok(Ran { told, coins, steps }),
        Err(_) => Err(RunRefusal::Memory),
    }
}

/// Does as `pulse` with one worker, which is the caller's thread: the bench itself runs its nodes.
fn pulse_alone<G: Gate>(
    alloc: Global,
    gate: &G,
    bench: &mut Bench,
    coins: Vec<u32>,
) -> Result<Ran, RunRefusal>
    requires { bench.old.state.coins ≡ None }
    ensures ok { IfOk result (λ r. LeadsByEvent bench.old (Pulse coins.items) (r.told ∷ []) bench.new) }
    ensures coins { IfOk result (λ r. r.coins.items ≡ coins.items) }
    ensures steps { IfOk result (λ r.
        AreSteps bench.old.setup (opened_state bench.old.state coins.items) coins.items r.steps.items) }
    ensures refusal { IfErr result (IsRefusalOf bench.old.setup (length bench.old.history) (Pulse coins.items)) }
    ensures open { G.always gate.now ≡ true → IfErr result (λ e. e ≢ GateShut) }
    ensures alone { IfErr result (λ e. e ≢ NoThread) }
    ensures let_in { OnOk result (G.lets_in gate.now 0 ≡ true) }
{
    match bench.open_without_tasks(alloc, coins) {
        Ok(()) => {}
        Err(OpenError::PulseOpen) => unreachable!(),
        Err(OpenError::BadCoins) => return Err(RunRefusal::BadCoins),
        Err(OpenError::HistoryFull) => return Err(RunRefusal::HistoryFull),
        Err(OpenError::Memory) => return Err(RunRefusal::Memory),
    }
    if !gate.enter(0) {
        return Err(RunRefusal::GateShut);
    }
    match bench.run_and_close(alloc) {
        Ok(ran) => Ok(ran),
        Err(_) => Err(RunRefusal::Memory),
    }
}

/// Returns what the workers refuse, as a run tells it.
fn of_work(error: WorkError) -> RunRefusal
    ensures workers { IsOfWorkers result }
    ensures shut { result ≡ GateShut → error ≡ work.GateShut }
    ensures thread { result ≡ NoThread → error ≡ work.NoThread }
{
    match error {
        WorkError::NoThread => RunRefusal::NoThread,
        WorkError::GateShut => RunRefusal::GateShut,
        WorkError::Memory => RunRefusal::Memory,
    }
}

/// Returns the memories of the nodes, in their order.
pub(crate) fn memories_of(
    alloc: Global,
    bench: &Bench,
    nodes: u32,
) -> Result<Vec<Vec<u8>>, AllocError>
    requires { nodes ≡ bench.now.setup.shape.nodes }
    ensures { IfOk result (λ memories. map (λ m. m.items) memories.items ≡ map (λ x. x.memory) bench.now.state.nodes) }
{
    let _history = bench.history(); // brings its replay
    let mut memories = Vec::new(alloc);
    for node in 0..nodes {
        memories.push(Vec::from_slice(alloc, bench.memory(node))?)?;
    }
    Ok(memories)
}

/// Returns why the event would be refused as the first of a new bench: lack of memory, if for nothing else.
fn refusal_of(shape: Shape, _rule: ClockRule, event: &Event) -> RunRefusal
    ensures refused { IsRefusalOf (setup_of shape _rule) 0 (event_of event.now) result }
    ensures open { result ≢ GateShut }
    ensures alone { result ≢ NoThread }
{
    match event {
        Event::Stage(change) => match stage_error(shape, change) {
            Some(StageError::BadNode) => RunRefusal::BadNode,
            Some(StageError::OtherShape) => RunRefusal::OtherShape,
            Some(StageError::BadImage) => RunRefusal::BadImage,
            Some(StageError::HistoryFull) => unreachable!(),
            Some(StageError::Memory) => unreachable!(),
            None => RunRefusal::Memory,
        },
        Event::Pulse(coins) => {
            if are_coins(shape, coins) {
                RunRefusal::Memory
            } else {
                RunRefusal::BadCoins
            }
        }
    }
}

/// Returns what is told if there is no memory for a new bench.
fn first_refusal(shape: Shape, rule: ClockRule, events: &[Event]) -> RunRefusal
    ensures fault { IsEventFault (setup_of shape rule) (map event_of events.now) 0 result }
    ensures open { result ≢ GateShut }
    ensures alone { result ≢ NoThread }
{
    match events.first() {
        Some(event) => refusal_of(shape, rule, event),
        None => RunRefusal::Memory,
    }
}

/// Runs the events on a new bench, whose pulses are run by 1 to [`MAX_WORKERS`] workers. The fault of an event that
/// can't be done has its place, from 0 on; lack of memory after the last has their number. The run is the same for
/// every number of workers (docs/SCENARIOS.md, "Runs").
pub fn run_events<R: Threads + Wait + Sync, G: Gate + Sync>(
    rt: &R,
    alloc: Global,
    gate: &G,
    workers: u32,
    shape: Shape,
    rule: ClockRule,
    events: Vec<Event>,
) -> Result<Run, RunFault>
    requires some { 1 ≤ workers }
    requires few { workers ≤ MAX_WORKERS }
    requires nodes { rule.nodes ≡ shape.nodes }
    ensures run { IfOk result (λ run. IsRun (setup_of shape rule) (map event_of events.items) run.records.items
        (map (λ memory. memory.items) run.memories.items)) }
    ensures fault { IfErr result (λ f. IsEventFault (setup_of shape rule) (map event_of events.items) f.event f.fault) }
    ensures open { G.always gate.now ≡ true → IfErr result (λ f. f.fault ≢ GateShut) }
    ensures alone { workers ≡ 1 → IfErr result (λ f. f.fault ≢ NoThread) }
{
    let Ok(bench) = Bench::new(alloc, shape, rule) else {
        let fault = first_refusal(shape, rule, &events);
        return Err(RunFault { event: 0, fault });
    };
    let mut threads = TrackedThreads::of(rt);
    run_events_on(&mut threads, alloc, gate, workers, bench, events)
}

/// Returns the fault of a run that nobody stops.
fn of_run(fault: WatchFault) -> RunFault
    requires { IsOfRun fault }
    ensures { fault ≡ WatchFault.Run result }
{
    match fault {
        WatchFault::Run(fault) => fault,
        WatchFault::Stopped(_) => unreachable!(),
    }
}

/// Does as `run_events`, on a new bench that is handed in: one with a clock of its own, for example. `threads` tells
/// whether a start of a thread failed.
pub fn run_events_on<R: Threads + Wait + Sync, G: Gate + Sync>(
    threads: &mut TrackedThreads<'_, R>,
    alloc: Global,
    gate: &G,
    workers: u32,
    bench: Bench,
    events: Vec<Event>,
) -> Result<Run, RunFault>
    requires some { 1 ≤ workers }
    requires few { workers ≤ MAX_WORKERS }
    requires state { bench.state ≡ new_state bench.setup }
    requires history { bench.history ≡ [] }
    ensures run { IfOk result (λ run. IsRun bench.setup (map event_of events.items) run.records.items
        (map (λ memory. memory.items) run.memories.items)) }
    ensures fault { IfErr result (λ f. IsEventFault bench.setup (map event_of events.items) f.event f.fault) }
    ensures open { G.always gate.now ≡ true → IfErr result (λ f. f.fault ≢ GateShut) }
    ensures alone { workers ≡ 1 → IfErr result (λ f. f.fault ≢ NoThread) }
    ensures thread { has_failed threads.new.starts ≡ false → IfErr result (λ f. f.fault ≢ NoThread) }
{
    match run_events_watched(
        threads,
        alloc,
        gate,
        workers,
        bench,
        events,
        &mut Nobody,
        &mut (),
    ) {
        Ok(run) => Ok(run),
        Err(fault) => Err(of_run(fault)),
    }
}
