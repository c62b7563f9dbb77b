//! A pulse of a list of events, opened and not run.
ghost use Rattle.std.specs.Prelude.{◌≡◌, ◌≢◌, ◌≤◌, ◌∷◌, [], List, None, IfOk, IfErr, OnOk, length, map};
ghost use Rattle.bench_core.specs.declared.limits.TheConstants.{MAX_ENTRIES};
ghost use Rattle.bench_core.specs.State.{new_state, opened_state, AreCoins};
ghost use Rattle.bench_core.specs.Told.{PulseTold};
ghost use Rattle.bench_workers.specs.declared.event.RunRefusal.TheVariants.{GateShut, NoThread};
ghost use Rattle.bench_workers.specs.Events.{Pulse, event_of};
ghost use Rattle.bench_workers.specs.Opening.{OpensPulse, pulses_in};
ghost use Rattle.bench_workers.specs.Runs.{IsEventFault, IsRefusalOf};
ghost use Rattle.bench_workers.specs.inner.Going.{LeadsByEvent};

use crate::engine::{pulse, stage};
use crate::event::{Event, RunFault, RunRefusal};
use crate::gate::Open;
use crate::thread_starts::TrackedThreads;
use bench_core::{Bench, OpenError};
use std::alloc::Global;
use std::sync::Wait;
use std::thread::Threads;

/// A bench with an open pulse, and the coins of that pulse.
#[derive(Drop)]
pub struct OpenBench {
    pub bench: Bench,
    pub coins: Vec<u32>,
}

/// Returns how many pulses an event is.
fn pulses_of(event: &Event) -> u32
    ensures { result ≡ pulses_in (event_of event.now ∷ []) }
{
    match event {
        Event::Stage(_) => 0,
        Event::Pulse(_) => 1,
    }
}

/// Does an event, in the caller's thread.
fn go_on<R: Threads + Wait + Sync>(
    rt: &R,
    alloc: Global,
    bench: &mut Bench,
    event: Event,
) -> Result<(), RunRefusal>
    requires { bench.old.state.coins ≡ None }
    ensures ok { OnOk result ((records : List PulseTold) × LeadsByEvent bench.old (event_of event) records bench.new) }
    ensures few { OnOk result (length bench.new.history ≤ MAX_ENTRIES) }
    ensures refusal { IfErr result (IsRefusalOf bench.old.setup (length bench.old.history) (event_of event)) }
    ensures open { IfErr result (λ e. e ≢ GateShut) }
    ensures alone { IfErr result (λ e. e ≢ NoThread) }
{
    match event {
        Event::Stage(change) => {
            stage(bench, change)?;
            let _few = bench.history(); // brings its bound
            Ok(())
        }
        Event::Pulse(coins) => {
            let mut threads = TrackedThreads::of(rt);
            let ran = pulse(&mut threads, alloc, &Open, 1, bench, coins)?;
            bench.reuse(ran.coins, ran.steps);
            let _few = bench.history(); // brings its bound
            Ok(())
        }
    }
}

/// Opens the pulse of the event of this place. Its tasks are dropped.
fn open_at(alloc: Global, bench: Bench, event: Event, place: u32) -> Result<OpenBench, RunFault>
    requires closed { bench.state.coins ≡ None }
    requires pulse { pulses_in (event_of event ∷ []) ≡ 1 }
    ensures event { IfOk result (λ o. event_of event ≡ Pulse o.coins.items) }
    ensures setup { IfOk result (λ o. o.bench.setup ≡ bench.setup) }
    ensures coins { IfOk result (λ o. AreCoins bench.setup.shape o.coins.items) }
    ensures state { IfOk result (λ o. o.bench.state ≡ opened_state bench.state o.coins.items) }
    ensures place { IfErr result (λ f. f.event ≡ place) }
    ensures refusal { IfErr result (λ f.
        IsRefusalOf bench.setup (length bench.history) (event_of event) f.fault) }
    ensures open { IfErr result (λ f. f.fault ≢ GateShut) }
    ensures alone { IfErr result (λ f. f.fault ≢ NoThread) }
{
    let Event::Pulse(coins) = event else {
        unreachable!()
    };
    let mut bench = bench;
    let fault = match bench.open_pulse(alloc, &coins) {
        Ok(_tasks) => return Ok(OpenBench { bench, coins }),
        Err(OpenError::PulseOpen) => unreachable!(),
        Err(OpenError::BadCoins) => RunRefusal::BadCoins,
        Err(OpenError::HistoryFull) => RunRefusal::HistoryFull,
        Err(OpenError::Memory) => RunRefusal::Memory,
    };
    Err(RunFault {
        event: place,
        fault,
    })
}

/// Does the events up to the pulse of this number, from 1 on, on a new bench that is handed in, and opens this pulse.
/// All is done in the caller's thread. The fault is that of `run_events`.
pub fn open_pulse_of<R: Threads + Wait + Sync>(
    rt: &R,
    alloc: Global,
    bench: Bench,
    events: Vec<Event>,
    pulse: u32,
) -> Result<OpenBench, RunFault>
    requires state { bench.state ≡ new_state bench.setup }
    requires history { bench.history ≡ [] }
    requires first { 1 ≤ pulse }
    requires last { pulse ≤ pulses_in (map event_of events.items) }
    ensures setup { IfOk result (λ o. o.bench.setup ≡ bench.setup) }
    ensures opened { IfOk result (λ o.
        OpensPulse bench.setup (map event_of events.items) pulse o.coins.items o.bench.state) }
    ensures fault { IfErr result (λ f. IsEventFault bench.setup (map event_of events.items) f.event f.fault) }
    ensures open { IfErr result (λ f. f.fault ≢ GateShut) }
    ensures alone { IfErr result (λ f. f.fault ≢ NoThread) }
{
    let mut bench = bench;
    let mut pulses = 0;
    let mut place = 0;
    for event in events {
        pulses += pulses_of(&event);
        if pulses == pulse {
            return open_at(alloc, bench, event, place);
        }
        match go_on(rt, alloc, &mut bench, event) {
            Ok(()) => place += 1,
            Err(fault) => return Err(RunFault {
                event: place,
                fault,
            }),
        }
    }
    unreachable!()
}
