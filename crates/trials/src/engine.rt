//! Pulses on workers, and runs of events.
ghost use Rattle.std.specs.Prelude.{◌≡◌, ◌≤◌, None, IfOk};
ghost use Rattle.bench_workers.specs.declared.tasks.TheConstants.{MAX_WORKERS};

use crate::four::{Four, MEMORY, NODES, ONES, PULSES, ROWS, accepted_clock, four_nodes, is_row};
use crate::shown::Received;
use crate::stop::{Ended, Stop, Wrong, expect};
use bench_core::{Change, CloseError, Entry, OpenError};
use bench_engine::{
    EngineError, Event, MAX_WORKERS, Open, Run, RunRefusal, WorkError, pulse, run_events,
};
use bench_shared::{Board, EnginePass, SharedBench};
use bpf_verify::VerifiedProgram;
use std::alloc::{AllocError, Global};
use std::sync::Wait;
use std::sync::ledger::Ledger;
use std::thread::Threads;

/// Tries a pulse on workers. One that is refused past its opening is abandoned, and the next is taken.
pub fn pulses<B: Ledger, C: Ledger, R: Threads + Wait + Sync>(
    rt: &R,
    alloc: Global,
    shared: &SharedBench<B, C>,
    board: &Board,
    engine: &mut EnginePass<B, C>,
    workers: u32,
) -> Result<Ended, Stop>
    requires some { 1 ≤ workers }
    requires few { workers ≤ MAX_WORKERS }
    requires paid { engine.old.owed ≡ None }
    requires board { engine.old.board ≡ board.now }
    ensures paid { engine.new.owed ≡ None }
{
    let before = Received::of(alloc, engine.receipts())?;
    let (told, ended) = match pulse(rt, alloc, shared, board, engine, &Open, workers, &ONES) {
        Ok(told) => (told, Ended::AtOnce),
        Err(refusal) => {
            let _refused = stop_of(refusal)?;
            let is_left = match refusal {
                EngineError::Open(_) => before.are(engine.receipts()),
                EngineError::Work(_) | EngineError::Close(_) => {
                    before.begin(engine.receipts()) && is_abandoned(&before, engine)
                }
            };
            expect(is_left, Wrong::Changed)?;
            match pulse(rt, alloc, shared, board, engine, &Open, workers, &ONES) {
                Ok(told) => (told, Ended::AfterRefusal),
                Err(refusal) => return Err(stop_of(refusal)?),
            }
        }
    };
    expect(is_row(&told, ROWS[0]), Wrong::Answer)?;
    Ok(ended)
}

/// Returns what was refused, if it is memory or a thread.
fn stop_of(refusal: EngineError) -> Result<Stop, Stop> {
    match refusal {
        EngineError::Open(OpenError::Memory)
        | EngineError::Work(WorkError::Memory)
        | EngineError::Close(CloseError::Memory) => Ok(Stop::Memory),
        EngineError::Work(WorkError::NoThread) => Ok(Stop::Thread),
        EngineError::Open(_) | EngineError::Work(WorkError::GateShut) | EngineError::Close(_) => {
            Err(Stop::Wrong(Wrong::Refusal))
        }
    }
}

/// Returns true if the engine has since then opened a pulse and abandoned it.
fn is_abandoned<B: Ledger, C: Ledger>(before: &Received, engine: &EnginePass<B, C>) -> bool {
    match before.rest(engine.receipts()) {
        [opening, end] => {
            matches!(opening.entry, Entry::Opened { .. }) && matches!(end.entry, Entry::Abandoned)
        }
        _ => false,
    }
}

/// Returns the clock in each of four nodes, and then the pulses.
fn clock_events(alloc: Global, program: &VerifiedProgram) -> Result<Vec<Event>, AllocError> {
    let mut events = Vec::new(alloc);
    for node in 0..NODES {
        let program = program.copy()?;
        events.push(Event::Stage(Change::Load { node, program }))?;
    }
    for _pulse in 0..PULSES {
        events.push(Event::Pulse(Vec::from_slice(alloc, &ONES)?))?;
    }
    Ok(events)
}

/// Tries a run of events, with this many workers.
pub fn runs_events<R: Threads + Wait + Sync>(
    rt: &R,
    alloc: Global,
    workers: u32,
) -> Result<Ended, Stop> {
    let four = four_nodes();
    let program = accepted_clock(alloc, &four)?;
    let workers = workers.clamp(1, MAX_WORKERS);
    let (run, ended) = match run_once(rt, alloc, &four, &program, workers) {
        Ok(run) => (run, Ended::AtOnce),
        Err(Stop::Memory | Stop::Thread) => {
            (
                run_once(rt, alloc, &four, &program, workers)?,
                Ended::AfterRefusal,
            )
        }
        Err(wrong) => return Err(wrong),
    };
    expect(is_run(&run), Wrong::Answer)?;
    Ok(ended)
}

fn run_once<R: Threads + Wait + Sync>(
    rt: &R,
    alloc: Global,
    four: &Four,
    program: &VerifiedProgram,
    workers: u32,
) -> Result<Run, Stop>
    requires some { 1 ≤ workers }
    requires few { workers ≤ MAX_WORKERS }
{
    let events = clock_events(alloc, program)?;
    match run_events(rt, alloc, &Open, workers, four.shape, four.rule, events) {
        Ok(run) => Ok(run),
        Err(fault) => match fault.fault {
            _ if fault.event > NODES + PULSES => Err(Stop::Wrong(Wrong::Refusal)),
            RunRefusal::Memory => Err(Stop::Memory),
            RunRefusal::NoThread => Err(Stop::Thread),
            _ => Err(Stop::Wrong(Wrong::Refusal)),
        },
    }
}

/// The memory of a clock of 2 that goes on.
const TWO: [u8; MEMORY as usize] = [2, 0, 0, 0, 1, 0, 0, 0];

/// Returns true if it is the run of four clocks.
fn is_run(run: &Run) -> bool {
    run.records.len() == ROWS.len()
        && run
            .records
            .iter()
            .zip(ROWS.iter())
            .all(|(told, row)| is_row(told, *row))
        && run.memories.len() == NODES as usize
        && run
            .memories
            .iter()
            .all(|memory| memory.as_slice() == TWO.as_slice())
}
