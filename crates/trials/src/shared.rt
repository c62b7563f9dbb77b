//! Calls on a shared bench, by one hand.
ghost use Rattle.std.specs.Prelude.{◌≡◌, ◌+◌, ◌≤◌, None};

use crate::benches::{Kind, TURNS, change_of, results};
use crate::engine::pulses;
use crate::four::{NODES, ONES, accepted_clock, four_nodes};
use crate::shown::{Received, is_same};
use crate::stop::{Ended, Stop, Wrong, expect};
use bench_core::{Change, CloseError, Entry, NodeDone, NodeTask, OpenError, StageError};
use bench_shared::{Board, EnginePass, LoaderPass, SharedBench};
use std::alloc::Global;
use std::marker::Brand;
use std::sync::Wait;
use std::sync::ledger::{Blank, Ledger};
use std::thread::Threads;

/// What is done on a shared bench, after a load of each node.
#[derive(Clone, Copy)]
pub enum Deed {
    Stage(Kind),
    Open,
    Close,
    PulseAlone,
    PulseOnTwo,
}

/// Makes a shared bench of one loader, loads each node, does the deed, and ends the bench by its receipts.
pub fn does<R: Threads + Wait + Sync>(rt: &R, alloc: Global, deed: Deed) -> Result<Ended, Stop> {
    let (entries, closes) = (Blank::new(2), Blank::new(1));
    on_bench::<Brand, Brand, R>(rt, alloc, entries, closes, deed)
}

fn on_bench<B: Ledger, C: Ledger, R: Threads + Wait + Sync>(
    rt: &R,
    alloc: Global,
    entries: Blank,
    closes: Blank,
    deed: Deed,
) -> Result<Ended, Stop>
    requires entries { (entries.name ≡ B.name) × (entries.parts ≡ B.parts) × (entries.parts ≡ 1 + 1) }
    requires closes { (closes.name ≡ C.name) × (closes.parts ≡ C.parts) × (closes.parts ≡ 1) }
{
    let four = four_nodes();
    let (shared, board, mut engine, mut loaders, _watchers) = SharedBench::<B, C>::new(
        alloc, entries, closes, four.shape, four.rule, 1, 0,
    )?;
    match loads_and_does(rt, alloc, &shared, &board, &mut engine, &mut loaders, deed) {
        Ok(ended) => finishes(shared, engine, loaders, ended),
        Err(stop) => Err(stop),
    }
}

/// Loads each node and does the deed.
fn loads_and_does<B: Ledger, C: Ledger, R: Threads + Wait + Sync>(
    rt: &R,
    alloc: Global,
    shared: &SharedBench<B, C>,
    board: &Board,
    engine: &mut EnginePass<B, C>,
    loaders: &mut [LoaderPass<B, C>],
    deed: Deed,
) -> Result<Ended, Stop>
    requires paid { engine.old.owed ≡ None }
    requires board { engine.old.board ≡ board.now }
    ensures paid { engine.new.owed ≡ None }
{
    let Some(loader) = loaders.first_mut() else {
        return Err(Stop::Wrong(Wrong::Answer));
    };
    let loaded = stage_each(rt, alloc, shared, loader, Kind::Load)?;
    let done = match deed {
        Deed::Stage(kind) => stage_each(rt, alloc, shared, loader, kind)?,
        Deed::Open => opens_pulse(rt, alloc, shared, engine)?,
        Deed::Close => closes_pulse(rt, alloc, shared, board, engine)?,
        Deed::PulseAlone => pulses(rt, alloc, shared, board, engine, 1)?,
        Deed::PulseOnTwo => pulses(rt, alloc, shared, board, engine, 2)?,
    };
    Ok(loaded.and(done))
}

/// Ends the bench by its receipts.
fn finishes<B: Ledger, C: Ledger>(
    shared: SharedBench<B, C>,
    engine: EnginePass<B, C>,
    loaders: Vec<LoaderPass<B, C>>,
    ended: Ended,
) -> Result<Ended, Stop>
    requires paid { engine.owed ≡ None }
{
    let receipts = engine.receipts().len();
    let Ok(finished) = shared.finish(engine, loaders) else {
        return Err(Stop::Wrong(Wrong::History));
    };
    let is_told = finished.loads() >= TURNS as usize && finished.history().len() > receipts;
    expect(is_told, Wrong::History)?;
    Ok(ended)
}

/// Stages a change of a kind for each node, one after the other.
fn stage_each<B: Ledger, C: Ledger, R: Wait>(
    rt: &R,
    alloc: Global,
    shared: &SharedBench<B, C>,
    loader: &mut LoaderPass<B, C>,
    kind: Kind,
) -> Result<Ended, Stop> {
    let program = accepted_clock(alloc, &four_nodes())?;
    let mut ended = Ended::AtOnce;
    for turn in 0..TURNS {
        let change = change_of(alloc, kind, turn % NODES, &program)?;
        ended = ended.and(stage(rt, alloc, shared, loader, change)?);
    }
    Ok(ended)
}

/// Stages a change, which leaves one receipt.
fn stage<B: Ledger, C: Ledger, R: Wait>(
    rt: &R,
    alloc: Global,
    shared: &SharedBench<B, C>,
    loader: &mut LoaderPass<B, C>,
    change: Change,
) -> Result<Ended, Stop> {
    let copy = change.copy(alloc)?;
    let before = Received::of(alloc, loader.receipts())?;
    let ended = match call(rt, alloc, shared, loader, change) {
        Ok(()) => Ended::AtOnce,
        Err((back, StageError::Memory)) => {
            expect(before.are(loader.receipts()), Wrong::Changed)?;
            expect(is_same(&back, &copy), Wrong::HandedBack)?;
            staged(call(rt, alloc, shared, loader, back))?
        }
        Err(_) => return Err(Stop::Wrong(Wrong::Refusal)),
    };
    let is_received = match before.rest(loader.receipts()) {
        [receipt] =>
            matches!(&receipt.entry, Entry::Staged { change, .. } if is_same(change, &copy)),
        _ => false,
    };
    expect(
        is_received && before.begin(loader.receipts()),
        Wrong::History,
    )?;
    Ok(ended)
}

fn staged(again: Result<(), (Change, StageError)>) -> Result<Ended, Stop> {
    match again {
        Ok(()) => Ok(Ended::AfterRefusal),
        Err((_, StageError::Memory)) => Err(Stop::Memory),
        Err(_) => Err(Stop::Wrong(Wrong::Refusal)),
    }
}

/// Makes the call that stages the change.
fn call<B: Ledger, C: Ledger, R: Wait>(
    rt: &R,
    alloc: Global,
    shared: &SharedBench<B, C>,
    loader: &mut LoaderPass<B, C>,
    change: Change,
) -> Result<(), (Change, StageError)> {
    match change {
        Change::Load { node, program } => shared.load(rt, alloc, loader, node, program),
        Change::Unload { node } => shared.unload(rt, alloc, loader, node),
        Change::Corrupt { node, image } => shared.corrupt(rt, alloc, loader, node, image),
    }
}

/// Opens a pulse and abandons it.
fn opens_pulse<B: Ledger, C: Ledger, R: Wait>(
    rt: &R,
    alloc: Global,
    shared: &SharedBench<B, C>,
    engine: &mut EnginePass<B, C>,
) -> Result<Ended, Stop>
    requires paid { engine.old.owed ≡ None }
    ensures paid { engine.new.owed ≡ None }
    ensures board { engine.new.board ≡ engine.old.board }
{
    let (tasks, ended) = open(rt, alloc, shared, engine)?;
    expect(tasks.len() == NODES as usize, Wrong::Answer)?;
    expect(shared.abandon(rt, engine).is_ok(), Wrong::Refusal)?;
    Ok(ended)
}

/// Opens a pulse, which leaves one receipt.
fn open<B: Ledger, C: Ledger, R: Wait>(
    rt: &R,
    alloc: Global,
    shared: &SharedBench<B, C>,
    engine: &mut EnginePass<B, C>,
) -> Result<(Vec<NodeTask>, Ended), Stop>
    requires paid { engine.old.owed ≡ None }
    ensures paid { engine.new.owed ≡ None }
    ensures board { engine.new.board ≡ engine.old.board }
{
    let before = Received::of(alloc, engine.receipts())?;
    let (tasks, ended) = match shared.open_pulse(rt, alloc, engine, &ONES) {
        Err(OpenError::Memory) => {
            expect(before.are(engine.receipts()), Wrong::Changed)?;
            (
                shared.open_pulse(rt, alloc, engine, &ONES),
                Ended::AfterRefusal,
            )
        }
        first => (first, Ended::AtOnce),
    };
    expect(before.begin(engine.receipts()), Wrong::History)?;
    match tasks {
        Ok(tasks) => Ok((tasks, ended)),
        Err(OpenError::Memory) => Err(Stop::Memory),
        Err(_) => Err(Stop::Wrong(Wrong::Refusal)),
    }
}

/// Opens a pulse and closes it. The list that a close refused is taken the next time.
fn closes_pulse<B: Ledger, C: Ledger, R: Wait>(
    rt: &R,
    alloc: Global,
    shared: &SharedBench<B, C>,
    board: &Board,
    engine: &mut EnginePass<B, C>,
) -> Result<Ended, Stop>
    requires paid { engine.old.owed ≡ None }
    requires board { engine.old.board ≡ board.now }
    ensures paid { engine.new.owed ≡ None }
{
    let (tasks, opened) = open(rt, alloc, shared, engine)?;
    let dones = results(alloc, tasks, false)?;
    let before = Received::of(alloc, engine.receipts())?;
    let (record, ended) = match shared.close_pulse(rt, alloc, engine, dones) {
        Err((back, CloseError::Memory)) => {
            expect(before.are(engine.receipts()), Wrong::Changed)?;
            (
                shared.close_pulse(rt, alloc, engine, back),
                Ended::AfterRefusal,
            )
        }
        first => (first, Ended::AtOnce),
    };
    match record {
        Ok(record) => {
            board.post(engine, record.row);
            expect(before.begin(engine.receipts()), Wrong::History)?;
            Ok(opened.and(ended))
        }
        Err((_, CloseError::Memory)) => Err(Stop::Memory),
        Err(_) => Err(Stop::Wrong(Wrong::Refusal)),
    }
}
