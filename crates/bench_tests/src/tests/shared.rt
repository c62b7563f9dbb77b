//! Shared benches to test.
ghost use Rattle.std.specs.Prelude.{◌≡◌, ◌+◌, ◌≤◌, None};
ghost use Rattle.bench_shared.specs.declared.shared.TheConstants.{MAX_LOADERS};
ghost use Rattle.bench_workers.specs.declared.tasks.TheConstants.{MAX_WORKERS};

use super::setup::{ONES, Setup};
use bench_core::{CloseError, NodeDone, NodeTask, OpenError, PulseRecord, Row};
use bench_engine::{EngineError, Gate, pulse};
use bench_shared::{Board, EnginePass, Finished, LoaderPass, SharedBench, WatchPass};
use std::alloc::Global;
use std::marker::Brand;
use std::process::Abort;
use std::sync::Wait;
use std::sync::ledger::{Blank, Ledger};
use std::test::Fail;
use std::thread::Threads;

/// A shared bench of four nodes, its board and its passes. No row is owed to the board.
#[derive(Drop)]
pub struct Shared<B: Ledger, C: Ledger> {
    pub bench: SharedBench<B, C>,
    pub board: Board,
    pub engine: EnginePass<B, C>,
    pub loaders: Vec<LoaderPass<B, C>>,
    pub watcher: WatchPass,
    ghost engine_board: { engine.board ≡ board },
    ghost watcher_board: { watcher.board ≡ board },
    ghost paid: { engine.owed ≡ None },
}

/// A test of a shared bench. The first loader has staged the clock for each node.
pub trait SharedTest {
    ghost use Rattle.std.specs.Thread.{IsSync};

    fn run<B: Ledger, C: Ledger, R: Abort + Threads + Wait + Sync>(
        &self,
        rt: &R,
        alloc: Global,
        shared: Shared<B, C>,
    ) -> Result<(), Fail>
        // says R: Sync, which the proof of an impl doesn't know
        requires { IsSync R.row };
}

/// Runs the test on a new bench with this many loaders.
pub fn run_test<R: Abort + Threads + Wait + Sync, T: SharedTest>(
    rt: &R,
    alloc: Global,
    loaders: u32,
    test: &T,
) -> Result<(), Fail>
    requires some { 1 ≤ loaders }
    requires few { loaders ≤ MAX_LOADERS }
{
    let (entries, closes) = (Blank::new(u64::from(loaders) + 1), Blank::new(1));
    run_branded::<Brand, Brand, R, T>(rt, alloc, entries, closes, loaders, test)
}

fn run_branded<B: Ledger, C: Ledger, R: Abort + Threads + Wait + Sync, T: SharedTest>(
    rt: &R,
    alloc: Global,
    entries: Blank,
    closes: Blank,
    loaders: u32,
    test: &T,
) -> Result<(), Fail>
    requires entries { (entries.name ≡ B.name) × (entries.parts ≡ B.parts) × (entries.parts ≡ loaders + 1) }
    requires closes { (closes.name ≡ C.name) × (closes.parts ≡ C.parts) × (closes.parts ≡ 1) }
    requires some { 1 ≤ loaders }
    requires few { loaders ≤ MAX_LOADERS }
{
    let four = Setup::four()?;
    let (bench, board, engine, mut loaders, mut watchers) = SharedBench::<B, C>::new(
        alloc, entries, closes, four.shape, four.rule, loaders, 1,
    )?;
    let Some(watcher) = watchers.pop() else {
        return Err("no watcher")?;
    };
    load_clocks(rt, alloc, &bench, &mut loaders, &four)?;
    let shared = Shared {
        bench,
        board,
        engine,
        loaders,
        watcher,
    };
    test.run(rt, alloc, shared)
}

/// Stages the clock for each node.
fn load_clocks<B: Ledger, C: Ledger, R: Wait>(
    rt: &R,
    alloc: Global,
    bench: &SharedBench<B, C>,
    loaders: &mut [LoaderPass<B, C>],
    four: &Setup,
) -> Result<(), Fail> {
    let Some(loader) = loaders.first_mut() else {
        return Err("no loader")?;
    };
    let program = four.clock(alloc)?;
    for node in 0..4 {
        if bench
            .load(rt, alloc, loader, node, program.copy()?)
            .is_err()
        {
            return Err("not loaded")?;
        }
    }
    Ok(())
}

impl<B: Ledger, C: Ledger> Shared<B, C> {
    /// Opens a pulse.
    pub fn open<R: Wait>(
        &mut self,
        rt: &R,
        alloc: Global,
        coins: &[u32],
    ) -> Result<Vec<NodeTask>, OpenError> {
        self.bench.open_pulse(rt, alloc, &mut self.engine, coins)
    }

    /// Closes the open pulse by these results, and posts its row.
    pub fn close<R: Wait>(
        &mut self,
        rt: &R,
        alloc: Global,
        dones: Vec<NodeDone>,
    ) -> Result<PulseRecord, (Vec<NodeDone>, CloseError)> {
        let record = self.bench.close_pulse(rt, alloc, &mut self.engine, dones)?;
        self.board.post(&mut self.engine, record.row);
        Ok(record)
    }

    /// Runs a pulse whose coins are 1.
    pub fn pulse<R: Threads + Wait + Sync, G: Gate + Sync>(
        &mut self,
        rt: &R,
        alloc: Global,
        gate: &G,
        workers: u32,
    ) -> Result<PulseRecord, EngineError>
        requires some { 1 ≤ workers }
        requires few { workers ≤ MAX_WORKERS }
    {
        pulse(
            rt,
            alloc,
            &self.bench,
            &self.board,
            &mut self.engine,
            gate,
            workers,
            &ONES,
        )
    }

    /// Returns what the watcher sees.
    pub fn look(&mut self) -> Option<Row> {
        self.board.look(&mut self.watcher)
    }

    /// Ends the bench. With one pass missing that fails, and with all it succeeds.
    pub fn finish(self) -> Result<Finished, Fail> {
        let Shared {
            bench,
            engine,
            mut loaders,
            ..
        } = self;
        let Some(last) = loaders.pop() else {
            return Err("no loader")?;
        };
        let Err((bench, engine, mut loaders)) = bench.finish(engine, loaders) else {
            return Err("finished without a pass")?;
        };
        loaders.push(last)?;
        match bench.finish(engine, loaders) {
            Ok(finished) => Ok(finished),
            Err(_) => Err("not finished")?,
        }
    }
}
