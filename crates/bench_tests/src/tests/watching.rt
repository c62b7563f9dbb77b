//! A watcher in a thread of its own.
ghost use Rattle.std.specs.Prelude.{◌≡◌, None};

use super::gates::{Seen, TURNS};
use super::setup::ONES;
use super::shared::{Shared, SharedTest, run_test};
use bench_engine::pulse;
use bench_shared::{Board, EnginePass, SharedBench, WatchPass};
use std::alloc::Global;
use std::process::Abort;
use std::snapshot::Snapshot;
use std::sync::Wait;
use std::sync::ledger::Ledger;
use std::test::Fail;
use std::thread;
use std::thread::{Promise, Scope, Threads};

/// The pulses that the engine runs beside a watcher.
const PULSES: u32 = 10;

/// Looks until the last pulse is seen, and says in the gate which was seen last. Returns the pass, and whether each
/// pulse was seen, in order.
fn watch(board: &Board, gate: &Seen, mut pass: WatchPass) -> (WatchPass, bool)
    requires { pass.board ≡ board.now }
    ensures { result.0.board ≡ board.now }
{
    let mut last = 0;
    for _turn in 0..TURNS {
        if let Some(row) = board.look(&mut pass) {
            if row.pulse != last {
                if row.pulse != last.wrapping_add(1) {
                    return (pass, false);
                }
                last = row.pulse;
                gate.see(last);
            }
            if last == PULSES {
                return (pass, true);
            }
        }
    }
    (pass, false)
}

/// The board that a watcher's pass is of.
struct OfBoard {
    board: Snapshot<Board>,
}

impl Drop for OfBoard {
    fn drop(self) {
        let Self { board: _ } = self;
    }
}

impl Promise<(WatchPass, bool)> for OfBoard {
    ghost use Rattle.std.specs.Prelude.{◌≡◌};

    ghost kept_by = { λ p watched. watched.0.board ≡ p.board.value };
}

/// Runs the pulses, each once the row before it was seen.
fn run_pulses<B: Ledger, C: Ledger, R: Threads + Wait + Sync>(
    rt: &R,
    alloc: Global,
    bench: &SharedBench<B, C>,
    board: &Board,
    engine: &mut EnginePass<B, C>,
    gate: &Seen,
) -> Result<(), Fail>
    requires board { engine.old.board ≡ board.now }
    requires paid { engine.old.owed ≡ None }
    ensures board { engine.new.board ≡ engine.old.board }
    ensures paid { engine.new.owed ≡ None }
{
    for number in 0..PULSES {
        gate.want(number);
        pulse(rt, alloc, bench, board, engine, gate, 2, &ONES)?;
    }
    Ok(())
}

/// Returns whether the watcher saw each row beside the pulses, and how many rows it had yet to see then.
fn run_beside<'s, E, B: Ledger, C: Ledger, R: Threads + Wait + Sync>(
    scope: &Scope<'s, E>,
    rt: &R,
    alloc: Global,
    bench: &SharedBench<B, C>,
    board: &'s Board,
    gate: &'s Seen,
    mut engine: EnginePass<B, C>,
    pass: WatchPass,
) -> Result<(bool, u32), Fail>
    requires board { engine.board ≡ board.now }
    requires paid { engine.owed ≡ None }
    requires watcher { pass.board ≡ board.now }
{
    let promise = OfBoard {
        board: Snapshot::of(board),
    };
    let job = move || -> (WatchPass, bool)
        requires { pass.board ≡ board.now }
        ensures { result.0.board ≡ board.entry.now }
    { watch(board, gate, pass) };
    let Ok(child) = scope.spawn_with(promise, job) else {
        return Err("no thread")?;
    };
    let ran = run_pulses(rt, alloc, bench, board, &mut engine, gate);
    let (mut pass, saw) = child.join(rt);
    ran?;
    Ok((saw, board.meet(&mut engine, &mut pass)))
}

/// Does as `run_beside` with the passes of a shared bench.
fn run_watched<B: Ledger, C: Ledger, R: Threads + Wait + Sync>(
    rt: &R,
    alloc: Global,
    shared: Shared<B, C>,
) -> Result<(bool, u32), Fail> {
    let Shared {
        bench,
        board,
        engine,
        watcher,
        ..
    } = shared;
    let gate = Seen::new();
    let (on, seen, shown) = (&bench, &board, &gate);
    thread::scope(
        thread::scope_env(),
        rt,
        |scope| -> Result<(bool, u32), Fail>
            requires board { engine.board ≡ seen.now }
            requires paid { engine.owed ≡ None }
            requires watcher { watcher.board ≡ seen.now }
        { run_beside(scope, rt, alloc, on, seen, shown, engine, watcher) },
    )
}

/// Looks at a board without rows, and then beside the pulses.
struct Watched;

impl SharedTest for Watched {
    fn run<B: Ledger, C: Ledger, R: Abort + Threads + Wait + Sync>(
        &self,
        rt: &R,
        alloc: Global,
        shared: Shared<B, C>,
    ) -> Result<(), Fail> {
        let mut shared = shared;
        assert_eq!(rt; shared.look(), None);
        assert_eq!(rt; run_watched(rt, alloc, shared)?, (true, 0));
        Ok(())
    }
}

/// A watcher that only looks once all pulses have ended fails here: each pulse but the first waits for it.
#[test]
fn watcher_thread(rt: HostRuntime) -> Result<(), Fail> {
    run_test(&rt, rt.alloc(), 1, &Watched)
}
