//! Calls of a shared bench: which errors they return, and that its passes end it.
use super::setup::{ONES, Setup};
use super::shared::{Shared, SharedTest, run_test};
use bench_core::{
    Actor, Bench, Change, CloseError, MAX_ENTRIES, NodeDone, NodeTask, OpenError, PulseRecord,
    StageError,
};
use std::alloc::{AllocError, Global};
use std::process::Abort;
use std::sync::Wait;
use std::sync::ledger::Ledger;
use std::test::Fail;
use std::thread::Threads;

fn run_all(alloc: Global, tasks: Vec<NodeTask>) -> Result<Vec<NodeDone>, AllocError> {
    tasks.into_iter().map(|task| task.run()).collect(alloc)
}

/// Returns why a pulse wasn't closed, if it wasn't.
fn close_error(closed: Result<PulseRecord, (Vec<NodeDone>, CloseError)>) -> Option<CloseError> {
    match closed {
        Ok(_) => None,
        Err((_, error)) => Some(error),
    }
}

/// Makes calls that fail before, in and after a pulse.
struct Errors;

impl SharedTest for Errors {
    fn run<B: Ledger, C: Ledger, R: Abort + Threads + Wait + Sync>(
        &self,
        rt: &R,
        alloc: Global,
        shared: Shared<B, C>,
    ) -> Result<(), Fail> {
        let mut shared = shared;
        let coins = [1, 1, 2, 1];
        let error = OpenError::BadCoins;
        assert_eq!(rt; shared.open(rt, alloc, &coins[..3]).err(), Some(error));
        assert_eq!(rt; shared.open(rt, alloc, &coins).err(), Some(error));
        assert_none_open(rt, alloc, &mut shared);

        let tasks = shared.open(rt, alloc, &ONES)?;
        let error = OpenError::PulseOpen;
        assert_eq!(rt; shared.open(rt, alloc, &coins).err(), Some(error));
        assert_eq!(rt; shared.open(rt, alloc, &ONES).err(), Some(error));
        let early = close_error(shared.close(rt, alloc, Vec::new(alloc)));
        assert_eq!(rt; early, Some(CloseError::Missing(0)));
        let dones = run_all(alloc, tasks)?;
        assert!(rt; shared.close(rt, alloc, dones).is_ok());

        assert_none_open(rt, alloc, &mut shared);
        assert_eq!(rt; shared.finish()?.history().len(), 6);
        Ok(())
    }
}

/// Requires that no pulse can be closed or abandoned.
fn assert_none_open<B: Ledger, C: Ledger, R: Abort + Wait>(
    rt: &R,
    alloc: Global,
    shared: &mut Shared<B, C>,
) {
    let closed = close_error(shared.close(rt, alloc, Vec::new(alloc)));
    assert_eq!(rt; closed, Some(CloseError::NotOpen));
    let abandoned = shared.bench.abandon(rt, &mut shared.engine);
    assert_eq!(rt; abandoned, Err(CloseError::NotOpen));
}

/// Clauses allow other errors here: `PulseOpen` at any opening, and `NotOpen` at any close.
#[test]
fn errors_on_a_shared_bench(rt: HostRuntime) -> Result<(), Fail> {
    run_test(&rt, rt.alloc(), 1, &Errors)
}

/// Returns the last node's result in the first pulse of another bench, with these coins.
fn last_result(alloc: Global, coins: &[u32]) -> Result<NodeDone, Fail> {
    let four = Setup::four()?;
    let mut bench = Bench::new(alloc, four.shape, four.rule)?;
    let program = four.clock(alloc)?;
    let load = Change::Load { node: 3, program };
    if bench.stage(Actor::Loader(0), load).is_err() {
        return Err("not staged")?;
    }
    let mut tasks = bench.open_pulse(alloc, coins)?;
    let Some(last) = tasks.pop() else {
        return Err("no task")?;
    };
    Ok(last.run())
}

/// Closes a pulse with one result too many: one equal to its last node's, or one of a pulse with other coins. Then it
/// closes the pulse with its own.
struct OneMore;

impl SharedTest for OneMore {
    fn run<B: Ledger, C: Ledger, R: Abort + Threads + Wait + Sync>(
        &self,
        rt: &R,
        alloc: Global,
        shared: Shared<B, C>,
    ) -> Result<(), Fail> {
        let mut shared = shared;
        let tasks = shared.open(rt, alloc, &ONES)?;
        let mut dones = run_all(alloc, tasks)?;
        let cases = [
            (ONES, CloseError::Twice(3)),
            ([0; 4], CloseError::Stranger(3)),
        ];
        for (coins, wanted) in cases {
            dones.push(last_result(alloc, &coins)?)?;
            let Err((given, error)) = shared.close(rt, alloc, dones) else {
                return Err("closed")?;
            };
            assert_eq!(rt; error, wanted);
            dones = given;
            let _more = dones.pop();
        }
        assert!(rt; shared.close(rt, alloc, dones).is_ok());
        Ok(())
    }
}

/// A close that tells `Twice` and `Stranger` as `NotOpen` keeps every clause, and fails here.
#[test]
fn results_of_two_benches(rt: HostRuntime) -> Result<(), Fail> {
    run_test(&rt, rt.alloc(), 1, &OneMore)
}

/// Unloads node 0 this many times, or returns the first error.
fn unload_often<B: Ledger, C: Ledger, R: Wait>(
    rt: &R,
    alloc: Global,
    shared: &mut Shared<B, C>,
    times: usize,
) -> Result<Option<StageError>, Fail> {
    for _ in 0..times {
        let Some(loader) = shared.loaders.first_mut() else {
            return Err("no loader")?;
        };
        if let Err((_, error)) = shared.bench.unload(rt, alloc, loader, 0) {
            return Ok(Some(error));
        }
    }
    Ok(None)
}

/// Opens a pulse with one place left, and stages a change with none.
struct FullHistory;

impl SharedTest for FullHistory {
    fn run<B: Ledger, C: Ledger, R: Abort + Threads + Wait + Sync>(
        &self,
        rt: &R,
        alloc: Global,
        shared: Shared<B, C>,
    ) -> Result<(), Fail> {
        let mut shared = shared;
        let one_left = MAX_ENTRIES - 4 - 1; // after four loads
        assert_eq!(rt; unload_often(rt, alloc, &mut shared, one_left)?, None);
        let opening = shared.open(rt, alloc, &ONES).err();
        assert_eq!(rt; opening, Some(OpenError::HistoryFull));
        assert_eq!(rt; unload_often(rt, alloc, &mut shared, 1)?, None);
        let change = unload_often(rt, alloc, &mut shared, 1)?;
        assert_eq!(rt; change, Some(StageError::HistoryFull));
        assert_eq!(rt; shared.finish()?.history().len(), MAX_ENTRIES);
        Ok(())
    }
}

#[test]
fn full_history_is_refused(rt: HostRuntime) -> Result<(), Fail> {
    run_test(&rt, rt.alloc(), 1, &FullHistory)
}

/// Stages two changes by the second loader.
fn stage_two<B: Ledger, C: Ledger, R: Wait>(
    rt: &R,
    alloc: Global,
    shared: &mut Shared<B, C>,
) -> Result<(), Fail> {
    let Some(loader) = shared.loaders.get_mut(1) else {
        return Err("no second loader")?;
    };
    let image = vec![in alloc; 5; 8]?;
    if shared.bench.corrupt(rt, alloc, loader, 1, image).is_err()
        || shared.bench.unload(rt, alloc, loader, 2).is_err()
    {
        return Err("not staged")?;
    }
    Ok(())
}

/// Runs a pulse in which the second loader stages changes.
struct TwoLoaders;

impl SharedTest for TwoLoaders {
    fn run<B: Ledger, C: Ledger, R: Abort + Threads + Wait + Sync>(
        &self,
        rt: &R,
        alloc: Global,
        shared: Shared<B, C>,
    ) -> Result<(), Fail> {
        let mut shared = shared;
        let tasks = shared.open(rt, alloc, &ONES)?;
        stage_two(rt, alloc, &mut shared)?;
        let dones = run_all(alloc, tasks)?;
        assert!(rt; shared.close(rt, alloc, dones).is_ok());
        let finished = shared.finish()?;
        assert_eq!(rt; finished.history().len(), 8);
        assert_eq!(rt; (finished.loads(), finished.closes()), (4, 1));
        Ok(())
    }
}

#[test]
fn finish_takes_every_pass_or_none(rt: HostRuntime) -> Result<(), Fail> {
    run_test(&rt, rt.alloc(), 2, &TwoLoaders)
}
