//! Pulses of a shared bench.
use super::gates::{Counting, Meeting};
use super::setup::{ONES, Setup};
use super::shared::{Shared, SharedTest, run_test};
use bench_core::PulseRecord;
use bench_engine::{EngineError, MAX_WORKERS, Open, WorkError, run_events};
use std::alloc::Global;
use std::process::Abort;
use std::sync::Wait;
use std::sync::ledger::Ledger;
use std::test::Fail;
use std::thread::Threads;

/// Compares pulses, each with another number of workers, with the records of a run.
#[derive(Drop)]
struct Compared {
    records: Vec<PulseRecord>,
}

impl SharedTest for Compared {
    fn run<B: Ledger, C: Ledger, R: Abort + Threads + Wait + Sync>(
        &self,
        rt: &R,
        alloc: Global,
        shared: Shared<B, C>,
    ) -> Result<(), Fail> {
        let mut shared = shared;
        for workers in 1..=MAX_WORKERS {
            let record = self.records.get(workers as usize - 1);
            let Some(record) = record else {
                return Err("no record")?;
            };
            let gate = Counting::new(alloc, 100)?;
            let told = shared.pulse(rt, alloc, &gate, workers)?;
            assert_same(rt, &told, record);
            gate.assert_entered(rt, workers, 1);
        }
        Ok(())
    }
}

fn assert_same(rt: &impl Abort, told: &PulseRecord, record: &PulseRecord) {
    assert_eq!(rt; told.row, record.row);
    assert_eq!(rt; told.clocks.as_slice(), record.clocks.as_slice());
    assert_eq!(rt; told.settled.as_slice(), record.settled.as_slice());
    assert_eq!(rt; told.steps, record.steps);
    assert_eq!(rt; told.agree, record.agree);
}

/// A record of another bench's pulse keeps every clause, and fails here.
#[test]
fn pulses_tell_what_a_run_tells(rt: HostRuntime) -> Result<(), Fail> {
    let four = Setup::four()?;
    let events = four.events(rt.alloc(), &[ONES; MAX_WORKERS as usize])?;
    let run = run_events(&rt, rt.alloc(), &Open, 1, four.shape, four.rule, events)?;
    assert_eq!(rt; run.records.len(), MAX_WORKERS as usize);
    let records = run.records;
    run_test(&rt, rt.alloc(), 1, &Compared { records })
}

/// For each number of workers, runs a pulse whose gate refuses the last to enter, and then one whose gate is open.
struct ShutThenOpen;

impl SharedTest for ShutThenOpen {
    fn run<B: Ledger, C: Ledger, R: Abort + Threads + Wait + Sync>(
        &self,
        rt: &R,
        alloc: Global,
        shared: Shared<B, C>,
    ) -> Result<(), Fail> {
        let mut shared = shared;
        for workers in 1..=MAX_WORKERS {
            let shut = Counting::new(alloc, workers - 1)?;
            let refusal = shared.pulse(rt, alloc, &shut, workers).err();
            assert_eq!(rt; refusal, Some(EngineError::Work(WorkError::GateShut)));
            let record = shared.pulse(rt, alloc, &Open, workers)?;
            assert_eq!(rt; record.row.pulse, workers);
        }
        let finished = shared.finish()?;
        let entries = 4 + 4 * MAX_WORKERS as usize;
        assert_eq!(rt; finished.history().len(), entries);
        assert_eq!(rt; finished.closes(), MAX_WORKERS as usize);
        Ok(())
    }
}

#[test]
fn gate_shut_on_a_shared_bench(rt: HostRuntime) -> Result<(), Fail> {
    run_test(&rt, rt.alloc(), 1, &ShutThenOpen)
}

/// Runs a pulse in which two workers meet.
struct Met;

impl SharedTest for Met {
    fn run<B: Ledger, C: Ledger, R: Abort + Threads + Wait + Sync>(
        &self,
        rt: &R,
        alloc: Global,
        shared: Shared<B, C>,
    ) -> Result<(), Fail> {
        let mut shared = shared;
        shared.pulse(rt, alloc, &Meeting::new(), 2)?;
        Ok(())
    }
}

#[test]
fn workers_meet_on_a_shared_bench(rt: HostRuntime) -> Result<(), Fail> {
    run_test(&rt, rt.alloc(), 1, &Met)
}
