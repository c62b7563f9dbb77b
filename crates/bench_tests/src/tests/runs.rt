//! Runs of events.
use super::gates::{Counting, Meeting};
use super::setup::{ONES, Setup, assert_told};
use bench_core::CLOCKS_DIFFER;
use bench_engine::{MAX_WORKERS, Open, RunRefusal, run_events};
use std::test::Fail;

/// Rows by the rule of docs/CLOCK.md. Steps are those of four nodes in tools/check_clock.py, less 6 for each of three
/// nodes that are silent, or 7 if these send.
#[test]
fn one_node_counts(rt: HostRuntime) -> Result<(), Fail> {
    let one = Setup::of(1, 0, 2)?;
    let events = one.events(rt.alloc(), &[[1]; 4])?;
    let run = run_events(&rt, rt.alloc(), &Open, 1, one.shape, one.rule, events)?;
    let wanted = [
        ([1, 0, 0, 0], 0, 18),
        ([2, 1, 0, 1], 1, 23),
        ([3, 0, 1, 1], 0, 21),
        ([4, 1, 0, 1], 1, 22),
    ];
    assert_eq!(rt; run.records.len(), wanted.len());
    for (record, (row, clock, steps)) in run.records.iter().zip(wanted.iter()) {
        assert_told(&rt, record, *row, &[Some(*clock)], &[row[3] == 1]);
        assert_eq!(rt; record.steps, *steps);
        assert!(rt; record.agree);
    }
    Ok(())
}

/// Rows by the rule of docs/CLOCK.md: with n = 2 and f = 1 a node supports its own clock.
#[test]
fn clocks_differ_if_too_many_may_be_faulty(rt: HostRuntime) -> Result<(), Fail> {
    let two = Setup::of(2, 1, 8)?;
    let events = two.events(rt.alloc(), &[[0, 1], [0, 1], [1, 1]])?;
    let run = run_events(&rt, rt.alloc(), &Open, 1, two.shape, two.rule, events)?;
    let wanted = [
        ([1, 0, 0, 0], [0, 0], true),
        ([2, 1, 1, 2], [0, 1], true),
        ([3, CLOCKS_DIFFER, 0, 2], [1, 2], false),
    ];
    assert_eq!(rt; run.records.len(), wanted.len());
    for (record, (row, clocks, agree)) in run.records.iter().zip(wanted.iter()) {
        assert_told(&rt, record, *row, &clocks.map(Some), &[row[3] == 2; 2]);
        assert_eq!(rt; record.agree, *agree);
    }
    Ok(())
}

/// Rows by the rule of docs/CLOCK.md, steps as in tools/check_clock.py. A worker enters the gate once in each pulse.
#[test]
fn four_clocks_for_each_number_of_workers(rt: HostRuntime) -> Result<(), Fail> {
    let four = Setup::four()?;
    let wanted = [
        ([1, 0, 0, 0], 0, 36),
        ([2, 1, 0, 4], 1, 44),
        ([3, 2, 0, 4], 2, 41),
    ];
    for workers in 1..=MAX_WORKERS {
        let gate = Counting::new(rt.alloc(), 100)?;
        let events = four.events(rt.alloc(), &[ONES; 3])?;
        let run = run_events(
            &rt,
            rt.alloc(),
            &gate,
            workers,
            four.shape,
            four.rule,
            events,
        )?;
        assert_eq!(rt; run.records.len(), wanted.len());
        for (record, (row, clock, steps)) in run.records.iter().zip(wanted.iter()) {
            assert_told(&rt, record, *row, &[Some(*clock); 4], &[row[3] == 4; 4]);
            assert_eq!(rt; record.steps, *steps);
            assert!(rt; record.agree);
        }
        assert_eq!(rt; run.memories.len(), 4);
        for memory in &run.memories {
            assert_eq!(rt; memory.as_slice(), [2, 0, 0, 0, 1, 0, 0, 0].as_slice());
        }
        gate.assert_entered(&rt, workers, 3);
    }
    Ok(())
}

/// The last worker to enter in the second pulse is refused, for each number of workers.
#[test]
fn a_shut_gate_is_told_at_its_pulse(rt: HostRuntime) -> Result<(), Fail> {
    let four = Setup::four()?;
    for workers in 1..=MAX_WORKERS {
        let gate = Counting::new(rt.alloc(), 2 * workers - 1)?;
        let events = four.events(rt.alloc(), &[ONES; 3])?;
        let got = run_events(
            &rt,
            rt.alloc(),
            &gate,
            workers,
            four.shape,
            four.rule,
            events,
        );
        let Some(fault) = got.err() else {
            return Err("no fault")?;
        };
        assert_eq!(rt; (fault.event, fault.fault), (5, RunRefusal::GateShut));
        gate.assert_entered(&rt, workers, 2);
    }
    Ok(())
}

#[test]
fn workers_meet(rt: HostRuntime) -> Result<(), Fail> {
    let four = Setup::four()?;
    let events = four.events(rt.alloc(), &[ONES])?;
    let gate = Meeting::new();
    run_events(&rt, rt.alloc(), &gate, 2, four.shape, four.rule, events)?;
    Ok(())
}
