//! A scenario from the first byte that is read to the last that is written.
ghost use Rattle.std.specs.Prelude.{◌≡◌, ◌+◌, ◌≤◌, ◌<◌, ℕ, Bool, false, List, Option, [], IfErr, IfOk, IfSome, MatchResult, string_bytes};
ghost use Rattle.bench_core.specs.State.{new_state};
ghost use Rattle.bench_workers.specs.ThreadStarts.{has_failed};
ghost use Rattle.scenario_text.specs.Texts.{ReadsText};
ghost use Rattle.stream_io.specs.Streams.{TakesAtMost};
ghost use Rattle.bench_scenario.specs.Runs.{HasReportCause, HasRunCause, LeavesReport, LeavesRun, ReportHasThreads, ReportsRun, StopsForWant, bench_of};
ghost use Rattle.bench_scenario.specs.inner.Runs.{IsDueOfRun};

use crate::paying::useful_workers;
use crate::printing::{RunReport, report};
use crate::reading::{TextFault, read_scenario};
use crate::schedule::events;
use bench_core::Bench;
use bench_workers::{MAX_WORKERS, Open, RunFault, TrackedThreads, run_events_on};
use scenario_text::{MAX_TEXT, Scenario, ScenarioError};
use std::alloc::{AllocError, Global};
use std::sync::Wait;
use std::thread::Threads;
use stream_io::{Sink, Source, WriteFault, write_fully};
use thiserror::Error;

/// The most bytes that are read: one more than a text may have, by which a text that is too long is known.
pub const MAX_BYTES: usize = MAX_TEXT + 1;

/// The most calls of `read`.
pub const MAX_CALLS: usize = 2_097_152;

/// Why a scenario left no whole report.
#[derive(Debug, Drop, Error)]
pub enum ScenarioFault {
    /// A call of `read` failed.
    #[error("reading failed")]
    Read,
    #[error(transparent)]
    Refused(ScenarioError),
    #[error("the run stopped at event {}", .0.event)]
    Run(RunFault),
    /// A call of `write` failed or took nothing, when this many bytes of the report were taken.
    #[error("writing failed after {written} bytes")]
    Write { written: u64 },
    #[error("out of memory")]
    Memory,
}

/// Why the run of a scenario that was read left no whole report.
#[derive(Debug, Drop)]
pub enum ReportFault {
    Run(RunFault),
    /// A call of `write` failed or took nothing, when this many bytes of the report were taken.
    Write { written: u64 },
    Memory,
}

/// Returns the bench that a scenario is run on.
pub(crate) fn bench_for(alloc: Global, scenario: &Scenario) -> Result<Bench, AllocError>
    requires reads { (text : List ℕ) × ReadsText text scenario.now }
    ensures setup { IfOk result (λ b. b.setup ≡ bench_of scenario.now) }
    ensures state { IfOk result (λ b. b.state ≡ new_state (bench_of scenario.now)) }
    ensures history { IfOk result (λ b. b.history ≡ []) }
{
    let shape = scenario.shape();
    let rule = scenario.rule();
    match &scenario.clock {
        None => Bench::new(alloc, shape, rule),
        Some(clock) => {
            let program = clock.program().copy(alloc)?;
            Bench::with_clock(alloc, shape, rule, program)
        }
    }
}

/// Returns the report of the run of a scenario that was read.
fn report_of<T: Threads + Wait + Sync>(
    threads: &mut TrackedThreads<'_, T>,
    alloc: Global,
    scenario: &Scenario,
    workers: u32,
) -> Result<RunReport, ReportFault>
    requires some { 1 ≤ workers }
    requires few { workers ≤ MAX_WORKERS }
    requires reads { (text : List ℕ) × ReadsText text scenario.now }
    ensures told { MatchResult result (λ told. ReportsRun scenario.now (string_bytes told.text) told.agrees)
        (IsDueOfRun scenario.now) }
    ensures thread { has_failed threads.new.starts ≡ false → IfErr result ReportHasThreads }
{
    let Ok(events) = events(alloc, scenario) else {
        return Err(ReportFault::Memory);
    };
    let Ok(bench) = bench_for(alloc, scenario) else {
        return Err(ReportFault::Memory);
    };
    let workers = useful_workers(scenario, workers);
    let run = match run_events_on(threads, alloc, &Open, workers, bench, events) {
        Ok(run) => run,
        Err(fault) => return Err(ReportFault::Run(fault)),
    };
    let Ok(report) = report(alloc, scenario, &run) else {
        return Err(ReportFault::Memory);
    };
    Ok(report)
}

/// Runs a scenario that was read, on as many of the workers as pay, and writes the report. Returns true if no pulse's
/// verdict on agreement is no. The report is whole before its first byte is written. `threads` tells whether a start of a
/// thread failed.
pub fn write_report<T: Threads + Wait + Sync, W: Sink>(
    threads: &mut TrackedThreads<'_, T>,
    alloc: Global,
    scenario: &Scenario,
    workers: u32,
    writer: &mut W,
) -> Result<bool, ReportFault>
    requires some { 1 ≤ workers }
    requires few { workers ≤ MAX_WORKERS }
    requires reads { (text : List ℕ) × ReadsText text scenario.now }
    ensures left { LeavesRun (W.contents writer.old) (W.contents writer.new) scenario.now result }
    ensures cause { IfErr result (HasRunCause (W.has_failed writer.new)) }
    ensures thread { has_failed threads.new.starts ≡ false → IfErr result ReportHasThreads }
{
    let report = report_of(threads, alloc, scenario, workers)?;
    match write_fully(writer, report.text.as_bytes()) {
        Ok(()) => Ok(report.agrees),
        Err(WriteFault { written }) => Err(ReportFault::Write {
            written: written as u64,
        }),
    }
}

/// Runs a scenario that was read, and writes the report.
fn report_on<T: Threads + Wait + Sync, W: Sink>(
    rt: &T,
    alloc: Global,
    scenario: &Scenario,
    workers: u32,
    writer: &mut W,
) -> Result<(), ScenarioFault>
    requires some { 1 ≤ workers }
    requires few { workers ≤ MAX_WORKERS }
    requires reads { (text : List ℕ) × ReadsText text scenario.now }
    ensures left { (known : Option (List ℕ)) → IfSome known (λ text. ReadsText text scenario.now)
        → IfSome known (λ text. LeavesReport (W.contents writer.old) (W.contents writer.new) text result) }
    ensures want { IfErr result StopsForWant }
    ensures cause { (unread : Bool) → IfErr result (HasReportCause unread (W.has_failed writer.new)) }
{
    let mut threads = TrackedThreads::of(rt);
    match write_report(&mut threads, alloc, scenario, workers, writer) {
        Ok(_agrees) => Ok(()),
        Err(ReportFault::Run(fault)) => Err(ScenarioFault::Run(fault)),
        Err(ReportFault::Write { written }) => Err(ScenarioFault::Write { written }),
        Err(ReportFault::Memory) => Err(ScenarioFault::Memory),
    }
}

/// Reads a scenario's text, runs it on as many of the workers as pay, and writes the report. At most [`MAX_BYTES`]
/// bytes are read, by at most [`MAX_CALLS`] calls of `read`. The report is whole before its first byte is written.
pub fn run_scenario<T: Threads + Wait + Sync, R: Source, W: Sink>(
    rt: &T,
    alloc: Global,
    reader: &mut R,
    writer: &mut W,
    workers: u32,
) -> Result<(), ScenarioFault>
    requires some { 1 ≤ workers }
    requires few { workers ≤ MAX_WORKERS }
    ensures taken { TakesAtMost MAX_BYTES (R.remaining reader.old) (R.remaining reader.new) }
    ensures left { IfSome (R.remaining reader.old) (λ text.
        LeavesReport (W.contents writer.old) (W.contents writer.new) text result) }
    ensures want { IfErr result StopsForWant }
    ensures cost { R.calls reader.new ≤ R.calls reader.old + MAX_CALLS }
    ensures cause { IfErr result (HasReportCause (R.has_failed reader.new) (W.has_failed writer.new)) }
{
    let scenario = match read_scenario(alloc, reader) {
        Ok(scenario) => scenario,
        Err(TextFault::Read) => return Err(ScenarioFault::Read),
        Err(TextFault::Refused(error)) => return Err(ScenarioFault::Refused(error)),
        Err(TextFault::Memory) => return Err(ScenarioFault::Memory),
    };
    report_on(rt, alloc, &scenario, workers, writer)
}
