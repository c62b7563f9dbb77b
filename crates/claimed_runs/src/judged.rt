//! Runs whose closed pulses are judged by properties.
ghost use Rattle.std.specs.Prelude.{◌≡◌, ◌≤◌, false, ℕ, IfErr, IfOk, List};
ghost use Rattle.bench_workers.specs.ThreadStarts.{has_failed};
ghost use Rattle.scenario_text.specs.Texts.{ReadsText};
ghost use Rattle.bench_scenario.specs.Runs.{ReportHasThreads};
ghost use Rattle.bench_scenario.specs.inner.Runs.{IsDueOfRun};
ghost use Rattle.claimed_runs.specs.Runs.{IsJudgedRun};
ghost use Rattle.properties.specs.Claims.{claimed_in};

use crate::nodes::sizes_of;
use crate::watcher::ClaimsWatcher;
use bench_scenario::{ReportFault, WatchedFault, run_watched};
use bench_workers::{MAX_WORKERS, Run, TrackedThreads};
use properties::{Property, PulseClaims};
use scenario_text::Scenario;
use std::alloc::Global;
use std::sync::Wait;
use std::thread::Threads;

/// How the verdicts and answers of a run are written.
#[derive(Clone, Copy, Debug, PartialEq, Eq)]
pub enum ClaimsForm {
    /// The report of the run, then verdicts and answers.
    Text,
    /// Verdicts and answers alone, as lines of JSON.
    Json,
}

/// A scenario that was read, the properties that its run is judged by, how that is written, and on how many workers at
/// most it is run.
#[derive(Clone, Copy)]
pub struct ClaimedRun<'a> {
    pub scenario: &'a Scenario,
    pub properties: &'a [Property],
    pub form: ClaimsForm,
    pub workers: u32,
}

/// A run, and the verdicts on properties in each of its closed pulses.
#[derive(Drop)]
pub struct JudgedRun {
    pub run: Run,
    pub pulses: Vec<PulseClaims>,
}

/// Runs a scenario, and judges each closed pulse by the properties. `threads` tells whether a start of a thread failed.
pub fn judged_run<T: Threads + Wait + Sync>(
    threads: &mut TrackedThreads<'_, T>,
    alloc: Global,
    asked: &ClaimedRun<'_>,
) -> Result<JudgedRun, ReportFault>
    requires some { 1 ≤ asked.now.workers }
    requires few { asked.now.workers ≤ MAX_WORKERS }
    requires reads { (text : List ℕ) × ReadsText text asked.now.scenario.now }
    ensures judged { IfOk result (λ judged. IsJudgedRun asked.now.scenario.now asked.now.properties.now
        judged.run.records.items (claimed_in judged.pulses.items)) }
    ensures due { IfErr result (IsDueOfRun asked.now.scenario.now) }
    ensures thread { has_failed threads.new.starts ≡ false → IfErr result ReportHasThreads }
{
    let sizes = sizes_of(asked.scenario);
    let mut watcher = ClaimsWatcher::new(alloc, asked.properties, sizes);
    let workers = asked.workers;
    match run_watched(
        threads,
        alloc,
        asked.scenario,
        workers,
        &mut watcher,
        &mut (),
    ) {
        Ok(run) => Ok(JudgedRun {
            run,
            pulses: watcher.pulses,
        }),
        Err(WatchedFault::Run(fault)) => Err(ReportFault::Run(fault)),
        Err(WatchedFault::Memory | WatchedFault::Stopped(_)) => Err(ReportFault::Memory),
    }
}
