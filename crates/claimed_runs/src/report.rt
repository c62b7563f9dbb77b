//! The report of a run, with what it says of properties.
ghost use Rattle.std.specs.Prelude.{◌≡◌, ◌++◌, ◌≤◌, false, ℕ, IfErr, IfOk, List, MatchResult, is_some, string_bytes};
ghost use Rattle.bench_workers.specs.ThreadStarts.{has_failed};
ghost use Rattle.scenario_text.specs.Texts.{ReadsText};
ghost use Rattle.scenario_text.specs.Views.{frame_of};
ghost use Rattle.bench_scenario.specs.Reports.{all_agree, report_of};
ghost use Rattle.bench_scenario.specs.Runs.{HasRunCause, ReportHasThreads};
ghost use Rattle.bench_scenario.specs.inner.Runs.{IsDueOfRun};
ghost use Rattle.claimed_runs.specs.Runs.{LeavesClaims, ReportsClaims, judged_run_text};
ghost use Rattle.properties.specs.Claims.{claimed_in};
ghost use Rattle.properties.specs.Texts.{all_hold, claims_text};

use crate::judged::{ClaimedRun, ClaimsForm, JudgedRun, judged_run};
use bench_scenario::{ReportFault, report};
use bench_workers::{MAX_WORKERS, Run, TrackedThreads};
use claims_json::claims_lines;
use properties::{PulseClaims, add_claims};
use std::alloc::{AllocError, Global};
use std::sync::Wait;
use std::thread::Threads;
use stream_io::{Sink, WriteFault, write_fully};

/// Whether no pulse's verdict on agreement is no, and whether no property is violated.
#[derive(Clone, Copy, Debug, PartialEq, Eq)]
pub struct ClaimsReport {
    pub agrees: bool,
    pub holds: bool,
}

/// The text of verdicts and answers, with or without a report, and what the run says.
#[derive(Drop)]
struct ReportText {
    text: String,
    says: ClaimsReport,
}

/// Returns the report of a run, then the verdicts and the answers of the pulses that were judged.
fn report_text(
    alloc: Global,
    asked: &ClaimedRun<'_>,
    run: &Run,
    pulses: &[PulseClaims],
) -> Result<ReportText, AllocError>
    ensures text { IfOk result (λ told. string_bytes told.text
        ≡ report_of (frame_of asked.now.scenario.now) (is_some asked.now.scenario.now.clock) run.now.records.items
        ++ claims_text asked.now.properties.now (claimed_in pulses.now)) }
    ensures agrees { IfOk result (λ told. told.says.agrees
        ≡ all_agree (frame_of asked.now.scenario.now) (is_some asked.now.scenario.now.clock) run.now.records.items) }
    ensures holds { IfOk result (λ told. told.says.holds
        ≡ all_hold asked.now.properties.now (claimed_in pulses.now)) }
{
    let plain = report(alloc, asked.scenario, run)?;
    let agrees = plain.agrees;
    let mut text = plain.text;
    let holds = add_claims(alloc, &mut text, asked.properties, pulses)?;
    Ok(ReportText {
        text,
        says: ClaimsReport { agrees, holds },
    })
}

/// Returns the text of a run that was judged, in the form that is asked for.
fn judged_run_text(
    alloc: Global,
    asked: &ClaimedRun<'_>,
    run: &Run,
    pulses: &[PulseClaims],
) -> Result<ReportText, AllocError>
    ensures text { IfOk result (λ told. string_bytes told.text ≡ judged_run_text asked.now.form asked.now.scenario.now
        asked.now.properties.now run.now.records.items (claimed_in pulses.now)) }
    ensures agrees { IfOk result (λ told. told.says.agrees
        ≡ all_agree (frame_of asked.now.scenario.now) (is_some asked.now.scenario.now.clock) run.now.records.items) }
    ensures holds { IfOk result (λ told. told.says.holds
        ≡ all_hold asked.now.properties.now (claimed_in pulses.now)) }
{
    let told = report_text(alloc, asked, run, pulses)?;
    match asked.form {
        ClaimsForm::Text => Ok(told),
        ClaimsForm::Json => Ok(ReportText {
            text: claims_lines(alloc, asked.properties, pulses)?,
            says: told.says,
        }),
    }
}

/// Runs a scenario, and returns the text of its verdicts and answers.
fn claims_report<T: Threads + Wait + Sync>(
    threads: &mut TrackedThreads<'_, T>,
    alloc: Global,
    asked: &ClaimedRun<'_>,
) -> Result<ReportText, ReportFault>
    requires some { 1 ≤ asked.now.workers }
    requires few { asked.now.workers ≤ MAX_WORKERS }
    requires reads { (text : List ℕ) × ReadsText text asked.now.scenario.now }
    ensures told { MatchResult result
        (λ told. ReportsClaims asked.now.form asked.now.scenario.now asked.now.properties.now (string_bytes told.text)
        told.says)
        (IsDueOfRun asked.now.scenario.now) }
    ensures thread { has_failed threads.new.starts ≡ false → IfErr result ReportHasThreads }
{
    let JudgedRun { run, pulses } = judged_run(threads, alloc, asked)?;
    match judged_run_text(alloc, asked, &run, pulses.as_slice()) {
        Ok(told) => Ok(told),
        Err(_) => Err(ReportFault::Memory),
    }
}

/// Runs a scenario, and writes its report, then the verdicts and the answers of properties; or these as lines of JSON. The
/// text is whole before its first byte is written. `threads` tells whether a start of a thread failed.
pub fn write_claims<T: Threads + Wait + Sync, W: Sink>(
    threads: &mut TrackedThreads<'_, T>,
    alloc: Global,
    asked: &ClaimedRun<'_>,
    writer: &mut W,
) -> Result<ClaimsReport, ReportFault>
    requires some { 1 ≤ asked.now.workers }
    requires few { asked.now.workers ≤ MAX_WORKERS }
    requires reads { (text : List ℕ) × ReadsText text asked.now.scenario.now }
    ensures left { LeavesClaims (W.contents writer.old) (W.contents writer.new) asked.now.form asked.now.scenario.now
        asked.now.properties.now result }
    ensures cause { IfErr result (HasRunCause (W.has_failed writer.new)) }
    ensures thread { has_failed threads.new.starts ≡ false → IfErr result ReportHasThreads }
{
    let told = claims_report(threads, alloc, asked)?;
    match write_fully(writer, told.text.as_bytes()) {
        Ok(()) => Ok(told.says),
        Err(WriteFault { written }) => Err(ReportFault::Write {
            written: written as u64,
        }),
    }
}
