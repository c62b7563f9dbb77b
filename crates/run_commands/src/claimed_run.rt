//! `run --claims`: what a scenario's run says of properties, with its report or as lines of JSON.
ghost use Rattle.std.specs.Prelude.{◌≡◌, IfErr, IfOk, List, ℕ};
ghost use Rattle.bench_workers.specs.ThreadStarts.{has_failed};
ghost use Rattle.command_answers.specs.Faults.{HasThreadCause, HasWriteCause};
ghost use Rattle.command_answers.specs.Said.{SaysAt};
ghost use Rattle.run_commands.specs.ClaimedRun.{LeavesClaimedRun, LeavesJudged, claims_form_of};
ghost use Rattle.scenario_text.specs.Texts.{ReadsText};

use crate::claims_file::{properties_in, refused_claims};
use crate::run::{ending_of, fault_of};
use bench_scenario::ReportFault;
use bench_workers::{MAX_WORKERS, TrackedThreads};
use claim_tokens::ReadClaimsError;
use claimed_runs::{ClaimedRun, ClaimsForm, write_claims};
use command_answers::{Ending, Fault, give};
use properties::Property;
use requests::ClaimedRunOptions;
use scenario_text::Scenario;
use std::alloc::Global;
use std::sync::Wait;
use std::thread::Threads;
use stream_io::Sink;

/// Writes the report of the run of a scenario that was read, then the verdicts and the answers of properties, or these as
/// lines of JSON. If their text is refused, it writes the line that refuses it, with a note. If the run is to be checked,
/// the ending tells of a property that is violated.
pub fn claimed_run<T: Threads + Wait + Sync, W: Sink, E: Sink>(
    threads: &mut TrackedThreads<'_, T>,
    alloc: Global,
    options: &ClaimedRunOptions,
    scenario: &Scenario,
    out: &mut W,
    err: &mut E,
) -> Result<Ending, Fault>
    requires reads { (text : List ℕ) × ReadsText text scenario.now }
    ensures left { LeavesClaimedRun options.now (W.contents out.old) (W.contents out.new) scenario.now result }
    ensures said { IfOk result (λ ending. SaysAt ending (E.contents err.old) (E.contents err.new)) }
    ensures unsaid { IfErr result (λ fault. E.contents err.new ≡ E.contents err.old) }
    ensures cause { IfErr result (HasWriteCause (W.has_failed out.new)) }
    ensures thread { IfErr result (HasThreadCause (has_failed threads.new.starts)) }
{
    match properties_in(alloc, scenario, options.claims.as_bytes()) {
        Ok(properties) => judged(
            threads,
            alloc,
            options,
            scenario,
            properties.as_slice(),
            out,
        ),
        Err(ReadClaimsError::Memory) => Err(Fault::Memory),
        Err(ReadClaimsError::Refused(refusal)) => {
            give(alloc, refused_claims(alloc, scenario, refusal), out, err)
        }
    }
}

/// Returns the form that is asked for.
fn claims_form_of(json: bool) -> ClaimsForm
    ensures { result ≡ claims_form_of json }
{
    if json {
        ClaimsForm::Json
    } else {
        ClaimsForm::Text
    }
}

/// Writes the report, the verdicts and the answers, or the lines of JSON.
fn judged<T: Threads + Wait + Sync, W: Sink>(
    threads: &mut TrackedThreads<'_, T>,
    alloc: Global,
    options: &ClaimedRunOptions,
    scenario: &Scenario,
    properties: &[Property],
    out: &mut W,
) -> Result<Ending, Fault>
    requires reads { (text : List ℕ) × ReadsText text scenario.now }
    ensures left { LeavesJudged options.now.run.check (claims_form_of options.now.json) (W.contents out.old)
        (W.contents out.new) scenario.now properties.now result }
    ensures cause { IfErr result (HasWriteCause (W.has_failed out.new)) }
    ensures thread { IfErr result (HasThreadCause (has_failed threads.new.starts)) }
{
    let asked = ClaimedRun {
        scenario,
        properties,
        form: claims_form_of(options.json),
        workers: options.run.workers.clamp(1, MAX_WORKERS),
    };
    match write_claims(threads, alloc, &asked, out) {
        Ok(says) => Ok(ending_of(options.run.check, says.holds)),
        Err(ReportFault::Run(fault)) => Err(fault_of(fault.fault)),
        Err(ReportFault::Write { written }) => Err(Fault::Write {
            after: written as usize,
        }),
        Err(ReportFault::Memory) => Err(Fault::Memory),
    }
}
