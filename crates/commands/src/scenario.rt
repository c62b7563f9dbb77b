//! The commands on a scenario.
ghost use Rattle.std.specs.Prelude.{◌≡◌, ℕ, List, IfErr, IfOk, MatchResult, take};
ghost use Rattle.bench_scenario.specs.declared.run.TheConstants.{MAX_BYTES};
ghost use Rattle.scenario_text.specs.Texts.{IsDue, IsParsed, ReadsText};
ghost use Rattle.bench_workers.specs.ThreadStarts.{has_failed};
ghost use Rattle.command_answers.specs.Faults.{HasThreadCause, HasWriteCause, IsOutOfMemory};
ghost use Rattle.command_answers.specs.Said.{SaysAt};
ghost use Rattle.commands.specs.Scenarios.{LeavesFor, LeavesOf};

use crate::claimed_explore::claimed_explore;
use crate::explore::explore;
use bench_space::Progress;
use bench_workers::TrackedThreads;
use command_answers::{Ending, Fault, Rejection, give, reject};
use requests::ScenarioRequest;
use run_commands::claimed_run::claimed_run;
use run_commands::claimed_sweep::claimed_sweep;
use run_commands::lines::lines;
use run_commands::node_program::node_program;
use run_commands::run::run;
use run_commands::sweep::sweep;
use run_commands::traced_run::traced_run;
use scenario_text::laws::front_reads_as_whole;
use scenario_text::{Rejected, Scenario, ScenarioError, parse_scenario};
use std::alloc::Global;
use std::sync::Wait;
use std::thread::Threads;
use stream_io::Sink;

/// Does what is asked for on the scenario of a text that begins with these bytes.
pub(crate) fn scenario_bytes<T: Threads + Wait + Sync, W: Sink, E: Sink, P: Progress>(
    threads: &mut TrackedThreads<'_, T>,
    alloc: Global,
    asked: &ScenarioRequest,
    bytes: &[u8],
    out: &mut W,
    err: &mut E,
    progress: &mut P,
) -> Result<Ending, Fault>
    ensures left { (text : List ℕ) → bytes.now ≡ take MAX_BYTES text
        → LeavesFor asked.now (W.contents out.old) (W.contents out.new) text result }
    ensures said { IfOk result (λ ending. SaysAt ending (E.contents err.old) (E.contents err.new)) }
    ensures unsaid { IfErr result (λ fault. E.contents err.new ≡ E.contents err.old) }
    ensures cause { IfErr result (HasWriteCause (W.has_failed out.new)) }
    ensures thread { IfErr result (HasThreadCause (has_failed threads.new.starts)) }
{
    let read = scenario_read(alloc, bytes)?;
    match read {
        Ok(scenario) => on_scenario(threads, alloc, asked, &scenario, out, err, progress),
        Err(rejected) => reject(alloc, &Rejection::Scenario(rejected), bytes, out, err),
    }
}

/// Returns the scenario of a text that begins with these bytes, or why it is none. Lack of memory is a fault.
fn scenario_read(alloc: Global, bytes: &[u8]) -> Result<Result<Scenario, Rejected>, Fault>
    ensures read { IfOk result (λ read. (text : List ℕ) → bytes.now ≡ take MAX_BYTES text
        → MatchResult read (ReadsText text) (λ rejected. IsDue text rejected.error)) }
    ensures parsed { IfOk result (λ read. IfErr read (λ rejected. IsParsed bytes.now rejected.parsed)) }
    ensures some_text { IfOk result (λ read. IfOk read (λ s. (text : List ℕ) × ReadsText text s)) }
    ensures fault { IfErr result IsOutOfMemory }
{
    front_reads_as_whole(); // brings that these bytes serve as the whole text
    match parse_scenario(alloc, bytes) {
        Ok(scenario) => Ok(Ok(scenario)),
        Err(rejected) => match &rejected.error {
            ScenarioError::Memory(_) => Err(Fault::Memory),
            _ => Ok(Err(rejected)),
        },
    }
}

/// Does what is asked for on a scenario that was read.
fn on_scenario<T: Threads + Wait + Sync, W: Sink, E: Sink, P: Progress>(
    threads: &mut TrackedThreads<'_, T>,
    alloc: Global,
    asked: &ScenarioRequest,
    scenario: &Scenario,
    out: &mut W,
    err: &mut E,
    progress: &mut P,
) -> Result<Ending, Fault>
    requires reads { (text : List ℕ) × ReadsText text scenario.now }
    ensures left { LeavesOf asked.now (W.contents out.old) (W.contents out.new) scenario.now result }
    ensures said { IfOk result (λ ending. SaysAt ending (E.contents err.old) (E.contents err.new)) }
    ensures unsaid { IfErr result (λ fault. E.contents err.new ≡ E.contents err.old) }
    ensures cause { IfErr result (HasWriteCause (W.has_failed out.new)) }
    ensures thread { IfErr result (HasThreadCause (has_failed threads.new.starts)) }
{
    let rt = threads.runtime;
    match asked {
        ScenarioRequest::Run(options) => run(threads, alloc, *options, scenario, out),
        ScenarioRequest::Lines(options) => lines(threads, alloc, *options, scenario, out),
        ScenarioRequest::ClaimedRun(options) => {
            claimed_run(threads, alloc, options, scenario, out, err)
        }
        ScenarioRequest::TracedRun(place) => {
            give(alloc, traced_run(rt, alloc, *place, scenario), out, err)
        }
        ScenarioRequest::NodeProgram(options) => {
            give(alloc, node_program(rt, alloc, *options, scenario), out, err)
        }
        ScenarioRequest::Sweep(options) => sweep(rt, alloc, *options, scenario, out, err),
        ScenarioRequest::ClaimedSweep(options) => {
            claimed_sweep(rt, alloc, options, scenario, out, err)
        }
        ScenarioRequest::ClaimedExplore(options) => {
            claimed_explore(rt, alloc, options, scenario, out, err, progress)
        }
        ScenarioRequest::Explore(options) => {
            give(
                alloc,
                explore(rt, alloc, options, scenario, progress),
                out,
                err,
            )
        }
    }
}
