//! `run`: the report of a scenario's run.
ghost use Rattle.std.specs.Prelude.{◌≡◌, IfErr, List, ℕ};
ghost use Rattle.bench_scenario.specs.Runs.{IsMemoryOrThread};
ghost use Rattle.scenario_text.specs.Texts.{ReadsText};
ghost use Rattle.bench_workers.specs.ThreadStarts.{has_failed};
ghost use Rattle.command_answers.specs.Faults.{HasThreadCause, HasWriteCause};
ghost use Rattle.command_answers.specs.inner.Faults.{IsRunFault};
ghost use Rattle.run_commands.specs.Run.{LeavesReported, report_ending};

use bench_scenario::{ReportFault, write_report};
use bench_workers::{MAX_WORKERS, RunRefusal, TrackedThreads};
use command_answers::{Ending, Fault};
use requests::RunOptions;
use scenario_text::Scenario;
use std::alloc::Global;
use std::sync::Wait;
use std::thread::Threads;
use stream_io::Sink;

/// Writes the report of the run of a scenario that was read. If that is to be checked, the ending tells of a pulse that
/// doesn't agree. Clamps the number of workers to `1..=MAX_WORKERS`.
pub fn run<T: Threads + Wait + Sync, W: Sink>(
    threads: &mut TrackedThreads<'_, T>,
    alloc: Global,
    options: RunOptions,
    scenario: &Scenario,
    out: &mut W,
) -> Result<Ending, Fault>
    requires reads { (text : List ℕ) × ReadsText text scenario.now }
    ensures left { LeavesReported options.check (W.contents out.old) (W.contents out.new) scenario.now result }
    ensures cause { IfErr result (HasWriteCause (W.has_failed out.new)) }
    ensures thread { IfErr result (HasThreadCause (has_failed threads.new.starts)) }
{
    let workers = options.workers.clamp(1, MAX_WORKERS);
    match write_report(threads, alloc, scenario, workers, out) {
        Ok(agrees) => Ok(ending_of(options.check, agrees)),
        Err(ReportFault::Run(fault)) => Err(fault_of(fault.fault)),
        Err(ReportFault::Write { written }) => Err(Fault::Write {
            after: written as usize,
        }),
        Err(ReportFault::Memory) => Err(Fault::Memory),
    }
}

/// Returns how a run ends whose report is written.
pub(crate) fn ending_of(check: bool, agrees: bool) -> Ending
    ensures { result ≡ report_ending check agrees }
{
    if check && !agrees {
        Ending::Violated
    } else {
        Ending::Done
    }
}

/// Returns the fault of a run of a scenario, which stops for lack of memory or of a thread alone.
pub(crate) fn fault_of(refusal: RunRefusal) -> Fault
    requires { IsMemoryOrThread refusal }
    ensures { IsRunFault refusal result }
{
    match refusal {
        RunRefusal::Memory => Fault::Memory,
        RunRefusal::NoThread => Fault::Thread,
        RunRefusal::BadNode
        | RunRefusal::OtherShape
        | RunRefusal::BadImage
        | RunRefusal::HistoryFull
        | RunRefusal::BadCoins
        | RunRefusal::GateShut => unreachable!(),
    }
}
