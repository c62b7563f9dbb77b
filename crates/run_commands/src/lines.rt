//! `run --json`: the lines of a scenario's run.
ghost use Rattle.std.specs.Prelude.{ℕ, IfErr, List};
ghost use Rattle.scenario_text.specs.Texts.{ReadsText};
ghost use Rattle.bench_workers.specs.ThreadStarts.{has_failed};
ghost use Rattle.command_answers.specs.Faults.{HasThreadCause, HasWriteCause};
ghost use Rattle.run_commands.specs.Lines.{LeavesLined};
ghost use Rattle.run_commands.specs.inner.Lines.{IsPast};

use crate::run::{ending_of, fault_of};
use bench_workers::{MAX_WORKERS, TrackedThreads};
use command_answers::{Ending, Fault};
use requests::{LinesOptions, PulseSpan};
use run_lines::{LinesFault, tell_lines};
use scenario_text::Scenario;
use std::alloc::Global;
use std::sync::Wait;
use std::thread::Threads;
use stream_io::{PartFault, Sink};

/// Writes the lines of the run of a scenario that was read. If that is to be checked, the ending tells of a pulse that
/// doesn't agree.
pub fn lines<T: Threads + Wait + Sync, W: Sink>(
    threads: &mut TrackedThreads<'_, T>,
    alloc: Global,
    options: LinesOptions,
    scenario: &Scenario,
    out: &mut W,
) -> Result<Ending, Fault>
    requires reads { (text : List ℕ) × ReadsText text scenario.now }
    ensures left { LeavesLined options.run.check (W.contents out.old) (W.contents out.new) scenario.now options.form
        result }
    ensures cause { IfErr result (HasWriteCause (W.has_failed out.new)) }
    ensures thread { IfErr result (HasThreadCause (has_failed threads.new.starts)) }
{
    let LinesOptions { run, form } = options;
    if scenario.pulses < form.span.first() {
        return Err(past_pulses(alloc, form.span, scenario.pulses));
    }
    let workers = run.workers.clamp(1, MAX_WORKERS);
    match tell_lines(threads, alloc, scenario, workers, form, out) {
        Ok(agrees) => Ok(ending_of(run.check, agrees)),
        Err(LinesFault::Run(fault)) => Err(fault_of(fault.fault)),
        Err(LinesFault::Part(PartFault::Write { written })) => Err(Fault::Write {
            after: written as usize,
        }),
        Err(LinesFault::Part(PartFault::Memory)) => Err(Fault::Memory),
    }
}

/// Returns the fault of a span that begins past the last pulse.
fn past_pulses(alloc: Global, span: PulseSpan, pulses: u32) -> Fault
    ensures { IsPast span pulses result }
{
    let first = span.first();
    match format!(in alloc; "error: --from {first} is past the last pulse, {pulses}\n") {
        Ok(text) => Fault::CommandLine { text },
        Err(_) => Fault::Memory,
    }
}
