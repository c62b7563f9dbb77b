//! `sweep`: a line for each key of a scenario.
ghost use Rattle.std.specs.Prelude.{◌≡◌, ◌≤◌, IfErr, IfOk, List, ℕ};
ghost use Rattle.key_sweep.specs.declared.writing.TheConstants.{MAX_SWEEPERS};
ghost use Rattle.scenario_text.specs.Texts.{ReadsText};
ghost use Rattle.command_answers.specs.declared.ending.Ending.TheVariants.{Refused};
ghost use Rattle.command_answers.specs.Faults.{HasWriteCause, IsOutOfMemory};
ghost use Rattle.command_answers.specs.Said.{SaysAt};
ghost use Rattle.run_commands.specs.Sweep.{LeavesSwept, no_key_line};
ghost use Rattle.command_answers.specs.inner.Responses.{IsNoted};

use command_answers::{Advice, Ending, Fault, Response, advised, give};
use key_sweep::{MAX_SWEEPERS, SweepFault};
use requests::SweepOptions;
use scenario_text::Scenario;
use std::alloc::Global;
use std::sync::Wait;
use std::thread::{Threads, available_parallelism};
use stream_io::{PartFault, Sink};

/// Writes a line for each of the keys of a scenario that was read, or the line that refuses it, with the note on it.
pub fn sweep<T: Threads + Wait + Sync, W: Sink, E: Sink>(
    rt: &T,
    alloc: Global,
    options: SweepOptions,
    scenario: &Scenario,
    out: &mut W,
    err: &mut E,
) -> Result<Ending, Fault>
    requires reads { (text : List ℕ) × ReadsText text scenario.now }
    ensures left { LeavesSwept (W.contents out.old) (W.contents out.new) scenario.now options.keys result }
    ensures said { IfOk result (λ ending. SaysAt ending (E.contents err.old) (E.contents err.new)) }
    ensures unsaid { IfErr result (λ fault. E.contents err.new ≡ E.contents err.old) }
    ensures cause { IfErr result (HasWriteCause (W.has_failed out.new)) }
{
    let workers = workers_for(rt, options.workers);
    match key_sweep::sweep(rt, alloc, scenario, options.keys, workers, out) {
        Ok(()) => Ok(Ending::Done),
        Err(SweepFault::NoKey) => give(alloc, no_key(alloc), out, err),
        Err(SweepFault::Part(PartFault::Write { written })) => Err(Fault::Write {
            after: written as usize,
        }),
        Err(SweepFault::Part(PartFault::Memory)) => Err(Fault::Memory),
    }
}

/// Returns as many workers as are asked for, or one for each processor, clamped to `1..=MAX_SWEEPERS`.
pub(crate) fn workers_for<T: Threads>(rt: &T, asked: Option<u32>) -> u32
    ensures some { 1 ≤ result }
    ensures few { result ≤ MAX_SWEEPERS }
{
    match asked {
        Some(workers) => workers.clamp(1, MAX_SWEEPERS),
        None => match available_parallelism(rt) {
            Ok(processors) => processors.get().clamp(1, MAX_SWEEPERS as usize) as u32,
            Err(_) => 1,
        },
    }
}

/// Returns the refusal of a scenario of which nothing is drawn by a key.
pub(crate) fn no_key(alloc: Global) -> Result<Response, Fault>
    ensures text { IfOk result (λ response. response.text.items ≡ no_key_line) }
    ensures ending { IfOk result (λ response. response.ending ≡ Refused) }
    ensures noted { IfOk result IsNoted }
    ensures fault { IfErr result IsOutOfMemory }
{
    match Vec::from_slice(alloc, b"refused sweep NoKey\n") {
        Ok(text) => Ok(Response {
            text,
            ending: Ending::Refused,
            note: advised(alloc, Advice::Seed),
        }),
        Err(_) => Err(Fault::Memory),
    }
}
