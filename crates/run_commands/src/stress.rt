//! `stress`: many hands at one bench, and whether its history is what they did.
ghost use Rattle.std.specs.Prelude.{◌≡◌, IfErr, IfOk, length, string_bytes};
ghost use Rattle.bench_workers.specs.ThreadStarts.{has_failed};
ghost use Rattle.command_answers.specs.Faults.{HasThreadCause, IsFaultOfThreads};
ghost use Rattle.run_commands.specs.Stress.{IsStressed, Replayed, stressed_ending, stressed_text};
ghost use Rattle.command_answers.specs.inner.Responses.{IsNoted, IsResponse};

use bench_shared::Finished;
use bench_stress::{Stop, stress_bench_with};
use bench_workers::TrackedThreads;
use command_answers::{Ending, Fault, Response};
use requests::StressOptions;
use std::alloc::{AllocError, Global};
use std::fmt;
use std::sync::Wait;
use std::thread::Threads;

/// Lets loaders and an engine work on one bench at once, and returns how many entries they made, if its history is what
/// their receipts say (docs/THREADS.md). Clamps the numbers of loaders and workers to their ranges.
pub fn stress<R: Threads + Wait + Sync>(
    threads: &mut TrackedThreads<'_, R>,
    alloc: Global,
    options: StressOptions,
) -> Result<Response, Fault>
    ensures response { IfOk result (IsResponse (IsStressed options) stressed_text stressed_ending) }
    ensures noted { IfOk result IsNoted }
    ensures fault { IfErr result IsFaultOfThreads }
    ensures thread { IfErr result (HasThreadCause (has_failed threads.new.starts)) }
{
    match stress_bench_with(threads, alloc, options) {
        Ok(finished) => match finished_text(alloc, &finished) {
            Ok(line) => Ok(Response::done(line.into_bytes())),
            Err(_) => Err(Fault::Memory),
        },
        Err(Stop::Memory) => Err(Fault::Memory),
        Err(Stop::Thread) => Err(Fault::Thread),
        Err(Stop::Mismatch) => match Vec::from_slice(alloc, b"replay mismatch\n") {
            Ok(line) => Ok(Response::without_note(line, Ending::Mismatched)),
            Err(_) => Err(Fault::Memory),
        },
    }
}

fn finished_text(alloc: Global, finished: &Finished) -> Result<String, AllocError>
    ensures { IfOk result (λ text. string_bytes text ≡ stressed_text (Replayed finished.now)) }
{
    format!(in alloc; "{}\n", FinishedLine(finished))
}

/// The line of a bench that has ended, without its end.
#[derive(Drop)]
struct FinishedLine<'a>(&'a Finished);

impl fmt::Display for FinishedLine<'_> {
    ghost use Rattle.std.specs.Prelude.{Some};
    ghost use Rattle.run_commands.specs.Stress.{finished_line};

    ghost output = { λ line. Some (finished_line line.0.now) };

    fn fmt<W: fmt::Write>(&self, f: &mut fmt::Formatter<W>) -> fmt::Result {
        let (loads, closes, entries) = (self.0.loads(), self.0.closes(), entries_of(self.0));
        write!(
            f,
            "loads {loads} pulses {closes} history {entries} replay ok"
        )
    }
}

/// Returns how many entries the history has.
fn entries_of(finished: &Finished) -> usize
    ensures { result ≡ length finished.now }
{
    finished.history().len()
}
