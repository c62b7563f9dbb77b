//! A run told to a writer, from its first line to its last.
ghost use Rattle.std.specs.Prelude.{◌≡◌, ◌≤◌, ℕ, List, IfErr, IfOk, false};
ghost use Rattle.bench_workers.specs.ThreadStarts.{has_failed};
ghost use Rattle.scenario_text.specs.Texts.{ReadsText};
ghost use Rattle.run_lines.specs.Lines.{first_line};
ghost use Rattle.run_lines.specs.Telling.{HasLinesCause, LeavesLines, LinesHaveThreads};
ghost use Rattle.stream_io.specs.Parts.{Adds, HasPartCause, IsPartFault};

use crate::fault::LinesFault;
use crate::formats;
use crate::writer::LineWriter;
use bench_scenario::run_watched;
use bench_workers::{MAX_WORKERS, TrackedThreads};
use parameters::{LineFormat, LinesForm};
use scenario_text::Scenario;
use std::alloc::Global;
use std::sync::Wait;
use std::thread::Threads;
use stream_io::{PartFault, Sink, write_part};

/// Writes the first line, and answers how many bytes it has.
fn write_first<W: Sink>(
    alloc: Global,
    scenario: &Scenario,
    format: LineFormat,
    out: &mut W,
) -> Result<u64, PartFault>
    ensures told { IfOk result (Adds (W.contents out.old) (W.contents out.new) 0 (first_line format scenario.now)) }
    ensures fault { IfErr result (IsPartFault (W.contents out.old) (W.contents out.new) 0
        (first_line format scenario.now)) }
    ensures cause { IfErr result (HasPartCause (W.has_failed out.new)) }
{
    let line = formats::first_line(alloc, format, scenario)?;
    write_part(out, 0, line.as_bytes())
}

/// Runs a scenario that was read, and writes its lines: the first, those of the pulses within the span, each as its
/// pulse is closed, and the last. The answer is whether no pulse's verdict on agreement is no. One line is held at a
/// time. `threads` tells whether a start of a thread failed.
pub fn tell_lines<T: Threads + Wait + Sync, W: Sink>(
    threads: &mut TrackedThreads<'_, T>,
    alloc: Global,
    scenario: &Scenario,
    workers: u32,
    form: LinesForm,
    out: &mut W,
) -> Result<bool, LinesFault>
    requires some { 1 ≤ workers }
    requires few { workers ≤ MAX_WORKERS }
    requires reads { (text : List ℕ) × ReadsText text scenario.now }
    ensures left { LeavesLines (W.contents out.old) (W.contents out.new) scenario.now form result }
    ensures cause { IfErr result (HasLinesCause (W.has_failed out.new)) }
    ensures thread { has_failed threads.new.starts ≡ false → IfErr result LinesHaveThreads }
{
    let written = write_first(alloc, scenario, form.format, out)?;
    let mut writer = LineWriter::new(alloc, scenario, form, written);
    let run = match run_watched(threads, alloc, scenario, workers, &mut writer, out) {
        Ok(run) => run,
        Err(end) => return Err(writer.fault(end)),
    };
    let agrees = writer.write_last(run.records.as_slice(), out)?;
    Ok(agrees)
}
