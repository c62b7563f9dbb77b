//! The watcher of a run that writes its lines.
ghost use Rattle.std.specs.Prelude.{◌≡◌, [], IfErr, OnOk, is_some};
ghost use Rattle.bench_workers.specs.Watching.{seen_of};
ghost use Rattle.scenario_text.specs.Views.{frame_of};
ghost use Rattle.bench_scenario.specs.Verdicts.{judged_of};
ghost use Rattle.stream_io.specs.Parts.{HasPartCause, IsPartFault};
ghost use Rattle.run_lines.specs.inner.Writing.{IsEndOfLines, IsReason, TellsPulse};
ghost use Rattle.run_lines.specs.Lines.{line_within};

use crate::fault::LinesFault;
use crate::formats;
use bench_core::PulseRecord;
use bench_scenario::{Judged, WatchedFault, judgement, none_disagrees, summary_of};
use bench_workers::{Shown, Stop, Watcher};
use parameters::LinesForm;
use scenario_text::Scenario;
use std::alloc::Global;
use stream_io::{PartFault, Sink, write_part};

/// Returns the number of a pulse.
fn pulse_of(shown: &Shown) -> u32
    ensures { result ≡ (seen_of shown.now).told.row.pulse }
{
    let told = shown.told;
    told.row.pulse
}

/// Judges each pulse, writes the lines of those within the span, and keeps why it stopped.
#[derive(Drop)]
pub(crate) struct LineWriter<'a> {
    alloc: Global,
    scenario: &'a Scenario,
    form: LinesForm,
    /// What is judged of the pulses that it was shown.
    judged: Vec<Judged>,
    /// How many bytes were written, those before its first line included.
    written: u64,
    stopped: Option<PartFault>,
}

impl<'a> LineWriter<'a> {
    /// Returns a writer that begins after this many bytes.
    pub(crate) fn new(
        alloc: Global,
        scenario: &'a Scenario,
        form: LinesForm,
        written: u64,
    ) -> LineWriter<'a>
        ensures scenario { result.scenario.now ≡ scenario.now }
        ensures form { result.form ≡ form }
        ensures judged { result.judged.items ≡ [] }
        ensures written { result.written ≡ written }
    {
        LineWriter {
            alloc,
            scenario,
            form,
            judged: Vec::new(alloc),
            written,
            stopped: None,
        }
    }

    /// Returns why the run that it watched has no end.
    pub(crate) fn fault(&self, end: WatchedFault) -> LinesFault
        ensures { IsReason self.now.stopped end result }
    {
        match (end, self.stopped) {
            (WatchedFault::Run(stop), _) => LinesFault::Run(stop),
            (WatchedFault::Stopped(_event), Some(fault)) => LinesFault::Part(fault),
            (WatchedFault::Stopped(_), None) | (WatchedFault::Memory, _) => {
                LinesFault::Part(PartFault::Memory)
            }
        }
    }

    /// Judges a pulse, and writes its line if it is within the span.
    fn tell<W: Sink>(&mut self, out: &mut W, shown: &Shown) -> Result<(), PartFault>
        ensures told { OnOk result (TellsPulse W.contents self.old out.old (seen_of shown.now) self.new out.new) }
        ensures fault { IfErr result (IsPartFault (W.contents out.old) (W.contents out.new) self.old.written
            (line_within self.old.scenario.now self.old.form (seen_of shown.now))) }
        ensures cause { IfErr result (HasPartCause (W.has_failed out.new)) }
    {
        let judged = judgement(self.alloc, self.scenario, shown.earlier, shown.told)?;
        if self.judged.push(judged).is_err() {
            return Err(PartFault::Memory);
        }
        if !self.form.span.contains(pulse_of(shown)) {
            return Ok(());
        }
        let format = self.form.format;
        let line = formats::pulse_line(self.alloc, format, self.scenario, shown, judged)?;
        self.written = write_part(out, self.written, line.as_bytes())?;
        Ok(())
    }

    /// Writes the last line, and answers whether no pulse's verdict on agreement is no.
    pub(crate) fn write_last<W: Sink>(
        &self,
        records: &[PulseRecord],
        out: &mut W,
    ) -> Result<bool, PartFault>
        requires { self.now.judged.items
            ≡ judged_of (frame_of self.now.scenario.now) (is_some self.now.scenario.now.clock) records.now }
        ensures end { IsEndOfLines (W.contents out.old) (W.contents out.new) self.now.scenario.now
            self.now.form.format self.now.written records.now result }
        ensures cause { IfErr result (HasPartCause (W.has_failed out.new)) }
    {
        let judged = self.judged.as_slice();
        let agrees = none_disagrees(judged);
        let summary = summary_of(self.scenario.modulus, records, judged);
        let line = formats::last_line(self.alloc, self.form.format, &summary)?;
        write_part(out, self.written, line.as_bytes())?;
        Ok(agrees)
    }
}

impl<'a, W: Sink> Watcher<W> for LineWriter<'a> {
    ghost use Rattle.run_lines.specs.inner.Writing.{KeepsReason, TellsPulse};

    ghost tells = { TellsPulse W.contents };

    ghost stops = { KeepsReason W.contents W.has_failed };

    fn see(&mut self, sink: &mut W, shown: &Shown) -> Result<(), Stop> {
        match self.tell(sink, shown) {
            Ok(()) => Ok(()),
            Err(fault) => {
                self.stopped = Some(fault);
                Err(Stop)
            }
        }
    }
}
