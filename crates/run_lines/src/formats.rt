//! The formats in which a run is told, line by line.
ghost use Rattle.std.specs.Prelude.{◌≡◌, IfOk, is_some, string_bytes};
ghost use Rattle.bench_workers.specs.Watching.{seen_of};
ghost use Rattle.scenario_text.specs.Views.{frame_of};
ghost use Rattle.run_lines.specs.Data.{judged_seen};
ghost use Rattle.run_lines.specs.Lines.{first_line, summary_line, told_line};

use crate::{frame_lines, pulse_lines};
use bench_scenario::{Judged, RunSummary};
use bench_workers::Shown;
use parameters::LineFormat;
use scenario_text::Scenario;
use std::alloc::{AllocError, Global};

/// Returns the first line of a run.
pub(crate) fn first_line(
    alloc: Global,
    format: LineFormat,
    scenario: &Scenario,
) -> Result<String, AllocError>
    ensures { IfOk result (λ line. string_bytes line ≡ first_line format scenario.now) }
{
    match format {
        LineFormat::Json => frame_lines::frame_line(alloc, scenario),
    }
}

/// Returns the line of a pulse, of which this is judged.
pub(crate) fn pulse_line(
    alloc: Global,
    format: LineFormat,
    scenario: &Scenario,
    shown: &Shown,
    judged: Judged,
) -> Result<String, AllocError>
    requires { judged ≡ judged_seen (frame_of scenario.now) (is_some scenario.now.clock) (seen_of shown.now) }
    ensures { IfOk result (λ line. string_bytes line ≡ told_line format scenario.now (seen_of shown.now)) }
{
    match format {
        LineFormat::Json => pulse_lines::pulse_line(alloc, scenario, shown, judged),
    }
}

/// Returns the last line of a run.
pub(crate) fn last_line(
    alloc: Global,
    format: LineFormat,
    summary: &RunSummary,
) -> Result<String, AllocError>
    ensures { IfOk result (λ line. string_bytes line ≡ summary_line format summary.now) }
{
    match format {
        LineFormat::Json => frame_lines::last_line(alloc, summary),
    }
}
