//! A sweep whose rows are about properties.
ghost use Rattle.std.specs.Prelude.{◌≤◌, ℕ, IfErr, List};
ghost use Rattle.key_sweep.specs.Sweeps.{HasSweepCause};
ghost use Rattle.scenario_text.specs.Texts.{ReadsText};
ghost use Rattle.claimed_sweeps.specs.Sweeps.{LeavesClaimedRows};

use crate::rows::ClaimedRows;
use key_sweep::{KeySpan, SweepFault, sweep_rows};
use properties::Property;
use scenario_text::Scenario;
use std::alloc::Global;
use std::sync::Wait;
use std::thread::Threads;
use stream_io::Sink;

/// A scenario that was read, the properties that its runs are judged by, its keys, and on how many workers at most they are
/// run.
#[derive(Clone, Copy)]
pub struct ClaimedSweep<'a> {
    pub scenario: &'a Scenario,
    pub properties: &'a [Property],
    pub keys: KeySpan,
    pub workers: u32,
}

/// Runs a scenario, of which something is drawn by a key, with each of the keys in place of its own, and writes a row for
/// each, in their order, after one of names. A row has a cell for each property: in how many pulses it is violated, or from
/// which pulse on it holds. Each worker runs whole scenarios; if no thread can be started, the caller's runs them.
pub fn claimed_sweep<T: Threads + Wait + Sync, W: Sink>(
    rt: &T,
    alloc: Global,
    asked: &ClaimedSweep<'_>,
    writer: &mut W,
) -> Result<(), SweepFault>
    requires reads { (text : List ℕ) × ReadsText text asked.now.scenario.now }
    requires workers { 1 ≤ asked.now.workers }
    ensures left { LeavesClaimedRows (W.contents writer.old) (W.contents writer.new) asked.now.scenario.now
        asked.now.properties.now asked.now.keys result }
    ensures cause { IfErr result (HasSweepCause (W.has_failed writer.new)) }
{
    let scenario = asked.scenario;
    let maker = ClaimedRows {
        scenario,
        properties: asked.properties,
    };
    sweep_rows(
        rt,
        alloc,
        scenario,
        &maker,
        asked.keys,
        asked.workers,
        writer,
    )
}
