//! The scenario that a reader's bytes say.
ghost use Rattle.std.specs.Prelude.{◌≡◌, ◌+◌, ◌≤◌, ℕ, Bool, List, IfErr, IfOk, IfSome, MatchResult, take};
ghost use Rattle.scenario_text.specs.Texts.{IsDueUnlessMemory, ReadsText};
ghost use Rattle.stream_io.specs.Streams.{TakesAtMost};
ghost use Rattle.bench_scenario.specs.Runs.{HasTextCause, IsDueOfText};

use crate::run::{MAX_BYTES, MAX_CALLS};
use scenario_text::laws::front_reads_as_whole;
use scenario_text::{Scenario, ScenarioError, scenario_in};
use std::alloc::Global;
use stream_io::{ReadFault, Source, read_at_most};

/// Why a reader gave no scenario.
#[derive(Debug, Drop)]
pub enum TextFault {
    /// A call of `read` failed.
    Read,
    /// The text is no scenario.
    Refused(ScenarioError),
    Memory,
}

/// Reads a scenario: at most [`MAX_BYTES`] bytes, by at most [`MAX_CALLS`] calls of `read`.
pub fn read_scenario<R: Source>(alloc: Global, reader: &mut R) -> Result<Scenario, TextFault>
    ensures taken { TakesAtMost MAX_BYTES (R.remaining reader.old) (R.remaining reader.new) }
    ensures scenario { IfSome (R.remaining reader.old)
        (λ text. MatchResult result (ReadsText text) (IsDueOfText text)) }
    ensures reads { IfOk result (λ s. (text : List ℕ) × ReadsText text s) }
    ensures cost { R.calls reader.new ≤ R.calls reader.old + MAX_CALLS }
    ensures cause { IfErr result (HasTextCause (R.has_failed reader.new)) }
{
    match read_at_most(alloc, reader, MAX_BYTES, MAX_CALLS) {
        Ok(bytes) => scenario_at_front(alloc, bytes.as_slice()),
        Err(ReadFault::Stream) => Err(TextFault::Read),
        Err(ReadFault::Memory) => Err(TextFault::Memory),
    }
}

/// Returns the scenario of a text that begins with these bytes, or why it is none.
fn scenario_at_front(alloc: Global, bytes: &[u8]) -> Result<Scenario, TextFault>
    ensures scenario { (text : List ℕ) → bytes.now ≡ take MAX_BYTES text
        → MatchResult result (ReadsText text) (IsDueOfText text) }
    ensures reads { IfOk result (λ s. (text : List ℕ) × ReadsText text s) }
    ensures cause { (failed : Bool) → IfErr result (HasTextCause failed) }
{
    front_reads_as_whole(); // brings that these bytes serve as the whole text
    match scenario_in(alloc, bytes) {
        Ok(scenario) => Ok(scenario),
        Err(error) => Err(fault_of(error)),
    }
}

/// Returns what a refusal is to a reader: lack of memory is none.
fn fault_of(error: ScenarioError) -> TextFault
    ensures due { (text : List ℕ) → IsDueUnlessMemory text error → IsDueOfText text result }
    ensures cause { (failed : Bool) → HasTextCause failed result }
{
    match error {
        ScenarioError::Memory(_) => TextFault::Memory,
        error => TextFault::Refused(error),
    }
}
