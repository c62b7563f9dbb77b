//! `sweep --claims`: a row for each key of a scenario, with a cell for each property.
ghost use Rattle.std.specs.Prelude.{◌≡◌, IfErr, IfOk, List, ℕ};
ghost use Rattle.command_answers.specs.Faults.{HasWriteCause};
ghost use Rattle.command_answers.specs.Said.{SaysAt};
ghost use Rattle.run_commands.specs.ClaimedSweep.{LeavesClaimedSweep, LeavesClaimedSwept};
ghost use Rattle.scenario_text.specs.Texts.{ReadsText};

use crate::claims_file::{properties_in, refused_claims};
use crate::sweep::{no_key, workers_for};
use claim_tokens::ReadClaimsError;
use claimed_sweeps::ClaimedSweep;
use command_answers::{Ending, Fault, give};
use key_sweep::SweepFault;
use properties::Property;
use requests::{ClaimedSweepOptions, SweepOptions};
use scenario_text::Scenario;
use std::alloc::Global;
use std::sync::Wait;
use std::thread::Threads;
use stream_io::{PartFault, Sink};

/// Writes a row for each of the keys of a scenario that was read, with a cell for each property, or the line that refuses
/// their text or the scenario, with a note.
pub fn claimed_sweep<T: Threads + Wait + Sync, W: Sink, E: Sink>(
    rt: &T,
    alloc: Global,
    options: &ClaimedSweepOptions,
    scenario: &Scenario,
    out: &mut W,
    err: &mut E,
) -> Result<Ending, Fault>
    requires reads { (text : List ℕ) × ReadsText text scenario.now }
    ensures left { LeavesClaimedSweep options.now (W.contents out.old) (W.contents out.new) scenario.now result }
    ensures said { IfOk result (λ ending. SaysAt ending (E.contents err.old) (E.contents err.new)) }
    ensures unsaid { IfErr result (λ fault. E.contents err.new ≡ E.contents err.old) }
    ensures cause { IfErr result (HasWriteCause (W.has_failed out.new)) }
{
    match properties_in(alloc, scenario, options.claims.as_bytes()) {
        Ok(properties) => rows(
            rt,
            alloc,
            options.sweep,
            scenario,
            properties.as_slice(),
            out,
            err,
        ),
        Err(ReadClaimsError::Memory) => Err(Fault::Memory),
        Err(ReadClaimsError::Refused(refusal)) => {
            give(alloc, refused_claims(alloc, scenario, refusal), out, err)
        }
    }
}

/// Writes the rows, or the line that refuses the scenario.
fn rows<T: Threads + Wait + Sync, W: Sink, E: Sink>(
    rt: &T,
    alloc: Global,
    options: SweepOptions,
    scenario: &Scenario,
    properties: &[Property],
    out: &mut W,
    err: &mut E,
) -> Result<Ending, Fault>
    requires reads { (text : List ℕ) × ReadsText text scenario.now }
    ensures left { LeavesClaimedSwept (W.contents out.old) (W.contents out.new) scenario.now properties.now options.keys
        result }
    ensures said { IfOk result (λ ending. SaysAt ending (E.contents err.old) (E.contents err.new)) }
    ensures unsaid { IfErr result (λ fault. E.contents err.new ≡ E.contents err.old) }
    ensures cause { IfErr result (HasWriteCause (W.has_failed out.new)) }
{
    let asked = ClaimedSweep {
        scenario,
        properties,
        keys: options.keys,
        workers: workers_for(rt, options.workers),
    };
    match claimed_sweeps::claimed_sweep(rt, alloc, &asked, out) {
        Ok(()) => Ok(Ending::Done),
        Err(SweepFault::NoKey) => give(alloc, no_key(alloc), out, err),
        Err(SweepFault::Part(PartFault::Write { written })) => Err(Fault::Write {
            after: written as usize,
        }),
        Err(SweepFault::Part(PartFault::Memory)) => Err(Fault::Memory),
    }
}
