//! A sweep, from the scenario that was read to the last byte that is written.
ghost use Rattle.std.specs.Prelude.{◌≡◌, ℕ, List, ◌≤◌, IfErr};
ghost use Rattle.scenario_text.specs.Texts.{ReadsText};
ghost use Rattle.key_sweep.specs.Sweeps.{HasSweepCause, LeavesSweep, LeavesSweepOf, are_drawn, uses_key};

use crate::maker::RowMaker;
use crate::runs::RunRows;
use crate::writing::write_rows;
use parameters::KeySpan;
use scenario_text::{Coins, Scenario};
use std::alloc::Global;
use std::sync::Wait;
use std::thread::Threads;
use stream_io::{PartFault, Sink};
use thiserror::Error;

/// Why a sweep left not all its rows.
#[derive(Debug, Drop, Error)]
pub enum SweepFault {
    /// Nothing of the scenario is drawn by a key.
    #[error("nothing is drawn by a key")]
    NoKey,
    #[error(transparent)]
    Part(PartFault),
}

impl From<PartFault> for SweepFault {
    ghost use Rattle.std.specs.Prelude.{◌≡◌};
    ghost use Rattle.key_sweep.specs.declared.sweeping.SweepFault.TheVariants.{Part};

    ghost from_gives = { λ part e. e ≡ Part part };

    fn from(part: PartFault) -> SweepFault {
        SweepFault::Part(part)
    }
}

/// Returns true if something of the scenario is drawn by its key: coins, or the messages of noise.
fn uses_key(scenario: &Scenario) -> bool
    ensures { result ≡ uses_key scenario.now }
{
    are_drawn(scenario.coins) || scenario.has_noise()
}

fn are_drawn(coins: Coins) -> bool
    ensures { result ≡ are_drawn coins }
{
    match coins {
        Coins::Chacha => true,
        Coins::Zeros | Coins::Ones => false,
    }
}

/// Writes a row of names, and then a row for each key, if something of the scenario is drawn by its key. Each of at most
/// this many workers makes whole rows; if no thread can be started, the caller's makes them.
pub fn sweep_rows<T: Threads + Wait + Sync, R: RowMaker + Sync, W: Sink>(
    rt: &T,
    alloc: Global,
    scenario: &Scenario,
    maker: &R,
    keys: KeySpan,
    workers: u32,
    writer: &mut W,
) -> Result<(), SweepFault>
    requires ready { R.ready maker.now }
    requires workers { 1 ≤ workers }
    ensures left { LeavesSweepOf (R.is_row maker.now) (R.first_row maker.now) (W.contents writer.old)
        (W.contents writer.new) scenario.now keys result }
    ensures cause { IfErr result (HasSweepCause (W.has_failed writer.new)) }
{
    if !uses_key(scenario) {
        return Err(SweepFault::NoKey);
    }
    write_rows(rt, alloc, maker, keys, workers, writer)?;
    Ok(())
}

/// Runs a scenario that was read, of which something is drawn by a key, with each of these keys in place of its own,
/// and writes a row for each, in their order, after one of names. Each of at most this many workers runs whole
/// scenarios; if no thread can be started, the caller's runs them.
pub fn sweep<T: Threads + Wait + Sync, W: Sink>(
    rt: &T,
    alloc: Global,
    scenario: &Scenario,
    keys: KeySpan,
    workers: u32,
    writer: &mut W,
) -> Result<(), SweepFault>
    requires reads { (text : List ℕ) × ReadsText text scenario.now }
    requires workers { 1 ≤ workers }
    ensures left { LeavesSweep (W.contents writer.old) (W.contents writer.new) scenario.now keys result }
    ensures cause { IfErr result (HasSweepCause (W.has_failed writer.new)) }
{
    let maker = RunRows { scenario };
    sweep_rows(rt, alloc, scenario, &maker, keys, workers, writer)
}
