//! From which pulse on a run is in step.
ghost use Rattle.std.specs.Prelude.{ℕ, ◌↔◌, IsTrue};
ghost use Rattle.bench_scenario.specs.InStep.{EachWentOn, HaveOne, IsInStepSince};
ghost use Rattle.bench_scenario.specs.inner.InStep.{BeginsInStep, StaysSince};

use crate::verdicts::{are_one, counting, first_clock};
use bench_core::PulseRecord;

/// Returns true if some node ran the clock, and all that did have one clock below the modulus.
fn have_one(modulus: u32, one: &PulseRecord) -> bool
    ensures { IsTrue result ↔ ((c : ℕ) × HaveOne modulus one.now c) }
{
    let clocks = one.clocks.as_slice();
    first_clock(clocks).is_some() && are_one(modulus, clocks)
}

/// Returns true if each node that ran the clock in both pulses went on by one.
fn went_on(modulus: u32, before: &PulseRecord, after: &PulseRecord) -> bool
    requires { (c : ℕ) × HaveOne modulus before.now c }
    ensures { IsTrue result ↔ EachWentOn modulus before.now after.now }
{
    counting(modulus, before.clocks.as_slice(), after.clocks.as_slice()).unwrap_or(true)
}

/// Returns true if all have one clock in the first of these records, and went on from it to the second, if there is
/// one.
fn begins_in_step(modulus: u32, records: &[PulseRecord]) -> bool
    ensures { IsTrue result ↔ BeginsInStep modulus records.now }
{
    let Some((first, rest)) = records.split_first() else {
        return false;
    };
    if !have_one(modulus, first) {
        return false;
    }
    match rest.first() {
        Some(next) => went_on(modulus, first, next),
        None => true,
    }
}

/// Returns the first pulse, counted from 1, from which to the last the records stay in step, one alone too.
fn stays_since(modulus: u32, records: &[PulseRecord]) -> Option<usize>
    ensures { StaysSince modulus records.now result }
{
    let mut since = None;
    for place in (0..records.len()).rev() {
        if !begins_in_step(modulus, &records[place..]) {
            break;
        }
        since = Some(place + 1);
    }
    since
}

/// Returns the first pulse, counted from 1, from which to the last the records are in step.
pub fn in_step_since(modulus: u32, records: &[PulseRecord]) -> Option<usize>
    ensures { IsInStepSince modulus records.now result }
{
    let pulse = stays_since(modulus, records)?;
    if pulse < records.len() {
        Some(pulse)
    } else {
        None
    }
}
