//! What a report judges of closed pulses.
ghost use Rattle.std.specs.Prelude.{◌≡◌, [], true, if◌then◌else◌, IfOk, None, is_some, map, option_copied, unwrap_or};
ghost use Rattle.std.specs.List.{list_all};
ghost use Rattle.bench_scenario.specs.Verdicts.{agreement, are_one, counting, counts_on, first_clock, is_clock, joined_verdict};
ghost use Rattle.bench_scenario.specs.Verdicts.{judged_after, judged_by, judged_of, judged_plainly, judgement, none_disagrees};
ghost use Rattle.bench_scenario.specs.Verdicts.{settled_before, settled_in, step_of, told_clocks};
ghost use Rattle.scenario_text.specs.Views.{frame_of};

use bench_core::PulseRecord;
use scenario_text::Scenario;
use std::alloc::{AllocError, Global};

/// The fewest settled nodes of which it is judged whether they agree.
const FEWEST: u32 = 2;

/// What is judged of a pulse: from version 3 on whether its settled clocks agree and whether they counted, nothing of
/// too few nodes; in versions 1 and 2 agreement alone.
#[derive(Clone, Copy, Debug, PartialEq, Eq)]
pub struct Judged {
    pub agree: Option<bool>,
    pub counts: Option<bool>,
}

/// Returns the clock of a node, if it is settled.
fn told_clock(settled: bool, clock: Option<u32>) -> Option<u32>
    ensures { result ≡ (if settled then clock else None) }
{
    if settled { clock } else { None }
}

/// Returns the clock of each node that is settled, node by node.
fn told_clocks(
    alloc: Global,
    settled: &[bool],
    clocks: &[Option<u32>],
) -> Result<Vec<Option<u32>>, AllocError>
    ensures { IfOk result (λ told. told.items ≡ told_clocks settled.now clocks.now) }
{
    let mut told = Vec::new(alloc);
    let count = settled.len().min(clocks.len());
    for node in 0..count {
        told.push(told_clock(settled[node], clocks[node]))?;
    }
    Ok(told)
}

pub(crate) fn first_clock(clocks: &[Option<u32>]) -> Option<u32>
    ensures { result ≡ first_clock clocks.now }
{
    for clock in clocks {
        if let Some(clock) = clock {
            return Some(*clock);
        }
    }
    None
}

fn is_clock(clock: u32, other: Option<u32>) -> bool
    ensures { result ≡ is_clock clock other }
{
    match other {
        Some(other) => other == clock,
        None => true,
    }
}

fn are_all(clock: u32, clocks: &[Option<u32>]) -> bool
    ensures { result ≡ list_all (is_clock clock) clocks.now }
{
    clocks.iter().all(|other| is_clock(clock, *other))
}

/// Returns true if all are equal, and none is past the modulus.
pub(crate) fn are_one(modulus: u32, clocks: &[Option<u32>]) -> bool
    ensures { result ≡ are_one modulus clocks.now (first_clock clocks.now) }
{
    match first_clock(clocks) {
        Some(first) => first < modulus && are_all(first, clocks),
        None => true,
    }
}

/// Returns whether the settled clocks of a pulse agree: nothing if fewer than two nodes are settled. If it is judged
/// strictly, they have to be one value below the modulus; otherwise the pulse's record has the answer.
fn agreement(strict: bool, modulus: u32, one: &PulseRecord, clocks: &[Option<u32>]) -> Option<bool>
    requires { clocks.now ≡ settled_in one.now }
    ensures { result ≡ agreement strict modulus one.now }
{
    if one.row.settled < FEWEST {
        None
    } else if strict {
        Some(are_one(modulus, clocks))
    } else {
        Some(one.agree)
    }
}

/// Returns true if the clock went on by one.
fn counts_on(modulus: u32, before: u32, after: u32) -> bool
    ensures { result ≡ counts_on modulus before after }
{
    before < modulus && after == (before + 1) % modulus
}

fn step_of(modulus: u32, before: Option<u32>, after: Option<u32>) -> Option<bool>
    ensures { result ≡ step_of modulus before after }
{
    match (before, after) {
        (Some(before), Some(after)) => Some(counts_on(modulus, before, after)),
        (Some(_), None) | (None, _) => None,
    }
}

fn joined(one: Option<bool>, other: Option<bool>) -> Option<bool>
    ensures { result ≡ joined_verdict one other }
{
    match (one, other) {
        (None, other) => other,
        (Some(one), None) => Some(one),
        (Some(one), Some(other)) => Some(one && other),
    }
}

/// Returns whether the clocks of nodes that are settled in two pulses counted.
pub(crate) fn counting(modulus: u32, before: &[Option<u32>], after: &[Option<u32>]) -> Option<bool>
    ensures { result ≡ counting modulus before.now after.now }
{
    let mut verdict = None;
    let count = before.len().min(after.len());
    for node in 0..count {
        verdict = joined(verdict, step_of(modulus, before[node], after[node]));
    }
    verdict
}

/// Returns what is judged of a pulse from version 3 on, with the settled clocks of the pulse before and its own.
fn judged_by(
    strict: bool,
    modulus: u32,
    one: &PulseRecord,
    before: &[Option<u32>],
    clocks: &[Option<u32>],
) -> Judged
    requires { clocks.now ≡ settled_in one.now }
    ensures { result ≡ judged_by strict modulus before.now one.now }
{
    Judged {
        agree: agreement(strict, modulus, one, clocks),
        counts: counting(modulus, before, clocks),
    }
}

/// Returns what is judged of a pulse in versions 1 and 2.
fn judged_plainly(one: &PulseRecord) -> Judged
    ensures { result ≡ judged_plainly one.now }
{
    Judged {
        agree: Some(one.agree),
        counts: None,
    }
}

/// Returns the clock of each settled node, node by node.
fn settled_in(alloc: Global, one: &PulseRecord) -> Result<Vec<Option<u32>>, AllocError>
    ensures { IfOk result (λ clocks. clocks.items ≡ settled_in one.now) }
{
    told_clocks(alloc, one.settled.as_slice(), one.clocks.as_slice())
}

/// Returns the same of the pulse before, which the first pulse doesn't have.
fn settled_before(
    alloc: Global,
    earlier: Option<&PulseRecord>,
) -> Result<Vec<Option<u32>>, AllocError>
    ensures { IfOk result (λ clocks. clocks.items ≡ settled_before (option_copied earlier.entry)) }
{
    match earlier {
        Some(earlier) => settled_in(alloc, earlier),
        None => Ok(Vec::new(alloc)),
    }
}

/// Returns what is judged of a pulse of a scenario's run, by its record and that of the pulse before.
pub fn judgement(
    alloc: Global,
    scenario: &Scenario,
    earlier: Option<&PulseRecord>,
    one: &PulseRecord,
) -> Result<Judged, AllocError>
    ensures { IfOk result (λ judged. judged ≡ judgement (frame_of scenario.now) (is_some scenario.now.clock)
        (option_copied earlier.entry) one.now) }
{
    if !scenario.is_judged() {
        return Ok(judged_plainly(one));
    }
    let strict = scenario.is_strict();
    let before = settled_before(alloc, earlier)?;
    let clocks = settled_in(alloc, one)?;
    Ok(judged_by(
        strict,
        scenario.modulus,
        one,
        before.as_slice(),
        clocks.as_slice(),
    ))
}

/// Returns what is judged of each pulse of a run from version 3 on. The settled clocks of a pulse are kept for the next
/// one.
fn judged_in_turn(
    alloc: Global,
    strict: bool,
    modulus: u32,
    records: &[PulseRecord],
) -> Result<Vec<Judged>, AllocError>
    ensures { IfOk result (λ judged. judged.items ≡ judged_after strict modulus [] records.now) }
{
    let mut judged = Vec::with_capacity(alloc, records.len())?;
    let mut before = Vec::new(alloc);
    for one in records {
        let clocks = settled_in(alloc, one)?;
        judged.push(judged_by(strict, modulus, one, before.as_slice(), clocks.as_slice()))?;
        before = clocks;
    }
    Ok(judged)
}

/// Returns what is judged of each pulse of a run in versions 1 and 2.
fn all_judged_plainly(alloc: Global, records: &[PulseRecord]) -> Result<Vec<Judged>, AllocError>
    ensures { IfOk result (λ judged. judged.items ≡ map judged_plainly records.now) }
{
    let mut judged = Vec::with_capacity(alloc, records.len())?;
    for one in records {
        judged.push(judged_plainly(one))?;
    }
    Ok(judged)
}

/// Returns what is judged of each pulse of a scenario's run, of which these are the records.
pub fn judged_of(
    alloc: Global,
    scenario: &Scenario,
    records: &[PulseRecord],
) -> Result<Vec<Judged>, AllocError>
    ensures { IfOk result (λ judged. judged.items
        ≡ judged_of (frame_of scenario.now) (is_some scenario.now.clock) records.now) }
{
    if scenario.is_judged() {
        judged_in_turn(alloc, scenario.is_strict(), scenario.modulus, records)
    } else {
        all_judged_plainly(alloc, records)
    }
}

/// Returns true if no verdict on agreement is no.
pub fn none_disagrees(judged: &[Judged]) -> bool
    ensures { result ≡ none_disagrees judged.now }
{
    judged.iter().all(|one| one.agree.unwrap_or(true))
}
