//! `explore --claims`: what exploring the bench of a scenario finds of properties.
ghost use Rattle.std.specs.Prelude.{◌≡◌, IfErr, IfOk, List, slice_get, string_bytes, ℕ};
ghost use Rattle.scenario_text.specs.Texts.{ReadsText};
ghost use Rattle.scenario_explorer.specs.Claims.{IsClaimsFinding};
ghost use Rattle.commands.specs.ClaimedExplore.{LeavesClaimedExplore, answers_so, claims_answer_text, claims_ending, claims_finding_ending, is_open, is_violated, some_from};
ghost use Rattle.command_answers.specs.Faults.{HasWriteCause, IsOutOfMemory};
ghost use Rattle.command_answers.specs.Said.{SaysAt};
ghost use Rattle.command_answers.specs.inner.Responses.{IsNoted, IsResponse};

use bench_space::Progress;
use claim_tokens::ReadClaimsError;
use command_answers::{Ending, Fault, Response, give, unfit_note};
use exploration::{ClaimAnswer, ClaimFound, ClaimsFinding, claim_answer, claims_finding_text};
use exploration_json::claims_lines;
use explored::{ExploreOptions, Form};
use properties::Property;
use requests::ClaimedExploreOptions;
use run_commands::claims_file::{properties_in, refused_claims};
use scenario_explorer::claims_on;
use scenario_text::Scenario;
use std::alloc::{AllocError, Global};
use std::sync::Wait;
use std::thread::Threads;
use stream_io::Sink;

/// Writes what exploring the bed of a scenario that was read finds of properties, or the line that refuses their text or
/// the scenario, with a note.
pub(crate) fn claimed_explore<T: Threads + Wait + Sync, W: Sink, E: Sink, P: Progress>(
    rt: &T,
    alloc: Global,
    options: &ClaimedExploreOptions,
    scenario: &Scenario,
    out: &mut W,
    err: &mut E,
    progress: &mut P,
) -> Result<Ending, Fault>
    requires reads { (text : List ℕ) × ReadsText text scenario.now }
    ensures left { LeavesClaimedExplore (W.contents out.old) (W.contents out.new) options.now scenario.now result }
    ensures said { IfOk result (λ ending. SaysAt ending (E.contents err.old) (E.contents err.new)) }
    ensures unsaid { IfErr result (λ fault. E.contents err.new ≡ E.contents err.old) }
    ensures cause { IfErr result (HasWriteCause (W.has_failed out.new)) }
{
    match properties_in(alloc, scenario, options.claims.as_bytes()) {
        Ok(properties) => {
            let explore = &options.explore;
            let given = explored(rt, alloc, explore, scenario, &properties, progress);
            give(alloc, given, out, err)
        }
        Err(ReadClaimsError::Memory) => Err(Fault::Memory),
        Err(ReadClaimsError::Refused(refusal)) => {
            give(alloc, refused_claims(alloc, scenario, refusal), out, err)
        }
    }
}

/// Returns what exploring the bed of a scenario that was read finds of properties, or the line that refuses to.
fn explored<T: Threads + Wait + Sync, P: Progress>(
    rt: &T,
    alloc: Global,
    options: &ExploreOptions,
    scenario: &Scenario,
    properties: &[Property],
    progress: &mut P,
) -> Result<Response, Fault>
    requires reads { (text : List ℕ) × ReadsText text scenario.now }
    ensures response { IfOk result (IsResponse (IsClaimsFinding options.now scenario.now properties.now)
        (claims_answer_text options.now properties.now) (claims_finding_ending properties.now)) }
    ensures noted { IfOk result IsNoted }
    ensures fault { IfErr result IsOutOfMemory }
{
    let found = claims_on(rt, alloc, options, scenario, properties, progress);
    progress.end();
    let Ok(finding) = found else {
        return Err(Fault::Memory);
    };
    response_of(alloc, options, scenario, properties, &finding)
}

/// Returns the text of a finding, how the command ends that found it, and the note on it.
fn response_of(
    alloc: Global,
    options: &ExploreOptions,
    scenario: &Scenario,
    properties: &[Property],
    finding: &ClaimsFinding,
) -> Result<Response, Fault>
    ensures text { IfOk result (λ response. response.text.items
        ≡ claims_answer_text options.now properties.now finding.now) }
    ensures ending { IfOk result (λ response. response.ending ≡ claims_finding_ending properties.now finding.now) }
    ensures noted { IfOk result IsNoted }
    ensures fault { IfErr result IsOutOfMemory }
{
    let text = text_of(alloc, options, properties, finding).map_err(|_| Fault::Memory)?;
    let text = text.into_bytes();
    match finding {
        ClaimsFinding::Unfit(unfit) => Ok(Response {
            text,
            ending: Ending::Refused,
            note: unfit_note(alloc, &options.start, scenario, *unfit),
        }),
        ClaimsFinding::Searched { found, .. } => Ok(Response {
            text,
            ending: ending_of(properties, found.as_slice()),
            note: None,
        }),
    }
}

/// Returns what was found, in the form that was asked.
fn text_of(
    alloc: Global,
    options: &ExploreOptions,
    properties: &[Property],
    finding: &ClaimsFinding,
) -> Result<String, AllocError>
    ensures { IfOk result (λ text. string_bytes text ≡ claims_answer_text options.now properties.now finding.now) }
{
    let ClaimsFinding::Searched { tried, found } = finding else {
        return claims_finding_text(alloc, &options.start, properties, finding);
    };
    match options.form {
        Form::Json => claims_lines(alloc, options, properties, tried, found.as_slice()),
        Form::Text | Form::OddsTable { .. } | Form::Graph(_) => {
            claims_finding_text(alloc, &options.start, properties, finding)
        }
    }
}

fn is_violated(answer: ClaimAnswer) -> bool
    ensures { result ≡ is_violated answer }
{
    match answer {
        ClaimAnswer::ViolatedBy(_) | ClaimAnswer::Violated | ClaimAnswer::Prevented => true,
        ClaimAnswer::Holds
        | ClaimAnswer::HoldsAfter { .. }
        | ClaimAnswer::MayHoldAfter { .. }
        | ClaimAnswer::Unbounded
        | ClaimAnswer::Undecided { .. }
        | ClaimAnswer::Unfinished { .. } => false,
    }
}

fn is_open(answer: ClaimAnswer) -> bool
    ensures { result ≡ is_open answer }
{
    match answer {
        ClaimAnswer::Undecided { .. } | ClaimAnswer::Unfinished { .. } => true,
        ClaimAnswer::Holds
        | ClaimAnswer::ViolatedBy(_)
        | ClaimAnswer::Violated
        | ClaimAnswer::HoldsAfter { .. }
        | ClaimAnswer::MayHoldAfter { .. }
        | ClaimAnswer::Prevented
        | ClaimAnswer::Unbounded => false,
    }
}

/// Returns true if the property at a place is violated, as far as something was found of it.
fn is_violated_at(property: &Property, place: usize, found: &[ClaimFound]) -> bool
    ensures { result ≡ answers_so is_violated property.now (slice_get found.now place) }
{
    match found.get(place) {
        Some(found) => is_violated(claim_answer(property, found)),
        None => false,
    }
}

/// Returns true if something was found of the property at a place, but it isn't decided.
fn is_open_at(property: &Property, place: usize, found: &[ClaimFound]) -> bool
    ensures { result ≡ answers_so is_open property.now (slice_get found.now place) }
{
    match found.get(place) {
        Some(found) => is_open(claim_answer(property, found)),
        None => false,
    }
}

/// Returns true if some property is violated.
fn some_violated(properties: &[Property], found: &[ClaimFound]) -> bool
    ensures { result ≡ some_from is_violated 0 properties.now found.now }
{
    for place in 0..properties.len() {
        if is_violated_at(&properties[place], place, found) {
            return true;
        }
    }
    false
}

/// Returns true if some property isn't decided.
fn some_open(properties: &[Property], found: &[ClaimFound]) -> bool
    ensures { result ≡ some_from is_open 0 properties.now found.now }
{
    for place in 0..properties.len() {
        if is_open_at(&properties[place], place, found) {
            return true;
        }
    }
    false
}

/// Returns how the command ends that found this.
fn ending_of(properties: &[Property], found: &[ClaimFound]) -> Ending
    ensures { result ≡ claims_ending properties.now found.now }
{
    if some_violated(properties, found) {
        Ending::Violated
    } else if some_open(properties, found) {
        Ending::Unfinished
    } else {
        Ending::Done
    }
}
