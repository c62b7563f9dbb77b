//! The file of `--claims`: the properties of its text, or its refusal with a note.
ghost use Rattle.std.specs.Prelude.{◌≡◌, ◌++◌, All, IfErr, IfOk, codes};
ghost use Rattle.claim_tokens.specs.Errors.{claims_refusal_line};
ghost use Rattle.command_answers.specs.declared.ending.Ending.TheVariants.{Refused};
ghost use Rattle.command_answers.specs.Faults.{IsOutOfMemory};
ghost use Rattle.command_answers.specs.inner.Responses.{IsNoted};
ghost use Rattle.property_text.specs.Read.{IsBounded};

use claim_tokens::{ClaimError, ClaimsRefusal, ReadClaimsError};
use claimed_runs::sizes_of;
use command_answers::{Ending, Fault, Response};
use explored_texts::state_words;
use properties::Property;
use property_text::read_properties;
use rule_notes::Note;
use scenario_text::Scenario;
use std::alloc::{AllocError, Global};

/// Returns the properties of a text, about the words of the scenario's clock. The scenario's sizes have to be those that
/// the text assumes.
pub fn properties_in(
    alloc: Global,
    scenario: &Scenario,
    text: &[u8],
) -> Result<Vec<Property>, ReadClaimsError>
    ensures { IfOk result (λ properties. All IsBounded properties.items) }
{
    let words = clock_words(alloc, scenario)?;
    read_properties(alloc, words.as_slice(), sizes_of(scenario), text)
}

/// Returns the words of the clock by their places: those of its rule, or of the built-in clock. Of a clock in assembler
/// the first word is known alone.
fn clock_words(alloc: Global, scenario: &Scenario) -> Result<Vec<String>, AllocError> {
    let mut words = state_words(alloc, scenario)?;
    if words.is_empty() {
        words.push(String::from_str(alloc, "clock")?)?;
        if scenario.clock_text.is_none() {
            words.push(String::from_str(alloc, "mark")?)?;
        }
    }
    Ok(words)
}

/// Returns the line of a refusal about a scenario, with a note.
pub fn refused_claims(
    alloc: Global,
    scenario: &Scenario,
    refusal: ClaimsRefusal,
) -> Result<Response, Fault>
    ensures text { IfOk result (λ response. response.text.items
        ≡ claims_refusal_line refusal.error refusal.line refusal.column ++ codes "\n") }
    ensures ending { IfOk result (λ response. response.ending ≡ Refused) }
    ensures noted { IfOk result IsNoted }
    ensures fault { IfErr result IsOutOfMemory }
{
    let line = format!(in alloc; "{refusal}\n").map_err(|_| Fault::Memory)?;
    Ok(Response {
        text: line.into_bytes(),
        ending: Ending::Refused,
        note: note_on(alloc, scenario, refusal).unwrap_or(None),
    })
}

/// Returns the note on a refusal: its place, and what is right there.
fn note_on(
    alloc: Global,
    scenario: &Scenario,
    refusal: ClaimsRefusal,
) -> Result<Option<Note>, AllocError> {
    let ClaimsRefusal {
        error,
        line,
        column,
    } = refusal;
    if error == ClaimError::NotAssumed {
        let (n, f, modulus) = (scenario.nodes, scenario.faults, scenario.modulus);
        let words = format!(in alloc;
            "line {line}, column {column} of the claims: the scenario has n = {n}, f = {f}, M = {modulus}"
        )?;
        return Ok(Note::of(alloc, words));
    }
    let advice = advice_on(error);
    let words = format!(in alloc; "line {line}, column {column} of the claims: {advice}")?;
    Ok(Note::of(alloc, words))
}

/// Returns what is right where an error is.
fn advice_on(error: ClaimError) -> &'static str {
    match error {
        ClaimError::BadCharacter => "no word and no sign has this character",
        ClaimError::Expected => {
            "another word or sign has to be here; a line is always T, eventually always T, within K T or assume T, such as always p.clock == q.clock"
        }
        ClaimError::UnknownName => {
            "names are n, f, M, none, p.me, p.clock and p.before.clock, with the words of the rule; likewise of q"
        }
        ClaimError::NameTwice =>
            "a rule with a word named before has no properties: rename the word",
        ClaimError::OutOfRange => {
            "numbers are below 4294967296, within has 1000000 pulses at most, and a name 32 letters"
        }
        ClaimError::TooDeep => "the term has too many parts in one another",
        ClaimError::TooLong => "there are 32 properties at most, in 16384 bytes",
        ClaimError::NotCovered => {
            "a term speaks of p and q alone, without mail, coin, count, least, sorted and tables"
        }
        ClaimError::NotAssumed => "the scenario has other sizes",
    }
}
