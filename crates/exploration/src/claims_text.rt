//! The lines that say what exploring a bench found of properties.
ghost use Rattle.std.specs.Prelude.{◌≡◌, ◌++◌, IfOk, OnOk, Some, codes, slice_get, string_bytes};
ghost use Rattle.exploration.specs.Answers.{mark_text, marked, tried_text, unfit_name};
ghost use Rattle.exploration.specs.Claims.{claim_answer_text, claim_cause_text, claim_lines, claims_finding_text, counts_text, follows_text, is_shown, lines_at, lines_from, shown_from, shown_scenario, violated_text};

use crate::answer::{Tried, Unfit};
use crate::claims::{ClaimAnswer, ClaimFound, ClaimsFinding, claim_answer, shown_place};
use crate::odds::{Counted, pulses};
use crate::start::digits_of;
use crate::text::{CauseText, TriedText};
use explored::{Cause, Starts};
use properties::{Property, Violation};
use std::alloc::{AllocError, Global};
use std::fmt;
use std::fmt::Write;

/// The pulse in which a property is violated, and the two nodes.
#[derive(Clone, Copy)]
struct ViolatedText(Violation);

impl fmt::Display for ViolatedText {
    ghost output = { λ text. Some (violated_text text.0) };

    fn fmt<W: fmt::Write>(&self, f: &mut fmt::Formatter<W>) -> fmt::Result {
        let Violation {
            pulse,
            first,
            second,
        } = self.0;
        write!(f, "violated in pulse {pulse} by nodes {first} and {second}")
    }
}

/// Why a search isn't finished.
#[derive(Clone, Copy)]
struct ClaimCauseText(Cause);

impl fmt::Display for ClaimCauseText {
    ghost output = { λ text. Some (claim_cause_text text.0) };

    fn fmt<W: fmt::Write>(&self, f: &mut fmt::Formatter<W>) -> fmt::Result {
        match self.0 {
            Cause::Counterexample => write!(
                f,
                "the property is violated, but no counterexample was made"
            ),
            Cause::States
            | Cause::Transitions
            | Cause::Pulses
            | Cause::Inboxes { .. }
            | Cause::Memory => write!(f, "{}", CauseText(self.0)),
        }
    }
}

/// The answer on a property.
#[derive(Clone, Copy)]
struct AnswerText(ClaimAnswer);

impl fmt::Display for AnswerText {
    ghost output = { λ text. Some (claim_answer_text text.0) };

    fn fmt<W: fmt::Write>(&self, f: &mut fmt::Formatter<W>) -> fmt::Result {
        match self.0 {
            ClaimAnswer::Holds => write!(f, "holds on every path"),
            ClaimAnswer::ViolatedBy(last) => write!(f, "{}", ViolatedText(last)),
            ClaimAnswer::Violated => {
                write!(f, "violated on some path, but no counterexample was made")
            }
            ClaimAnswer::HoldsAfter { pulses: count } => {
                let pulses = pulses(count);
                write!(f, "holds on every path after {pulses}")
            }
            ClaimAnswer::MayHoldAfter { pulses: count } => {
                let pulses = pulses(count);
                write!(
                    f,
                    "may hold after {pulses}: from every reachable state some coins lead there"
                )
            }
            ClaimAnswer::Prevented => write!(f, "can be prevented for ever"),
            ClaimAnswer::Unbounded => write!(
                f,
                "holds in the end, with no bound on the pulses: the adversary can keep the power to violate it"
            ),
            ClaimAnswer::Undecided { memory: true } => {
                write!(f, "not decided: --memory allows no more")
            }
            ClaimAnswer::Undecided { memory: false } => write!(
                f,
                "not decided: a state has more choices of coins than --states allows"
            ),
            ClaimAnswer::Unfinished { cause } => write!(
                f,
                "not finished: {}",
                ClaimCauseText(cause)
            ),
        }
    }
}

/// How many states there are, and how many transitions were tried.
#[derive(Clone, Copy)]
struct CountsText<'a>(&'a ClaimFound);

impl fmt::Display for CountsText<'_> {
    ghost output = { λ text. Some (counts_text text.0.now) };

    fn fmt<W: fmt::Write>(&self, f: &mut fmt::Formatter<W>) -> fmt::Result {
        match self.0 {
            ClaimFound::Closed { states, moves, .. } => {
                let states = Counted {
                    count: *states,
                    word: "state",
                };
                let moves = Counted {
                    count: *moves,
                    word: "transition",
                };
                write!(f, " ({states}, {moves})")
            }
            ClaimFound::Violated { states, .. } | ClaimFound::Unfinished { states, .. } => {
                let states = Counted {
                    count: *states,
                    word: "state",
                };
                write!(f, " ({states})")
            }
        }
    }
}

/// That the scenario below shows an answer.
#[derive(Clone, Copy)]
struct FollowsText(bool);

impl fmt::Display for FollowsText {
    ghost output = { λ text. Some (follows_text text.0) };

    fn fmt<W: fmt::Write>(&self, f: &mut fmt::Formatter<W>) -> fmt::Result {
        match self.0 {
            true => write!(f, "; a counterexample follows"),
            false => Ok(()),
        }
    }
}

/// The two lines of a property, each behind the mark.
#[derive(Clone, Copy)]
struct ClaimLines<'a> {
    mark: &'a str,
    follows: bool,
    property: &'a Property,
    found: &'a ClaimFound,
}

impl fmt::Display for ClaimLines<'_> {
    ghost output = { λ lines. Some (claim_lines lines.mark.now lines.follows lines.property.now lines.found.now) };

    fn fmt<W: fmt::Write>(&self, f: &mut fmt::Formatter<W>) -> fmt::Result {
        let mark = self.mark;
        let line = self.property.line;
        let text = self.property.text.as_str();
        let answer = AnswerText(claim_answer(self.property, self.found));
        let counts = CountsText(self.found);
        let follows = FollowsText(self.follows);
        write!(
            f,
            "{mark}line {line}: {text}\n{mark}  {answer}{counts}{follows}\n"
        )
    }
}

/// Returns true if this is the place of the answer that is shown.
fn is_shown(shown: Option<usize>, place: usize) -> bool
    ensures { result ≡ is_shown shown place }
{
    match shown {
        Some(shown) => shown == place,
        None => false,
    }
}

/// What was found of properties, and which of the answers is shown.
#[derive(Clone, Copy)]
struct FoundClaims<'a> {
    mark: &'a str,
    shown: Option<usize>,
    found: &'a [ClaimFound],
}

/// Adds the lines of the property at a place, if something was found of it.
fn add_lines_at(
    text: &mut String,
    claims: &FoundClaims<'_>,
    place: usize,
    property: &Property,
) -> Result<(), AllocError>
    ensures { OnOk result (string_bytes text.new ≡ string_bytes text.old
        ++ lines_at claims.now.mark.now claims.now.shown place property.now (slice_get claims.now.found.now place)) }
{
    let Some(found) = claims.found.get(place) else {
        return Ok(());
    };
    let lines = ClaimLines {
        mark: claims.mark,
        follows: is_shown(claims.shown, place),
        property,
        found,
    };
    write!(text, "{lines}")?;
    Ok(())
}

/// Adds the lines of each property.
fn add_lines(
    text: &mut String,
    claims: &FoundClaims<'_>,
    properties: &[Property],
) -> Result<(), AllocError>
    ensures { OnOk result (string_bytes text.new ≡ string_bytes text.old
        ++ lines_from claims.now.mark.now claims.now.shown 0 properties.now claims.now.found.now) }
{
    for place in 0..properties.len() {
        add_lines_at(text, claims, place, &properties[place])?;
    }
    Ok(())
}

/// Returns the scenario of the first answer that has one.
fn shown_scenario(found: &[ClaimFound]) -> &str
    ensures { result.now ≡ shown_scenario found.now }
{
    let Some(place) = shown_place(found) else {
        return "";
    };
    match found.get(place) {
        Some(found) => found.scenario().unwrap_or(""),
        None => "",
    }
}

/// Returns the lines of what was tried and found.
fn searched_text(
    alloc: Global,
    start: &Starts,
    properties: &[Property],
    tried: &Tried,
    found: &[ClaimFound],
) -> Result<String, AllocError>
    ensures { IfOk result (λ text. string_bytes text
        ≡ marked (mark_text (shown_scenario found.now)) (tried_text start.now tried.now)
        ++ (lines_from (mark_text (shown_scenario found.now)) (shown_from 0 found.now) 0 properties.now found.now
        ++ shown_scenario found.now)) }
{
    let scenario = shown_scenario(found);
    let mark = if scenario.len() == 0 { "" } else { "# " };
    let digits = digits_of(alloc, start)?;
    let tried = TriedText {
        digits: digits.as_str(),
        start,
        tried,
    };
    let mut text = format!(in alloc; "{mark}{tried}\n")?;
    let claims = FoundClaims {
        mark,
        shown: shown_place(found),
        found,
    };
    add_lines(&mut text, &claims, properties)?;
    text.push_str(scenario)?;
    Ok(text)
}

fn refused_text(alloc: Global, unfit: Unfit) -> Result<String, AllocError>
    ensures { IfOk result (λ text. string_bytes text ≡ codes "refused explore " ++ (unfit_name unfit ++ codes "\n")) }
{
    format!(in alloc; "refused explore {unfit}\n")
}

/// Returns the lines of an answer on properties, with their ends, and the first counterexample if there is one.
pub fn claims_finding_text(
    alloc: Global,
    start: &Starts,
    properties: &[Property],
    finding: &ClaimsFinding,
) -> Result<String, AllocError>
    ensures { IfOk result (λ text. string_bytes text
        ≡ claims_finding_text start.now properties.now finding.now) }
{
    match finding {
        ClaimsFinding::Unfit(unfit) => refused_text(alloc, *unfit),
        ClaimsFinding::Searched { tried, found } => {
            searched_text(alloc, start, properties, tried, found.as_slice())
        }
    }
}
