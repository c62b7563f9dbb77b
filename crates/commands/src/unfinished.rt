//! The note on a search that isn't finished: the option that ended it, and a value that finishes it if one was tried.
ghost use Rattle.std.specs.Prelude.{List, ℕ};
ghost use Rattle.scenario_text.specs.Texts.{ReadsText};

use command_words::options::{DEPTH, MEBIBYTES, STATES};
use command_words::rows::NumberOption;
use exploration::Found;
use explored::{Cause, ExploreOptions, Odds, Recovery, Starts};
use rule_notes::Note;
use scenario_explorer::{is_finished_by_all_pulses, states_enough};
use scenario_text::Scenario;
use std::alloc::{AllocError, Global};
use std::sync::Wait;
use std::thread::Threads;

/// What ended a search.
#[derive(Clone, Copy)]
enum Limit {
    States,
    Depth,
    Memory,
    /// A node has too many memories and inboxes.
    Choices,
}

/// Returns the note on what was found of a scenario and isn't all that was asked.
pub(crate) fn unfinished_note<T: Threads + Wait + Sync>(
    rt: &T,
    alloc: Global,
    options: &ExploreOptions,
    scenario: &Scenario,
    found: &Found,
) -> Option<Note>
    requires reads { (text : List ℕ) × ReadsText text scenario.now }
{
    let limit = limit_of(found)?;
    let words = match limit {
        Limit::States => states_words(rt, alloc, options, scenario),
        Limit::Depth => depth_words(rt, alloc, options, scenario),
        Limit::Memory => raised(alloc, &MEBIBYTES, options.memory),
        Limit::Choices => String::from_str(alloc, choices_words(&options.start)),
    };
    Note::of(alloc, words.ok()?)
}

/// Returns what ended a search: nothing if no option did.
fn limit_of(found: &Found) -> Option<Limit> {
    match found {
        Found::Unfinished { cause, .. } => limit_in(*cause),
        Found::Closed { recovery, odds, .. } => match (recovery, odds) {
            (Some(Recovery::Unknown { memory }), _) => Some(bound_of(*memory)),
            (_, Some(Odds::Unknown { memory })) => Some(bound_of(*memory)),
            _ => None,
        },
        Found::Parts { .. } | Found::Theorem { .. } => None,
    }
}

fn limit_in(cause: Cause) -> Option<Limit> {
    match cause {
        Cause::States | Cause::Transitions => Some(Limit::States),
        Cause::Pulses => Some(Limit::Depth),
        Cause::Inboxes { .. } => Some(Limit::Choices),
        Cause::Memory => Some(Limit::Memory),
        Cause::Counterexample => None,
    }
}

fn bound_of(memory: bool) -> Limit {
    if memory { Limit::Memory } else { Limit::States }
}

/// Returns a number of states that is enough, if one was found by trying.
fn states_words<T: Threads + Wait + Sync>(
    rt: &T,
    alloc: Global,
    options: &ExploreOptions,
    scenario: &Scenario,
) -> Result<String, AllocError>
    requires reads { (text : List ℕ) × ReadsText text scenario.now }
{
    match states_enough(rt, alloc, options, scenario)? {
        Some(states) => {
            let name = STATES.name;
            format!(in alloc; "--{name} {states} is enough")
        }
        None => raised(alloc, &STATES, options.states),
    }
}

/// Returns whether the search of all pulses finishes, if that was found by trying.
fn depth_words<T: Threads + Wait + Sync>(
    rt: &T,
    alloc: Global,
    options: &ExploreOptions,
    scenario: &Scenario,
) -> Result<String, AllocError>
    requires reads { (text : List ℕ) × ReadsText text scenario.now }
{
    let name = DEPTH.name;
    if is_finished_by_all_pulses(rt, alloc, options, scenario)? {
        return format!(in alloc; "without --{name} the search finishes");
    }
    let depth = options.depth;
    format!(in alloc; "raise --{name} (now {depth}), or leave it out")
}

/// Returns that an option is to be raised, or what else can be done if it can't.
fn raised(alloc: Global, option: &NumberOption<&str, u32>, now: u32) -> Result<String, AllocError> {
    let name = option.name;
    let most = option.most;
    if now < most {
        return format!(in alloc; "raise --{name} (now {now}; at most {most})");
    }
    format!(in alloc;
        "--{name} is at its most: explore fewer nodes, a smaller modulus or fewer messages (--mail)"
    )
}

/// Returns which choices can be fewer.
fn choices_words(start: &Starts) -> &'static str {
    match start {
        Starts::Any(_) => "name fewer memories and messages, as --cells 0=0,1 --mail 0,1",
        Starts::Zero | Starts::Every => "name fewer messages, as --mail 0,1",
    }
}
