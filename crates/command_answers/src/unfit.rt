//! The note on a scenario that can't be explored.

use exploration::Unfit;
use explored::Starts;
use rule_notes::Note;
use scenario_text::Scenario;
use std::alloc::{AllocError, Global};

/// The greatest value of a byte.
const MAX_BYTE: u32 = 255;

/// Returns the note on a scenario that can't be explored from these starts.
pub fn unfit_note(
    alloc: Global,
    start: &Starts,
    scenario: &Scenario,
    unfit: Unfit,
) -> Option<Note> {
    let words = match unfit {
        Unfit::AnyMessage => any_message_words(alloc, start, scenario),
        Unfit::NoLaw { byte } => no_law_words(alloc, scenario, byte),
        Unfit::Byte => byte_words(alloc, scenario),
        Unfit::Image => image_words(alloc, scenario),
        Unfit::Load | Unfit::Unload | Unfit::Corrupt | Unfit::Coin | Unfit::Unloaded => {
            String::from_str(alloc, fixed_words(unfit))
        }
    };
    Note::of(alloc, words.ok()?)
}

/// Returns what explore takes of a scenario.
fn fixed_words(unfit: Unfit) -> &'static str {
    match unfit {
        Unfit::Load => "explore takes loads of pulse 1 alone: a correct node keeps its program",
        Unfit::Unload => "explore takes no [[unload]]: a correct node keeps its program",
        Unfit::Corrupt => "explore takes no [[corrupt]]: --start any tries other initial memories",
        Unfit::Coin => "explore takes no [[coin]]: it tries both coins of each node",
        Unfit::Unloaded => "explore needs a node with a program: add a [[load]] of pulse 1",
        Unfit::Byte | Unfit::Image | Unfit::AnyMessage | Unfit::NoLaw { .. } => "",
    }
}

fn byte_words(alloc: Global, scenario: &Scenario) -> Result<String, AllocError> {
    let last = scenario.memory.saturating_sub(1);
    format!(in alloc; "--cells names a place past the memory: places go from 0 to {last}")
}

fn image_words(alloc: Global, scenario: &Scenario) -> Result<String, AllocError> {
    let digits = scenario.memory.saturating_mul(2);
    format!(in alloc;
        "--images has a memory of another length: each has {digits} digits, two for each byte of `memory`"
    )
}

/// Returns the last value of a byte of a clock.
fn last_value(scenario: &Scenario) -> u32 {
    scenario.modulus.saturating_sub(1).min(MAX_BYTE)
}

/// Returns which messages and starts need no law.
fn any_message_words(
    alloc: Global,
    start: &Starts,
    scenario: &Scenario,
) -> Result<String, AllocError> {
    let modulus = scenario.modulus;
    match start {
        Starts::Every => {
            let last = last_value(scenario);
            format!(in alloc;
                "no law covers every start with any message of these programs: name both, as --start any --cells 0=0..{last} --mail 0..{modulus}"
            )
        }
        Starts::Zero | Starts::Any(_) => format!(in alloc;
            "no law covers any message to these programs: name numbers, as --mail 0..{modulus}"
        ),
    }
}

/// Returns which starts need no law.
fn no_law_words(alloc: Global, scenario: &Scenario, byte: u32) -> Result<String, AllocError> {
    let last = last_value(scenario);
    format!(in alloc;
        "no law covers every value of byte {byte}: name what bytes may be, as --start any --cells {byte}=0..{last}"
    )
}
