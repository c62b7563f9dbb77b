//! What the keys of a scenario may be (docs/SCENARIOS.md, "Keys"), in the words of a note.

use crate::known::has_version;
use clock_nodes::{LEAST_MODULUS, MAX_MODULUS};
use node_env::{MAX_MEMORY, MAX_NODES, MEMORY_UNIT};
use scenario_text::{
    FIRST_MAX_NODES, FIRST_VERSION, LAST_VERSION, MAX_CHANGES, MAX_COIN_ENTRIES, MAX_KEY,
    MAX_NOISE, MAX_PULSES, NOISE_VERSION, Place, RULE_VERSION,
};
use std::alloc::{AllocError, Global};
use std::fmt::Write;
use toml::{Table, Value};

/// The words that `coins` may be.
pub(crate) const COINS_NAMES: [&str; 3] = ["zeros", "ones", "chacha"];

/// The words that `program` may be before noise.
const FIRST_PROGRAM_NAMES: [&str; 5] = ["clock", "say", "echo", "asm", "rule"];

/// The words that `program` may be from the version of noise on.
const PROGRAM_NAMES: [&str; 6] = ["clock", "say", "echo", "asm", "rule", "noise"];

const COINS_WORDS: &str = "coins is \"zeros\", \"ones\" or \"chacha\"";

/// Returns the words that `program` may be in a scenario.
pub(crate) fn program_names(table: &Table) -> &'static [&'static str] {
    if has_version(table, NOISE_VERSION) {
        &PROGRAM_NAMES
    } else {
        &FIRST_PROGRAM_NAMES
    }
}

fn program_words(alloc: Global, table: &Table) -> Result<String, AllocError> {
    if has_version(table, NOISE_VERSION) {
        return String::from_str(
            alloc,
            "program is \"clock\", \"say\", \"echo\", \"asm\", \"rule\" or \"noise\"",
        );
    }
    format!(in alloc;
        "program is \"clock\", \"say\", \"echo\" or \"asm\", and from version {RULE_VERSION} on \"rule\" or \"noise\""
    )
}

/// A number that a scenario gives at the top, as a limit for others: a name where it gives none.
#[derive(Drop)]
struct Limit {
    text: String,
}

/// Returns the number under a key at the top, less one if that is asked for.
fn limit_of(alloc: Global, table: &Table, key: &str, less: i64) -> Result<Limit, AllocError> {
    let text = match table.get(key).and_then(Value::as_integer) {
        Some(number) if number >= less => {
            let number = number.saturating_sub(less);
            format!(in alloc; "{number}")?
        }
        _ if less > 0 => format!(in alloc; "{key} - {less}")?,
        _ => String::from_str(alloc, key)?,
    };
    Ok(Limit { text })
}

/// Returns a whole number from the first to the last.
fn number(alloc: Global, key: &str, first: u64, last: u64) -> Result<String, AllocError> {
    format!(in alloc; "{key} is a whole number, {first} to {last}")
}

fn nodes_words(alloc: Global) -> Result<String, AllocError> {
    format!(in alloc;
        "nodes is a whole number, 1 to {FIRST_MAX_NODES}, and to {MAX_NODES} with version = 2"
    )
}

fn memory_words(alloc: Global) -> Result<String, AllocError> {
    format!(in alloc;
        "memory is a whole number, {MEMORY_UNIT} to {MAX_MEMORY}, a multiple of {MEMORY_UNIT}"
    )
}

fn below_nodes(alloc: Global, table: &Table, what: &str) -> Result<String, AllocError> {
    let last = limit_of(alloc, table, "nodes", 1)?;
    let last = last.text.as_str();
    format!(in alloc; "{what}, 0 to {last}")
}

fn pulse_words(alloc: Global, table: &Table) -> Result<String, AllocError> {
    let last = limit_of(alloc, table, "pulses", 0)?;
    let last = last.text.as_str();
    format!(in alloc; "pulse is a whole number, 1 to {last}")
}

fn values_words(alloc: Global, table: &Table) -> Result<String, AllocError> {
    let count = limit_of(alloc, table, "nodes", 0)?;
    let count = count.text.as_str();
    format!(in alloc; "values has a number for each node ({count}): -1 for no message")
}

fn image_words(alloc: Global, table: &Table) -> Result<String, AllocError> {
    let count = limit_of(alloc, table, "memory", 0)?;
    let count = count.text.as_str();
    format!(in alloc; "image has a number, 0 to 255, for each byte of the memory ({count})")
}

fn array_words(alloc: Global, key: &str, most: usize) -> Result<String, AllocError> {
    format!(in alloc;
        "{key} is a list of tables: write [[{key}]] above each; {most} entries at most"
    )
}

fn load_words(alloc: Global, table: &Table) -> Result<String, AllocError> {
    let mut words = array_words(alloc, "load", MAX_CHANGES)?;
    if has_version(table, NOISE_VERSION) {
        write!(words, ", and {MAX_NOISE} pulses of noise")?;
    }
    Ok(words)
}

/// Returns what a key at the top may be.
fn wanted_at_top(alloc: Global, table: &Table, key: &str) -> Result<String, AllocError> {
    match key {
        "version" => number(alloc, key, FIRST_VERSION, LAST_VERSION),
        "nodes" => nodes_words(alloc),
        "faults" => below_nodes(alloc, table, "faults is a whole number"),
        "modulus" => number(alloc, key, u64::from(LEAST_MODULUS), u64::from(MAX_MODULUS)),
        "memory" => memory_words(alloc),
        "pulses" => number(alloc, key, 1, MAX_PULSES),
        "coins" => String::from_str(alloc, COINS_WORDS),
        "key" => number(alloc, key, 0, MAX_KEY),
        "clock" => String::from_str(alloc, "clock is the text of a program"),
        "rule" => String::from_str(alloc, "rule is the text of a rule (docs/RULES.md)"),
        "zero_agrees" => String::from_str(alloc, "zero_agrees is true or false"),
        "load" => load_words(alloc, table),
        "coin" => array_words(alloc, key, MAX_COIN_ENTRIES),
        _ => array_words(alloc, key, MAX_CHANGES),
    }
}

/// Returns what a key of an entry may be.
fn wanted_in_entry(alloc: Global, table: &Table, key: &str) -> Result<String, AllocError> {
    match key {
        "pulse" => pulse_words(alloc, table),
        "nodes" => below_nodes(alloc, table, "nodes is a list of node numbers"),
        "node" => below_nodes(alloc, table, "node is the number of a node"),
        "program" => program_words(alloc, table),
        "values" => values_words(alloc, table),
        "image" => image_words(alloc, table),
        "value" => String::from_str(alloc, "value is a coin, 0 or 1"),
        _ => String::from_str(alloc, "text is the text of a program or of a rule"),
    }
}

/// Returns what a key there may be.
pub(crate) fn wanted(
    alloc: Global,
    table: &Table,
    place: Place,
    key: &str,
) -> Result<String, AllocError> {
    match place {
        Place::Top => wanted_at_top(alloc, table, key),
        Place::Load(_) | Place::Unload(_) | Place::Corrupt(_) | Place::Coin(_) => {
            wanted_in_entry(alloc, table, key)
        }
    }
}
