//! The keys that tables know (docs/SCENARIOS.md, "Keys"), and the one that a table doesn't.

use scenario_text::keys::{
    BESIDE_KEYS, COIN_KEYS, CORRUPT_KEYS, Key, LOAD_KEYS, SOURCE_KEYS, TOP_KEYS, UNLOAD_KEYS,
};
use scenario_text::{CLOCK_VERSION, Place, RULE_VERSION, ZERO_VERSION};
use std::alloc::{AllocError, Global};
use toml::{Table, Value};

/// Returns the keys of a table there, and those that are known only beside others.
fn keys_at(place: Place) -> (&'static [Key], &'static [Key]) {
    match place {
        Place::Top => (&TOP_KEYS, &BESIDE_KEYS),
        Place::Load(_) => (&LOAD_KEYS, &SOURCE_KEYS),
        Place::Unload(_) => (&UNLOAD_KEYS, &[]),
        Place::Corrupt(_) => (&CORRUPT_KEYS, &[]),
        Place::Coin(_) => (&COIN_KEYS, &[]),
    }
}

/// Returns the names of all these keys.
pub(crate) fn names_at(alloc: Global, place: Place) -> Result<Vec<&'static str>, AllocError> {
    let (own, beside) = keys_at(place);
    let mut names = Vec::new(alloc);
    for key in own.iter().chain(beside.iter()) {
        names.push(key.name())?;
    }
    Ok(names)
}

/// Returns the key of this name that is known there beside others.
pub(crate) fn key_beside(place: Place, name: &str) -> Option<Key> {
    let (_, beside) = keys_at(place);
    beside.iter().copied().find(|key| key.name() == name)
}

/// Returns the first key of a table there that it doesn't know.
pub(crate) fn unknown_key(table: &Table, place: Place) -> Option<&str> {
    for key in table.keys() {
        let name = key.as_str();
        if !is_known(table, place, name) {
            return Some(name);
        }
    }
    None
}

fn is_known(table: &Table, place: Place, name: &str) -> bool {
    let (own, _) = keys_at(place);
    own.iter().any(|key| key.name() == name)
        || key_beside(place, name).is_some_and(|key| has_its_like(table, key))
}

/// Returns true if the version is this one or a later one.
pub(crate) fn has_version(table: &Table, first: u64) -> bool {
    let Some(version) = table.get("version").and_then(Value::as_integer) else {
        return false;
    };
    match u64::try_from(version) {
        Ok(version) => version >= first,
        Err(_) => false,
    }
}

/// Returns true if the key is beside what it belongs to.
fn has_its_like(table: &Table, key: Key) -> bool {
    let program = table.get("program").and_then(Value::as_str);
    match key {
        Key::Clock => has_version(table, CLOCK_VERSION),
        Key::Rule => has_version(table, RULE_VERSION) && table.get("clock").is_none(),
        Key::ZeroAgrees => has_version(table, ZERO_VERSION),
        Key::Values => program == Some("say"),
        Key::Text => matches!(program, Some("asm" | "rule")),
        _ => true,
    }
}
