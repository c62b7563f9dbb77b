//! A whole table.
ghost use Rattle.std.specs.Prelude.{◌≡◌, IfOk, IfErr, codes, option_map};
ghost use Rattle.toml.specs.Data.{get_member};
ghost use Rattle.toml.specs.View.{table_view};
ghost use Rattle.scenario_text.specs.Broken.{BrokenAt};
ghost use Rattle.scenario_text.specs.Faults.{Refuses};
ghost use Rattle.scenario_text.specs.Spelling.{SpellsNothing, clock_key, clock_draft, frame_keys, key_of_version, knows_zero, text_key, top_keys};
ghost use Rattle.scenario_text.specs.Tables.{knows};
ghost use Rattle.scenario_text.specs.Views.{ReadsAs, text_draft};

use crate::arrays::arrays_at;
use crate::entries::entries_of;
use crate::keys::{Key, LATER_TOP_KEYS, TOP_KEYS};
use crate::limits::{CLOCK_VERSION, RULE_VERSION, ZERO_VERSION};
use crate::noise::judge_noise;
use crate::refusal::{Place, ScenarioError};
use crate::scenario::{ClockKey, ProgramText, Scenario};
use crate::setup::{Setup, setup_at};
use crate::table::{knows_keys, text_at, value_at};
use crate::top::{coins_at, frame_at, key_at};
use std::alloc::{AllocError, Global};
use toml::Table;

/// Returns the key of a clock's text in a version, where there is a key `clock` or isn't.
fn key_of_version(version: u64, with_clock: bool) -> ClockKey
    ensures { result ≡ key_of_version version with_clock }
{
    if version == CLOCK_VERSION {
        ClockKey::Clock
    } else if version == RULE_VERSION || version == ZERO_VERSION {
        if with_clock {
            ClockKey::Clock
        } else {
            ClockKey::Rule
        }
    } else {
        ClockKey::Absent
    }
}

/// Returns the key of the clock's text.
fn clock_key(table: &Table) -> ClockKey
    ensures { result ≡ clock_key (table_view table.now) }
{
    let with_clock = value_at(table, "clock").is_some();
    let Some(value) = value_at(table, "version") else {
        return ClockKey::Absent;
    };
    let Some(version) = value.as_integer() else {
        return ClockKey::Absent;
    };
    match u64::try_from(version) {
        Ok(version) => key_of_version(version, with_clock),
        Err(_) => ClockKey::Absent,
    }
}

/// Returns true if the version of a table is one in which a scenario may say whether 0 agrees with every clock.
fn knows_zero(table: &Table) -> bool
    ensures { result ≡ knows_zero (get_member (codes "version") (table_view table.now)) }
{
    let Some(value) = value_at(table, "version") else {
        return false;
    };
    let Some(version) = value.as_integer() else {
        return false;
    };
    match u64::try_from(version) {
        Ok(version) => ZERO_VERSION <= version,
        Err(_) => false,
    }
}

/// Returns true if each top key is one of the table's version, or that of the clock's text.
fn knows_top_keys(table: &Table, clock: ClockKey) -> bool
    requires { clock ≡ clock_key (table_view table.now) }
    ensures { result ≡ knows (top_keys (table_view table.now)) (table_view table.now) }
{
    if knows_zero(table) {
        knows_keys(table, &LATER_TOP_KEYS, text_key(clock))
    } else {
        knows_keys(table, &TOP_KEYS, text_key(clock))
    }
}

/// Returns the key itself, if there is one.
fn text_key(key: ClockKey) -> Option<Key>
    ensures { result ≡ text_key key }
{
    match key {
        ClockKey::Absent => None,
        ClockKey::Clock => Some(Key::Clock),
        ClockKey::Rule => Some(Key::Rule),
    }
}

/// Returns the text of the clock, if there is one.
fn clock_text_at(
    alloc: Global,
    table: &Table,
    key: ClockKey,
) -> Result<Option<ProgramText>, AllocError>
    ensures { IfOk result (λ text. option_map text_draft text ≡ clock_draft key (table_view table.now)) }
{
    match key {
        ClockKey::Absent => Ok(None),
        ClockKey::Clock => Ok(text_at(alloc, table, "clock")?.map(ProgramText::Assembler)),
        ClockKey::Rule => Ok(text_at(alloc, table, "rule")?.map(ProgramText::Rule)),
    }
}

/// Returns the scenario that a table spells, each of whose programs is accepted. The refusal is never `TooLong` or
/// `NotToml`; `Memory` comes whenever memory is short.
pub fn scenario_of(alloc: Global, table: &Table) -> Result<Scenario, ScenarioError>
    ensures reads { IfOk result (ReadsAs (table_view table.now)) }
    ensures refused { IfErr result (λ e. Refuses e (SpellsNothing (table_view table.now))
        (BrokenAt (table_view table.now))) }
{
    let clock = clock_key(table);
    if !knows_top_keys(table, clock) {
        return Err(ScenarioError::UnknownKey { place: Place::Top });
    }
    let frame = frame_at(table)?;
    let coins = coins_at(table)?;
    let key = key_at(table, coins)?;
    let setup = setup_at(alloc, table, clock, frame)?;
    let Ok(clock_text) = clock_text_at(alloc, table, clock) else {
        return Err(ScenarioError::Memory(AllocError));
    };
    let arrays = arrays_at(table)?;
    let loads = entries_of(alloc, &setup, arrays.loads)?;
    judge_noise(&loads, key, setup.frame.pulses)?;
    let unloads = entries_of(alloc, &setup, arrays.unloads)?;
    let corruptions = entries_of(alloc, &setup, arrays.corruptions)?;
    let entries = entries_of(alloc, &setup, arrays.entries)?;
    let Setup { frame, own, .. } = setup;
    Ok(Scenario {
        version: frame.version,
        nodes: frame.nodes,
        faults: frame.faults,
        modulus: frame.modulus,
        memory: frame.memory,
        pulses: frame.pulses,
        zero_agrees: frame.zero_agrees,
        coins,
        key,
        clock_text,
        clock: own,
        loads,
        unloads,
        corruptions,
        entries,
    })
}
