//! The entries of an array of tables.
ghost use Rattle.std.specs.Prelude.{◌≡◌, ℕ, List, Option, IfOk, IfErr, Some, map, All, option_map};
ghost use Rattle.bpf_insn.specs.declared.forms.Insn.{Insn};
ghost use Rattle.toml.specs.Data.{Members, array as array_data};
ghost use Rattle.toml.specs.View.{array_view, table_view, view};
ghost use Rattle.scenario_text.specs.declared.refusal.Place.{Place as PlaceValue};
ghost use Rattle.scenario_text.specs.declared.scenario.Frame.{Frame as FrameValue};
ghost use Rattle.scenario_text.specs.Faults.{Refuses};
ghost use Rattle.scenario_text.specs.inner.Arrays.{StandsIn};
ghost use Rattle.scenario_text.specs.inner.Setups.{IsReadingSetup, own_clock};
ghost use Rattle.scenario_text.specs.Tables.{ReadsEach, IsTable, MayBeArray};

use crate::refusal::{Place, ScenarioError};
use crate::setup::Setup;
use std::alloc::{AllocError, Global};
use toml::value::Array;
use toml::{Table, Value};

/// An entry of one of the arrays of a scenario. What a table spells rests on the frame and on the clock, where that
/// isn't the rule's.
pub(crate) trait Entry: Drop {
    /// The entry as plain data.
    ghost Draft: { Type 0 };

    ghost draft_of: { Self → Draft };

    /// The table spells this entry.
    ghost spelled: { FrameValue → Option (List Insn) → Members → Draft → Type 0 };

    /// The program of the entry, if it has one, is accepted.
    ghost fits: { FrameValue → Self → Type 0 };

    /// The program of the table breaks the rules first at this slot.
    ghost broken: { FrameValue → Option (List Insn) → Members → ℕ → Type 0 };

    ghost place: { ℕ → PlaceValue };

    /// The key of the array.
    const KEY: &'static str;

    /// Returns the entry that a table spells.
    fn read(
        alloc: Global,
        setup: &Setup,
        index: usize,
        table: &Table,
    ) -> Result<Self, ScenarioError>
        requires { IsReadingSetup setup.now }
        ensures entry { IfOk result (λ entry.
            spelled setup.now.frame (own_clock setup.now) (table_view table.now) (draft_of entry)) }
        ensures fits { IfOk result (fits setup.now.frame) }
        ensures refused { IfErr result (λ e. Refuses e ((draft : Draft)
            → spelled setup.now.frame (own_clock setup.now) (table_view table.now) draft → ⊥)
            (λ p slot. (p ≡ place index)
            × broken setup.now.frame (own_clock setup.now) (table_view table.now) slot)) };
}

fn entry_in<E: Entry>(
    alloc: Global,
    setup: &Setup,
    index: usize,
    value: &Value,
) -> Result<E, ScenarioError>
    requires { IsReadingSetup setup.now }
    ensures entry { IfOk result (λ entry.
        IsTable (E.spelled setup.now.frame (own_clock setup.now)) (view value.now) (E.draft_of entry)) }
    ensures fits { IfOk result (E.fits setup.now.frame) }
    ensures refused { IfErr result (λ e. Refuses e ((draft : E.Draft)
        → IsTable (E.spelled setup.now.frame (own_clock setup.now)) (view value.now) draft → ⊥)
        (λ p slot. (p ≡ E.place index)
        × IsTable (E.broken setup.now.frame (own_clock setup.now)) (view value.now) slot)) }
{
    let Some(table) = value.as_table() else {
        return Err(ScenarioError::WrongKind {
            place: Place::Top,
            key: E::KEY,
        });
    };
    E::read(alloc, setup, index, table)
}

fn entries_in<E: Entry>(
    alloc: Global,
    setup: &Setup,
    array: &Array,
) -> Result<Vec<E>, ScenarioError>
    requires { IsReadingSetup setup.now }
    ensures entries { IfOk result (λ entries. ReadsEach (IsTable (E.spelled setup.now.frame (own_clock setup.now)))
        (array_view array.now) (map E.draft_of entries.items)) }
    ensures fits { IfOk result (λ entries. All (E.fits setup.now.frame) entries.items) }
    ensures refused { IfErr result (λ e. Refuses e ((drafts : List E.Draft)
        → ReadsEach (IsTable (E.spelled setup.now.frame (own_clock setup.now))) (array_view array.now) drafts → ⊥)
        (StandsIn E.place (IsTable (E.broken setup.now.frame (own_clock setup.now)))
        (Some (array_data (array_view array.now))))) }
{
    let mut entries = Vec::new(alloc);
    for (index, value) in array.iter().enumerate() {
        let entry = entry_in(alloc, setup, index, value)?;
        entries
            .push(entry)
            .map_err(|_| ScenarioError::Memory(AllocError))?;
    }
    Ok(entries)
}

/// Returns the entries that an array spells; no array spells none.
pub(crate) fn entries_of<E: Entry>(
    alloc: Global,
    setup: &Setup,
    array: Option<&Array>,
) -> Result<Vec<E>, ScenarioError>
    requires { IsReadingSetup setup.now }
    ensures entries { IfOk result (λ entries. MayBeArray (IsTable (E.spelled setup.now.frame (own_clock setup.now)))
        (option_map (λ a. array_data (array_view a.now)) array.entry) (map E.draft_of entries.items)) }
    ensures fits { IfOk result (λ entries. All (E.fits setup.now.frame) entries.items) }
    ensures refused { IfErr result (λ e. Refuses e ((drafts : List E.Draft)
        → MayBeArray (IsTable (E.spelled setup.now.frame (own_clock setup.now)))
        (option_map (λ a. array_data (array_view a.now)) array.entry) drafts → ⊥)
        (StandsIn E.place (IsTable (E.broken setup.now.frame (own_clock setup.now)))
        (option_map (λ a. array_data (array_view a.now)) array.entry))) }
{
    match array {
        Some(array) => entries_in(alloc, setup, array),
        None => Ok(Vec::new(alloc)),
    }
}
