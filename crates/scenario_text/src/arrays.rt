//! The arrays of entries: their kinds, and how many entries there are.
ghost use Rattle.std.specs.Prelude.{◌≡◌, ◌+◌, ◌≤◌, ◌<◌, IfOk, IfErr, MatchOption, MatchResult, option_map, codes};
ghost use Rattle.toml.specs.Data.{get_member, array as array_data};
ghost use Rattle.toml.specs.View.{view, array_view, table_view};
ghost use Rattle.scenario_text.specs.inner.Arrays.{HasArrays, count_in, item_count, entry_count, items_length, loads_counted};
ghost use Rattle.scenario_text.specs.inner.Faults.{IsOfSpelling};

use crate::limits::{MAX_CHANGES, MAX_COIN_ENTRIES};
use crate::refusal::{Place, ScenarioError};
use crate::table::{tables_at, value_at};
use toml::value::Array;
use toml::{Table, Value};

/// The arrays of a table, if they are there.
#[derive(Clone, Copy)]
pub(crate) struct Arrays<'a> {
    pub(crate) loads: Option<&'a Array>,
    pub(crate) unloads: Option<&'a Array>,
    pub(crate) corruptions: Option<&'a Array>,
    pub(crate) entries: Option<&'a Array>,
}

#[tactic(auto, using(crate::proofs::TableLemmas::items_length_view))]
fn items_in(array: &Array) -> usize
    ensures { result ≡ items_length (array_view array.now) }
{
    array.len()
}

/// Returns for how many changes a load counts.
fn count_in(value: &Value) -> usize
    ensures { result ≡ count_in (view value.now) }
{
    let Some(table) = value.as_table() else {
        return 1;
    };
    let Some(nodes) = value_at(table, "nodes") else {
        return 1;
    };
    let Some(array) = nodes.as_array() else {
        return 1;
    };
    items_in(array)
}

/// Returns the changes of an array of loads, or none if there are more than a limit.
#[tactic(auto, using(crate::proofs::TableLemmas::counted_take))]
fn counted_loads(array: &Array, most: usize) -> Option<usize>
    ensures { MatchOption result (most < item_count (array_view array.now))
        (λ n. (n ≡ item_count (array_view array.now)) × (n ≤ most)) }
{
    let mut total = 0usize;
    for value in array.iter() {
        let count = count_in(value);
        if count > most - total {
            return None;
        }
        total += count;
    }
    Some(total)
}

/// Returns the room that is left after the loads.
fn room_after_loads(array: Option<&Array>, room: usize) -> Result<usize, ScenarioError>
    ensures fault { IfErr result IsOfSpelling }
    ensures room { MatchResult result
        (λ left. left + loads_counted (option_map (λ a. array_data (array_view a.now)) array.entry) ≡ room)
        (λ _. room < loads_counted (option_map (λ a. array_data (array_view a.now)) array.entry)) }
{
    let Some(array) = array else {
        return Ok(room);
    };
    match counted_loads(array, room) {
        Some(count) => Ok(room - count),
        None => Err(ScenarioError::OutOfRange {
            place: Place::Top,
            key: "load",
        }),
    }
}

/// Returns the room that is left after other entries.
fn room_after(array: Option<&Array>, key: &'static str, room: usize) -> Result<usize, ScenarioError>
    ensures fault { IfErr result IsOfSpelling }
    ensures room { MatchResult result
        (λ left. left + entry_count (option_map (λ a. array_data (array_view a.now)) array.entry) ≡ room)
        (λ _. room < entry_count (option_map (λ a. array_data (array_view a.now)) array.entry)) }
{
    let Some(array) = array else {
        return Ok(room);
    };
    let count = items_in(array);
    if count > room {
        return Err(ScenarioError::OutOfRange {
            place: Place::Top,
            key,
        });
    }
    Ok(room - count)
}

/// Returns the arrays of a table, each of tables, and together not too long.
pub(crate) fn arrays_at<'a>(table: &'a Table) -> Result<Arrays<'a>, ScenarioError>
    ensures fault { IfErr result IsOfSpelling }
    ensures has { MatchResult result (λ _. HasArrays (table_view table.now))
        (λ _. HasArrays (table_view table.now) → ⊥) }
    ensures loads { IfOk result (λ a. option_map (λ v. array_data (array_view v.now)) a.loads
        ≡ get_member (codes "load") (table_view table.now)) }
    ensures unloads { IfOk result (λ a. option_map (λ v. array_data (array_view v.now)) a.unloads
        ≡ get_member (codes "unload") (table_view table.now)) }
    ensures corruptions { IfOk result (λ a. option_map (λ v. array_data (array_view v.now)) a.corruptions
        ≡ get_member (codes "corrupt") (table_view table.now)) }
    ensures entries { IfOk result (λ a. option_map (λ v. array_data (array_view v.now)) a.entries
        ≡ get_member (codes "coin") (table_view table.now)) }
{
    let loads = tables_at(table, "load")?;
    let room = room_after_loads(loads, MAX_CHANGES)?;
    let unloads = tables_at(table, "unload")?;
    let room = room_after(unloads, "unload", room)?;
    let corruptions = tables_at(table, "corrupt")?;
    let _left = room_after(corruptions, "corrupt", room)?;
    let entries = tables_at(table, "coin")?;
    let _left = room_after(entries, "coin", MAX_COIN_ENTRIES)?;
    Ok(Arrays {
        loads,
        unloads,
        corruptions,
        entries,
    })
}
