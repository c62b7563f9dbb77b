//! What the keys of a table hold.
ghost use Rattle.std.specs.Prelude.{◌≡◌, ◌≤◌, ◌^◌, ◌<◌, ◌++◌, ℕ, Bool, List, Some, IfErr, MatchResult, IfOk, map, option_map, option_to_list, is_ok, is_some, string_bytes};
ghost use Rattle.std.specs.BTreeMap.{keys};
ghost use Rattle.std.specs.List.{list_all, list_any};
ghost use Rattle.std.specs.Str.{bytes_eq};
ghost use Rattle.toml.specs.Data.{get_member, array as array_data};
ghost use Rattle.toml.specs.View.{view, table_view, array_view};
ghost use Rattle.scenario_text.specs.inner.Arrays.{are_tables, is_table, all_tables};
ghost use Rattle.scenario_text.specs.inner.Faults.{IsOfSpelling};
ghost use Rattle.scenario_text.specs.Keys.{key_name, names_of};
ghost use Rattle.scenario_text.specs.Spelling.{MayHaveFlag};
ghost use Rattle.scenario_text.specs.Tables.{HasNumber, knows, text_under};

use crate::keys::Key;
use crate::refusal::{Place, ScenarioError};
use std::alloc::{AllocError, Global};
use toml::value::Array;
use toml::{Table, Value};

/// Returns the value under a key.
pub(crate) fn value_at<'a>(table: &'a Table, key: &str) -> Option<&'a Value>
    ensures { option_map (λ v. view v.now) result ≡ get_member key.now (table_view table.now) }
{
    table.get(key)
}

/// Returns the text under a key, if the key holds one.
pub(crate) fn text_at(alloc: Global, table: &Table, key: &str) -> Result<Option<String>, AllocError>
    ensures { IfOk result (λ text. option_map (λ t. string_bytes t) text ≡ text_under key.now (table_view table.now)) }
{
    let Some(value) = value_at(table, key) else {
        return Ok(None);
    };
    let Some(text) = value.as_str() else {
        return Ok(None);
    };
    Ok(Some(String::from_str(alloc, text)?))
}

fn is_one_of(known: &[Key], name: &str) -> bool
    ensures { result ≡ list_any (λ key. bytes_eq (key_name key) name.now) known.now }
{
    known.iter().any(|key| key.name() == name)
}

fn is_known(known: &[Key], more: Option<Key>, name: &str) -> bool
    ensures { result ≡ list_any (λ key. bytes_eq (key_name key) name.now) (known.now ++ option_to_list more) }
{
    match more {
        None => is_one_of(known, name),
        Some(key) => is_one_of(known, name) || key.name() == name,
    }
}

fn has_keys(table: &Table, known: &[Key], more: Option<Key>) -> bool
    ensures { result ≡ list_all (λ name. list_any (λ key. bytes_eq (key_name key) (string_bytes name))
        (known.now ++ option_to_list more)) (keys table.now) }
{
    table
        .keys()
        .all(|name| is_known(known, more, name.as_str()))
}

/// Returns true if each key of the table is one of these, or the other one.
#[tactic(auto, using(crate::proofs::TableLemmas::keys_known))]
pub(crate) fn knows_keys(table: &Table, known: &[Key], more: Option<Key>) -> bool
    ensures { result ≡ knows (names_of (known.now ++ option_to_list more)) (table_view table.now) }
{
    has_keys(table, known, more)
}

/// Returns the number under a key that has to be there, in its range.
pub(crate) fn number_at(
    table: &Table,
    place: Place,
    key: &'static str,
    low: u64,
    high: u64,
) -> Result<u64, ScenarioError>
    ensures fault { IfErr result IsOfSpelling }
    ensures number { MatchResult result (λ n. HasNumber (table_view table.now) key.entry.now low high n)
        (λ _. (n : ℕ) → HasNumber (table_view table.now) key.entry.now low high n → ⊥) }
{
    let Some(value) = value_at(table, key) else {
        return Err(ScenarioError::MissingKey { place, key });
    };
    let Some(signed) = value.as_integer() else {
        return Err(ScenarioError::WrongKind { place, key });
    };
    match u64::try_from(signed) {
        Ok(number) if low <= number && number <= high => Ok(number),
        _ => Err(ScenarioError::OutOfRange { place, key }),
    }
}

/// Returns the flag under a top key: false if the key is absent.
pub(crate) fn flag_at(table: &Table, key: &'static str) -> Result<bool, ScenarioError>
    ensures fault { IfErr result IsOfSpelling }
    ensures flag { MatchResult result (MayHaveFlag (table_view table.now) key.entry.now)
        (λ _. (flag : Bool) → MayHaveFlag (table_view table.now) key.entry.now flag → ⊥) }
{
    let Some(value) = value_at(table, key) else {
        return Ok(false);
    };
    match value.as_bool() {
        Some(flag) => Ok(flag),
        None => Err(ScenarioError::WrongKind {
            place: Place::Top,
            key,
        }),
    }
}

fn is_all_tables(array: &Array) -> bool
    ensures { result ≡ list_all (λ v. is_table (view v)) array.now.items }
{
    array.iter().all(|value| value.is_table())
}

#[tactic(auto, using(crate::proofs::TableLemmas::tables_by_values))]
fn has_all_tables(array: &Array) -> bool
    ensures { result ≡ all_tables (array_view array.now) }
{
    is_all_tables(array)
}

/// Returns the array of tables under a top key, if the key is there.
pub(crate) fn tables_at<'a>(
    table: &'a Table,
    key: &'static str,
) -> Result<Option<&'a Array>, ScenarioError>
    ensures fault { IfErr result IsOfSpelling }
    ensures tables { is_ok result ≡ are_tables (get_member key.entry.now (table_view table.now)) }
    ensures array { IfOk result (λ found.
        option_map (λ a. array_data (array_view a.now)) found ≡ get_member key.entry.now (table_view table.now)) }
{
    let place = Place::Top;
    let Some(value) = value_at(table, key) else {
        return Ok(None);
    };
    let Some(array) = value.as_array() else {
        return Err(ScenarioError::WrongKind { place, key });
    };
    if !has_all_tables(array) {
        return Err(ScenarioError::WrongKind { place, key });
    }
    Ok(Some(array))
}
