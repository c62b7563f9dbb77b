//! Arrays of numbers: a wrong kind of an item comes before the length, and the length before a range.
ghost use Rattle.std.specs.Prelude.{◌≡◌, ℕ, IfOk, IfErr, MatchOption, List, Option, Some, is_some};
ghost use Rattle.std.specs.List.{list_all};
ghost use Rattle.toml.specs.Data.{Data, array as array_data, as_integer, get_member};
ghost use Rattle.toml.specs.View.{view, table_view, array_view};
ghost use Rattle.scenario_text.specs.Faults.{Excludes};
ghost use Rattle.scenario_text.specs.inner.Faults.{IsOfSpelling};
ghost use Rattle.scenario_text.specs.Tables.{IsNumber, IsArray, ReadsEach};
ghost use Rattle.scenario_text.specs.Spelling.{IsSaid};

use crate::refusal::{Place, ScenarioError};
use crate::table::value_at;
use std::alloc::{AllocError, Global};
use toml::value::Array;
use toml::{Table, Value};

fn are_integers(array: &Array) -> bool
    ensures { result ≡ list_all (λ v. is_some (as_integer (view v))) array.now.items }
{
    array.iter().all(|value| value.is_integer())
}

/// Returns the array of integers under a key.
#[tactic(auto, using(crate::proofs::TableLemmas::numbers_are_integers, crate::proofs::TableLemmas::said_are_integers))]
pub(crate) fn integers_at<'a>(
    table: &'a Table,
    place: Place,
    key: &'static str,
) -> Result<&'a Array, ScenarioError>
    ensures fault { IfErr result IsOfSpelling }
    ensures array { IfOk result (λ a. get_member key.entry.now (table_view table.now)
        ≡ Some (array_data (array_view a.now))) }
    ensures no_numbers { IfErr result (λ _. (high : ℕ) (ns : List ℕ) →
        IsArray (IsNumber 0 high) (get_member key.entry.now (table_view table.now)) ns → ⊥) }
    ensures no_said { IfErr result (λ _. (vs : List (Option ℕ)) →
        IsArray IsSaid (get_member key.entry.now (table_view table.now)) vs → ⊥) }
{
    let Some(value) = value_at(table, key) else {
        return Err(ScenarioError::MissingKey { place, key });
    };
    let Some(array) = value.as_array() else {
        return Err(ScenarioError::WrongKind { place, key });
    };
    if !are_integers(array) {
        return Err(ScenarioError::WrongKind { place, key });
    }
    Ok(array)
}

/// What each item of an array of integers is read as.
pub(crate) trait ItemReader {
    type Item: Drop;

    /// The item is this.
    ghost reads: { Self → Data → Self.Item → Type 0 };

    fn read(&self, value: &Value) -> Option<Self::Item>
        ensures { MatchOption result ((x : Self.Item) → reads self.now (view value.now) x → ⊥)
            (reads self.now (view value.now)) };
}

/// A number up to this one.
#[derive(Clone, Copy)]
pub(crate) struct UpTo(pub(crate) u32);

impl ItemReader for UpTo {
    type Item = u32;

    ghost reads = { λ most. IsNumber 0 most.0 };

    fn read(&self, value: &Value) -> Option<u32> {
        let most = self.0;
        let Some(signed) = value.as_integer() else {
            return None;
        };
        match u32::try_from(signed) {
            Ok(number) if number <= most => Some(number),
            _ => None,
        }
    }
}

/// A byte.
#[derive(Clone, Copy)]
pub(crate) struct Byte;

impl ItemReader for Byte {
    type Item = u8;

    ghost reads = { λ _. IsNumber 0 255 };

    fn read(&self, value: &Value) -> Option<u8> {
        let Some(signed) = value.as_integer() else {
            return None;
        };
        u8::try_from(signed).ok()
    }
}

/// A number to be sent, or nothing.
#[derive(Clone, Copy)]
pub(crate) struct Said;

impl ItemReader for Said {
    type Item = Option<u32>;

    ghost reads = { λ _. IsSaid };

    fn read(&self, value: &Value) -> Option<Option<u32>> {
        let Some(signed) = value.as_integer() else {
            return None;
        };
        if signed == -1 {
            return Some(None);
        }
        match u32::try_from(signed) {
            Ok(number) => Some(Some(number)),
            _ => None,
        }
    }
}

/// Returns the items of an array.
pub(crate) fn items_of<R: ItemReader>(
    alloc: Global,
    reader: &R,
    array: &Array,
    place: Place,
    key: &'static str,
) -> Result<Vec<R::Item>, ScenarioError>
    ensures items { IfOk result (λ items. ReadsEach (R.reads reader.now) (array_view array.now) items.items) }
    ensures refused { IfErr result (λ e. Excludes e ((items : List R.Item)
        → ReadsEach (R.reads reader.now) (array_view array.now) items → ⊥)) }
{
    let mut items = Vec::new(alloc);
    for value in array.iter() {
        let Some(item) = reader.read(value) else {
            return Err(ScenarioError::OutOfRange { place, key });
        };
        items
            .push(item)
            .map_err(|_| ScenarioError::Memory(AllocError))?;
    }
    Ok(items)
}
