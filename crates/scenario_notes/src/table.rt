//! The table that a rejected text is, and its entries.
ghost use Rattle.std.specs.Prelude.{◌≡◌, option_copied, option_map};
ghost use Rattle.std.specs.Option.{option_and_then};
ghost use Rattle.toml.specs.Data.{at, get_member};
ghost use Rattle.toml.specs.View.{table_view, view};
ghost use Rattle.scenario_notes.specs.Places.{member_entry_at, text_at};

use crate::finding::Sought;
use scenario_text::{Parsed, Place};
use toml::{Table, Value};

/// A rejected text, and what the parser made of it.
#[derive(Clone, Copy)]
pub(crate) struct Source<'a> {
    pub(crate) text: &'a [u8],
    pub(crate) parsed: &'a Parsed,
}

impl<'a> Source<'a> {
    ghost use Rattle.std.specs.Prelude.{IfSome};
    ghost use Rattle.toml.specs.View.{table_view};
    ghost use Rattle.scenario_text.specs.Texts.{IsDocument, IsParsed};

    /// Returns the table of the text, if it is one.
    pub(crate) fn table(self) -> Option<&'a Table>
        requires parsed { IsParsed self.text.now self.parsed.now }
        ensures { IfSome result (λ t. IsDocument self.entry.text.now (table_view t.now)) }
    {
        match self.parsed {
            Parsed::Table(table) => Some(table),
            Parsed::Nothing | Parsed::NotToml(_) => None,
        }
    }
}

/// Returns the array of an entry, and which of its entries it is.
pub(crate) fn array_of(place: Place) -> Option<(&'static str, usize)> {
    match place {
        Place::Top => None,
        Place::Load(index) => Some(("load", index)),
        Place::Unload(index) => Some(("unload", index)),
        Place::Corrupt(index) => Some(("corrupt", index)),
        Place::Coin(index) => Some(("coin", index)),
    }
}

/// Returns a key there.
pub(crate) fn key_at(place: Place, key: &str) -> Sought<'_> {
    Sought {
        entry: array_of(place),
        key: Some(key),
    }
}

/// Returns the value under a key.
fn value_at<'a>(table: &'a Table, key: &str) -> Option<&'a Value>
    ensures { option_map (λ v. view v.now) result ≡ get_member key.now (table_view table.now) }
{
    table.get(key)
}

/// Returns the entry of an array.
fn entry_at<'a>(table: &'a Table, array: &str, index: usize) -> Option<&'a Value>
    ensures { option_map (λ v. view v.now) result ≡ member_entry_at (table_view table.now) array.now index }
{
    value_at(table, array)?.get(index)
}

/// Returns the table there.
pub(crate) fn table_at(table: &Table, place: Place) -> Option<&Table> {
    match array_of(place) {
        None => Some(table),
        Some((array, index)) => entry_at(table, array, index)?.as_table(),
    }
}

/// Returns the text under a key at the top, or of a load.
pub(crate) fn text_at<'a>(table: &'a Table, place: Place, key: &str) -> Option<&'a str>
    ensures { option_copied result ≡ text_at (table_view table.now) place key.now }
{
    match place {
        Place::Top => value_at(table, key)?.as_str(),
        Place::Load(index) => entry_at(table, "load", index)?.get(key)?.as_str(),
        Place::Unload(_) | Place::Corrupt(_) | Place::Coin(_) => None,
    }
}
