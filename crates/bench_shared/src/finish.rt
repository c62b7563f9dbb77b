//! The end of a shared bench: its history beside the receipts.
ghost use Rattle.std.specs.Prelude.{◌≡◌, ◌+◌, ◌==◌, ◌++◌, map, length, All, IsTrue, count_by, option_to_list};
ghost use Rattle.std.specs.List.{sum_by};
ghost use Rattle.bench_core.specs.declared.actor.Actor.TheVariants.{Loader, Engine};
ghost use Rattle.bench_core.specs.Replay.{rows_of};
ghost use Rattle.bench_core.specs.Views.{entry_of};
ghost use Rattle.bench_shared.specs.Ends.{placed_by, EachOnce, is_close, is_load};
ghost use Rattle.bench_shared.specs.Receipts.{placed_of, placed_receipts};

use crate::passes::{EnginePass, LoaderPass, Receipt};
use bench_core::{Actor, Change, Entry};
use std::marker::Model;
use std::sync::ledger::Ledger;

/// The history of a shared bench that has ended.
#[derive(Drop)]
pub struct Finished {
    history: Vec<Entry>,
}

impl Model for Finished {
    ghost use Rattle.std.specs.Prelude.{List, map};
    ghost use Rattle.bench_core.specs.Replay.{Entry};
    ghost use Rattle.bench_core.specs.Views.{entry_of};

    ghost Value = { List Entry };

    ghost view = { λ f. map entry_of f.history.items };
}

/// Returns true if the entry stages a load.
fn stages_a_load(entry: &Entry) -> bool
    ensures { result ≡ is_load (entry_of entry.now) }
{
    match entry {
        Entry::Staged { actor: _, change } => matches!(change, Change::Load { .. }),
        Entry::Opened { .. } | Entry::Closed { .. } | Entry::Abandoned => false,
    }
}

/// Returns true if the entry closes a pulse.
fn closes_a_pulse(entry: &Entry) -> bool
    ensures { result ≡ is_close (entry_of entry.now) }
{
    matches!(entry, Entry::Closed { .. })
}

/// Returns how many of these entries stage a load.
fn count_loads(history: &[Entry]) -> usize
    ensures { result ≡ count_by (λ entry. is_load (entry_of entry)) history.now }
{
    let mut count = 0;
    for entry in history {
        if stages_a_load(entry) {
            count += 1;
        }
    }
    count
}

/// Returns how many of these entries close a pulse.
fn count_closes(history: &[Entry]) -> usize
    ensures { result ≡ count_by (λ entry. is_close (entry_of entry)) history.now }
{
    let mut count = 0;
    for entry in history {
        if closes_a_pulse(entry) {
            count += 1;
        }
    }
    count
}

impl Finished {
    pub(crate) fn of(history: Vec<Entry>) -> Finished
        ensures { result ≡ map entry_of history.items }
    {
        Finished { history }
    }

    /// Returns all that was done, in order.
    pub fn history(&self) -> &[Entry]
        ensures { map entry_of result.now ≡ self.now }
    {
        &self.history
    }

    /// Returns how many loads were staged.
    pub fn loads(&self) -> usize
        ensures { result ≡ count_by is_load self.now }
    {
        count_loads(&self.history)
    }

    /// Returns how many pulses were closed.
    pub fn closes(&self) -> usize
        ensures { result ≡ count_by is_close self.now }
    {
        count_closes(&self.history)
    }
}

/// Returns true if the receipt is for this entry at this place.
fn is_for(receipt: &Receipt, place: usize, entry: &Entry) -> bool
    ensures { IsTrue result → placed_of receipt.now ≡ (place, entry_of entry.now) }
{
    receipt.place == place && receipt.entry.is(entry)
}

/// Returns true if the receipts are for the entries of the actor, in order, at their places.
fn are_for(history: &[Entry], actor: Actor, receipts: &[Receipt]) -> bool
    ensures { IsTrue result → placed_by actor (map entry_of history.now) ≡ placed_receipts receipts.now }
{
    let mut count = 0;
    for (place, entry) in history.iter().enumerate() {
        if entry.is_by(actor) {
            let Some(receipt) = receipts.get(count) else {
                return false;
            };
            if !is_for(receipt, place, entry) {
                return false;
            }
            count += 1;
        }
    }
    count == receipts.len()
}

/// Returns true if the engine's receipts are for its entries.
fn engine_is_for<B: Ledger, C: Ledger>(history: &[Entry], engine: &EnginePass<B, C>) -> bool
    ensures entries { IsTrue result → placed_by Engine (map entry_of history.now) ≡ engine.now.receipts }
    ensures rows { IsTrue result
        → rows_of (map entry_of history.now) ≡ engine.now.posted ++ option_to_list engine.now.owed }
{
    are_for(history, Actor::Engine, engine.receipts())
}

/// Returns true if the loader's receipts are for its entries.
fn loader_is_for<B: Ledger, C: Ledger>(history: &[Entry], pass: &LoaderPass<B, C>) -> bool
    ensures { IsTrue result → placed_by (Loader pass.now.number) (map entry_of history.now) ≡ pass.now.receipts }
{
    are_for(history, Actor::Loader(pass.number), pass.receipts())
}

/// Returns true if each loader's receipts are for its entries.
fn loaders_are_for<B: Ledger, C: Ledger>(history: &[Entry], loaders: &[LoaderPass<B, C>]) -> bool
    ensures { IsTrue result
        → All (λ p. placed_by (Loader p.number) (map entry_of history.now) ≡ p.receipts) loaders.now }
{
    for pass in loaders {
        if !loader_is_for(history, pass) {
            return false;
        }
    }
    true
}

/// Returns true if this many receipts are all that the loaders have.
fn have<B: Ledger, C: Ledger>(loaders: &[LoaderPass<B, C>], count: usize) -> bool
    ensures { IsTrue result → sum_by (λ p. length p.receipts) loaders.now ≡ count }
{
    let mut left = count;
    for pass in loaders {
        let receipts = pass.receipts.len();
        if left < receipts {
            return false;
        }
        left -= receipts;
    }
    left == 0
}

/// Returns how many loaders have this number.
fn numbered<B: Ledger, C: Ledger>(loaders: &[LoaderPass<B, C>], number: u32) -> usize
    ensures { result ≡ count_by (λ p. p.number == number) loaders.now }
{
    loaders.iter().filter(|pass| pass.number == number).count()
}

/// Returns true if the numbers below `count` are the loaders', each once.
fn are_numbered<B: Ledger, C: Ledger>(loaders: &[LoaderPass<B, C>], count: u32) -> bool
    ensures number { IsTrue result → length loaders.now ≡ count }
    ensures once { IsTrue result → EachOnce count loaders.now }
{
    for n in 0..count {
        if numbered(loaders, n) != 1 {
            return false;
        }
    }
    loaders.len() == count as usize
}

/// Returns true if the receipts are the history's: every entry of each actor, in order and at its place, and no other.
pub(crate) fn are_all<B: Ledger, C: Ledger>(
    history: &[Entry],
    engine: &EnginePass<B, C>,
    loaders: &[LoaderPass<B, C>],
    count: u32,
) -> bool
    ensures engine { IsTrue result → placed_by Engine (map entry_of history.now) ≡ engine.now.receipts }
    ensures loaders { IsTrue result
        → All (λ p. placed_by (Loader p.number) (map entry_of history.now) ≡ p.receipts) loaders.now }
    ensures number { IsTrue result → length loaders.now ≡ count }
    ensures once { IsTrue result → EachOnce count loaders.now }
    ensures all { IsTrue result
        → length history.now ≡ length engine.now.receipts + sum_by (λ p. length p.receipts) loaders.now }
    ensures rows { IsTrue result
        → rows_of (map entry_of history.now) ≡ engine.now.posted ++ option_to_list engine.now.owed }
{
    let receipts = engine.receipts();
    are_numbered(loaders, count)
        && engine_is_for(history, engine)
        && loaders_are_for(history, loaders)
        && receipts.len() <= history.len()
        && have(loaders, history.len() - receipts.len())
}
