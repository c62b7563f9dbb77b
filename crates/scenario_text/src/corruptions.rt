//! The entries `[[corrupt]]`.
ghost use Rattle.std.specs.Prelude.{◌≡◌, List, ℕ, IfOk, IfErr, codes, length};
ghost use Rattle.toml.specs.Data.{get_member};
ghost use Rattle.toml.specs.View.{table_view};
ghost use Rattle.scenario_text.specs.declared.refusal.Place.TheVariants.{Corrupt as CorruptAt};
ghost use Rattle.scenario_text.specs.Drafts.{CorruptDraft};
ghost use Rattle.scenario_text.specs.Views.{corrupt_of};
ghost use Rattle.scenario_text.specs.Faults.{Excludes};
ghost use Rattle.scenario_text.specs.Tables.{IsArray, IsNumber};
ghost use Rattle.scenario_text.specs.Spelling.{SpelledCorrupt};

use crate::entries::Entry;
use crate::keys::CORRUPT_KEYS;
use crate::numbers::{Byte, integers_at, items_of};
use crate::refusal::{Place, ScenarioError};
use crate::scenario::Corrupt;
use crate::setup::Setup;
use crate::table::{knows_keys, number_at};
use std::alloc::Global;
use toml::Table;

/// Returns the image, which has as many bytes as a node's memory.
#[tactic(auto, using(crate::proofs::TableLemmas::reads_length))]
fn image_at(
    alloc: Global,
    table: &Table,
    index: usize,
    memory: u32,
) -> Result<Vec<u8>, ScenarioError>
    ensures image { IfOk result
        (λ bs. IsArray (IsNumber 0 255) (get_member (codes "image") (table_view table.now)) bs.items
        × (length bs.items ≡ memory)) }
    ensures refused { IfErr result (λ e. Excludes e ((bs : List ℕ) →
        IsArray (IsNumber 0 255) (get_member (codes "image") (table_view table.now)) bs → length bs ≡ memory → ⊥)) }
{
    let place = Place::Corrupt(index);
    let array = integers_at(table, place, "image")?;
    if array.len() != memory as usize {
        return Err(ScenarioError::OutOfRange {
            place,
            key: "image",
        });
    }
    items_of(alloc, &Byte, array, place, "image")
}

impl Entry for Corrupt {
    ghost Draft = { CorruptDraft };

    ghost draft_of = { corrupt_of };

    ghost spelled = { λ frame _. SpelledCorrupt frame };

    ghost fits = { λ _ _. Unit {0} };

    ghost broken = { λ _ _ _ _. ⊥ };

    ghost place = { CorruptAt };

    const KEY: &'static str = "corrupt";

    fn read(
        alloc: Global,
        setup: &Setup,
        index: usize,
        table: &Table,
    ) -> Result<Corrupt, ScenarioError> {
        let place = Place::Corrupt(index);
        let frame = setup.frame;
        if !knows_keys(table, &CORRUPT_KEYS, None) {
            return Err(ScenarioError::UnknownKey { place });
        }
        let pulse = number_at(table, place, "pulse", 1, frame.pulses as u64)?;
        let node = number_at(table, place, "node", 0, (frame.nodes - 1) as u64)?;
        let image = image_at(alloc, table, index, frame.memory)?;
        Ok(Corrupt {
            pulse: pulse as u32,
            node: node as u32,
            image,
        })
    }
}
