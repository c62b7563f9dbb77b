//! The entries `[[unload]]`.
ghost use Rattle.scenario_text.specs.declared.refusal.Place.TheVariants.{Unload as UnloadAt};
ghost use Rattle.scenario_text.specs.declared.scenario.Unload.{Unload as UnloadValue};
ghost use Rattle.scenario_text.specs.Spelling.{SpelledUnload};

use crate::entries::Entry;
use crate::keys::UNLOAD_KEYS;
use crate::refusal::{Place, ScenarioError};
use crate::scenario::Unload;
use crate::setup::Setup;
use crate::table::{knows_keys, number_at};
use std::alloc::Global;
use toml::Table;

impl Entry for Unload {
    ghost Draft = { UnloadValue };

    ghost draft_of = { λ unload. unload };

    ghost spelled = { λ frame _. SpelledUnload frame };

    ghost fits = { λ _ _. Unit {0} };

    ghost broken = { λ _ _ _ _. ⊥ };

    ghost place = { UnloadAt };

    const KEY: &'static str = "unload";

    fn read(
        _alloc: Global,
        setup: &Setup,
        index: usize,
        table: &Table,
    ) -> Result<Unload, ScenarioError> {
        let place = Place::Unload(index);
        let frame = setup.frame;
        if !knows_keys(table, &UNLOAD_KEYS, None) {
            return Err(ScenarioError::UnknownKey { place });
        }
        let pulse = number_at(table, place, "pulse", 1, frame.pulses as u64)?;
        let node = number_at(table, place, "node", 0, (frame.nodes - 1) as u64)?;
        Ok(Unload {
            pulse: pulse as u32,
            node: node as u32,
        })
    }
}
