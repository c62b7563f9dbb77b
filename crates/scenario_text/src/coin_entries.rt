//! The entries `[[coin]]`.
ghost use Rattle.scenario_text.specs.declared.refusal.Place.TheVariants.{Coin as CoinAt};
ghost use Rattle.scenario_text.specs.declared.scenario.CoinEntry.{CoinEntry as CoinEntryValue};
ghost use Rattle.scenario_text.specs.Spelling.{SpelledCoin};

use crate::entries::Entry;
use crate::keys::COIN_KEYS;
use crate::refusal::{Place, ScenarioError};
use crate::scenario::CoinEntry;
use crate::setup::Setup;
use crate::table::{knows_keys, number_at};
use std::alloc::Global;
use toml::Table;

impl Entry for CoinEntry {
    ghost Draft = { CoinEntryValue };

    ghost draft_of = { λ entry. entry };

    ghost spelled = { λ frame _. SpelledCoin frame };

    ghost fits = { λ _ _. Unit {0} };

    ghost broken = { λ _ _ _ _. ⊥ };

    ghost place = { CoinAt };

    const KEY: &'static str = "coin";

    fn read(
        _alloc: Global,
        setup: &Setup,
        index: usize,
        table: &Table,
    ) -> Result<CoinEntry, ScenarioError> {
        let place = Place::Coin(index);
        let frame = setup.frame;
        if !knows_keys(table, &COIN_KEYS, None) {
            return Err(ScenarioError::UnknownKey { place });
        }
        let pulse = number_at(table, place, "pulse", 1, frame.pulses as u64)?;
        let node = number_at(table, place, "node", 0, (frame.nodes - 1) as u64)?;
        let value = number_at(table, place, "value", 0, 1)?;
        Ok(CoinEntry {
            pulse: pulse as u32,
            node: node as u32,
            value: value as u32,
        })
    }
}
