//! The readers of the top keys.
ghost use Rattle.std.specs.Prelude.{◌≡◌, ◌≤◌, ◌<◌, ◌^◌, ℕ, Option, IfOk, IfErr, MatchResult};
ghost use Rattle.clock_nodes.specs.Rule.{IsRule};
ghost use Rattle.node_env.specs.Env.{IsExtent};
ghost use Rattle.toml.specs.View.{table_view};
ghost use Rattle.scenario_text.specs.declared.scenario.Coins.{Coins as CoinsValue};
ghost use Rattle.scenario_text.specs.declared.scenario.Frame.{Frame as FrameValue};
ghost use Rattle.scenario_text.specs.inner.Faults.{IsOfSpelling};
ghost use Rattle.scenario_text.specs.inner.Names.{coins_named, kind_named};
ghost use Rattle.scenario_text.specs.Spelling.{HasFrame, HasVersion, HasCoins, HasKey};

use crate::limits::{FIRST_MAX_NODES, FIRST_VERSION, LAST_VERSION, MAX_KEY, MAX_PULSES};
use crate::refusal::{Place, ScenarioError};
use crate::scenario::{Coins, Frame, Kind};
use crate::table::{flag_at, number_at, value_at};
use clock_nodes::{LEAST_MODULUS, MAX_MODULUS};
use node_env::{MAX_MEMORY, MAX_NODES, MEMORY_UNIT};
use toml::Table;

/// Returns the version, which is the first if it isn't told.
pub(crate) fn version_at(table: &Table) -> Result<u64, ScenarioError>
    ensures fault { IfErr result IsOfSpelling }
    ensures version { MatchResult result (HasVersion (table_view table.now))
        (λ _. (version : ℕ) → HasVersion (table_view table.now) version → ⊥) }
{
    if value_at(table, "version").is_none() {
        return Ok(FIRST_VERSION);
    }
    number_at(table, Place::Top, "version", FIRST_VERSION, LAST_VERSION)
}

pub(crate) fn coins_named(name: &str) -> Option<Coins>
    ensures { result ≡ coins_named name.now }
{
    if name == "zeros" {
        Some(Coins::Zeros)
    } else if name == "ones" {
        Some(Coins::Ones)
    } else if name == "chacha" {
        Some(Coins::Chacha)
    } else {
        None
    }
}

pub(crate) fn kind_named(name: &str) -> Option<Kind>
    ensures { result ≡ kind_named name.now }
{
    if name == "clock" {
        Some(Kind::Clock)
    } else if name == "say" {
        Some(Kind::Say)
    } else if name == "echo" {
        Some(Kind::Echo)
    } else if name == "asm" {
        Some(Kind::Asm)
    } else if name == "rule" {
        Some(Kind::Rule)
    } else if name == "noise" {
        Some(Kind::Noise)
    } else {
        None
    }
}

/// Returns the coins.
#[tactic(auto, using(crate::proofs::NameLemmas::coins_by_name, crate::proofs::NameLemmas::no_coins))]
pub(crate) fn coins_at(table: &Table) -> Result<Coins, ScenarioError>
    ensures fault { IfErr result IsOfSpelling }
    ensures coins { MatchResult result (HasCoins (table_view table.now))
        (λ _. (coins : CoinsValue) → HasCoins (table_view table.now) coins → ⊥) }
{
    let place = Place::Top;
    let key = "coins";
    let Some(value) = value_at(table, "coins") else {
        return Err(ScenarioError::MissingKey { place, key });
    };
    let Some(name) = value.as_str() else {
        return Err(ScenarioError::WrongKind { place, key });
    };
    match coins_named(name) {
        Some(coins) => Ok(coins),
        None => Err(ScenarioError::OutOfRange { place, key }),
    }
}

/// Returns the key, which chacha alone needs.
pub(crate) fn key_at(table: &Table, coins: Coins) -> Result<Option<u64>, ScenarioError>
    ensures fault { IfErr result IsOfSpelling }
    ensures key { MatchResult result (HasKey (table_view table.now) coins)
        (λ _. (key : Option ℕ) → HasKey (table_view table.now) coins key → ⊥) }
{
    let is_absent = value_at(table, "key").is_none();
    match coins {
        Coins::Zeros | Coins::Ones if is_absent => Ok(None),
        _ => {
            let key = number_at(table, Place::Top, "key", 0, MAX_KEY)?;
            Ok(Some(key))
        }
    }
}

/// Returns the numbers of the top keys.
#[tactic(auto, using(crate::proofs::FrameLemmas::no_version, crate::proofs::FrameLemmas::no_nodes, crate::proofs::FrameLemmas::no_faults, crate::proofs::FrameLemmas::no_units, crate::proofs::FrameLemmas::no_flag, crate::proofs::FrameLemmas::frame_extent, crate::proofs::FrameLemmas::frame_rule))]
pub(crate) fn frame_at(table: &Table) -> Result<Frame, ScenarioError>
    ensures fault { IfErr result IsOfSpelling }
    ensures frame { MatchResult result (HasFrame (table_view table.now))
        (λ _. (f : FrameValue) → HasFrame (table_view table.now) f → ⊥) }
    ensures extent { IfOk result (λ f. IsExtent f.nodes f.memory) }
    ensures rule { IfOk result (λ f. IsRule f.nodes f.faults f.modulus) }
{
    let place = Place::Top;
    let version = version_at(table)?;
    let most = if version == FIRST_VERSION {
        FIRST_MAX_NODES
    } else {
        MAX_NODES as u64
    };
    let nodes = number_at(table, place, "nodes", 1, most)?;
    let faults = number_at(table, place, "faults", 0, nodes - 1)?;
    let modulus = number_at(
        table,
        place,
        "modulus",
        LEAST_MODULUS as u64,
        MAX_MODULUS as u64,
    )?;
    let memory = number_at(
        table,
        place,
        "memory",
        MEMORY_UNIT as u64,
        MAX_MEMORY as u64,
    )?;
    if memory % MEMORY_UNIT as u64 != 0 {
        return Err(ScenarioError::OutOfRange {
            place,
            key: "memory",
        });
    }
    let pulses = number_at(table, place, "pulses", 1, MAX_PULSES)?;
    let zero_agrees = flag_at(table, "zero_agrees")?;
    Ok(Frame {
        version: version as u32,
        nodes: nodes as u32,
        faults: faults as u32,
        modulus: modulus as u32,
        memory: memory as u32,
        pulses: pulses as u32,
        zero_agrees,
    })
}
