//! The loads of noise: whether there is a key to draw from, and in how many pulses their nodes may have noise.
ghost use Rattle.std.specs.Prelude.{◌≡◌, ◌↔◌, ◌≤◌, ◌^◌, ◌-◌, IfErr, IsTrue, MatchResult, map, min};
ghost use Rattle.std.specs.List.{list_any};
ghost use Rattle.scenario_text.specs.inner.Faults.{IsOfSpelling};
ghost use Rattle.scenario_text.specs.Noise.{HasNoise, is_noise, noise_count, noise_pulses};
ghost use Rattle.scenario_text.specs.Views.{load_draft};

use crate::limits::MAX_NOISE;
use crate::refusal::{Place, ScenarioError};
use crate::scenario::Load;

/// Returns true if a load is one of noise.
pub(crate) fn any_noise(loads: &[Load]) -> bool
    ensures { result ≡ list_any (λ l. is_noise l.kind) loads.now }
{
    loads.iter().any(|load| load.kind.is_noise())
}

/// Returns in how many pulses the nodes of a load may have noise.
fn noise_pulses(load: &Load, pulses: u32) -> u64
    ensures { result ≡ min (noise_pulses pulses (load_draft load.now)) (2 ^ 64 - 1) }
{
    if load.kind.is_noise() {
        let left = (u64::from(pulses) + 1).saturating_sub(u64::from(load.pulse));
        (load.nodes.len() as u64).saturating_mul(left)
    } else {
        0
    }
}

/// Returns true if the loads have as few pulses of noise as there may be.
fn is_little_noise(loads: &[Load], pulses: u32) -> bool
    ensures { IsTrue result ↔ (noise_count pulses (map load_draft loads.now) ≤ MAX_NOISE) }
{
    let mut room = MAX_NOISE as u64;
    for load in loads {
        let count = noise_pulses(load, pulses);
        if count > room {
            return false;
        }
        room -= count;
    }
    true
}

/// Refuses noise without a key, and too much noise.
#[tactic(auto, using(crate::proofs::NoiseLemmas::any_loads))]
pub(crate) fn judge_noise(
    loads: &[Load],
    key: Option<u64>,
    pulses: u32,
) -> Result<(), ScenarioError>
    ensures fault { IfErr result IsOfSpelling }
    ensures noise { MatchResult result (λ _. HasNoise key pulses (map load_draft loads.now))
        (λ _. HasNoise key pulses (map load_draft loads.now) → ⊥) }
{
    if key.is_none() && any_noise(loads) {
        return Err(ScenarioError::MissingKey {
            place: Place::Top,
            key: "key",
        });
    }
    if !is_little_noise(loads, pulses) {
        return Err(ScenarioError::OutOfRange {
            place: Place::Top,
            key: "load",
        });
    }
    Ok(())
}
