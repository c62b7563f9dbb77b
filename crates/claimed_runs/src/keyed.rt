//! A run with another key whose closed pulses are judged by properties.
ghost use Rattle.std.specs.Prelude.{ℕ, IfOk, List};
ghost use Rattle.scenario_text.specs.Texts.{ReadsText};
ghost use Rattle.bench_scenario.specs.Coins.{keyed};
ghost use Rattle.claimed_runs.specs.Runs.{IsJudgedRun};
ghost use Rattle.properties.specs.Claims.{claimed_in};

use crate::judged::JudgedRun;
use crate::nodes::sizes_of;
use crate::watcher::ClaimsWatcher;
use bench_scenario::run_watched_with_key;
use properties::Property;
use scenario_text::Scenario;
use std::alloc::{AllocError, Global};
use std::sync::Wait;
use std::thread::Threads;

/// Runs a scenario in the caller's thread, with this key in place of its own, and judges each closed pulse by the
/// properties.
pub fn judged_run_with_key<T: Threads + Wait + Sync>(
    rt: &T,
    alloc: Global,
    scenario: &Scenario,
    properties: &[Property],
    key: u64,
) -> Result<JudgedRun, AllocError>
    requires reads { (text : List ℕ) × ReadsText text scenario.now }
    ensures { IfOk result (λ judged. IsJudgedRun (keyed scenario.now key) properties.now judged.run.records.items
        (claimed_in judged.pulses.items)) }
{
    let sizes = sizes_of(scenario);
    let mut watcher = ClaimsWatcher::new(alloc, properties, sizes);
    let run = run_watched_with_key(rt, alloc, scenario, key, &mut watcher, &mut ())?;
    Ok(JudgedRun {
        run,
        pulses: watcher.pulses,
    })
}
