//! The first pulse in which the run of a counterexample violates agreement.
ghost use Rattle.std.specs.Prelude.{ℕ, List, IfOk, IfSome, string_bytes};
ghost use Rattle.scenario_text.specs.Texts.{ReadsText};
ghost use Rattle.scenario_explorer.specs.Explore.{Disagrees, ViolatesFirst};

use crate::same_bench::of_bed;
use bench_moves::Bed;
use bench_scenario::{judged_of, run_watched, summary_of};
use bench_workers::{Shown, Stop, TrackedThreads, Watcher};
use scenario_text::Scenario;
use std::alloc::{AllocError, Global};
use std::sync::Wait;
use std::thread::Threads;

/// A watcher that looks at nothing.
#[derive(Clone, Copy)]
struct Unwatched;

impl Watcher<()> for Unwatched {
    ghost tells = { λ _ _ _ _ _. Unit {0} };

    ghost stops = { λ _ _ _ _ _. ⊥ };

    fn see(&mut self, _sink: &mut (), _shown: &Shown) -> Result<(), Stop> {
        Ok(())
    }
}

/// The scenario of a counterexample to agreement, and the first pulse in which its run violates agreement.
#[derive(Drop)]
pub(crate) struct Violation {
    pub text: String,
    pub pulse: u64,
}

/// Returns the first pulse of a scenario's run whose verdict on agreement is no.
fn first_violation<T: Threads + Wait + Sync>(
    rt: &T,
    alloc: Global,
    scenario: &Scenario,
) -> Result<Option<u64>, AllocError>
    requires reads { (text : List ℕ) × ReadsText text scenario.now }
    ensures { IfOk result (λ o. IfSome o (ViolatesFirst scenario.now)) }
{
    let mut threads = TrackedThreads::of(rt);
    let Ok(run) = run_watched(&mut threads, alloc, scenario, 1, &mut Unwatched, &mut ()) else {
        return Err(AllocError);
    };
    let judged = judged_of(alloc, scenario, run.records.as_slice())?;
    let summary = summary_of(scenario.modulus, run.records.as_slice(), judged.as_slice());
    match summary.first_disagreement {
        Some(pulse) => Ok(Some(pulse as u64)),
        None => Ok(None),
    }
}

/// Returns the first pulse that violates agreement in the run of the scenario that a text says, if it is of the bed's
/// bench.
fn violated_in<T: Threads + Wait + Sync>(
    rt: &T,
    alloc: Global,
    bed: &Bed,
    text: &str,
) -> Result<Option<u64>, AllocError>
    ensures { IfOk result (λ o. IfSome o (λ pulse. Disagrees bed.now text.now pulse)) }
{
    let Some(scenario) = of_bed(alloc, bed, text)? else {
        return Ok(None);
    };
    first_violation(rt, alloc, &scenario)
}

/// Returns the text of a counterexample with the first pulse that violates agreement, if one does.
pub(crate) fn violation_of<T: Threads + Wait + Sync>(
    rt: &T,
    alloc: Global,
    bed: &Bed,
    text: String,
) -> Result<Option<Violation>, AllocError>
    ensures { IfOk result (λ o. IfSome o (λ shown. Disagrees bed.now (string_bytes shown.text) shown.pulse)) }
{
    match violated_in(rt, alloc, bed, text.as_str())? {
        Some(pulse) => Ok(Some(Violation { text, pulse })),
        None => Ok(None),
    }
}
