//! What the theorem on the built-in clock says of a bench: an answer for all n > 3f, with no search.
ghost use Rattle.std.specs.Prelude.{◌≡◌, IfOk, IfSome, IsTrue, None};
ghost use Rattle.scenario_explorer.specs.Explore.{Begins, IsFindingOf, IsZeroOrEvery, bed_of, theorem_found};

use bench_moves::Bed;
use exploration::Found;
use explored::{ExploreOptions, Form, Question, Starts};
use scenario_text::Scenario;
use sized_answer::may_stabilise_within;
use std::alloc::{AllocError, Global};

/// Returns true if the theorem speaks of the start.
fn speaks_of(start: &Starts) -> bool
    ensures { IsTrue result → IsZeroOrEvery start.now }
{
    match start {
        Starts::Zero | Starts::Every => true,
        Starts::Any(_) => false,
    }
}

/// Returns true if the answer is asked in a form that the theorem has: without odds and without the state space.
fn is_answerable(options: &ExploreOptions) -> bool
    ensures { IsTrue result → options.now.odds ≡ None }
{
    if options.odds.is_some() {
        return false;
    }
    match options.form {
        Form::Text | Form::Json => true,
        Form::OddsTable { .. } | Form::Graph(_) => false,
    }
}

/// Returns true if a bench of the clock has more states than the bound: 2^c or more, where c nodes are loaded.
pub(crate) fn is_past_search(options: &ExploreOptions, bed: &Bed) -> bool {
    let mut states = 1u64;
    for node in 0..bed.shape().nodes() {
        if bed.is_loaded(node) {
            states = states.saturating_mul(2);
        }
    }
    states > u64::from(options.states)
}

/// Returns what was asked, by the theorem.
fn theorem_of(question: Question, within: u64) -> Found
    ensures { result ≡ theorem_found question within }
{
    let pulses = if question.asks_stabilisation() {
        Some(within)
    } else {
        None
    };
    Found::Theorem {
        agrees: question.asks_agreement(),
        pulses,
    }
}

/// Returns what was asked of the bed by the theorem, if it answers: the built-in clock on all but at most f nodes, n > 3f,
/// from zeroed memories or from every start.
pub(crate) fn theorem_on(
    alloc: Global,
    options: &ExploreOptions,
    scenario: &Scenario,
    bed: &Bed,
) -> Result<Option<Found>, AllocError>
    requires { bed.now ≡ bed_of options.now scenario.now }
    ensures { IfOk result (λ o. IfSome o (IsFindingOf options.now bed.now (Begins options.now scenario.now))) }
{
    if bed.is_own() || !is_answerable(options) || !speaks_of(&options.start) {
        return Ok(None);
    }
    let Some(within) = may_stabilise_within(alloc, bed, scenario.rule())? else {
        return Ok(None);
    };
    Ok(Some(theorem_of(options.question, within)))
}
