//! The rows of a scenario's runs.

use crate::maker::RowMaker;
use crate::rows::{key_row, names_row};
use bench_scenario::{judged_of, run_with_key, summary_of};
use scenario_text::Scenario;
use std::alloc::{AllocError, Global};
use std::sync::Wait;
use std::thread::Threads;

/// Makes the row of the run with a key.
#[derive(Clone, Copy)]
pub(crate) struct RunRows<'a> {
    pub(crate) scenario: &'a Scenario,
}

impl<'a> RowMaker for RunRows<'a> {
    ghost use Rattle.std.specs.Prelude.{ℕ, List};
    ghost use Rattle.scenario_text.specs.Texts.{ReadsText};
    ghost use Rattle.key_sweep.specs.Rows.{sweep_names};
    ghost use Rattle.key_sweep.specs.Sweeps.{IsRowOfKey};

    ghost ready = { λ made. (text : List ℕ) × ReadsText text made.scenario.now };

    ghost first_row = { λ _. sweep_names };

    ghost is_row = { λ made key row. IsRowOfKey made.scenario.now key row };

    fn names_row(&self, alloc: Global) -> Result<Vec<u8>, AllocError> {
        names_row(alloc)
    }

    fn key_row<T: Threads + Wait + Sync>(
        &self,
        rt: &T,
        alloc: Global,
        key: u64,
    ) -> Result<Vec<u8>, AllocError> {
        let scenario = self.scenario;
        let run = run_with_key(rt, alloc, scenario, key)?;
        let records = run.records.as_slice();
        let judged = judged_of(alloc, scenario, records)?;
        let summary = summary_of(scenario.modulus, records, judged.as_slice());
        key_row(alloc, key, &summary)
    }
}
