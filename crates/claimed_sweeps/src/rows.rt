//! The rows of runs that are judged by properties.

use crate::cells::{claims_row, names_row};
use claimed_runs::judged_run_with_key;
use key_sweep::RowMaker;
use properties::Property;
use scenario_text::Scenario;
use std::alloc::{AllocError, Global};
use std::sync::Wait;
use std::thread::Threads;

/// Makes the row of the run with a key, whose cells are about these properties.
#[derive(Clone, Copy)]
pub(crate) struct ClaimedRows<'a> {
    pub(crate) scenario: &'a Scenario,
    pub(crate) properties: &'a [Property],
}

impl<'a> RowMaker for ClaimedRows<'a> {
    ghost use Rattle.std.specs.Prelude.{ℕ, List};
    ghost use Rattle.scenario_text.specs.Texts.{ReadsText};
    ghost use Rattle.claimed_sweeps.specs.Sweeps.{IsClaimedRow, names_line};

    ghost ready = { λ made. (text : List ℕ) × ReadsText text made.scenario.now };

    ghost first_row = { λ made. names_line made.properties.now };

    ghost is_row = { λ made key row. IsClaimedRow made.scenario.now made.properties.now key row };

    fn names_row(&self, alloc: Global) -> Result<Vec<u8>, AllocError> {
        names_row(alloc, self.properties)
    }

    fn key_row<T: Threads + Wait + Sync>(
        &self,
        rt: &T,
        alloc: Global,
        key: u64,
    ) -> Result<Vec<u8>, AllocError> {
        let properties = self.properties;
        let judged = judged_run_with_key(rt, alloc, self.scenario, properties, key)?;
        claims_row(alloc, key, properties, judged.pulses.as_slice())
    }
}
