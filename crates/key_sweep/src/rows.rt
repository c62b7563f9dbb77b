//! The rows of a sweep.
ghost use Rattle.std.specs.Prelude.{◌≡◌, ◌++◌, IfOk, OnOk, map, string_bytes};
ghost use Rattle.csv.specs.Writing.{default_writer, row_text};
ghost use Rattle.key_sweep.specs.Rows.{sweep_names, number_text, summary_row};

use bench_scenario::RunSummary;
use csv::WriterBuilder;
use std::alloc::{AllocError, Global};

/// Returns the row of these fields.
fn row_of(alloc: Global, fields: &[&[u8]]) -> Result<Vec<u8>, AllocError>
    ensures { IfOk result (λ text. text.items ≡ row_text default_writer (map (λ f. f.now) fields.now)) }
{
    let mut writer = WriterBuilder::new().from_writer(Vec::new(alloc));
    if writer.write_fields(fields).is_err() {
        return Err(AllocError);
    }
    writer.into_inner().map_err(|_| AllocError)
}

/// Returns the row of names.
pub(crate) fn names_row(alloc: Global) -> Result<Vec<u8>, AllocError>
    ensures { IfOk result (λ text. text.items ≡ sweep_names) }
{
    row_of(
        alloc,
        &[
            b"key",
            b"agreed",
            b"of",
            b"first_disagreement",
            b"in_step_since",
            b"steps",
        ],
    )
}

/// Returns a number, or nothing.
fn number_text(alloc: Global, number: Option<usize>) -> Result<String, AllocError>
    ensures { IfOk result (λ text. string_bytes text ≡ number_text number) }
{
    match number {
        Some(number) => number.to_string(alloc),
        None => Ok(String::new(alloc)),
    }
}

/// Returns the row of the run with this key.
pub(crate) fn key_row(alloc: Global, key: u64, summary: &RunSummary) -> Result<Vec<u8>, AllocError>
    ensures { IfOk result (λ text. text.items ≡ summary_row key summary.now) }
{
    let name = key.to_string(alloc)?;
    let agreed = summary.agreed.to_string(alloc)?;
    let judged = summary.judged.to_string(alloc)?;
    let disagreed = number_text(alloc, summary.first_disagreement)?;
    let in_step = number_text(alloc, summary.in_step_since)?;
    let steps = summary.steps.to_string(alloc)?;
    row_of(
        alloc,
        &[
            name.as_bytes(),
            agreed.as_bytes(),
            judged.as_bytes(),
            disagreed.as_bytes(),
            in_step.as_bytes(),
            steps.as_bytes(),
        ],
    )
}
