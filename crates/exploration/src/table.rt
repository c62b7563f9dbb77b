//! The odds of each number of pulses, as a table.
ghost use Rattle.std.specs.Prelude.{◌≡◌, IfOk, drop, string_bytes};
ghost use Rattle.exploration.specs.Answers.{odds_row, odds_table_text};

use explored::ODDS_WHOLE;
use std::alloc::{AllocError, Global};

/// Returns the line of a number of pulses.
fn odds_row(alloc: Global, pulses: u64, at_least: u64) -> Result<String, AllocError>
    ensures { IfOk result (λ text. string_bytes text ≡ odds_row pulses at_least) }
{
    format!(in alloc; "{pulses},{at_least},{ODDS_WHOLE}\n")
}

/// Returns the entries from this one on.
fn entries_from(parts: &[u64], first: u32) -> &[u64]
    ensures { result.now ≡ drop first parts.now }
{
    let first = first as usize;
    if first < parts.len() {
        &parts[first..]
    } else {
        &[]
    }
}

/// Returns the odds of each number of pulses from the first on, as CSV.
pub fn odds_table(alloc: Global, first: u32, parts: &[u64]) -> Result<String, AllocError>
    ensures { IfOk result (λ text. string_bytes text ≡ odds_table_text first parts.now) }
{
    let mut text = String::from_str(alloc, "pulses,at_least,of\n")?;
    for (place, at_least) in entries_from(parts, first).iter().enumerate() {
        let pulses = u64::from(first) + place as u64;
        let row = odds_row(alloc, pulses, *at_least)?;
        text.push_str(row.as_str())?;
    }
    Ok(text)
}
