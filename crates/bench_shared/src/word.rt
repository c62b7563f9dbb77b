//! A row as one word of 64 bits. The word 0 is no row.
ghost use Rattle.std.specs.Prelude.{◌≡◌, None, Some};
ghost use Rattle.bench_core.specs.Told.{Row as RowValue, IsPulseRow};
ghost use Rattle.bench_shared.specs.inner.Rows.{short_of, row_word};

use bench_core::{CLOCKS_DIFFER, MAX_BENCH_PULSES, MAX_COUNTED, Row};
use clock_nodes::MAX_MODULUS;

/// What one node at zero, one of the common clock and one pulse add to a word. One settled node adds 1.
pub(crate) const ZERO_UNIT: u64 = 128;

pub(crate) const COMMON_UNIT: u64 = 16_384;

pub(crate) const PULSE_UNIT: u64 = 2_147_483_648;

/// Returns the common clock in a word. For clocks that differ it is the least number that no clock is.
fn short(common: u32) -> u64
    ensures { result ≡ short_of common }
{
    if common < MAX_MODULUS {
        u64::from(common)
    } else {
        u64::from(MAX_MODULUS)
    }
}

/// Returns the word of a row.
pub(crate) fn word(row: Row) -> u64
    ensures word { result ≡ row_word row }
    ensures ranges { IsPulseRow row }
{
    u64::from(row.pulse) * PULSE_UNIT
        + short(row.common) * COMMON_UNIT
        + u64::from(row.zeros) * ZERO_UNIT
        + u64::from(row.settled)
}

/// Returns the row of a word, or none of a word that isn't a row's.
pub(crate) fn row(word: u64) -> Option<Row>
    ensures none { word ≡ 0 → result ≡ None }
    ensures some { (r : RowValue) → IsPulseRow r → word ≡ row_word r → result ≡ Some r }
{
    let pulse = word / PULSE_UNIT;
    let common = word % PULSE_UNIT / COMMON_UNIT;
    let zeros = word % COMMON_UNIT / ZERO_UNIT;
    let settled = word % ZERO_UNIT;
    if pulse == 0
        || pulse > u64::from(MAX_BENCH_PULSES)
        || common > u64::from(MAX_MODULUS)
        || zeros > u64::from(MAX_COUNTED)
        || settled > u64::from(MAX_COUNTED)
    {
        return None;
    }
    let common = if common == u64::from(MAX_MODULUS) {
        CLOCKS_DIFFER
    } else {
        common as u32
    };
    Some(Row {
        pulse: pulse as u32,
        common,
        zeros: zeros as u32,
        settled: settled as u32,
    })
}
