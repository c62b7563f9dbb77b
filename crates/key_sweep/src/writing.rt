//! Rows of keys, written block by block.
ghost use Rattle.std.specs.Prelude.{◌≡◌, ◌≤◌, IfErr};
ghost use Rattle.stream_io.specs.Parts.{HasPartCause};
ghost use Rattle.key_sweep.specs.KeyRows.{LeavesRows};

use crate::block::block_of;
use crate::maker::RowMaker;
use parameters::KeySpan;
use std::alloc::Global;
use std::sync::Wait;
use std::thread::Threads;
use stream_io::{PartFault, Sink, write_part};

/// The most workers that are of use: one for each key that is shared out at once.
pub const MAX_SWEEPERS: u32 = 64;

/// How many keys are shared out at once: this many rows are written together.
const KEYS_AT_ONCE: u64 = MAX_SWEEPERS as u64;

/// Writes the row of names, and then that of each key, block by block. Each of at most this many workers makes whole rows;
/// if no thread can be started, the caller's makes them.
pub(crate) fn write_rows<T: Threads + Wait + Sync, R: RowMaker + Sync, W: Sink>(
    rt: &T,
    alloc: Global,
    maker: &R,
    keys: KeySpan,
    workers: u32,
    writer: &mut W,
) -> Result<(), PartFault>
    requires ready { R.ready maker.now }
    requires workers { 1 ≤ workers }
    ensures left { LeavesRows (R.is_row maker.now) (R.first_row maker.now) (W.contents writer.old)
        (W.contents writer.new) keys result }
    ensures cause { IfErr result (HasPartCause (W.has_failed writer.new)) }
{
    let Ok(names) = maker.names_row(alloc) else {
        return Err(PartFault::Memory);
    };
    let mut told = write_part(writer, 0, names.as_slice())?;
    let mut next = keys.first();
    let past = keys.last() + 1;
    while next < past {
        let count = (past - next).min(KEYS_AT_ONCE);
        let Ok(block) = block_of(rt, alloc, maker, workers, next, count as usize) else {
            return Err(PartFault::Memory);
        };
        told = write_part(writer, told, block.text.as_slice())?;
        if block.rows < count {
            return Err(PartFault::Memory);
        }
        next += count;
    }
    Ok(())
}
