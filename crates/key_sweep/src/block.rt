//! The rows of a block of keys, shared out to workers.
ghost use Rattle.std.specs.Prelude.{◌≡◌, ℕ, ◌+◌, ◌<◌, ◌≤◌, ◌^◌, IfOk, IfSome, length, slice_get, Some};
ghost use Rattle.std.specs.Thread.{IsSync};
ghost use Rattle.key_sweep.specs.inner.Blocks.{AreSlots, IsBlock, front_rows};
ghost use Rattle.key_sweep.specs.KeyRows.{joined_rows};

use crate::maker::RowMaker;
use std::alloc::{AllocError, Global};
use std::sync::Wait;
use std::thread;
use std::thread::Threads;

/// Rows, one after the other, and how many they are.
#[derive(Drop)]
pub(crate) struct Block {
    pub(crate) text: Vec<u8>,
    pub(crate) rows: u64,
}

/// Returns this many slots that are empty.
fn empty_slots(alloc: Global, count: usize) -> Result<Vec<Option<Vec<u8>>>, AllocError>
    ensures { IfOk result (λ slots. length slots.items ≡ count) }
{
    let mut slots = Vec::with_capacity(alloc, count)?;
    for _ in 0..count {
        slots.push(None)?;
    }
    Ok(slots)
}

/// Returns the row of each of this many keys, in their order, by at most this many workers.
fn slots_of<T: Threads + Wait + Sync, R: RowMaker + Sync>(
    rt: &T,
    alloc: Global,
    maker: &R,
    workers: u32,
    first: u64,
    count: usize,
) -> Result<Vec<Option<Vec<u8>>>, AllocError>
    requires ready { R.ready maker.now }
    requires workers { 1 ≤ workers }
    requires last { first + count ≤ 2 ^ 63 }
    ensures { IfOk result (λ slots. AreSlots (R.is_row maker.now) first count slots.items) }
{
    let mut slots = empty_slots(alloc, count)?;
    let fill = |place: usize, slot: &mut Option<Vec<u8>>|
        requires sync { IsSync T.row }
        requires ready { R.ready maker.now }
        requires last { first + place < 2 ^ 63 }
        ensures { IfSome slot.new (λ row. R.is_row maker.entry.now (first + place) row.items) }
    {
        *slot = maker.key_row(rt, alloc, first + place as u64).ok();
    };
    thread::for_each_mut(rt, slots.as_mut_slice(), workers as usize, &fill);
    Ok(slots)
}

/// Returns the rows up to the first that is missing.
fn front_of(alloc: Global, slots: &[Option<Vec<u8>>]) -> Result<Block, AllocError>
    ensures text { IfOk result (λ block. block.text.items ≡ joined_rows (front_rows slots.now)) }
    ensures rows { IfOk result (λ block. block.rows ≡ length (front_rows slots.now)) }
{
    let mut text = Vec::new(alloc);
    let mut rows = 0;
    for slot in slots {
        match slot {
            Some(row) => {
                text.extend_from_slice(row.as_slice())?;
                rows += 1;
            }
            None => break,
        }
    }
    Ok(Block { text, rows })
}

/// Returns the rows of this many keys, up to the first for which there was no memory.
pub(crate) fn block_of<T: Threads + Wait + Sync, R: RowMaker + Sync>(
    rt: &T,
    alloc: Global,
    maker: &R,
    workers: u32,
    first: u64,
    count: usize,
) -> Result<Block, AllocError>
    requires ready { R.ready maker.now }
    requires workers { 1 ≤ workers }
    requires last { first + count ≤ 2 ^ 63 }
    ensures { IfOk result (λ block. IsBlock (R.is_row maker.now) first count block.text.items block.rows) }
{
    let slots = slots_of(rt, alloc, maker, workers, first, count)?;
    front_of(alloc, slots.as_slice())
}
