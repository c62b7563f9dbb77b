//! Words of 64 bits that represent slots: a number of 32 bits, or empty.
ghost use Rattle.std.specs.Prelude.{◌≡◌, unwrap_or};
ghost use Rattle.node_env.specs.declared.env.TheConstants.{NO_MAIL};
ghost use Rattle.node_env.specs.inner.Slots.{word_slot};

use crate::env::NO_MAIL;

/// The word of an empty slot: the least number that doesn't have 32 bits.
pub const EMPTY: u64 = 4294967296;

/// Returns the slot that a word represents.
pub fn slot_in(word: u64) -> Option<u32>
    ensures { result ≡ word_slot word }
{
    if word < EMPTY {
        Some(word as u32)
    } else {
        None
    }
}

/// Returns what `recv` answers for the slot that a word represents.
#[inline(always)]
pub fn number_in(word: u64) -> u32
    ensures { result ≡ unwrap_or (word_slot word) NO_MAIL }
{
    word.min(u64::from(NO_MAIL)) as u32
}
