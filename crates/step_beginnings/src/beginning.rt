//! States that begin steps.
ghost use Rattle.std.specs.Prelude.{◌*◌, ◌^◌, ◌<◌, ◌≤◌, All, IsTrue, length};
ghost use Rattle.step_searches.specs.Claims.{claim_of};
ghost use Rattle.step_beginnings.specs.Beginnings.{IsBegunAt, NumbersFit, free_numbers, beginning_sizes};

use crate::values::{coin_of, meets};
use step_searches::Step;

/// A bench whose nodes are all correct and in one state: its sizes, the numbers of the free names, and of each node the
/// memory and the number that it sent to all.
#[derive(Drop)]
pub struct Beginning {
    pub nodes: u32,
    pub faults: u32,
    pub modulus: u32,
    pub free: Vec<u32>,
    pub sent: u32,
    pub memory: Vec<u8>,
}

/// Returns true if the memory has room for this many words.
fn has_room(beginning: &Beginning, words: u32) -> bool
    ensures room { IsTrue result → 4 * words ≤ length beginning.now.memory.items }
{
    beginning.memory.len() >= 4 * words as usize
}

/// States that a memory has bytes.
fn are_bytes(memory: &[u8])
    ensures { All (λ byte. byte < 256) memory.now }
{}

/// States that 32 bits hold a number.
fn has_32_bits(number: u32)
    ensures { number < 2 ^ 32 }
{
    let _number = number;
}

/// States that the numbers of a beginning fit their types.
fn numbers_fit(beginning: &Beginning)
    ensures { NumbersFit beginning.now }
{
    has_32_bits(beginning.nodes);
    has_32_bits(beginning.faults);
    has_32_bits(beginning.modulus);
    has_32_bits(beginning.sent);
    are_bytes(&beginning.memory);
}

/// Returns true only if the nodes of a beginning begin the step.
#[tactic(auto, using(crate::proofs::Begun::begun))]
pub fn begins(step: &Step, beginning: &Beginning) -> bool
    ensures { IsTrue result → IsBegunAt (claim_of step.now (free_numbers beginning.now.free.items))
        (beginning_sizes beginning.now) }
{
    numbers_fit(beginning);
    let Some(coin) = coin_of(beginning, step.coins) else {
        return false;
    };
    if coin > 1 {
        return false;
    }
    if beginning.nodes == 0 {
        return false;
    }
    if !has_room(beginning, step.words) {
        return false;
    }
    meets(beginning, &step.before)
}
