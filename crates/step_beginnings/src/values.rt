//! Numbers and conditions of a claim, in the state that begins a step.
ghost use Rattle.std.specs.Prelude.{◌≡◌, IfSome, IsTrue};
ghost use Rattle.node_env.specs.Env.{Setting};
ghost use Rattle.rule_meaning.specs.Meaning.{word_at};
ghost use Rattle.step_searches.specs.Claims.{coins_meet, meets, quantity, total};
ghost use Rattle.step_beginnings.specs.Beginnings.{free_numbers, beginning_sizes, beginning_state};

use crate::beginning::Beginning;
use step_searches::{Coins, Condition, Quantity, Total};

/// Returns a word of a memory, if it has that many.
fn word_at(memory: &[u8], k: u32) -> Option<u64>
    ensures { IfSome result (λ word. word ≡ word_at k memory.now) }
{
    let at = 4 * k as usize;
    if at + 3 >= memory.len() {
        return None;
    }
    let high = u64::from(memory[at + 2]) + 256 * u64::from(memory[at + 3]);
    Some(u64::from(memory[at]) + 256 * (u64::from(memory[at + 1]) + 256 * high))
}

/// Returns the number of a free name, if it has one.
fn free_at(free: &[u32], k: u32) -> Option<u64>
    ensures { IfSome result (λ number. number ≡ free_numbers free.now k) }
{
    let place = k as usize;
    if place < free.len() {
        Some(u64::from(free[place]))
    } else {
        None
    }
}

/// Returns a number of two nodes that are in this state.
fn quantity(beginning: &Beginning, x: Quantity) -> Option<u64>
    ensures { IfSome result (λ number. number ≡ quantity (beginning_sizes beginning.now) (free_numbers beginning.now.free.items)
        (beginning_state beginning.now) (beginning_state beginning.now) x) }
{
    match x {
        Quantity::Number(c) => Some(u64::from(c)),
        Quantity::Nodes => Some(u64::from(beginning.nodes)),
        Quantity::Faults => Some(u64::from(beginning.faults)),
        Quantity::Modulus => Some(u64::from(beginning.modulus)),
        Quantity::Free(k) => free_at(&beginning.free, k),
        Quantity::FirstSent | Quantity::SecondSent => Some(u64::from(beginning.sent)),
        Quantity::FirstWord(k) | Quantity::SecondWord(k) => word_at(&beginning.memory, k),
    }
}

/// Returns a sum, if 64 bits hold it.
fn total(beginning: &Beginning, sum: &Total) -> Option<u64>
    ensures { IfSome result (λ number. number ≡ total (beginning_sizes beginning.now) (free_numbers beginning.now.free.items)
        (beginning_state beginning.now) (beginning_state beginning.now) sum.now) }
{
    match sum {
        Total::Zero => Some(0),
        Total::Plus(x, rest) => {
            let first = quantity(beginning, *x)?;
            let others = total(beginning, rest)?;
            first.checked_add(others)
        }
    }
}

/// Returns true only if two nodes that are in this state meet a condition.
pub(crate) fn meets(beginning: &Beginning, condition: &Condition) -> bool
    ensures { IsTrue result → IsTrue (meets (beginning_sizes beginning.now) (free_numbers beginning.now.free.items) condition.now
        (beginning_state beginning.now) (beginning_state beginning.now)) }
{
    match condition {
        Condition::Anything => true,
        Condition::AtMost(a, b) => match (total(beginning, a), total(beginning, b)) {
            (Some(low), Some(high)) => low <= high,
            _ => false,
        },
        Condition::Both(a, b) => meets(beginning, a) && meets(beginning, b),
        Condition::Either(a, b) => meets(beginning, a) || meets(beginning, b),
    }
}

/// Returns a coin of a step, if there is one.
pub(crate) fn coin_of(beginning: &Beginning, coins: Coins) -> Option<u64>
    ensures { IfSome result (λ coin. (env : Setting) → env.coin ≡ coin
        → IsTrue (coins_meet (free_numbers beginning.now.free.items) coins env)) }
{
    match coins {
        Coins::Any => Some(0),
        Coins::Fixed(c) => Some(u64::from(c)),
        Coins::Named(k) => free_at(&beginning.free, k),
    }
}
