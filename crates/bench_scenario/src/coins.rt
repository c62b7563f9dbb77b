//! The coins of a scenario.
ghost use Rattle.std.specs.Prelude.{◌≡◌, ℕ, ◌+◌, ◌-◌, ◌*◌, ◌<◌, ◌≤◌, ◌^◌, ◌%◌, ◌==◌, ◌&&◌, if◌then◌else◌, IfOk, map};
ghost use Rattle.rand_chacha.specs.ChaCha.{key_of};
ghost use Rattle.bench_scenario.specs.Coins.{coin_at, coins_in_pulse, drawn, keyed, places_below, replaced, seed_of};

use rand_chacha::ChaCha8Rng;
use rand_core::SeedableRng;
use rand_core::utils::NextWord;
use scenario_text::{CoinEntry, Coins, Scenario};
use std::alloc::{AllocError, Global};

/// The stream of the generator from which coins are drawn.
const COIN_STREAM: u64 = 0;

/// Returns the words that a key gives in a stream, from a place on.
pub(crate) fn generator_at(key: u64, stream: u64, place: u64) -> ChaCha8Rng
    ensures { result ≡ record { key = key_of (seed_of key); stream = stream; word_pos = place } }
{
    let mut seed = [0u8; 32];
    seed[..8].copy_from_slice(&key.to_le_bytes());
    let mut generator = ChaCha8Rng::from_seed(seed);
    generator.set_stream(stream);
    generator.set_word_pos(place as u128);
    generator
}

/// Returns the coins of the key from a place on.
fn chacha_coins(alloc: Global, key: u64, place: u64, count: u32) -> Result<Vec<u32>, AllocError>
    ensures { IfOk result (λ coins. coins.items ≡ map (λ node. coin_at key (place + node)) (places_below count)) }
{
    let mut generator = generator_at(key, COIN_STREAM, place);
    let mut coins = Vec::with_capacity(alloc, count as usize)?;
    for _ in 0..count {
        coins.push(generator.next_word() & 1)?;
    }
    Ok(coins)
}

/// Returns the coins from a place on. Words are drawn only where they decide.
fn drawn_coins(
    alloc: Global,
    coins: Coins,
    key: u64,
    place: u64,
    count: u32,
) -> Result<Vec<u32>, AllocError>
    ensures { IfOk result (λ drawn_ones. drawn_ones.items ≡ map
        (λ node. drawn coins key (place + node)) (places_below count)) }
{
    match coins {
        Coins::Zeros => vec![in alloc; 0; count as usize],
        Coins::Ones => vec![in alloc; 1; count as usize],
        Coins::Chacha => chacha_coins(alloc, key, place, count),
    }
}

/// Sets the coin of an entry of this pulse.
fn replace_coin(coins: &mut [u32], entry: &CoinEntry, pulse: u32)
    ensures { (f : ℕ → ℕ) (n : ℕ) → coins.old ≡ map f (places_below n)
        → coins.new ≡ map (λ node. if (entry.now.pulse == pulse) && (entry.now.node == node)
        then entry.now.value else f node) (places_below n) }
{
    if entry.pulse != pulse {
        return;
    }
    let node = entry.node as usize;
    if node < coins.len() {
        coins[node] = entry.value;
    }
}

/// Replaces the coins of a pulse that have entries, each by its last.
fn replace_coins(coins: &mut [u32], entries: &[CoinEntry], pulse: u32)
    ensures { (f : ℕ → ℕ) (n : ℕ) → coins.old ≡ map f (places_below n)
        → coins.new ≡ map (λ node. replaced entries.now pulse node (f node)) (places_below n) }
{
    for entry in entries {
        replace_coin(coins, entry, pulse);
    }
}

/// Returns the coins of a pulse, by node, if the scenario has this key.
pub(crate) fn coins_of(
    alloc: Global,
    scenario: &Scenario,
    key: u64,
    pulse: u32,
) -> Result<Vec<u32>, AllocError>
    requires { 1 ≤ pulse }
    ensures { IfOk result (λ coins. coins.items ≡ coins_in_pulse (keyed scenario.now key) pulse) }
{
    let place = (pulse - 1) as u64 * scenario.nodes as u64;
    let mut coins = drawn_coins(alloc, scenario.coins, key, place, scenario.nodes)?;
    replace_coins(coins.as_mut_slice(), scenario.entries.as_slice(), pulse);
    Ok(coins)
}
