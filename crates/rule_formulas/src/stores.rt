//! The numbers of a node at a place of a rule.
ghost use Rattle.std.specs.Prelude.{◌≡◌, ◌≤◌, length, take, IfSome};
ghost use Rattle.rule_paths.specs.Stores as paths;
ghost use Rattle.rule_formulas.specs.Numbers.{expression};
ghost use Rattle.rule_formulas.specs.Stores.{store_from, written_store};

use crate::numbers::{MAX_VARIABLES, Number};
use rule_syntax::Target;

/// A number that is assigned.
#[derive(Clone, Copy, Debug, PartialEq, Eq)]
pub struct Write {
    pub target: Target,
    pub number: Number,
}

/// What a node's lets and words are: its variables before the pulse, from a first one on, and what was assigned since.
#[derive(Clone, Copy)]
pub enum Store<'a> {
    Start(u32),
    Written(&'a [Write], &'a Store<'a>),
}

/// Returns what a let is after the first n assignments.
fn local_in(writes: &[Write], n: usize, k: u32, before: Number) -> Number
    requires { n ≤ length writes.now }
    ensures { (s : paths.Store) → expression before ≡ s.locals k →
        expression result ≡ (store_from (take n writes.now) s).locals k }
{
    if n == 0 {
        return before;
    }
    let write = writes[n - 1];
    if write.target == Target::ToLocal(k) {
        write.number
    } else {
        local_in(writes, n - 1, k, before)
    }
}

/// Returns what a word is after the first n assignments.
fn word_in(writes: &[Write], n: usize, k: u32, before: Number) -> Number
    requires { n ≤ length writes.now }
    ensures { (s : paths.Store) → expression before ≡ s.words k →
        expression result ≡ (store_from (take n writes.now) s).words k }
{
    if n == 0 {
        return before;
    }
    let write = writes[n - 1];
    if write.target == Target::ToWord(k) {
        write.number
    } else {
        word_in(writes, n - 1, k, before)
    }
}

/// Returns what a let is.
pub fn local_now<'a>(store: &'a Store<'a>, k: u32) -> Number
    ensures { expression result ≡ (written_store store.now).locals k }
{
    match store {
        Store::Start(_start) => Number::Constant(0),
        Store::Written(writes, before) => local_in(writes, writes.len(), k, local_now(before, k)),
    }
}

/// Returns what a word is.
pub fn word_now<'a>(store: &'a Store<'a>, k: u32) -> Option<Number>
    ensures { IfSome result (λ x. expression x ≡ (written_store store.now).words k) }
{
    match store {
        Store::Start(start) => {
            if *start < MAX_VARIABLES && k < MAX_VARIABLES {
                Some(Number::Variable(*start + 3 + k))
            } else {
                None
            }
        }
        Store::Written(writes, before) => match word_now(before, k) {
            Some(number) => Some(word_in(writes, writes.len(), k, number)),
            None => None,
        },
    }
}

/// Returns the node's number.
#[tactic(auto, using(crate::proofs::StoreLists::from_me))]
pub fn me_now<'a>(store: &'a Store<'a>) -> Number
    ensures { expression result ≡ (written_store store.now).me }
{
    match store {
        Store::Start(start) => Number::Variable(*start),
        Store::Written(_writes, before) => me_now(before),
    }
}

/// Returns the node's coin.
#[tactic(auto, using(crate::proofs::StoreLists::from_coin))]
pub fn coin_now<'a>(store: &'a Store<'a>) -> Option<Number>
    ensures { IfSome result (λ x. expression x ≡ (written_store store.now).coin) }
{
    match store {
        Store::Start(start) => {
            if *start < MAX_VARIABLES {
                Some(Number::Variable(*start + 1))
            } else {
                None
            }
        }
        Store::Written(_writes, before) => coin_now(before),
    }
}
