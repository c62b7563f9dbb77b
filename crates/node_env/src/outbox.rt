//! What a node sends in a pulse.
ghost use Rattle.std.specs.Prelude.{◌≡◌, ◌<◌, ◌≤◌, ℕ, All, IfOk, None, length};
ghost use Rattle.std.specs.FinMap as map;
ghost use Rattle.node_env.specs.Env.{IsSendings};
ghost use Rattle.node_env.specs.inner.Slots.{IsSlotWord, numbers_of};

use crate::shape::Shape;
use crate::word::{EMPTY, slot_in};
use std::alloc::{AllocError, Global};
use std::marker::Model;

/// What a node sends: for each node a number of 32 bits, or nothing, as one row of words.
#[derive(Drop)]
pub struct Outbox {
    words: Vec<u64>,
}

impl Model for Outbox {
    ghost use Rattle.std.specs.Prelude.{length};
    ghost use Rattle.node_env.specs.inner.Codes.{sendings_code};
    ghost use Rattle.node_env.specs.Env.{Sendings};
    ghost use Rattle.node_env.specs.inner.Env.{IsRow};
    ghost use Rattle.node_env.specs.inner.Slots.{numbers_of};

    ghost Value = { Sendings };

    ghost coded = { sendings_code };

    ghost view = { λ o. record { nodes = length o.words.items; sent = numbers_of o.words.items } };

    ghost invariant = { λ o. IsRow o.words.items };
}

impl Outbox {
    /// Returns an empty outbox. Fails only if memory runs out.
    #[tactic(auto, using(crate::proofs::Rows::words))]
    pub fn new(alloc: Global, shape: Shape) -> Result<Outbox, AllocError>
        ensures nodes { IfOk result (λ outbox. outbox.nodes ≡ shape.nodes) }
        ensures empty { IfOk result (λ outbox. outbox.sent ≡ map.empty) }
    {
        Ok(Outbox {
            words: vec![in alloc; EMPTY; shape.nodes() as usize]?,
        })
    }

    /// Returns the number of slots, one for each node.
    pub fn nodes(&self) -> u32
        ensures value { result ≡ self.now.nodes }
        ensures sendings { IsSendings self.now }
    {
        self.words.len() as u32
    }

    /// Returns what was sent to a node last. The receiver is the number of a node.
    #[tactic(auto, using(crate::proofs::Rows::words))]
    pub fn slot(&self, receiver: u32) -> Option<u32>
        requires { receiver < self.now.nodes }
        ensures value { result ≡ map.get self.now.sent receiver }
        ensures none_past { (k : ℕ) → self.now.nodes ≤ k → map.get self.now.sent k ≡ None }
    {
        slot_in(self.words[receiver as usize])
    }

    /// Sends a number to a node, in place of what was sent to it before. The receiver is the number of a node.
    #[tactic(auto, using(crate::proofs::Rows::words))]
    pub fn send(&mut self, receiver: u32, value: u32)
        requires { receiver < self.old.nodes }
        ensures nodes { self.new.nodes ≡ self.old.nodes }
        ensures sent { self.new.sent ≡ map.insert self.old.sent receiver value }
    {
        self.words[receiver as usize] = u64::from(value);
    }

    /// Empties all slots.
    #[tactic(auto, using(crate::proofs::Rows::words))]
    pub fn clear(&mut self)
        ensures nodes { self.new.nodes ≡ self.old.nodes }
        ensures empty { self.new.sent ≡ map.empty }
    {
        self.words.fill(EMPTY);
    }

    /// Takes over what another outbox with as many slots has.
    pub fn copy_from(&mut self, other: &Outbox)
        requires { other.now.nodes ≡ self.old.nodes }
        ensures { self.new ≡ other.now }
    {
        self.words.copy_from_slice(&other.words);
    }

    /// The words that represent the slots.
    pub(crate) fn words(&self) -> &[u64]
        ensures nodes { length result.now ≡ self.now.nodes }
        ensures sent { numbers_of result.now ≡ self.now.sent }
        ensures words { All IsSlotWord result.now }
    {
        &self.words
    }
}
