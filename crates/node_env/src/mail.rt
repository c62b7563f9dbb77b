//! What all nodes sent.
ghost use Rattle.std.specs.Prelude.{◌≡◌, ◌<◌, ◌≤◌, ◌+◌, ◌*◌, IfOk, All, length, take, drop, replicate, slice_index_or, slice_set};
ghost use Rattle.std.specs.FinMap as map;
ghost use Rattle.node_env.specs.Env.{AreNumbers, inbox_of};
ghost use Rattle.node_env.specs.inner.Env.{IsSquare};
ghost use Rattle.node_env.specs.Slots.{map_of};
ghost use Rattle.node_env.specs.inner.Slots.{IsSlotWord, numbers_of, rows_of};

use crate::outbox::Outbox;
use crate::shape::{MAX_NODES, Shape};
use crate::word::{EMPTY, slot_in};
use std::alloc::{AllocError, Global};
use std::marker::Model;

/// What all nodes sent in the last closed pulse: for each sender and each receiver a number of 32 bits, or nothing,
/// as one list of words, in which those to a receiver are side by side, by sender.
#[derive(Drop)]
pub struct Mail {
    nodes: u32,
    words: Vec<u64>,
}

impl Model for Mail {
    ghost use Rattle.std.specs.Prelude.{ℕ, List};
    ghost use Rattle.std.specs.Ordering.{nat_cmp};
    ghost use Rattle.std.specs.FinMap as finite;
    ghost use Rattle.std.specs.Coded.{Coded, coded_list};
    ghost use Rattle.node_env.specs.inner.Codes.{numbers_code};
    ghost use Rattle.node_env.specs.inner.Env.{IsSquare};
    ghost use Rattle.node_env.specs.inner.Slots.{rows_of};

    ghost Value = { List (finite.FinMap nat_cmp ℕ) };

    ghost coded = { coded_list numbers_code };

    ghost view = { λ m. rows_of m.nodes m.words.items };

    ghost invariant = { λ m. IsSquare m.nodes m.words.items };
}

impl Mail {
    /// Returns an empty table: nobody sent anything yet. Fails only if memory runs out.
    pub fn new(alloc: Global, shape: Shape) -> Result<Mail, AllocError>
        ensures { IfOk result (λ mail. mail ≡ replicate shape.nodes map.empty) }
    {
        let nodes = shape.nodes();
        let words = vec![in alloc; EMPTY; place_of(nodes, nodes, 0)]?;
        Ok(Mail { nodes, words })
    }

    /// Returns how many nodes there are: as many rows, each with a place for each node.
    pub fn nodes(&self) -> u32
        ensures value { result ≡ length self.now }
        ensures some { 1 ≤ result }
        ensures few { result ≤ MAX_NODES }
        ensures numbers { All (AreNumbers result) self.now }
    {
        self.nodes
    }

    /// Returns what a node sent to another: both are numbers of nodes.
    pub fn slot(&self, sender: u32, receiver: u32) -> Option<u32>
        requires sender { sender < length self.now }
        requires receiver { receiver < length self.now }
        ensures { result ≡ map.get (slice_index_or self.now sender map.empty) receiver }
    {
        slot_in(self.words[place_of(self.nodes, receiver, sender)])
    }

    /// Returns what came to a node, by sender: a list that `Env::new` takes. Fails only if memory runs out.
    pub fn inbox(&self, alloc: Global, receiver: u32) -> Result<Vec<Option<u32>>, AllocError>
        requires { receiver < length self.now }
        ensures nodes { IfOk result (λ inbox. length inbox.items ≡ length self.now) }
        ensures inbox { IfOk result (λ inbox. map_of inbox.items ≡ inbox_of receiver self.now) }
    {
        let nodes = self.nodes();
        let mut inbox = Vec::with_capacity(alloc, nodes as usize)?;
        for sender in 0..nodes {
            inbox.push(self.slot(sender, receiver))?;
        }
        Ok(inbox)
    }

    /// What came to a node, by sender, as words.
    pub(crate) fn words_to(&self, receiver: u32) -> &[u64]
        requires { receiver < length self.now }
        ensures nodes { length result.now ≡ length self.now }
        ensures inbox { numbers_of result.now ≡ inbox_of receiver self.now }
        ensures words { All IsSlotWord result.now }
    {
        let first = place_of(self.nodes, receiver, 0);
        part(&self.words, first, self.nodes as usize)
    }

    /// Fills a node's slots with those of an outbox, which has a slot for each node.
    pub fn fill(&mut self, sender: u32, outbox: &Outbox)
        requires sender { sender < length self.old }
        requires nodes { outbox.now.nodes ≡ length self.old }
        ensures { self.new ≡ slice_set self.old sender outbox.now.sent }
    {
        write_row(&mut self.words, self.nodes, sender, outbox.words());
    }

    /// Empties a node's slots.
    pub fn clear(&mut self, sender: u32)
        requires { sender < length self.old }
        ensures { self.new ≡ slice_set self.old sender map.empty }
    {
        let empty = [EMPTY; MAX_NODES as usize];
        let row = &empty[..self.nodes as usize];
        write_row(&mut self.words, self.nodes, sender, row);
    }
}

/// The place of a receiver's word from a sender.
fn place_of(nodes: u32, receiver: u32, sender: u32) -> usize
    requires few { nodes ≤ MAX_NODES }
    requires receiver { receiver ≤ nodes }
    requires sender { sender < nodes }
    ensures { result ≡ receiver * nodes + sender }
{
    receiver as usize * nodes as usize + sender as usize
}

/// This many words from a place on.
fn part(words: &[u64], first: usize, count: usize) -> &[u64]
    requires { first + count ≤ length words.now }
    ensures { result.now ≡ take count (drop first words.now) }
{
    &words[first..first + count]
}

/// Writes what a sender sent, to each receiver's words one.
fn write_row(words: &mut [u64], nodes: u32, sender: u32, row: &[u64])
    requires square { IsSquare nodes words.old }
    requires sender { sender < nodes }
    requires row { length row.now ≡ nodes }
    requires words { All IsSlotWord row.now }
    ensures square { IsSquare nodes words.new }
    ensures rows { rows_of nodes words.new ≡ slice_set (rows_of nodes words.old) sender (numbers_of row.now) }
{
    for receiver in 0..nodes {
        words[place_of(nodes, receiver, sender)] = row[receiver as usize];
    }
}
