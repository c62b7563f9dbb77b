//! What a node's program sees in a pulse.
ghost use Rattle.std.specs.Prelude.{◌≡◌, ◌+◌, ◌≤◌, ◌<◌, ◌↔◌, ℕ, false, length, get_or, All, IfOk, IsTrue};
ghost use Rattle.node_env.specs.declared.env.TheConstants.{WORDS_AT_ONCE};
ghost use Rattle.node_env.specs.Env.{IsSetting, inbox_of, received, setting_of};
ghost use Rattle.node_env.specs.Slots.{map_of, IsSlot};
ghost use Rattle.node_env.specs.inner.Slots.{IsSlotWord, numbers_of};

use crate::mail::Mail;
use crate::shape::Shape;
use crate::word::number_in;
use std::alloc::{AllocError, Global};
use std::marker::Model;

/// What `recv` answers for no messages.
pub const NO_MAIL: u32 = 4294967295;

/// Where an inbox is, by sender.
#[derive(Drop)]
enum Inbox {
    Slots(Vec<Option<u32>>),
    /// As they are in the messages.
    Words(Vec<u64>),
}

impl Inbox {
    ghost use Rattle.std.specs.Prelude.{unwrap_or};
    ghost use Rattle.std.specs.FinMap.{get};
    ghost use Rattle.node_env.specs.inner.Env.{mail_in, slot_count};

    /// The mail from a node, or `NO_MAIL`.
    #[inline(always)]
    #[tactic(auto, using(crate::proofs::Slots::slots, crate::proofs::Rows::words))]
    fn recv(&self, sender: u32) -> u32
        requires { sender < slot_count self.now }
        ensures { result ≡ unwrap_or (get (mail_in self.now) sender) NO_MAIL }
    {
        match self {
            Inbox::Slots(slots) => slots[sender as usize].unwrap_or(NO_MAIL),
            Inbox::Words(words) => number_in(words[sender as usize]),
        }
    }
}

/// The list of an inbox that is no longer wanted, which another is put in.
#[derive(Drop)]
pub struct InboxRoom {
    words: Vec<u64>,
}

impl InboxRoom {
    /// Returns an empty list.
    pub fn new(alloc: Global) -> InboxRoom {
        InboxRoom {
            words: Vec::new(alloc),
        }
    }
}

/// What one node sees in a pulse: the shape, its own number, the message from each node in the last closed pulse, and
/// the coin.
#[derive(Drop)]
pub struct Env {
    shape: Shape,
    id: u32,
    inbox: Inbox,
    coin: u32,
}

impl Model for Env {
    ghost use Rattle.std.specs.Prelude.{◌≡◌};
    ghost use Rattle.std.specs.Coded.{Coded};
    ghost use Rattle.node_env.specs.inner.Codes.{setting_code};
    ghost use Rattle.node_env.specs.Env.{Setting, IsSetting};
    ghost use Rattle.node_env.specs.inner.Env.{IsFit, mail_in, slot_count};

    ghost Value = { Setting };

    ghost coded = { setting_code };

    ghost view = { λ e. record { shape = e.shape; id = e.id; inbox = mail_in e.inbox; coin = e.coin } };

    ghost invariant = { λ e. (slot_count e.inbox ≡ e.shape.nodes) × IsFit e.inbox ×
        IsSetting (record { shape = e.shape; id = e.id; inbox = mail_in e.inbox; coin = e.coin }) };
}

/// Contracts see a slot's number as any number; this says that it has 32 bits.
fn slot_fits(slot: Option<u32>)
    ensures { IsSlot slot }
{}

/// Says the same of each slot. It reads each: of a list of options no call brings what it doesn't read, as one of a
/// list of bytes does.
fn slots_fit(slots: &[Option<u32>])
    ensures { All IsSlot slots.now }
{
    for slot in slots {
        slot_fits(*slot);
    }
}

impl Env {
    /// Returns what a node sees, of an inbox with a slot for each node: its message, or none. The id is the number of a
    /// node, and the coin is 0 or 1.
    #[tactic(auto, using(crate::proofs::Slots::slots))]
    pub fn new(shape: Shape, id: u32, inbox: Vec<Option<u32>>, coin: u32) -> Env
        requires id { id < shape.nodes }
        requires inbox { length inbox.items ≡ shape.nodes }
        requires coin { coin < 2 }
        ensures shape { result.shape ≡ shape }
        ensures id { result.id ≡ id }
        ensures inbox { result.inbox ≡ map_of inbox.items }
        ensures coin { result.coin ≡ coin }
    {
        slots_fit(&inbox);
        Env {
            shape,
            id,
            inbox: Inbox::Slots(inbox),
            coin,
        }
    }

    /// Returns what a node sees in a pulse with these messages and this coin. The id is the number of a node, and the
    /// coin is 0 or 1. Fails only if memory runs out.
    pub fn with_mail(
        alloc: Global,
        shape: Shape,
        id: u32,
        mail: &Mail,
        coin: u32,
    ) -> Result<Env, AllocError>
        requires id { id < shape.nodes }
        requires mail { length mail.now ≡ shape.nodes }
        requires coin { coin < 2 }
        ensures { IfOk result (λ env. env ≡ setting_of shape id mail.now coin) }
    {
        Env::with_mail_in(InboxRoom::new(alloc), shape, id, mail, coin)
    }

    /// Does as `with_mail`, in the list of an inbox that is no longer used.
    pub fn with_mail_in(
        room: InboxRoom,
        shape: Shape,
        id: u32,
        mail: &Mail,
        coin: u32,
    ) -> Result<Env, AllocError>
        requires id { id < shape.nodes }
        requires mail { length mail.now ≡ shape.nodes }
        requires coin { coin < 2 }
        ensures { IfOk result (λ env. env ≡ setting_of shape id mail.now coin) }
    {
        let mut words = room.words;
        words.clear();
        words.extend_from_slice(mail.words_to(id))?;
        Ok(Env {
            shape,
            id,
            inbox: Inbox::Words(words),
            coin,
        })
    }

    /// Returns the list of its inbox for further use: an empty one, if the inbox was made of slots.
    pub fn into_inbox_room(self, alloc: Global) -> InboxRoom {
        match self.inbox {
            Inbox::Words(words) => InboxRoom { words },
            Inbox::Slots(_) => InboxRoom::new(alloc),
        }
    }

    /// Returns the shape: how many nodes there are, and how much memory each has.
    pub fn shape(&self) -> Shape
        ensures shape { result ≡ self.now.shape }
        ensures setting { IsSetting self.now }
    {
        self.shape
    }

    /// Returns the node's own number.
    pub fn id(&self) -> u32
        ensures value { result ≡ self.now.id }
        ensures below { result < self.now.shape.nodes }
    {
        self.id
    }

    /// Returns the message from a node of the shape, or `NO_MAIL` for none. A message of `NO_MAIL` reads alike.
    pub fn recv(&self, sender: u32) -> u32
        requires { sender < self.now.shape.nodes }
        ensures { result ≡ received self.now sender }
    {
        self.inbox.recv(sender)
    }

    /// Returns 0 or 1, the same at each call.
    pub fn coin(&self) -> u32
        ensures value { result ≡ self.now.coin }
        ensures bit { result < 2 }
    {
        self.coin
    }

    /// Returns whether this is what a node sees in a pulse: its shape, its number, what came to it, and its coin. A
    /// message of `NO_MAIL` and none differ here.
    pub fn sees(&self, shape: Shape, id: u32, mail: &Mail, coin: u32) -> bool
        requires { length mail.now ≡ shape.nodes }
        ensures { IsTrue result ↔ (self.now ≡ setting_of shape id mail.now coin) }
    {
        if self.shape != shape || self.id != id || self.coin != coin {
            return false;
        }
        match &self.inbox {
            Inbox::Slots(slots) => is_inbox(slots, mail, id),
            Inbox::Words(words) => are_alike(words, mail.words_to(id)),
        }
    }

    /// Returns true only if another node sees the same, except for its number. It returns false if an inbox was made of
    /// slots.
    pub fn sees_alike(&self, other: &Env) -> bool
        ensures { IsTrue result → self.now ≡ record other.now { id = self.now.id } }
    {
        if self.coin != other.coin || self.shape != other.shape {
            return false;
        }
        match (&self.inbox, &other.inbox) {
            (Inbox::Words(words), Inbox::Words(others)) => surely_same(words, others),
            (Inbox::Words(_), Inbox::Slots(_)) | (Inbox::Slots(_), _) => false,
        }
    }
}

/// Whether the list is what came to the receiver, by sender.
fn is_inbox(inbox: &[Option<u32>], mail: &Mail, receiver: u32) -> bool
    requires nodes { length inbox.now ≡ length mail.now }
    requires receiver { receiver < length mail.now }
    ensures { IsTrue result ↔ (map_of inbox.now ≡ inbox_of receiver mail.now) }
{
    for sender in 0..mail.nodes() {
        if inbox[sender as usize] != mail.slot(sender, receiver) {
            return false;
        }
    }
    true
}

/// Whether the words represent the same slots.
fn are_alike(words: &[u64], others: &[u64]) -> bool
    requires nodes { length words.now ≡ length others.now }
    requires words { All IsSlotWord words.now }
    requires others { All IsSlotWord others.now }
    ensures { IsTrue result ↔ (numbers_of words.now ≡ numbers_of others.now) }
{
    words == others
}

/// How many words `surely_same` compares before it branches.
const WORDS_AT_ONCE: usize = 8;

/// Whether some of these words differ. The loop has no early exit, so that the words are compared side by side.
#[inline(always)]
fn differ_at(words: &[u64], others: &[u64], first: usize) -> bool
    requires mine { first + WORDS_AT_ONCE ≤ length words.now }
    requires theirs { first + WORDS_AT_ONCE ≤ length others.now }
    ensures { result ≡ false → (k : ℕ) → first ≤ k → k < first + WORDS_AT_ONCE
        → get_or words.now k 0 ≡ get_or others.now k 0 }
{
    let mut differ = false;
    for k in first..first + WORDS_AT_ONCE {
        differ |= words[k] != others[k];
    }
    differ
}

/// Whether the words are the same, compared some at once.
fn surely_same(words: &[u64], others: &[u64]) -> bool
    requires { length words.now ≡ length others.now }
    ensures { IsTrue result → words.now ≡ others.now }
{
    let count = words.len();
    let mut at = 0;
    while count - at >= WORDS_AT_ONCE {
        if differ_at(words, others, at) {
            return false;
        }
        at += WORDS_AT_ONCE;
    }
    for k in at..count {
        if words[k] != others[k] {
            return false;
        }
    }
    true
}
