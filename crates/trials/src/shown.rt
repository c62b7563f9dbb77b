//! What a bench and its passes show, kept to be compared with what they show later.

use bench_core::{Bench, Change, Entry};
use bench_shared::Receipt;
use std::alloc::{AllocError, Global};

/// What a bench showed.
#[derive(Drop)]
pub struct Shown {
    history: Vec<Entry>,
    memories: Vec<Vec<u8>>,
    clocks: Vec<u32>,
    /// By receiver, and there by sender.
    mail: Vec<Vec<Option<u32>>>,
    is_open: bool,
}

impl Shown {
    /// Returns what is shown.
    pub fn of(alloc: Global, bench: &Bench) -> Result<Shown, AllocError> {
        let history = history_of(alloc, bench)?;
        let memories = memories_of(alloc, bench)?;
        let clocks = clocks_of(alloc, bench)?;
        let mail = mail_of(alloc, bench)?;
        Ok(Shown {
            history,
            memories,
            clocks,
            mail,
            is_open: bench.is_open(),
        })
    }

    /// Returns whether it is what a new bench shows.
    pub fn is_new(&self) -> bool {
        self.history.is_empty()
            && !self.is_open
            && self
                .memories
                .iter()
                .all(|memory| memory.iter().all(|byte| *byte == 0))
            && self.clocks.iter().all(|clock| *clock == 0)
            && self
                .mail
                .iter()
                .all(|inbox| inbox.iter().all(|slot| slot.is_none()))
    }

    /// Returns whether the bench shows the same.
    pub fn is(&self, bench: &Bench) -> bool {
        self.is_open == bench.is_open()
            && are_same(self.history.as_slice(), bench.history())
            && self.has_memories(bench)
            && self.has_mail(bench)
    }

    fn has_memories(&self, bench: &Bench) -> bool {
        for node in 0..bench.shape().nodes() {
            let place = node as usize;
            let is_memory = match self.memories.get(place) {
                Some(memory) => memory.as_slice() == bench.memory(node),
                None => false,
            };
            if !is_memory || self.clocks.get(place) != Some(&bench.clock(node)) {
                return false;
            }
        }
        true
    }

    fn has_mail(&self, bench: &Bench) -> bool {
        let nodes = bench.shape().nodes();
        for receiver in 0..nodes {
            let Some(inbox) = self.mail.get(receiver as usize) else {
                return false;
            };
            for sender in 0..nodes {
                if inbox.get(sender as usize) != Some(&bench.mail().slot(sender, receiver)) {
                    return false;
                }
            }
        }
        true
    }
}

fn history_of(alloc: Global, bench: &Bench) -> Result<Vec<Entry>, AllocError> {
    let mut history = Vec::new(alloc);
    for entry in bench.history() {
        history.push(copy_of(alloc, entry)?)?;
    }
    Ok(history)
}

fn memories_of(alloc: Global, bench: &Bench) -> Result<Vec<Vec<u8>>, AllocError> {
    let mut memories = Vec::new(alloc);
    for node in 0..bench.shape().nodes() {
        memories.push(Vec::from_slice(alloc, bench.memory(node))?)?;
    }
    Ok(memories)
}

fn clocks_of(alloc: Global, bench: &Bench) -> Result<Vec<u32>, AllocError> {
    let mut clocks = Vec::new(alloc);
    for node in 0..bench.shape().nodes() {
        clocks.push(bench.clock(node))?;
    }
    Ok(clocks)
}

fn mail_of(alloc: Global, bench: &Bench) -> Result<Vec<Vec<Option<u32>>>, AllocError> {
    let mut mail = Vec::new(alloc);
    for node in 0..bench.shape().nodes() {
        mail.push(bench.mail().inbox(alloc, node)?)?;
    }
    Ok(mail)
}

/// What a pass has received.
#[derive(Drop)]
pub struct Received {
    receipts: Vec<Receipt>,
}

impl Received {
    /// Returns what is shown.
    pub fn of(alloc: Global, receipts: &[Receipt]) -> Result<Received, AllocError> {
        let mut copies = Vec::new(alloc);
        for receipt in receipts {
            copies.push(receipt_of(alloc, receipt)?)?;
        }
        Ok(Received { receipts: copies })
    }

    /// Returns whether these are all.
    pub fn are(&self, receipts: &[Receipt]) -> bool {
        self.begin(receipts) && self.receipts.len() == receipts.len()
    }

    /// Returns whether the receipts begin with these.
    pub fn begin(&self, receipts: &[Receipt]) -> bool {
        self.receipts.len() <= receipts.len()
            && self.receipts.iter().zip(receipts.iter()).all(|(one, other)| {
                one.place == other.place && one.entry.is(&other.entry)
            })
    }

    /// Returns the receipts that came after these.
    pub fn rest<'a>(&self, receipts: &'a [Receipt]) -> &'a [Receipt] {
        receipts.get(self.receipts.len()..).unwrap_or(&[])
    }
}

/// Returns an equal receipt.
fn receipt_of(alloc: Global, receipt: &Receipt) -> Result<Receipt, AllocError> {
    let entry = copy_of(alloc, &receipt.entry)?;
    Ok(Receipt {
        place: receipt.place,
        entry,
    })
}

/// Returns an equal entry.
fn copy_of(alloc: Global, entry: &Entry) -> Result<Entry, AllocError> {
    match entry {
        Entry::Staged { actor, change } => Ok(Entry::Staged {
            actor: *actor,
            change: change.copy(alloc)?,
        }),
        Entry::Opened { coins } => Ok(Entry::Opened {
            coins: Vec::from_slice(alloc, coins)?,
        }),
        Entry::Closed { row } => Ok(Entry::Closed { row: *row }),
        Entry::Abandoned => Ok(Entry::Abandoned),
    }
}

/// Returns true if the histories are equal.
fn are_same(one: &[Entry], other: &[Entry]) -> bool {
    one.len() == other.len() && one.iter().zip(other.iter()).all(|(a, b)| a.is(b))
}

/// Returns whether the changes are equal by all parts.
pub fn is_same(one: &Change, other: &Change) -> bool {
    match (one, other) {
        (
            Change::Load { node, program },
            Change::Load {
                node: other_node,
                program: other_program,
            },
        ) => node == other_node && program.same(other_program),
        (Change::Unload { node }, Change::Unload { node: other_node }) => node == other_node,
        (
            Change::Corrupt { node, image },
            Change::Corrupt {
                node: other_node,
                image: other_image,
            },
        ) => node == other_node && image.as_slice() == other_image.as_slice(),
        (Change::Load { .. } | Change::Unload { .. } | Change::Corrupt { .. }, _) => false,
    }
}
