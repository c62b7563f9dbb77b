//! Gates that count, in which workers meet, and that wait for a watcher.
ghost use Rattle.std.specs.Prelude.{true, false};

use bench_engine::{Gate, MAX_WORKERS};
use crossbeam_utils::CachePadded;
use std::alloc::{AllocError, Global};
use std::process::Abort;
use std::sync::atomic::{AtomicU32, Ordering};

/// How often a thread looks for what another does.
pub const TURNS: u32 = 100_000_000;

fn counter() -> CachePadded<AtomicU32> {
    CachePadded::new(AtomicU32::new(0))
}

/// Returns true as soon as the counter has this value, and false if it doesn't get it.
fn reaches(counter: &AtomicU32, value: u32) -> bool {
    for _ in 0..TURNS {
        if counter.load(Ordering::SeqCst) == value {
            return true;
        }
    }
    false
}

/// A gate that counts the entries of each worker, and lets the first `most` in.
#[derive(Drop)]
pub struct Counting {
    entries: Vec<CachePadded<AtomicU32>>,
    all: CachePadded<AtomicU32>,
    most: u32,
}

impl Counting {
    /// Returns a gate that nobody has entered.
    pub fn new(alloc: Global, most: u32) -> Result<Counting, AllocError> {
        let mut entries = Vec::new(alloc);
        for _ in 0..MAX_WORKERS {
            entries.push(counter())?;
        }
        let all = counter();
        Ok(Counting { entries, all, most })
    }

    /// Requires that each of the first workers entered this often, and no other did.
    pub fn assert_entered(&self, rt: &impl Abort, workers: u32, times: u32) {
        assert_eq!(rt; self.entries.len(), MAX_WORKERS as usize);
        for (worker, entries) in self.entries.iter().enumerate() {
            let is_there = worker < workers as usize;
            let wanted = if is_there { times } else { 0 };
            let count: &AtomicU32 = entries;
            assert_eq!(rt;
                count.load(Ordering::SeqCst),
                wanted,
                "{worker} of {workers}"
            );
        }
    }
}

impl Gate for Counting {
    ghost always = { λ _. false };

    ghost lets_in = { λ _ _. true };

    fn enter(&self, worker: u32) -> bool {
        if let Some(count) = self.entries.get(worker as usize) {
            let _ = count.fetch_add(1, Ordering::SeqCst);
        }
        self.all.fetch_add(1, Ordering::SeqCst) < self.most
    }
}

/// A gate that holds each of two workers until the other has entered.
#[derive(Drop)]
pub struct Meeting {
    entered: CachePadded<AtomicU32>,
}

impl Meeting {
    pub fn new() -> Meeting {
        Meeting { entered: counter() }
    }
}

impl Gate for Meeting {
    ghost always = { λ _. false };

    ghost lets_in = { λ _ _. true };

    fn enter(&self, _worker: u32) -> bool {
        let entered: &AtomicU32 = &self.entered;
        let _ = entered.fetch_add(1, Ordering::SeqCst);
        reaches(entered, 2)
    }
}

/// A gate that lets a pulse go once a watcher has seen the row of the one before it.
#[derive(Drop)]
pub struct Seen {
    seen: CachePadded<AtomicU32>,
    wanted: CachePadded<AtomicU32>,
}

impl Seen {
    pub fn new() -> Seen {
        Seen {
            seen: counter(),
            wanted: counter(),
        }
    }

    /// The watcher has seen the row of this pulse.
    pub fn see(&self, pulse: u32) {
        self.seen.store(pulse, Ordering::SeqCst);
    }

    /// The next pulse waits for the row of this one.
    pub fn want(&self, pulse: u32) {
        self.wanted.store(pulse, Ordering::SeqCst);
    }
}

impl Gate for Seen {
    ghost always = { λ _. false };

    ghost lets_in = { λ _ _. true };

    fn enter(&self, _worker: u32) -> bool {
        reaches(&self.seen, self.wanted.load(Ordering::SeqCst))
    }
}
