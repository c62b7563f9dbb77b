//! What the history keeps.
ghost use Rattle.std.specs.Prelude.{◌≡◌, ◌↔◌, IsTrue};
ghost use Rattle.bench_core.specs.Replay.{made_by};
ghost use Rattle.bench_core.specs.Views.{entry_of};

use crate::actor::Actor;
use crate::change::Change;
use crate::row::Row;

/// An entry of a bench's history. All but `Staged` are the engine's.
#[derive(Drop)]
pub enum Entry {
    Staged { actor: Actor, change: Change },
    Opened { coins: Vec<u32> },
    Closed { row: Row },
    Abandoned,
}

impl Entry {
    /// Returns whether the other is equal by all parts, a program by its instructions and shape.
    pub fn is(&self, other: &Entry) -> bool
        ensures { IsTrue result ↔ (entry_of self.now ≡ entry_of other.now) }
    {
        match (self, other) {
            (
                Entry::Staged { actor, change },
                Entry::Staged {
                    actor: other_actor,
                    change: other_change,
                },
            ) => actor == other_actor && change.is(other_change),
            (Entry::Opened { coins }, Entry::Opened { coins: other_coins }) => {
                coins.as_slice() == other_coins.as_slice()
            }
            (Entry::Closed { row }, Entry::Closed { row: other_row }) => row == other_row,
            (Entry::Abandoned, Entry::Abandoned) => true,
            _ => false,
        }
    }

    /// Returns whether it is the actor's.
    pub fn is_by(&self, actor: Actor) -> bool
        ensures { IsTrue result ↔ (made_by (entry_of self.now) ≡ actor) }
    {
        match self {
            Entry::Staged {
                actor: by,
                change: _,
            } => *by == actor,
            Entry::Opened { .. } | Entry::Closed { .. } | Entry::Abandoned => actor
                == Actor::Engine,
        }
    }
}
