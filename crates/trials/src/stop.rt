//! How cases end.

use std::alloc::AllocError;

/// Whether a call was refused before it was done.
#[derive(Clone, Copy)]
pub enum Ended {
    AtOnce,
    AfterRefusal,
}

impl Ended {
    /// Returns how two calls ended.
    pub fn and(self, other: Ended) -> Ended {
        match (self, other) {
            (Ended::AtOnce, Ended::AtOnce) => Ended::AtOnce,
            (Ended::AfterRefusal, _) | (_, Ended::AfterRefusal) => Ended::AfterRefusal,
        }
    }
}

/// Why a case stopped: something that it needs was refused, or isn't as promised.
#[derive(Clone, Copy)]
pub enum Stop {
    Memory,
    /// A thread couldn't be started.
    Thread,
    Wrong(Wrong),
}

/// What isn't as promised.
#[derive(Clone, Copy)]
pub enum Wrong {
    /// Another answer is given than the one that is due.
    Answer,
    /// A call is refused for another cause than memory or a thread.
    Refusal,
    /// A refused call changed something.
    Changed,
    /// A refused call handed back something else than it took.
    HandedBack,
    /// The history or the receipts aren't what was done.
    History,
    /// Memory is wanted if none is needed.
    Want,
}

impl Wrong {
    /// Returns the text of an end.
    pub fn text(self) -> &'static str {
        match self {
            Wrong::Answer => "another answer is given than is due",
            Wrong::Refusal => "it is refused for another cause than memory or a thread",
            Wrong::Changed => "a refused call changes something",
            Wrong::HandedBack => "a refused call hands something else back",
            Wrong::History => "history or receipts aren't what was done",
            Wrong::Want => "memory is wanted where none is needed",
        }
    }
}

impl From<AllocError> for Stop {
    fn from(_error: AllocError) -> Stop {
        Stop::Memory
    }
}

/// Makes a call, and once more if it is refused.
pub fn stubbornly<T, F: Fn() -> Result<T, Stop>>(call: F) -> Result<(T, Ended), Stop>
    requires { F.IsAlwaysCallable call }
{
    match call() {
        Ok(value) => Ok((value, Ended::AtOnce)),
        Err(Stop::Memory | Stop::Thread) => Ok((call()?, Ended::AfterRefusal)),
        Err(wrong) => Err(wrong),
    }
}

/// Returns nothing if it holds, and otherwise what is wrong.
pub fn expect(holds: bool, wrong: Wrong) -> Result<(), Stop> {
    if holds {
        Ok(())
    } else {
        Err(Stop::Wrong(wrong))
    }
}
