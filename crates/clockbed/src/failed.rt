//! Why words are not followed by a command.
ghost use Rattle.std.specs.Prelude.{◌≡◌};
ghost use Rattle.command_answers.specs.declared.fault.Fault.TheVariants.{Memory, Read};

use crate::source::FileReason;
use command_answers::Fault;
use std::alloc::AllocError;
use std::io;

/// A fault before a command begins, and which file could not be read.
#[derive(Drop)]
pub struct Failed {
    pub fault: Fault,
    pub reason: Option<FileReason>,
}

impl Failed {
    /// Returns a fault that is of no file.
    pub fn of(fault: Fault) -> Failed
        ensures { result.fault ≡ fault }
    {
        Failed {
            fault,
            reason: None,
        }
    }

    /// Returns the fault of the file at this path, which could not be read, and why, if that is known.
    pub fn at(path: String, error: Option<io::Error>) -> Failed
        ensures { result.fault ≡ Read }
    {
        let reason = match error {
            Some(error) => Some(FileReason { path, error }),
            None => None,
        };
        Failed {
            fault: Fault::Read,
            reason,
        }
    }
}

impl From<AllocError> for Failed {
    ghost from_gives = { λ _ failed. failed.fault ≡ Memory };

    fn from(_error: AllocError) -> Failed {
        Failed::of(Fault::Memory)
    }
}
