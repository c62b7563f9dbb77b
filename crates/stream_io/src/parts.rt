//! A text that is written part by part, and how many of its bytes are written.
ghost use Rattle.std.specs.Prelude.{IfErr, IfOk};
ghost use Rattle.stream_io.specs.Parts.{Adds, HasPartCause, IsPartFault};

use crate::sink::Sink;
use crate::write_fully;
use std::alloc::AllocError;
use thiserror::Error;

/// Why a text that is written part by part isn't whole.
#[derive(Clone, Copy, Debug, Drop, Error, PartialEq, Eq)]
pub enum PartFault {
    /// A call of `write` failed or took nothing, when this many bytes of the text were taken.
    #[error("writing failed after {written} bytes")]
    Write { written: u64 },
    #[error("out of memory")]
    Memory,
}

impl From<AllocError> for PartFault {
    ghost use Rattle.std.specs.Prelude.{◌≡◌};
    ghost use Rattle.stream_io.specs.declared.parts.PartFault.TheVariants.{Memory};

    ghost from_gives = { λ _ e. e ≡ Memory };

    fn from(_error: AllocError) -> PartFault {
        PartFault::Memory
    }
}

/// Writes the next part of a text of which this many bytes are written, and returns how many are written then: no more
/// than the number has room for.
pub fn write_part<W: Sink>(writer: &mut W, before: u64, part: &[u8]) -> Result<u64, PartFault>
    ensures whole { IfOk result (Adds (W.contents writer.old) (W.contents writer.new) before part.now) }
    ensures fault { IfErr result (IsPartFault (W.contents writer.old) (W.contents writer.new) before part.now) }
    ensures cause { IfErr result (HasPartCause (W.has_failed writer.new)) }
{
    match write_fully(writer, part) {
        Ok(()) => Ok(before.saturating_add(part.len() as u64)),
        Err(fault) => Err(PartFault::Write {
            written: before.saturating_add(fault.written as u64),
        }),
    }
}
