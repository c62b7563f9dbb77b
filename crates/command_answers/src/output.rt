//! How the text of an answer is written.
ghost use Rattle.std.specs.Prelude.{◌≡◌, IfErr, OnOk};
ghost use Rattle.std.specs.Io.KnownBytes.{Appends};
ghost use Rattle.command_answers.specs.Faults.{HasWriteCause};
ghost use Rattle.command_answers.specs.inner.Faults.{IsCut};
ghost use Rattle.command_answers.specs.Output.{Leaves};

use crate::ending::Ending;
use crate::fault::Fault;
use stream_io::{Sink, write_fully};

/// Writes all the bytes, and stops at the first call of `write` that fails or takes nothing.
pub fn write_text<W: Sink>(out: &mut W, text: &[u8]) -> Result<(), Fault>
    ensures whole { OnOk result (Appends (W.contents out.old) (W.contents out.new) text.now) }
    ensures cut { IfErr result (IsCut (W.contents out.old) (W.contents out.new) text.now) }
    ensures cause { IfErr result (HasWriteCause (W.has_failed out.new)) }
{
    write_fully(out, text).map_err(|fault| Fault::Write {
        after: fault.written,
    })
}

/// Writes the whole text of an answer, with which the command ends so.
pub fn write_whole<W: Sink>(out: &mut W, text: &[u8], ending: Ending) -> Result<Ending, Fault>
    ensures left { Leaves (W.contents out.old) (W.contents out.new) text.now ending result }
    ensures cause { IfErr result (HasWriteCause (W.has_failed out.new)) }
{
    write_text(out, text)?;
    Ok(ending)
}
