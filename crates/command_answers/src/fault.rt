//! Why a command gave no whole answer, and how that is told.
ghost use Rattle.std.specs.Prelude.{◌≡◌, ◌+◌, ◌<◌, ◌≤◌, ◌++◌, IfErr, OnOk, codes, length, take};
ghost use Rattle.std.specs.Fmt.{decimal};
ghost use Rattle.std.specs.Fmt.InlineText.{IsIntact, IsOpen, inline_text};
ghost use Rattle.std.specs.Io.KnownBytes.{Appends};
ghost use Rattle.command_answers.specs.Faults.{IsOfCommandLine, Says, fault_status, fault_text};
ghost use Rattle.command_answers.specs.inner.Faults.{fault_behind};
ghost use Rattle.command_answers.specs.declared.fault.TheConstants.{LINE_BYTES};

use itoa::Buffer;
use std::alloc::Global;
use std::fmt::{InlineText, Write as _};
use stream_io::{Sink, WriteFault, write_fully};

/// Why a command gave no whole answer.
#[derive(Debug, Drop)]
pub enum Fault {
    /// A call of `read` failed, or there were too many.
    Read,
    /// Standard output took this many bytes, and then no more.
    Write { after: usize },
    /// Memory ran out.
    Memory,
    /// A thread could not be started.
    Thread,
    /// The words ask for no command. The text says why, and its last line ends.
    CommandLine { text: String },
}

/// Room for the longest line of a fault: `fault write after K`, where K has at most twenty digits.
const LINE_BYTES: usize = 64;

impl Fault {
    /// Returns the fault of a command line, or out of memory if there is none to say it.
    pub fn of_command_line(alloc: Global, text: &str) -> Fault
        ensures { IsOfCommandLine result }
    {
        match String::from_str(alloc, text) {
            Ok(text) => Fault::CommandLine { text },
            Err(_) => Fault::Memory,
        }
    }

    /// Returns the same of a text that comes after this many bytes.
    pub fn behind(self, before: usize) -> Fault
        ensures { result ≡ fault_behind before self }
    {
        match self {
            Fault::Read => Fault::Read,
            Fault::Write { after } => Fault::Write {
                after: before.saturating_add(after),
            },
            Fault::Memory => Fault::Memory,
            Fault::Thread => Fault::Thread,
            Fault::CommandLine { text } => Fault::CommandLine { text },
        }
    }

    /// Says it on standard error, with no memory of its own, and answers the exit status.
    /// What `err` does not take is dropped.
    pub fn tell<E: Sink>(&self, err: &mut E) -> u8
        ensures status { result ≡ fault_status }
        ensures said { Says (E.contents err.old) (E.contents err.new) (fault_text self.now) }
    {
        let _ = self.say(err);
        self.status()
    }

    /// Says it, up to the first call of `write` that fails.
    fn say<E: Sink>(&self, err: &mut E) -> Result<(), WriteFault>
        ensures whole { OnOk result (Appends (E.contents err.old) (E.contents err.new) (fault_text self.now)) }
        ensures part { IfErr result (λ fault. fault.written < length (fault_text self.now)) }
        ensures prefix { IfErr result (λ fault.
            Appends (E.contents err.old) (E.contents err.new) (take fault.written (fault_text self.now))) }
    {
        match self {
            Fault::Read => write_fully(err, b"fault read\n"),
            Fault::Write { after } => write_fully(err, write_line(*after).as_str().as_bytes()),
            Fault::Memory => write_fully(err, b"fault memory\n"),
            Fault::Thread => write_fully(err, b"fault thread\n"),
            Fault::CommandLine { text } => write_fully(err, text.as_bytes()),
        }
    }

    fn status(&self) -> u8
        ensures { result ≡ fault_status }
    {
        match self {
            Fault::Read
            | Fault::Write { .. }
            | Fault::Memory
            | Fault::Thread
            | Fault::CommandLine { .. } => 1,
        }
    }
}

/// Returns the line of a write that failed, with its end.
fn write_line(after: usize) -> InlineText<LINE_BYTES>
    ensures { inline_text result ≡ codes "fault write after " ++ (decimal after ++ codes "\n") }
{
    let mut digits = Buffer::new();
    let mut line = InlineText::new();
    push(&mut line, "fault write after ");
    push(&mut line, digits.format(after));
    push(&mut line, "\n");
    line
}

/// Appends a part for which there is room.
fn push(line: &mut InlineText<LINE_BYTES>, part: &str)
    requires intact { IsIntact line.old }
    requires open { IsOpen line.old }
    requires room { length (inline_text line.old) + length part.now ≤ LINE_BYTES }
    ensures text { inline_text line.new ≡ inline_text line.old ++ part.now }
    ensures intact { IsIntact line.new }
    ensures open { IsOpen line.new }
{
    match line.write_str(part) {
        Ok(()) => {}
        Err(_) => unreachable!(),
    }
}
