//! Streams that keep why they failed, and how that is told.
ghost use Rattle.std.specs.Prelude.{codes, is_some, ◌++◌, ◌≡◌};
ghost use Rattle.command_answers.specs.Faults.{Says};
ghost use Rattle.clockbed.specs.Reasons.{SaysReason};

use std::fmt::InlineText;
use std::io;
use std::io::{Read, Write};
use stream_io::{Sink, Source, write_fully};

/// A stream that keeps why it failed.
pub trait FailureReason {
    /// Returns why its last call that failed did, if one failed.
    fn reason(&self) -> Option<io::Error>;
}

/// A stream, how many calls of `read` it had, and why its last call that failed did.
#[derive(Drop)]
pub struct Reasoned<S> {
    pub stream: S,
    // From 2^64 - 1 calls on this stays the same.
    calls: u64,
    reason: Option<io::Error>,
}

impl<S> Reasoned<S> {
    /// Returns the stream with no call and no failure yet.
    pub fn of(stream: S) -> Reasoned<S>
        ensures { result.stream ≡ stream }
    {
        Reasoned {
            stream,
            calls: 0,
            reason: None,
        }
    }
}

impl<S> FailureReason for Reasoned<S> {
    fn reason(&self) -> Option<io::Error> {
        self.reason
    }
}

impl<R: Read> Source for Reasoned<R> {
    ghost remaining = { λ r. R.remaining r.stream };

    ghost calls = { λ r. r.calls };

    ghost has_failed = { λ r. is_some r.reason };

    fn read_once(&mut self, buf: &mut [u8]) -> io::Result<usize> {
        self.calls = self.calls.saturating_add(1);
        let count = self.stream.read(buf);
        if let Err(error) = count {
            self.reason = Some(error);
        }
        count
    }
}

impl<W: Write> Write for Reasoned<W> {
    ghost contents = { λ w. W.contents w.stream };

    fn write(&mut self, buf: &[u8]) -> io::Result<usize> {
        let count = self.stream.write(buf);
        if let Err(error) = count {
            self.reason = Some(error);
        }
        count
    }

    fn flush(&mut self) -> io::Result<()> {
        self.stream.flush()
    }
}

impl<W: Sink> Sink for Reasoned<W> {
    ghost has_failed = { λ w. W.has_failed w.stream };

    fn write_once(&mut self, buf: &[u8]) -> io::Result<usize> {
        let count = self.stream.write_once(buf);
        if let Err(error) = count {
            self.reason = Some(error);
        }
        count
    }
}

/// Why a file could not be read.
#[derive(Drop)]
pub struct FileReason {
    pub path: String,
    pub error: io::Error,
}

/// Room for the system's reason, which is shorter.
const REASON_BYTES: usize = 512;

/// Says in a line why the stream of this name failed, with no memory of its own. What `err` does not take is dropped.
pub fn tell_reason<E: Sink>(err: &mut E, name: &str, error: io::Error)
    ensures { SaysReason name.now (E.contents err.old) (E.contents err.new) }
{
    match write_fully(err, name.as_bytes()) {
        Ok(()) => say_reason(
            err,
            InlineText::<REASON_BYTES>::of(format_args!("{error}\n")).as_str(),
        ),
        Err(_) => {}
    }
}

/// Says a reason behind a name.
fn say_reason<E: Sink>(err: &mut E, reason: &str)
    ensures { Says (E.contents err.old) (E.contents err.new) (codes ": " ++ reason.now) }
{
    match write_fully(err, b": ") {
        Ok(()) => {
            let _ = write_fully(err, reason.as_bytes());
        }
        Err(_) => {}
    }
}
