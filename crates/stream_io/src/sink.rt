//! Streams to which bytes are written, and that tell whether a call failed.
ghost use Rattle.std.specs.Prelude.{◌≡◌, Bool, IsTrue, false};
ghost use Rattle.std.specs.Io.{WritesAtMost};
ghost use Rattle.std.specs.Io.KnownBytes.{WriteAppends};
ghost use Rattle.stream_io.specs.Streams.{TakesNone};

use std::io;
use std::io::Write;

/// A stream to which bytes are written, and that tells whether a call failed.
pub trait Sink: Write {
    // Some call of `write` failed, or took nothing of bytes that were there.
    ghost has_failed: { Self → Bool };

    /// Makes one call of `write`.
    fn write_once(&mut self, buf: &[u8]) -> io::Result<usize>
        ensures bound { WritesAtMost result buf.now }
        ensures bytes { WriteAppends (Self.contents self.old) (Self.contents self.new) result buf.now }
        ensures failed { TakesNone result buf.now → IsTrue (has_failed self.new) }
        ensures worked { (TakesNone result buf.now → ⊥) → has_failed self.new ≡ has_failed self.old };
}

/// Returns true if a call of `write` with these bytes failed, or took nothing of them.
fn takes_none(count: &io::Result<usize>, buf: &[u8]) -> bool
    ensures none { IsTrue result → TakesNone count.now buf.now }
    ensures some { TakesNone count.now buf.now → IsTrue result }
{
    match count {
        Ok(count) => *count == 0 && !buf.is_empty(),
        Err(_) => true,
    }
}

/// A stream to which bytes are written, and whether a call failed.
#[derive(Drop)]
pub struct Tracked<W> {
    pub stream: W,
    has_failed: bool,
}

impl<W: Write> Tracked<W> {
    /// Returns the stream before the first call.
    pub fn of(stream: W) -> Tracked<W>
        ensures stream { result.stream ≡ stream }
        ensures failed { ⟦<Tracked<W> as Sink>⟧.has_failed result ≡ false }
    {
        Tracked {
            stream,
            has_failed: false,
        }
    }

    /// Makes one call of `write`, and keeps whether it failed.
    fn track(&mut self, buf: &[u8]) -> io::Result<usize>
        ensures bound { WritesAtMost result buf.now }
        ensures bytes { WriteAppends (W.contents self.old.stream) (W.contents self.new.stream) result buf.now }
        ensures failed { TakesNone result buf.now → IsTrue self.new.has_failed }
        ensures worked { (TakesNone result buf.now → ⊥) → self.new.has_failed ≡ self.old.has_failed }
    {
        let count = self.stream.write(buf);
        if takes_none(&count, buf) {
            self.has_failed = true;
        }
        count
    }
}

impl<W: Write> Write for Tracked<W> {
    ghost contents = { λ s. W.contents s.stream };

    fn write(&mut self, buf: &[u8]) -> io::Result<usize> {
        self.track(buf)
    }

    fn flush(&mut self) -> io::Result<()> {
        self.stream.flush()
    }
}

impl<W: Write> Sink for Tracked<W> {
    ghost has_failed = { λ s. s.has_failed };

    fn write_once(&mut self, buf: &[u8]) -> io::Result<usize> {
        self.track(buf)
    }
}
