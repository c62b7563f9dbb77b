//! Streams of bytes that tell how often they were asked, and whether a call failed.
ghost use Rattle.std.specs.Prelude.{◌≡◌, ◌+◌, ◌≤◌, ℕ, Bool, List, Option, Some, IfErr, IfOk, IsTrue, false};
ghost use Rattle.std.specs.Io.{ReadsAtMost};
ghost use Rattle.std.specs.Io.KnownBytes.{ReadConsumes};

use std::io;
use std::io::Read;

/// A stream of bytes that tells how often it was asked, and whether a call failed.
pub trait Source {
    // What is known of the bytes that are left.
    ghost remaining: { Self → Option (List ℕ) };

    // How many calls of `read` were made.
    ghost calls: { Self → ℕ };

    // Some call of `read` failed.
    ghost has_failed: { Self → Bool };

    /// Makes one call of `read`.
    fn read_once(&mut self, buf: &mut [u8]) -> io::Result<usize>
        ensures bound { ReadsAtMost result buf.new }
        ensures bytes { ReadConsumes (remaining self.old) (remaining self.new) result buf.new }
        ensures call { calls self.new ≤ calls self.old + 1 }
        ensures failed { IfErr result (λ _. IsTrue (has_failed self.new)) }
        ensures worked { IfOk result (λ _. has_failed self.new ≡ has_failed self.old) };
}

/// A slice's calls are not counted, and none fails.
impl Source for &[u8] {
    ghost remaining = { λ s. Some s.now };

    ghost calls = { λ _. 0 };

    ghost has_failed = { λ _. false };

    fn read_once(&mut self, buf: &mut [u8]) -> io::Result<usize> {
        self.read(buf)
    }
}

/// A stream, how often it was read, and whether a call failed.
#[derive(Drop)]
pub struct Counted<R> {
    pub stream: R,
    // From 2^64 - 1 calls on this stays the same.
    calls: u64,
    has_failed: bool,
}

impl<R: Read> Source for Counted<R> {
    ghost remaining = { λ s. R.remaining s.stream };

    ghost calls = { λ s. s.calls };

    ghost has_failed = { λ s. s.has_failed };

    fn read_once(&mut self, buf: &mut [u8]) -> io::Result<usize> {
        self.calls = self.calls.saturating_add(1);
        let count = self.stream.read(buf);
        if count.is_err() {
            self.has_failed = true;
        }
        count
    }
}

impl<R: Read> Counted<R> {
    /// Returns the stream before the first call.
    pub fn of(stream: R) -> Counted<R>
        ensures stream { result.stream ≡ stream }
        ensures calls { ⟦<Counted<R> as Source>⟧.calls result ≡ 0 }
        ensures failed { ⟦<Counted<R> as Source>⟧.has_failed result ≡ false }
    {
        Counted {
            stream,
            calls: 0,
            has_failed: false,
        }
    }
}
