//! Reads and writes whole texts over any stream, within stated bounds and with no retry.
//!
//! - `read_at_most` returns the bytes up to the end or the limit. It reads a `Source`: a slice, or any reader in
//!   `Counted::of`.
//! - `write_fully` writes all bytes, or returns how many were taken. It writes to a `Sink`: any writer in
//!   `Tracked::of`.
//! - `write_part` writes a part of a longer output.
//!
//! ```
//! use stream_io::{Tracked, read_at_most, write_fully};
//!
//! let mut reader: &[u8] = b"sixteen bytes it";
//! let bytes = read_at_most(rt.alloc(), &mut reader, 7, 100).map_err(|_| "no bytes")?;
//! assert_eq!(rt; bytes.as_slice(), b"sixteen".as_slice());
//! let mut written = Tracked::of(Vec::new(rt.alloc()));
//! assert_eq!(rt; write_fully(&mut written, &bytes), Ok(()));
//! ```
#![tactic(auto)]

ghost use Rattle.std.specs.Prelude.{◌<◌, IfErr, IsTrue, OnOk, length, take};
ghost use Rattle.std.specs.Io.KnownBytes.{Appends};

mod parts;
mod reading;
mod sink;
mod source;

pub use parts::{PartFault, write_part};
pub use reading::{ReadFault, read_at_most};
pub use sink::{Sink, Tracked};
pub use source::{Counted, Source};

/// A write that failed, and how many bytes were taken before.
#[derive(Clone, Copy, Debug, PartialEq, Eq)]
pub struct WriteFault {
    pub written: usize,
}

/// Writes all the bytes, and stops at the first call of `write` that fails or takes nothing.
pub fn write_fully<W: Sink>(writer: &mut W, bytes: &[u8]) -> Result<(), WriteFault>
    ensures all { OnOk result
        (Appends (W.contents writer.old) (W.contents writer.new) bytes.now) }
    ensures part { IfErr result (λ fault. fault.written < length bytes.now) }
    ensures prefix { IfErr result (λ fault.
        Appends (W.contents writer.old) (W.contents writer.new) (take fault.written bytes.now)) }
    ensures cause { IfErr result (λ _. IsTrue (W.has_failed writer.new)) }
{
    let mut written = 0;
    while written < bytes.len() {
        match writer.write_once(&bytes[written..]) {
            Ok(0) | Err(_) => return Err(WriteFault { written }),
            Ok(count) => written += count,
        }
    }
    Ok(())
}
