//! A bounded read.
ghost use Rattle.std.specs.Prelude.{◌≡◌, ◌+◌, ◌<◌, ◌≤◌, IfErr, IfOk, IfSome, take, vec_len};
ghost use Rattle.std.specs.Io.KnownBytes.{Consumes, IsAtEnd};
ghost use Rattle.stream_io.specs.Streams.{HasReadCause, TakesAtMost};

use crate::source::Source;
use std::alloc::Global;

/// The most bytes that one call of `read` is asked for.
const PIECE: usize = 4096;

/// Why a bounded read gave no bytes. What it took from the reader is lost.
#[derive(Clone, Copy, Debug, PartialEq, Eq)]
pub enum ReadFault {
    /// A call of `read` failed, `Interrupted` included, or the bound on calls was reached.
    Stream,
    /// Memory ran out.
    Memory,
}

/// Reads the bytes up to the end, or the first `limit` of them, by at most `calls` calls of `read`. Each call but the
/// last brings a byte, so there are never more than `limit` calls, and a bound of `limit` calls is never reached.
#[tactic(auto, using(crate::proofs::ReadLemmas::taken_front))]
pub fn read_at_most<R: Source>(
    alloc: Global,
    reader: &mut R,
    limit: usize,
    calls: usize,
) -> Result<Vec<u8>, ReadFault>
    requires { 0 < limit }
    ensures exact { IfOk result (λ bytes. IfSome (R.remaining reader.old) (λ input.
        bytes.items ≡ take limit input)) }
    ensures within { IfOk result (λ bytes. vec_len bytes ≤ limit) }
    ensures taken { IfOk result (λ bytes.
        Consumes (R.remaining reader.old) (R.remaining reader.new) bytes.items) }
    ensures whole { IfOk result (λ bytes.
        vec_len bytes < limit → IsAtEnd (R.remaining reader.new)) }
    ensures front { TakesAtMost limit (R.remaining reader.old) (R.remaining reader.new) }
    ensures cost { R.calls reader.new ≤ R.calls reader.old + calls }
    ensures each_brings { R.calls reader.new ≤ R.calls reader.old + limit }
    ensures cause { IfErr result (HasReadCause (R.has_failed reader.new) limit calls) }
{
    let mut bytes = Vec::new(alloc);
    let mut piece = [0u8; PIECE];
    for _ in 0..calls {
        let room = PIECE.min(limit - bytes.len());
        match reader.read_once(&mut piece[..room]) {
            Ok(0) => return Ok(bytes),
            Ok(count) => {
                if bytes.extend_from_slice(&piece[..count]).is_err() {
                    return Err(ReadFault::Memory);
                }
            }
            Err(_) => return Err(ReadFault::Stream),
        }
        if bytes.len() >= limit {
            return Ok(bytes);
        }
    }
    Err(ReadFault::Stream)
}
