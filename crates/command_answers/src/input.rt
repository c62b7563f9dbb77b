//! What a request reads. It is read once, before its command begins.
ghost use Rattle.std.specs.Prelude.{◌≡◌, ◌≢◌, ◌+◌, ◌<◌, ◌≤◌, [], IfOk, IfErr, IfSome, take};
ghost use Rattle.stream_io.specs.Streams.{TakesAtMost};
ghost use Rattle.command_answers.specs.declared.input.Input.TheVariants.{Nothing};
ghost use Rattle.command_answers.specs.Faults.{IsFaultOfReading};
ghost use Rattle.command_answers.specs.Input.{IsShapedInput, Takes, max_bytes, max_calls, program_input};

use crate::fault::Fault;
use bench_scenario::{MAX_BYTES, MAX_CALLS};
use bpf_insn::MAX_SLOTS;
use node_env::Shape;
use requests::ShapeOptions;
use std::alloc::Global;
use stream_io::{ReadFault, Source, read_at_most};

/// The most bytes that are read of an image: one more than the longest image has.
pub const IMAGE_BYTES: usize = 8 * MAX_SLOTS + 1;

/// The most calls of `read` for an image.
pub const IMAGE_CALLS: usize = 2 * IMAGE_BYTES;

/// The most bytes of a text of the assembler, or of a rule. One more is read, by which a longer one is known.
pub const TEXT_BYTES: usize = 1 << 20;

/// The most calls of `read` for a text.
pub const TEXT_CALLS: usize = 2 * TEXT_BYTES;

/// What a request reads, from its file or from standard input.
#[derive(Clone, Copy, Debug, PartialEq, Eq)]
pub enum Input {
    Nothing,
    /// The image of a program.
    Image,
    /// A text of the assembler, or a rule.
    Text,
    Scenario,
}

/// Returns what is read for a program: a text, if that is asked for, or an image.
pub fn program_input(text: bool) -> Input
    ensures { result ≡ program_input text }
{
    if text { Input::Text } else { Input::Image }
}

/// Returns what is read if the options have a shape.
pub fn shaped_input(options: ShapeOptions, input: Input) -> Input
    ensures { IsShapedInput options input result }
{
    match Shape::of(options.nodes, options.memory) {
        Some(_) => input,
        None => Input::Nothing,
    }
}

/// Reads the first bytes of an input, at most as many as it has use for.
pub fn read_input<R: Source>(alloc: Global, input: Input, reader: &mut R) -> Result<Vec<u8>, Fault>
    ensures bytes { IfOk result (λ bytes.
        IfSome (R.remaining reader.old) (λ whole. bytes.items ≡ take (max_bytes input) whole)) }
    ensures fault { IfErr result (IsFaultOfReading (R.has_failed reader.new)) }
    ensures nothing { IfOk result (λ bytes. input ≡ Nothing → bytes.items ≡ []) }
    ensures something { IfErr result (λ fault. input ≢ Nothing) }
    ensures taken { Takes input (R.remaining reader.old) (R.remaining reader.new) }
    ensures cost { R.calls reader.new ≤ R.calls reader.old + max_calls input }
{
    match input {
        Input::Nothing => Ok(Vec::new(alloc)),
        Input::Image => read_bytes(alloc, reader, IMAGE_BYTES, IMAGE_CALLS),
        Input::Text => read_bytes(alloc, reader, TEXT_BYTES + 1, TEXT_CALLS),
        Input::Scenario => read_bytes(alloc, reader, MAX_BYTES, MAX_CALLS),
    }
}

/// Reads the first bytes, at most this many. There are so many calls of `read` that their bound is never reached.
fn read_bytes<R: Source>(
    alloc: Global,
    reader: &mut R,
    limit: usize,
    calls: usize,
) -> Result<Vec<u8>, Fault>
    requires some { 0 < limit }
    requires enough { limit ≤ calls }
    ensures bytes { IfOk result (λ bytes.
        IfSome (R.remaining reader.old) (λ whole. bytes.items ≡ take limit whole)) }
    ensures fault { IfErr result (IsFaultOfReading (R.has_failed reader.new)) }
    ensures taken { TakesAtMost limit (R.remaining reader.old) (R.remaining reader.new) }
    ensures cost { R.calls reader.new ≤ R.calls reader.old + calls }
{
    match read_at_most(alloc, reader, limit, calls) {
        Ok(bytes) => Ok(bytes),
        Err(ReadFault::Stream) => Err(Fault::Read),
        Err(ReadFault::Memory) => Err(Fault::Memory),
    }
}
