//! Images of programs: their instructions as bytes (RFC 9669, section 3; docs/INSTRUCTIONS.md).

ghost use Rattle.std.specs.Prelude.{◌≡◌, ◌≢◌, ◌<◌, ◌≤◌, ◌*◌, ◌++◌, ℕ, List, [], length, drop, IfOk, IfErr, OnOk};
ghost use Rattle.std.specs.Prelude.{MatchResult, Some, false};
ghost use Rattle.bpf_insn.specs.declared.forms.Insn.{Insn};
ghost use Rattle.bpf_insn.specs.declared.listing.TheConstants.{MAX_SLOTS};
ghost use Rattle.bpf_insn.specs.Encoding.{slots_taken};
ghost use Rattle.bpf_insn.specs.Programs.{IsProgram, image_of};
ghost use Rattle.bpf_insn.specs.inner.Programs.{layout, slots_by};
ghost use Rattle.bpf_insn.specs.Images.{IsFaultAt, RefusesImage, image_error_text};
ghost use Rattle.bpf_insn.specs.inner.Images.{IsFirst};

use crate::forms::Insn;
use crate::listing::{MAX_SLOTS, Program, push_slots};
use crate::slot::{SlotFault, front};
use std::alloc::{AllocError, Global};
use std::fmt;

/// Why bytes are not decoded. `Empty` and `TooLong` come first, then the lowest slot is named, and then the first
/// of the other names in this order; the number is the slot where the instruction at fault begins. `Memory` comes
/// only if the bytes are an image.
#[derive(Clone, Copy, Debug, PartialEq, Eq)]
pub enum ImageError {
    /// There are no bytes.
    Empty,
    /// There are more bytes than the slots of the longest program have.
    TooLong,
    /// The bytes end within the instruction.
    Truncated(u32),
    /// The first byte is no opcode.
    UnknownOpcode(u32),
    /// A register's number is above 10.
    BadRegister(u32),
    /// A field holds what it may not.
    NonZeroField(u32),
    /// The width that a field names is none.
    BadWidth(u32),
    /// Memory was short.
    Memory,
}

impl ImageError {
    ghost use Rattle.std.specs.Prelude.{◌≡◌};
    ghost use Rattle.bpf_insn.specs.inner.Images.{error_at};

    fn at(fault: SlotFault, slot: u32) -> ImageError
        ensures { result ≡ error_at fault slot }
    {
        match fault {
            SlotFault::Truncated => ImageError::Truncated(slot),
            SlotFault::UnknownOpcode => ImageError::UnknownOpcode(slot),
            SlotFault::BadRegister => ImageError::BadRegister(slot),
            SlotFault::NonZeroField => ImageError::NonZeroField(slot),
            SlotFault::BadWidth => ImageError::BadWidth(slot),
        }
    }
}

impl fmt::Display for ImageError {
    ghost output = { λ error. Some (image_error_text error) };

    fn fmt<W: fmt::Write>(&self, f: &mut fmt::Formatter<W>) -> fmt::Result {
        match self {
            ImageError::Empty => write!(f, "Empty"),
            ImageError::TooLong => write!(f, "TooLong"),
            ImageError::Truncated(slot) => write!(f, "Truncated slot {slot}"),
            ImageError::UnknownOpcode(slot) => write!(f, "UnknownOpcode slot {slot}"),
            ImageError::BadRegister(slot) => write!(f, "BadRegister slot {slot}"),
            ImageError::NonZeroField(slot) => write!(f, "NonZeroField slot {slot}"),
            ImageError::BadWidth(slot) => write!(f, "BadWidth slot {slot}"),
            ImageError::Memory => write!(f, "Memory"),
        }
    }
}

impl From<AllocError> for ImageError {
    ghost use Rattle.std.specs.Prelude.{◌≡◌};
    ghost use Rattle.bpf_insn.specs.declared.image.ImageError.TheVariants.{Memory};

    ghost from_gives = { λ _ e. e ≡ Memory };

    fn from(_e: AllocError) -> ImageError {
        ImageError::Memory
    }
}

/// The instruction at the front, and what follows it.
#[inline(always)]
fn next(bytes: &[u8]) -> Result<(Insn, &[u8]), SlotFault>
    requires { 0 < length bytes.now }
    ensures first { IfOk result (λ x. IsFirst bytes.now x.0) }
    ensures rest { IfOk result (λ x. x.1.now ≡ drop (8 * slots_taken x.0) bytes.now) }
    ensures shorter { IfOk result (λ x. length x.1.now < length bytes.now) }
    ensures fault { IfErr result (λ fault. IsFaultAt fault bytes.now) }
{
    let insn = front(bytes)?;
    let (_, rest) = bytes.split_at(8 * insn.slots());
    Ok((insn, rest))
}

/// Room for the slots of these bytes, and whether memory was short.
fn room_for(alloc: Global, bytes: &[u8]) -> (Vec<Option<Insn>>, bool)
    ensures { result.0.items ≡ [] }
{
    match Vec::with_capacity(alloc, bytes.len() / 8) {
        Ok(slots) => (slots, false),
        Err(_) => (Vec::new(alloc), true),
    }
}

/// Adds the slots of an instruction unless memory was short, and says whether it was or is.
#[inline(always)]
fn keep(slots: &mut Vec<Option<Insn>>, insn: Insn, short: bool) -> bool
    ensures before { result ≡ false → short ≡ false }
    ensures kept { result ≡ false → slots.new.items ≡ slots.old.items ++ slots_by insn }
{
    short || push_slots(slots, insn).is_err()
}

/// The slots of the program whose image these bytes are. Where memory is short the rest is read, and not kept: so a
/// fault is told there too.
fn slots_in(alloc: Global, bytes: &[u8]) -> Result<Vec<Option<Insn>>, ImageError>
    requires some { 0 < length bytes.now }
    requires few { length bytes.now ≤ 8 * MAX_SLOTS }
    ensures program { IfOk result (λ slots. (program : List Insn) × IsProgram program ×
        (bytes.now ≡ image_of program) × (slots.items ≡ layout program)) }
    ensures refusal { IfErr result (RefusesImage bytes.now) }
{
    let (mut slots, mut short) = room_for(alloc, bytes);
    let mut slot: u32 = 0;
    let mut rest = bytes;
    while !rest.is_empty() {
        match next(rest) {
            Ok((insn, after)) => {
                slot += insn.slots() as u32;
                short = keep(&mut slots, insn, short);
                rest = after;
            }
            Err(fault) => return Err(ImageError::at(fault, slot)),
        }
    }
    if short {
        return Err(ImageError::Memory);
    }
    Ok(slots)
}

fn program_in(alloc: Global, bytes: &[u8]) -> Result<Program, ImageError>
    ensures program { IfOk result (λ p. IsProgram p × (bytes.now ≡ image_of p)) }
    ensures refusal { IfErr result (RefusesImage bytes.now) }
{
    if bytes.is_empty() {
        return Err(ImageError::Empty);
    }
    if bytes.len() > 8 * MAX_SLOTS {
        return Err(ImageError::TooLong);
    }
    let slots = slots_in(alloc, bytes)?;
    let Ok(image) = Vec::from_slice(alloc, bytes) else {
        return Err(ImageError::Memory);
    };
    Ok(Program { slots, image })
}

/// Returns the program of an image. A fault is reported even if memory is short.
pub fn decode(alloc: Global, bytes: &[u8]) -> Result<Program, ImageError>
    ensures program { IfOk result (λ p. IsProgram p × (bytes.now ≡ image_of p)) }
    ensures refusal { IfErr result (RefusesImage bytes.now) }

    // Each image is decoded, and each refusal is the only one, memory aside.
    ensures only_program { (p : List Insn) → IsProgram p → bytes.now ≡ image_of p →
        MatchResult result (λ q. q ≡ p) (λ e. e ≡ ImageError.Memory) }
    ensures only_refusal { (e : ImageError) → RefusesImage bytes.now e → e ≢ ImageError.Memory → result ≡ Err e }
{
    program_in(alloc, bytes)
}

/// Returns the image of a program: the spellings of its instructions in order. Fails only if memory runs out.
pub fn encode(alloc: Global, program: &Program) -> Result<Vec<u8>, AllocError>
    ensures image { IfOk result (λ bytes. bytes.items ≡ image_of program.now) }
    ensures program { IsProgram program.now }
{
    Vec::from_slice(alloc, program.image())
}
