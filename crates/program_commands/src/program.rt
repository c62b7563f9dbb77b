//! The program of an image, or of a text of the assembler.
ghost use Rattle.std.specs.Prelude.{◌≡◌, ◌≤◌, IfOk, IfErr, OnOk, length, false, true};
ghost use Rattle.command_answers.specs.declared.input.TheConstants.{TEXT_BYTES};
ghost use Rattle.requests.specs.declared.request.ShapeOptions.{ShapeOptions};
ghost use Rattle.command_answers.specs.AsmText.{ReadsAsmText};
ghost use Rattle.command_answers.specs.Faults.{IsFaultOfProgram, IsFaultOfText, IsOutOfMemory};
ghost use Rattle.command_answers.specs.Image.{ReadsImage};
ghost use Rattle.requests.specs.Shapes.{HasShape};
ghost use Rattle.command_answers.specs.Input.{IsProgramOfInput, IsUnread};
ghost use Rattle.program_commands.specs.inner.Input.{ReadsInput};

use bpf_asm::{TextError, assemble};
use bpf_insn::{ImageError, Program, decode};
use command_answers::{Fault, TEXT_BYTES, Unread};
use node_env::Shape;
use requests::ShapeOptions;
use std::alloc::Global;

/// A program with the shape of the options.
#[derive(Drop)]
pub(crate) struct ProgramRead {
    pub shape: Shape,
    pub program: Program,
}

/// Returns the program of a text or an image with the shape of the options, or why there is none. If the options have
/// no shape, the bytes don't count.
pub(crate) fn program_read(
    alloc: Global,
    options: ShapeOptions,
    text: bool,
    bytes: &[u8],
) -> Result<Result<ProgramRead, Unread>, Fault>
    ensures read { IfOk result (ReadsInput options text bytes.now) }
    ensures fault { IfErr result (IsFaultOfProgram text bytes.now) }
{
    let Some(shape) = Shape::of(options.nodes, options.memory) else {
        return Ok(Err(Unread::Shape));
    };
    match program_of(alloc, text, bytes)? {
        Ok(program) => Ok(Ok(ProgramRead { shape, program })),
        Err(unread) => Ok(Err(unread)),
    }
}

/// Returns the program of a text or an image, or why it has none.
fn program_of(alloc: Global, text: bool, bytes: &[u8]) -> Result<Result<Program, Unread>, Fault>
    ensures program { IfOk result (λ read. IfOk read (IsProgramOfInput text bytes.now)) }
    ensures unread { IfOk result (λ read. IfErr read (λ unread.
        (asked : ShapeOptions) → HasShape asked → IsUnread asked text bytes.now unread)) }
    ensures fault { IfErr result (IsFaultOfProgram text bytes.now) }
{
    if text {
        program_of_text(alloc, bytes)
    } else {
        program_of_image(alloc, bytes)
    }
}

fn program_of_text(alloc: Global, text: &[u8]) -> Result<Result<Program, Unread>, Fault>
    ensures program { IfOk result (λ read. IfOk read (IsProgramOfInput true text.now)) }
    ensures unread { IfOk result (λ read. IfErr read (λ unread.
        (asked : ShapeOptions) → HasShape asked → IsUnread asked true text.now unread)) }
    ensures fault { IfErr result (IsFaultOfText text.now) }
{
    match program_meant(alloc, text)? {
        Ok(program) => Ok(Ok(program)),
        Err(error) => Ok(Err(Unread::Text(error))),
    }
}

fn program_of_image(alloc: Global, image: &[u8]) -> Result<Result<Program, Unread>, Fault>
    ensures program { IfOk result (λ read. IfOk read (IsProgramOfInput false image.now)) }
    ensures unread { IfOk result (λ read. IfErr read (λ unread.
        (asked : ShapeOptions) → HasShape asked → IsUnread asked false image.now unread)) }
    ensures fault { IfErr result IsOutOfMemory }
{
    match program_in(alloc, image)? {
        Ok(program) => Ok(Ok(program)),
        Err(error) => Ok(Err(Unread::Image(error))),
    }
}

/// Returns the program of an image, or why the bytes are none. Lack of memory is a fault.
pub(crate) fn program_in(alloc: Global, bytes: &[u8]) -> Result<Result<Program, ImageError>, Fault>
    ensures read { IfOk result (ReadsImage bytes.now) }
    ensures fault { IfErr result IsOutOfMemory }
{
    match decode(alloc, bytes) {
        Ok(program) => Ok(Ok(program)),
        Err(ImageError::Memory) => Err(Fault::Memory),
        Err(error) => Ok(Err(error)),
    }
}

/// Returns the program that a text means, or why it means none. A text of more than [`TEXT_BYTES`] is a fault of
/// reading; lack of memory is a fault, too.
pub(crate) fn program_meant(alloc: Global, text: &[u8]) -> Result<Result<Program, TextError>, Fault>
    ensures read { IfOk result (ReadsAsmText text.now) }
    ensures fault { IfErr result (IsFaultOfText text.now) }
{
    refuse_too_long(text)?;
    match assemble(alloc, text) {
        Ok(program) => Ok(Ok(program)),
        Err(TextError::Memory) => Err(Fault::Memory),
        Err(error) => Ok(Err(error)),
    }
}

/// Returns a fault of reading if a text is too long.
pub(crate) fn refuse_too_long(text: &[u8]) -> Result<(), Fault>
    ensures few { OnOk result (length text.now ≤ TEXT_BYTES) }
    ensures fault { IfErr result (IsFaultOfText text.now) }
{
    if text.len() > TEXT_BYTES {
        return Err(Fault::Read);
    }
    Ok(())
}
