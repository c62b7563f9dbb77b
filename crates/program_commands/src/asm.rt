//! `asm`: the image of a text.
ghost use Rattle.std.specs.Prelude.{◌≡◌, IfErr, IfOk};
ghost use Rattle.program_commands.specs.Asm.{assembled, assembled_ending, program_text};
ghost use Rattle.command_answers.specs.AsmText.{ReadsAsmText};
ghost use Rattle.command_answers.specs.Faults.{IsFaultOfText};
ghost use Rattle.command_answers.specs.inner.Responses.{IsNoted, IsResponse};

use crate::program::program_meant;
use bpf_asm::list_text;
use bpf_insn::{Program, encode};
use command_answers::{Fault, Rejection, Response, Unread, rejected};
use std::alloc::{AllocError, Global};

/// Returns the image of the program that a text means, or the text's listing.
pub fn asm(alloc: Global, list: bool, text: &[u8]) -> Result<Response, Fault>
    ensures response { IfOk result (IsResponse (ReadsAsmText text.now) (assembled list text.now) assembled_ending) }
    ensures noted { IfOk result IsNoted }
    ensures fault { IfErr result (IsFaultOfText text.now) }
{
    match program_meant(alloc, text)? {
        Ok(program) => match bytes_of(alloc, list, text, &program) {
            Ok(bytes) => Ok(Response::done(bytes)),
            Err(_) => Err(Fault::Memory),
        },
        Err(error) => rejected(alloc, &Rejection::Program(Unread::Text(error)), text),
    }
}

/// Returns the image of the program of a text, or the text's listing.
fn bytes_of(
    alloc: Global,
    list: bool,
    text: &[u8],
    program: &Program,
) -> Result<Vec<u8>, AllocError>
    ensures { IfOk result (λ bytes. bytes.items ≡ program_text list text.now program.now) }
{
    let image = encode(alloc, program)?;
    if list {
        list_text(alloc, text, image.as_slice())
    } else {
        Ok(image)
    }
}
