//! `dis`: the canonical text of a program.
ghost use Rattle.std.specs.Prelude.{◌≡◌, IfErr, IfOk};
ghost use Rattle.clock_nodes.specs.Listings.{clock_listing};
ghost use Rattle.command_answers.specs.declared.ending.Ending.TheVariants.{Done};
ghost use Rattle.program_commands.specs.Dis.{dis_text, listing_ending, listing_text};
ghost use Rattle.command_answers.specs.Faults.{IsOutOfMemory};
ghost use Rattle.command_answers.specs.Image.{ReadsImage};
ghost use Rattle.command_answers.specs.inner.Responses.{IsNoted, IsResponse};

use crate::program::program_in;
use bpf_asm::{disassemble, list_program};
use bpf_insn::Program;
use clock_nodes::{ClockRule, dolev_welch};
use command_answers::{Fault, Rejection, Response, Unread, rejected};
use node_env::{MEMORY_UNIT, Shape};
use requests::ClockOptions;
use std::alloc::{AllocError, Global};

/// Returns the canonical text of the program of an image, or its listing.
pub fn dis(alloc: Global, list: bool, image: &[u8]) -> Result<Response, Fault>
    ensures response { IfOk result (IsResponse (ReadsImage image.now) (listing_text list) listing_ending) }
    ensures noted { IfOk result IsNoted }
    ensures fault { IfErr result IsOutOfMemory }
{
    match program_in(alloc, image)? {
        Ok(program) => match text_of(alloc, list, &program) {
            Ok(text) => Ok(Response::done(text)),
            Err(_) => Err(Fault::Memory),
        },
        Err(error) => rejected(alloc, &Rejection::Program(Unread::Image(error)), image),
    }
}

/// Returns the canonical text of a program, or its listing.
pub fn text_of(alloc: Global, list: bool, program: &Program) -> Result<Vec<u8>, AllocError>
    ensures { IfOk result (λ text. text.items ≡ dis_text list program.now) }
{
    if list {
        list_program(alloc, program)
    } else {
        disassemble(alloc, program).map(String::into_bytes)
    }
}

/// Returns the canonical text of the clock of a rule, or its listing.
pub fn clock(alloc: Global, options: ClockOptions) -> Result<Response, Fault>
    ensures text { IfOk result (λ response. response.text.items ≡ dis_text options.list (clock_listing options.rule)) }
    ensures ending { IfOk result (λ response. response.ending ≡ Done) }
    ensures noted { IfOk result IsNoted }
    ensures fault { IfErr result IsOutOfMemory }
{
    match clock_text(alloc, options) {
        Ok(text) => Ok(Response::done(text)),
        Err(_) => Err(Fault::Memory),
    }
}

fn clock_text(alloc: Global, options: ClockOptions) -> Result<Vec<u8>, AllocError>
    ensures { IfOk result (λ text. text.items ≡ dis_text options.list (clock_listing options.rule)) }
{
    let program = clock_program(alloc, options.rule)?;
    text_of(alloc, options.list, &program)
}

fn clock_program(alloc: Global, rule: ClockRule) -> Result<Program, AllocError>
    ensures { IfOk result (λ program. program ≡ clock_listing rule) }
{
    dolev_welch(alloc, least_shape(rule), rule)
}

/// Returns the nodes of a rule with as little memory as there may be.
fn least_shape(rule: ClockRule) -> Shape
    ensures { result.nodes ≡ rule.nodes }
{
    match Shape::of(rule.nodes(), MEMORY_UNIT) {
        Some(shape) => shape,
        None => unreachable!(),
    }
}
