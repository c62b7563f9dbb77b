//! The line of a text whose instruction begins at a slot.
ghost use Rattle.std.specs.Prelude.{◌≡◌, IfOk, IfSome};
ghost use Rattle.bpf_asm.specs.Meaning.{Means};
ghost use Rattle.scenario_notes.specs.Slots.{IsLineOfSlot};
ghost use Rattle.scenario_notes.specs.inner.Slots.{IsAtSlot};

use bpf_asm::{TextError, assemble, instruction_lines, listed_slots_are_the_programs};
use bpf_insn::Program;
use std::alloc::{AllocError, Global};

/// Returns what is at the place, in these, of the instruction that begins at the slot.
fn at_slot(program: &Program, lines: &[usize], slot: u32) -> Option<usize>
    ensures { IfSome result (IsAtSlot program.now lines.now slot) }
{
    let mut next = 0;
    for line in lines {
        let insn = program.insn_at(next)?;
        if next == slot {
            return Some(*line);
        }
        next += insn.slots() as u32;
    }
    None
}

/// Returns the line, from 1 on, if the text means a program and an instruction of it begins at the slot.
#[tactic(auto, using(crate::proofs::SlotLemmas::line_of_slot))]
pub(crate) fn line_of_slot(
    alloc: Global,
    text: &[u8],
    slot: u32,
) -> Result<Option<usize>, AllocError>
    ensures { IfOk result (λ found. IfSome found (IsLineOfSlot text.now slot)) }
{
    let program = match assemble(alloc, text) {
        Ok(program) => program,
        Err(TextError::Memory) => return Err(AllocError),
        Err(_) => return Ok(None),
    };
    let lines = instruction_lines(alloc, text)?;
    listed_slots_are_the_programs();
    Ok(at_slot(&program, lines.as_slice(), slot))
}
