//! From a program to its canonical text.

ghost use Rattle.std.specs.Prelude.{◌≡◌, ◌++◌, IfOk, OnOk, string_bytes};
ghost use Rattle.bpf_insn.specs.Programs.{IsProgram};
ghost use Rattle.bpf_asm.specs.Canonical.{canonical_text};
ghost use Rattle.bpf_asm.specs.inner.Canonical.{found_insns};

use crate::line::CanonicalLine;
use bpf_insn::{Insn, Program};
use std::alloc::{AllocError, Global};

/// Adds the line of the instruction that is found at a slot.
fn push_line(text: &mut String, found: Option<Insn>) -> Result<(), AllocError>
    ensures { OnOk result (string_bytes text.new ≡ string_bytes text.old ++ canonical_text (found_insns found)) }
{
    match found {
        Some(insn) => {
            let line = CanonicalLine { insn };
            write!(text, "{line}\n")
        }
        None => Ok(()),
    }
}

/// Returns the canonical text of a program: a line for each instruction (docs/ASSEMBLER.md, "Canonical text"). Fails
/// only if memory runs out.
pub fn disassemble(alloc: Global, program: &Program) -> Result<String, AllocError>
    ensures text { IfOk result (λ text. string_bytes text ≡ canonical_text program.now) }
    ensures program { IsProgram program.now }
{
    let mut text = String::new(alloc);
    for slot in 0..program.slot_count() {
        push_line(&mut text, program.insn_at(slot))?;
    }
    Ok(text)
}
