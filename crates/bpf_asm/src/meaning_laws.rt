//! Laws of what texts mean.

ghost use Rattle.std.specs.Prelude.{◌≡◌, ℕ, List, MatchResult};
ghost use Rattle.bpf_insn.specs.declared.forms.Insn.{Insn};
ghost use Rattle.bpf_insn.specs.Programs.{IsProgram};
ghost use Rattle.bpf_asm.specs.Canonical.{canonical_text};
ghost use Rattle.bpf_asm.specs.Meaning.{Means};

use crate::assembler::assemble;
use crate::printing::disassemble;
use crate::text_error::TextError;
use bpf_insn::Program;
use std::alloc::Global;

/// States that a text means at most one program.
pub fn one_meaning()
    ensures { (text : List ℕ) (p q : List Insn) → Means text p → Means text q → p ≡ q }
{}

/// States that the canonical text of a program means that program.
pub fn canonical_text_means_its_program()
    ensures { (p : List Insn) → IsProgram p → Means (canonical_text p) p }
{}

/// Disassembles a program, and assembles its text: that gives the program back. Fails only for lack of memory.
pub fn text_round_trip(alloc: Global, program: &Program) -> Result<Program, TextError>
    ensures { MatchResult result (λ p. p ≡ program.now) (λ e. e ≡ TextError.Memory) }
{
    let text = disassemble(alloc, program)?;
    assemble(alloc, text.as_bytes())
}
