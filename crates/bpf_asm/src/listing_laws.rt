//! Laws of listings.

ghost use Rattle.std.specs.Prelude.{◌≡◌, ℕ, List, length};
ghost use Rattle.bpf_insn.specs.declared.forms.Insn.{Insn};
ghost use Rattle.bpf_asm.specs.Listing.{beginnings_from, instruction_lines, instruction_slots};
ghost use Rattle.bpf_asm.specs.Meaning.{Means};

/// States that the slots beside the lines of a text are those at which the instructions of its program begin.
pub fn listed_slots_are_the_programs()
    ensures slots { (text : List ℕ) (program : List Insn) → Means text program
        → instruction_slots text ≡ beginnings_from 0 program }
    ensures count { (text : List ℕ) (program : List Insn) → Means text program
        → length (instruction_lines text) ≡ length program }
{}
