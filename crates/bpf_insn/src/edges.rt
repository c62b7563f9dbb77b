//! Where the machine can go on after an instruction.

ghost use Rattle.std.specs.Prelude.{◌≡◌, ◌≢◌, ◌+◌, ℕ, ℤ, List, Some, None};
ghost use Rattle.bpf_insn.specs.Programs.{IsProgram};
ghost use Rattle.bpf_insn.specs.Encoding.{slots_taken};
ghost use Rattle.bpf_insn.specs.declared.edges.Way.TheVariants.{Onward, Jumping};
ghost use Rattle.bpf_insn.specs.declared.forms.Insn.{Insn};
ghost use Rattle.bpf_insn.specs.declared.forms.Insn.TheVariants.{Exit};
ghost use Rattle.bpf_insn.specs.Edges.{distance, moved, next_edge, jump_edge, branch_edge};
ghost use Rattle.bpf_insn.specs.Edges.{target, BeginsAt};

use crate::forms::Insn;

/// The way on from an instruction.
#[derive(Clone, Copy, Debug, PartialEq, Eq)]
pub enum Way {
    /// To the instruction after it.
    Onward,
    /// By its jump.
    Jumping,
}

/// Returns how far a jump goes, in slots from the slot after it (RFC 9669, section 4.3); `None` if the instruction is
/// no jump.
pub fn distance(insn: &Insn) -> Option<i32>
    ensures { result ≡ distance insn.now }
{
    match *insn {
        Insn::Ja { off } => Some(i32::from(off)),
        Insn::JaLong { off } => Some(off),
        Insn::Branch { off, .. } => Some(i32::from(off)),
        Insn::Alu { .. }
        | Insn::Neg { .. }
        | Insn::Movsx { .. }
        | Insn::Swap { .. }
        | Insn::Call { .. }
        | Insn::Exit
        | Insn::Load { .. }
        | Insn::LoadSx { .. }
        | Insn::StoreReg { .. }
        | Insn::StoreImm { .. }
        | Insn::LoadImm64 { .. } => None,
    }
}

#[inline(always)]
fn jump_slot(slot: u32, off: i32) -> Option<u64>
    ensures { result ≡ moved (slot + 1) off }
{
    let next = u64::from(slot) + 1;
    let size = u64::from(off.unsigned_abs());
    if off >= 0 {
        Some(next + size)
    } else {
        next.checked_sub(size)
    }
}

#[inline(always)]
fn after(insn: Insn, slot: u32, way: Way) -> Option<u64>
    ensures { result ≡ next_edge insn slot way }
{
    match way {
        Way::Onward => Some(u64::from(slot) + insn.slots() as u64),
        Way::Jumping => None,
    }
}

#[inline(always)]
fn after_jump(slot: u32, off: i32, way: Way) -> Option<u64>
    ensures { result ≡ jump_edge slot off way }
{
    match way {
        Way::Onward => None,
        Way::Jumping => jump_slot(slot, off),
    }
}

#[inline(always)]
fn after_branch(slot: u32, off: i32, way: Way) -> Option<u64>
    ensures { result ≡ branch_edge slot off way }
{
    match way {
        Way::Onward => Some(u64::from(slot) + 1),
        Way::Jumping => jump_slot(slot, off),
    }
}

/// Returns the slot to which an instruction at `slot` leads on an edge: `None` if it has no such edge, as after EXIT,
/// or if the jump goes below slot 0. It may be past the end of a program, or in the middle of an instruction.
#[inline(always)]
pub fn target(insn: &Insn, slot: u32, way: Way) -> Option<u64>
    ensures { result ≡ target insn.now slot way }
{
    match *insn {
        Insn::Ja { off } => after_jump(slot, i32::from(off), way),
        Insn::JaLong { off } => after_jump(slot, off, way),
        Insn::Branch { off, .. } => after_branch(slot, i32::from(off), way),
        Insn::Exit => None,
        Insn::Alu { .. }
        | Insn::Neg { .. }
        | Insn::Movsx { .. }
        | Insn::Swap { .. }
        | Insn::Call { .. }
        | Insn::Load { .. }
        | Insn::LoadSx { .. }
        | Insn::StoreReg { .. }
        | Insn::StoreImm { .. }
        | Insn::LoadImm64 { .. } => after(*insn, slot, way),
    }
}

/// States the outgoing edges of each instruction, by its distance and the slots that it takes: one of two slots goes on
/// by two.
pub fn edges_by_distance()
    ensures jumping { (insn : Insn) (slot : ℕ) (off : ℤ) → distance insn ≡ Some off →
        target insn slot Jumping ≡ moved (slot + 1) off }
    ensures no_jump { (insn : Insn) (slot : ℕ) → distance insn ≡ None → target insn slot Jumping ≡ None }
    ensures onward { (insn : Insn) (slot : ℕ) → distance insn ≡ None → insn ≢ Exit →
        target insn slot Onward ≡ Some (slot + slots_taken insn) }
{}

/// States that each program begins with an instruction.
pub fn first_slot_begins()
    ensures { (program : List Insn) → IsProgram program → BeginsAt program 0 }
{}
