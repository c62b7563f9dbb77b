//! The bytes of instructions (docs/INSTRUCTIONS.md).

ghost use Rattle.std.specs.Prelude.{◌≡◌, ◌++◌, IfOk, OnOk};
ghost use Rattle.std.specs.List.{flat_map};
ghost use Rattle.bpf_insn.specs.Encoding.{spelling};
ghost use Rattle.bpf_insn.specs.inner.Programs.{spelling_at};

use crate::forms::Insn;
use crate::slot::Slot;
use std::alloc::{AllocError, Global};

/// Adds the spelling of an instruction.
fn push_spelling(image: &mut Vec<u8>, insn: Insn) -> Result<(), AllocError>
    ensures { OnOk result (image.new.items ≡ image.old.items ++ spelling insn) }
{
    image.extend_from_slice(&Slot::of(insn).bytes())?;
    match insn {
        Insn::LoadImm64 { value, .. } => {
            image.extend_from_slice(&[0; 4])?;
            image.extend_from_slice(&((value >> 32) as u32).to_le_bytes())
        }
        Insn::Alu { .. }
        | Insn::Neg { .. }
        | Insn::Movsx { .. }
        | Insn::Swap { .. }
        | Insn::Ja { .. }
        | Insn::JaLong { .. }
        | Insn::Branch { .. }
        | Insn::Call { .. }
        | Insn::Exit
        | Insn::Load { .. }
        | Insn::LoadSx { .. }
        | Insn::StoreReg { .. }
        | Insn::StoreImm { .. } => Ok(()),
    }
}

fn push_found(image: &mut Vec<u8>, found: Option<Insn>) -> Result<(), AllocError>
    ensures { OnOk result (image.new.items ≡ image.old.items ++ spelling_at found) }
{
    match found {
        Some(insn) => push_spelling(image, insn),
        None => Ok(()),
    }
}

/// The spellings of the instructions in these slots, in order.
pub(crate) fn spell_slots(alloc: Global, slots: &[Option<Insn>]) -> Result<Vec<u8>, AllocError>
    ensures { IfOk result (λ bytes. bytes.items ≡ flat_map spelling_at slots.now) }
{
    let mut image = Vec::with_capacity(alloc, slots.len().saturating_mul(8))?;
    for found in slots {
        push_found(&mut image, *found)?;
    }
    Ok(image)
}
