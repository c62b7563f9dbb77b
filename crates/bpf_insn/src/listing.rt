//! Programs: whole instructions in their slots.

ghost use Rattle.std.specs.Prelude.{◌≡◌, ◌∷◌, ◌++◌, [], ◌<◌, ◌≤◌, ◌+◌, length, IfOk, IfErr, OnOk, IfSome, IfNone};
ghost use Rattle.std.specs.Prelude.{OnSome, option_map};
ghost use Rattle.std.specs.Prelude.{All, slice_get};
ghost use Rattle.bpf_insn.specs.declared.listing.TheConstants.{MAX_SLOTS};
ghost use Rattle.bpf_insn.specs.Encoding.{InRange};
ghost use Rattle.bpf_insn.specs.Programs.{slots_of, IsProgram, RefusesInsns};
ghost use Rattle.bpf_insn.specs.inner.Programs.{slots_by, layout, inner};

use crate::forms::Insn;
use crate::spelling::spell_slots;
use std::alloc::{AllocError, Global};
use std::marker::Model;

/// The most slots of a program. An image has 8 bytes for each.
pub const MAX_SLOTS: usize = 2048;

/// A program: one to [`MAX_SLOTS`] slots of whole instructions. Contracts see the list of its instructions.
#[derive(Drop)]
pub struct Program {
    pub(crate) slots: Vec<Option<Insn>>,
    /// Its bytes, by which it is compared.
    pub(crate) image: Vec<u8>,
}

impl Model for Program {
    ghost use Rattle.std.specs.Prelude.{List};
    ghost use Rattle.bpf_insn.specs.declared.forms.Insn.{Insn};
    ghost use Rattle.std.specs.Prelude.{◌≡◌};
    ghost use Rattle.bpf_insn.specs.Programs.{image_of};
    ghost use Rattle.bpf_insn.specs.inner.Programs.{insns_at_slots, IsLaidOut};

    ghost Value = { List Insn };

    ghost view = { λ p. insns_at_slots p.slots.items };

    ghost invariant = { λ p. IsLaidOut p.slots.items × (p.image.items ≡ image_of (insns_at_slots p.slots.items)) };
}

/// Why instructions are no program.
#[derive(Clone, Copy, Debug, PartialEq, Eq)]
pub enum ProgramError {
    /// There are none.
    Empty,
    /// They take more than [`MAX_SLOTS`] slots.
    TooLong,
    /// Memory was short.
    Memory,
}

/// Adds the slots of an instruction.
pub(crate) fn push_slots(slots: &mut Vec<Option<Insn>>, insn: Insn) -> Result<(), AllocError>
    ensures { OnOk result (slots.new.items ≡ slots.old.items ++ slots_by insn) }
{
    slots.push(Some(insn))?;
    if insn.slots() == 2 {
        slots.push(None)?;
    }
    Ok(())
}

/// The number of slots, if there are not too many.
fn count_slots(insns: &[Insn]) -> Option<usize>
    ensures some { IfSome result (λ count. (count ≡ slots_of insns.now) × (count ≤ MAX_SLOTS)) }
    ensures in_range { OnSome result (All InRange insns.now) }
    ensures none { IfNone result (MAX_SLOTS < slots_of insns.now) }
{
    let mut count = 0;
    for insn in insns {
        count += insn.slots();
        if count > MAX_SLOTS {
            return None;
        }
    }
    Some(count)
}

fn lay_out(alloc: Global, insns: &[Insn], count: usize) -> Result<Vec<Option<Insn>>, AllocError>
    ensures { IfOk result (λ slots. slots.items ≡ layout insns.now) }
{
    let mut slots = Vec::with_capacity(alloc, count)?;
    for insn in insns {
        push_slots(&mut slots, *insn)?;
    }
    Ok(slots)
}

#[inline(always)]
fn look_up(slots: &[Option<Insn>], slot: usize) -> Option<Insn>
    ensures { result ≡ inner (slice_get slots.now slot) }
{
    if slot < slots.len() {
        slots[slot]
    } else {
        None
    }
}

/// The same, where it occurs.
#[inline(always)]
fn find(slots: &[Option<Insn>], slot: usize) -> Option<&Insn>
    ensures { option_map (λ insn. insn.now) result ≡ inner (slice_get slots.now slot) }
{
    if slot < slots.len() {
        slots[slot].as_ref()
    } else {
        None
    }
}

/// The program with these instructions, which take this many slots.
fn with_image(alloc: Global, insns: &[Insn], count: usize) -> Result<Program, AllocError>
    requires { IsProgram insns.now }
    ensures { IfOk result (λ p. p ≡ insns.now) }
{
    let slots = lay_out(alloc, insns, count)?;
    let image = spell_slots(alloc, &slots)?;
    Ok(Program { slots, image })
}

/// Returns the program with these instructions. A refusal hands them back; `Memory` comes last.
pub fn program_of(alloc: Global, insns: Vec<Insn>) -> Result<Program, (Vec<Insn>, ProgramError)>
    ensures program { IfOk result (λ p. (p ≡ insns.items) × IsProgram p) }
    ensures back { IfErr result (λ e. e.0 ≡ insns) }
    ensures refusal { IfErr result (λ e. RefusesInsns insns.items e.1) }
{
    if insns.is_empty() {
        return Err((insns, ProgramError::Empty));
    }
    let Some(count) = count_slots(&insns) else {
        return Err((insns, ProgramError::TooLong));
    };
    match with_image(alloc, &insns, count) {
        Ok(program) => Ok(program),
        Err(_) => Err((insns, ProgramError::Memory)),
    }
}

impl Program {
    ghost use Rattle.std.specs.Prelude.{◌≡◌};
    ghost use Rattle.std.specs.Prelude.{IfOk, IfSome, IsSome, IsTrue, ◌↔◌, ◌+◌, ◌≤◌, option_map};
    ghost use Rattle.bpf_insn.specs.Encoding.{slots_taken};
    ghost use Rattle.bpf_insn.specs.Programs.{image_of, insn_at, slots_of, IsProgram};

    /// Returns the number of its slots: a wide instruction has two.
    #[inline(always)]
    pub fn slot_count(&self) -> u32
        ensures count { result ≡ slots_of self.now }
        ensures program { IsProgram self.now }
        ensures first { IsSome (insn_at self.now 0) }
    {
        self.slots.len() as u32
    }

    /// Returns the instruction that begins at a slot: none at the second slot of a wide one, and none past the end.
    #[inline(always)]
    pub fn insn_at(&self, slot: u32) -> Option<Insn>
        ensures found { result ≡ insn_at self.now slot }
        ensures within { IfSome result (λ insn. slot + slots_taken insn ≤ slots_of self.now) }
        ensures program { IsProgram self.now }
    {
        look_up(&self.slots, slot as usize)
    }

    /// Returns a reference to the instruction that begins at a slot: none if [`Program::insn_at`] finds none.
    #[inline(always)]
    pub fn at(&self, slot: u32) -> Option<&Insn>
        ensures found { option_map (λ insn. insn.now) result ≡ insn_at self.now slot }
        ensures within { IfSome result (λ insn. slot + slots_taken insn.now ≤ slots_of self.now) }
        ensures program { IsProgram self.now }
    {
        find(&self.slots, slot as usize)
    }

    /// Its image, as [`encode`](crate::encode) gives it.
    pub fn image(&self) -> &[u8]
        ensures image { result.now ≡ image_of self.now }
        ensures program { IsProgram self.now }
    {
        &self.image
    }

    /// Returns whether the other program has the same instructions. Images are compared.
    pub fn same(&self, other: &Program) -> bool
        ensures { IsTrue result ↔ (self.now ≡ other.now) }
    {
        let same = self.image() == other.image();
        same
    }

    /// Returns a program with the same instructions. Fails only if memory runs out.
    pub fn copy(&self, alloc: Global) -> Result<Program, AllocError>
        ensures { IfOk result (λ p. p ≡ self.now) }
    {
        Ok(Program {
            slots: Vec::from_slice(alloc, &self.slots)?,
            image: Vec::from_slice(alloc, &self.image)?,
        })
    }
}
