//! Decides whether a program is blind: whether it never reads its node's number.
ghost use Rattle.std.specs.Prelude.{◌≡◌, ◌+◌, ◌<◌, ◌==◌, ℕ, true, false, IfOk, Some, length};
ghost use Rattle.bpf_insn.specs.Registers.{register_number};
ghost use Rattle.bpf_insn.specs.Operands.{call_of};
ghost use Rattle.bpf_insn.specs.Programs.{insn_at};
ghost use Rattle.bpf_record.specs.Blind.{IsBlind, reads_register, replaces, calls_id, is_id, is_numbered, changed_by_call};
ghost use Rattle.bpf_record.specs.inner.Marks.{is_marked_at, GrowsAfter, HidesBefore, IsPassed};

use bpf_insn::{Insn, Program, Reads, Reg, Way, call_of, registers_read, target, written_by};
use node_env::{Helper, arguments_of};
use std::alloc::{AllocError, Global};

/// Whether the register has the node's number at entry.
#[inline(always)]
fn is_r2(register: Reg) -> bool
    ensures { result ≡ (register_number register == 2) }
{
    register.number() == 2
}

/// Whether the instruction reads r2.
#[inline(always)]
fn reads_r2(insn: &Insn) -> bool
    ensures { result ≡ reads_register insn.now 2 }
{
    let arguments = match call_of(insn) {
        Some(id) => arguments_of(id),
        None => 0,
    };
    match registers_read(insn, arguments) {
        Reads::Nothing => false,
        Reads::One(first) => is_r2(first),
        Reads::Two(first, second) => is_r2(first) || is_r2(second),
    }
}

/// Whether the register that an instruction writes is r2.
#[inline(always)]
fn is_written(register: Option<Reg>) -> bool
    ensures { result ≡ is_numbered register 2 }
{
    match register {
        Some(register) => 2 == register.number(),
        None => false,
    }
}

/// Whether it is a call, which unsets r2.
#[inline(always)]
fn is_call(id: Option<i32>) -> bool
    ensures { result ≡ changed_by_call id 2 }
{
    id.is_some()
}

/// Whether the instruction writes or unsets r2.
#[inline(always)]
fn replaces_r2(insn: &Insn) -> bool
    ensures { result ≡ replaces insn.now 2 }
{
    is_written(written_by(insn)) || is_call(call_of(insn))
}

/// Whether the helper is `id`.
#[inline(always)]
fn is_id(helper: Option<Helper>) -> bool
    ensures { result ≡ is_id helper }
{
    match helper {
        Some(Helper::Id) => true,
        Some(Helper::Recv) | Some(Helper::Send) | Some(Helper::Coin) | None => false,
    }
}

/// Whether the instruction is a call of `id`.
#[inline(always)]
fn calls_id(insn: &Insn) -> bool
    ensures { result ≡ calls_id (call_of insn.now) }
{
    match call_of(insn) {
        Some(id) => is_id(Helper::of(id)),
        None => false,
    }
}

/// Marks a slot after `slot`. Returns false if the slot to mark isn't after it, or is past the end.
#[inline(always)]
fn mark(marks: &mut [bool], slot: u32, to: Option<u64>) -> bool
    ensures long { length marks.new ≡ length marks.old }
    ensures grows { GrowsAfter slot (is_marked_at marks.old) (is_marked_at marks.new) }
    ensures marked { result ≡ true → (at : ℕ) → to ≡ Some at → is_marked_at marks.new at ≡ true }
{
    let Some(to) = to else {
        return true;
    };
    if to > u64::from(slot) && to < marks.len() as u64 {
        marks[to as usize] = true;
        return true;
    }
    false
}

/// Reads an instruction at which r2 may hold the node's number: unless the instruction replaces r2, its successors are
/// marked. Returns false if it reads r2, or if a successor can't be marked.
fn pass(marks: &mut [bool], slot: u32, insn: &Insn) -> bool
    ensures long { length marks.new ≡ length marks.old }
    ensures grows { GrowsAfter slot (is_marked_at marks.old) (is_marked_at marks.new) }
    ensures passed { result ≡ true → IsPassed insn.now slot (is_marked_at marks.new) }
{
    if reads_r2(insn) {
        return false;
    }
    if replaces_r2(insn) {
        return true;
    }
    mark(marks, slot, target(insn, slot, Way::Onward))
        && mark(marks, slot, target(insn, slot, Way::Jumping))
}

/// Reads the instruction at a slot. Returns false if it may read the node's number.
fn read_slot(program: &Program, marks: &mut [bool], slot: u32) -> bool
    requires within { slot < length marks.old }
    requires before { HidesBefore program.now slot (is_marked_at marks.old) }
    ensures long { length marks.new ≡ length marks.old }
    ensures hides { result ≡ true → HidesBefore program.now (slot + 1) (is_marked_at marks.new) }
{
    let Some(insn) = program.at(slot) else {
        return true;
    };
    if calls_id(insn) {
        return false;
    }
    if !marks[slot as usize] {
        return true;
    }
    pass(marks, slot, insn)
}

/// Returns true only if the program is blind: on no path does it read its node's number. A false promises nothing.
/// Fails only if memory runs out.
pub fn is_blind(alloc: Global, program: &Program) -> Result<bool, AllocError>
    ensures { IfOk result (λ blind. blind ≡ true → IsBlind program.now) }
{
    let count = program.slot_count();
    let mut marks = vec![in alloc; false; count as usize]?;
    marks[0] = true;
    for slot in 0..count {
        if !read_slot(program, &mut marks, slot) {
            return Ok(false);
        }
    }
    Ok(true)
}
