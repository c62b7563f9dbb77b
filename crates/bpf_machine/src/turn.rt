//! One step of the machine, in parts that each give what their definition gives.

ghost use Rattle.std.specs.Prelude.{◌≡◌, ◌≤◌, ◌<◌, ◌+◌, length};
ghost use Rattle.bpf_insn.specs.declared.listing.TheConstants.{MAX_SLOTS};
ghost use Rattle.bpf_insn.specs.declared.forms.Insn.TheVariants.{Branch};
ghost use Rattle.bpf_insn.specs.Encoding.{slots_taken};
ghost use Rattle.bpf_machine.specs.Machine.{state_of};
ghost use Rattle.bpf_machine.specs.Step.{advance, begins, next_slot, result_of_exit, step};
ghost use Rattle.bpf_machine.specs.inner.Parts.{Comes, Does, jump};

use crate::alu::{alu, load_immediate, movsx, neg, swap};
use crate::bytes::{load, load_extended, store_immediate, store_register};
use crate::calls::call;
use crate::state::{State, number};
use crate::word::{TrapKind, Turn};
use bpf_insn::{Cond, Insn, Operand, Program, Reg, Width, holds};
use node_env::{Env, Outbox};

#[inline(always)]
fn begins(program: &Program, slot: u32) -> Result<u32, TrapKind>
    ensures { result ≡ begins program.now slot }
{
    match program.at(slot) {
        Some(_) => Ok(slot),
        None => Err(TrapKind::BadJump),
    }
}

/// Where a jump leads.
#[tactic(auto, using(bpf_insn::proofs::LayoutLaws::past_end))]
#[inline(always)]
fn jump(program: &Program, slot: u32, off: i32) -> Result<u32, TrapKind>
    ensures { result ≡ jump program.now slot off }
{
    let count = program.slot_count();
    let to = i64::from(slot) + 1 + i64::from(off);
    if to < 0 {
        return Err(TrapKind::BadJump);
    }
    if to >= i64::from(count) {
        return Err(TrapKind::BadJump);
    }
    begins(program, to as u32)
}

/// Where a branch leads.
#[inline(always)]
fn branch(
    program: &Program,
    state: &State,
    cond: Cond,
    width: Width,
    dst: Reg,
    src: Operand,
    off: i16,
) -> Result<u32, TrapKind>
    requires { state.now.slot < MAX_SLOTS }
    ensures { result ≡ next_slot program.now (Branch cond width dst src off) state.now }
{
    let a = state.word(dst)?;
    let b = state.operand(src)?;
    let a = number(a, TrapKind::NotNumber)?;
    let b = number(b, TrapKind::NotNumber)?;
    if holds(cond, width, a, b) {
        jump(program, state.slot(), i32::from(off))
    } else {
        begins(program, state.slot() + 1)
    }
}

/// Runs an instruction that leads to another.
#[inline(always)]
fn advance(
    program: &Program,
    env: &Env,
    insn: &Insn,
    state: &mut State,
    memory: &mut [u8],
    outbox: &mut Outbox,
) -> Result<(), TrapKind>
    requires within { state.old.slot + slots_taken insn.now ≤ MAX_SLOTS }
    requires memory { length memory.old ≡ env.now.shape.memory }
    requires nodes { outbox.old.nodes ≡ env.now.shape.nodes }
    ensures does { Does (advance program.now env.now insn.now (state_of state.old memory.old outbox.old.sent))
        (state_of state.old memory.old outbox.old.sent) (state_of state.new memory.new outbox.new.sent) result }
    ensures nodes { outbox.new.nodes ≡ outbox.old.nodes }
{
    let slot = state.slot();
    match *insn {
        Insn::Alu {
            op,
            width,
            dst,
            src,
        } => {
            let next = begins(program, slot + 1)?;
            alu(env, state, op, width, dst, src)?;
            state.go_to(next);
        }
        Insn::Neg { width, dst } => {
            let next = begins(program, slot + 1)?;
            neg(state, width, dst)?;
            state.go_to(next);
        }
        Insn::Movsx { kind, dst, src } => {
            let next = begins(program, slot + 1)?;
            movsx(state, kind, dst, src)?;
            state.go_to(next);
        }
        Insn::Swap { order, bits, dst } => {
            let next = begins(program, slot + 1)?;
            swap(state, order, bits, dst)?;
            state.go_to(next);
        }
        Insn::Ja { off } => state.go_to(jump(program, slot, i32::from(off))?),
        Insn::JaLong { off } => state.go_to(jump(program, slot, off)?),
        Insn::Branch {
            cond,
            width,
            dst,
            src,
            off,
        } => {
            let next = branch(program, state, cond, width, dst, src, off)?;
            state.go_to(next);
        }
        Insn::Call { id } => {
            let next = begins(program, slot + 1)?;
            call(env, state, outbox, id)?;
            state.go_to(next);
        }
        Insn::Exit => return Err(TrapKind::BadJump),
        Insn::Load {
            size,
            dst,
            base,
            off,
        } => {
            let next = begins(program, slot + 1)?;
            load(env, state, memory, size, dst, base, off)?;
            state.go_to(next);
        }
        Insn::LoadSx {
            size,
            dst,
            base,
            off,
        } => {
            let next = begins(program, slot + 1)?;
            load_extended(env, state, memory, size, dst, base, off)?;
            state.go_to(next);
        }
        Insn::StoreReg {
            size,
            base,
            off,
            src,
        } => {
            let next = begins(program, slot + 1)?;
            store_register(env, state, memory, size, base, off, src)?;
            state.go_to(next);
        }
        Insn::StoreImm {
            size,
            base,
            off,
            imm,
        } => {
            let next = begins(program, slot + 1)?;
            store_immediate(env, state, memory, size, base, off, imm)?;
            state.go_to(next);
        }
        Insn::LoadImm64 { dst, value } => {
            let next = begins(program, slot + 2)?;
            load_immediate(state, dst, value)?;
            state.go_to(next);
        }
    }
    Ok(())
}

fn result_of_exit(state: &State) -> Result<u64, TrapKind>
    ensures { result ≡ result_of_exit state.now }
{
    let word = state.word(Reg::R0)?;
    number(word, TrapKind::ExitNotNumber)
}

/// What the instruction at the state's slot does. At the end of the run and at a trap nothing changes.
#[inline(always)]
pub(crate) fn turn(
    program: &Program,
    env: &Env,
    state: &mut State,
    memory: &mut [u8],
    outbox: &mut Outbox,
) -> Turn
    requires memory { length memory.old ≡ env.now.shape.memory }
    requires nodes { outbox.old.nodes ≡ env.now.shape.nodes }
    ensures comes { Comes (step program.now env.now (state_of state.old memory.old outbox.old.sent))
        (state_of state.old memory.old outbox.old.sent) (state_of state.new memory.new outbox.new.sent) result }
    ensures nodes { outbox.new.nodes ≡ outbox.old.nodes }
{
    match program.at(state.slot()) {
        None => Turn::Trap(TrapKind::BadJump),
        Some(Insn::Exit) => match result_of_exit(state) {
            Ok(r0) => Turn::Ended(r0),
            Err(kind) => Turn::Trap(kind),
        },
        Some(insn) => match advance(program, env, insn, state, memory, outbox) {
            Ok(()) => Turn::Next,
            Err(kind) => Turn::Trap(kind),
        },
    }
}
