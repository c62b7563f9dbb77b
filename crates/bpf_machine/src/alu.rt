//! Arithmetic on registers (RFC 9669, sections 4.1 and 4.2).

ghost use Rattle.std.specs.Prelude.{◌≡◌, Ok, Err};
ghost use Rattle.bpf_machine.specs.Step.{alu, alu_word, change, difference_of, load_immediate, move, moved_word, of_numbers, operate, pointer, sum_of};
ghost use Rattle.bpf_machine.specs.inner.Parts.{Does};
ghost use Rattle.bpf_insn.specs.Arithmetic.{movsx_result, neg_result, swap_result};

use crate::state::{State, number, writable};
use crate::word::{TrapKind, Word};
use bpf_insn::{AluOp, MovsxKind, Operand, Order, Reg, SwapBits, Width};
use node_env::{Env, Region};

fn pointer(env: &Env, region: Region, offset: u64) -> Result<Word, TrapKind>
    ensures { result ≡ pointer env.now region offset }
{
    if offset <= u64::from(env.shape().region_size(region)) {
        Ok(Word::Ptr(region, offset as u32))
    } else {
        Err(TrapKind::OutOfRegion)
    }
}

fn of_numbers(op: AluOp, width: Width, a: Word, b: Word) -> Result<Word, TrapKind>
    ensures { result ≡ of_numbers op width a b }
{
    let a = number(a, TrapKind::NotNumber)?;
    let b = number(b, TrapKind::NotNumber)?;
    Ok(Word::Num(bpf_insn::alu(op, width, a, b)))
}

fn sum(env: &Env, a: Word, b: Word) -> Result<Word, TrapKind>
    ensures { result ≡ sum_of env.now a b }
{
    let (region, offset) = match (a, b) {
        (Word::Ptr(region, offset), Word::Num(n)) => {
            (
                region,
                bpf_insn::alu(AluOp::Add, Width::W64, u64::from(offset), n),
            )
        }
        (Word::Num(n), Word::Ptr(region, offset)) => {
            (
                region,
                bpf_insn::alu(AluOp::Add, Width::W64, n, u64::from(offset)),
            )
        }
        (Word::Num(_), Word::Num(_)) => return of_numbers(AluOp::Add, Width::W64, a, b),
        (Word::Ptr(_, _), Word::Ptr(_, _)) => return Err(TrapKind::NotNumber),
    };
    pointer(env, region, offset)
}

fn difference(env: &Env, a: Word, b: Word) -> Result<Word, TrapKind>
    ensures { result ≡ difference_of env.now a b }
{
    match (a, b) {
        (Word::Ptr(region, offset), Word::Num(n)) => {
            let offset = bpf_insn::alu(AluOp::Sub, Width::W64, u64::from(offset), n);
            pointer(env, region, offset)
        }
        (Word::Num(_), Word::Num(_)) => of_numbers(AluOp::Sub, Width::W64, a, b),
        (Word::Num(_), Word::Ptr(_, _)) => Err(TrapKind::NotNumber),
        (Word::Ptr(_, _), Word::Ptr(_, _)) => Err(TrapKind::NotNumber),
    }
}

fn alu_word(env: &Env, op: AluOp, width: Width, a: Word, b: Word) -> Result<Word, TrapKind>
    ensures { result ≡ alu_word env.now op width a b }
{
    match (op, width) {
        (AluOp::Add, Width::W64) => sum(env, a, b),
        (AluOp::Sub, Width::W64) => difference(env, a, b),
        _ => of_numbers(op, width, a, b),
    }
}

fn moved_word(width: Width, word: Word) -> Result<Word, TrapKind>
    ensures { result ≡ moved_word width word }
{
    match width {
        Width::W64 => Ok(word),
        Width::W32 => {
            let n = number(word, TrapKind::NotNumber)?;
            Ok(Word::Num(bpf_insn::alu(AluOp::Mov, Width::W32, 0, n)))
        }
    }
}

fn move_operand(state: &mut State, width: Width, dst: Reg, src: Operand) -> Result<(), TrapKind>
    ensures { Does (move width dst src state.old) state.old state.new result }
{
    let operand = state.operand(src)?;
    let register = writable(dst)?;
    let word = moved_word(width, operand)?;
    state.set_register(register, word);
    Ok(())
}

#[cold]
#[inline(never)]
fn operate_on_words(
    env: &Env,
    state: &mut State,
    op: AluOp,
    width: Width,
    dst: Reg,
    src: Operand,
) -> Result<(), TrapKind>
    ensures { Does (operate env.now op width dst src state.old) state.old state.new result }
{
    let a = state.word(dst)?;
    let b = state.operand(src)?;
    let register = writable(dst)?;
    let word = alu_word(env, op, width, a, b)?;
    state.set_register(register, word);
    Ok(())
}

/// The words are numbers, nearly always: then regions don't matter.
#[tactic(auto, using(crate::proofs::NumberWords::of_two_numbers))]
#[inline(always)]
fn operate(
    env: &Env,
    state: &mut State,
    op: AluOp,
    width: Width,
    dst: Reg,
    src: Operand,
) -> Result<(), TrapKind>
    ensures { Does (operate env.now op width dst src state.old) state.old state.new result }
{
    let Some(a) = state.number_of(dst) else {
        return operate_on_words(env, state, op, width, dst, src);
    };
    let Some(b) = state.operand_number(src) else {
        return operate_on_words(env, state, op, width, dst, src);
    };
    let register = writable(dst)?;
    state.set_register(register, Word::Num(bpf_insn::alu(op, width, a, b)));
    Ok(())
}

/// Returns the result of an operation of two operands.
pub fn alu(
    env: &Env,
    state: &mut State,
    op: AluOp,
    width: Width,
    dst: Reg,
    src: Operand,
) -> Result<(), TrapKind>
    ensures { Does (alu env.now op width dst src state.old) state.old state.new result }
{
    match op {
        AluOp::Mov => move_operand(state, width, dst, src)?,
        _ => operate(env, state, op, width, dst, src)?,
    }
    Ok(())
}

/// Makes `dst` the negation of what it holds.
pub fn neg(state: &mut State, width: Width, dst: Reg) -> Result<(), TrapKind>
    ensures { Does (change (neg_result width) dst dst state.old) state.old state.new result }
{
    let word = state.word(dst)?;
    let register = writable(dst)?;
    let n = number(word, TrapKind::NotNumber)?;
    state.set_register(register, Word::Num(bpf_insn::neg(width, n)));
    Ok(())
}

/// Makes `dst` the low bits of `src`, their sign extended.
pub fn movsx(state: &mut State, kind: MovsxKind, dst: Reg, src: Reg) -> Result<(), TrapKind>
    ensures { Does (change (movsx_result kind) dst src state.old) state.old state.new result }
{
    let word = state.word(src)?;
    let register = writable(dst)?;
    let n = number(word, TrapKind::NotNumber)?;
    state.set_register(register, Word::Num(bpf_insn::movsx(kind, n)));
    Ok(())
}

/// Puts the low bytes of `dst` in order.
pub fn swap(state: &mut State, order: Order, bits: SwapBits, dst: Reg) -> Result<(), TrapKind>
    ensures { Does (change (swap_result order bits) dst dst state.old) state.old state.new result }
{
    let word = state.word(dst)?;
    let register = writable(dst)?;
    let n = number(word, TrapKind::NotNumber)?;
    state.set_register(register, Word::Num(bpf_insn::swap(order, bits, n)));
    Ok(())
}

/// Makes `dst` a number of 64 bits.
pub fn load_immediate(state: &mut State, dst: Reg, value: u64) -> Result<(), TrapKind>
    ensures { Does (load_immediate dst value state.old) state.old state.new result }
{
    let register = writable(dst)?;
    state.set_register(register, Word::Num(value));
    Ok(())
}
