//! The instructions that the code of rules is made of.
ghost use Rattle.std.specs.Prelude.{◌≡◌, ◌≤◌, ◌<◌, ◌+◌, ◌-◌, ◌*◌, min, pos, negsuc, length, IsTrue, ◌↔◌};
ghost use Rattle.bpf_insn.specs.declared.forms.Reg.TheVariants.{R1};
ghost use Rattle.bpf_insn.specs.declared.forms.Insn.TheVariants as i;
ghost use Rattle.rule_nodes.specs.Code.{number_place, fetch_code, keep_code, start_code, place_operand, set_number, copy, alu_op_of, cond_of, opposite, mirror, jump_on, jump_by, jump_register, jump_at, set_node};

use crate::numbers::{PLACES, Place};
use bpf_insn::{AluOp, Cond, Insn, MAX_SLOTS, Operand, Reg, Size, Width};
use rule_syntax::{Comparison, Operation};

/// Returns a move of a number of 32 bits.
pub fn set_number_of(dst: Reg, v: u32) -> Insn
    ensures { result ≡ set_number dst v }
{
    Insn::Alu {
        op: AluOp::Mov,
        width: Width::W32,
        dst,
        src: Operand::Imm(v.cast_signed()),
    }
}

/// Returns a move of a register.
pub fn copy_of(dst: Reg, src: Reg) -> Insn
    ensures { result ≡ copy dst src }
{
    Insn::Alu {
        op: AluOp::Mov,
        width: Width::W32,
        dst,
        src: Operand::Reg(src),
    }
}

// ---- places

/// Returns the offset of a place on the stack. A place past the last one has that of the last.
fn stack_offset(k: u32) -> i16
    requires { 3 ≤ k }
    ensures { result ≡ negsuc (4 * min (k - 3) (PLACES - 4) + 3) }
{
    let number = if k - 3 < PLACES - 4 {
        k - 3
    } else {
        PLACES - 4
    };
    -1 - (4 * number + 3) as i16
}

/// Returns the place of a number.
#[tactic(auto, using(crate::proofs::Places::place_on_stack))]
pub fn place_of(k: u32) -> Place
    ensures { result ≡ number_place k }
{
    match k {
        0 => Place::InRegister(Reg::R7),
        1 => Place::InRegister(Reg::R8),
        2 => Place::InRegister(Reg::R9),
        _ => Place::OnStack(stack_offset(k)),
    }
}

/// Returns the instruction that puts the number of a place into a register.
pub fn fetch_of(dst: Reg, place: Place) -> Insn
    ensures { result ≡ fetch_code dst place }
{
    match place {
        Place::InRegister(register) => copy_of(dst, register),
        Place::OnStack(off) => Insn::Load {
            size: Size::W,
            dst,
            base: Reg::R10,
            off,
        },
    }
}

/// Returns the instruction that puts r0 into a place.
pub fn keep_of(place: Place) -> Insn
    ensures { result ≡ keep_code place }
{
    match place {
        Place::InRegister(register) => copy_of(register, Reg::R0),
        Place::OnStack(off) => Insn::StoreReg {
            size: Size::W,
            base: Reg::R10,
            off,
            src: Reg::R0,
        },
    }
}

/// Returns the instruction that puts a number of 32 bits into a place.
pub fn start_of(place: Place, v: u32) -> Insn
    ensures { result ≡ start_code place v }
{
    match place {
        Place::InRegister(register) => set_number_of(register, v),
        Place::OnStack(off) => Insn::StoreImm {
            size: Size::W,
            base: Reg::R10,
            off,
            imm: v.cast_signed(),
        },
    }
}

/// Returns a place as the operand of an instruction.
pub fn place_operand_of(place: Place) -> Operand
    ensures { result ≡ place_operand place }
{
    match place {
        Place::InRegister(register) => Operand::Reg(register),
        Place::OnStack(_) => Operand::Reg(Reg::R1),
    }
}

// ---- nodes, operations and jumps

/// Returns the instruction that puts a node's number into r1.
pub fn set_node_of(node: u32) -> Insn
    requires { node < 64 }
    ensures { result ≡ set_node R1 node }
{
    Insn::Alu {
        op: AluOp::Mov,
        width: Width::W64,
        dst: Reg::R1,
        src: Operand::Imm(node as i32),
    }
}

/// Returns the instruction of an operation.
pub fn operation_of(op: Operation) -> AluOp
    ensures { result ≡ alu_op_of op }
{
    match op {
        Operation::Sum => AluOp::Add,
        Operation::Difference => AluOp::Sub,
        Operation::Product => AluOp::Mul,
        Operation::Quotient => AluOp::Div,
        Operation::Remainder => AluOp::Mod,
    }
}

fn condition_of(comparison: Comparison) -> Cond
    ensures { result ≡ cond_of comparison }
{
    match comparison {
        Comparison::Equal => Cond::Eq,
        Comparison::NotEqual => Cond::Ne,
        Comparison::Less => Cond::Lt,
        Comparison::AtMost => Cond::Le,
        Comparison::Greater => Cond::Gt,
        Comparison::AtLeast => Cond::Ge,
    }
}

fn opposite_of(comparison: Comparison) -> Comparison
    ensures { result ≡ opposite comparison }
{
    match comparison {
        Comparison::Equal => Comparison::NotEqual,
        Comparison::NotEqual => Comparison::Equal,
        Comparison::Less => Comparison::AtLeast,
        Comparison::AtMost => Comparison::Greater,
        Comparison::Greater => Comparison::AtMost,
        Comparison::AtLeast => Comparison::Less,
    }
}

/// Returns the same comparison with its sides changed over.
pub fn mirror_of(comparison: Comparison) -> Comparison
    ensures { result ≡ mirror comparison }
{
    match comparison {
        Comparison::Equal => Comparison::Equal,
        Comparison::NotEqual => Comparison::NotEqual,
        Comparison::Less => Comparison::Greater,
        Comparison::AtMost => Comparison::AtLeast,
        Comparison::Greater => Comparison::Less,
        Comparison::AtLeast => Comparison::AtMost,
    }
}

/// Returns the comparison of a jump that is taken if this one holds, or if it doesn't.
pub fn jump_on_of(when: bool, comparison: Comparison) -> Comparison
    ensures { result ≡ jump_on when comparison }
{
    if when {
        comparison
    } else {
        opposite_of(comparison)
    }
}

/// Returns the distance of a jump.
fn distance(far: usize) -> i16
    requires { far ≤ MAX_SLOTS }
    ensures { result ≡ pos far }
{
    far as i16
}

/// Returns a jump that compares r0 with an operand.
pub fn jump_by_of(comparison: Comparison, src: Operand, far: usize) -> Insn
    requires { far ≤ MAX_SLOTS }
    ensures { result ≡ jump_by comparison src far }
{
    Insn::Branch {
        cond: condition_of(comparison),
        width: Width::W32,
        dst: Reg::R0,
        src,
        off: distance(far),
    }
}

/// Returns a jump that compares a register with a constant.
pub fn jump_register_of(register: Reg, comparison: Comparison, v: u32, far: usize) -> Insn
    requires { far ≤ MAX_SLOTS }
    ensures { result ≡ jump_register register comparison v far }
{
    Insn::Branch {
        cond: condition_of(comparison),
        width: Width::W32,
        dst: register,
        src: Operand::Imm(v.cast_signed()),
        off: distance(far),
    }
}

/// Returns a jump that compares r0 with a small number.
pub fn jump_at_of(comparison: Comparison, v: u32, far: usize) -> Insn
    requires small { v ≤ 64 }
    requires near { far ≤ MAX_SLOTS }
    ensures { result ≡ jump_at comparison v far }
{
    Insn::Branch {
        cond: condition_of(comparison),
        width: Width::W32,
        dst: Reg::R0,
        src: Operand::Imm(v as i32),
        off: distance(far),
    }
}

/// Returns a jump over these instructions.
pub fn skip_of(code: &[Insn]) -> Insn
    requires { length code.now ≤ MAX_SLOTS }
    ensures { result ≡ i.Ja (pos (length code.now)) }
{
    Insn::Ja {
        off: distance(code.len()),
    }
}

/// Returns true if the memory has a word of this number.
pub fn has_word(k: u32, memory: u32) -> bool
    ensures { IsTrue result ↔ (4 * k + 4 ≤ memory) }
{
    memory >= 4 && k <= (memory - 4) / 4
}

/// Returns the place of a word in the memory, in bytes.
pub fn word_offset(k: u32) -> i16
    requires { 4 * k + 4 ≤ 256 }
    ensures { result ≡ pos (4 * k) }
{
    (4 * k) as i16
}
