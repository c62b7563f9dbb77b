//! What instructions read and write: their registers, and the bytes that loads and stores take (RFC 9669, sections 4
//! and 5).
ghost use Rattle.std.specs.Prelude.{◌≡◌, ◌≤◌, ◌∷◌, ℕ, ℤ, IfSome};
ghost use Rattle.bpf_insn.specs.Operands.{access, alu_reads, argument_registers, call_of, operand_reads, reads};
ghost use Rattle.bpf_insn.specs.Operands.{access_of, is_exit, load_of, registers_in, written_by};

use crate::forms::{AluOp, Insn, Operand, Reg};

/// The bytes that a load or a store takes: this many, from an offset of what a register points at.
#[derive(Clone, Copy, Debug, PartialEq, Eq)]
pub struct Access {
    pub base: Reg,
    pub off: i16,
    pub count: u32,
}

/// The registers that an instruction reads, in order.
#[derive(Clone, Copy, Debug, PartialEq, Eq)]
pub enum Reads {
    Nothing,
    One(Reg),
    Two(Reg, Reg),
}

/// The most arguments of a call.
pub const MAX_ARGUMENTS: u32 = 2;

#[inline(always)]
fn operand_reads(src: Operand) -> Reads
    ensures { registers_in result ≡ operand_reads src }
{
    match src {
        Operand::Imm(_) => Reads::Nothing,
        Operand::Reg(register) => Reads::One(register),
    }
}

/// The register, and the second operand's.
#[inline(always)]
fn both_reads(dst: Reg, src: Operand) -> Reads
    ensures { registers_in result ≡ dst ∷ operand_reads src }
{
    match src {
        Operand::Imm(_) => Reads::One(dst),
        Operand::Reg(register) => Reads::Two(dst, register),
    }
}

#[inline(always)]
fn alu_reads(op: AluOp, dst: Reg, src: Operand) -> Reads
    ensures { registers_in result ≡ alu_reads op dst src }
{
    match op {
        AluOp::Mov => operand_reads(src),
        AluOp::Add
        | AluOp::Sub
        | AluOp::Mul
        | AluOp::Div
        | AluOp::Sdiv
        | AluOp::Or
        | AluOp::And
        | AluOp::Lsh
        | AluOp::Rsh
        | AluOp::Mod
        | AluOp::Smod
        | AluOp::Xor
        | AluOp::Arsh => both_reads(dst, src),
    }
}

/// The registers of this many arguments.
#[inline(always)]
fn argument_reads(arguments: u32) -> Reads
    requires { arguments ≤ MAX_ARGUMENTS }
    ensures { registers_in result ≡ argument_registers arguments }
{
    match arguments {
        0 => Reads::Nothing,
        1 => Reads::One(Reg::R1),
        2 => Reads::Two(Reg::R1, Reg::R2),
        _ => unreachable!(),
    }
}

/// Returns the registers that an instruction reads, if a call takes this many arguments.
#[inline(always)]
pub fn registers_read(insn: &Insn, arguments: u32) -> Reads
    requires { arguments ≤ MAX_ARGUMENTS }
    ensures { (arguments_of : ℤ → ℕ) → IfSome (call_of insn.now) (λ id. arguments_of id ≡ arguments)
        → registers_in result ≡ reads arguments_of insn.now }
{
    match *insn {
        Insn::Alu { op, dst, src, .. } => alu_reads(op, dst, src),
        Insn::Neg { dst, .. } => Reads::One(dst),
        Insn::Movsx { src, .. } => Reads::One(src),
        Insn::Swap { dst, .. } => Reads::One(dst),
        Insn::Ja { .. } => Reads::Nothing,
        Insn::JaLong { .. } => Reads::Nothing,
        Insn::Branch { dst, src, .. } => both_reads(dst, src),
        Insn::Call { .. } => argument_reads(arguments),
        Insn::Exit => Reads::One(Reg::R0),
        Insn::Load { base, .. } => Reads::One(base),
        Insn::LoadSx { base, .. } => Reads::One(base),
        Insn::StoreReg { base, src, .. } => Reads::Two(base, src),
        Insn::StoreImm { base, .. } => Reads::One(base),
        Insn::LoadImm64 { .. } => Reads::Nothing,
    }
}

/// Returns dst of an arithmetic form, a load or `lddw`, otherwise none. A call writes r0 and unsets r1 to r5, and has
/// none here.
#[inline(always)]
pub fn written_by(insn: &Insn) -> Option<Reg>
    ensures { result ≡ written_by insn.now }
{
    match *insn {
        Insn::Alu { dst, .. } => Some(dst),
        Insn::Neg { dst, .. } => Some(dst),
        Insn::Movsx { dst, .. } => Some(dst),
        Insn::Swap { dst, .. } => Some(dst),
        Insn::Load { dst, .. } => Some(dst),
        Insn::LoadSx { dst, .. } => Some(dst),
        Insn::LoadImm64 { dst, .. } => Some(dst),
        Insn::Ja { .. }
        | Insn::JaLong { .. }
        | Insn::Branch { .. }
        | Insn::Call { .. }
        | Insn::Exit
        | Insn::StoreReg { .. }
        | Insn::StoreImm { .. } => None,
    }
}

#[inline(always)]
fn taken(base: Reg, off: i16, count: u32) -> Option<Access>
    ensures { result ≡ Some (access base off count) }
{
    Some(Access { base, off, count })
}

/// Returns what a load takes. It has 1 to 8 bytes.
#[inline(always)]
pub fn load_of(insn: &Insn) -> Option<Access>
    ensures access { result ≡ load_of insn.now }
    ensures some { IfSome result (λ access. 1 ≤ access.count) }
    ensures few { IfSome result (λ access. access.count ≤ 8) }
{
    match *insn {
        Insn::Load {
            size,
            base,
            off,
            ..
        } => taken(base, off, size.bytes()),
        Insn::LoadSx {
            size,
            base,
            off,
            ..
        } => taken(base, off, size.bytes()),
        Insn::Alu { .. }
        | Insn::Neg { .. }
        | Insn::Movsx { .. }
        | Insn::Swap { .. }
        | Insn::Ja { .. }
        | Insn::JaLong { .. }
        | Insn::Branch { .. }
        | Insn::Call { .. }
        | Insn::Exit
        | Insn::StoreReg { .. }
        | Insn::StoreImm { .. }
        | Insn::LoadImm64 { .. } => None,
    }
}

/// Returns what a load or a store takes.
#[inline(always)]
pub fn access_of(insn: &Insn) -> Option<Access>
    ensures access { result ≡ access_of insn.now }
    ensures some { IfSome result (λ access. 1 ≤ access.count) }
    ensures few { IfSome result (λ access. access.count ≤ 8) }
{
    match *insn {
        Insn::Load {
            size,
            base,
            off,
            ..
        } => taken(base, off, size.bytes()),
        Insn::LoadSx {
            size,
            base,
            off,
            ..
        } => taken(base, off, size.bytes()),
        Insn::StoreReg {
            size,
            base,
            off,
            ..
        } => taken(base, off, size.bytes()),
        Insn::StoreImm {
            size,
            base,
            off,
            ..
        } => taken(base, off, size.bytes()),
        Insn::Alu { .. }
        | Insn::Neg { .. }
        | Insn::Movsx { .. }
        | Insn::Swap { .. }
        | Insn::Ja { .. }
        | Insn::JaLong { .. }
        | Insn::Branch { .. }
        | Insn::Call { .. }
        | Insn::Exit
        | Insn::LoadImm64 { .. } => None,
    }
}

/// Returns the immediate of a call.
#[inline(always)]
pub fn call_of(insn: &Insn) -> Option<i32>
    ensures { result ≡ call_of insn.now }
{
    match *insn {
        Insn::Call { id } => Some(id),
        Insn::Alu { .. }
        | Insn::Neg { .. }
        | Insn::Movsx { .. }
        | Insn::Swap { .. }
        | Insn::Ja { .. }
        | Insn::JaLong { .. }
        | Insn::Branch { .. }
        | Insn::Exit
        | Insn::Load { .. }
        | Insn::LoadSx { .. }
        | Insn::StoreReg { .. }
        | Insn::StoreImm { .. }
        | Insn::LoadImm64 { .. } => None,
    }
}

/// Returns whether it ends a run.
#[inline(always)]
pub fn is_exit(insn: &Insn) -> bool
    ensures { result ≡ is_exit insn.now }
{
    match *insn {
        Insn::Exit => true,
        Insn::Alu { .. }
        | Insn::Neg { .. }
        | Insn::Movsx { .. }
        | Insn::Swap { .. }
        | Insn::Ja { .. }
        | Insn::JaLong { .. }
        | Insn::Branch { .. }
        | Insn::Call { .. }
        | Insn::Load { .. }
        | Insn::LoadSx { .. }
        | Insn::StoreReg { .. }
        | Insn::StoreImm { .. }
        | Insn::LoadImm64 { .. } => false,
    }
}
