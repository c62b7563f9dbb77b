//! The instructions that the programs are made of.
ghost use Rattle.std.specs.Prelude.{◌≡◌, IfOk};
ghost use Rattle.bpf_insn.specs.declared.forms.Width.TheVariants.{W64};
ghost use Rattle.bpf_insn.specs.declared.forms.Size.TheVariants as size;
ghost use Rattle.bpf_insn.specs.declared.forms.AluOp.TheVariants.{Mov};
ghost use Rattle.bpf_insn.specs.declared.forms.Operand.TheVariants as operand;
ghost use Rattle.bpf_insn.specs.declared.forms.Insn.TheVariants as i;
ghost use Rattle.bpf_insn.specs.Programs.{IsProgram};
ghost use Rattle.clock_nodes.specs.Listings.{tail};

use bpf_insn::{AluOp, Cond, Insn, Operand, Program, ProgramError, Reg, Size, Width, program_of};
use std::alloc::{AllocError, Global};

/// The numbers of the helpers.
pub const RECV: i32 = 2;

pub const SEND: i32 = 3;

pub const COIN: i32 = 4;

/// Returns an operation of 64 bits.
pub fn alu(op: AluOp, dst: Reg, src: Operand) -> Insn
    ensures { result ≡ i.Alu op W64 dst src }
{
    Insn::Alu {
        op,
        width: Width::W64,
        dst,
        src,
    }
}

/// Returns a move of 64 bits.
pub fn mov(dst: Reg, imm: i32) -> Insn
    ensures { result ≡ i.Alu Mov W64 dst (operand.Imm imm) }
{
    alu(AluOp::Mov, dst, Operand::Imm(imm))
}

/// Returns a move of a register.
pub fn copy(dst: Reg, src: Reg) -> Insn
    ensures { result ≡ i.Alu Mov W64 dst (operand.Reg src) }
{
    alu(AluOp::Mov, dst, Operand::Reg(src))
}

/// Returns a branch on numbers of 64 bits.
pub fn branch(cond: Cond, dst: Reg, src: Operand, off: i16) -> Insn
    ensures { result ≡ i.Branch cond W64 dst src off }
{
    Insn::Branch {
        cond,
        width: Width::W64,
        dst,
        src,
        off,
    }
}

/// Returns a load of 32 bits.
pub fn load(dst: Reg, base: Reg, off: i16) -> Insn
    ensures { result ≡ i.Load size.W dst base off }
{
    Insn::Load {
        size: Size::W,
        dst,
        base,
        off,
    }
}

/// Returns a store of 32 bits.
pub fn store(base: Reg, off: i16, src: Reg) -> Insn
    ensures { result ≡ i.StoreReg size.W base off src }
{
    Insn::StoreReg {
        size: Size::W,
        base,
        off,
        src,
    }
}

/// Returns the end of each program, with 0 in r0.
pub fn tail() -> [Insn; 2]
    ensures { result ≡ tail }
{
    [mov(Reg::R0, 0), Insn::Exit]
}

/// Returns the program with these instructions.
pub fn program(alloc: Global, insns: Vec<Insn>) -> Result<Program, AllocError>
    requires { IsProgram insns.items }
    ensures { IfOk result (λ p. p ≡ insns.items) }
{
    match program_of(alloc, insns) {
        Ok(program) => Ok(program),
        Err((_, ProgramError::Empty | ProgramError::TooLong)) => unreachable!(),
        Err((_, ProgramError::Memory)) => Err(AllocError),
    }
}
