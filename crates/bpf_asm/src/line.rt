//! The canonical line of an instruction (docs/ASSEMBLER.md, "Canonical text").

ghost use Rattle.std.specs.Prelude.{◌≡◌, Some};
ghost use Rattle.bpf_asm.specs.Canonical.{callee_text, form_in, canonical_line, address_text, operand_text, with_sign};
ghost use Rattle.node_env.specs.Helpers.{helper_of};

use crate::registers::register_word;
use crate::words::Form;
use bpf_insn::{Insn, Operand, Reg};
use node_env::Helper;
use std::fmt;

/// A number that is written with its sign always.
#[derive(Clone, Copy)]
struct WithSign(i64);

impl fmt::Display for WithSign {
    ghost output = { λ number. Some (with_sign number.0) };

    fn fmt<W: fmt::Write>(&self, f: &mut fmt::Formatter<W>) -> fmt::Result {
        let number = self.0;
        if number < 0 {
            write!(f, "{number}")
        } else {
            write!(f, "+{number}")
        }
    }
}

/// A register or an immediate.
#[derive(Clone, Copy)]
struct OperandText(Operand);

impl fmt::Display for OperandText {
    ghost output = { λ operand. Some (operand_text operand.0) };

    fn fmt<W: fmt::Write>(&self, f: &mut fmt::Formatter<W>) -> fmt::Result {
        match self.0 {
            Operand::Reg(src) => write!(f, "{}", register_word(src)),
            Operand::Imm(imm) => write!(f, "{imm}"),
        }
    }
}

/// The address of a load or a store.
#[derive(Clone, Copy)]
struct AddressText {
    base: Reg,
    off: i16,
}

impl fmt::Display for AddressText {
    ghost output = { λ address. Some (address_text address.base address.off) };

    fn fmt<W: fmt::Write>(&self, f: &mut fmt::Formatter<W>) -> fmt::Result {
        let base = register_word(self.base);
        let off = WithSign(self.off as i64);
        write!(f, "[{base}{off}]")
    }
}

/// What a call names: a helper by its word, or by its number if it has none.
#[derive(Clone, Copy)]
struct CalleeText(i32);

impl fmt::Display for CalleeText {
    ghost output = { λ callee. Some (callee_text callee.0 (helper_of callee.0)) };

    fn fmt<W: fmt::Write>(&self, f: &mut fmt::Formatter<W>) -> fmt::Result {
        match Helper::of(self.0) {
            Some(helper) => write!(f, "{}", helper.word()),
            None => {
                let id = self.0;
                write!(f, "{id}")
            }
        }
    }
}

/// All of an instruction but its operands.
fn form_in(insn: Insn) -> Form
    ensures { result ≡ form_in insn }
{
    match insn {
        Insn::Alu { op, width, .. } => Form::Alu(op, width),
        Insn::Neg { width, .. } => Form::Neg(width),
        Insn::Movsx { kind, .. } => Form::Movsx(kind),
        Insn::Swap { order, bits, .. } => Form::Swap(order, bits),
        Insn::Ja { .. } => Form::Ja,
        Insn::JaLong { .. } => Form::JaLong,
        Insn::Branch { cond, width, .. } => Form::Branch(cond, width),
        Insn::Call { .. } => Form::Call,
        Insn::Exit => Form::Exit,
        Insn::Load { size, .. } => Form::Load(size),
        Insn::LoadSx { size, .. } => Form::LoadSx(size),
        Insn::StoreReg { size, .. } => Form::StoreReg(size),
        Insn::StoreImm { size, .. } => Form::StoreImm(size),
        Insn::LoadImm64 { .. } => Form::LoadImm64,
    }
}

/// The line of an instruction, without its end.
#[derive(Clone, Copy)]
pub struct CanonicalLine {
    pub insn: Insn,
}

impl fmt::Display for CanonicalLine {
    ghost output = { λ line. Some (canonical_line line.insn) };

    fn fmt<W: fmt::Write>(&self, f: &mut fmt::Formatter<W>) -> fmt::Result {
        let word = form_in(self.insn).word();
        match self.insn {
            Insn::Alu { dst, src, .. } => {
                write!(f, "{word} {}, {}", register_word(dst), OperandText(src))
            }
            Insn::Neg { dst, .. } | Insn::Swap { dst, .. } => {
                write!(f, "{word} {}", register_word(dst))
            }
            Insn::Movsx { dst, src, .. } => {
                write!(f, "{word} {}, {}", register_word(dst), register_word(src))
            }
            Insn::Ja { off } => write!(f, "{word} {}", WithSign(off as i64)),
            Insn::JaLong { off } => write!(f, "{word} {}", WithSign(off as i64)),
            Insn::Branch { dst, src, off, .. } => {
                let target = WithSign(off as i64);
                write!(
                    f,
                    "{word} {}, {}, {target}",
                    register_word(dst),
                    OperandText(src)
                )
            }
            Insn::Call { id } => write!(f, "{word} {}", CalleeText(id)),
            Insn::Exit => write!(f, "{word}"),
            Insn::Load { dst, base, off, .. } => {
                write!(
                    f,
                    "{word} {}, {}",
                    register_word(dst),
                    AddressText { base, off }
                )
            }
            Insn::LoadSx { dst, base, off, .. } => {
                write!(
                    f,
                    "{word} {}, {}",
                    register_word(dst),
                    AddressText { base, off }
                )
            }
            Insn::StoreReg { base, off, src, .. } => {
                write!(
                    f,
                    "{word} {}, {}",
                    AddressText { base, off },
                    register_word(src)
                )
            }
            Insn::StoreImm { base, off, imm, .. } => {
                write!(f, "{word} {}, {imm}", AddressText { base, off })
            }
            Insn::LoadImm64 { dst, value } => write!(f, "{word} {}, {value}", register_word(dst)),
        }
    }
}
