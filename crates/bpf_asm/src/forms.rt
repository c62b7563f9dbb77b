//! Every form, and the look-up of a form by its word.

ghost use Rattle.std.specs.Prelude.{◌≡◌};
ghost use Rattle.bpf_asm.specs.Words.{form_of};

use crate::words::Form;
use bpf_insn::{AluOp, Cond, MovsxKind, Order, Size, SwapBits, SxSize, Width};

/// Every form, once.
pub const FORMS: [Form; 86] = [
    Form::Alu(AluOp::Add, Width::W32),
    Form::Alu(AluOp::Sub, Width::W32),
    Form::Alu(AluOp::Mul, Width::W32),
    Form::Alu(AluOp::Div, Width::W32),
    Form::Alu(AluOp::Sdiv, Width::W32),
    Form::Alu(AluOp::Or, Width::W32),
    Form::Alu(AluOp::And, Width::W32),
    Form::Alu(AluOp::Lsh, Width::W32),
    Form::Alu(AluOp::Rsh, Width::W32),
    Form::Alu(AluOp::Mod, Width::W32),
    Form::Alu(AluOp::Smod, Width::W32),
    Form::Alu(AluOp::Xor, Width::W32),
    Form::Alu(AluOp::Mov, Width::W32),
    Form::Alu(AluOp::Arsh, Width::W32),
    Form::Alu(AluOp::Add, Width::W64),
    Form::Alu(AluOp::Sub, Width::W64),
    Form::Alu(AluOp::Mul, Width::W64),
    Form::Alu(AluOp::Div, Width::W64),
    Form::Alu(AluOp::Sdiv, Width::W64),
    Form::Alu(AluOp::Or, Width::W64),
    Form::Alu(AluOp::And, Width::W64),
    Form::Alu(AluOp::Lsh, Width::W64),
    Form::Alu(AluOp::Rsh, Width::W64),
    Form::Alu(AluOp::Mod, Width::W64),
    Form::Alu(AluOp::Smod, Width::W64),
    Form::Alu(AluOp::Xor, Width::W64),
    Form::Alu(AluOp::Mov, Width::W64),
    Form::Alu(AluOp::Arsh, Width::W64),
    Form::Neg(Width::W32),
    Form::Neg(Width::W64),
    Form::Movsx(MovsxKind::From8To32),
    Form::Movsx(MovsxKind::From16To32),
    Form::Movsx(MovsxKind::From8To64),
    Form::Movsx(MovsxKind::From16To64),
    Form::Movsx(MovsxKind::From32To64),
    Form::Swap(Order::Le, SwapBits::Bits16),
    Form::Swap(Order::Le, SwapBits::Bits32),
    Form::Swap(Order::Le, SwapBits::Bits64),
    Form::Swap(Order::Be, SwapBits::Bits16),
    Form::Swap(Order::Be, SwapBits::Bits32),
    Form::Swap(Order::Be, SwapBits::Bits64),
    Form::Swap(Order::Always, SwapBits::Bits16),
    Form::Swap(Order::Always, SwapBits::Bits32),
    Form::Swap(Order::Always, SwapBits::Bits64),
    Form::Ja,
    Form::JaLong,
    Form::Branch(Cond::Eq, Width::W32),
    Form::Branch(Cond::Gt, Width::W32),
    Form::Branch(Cond::Ge, Width::W32),
    Form::Branch(Cond::Set, Width::W32),
    Form::Branch(Cond::Ne, Width::W32),
    Form::Branch(Cond::Sgt, Width::W32),
    Form::Branch(Cond::Sge, Width::W32),
    Form::Branch(Cond::Lt, Width::W32),
    Form::Branch(Cond::Le, Width::W32),
    Form::Branch(Cond::Slt, Width::W32),
    Form::Branch(Cond::Sle, Width::W32),
    Form::Branch(Cond::Eq, Width::W64),
    Form::Branch(Cond::Gt, Width::W64),
    Form::Branch(Cond::Ge, Width::W64),
    Form::Branch(Cond::Set, Width::W64),
    Form::Branch(Cond::Ne, Width::W64),
    Form::Branch(Cond::Sgt, Width::W64),
    Form::Branch(Cond::Sge, Width::W64),
    Form::Branch(Cond::Lt, Width::W64),
    Form::Branch(Cond::Le, Width::W64),
    Form::Branch(Cond::Slt, Width::W64),
    Form::Branch(Cond::Sle, Width::W64),
    Form::Call,
    Form::Exit,
    Form::Load(Size::B),
    Form::Load(Size::H),
    Form::Load(Size::W),
    Form::Load(Size::Dw),
    Form::LoadSx(SxSize::B),
    Form::LoadSx(SxSize::H),
    Form::LoadSx(SxSize::W),
    Form::StoreReg(Size::B),
    Form::StoreReg(Size::H),
    Form::StoreReg(Size::W),
    Form::StoreReg(Size::Dw),
    Form::StoreImm(Size::B),
    Form::StoreImm(Size::H),
    Form::StoreImm(Size::W),
    Form::StoreImm(Size::Dw),
    Form::LoadImm64,
];

/// Returns the form that a word names.
pub fn form_of(word: &[u8]) -> Option<Form>
    ensures { result ≡ form_of word.now }
{
    FORMS
        .iter()
        .copied()
        .find(|form| form.word().as_bytes() == word)
}
