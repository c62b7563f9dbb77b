//! The words of the text and the forms that they name (docs/ASSEMBLER.md, "Words"). Each word is once, in
//! `Form::word`; reading looks it up there.

ghost use Rattle.std.specs.Prelude.{◌≡◌};
ghost use Rattle.bpf_asm.specs.Words.{alu_name, branch_word, movsx_word, swap_word, load_word, load_sx_word};
ghost use Rattle.bpf_asm.specs.Words.{store_reg_word, store_imm_word, neg_word};

use bpf_insn::{AluOp, Cond, MovsxKind, Order, Size, SwapBits, SxSize, Width};

/// What a word says of an instruction: all but its operands.
#[derive(Clone, Copy, Debug, PartialEq, Eq)]
pub enum Form {
    Alu(AluOp, Width),
    Neg(Width),
    Movsx(MovsxKind),
    Swap(Order, SwapBits),
    Ja,
    JaLong,
    Branch(Cond, Width),
    Call,
    Exit,
    Load(Size),
    LoadSx(SxSize),
    StoreReg(Size),
    StoreImm(Size),
    LoadImm64,
}

fn alu_word(op: AluOp, width: Width) -> &'static str
    ensures { result.now ≡ alu_name op width }
{
    match width {
        Width::W32 => match op {
            AluOp::Add => "add32",
            AluOp::Sub => "sub32",
            AluOp::Mul => "mul32",
            AluOp::Div => "div32",
            AluOp::Sdiv => "sdiv32",
            AluOp::Or => "or32",
            AluOp::And => "and32",
            AluOp::Lsh => "lsh32",
            AluOp::Rsh => "rsh32",
            AluOp::Mod => "mod32",
            AluOp::Smod => "smod32",
            AluOp::Xor => "xor32",
            AluOp::Mov => "mov32",
            AluOp::Arsh => "arsh32",
        },
        Width::W64 => match op {
            AluOp::Add => "add64",
            AluOp::Sub => "sub64",
            AluOp::Mul => "mul64",
            AluOp::Div => "div64",
            AluOp::Sdiv => "sdiv64",
            AluOp::Or => "or64",
            AluOp::And => "and64",
            AluOp::Lsh => "lsh64",
            AluOp::Rsh => "rsh64",
            AluOp::Mod => "mod64",
            AluOp::Smod => "smod64",
            AluOp::Xor => "xor64",
            AluOp::Mov => "mov64",
            AluOp::Arsh => "arsh64",
        },
    }
}

fn neg_word(width: Width) -> &'static str
    ensures { result.now ≡ neg_word width }
{
    match width {
        Width::W32 => "neg32",
        Width::W64 => "neg64",
    }
}

fn movsx_word(kind: MovsxKind) -> &'static str
    ensures { result.now ≡ movsx_word kind }
{
    match kind {
        MovsxKind::From8To32 => "sx8_32",
        MovsxKind::From16To32 => "sx16_32",
        MovsxKind::From8To64 => "sx8_64",
        MovsxKind::From16To64 => "sx16_64",
        MovsxKind::From32To64 => "sx32_64",
    }
}

fn swap_word(order: Order, bits: SwapBits) -> &'static str
    ensures { result.now ≡ swap_word order bits }
{
    match order {
        Order::Le => match bits {
            SwapBits::Bits16 => "le16",
            SwapBits::Bits32 => "le32",
            SwapBits::Bits64 => "le64",
        },
        Order::Be => match bits {
            SwapBits::Bits16 => "be16",
            SwapBits::Bits32 => "be32",
            SwapBits::Bits64 => "be64",
        },
        Order::Always => match bits {
            SwapBits::Bits16 => "swap16",
            SwapBits::Bits32 => "swap32",
            SwapBits::Bits64 => "swap64",
        },
    }
}

fn branch_word(cond: Cond, width: Width) -> &'static str
    ensures { result.now ≡ branch_word cond width }
{
    match width {
        Width::W32 => match cond {
            Cond::Eq => "jeq32",
            Cond::Gt => "jgt32",
            Cond::Ge => "jge32",
            Cond::Set => "jset32",
            Cond::Ne => "jne32",
            Cond::Sgt => "jsgt32",
            Cond::Sge => "jsge32",
            Cond::Lt => "jlt32",
            Cond::Le => "jle32",
            Cond::Slt => "jslt32",
            Cond::Sle => "jsle32",
        },
        Width::W64 => match cond {
            Cond::Eq => "jeq",
            Cond::Gt => "jgt",
            Cond::Ge => "jge",
            Cond::Set => "jset",
            Cond::Ne => "jne",
            Cond::Sgt => "jsgt",
            Cond::Sge => "jsge",
            Cond::Lt => "jlt",
            Cond::Le => "jle",
            Cond::Slt => "jslt",
            Cond::Sle => "jsle",
        },
    }
}

fn load_word(size: Size) -> &'static str
    ensures { result.now ≡ load_word size }
{
    match size {
        Size::B => "ldxb",
        Size::H => "ldxh",
        Size::W => "ldxw",
        Size::Dw => "ldxdw",
    }
}

fn load_sx_word(size: SxSize) -> &'static str
    ensures { result.now ≡ load_sx_word size }
{
    match size {
        SxSize::B => "ldsxb",
        SxSize::H => "ldsxh",
        SxSize::W => "ldsxw",
    }
}

fn store_reg_word(size: Size) -> &'static str
    ensures { result.now ≡ store_reg_word size }
{
    match size {
        Size::B => "stxb",
        Size::H => "stxh",
        Size::W => "stxw",
        Size::Dw => "stxdw",
    }
}

fn store_imm_word(size: Size) -> &'static str
    ensures { result.now ≡ store_imm_word size }
{
    match size {
        Size::B => "stb",
        Size::H => "sth",
        Size::W => "stw",
        Size::Dw => "stdw",
    }
}

impl Form {
    ghost use Rattle.std.specs.Prelude.{◌≡◌};
    ghost use Rattle.bpf_asm.specs.Words.{form_word};

    /// Its word.
    pub fn word(self) -> &'static str
        ensures { result.now ≡ form_word self }
    {
        match self {
            Form::Alu(op, width) => alu_word(op, width),
            Form::Neg(width) => neg_word(width),
            Form::Movsx(kind) => movsx_word(kind),
            Form::Swap(order, bits) => swap_word(order, bits),
            Form::Ja => "ja",
            Form::JaLong => "jal",
            Form::Branch(cond, width) => branch_word(cond, width),
            Form::Call => "call",
            Form::Exit => "exit",
            Form::Load(size) => load_word(size),
            Form::LoadSx(size) => load_sx_word(size),
            Form::StoreReg(size) => store_reg_word(size),
            Form::StoreImm(size) => store_imm_word(size),
            Form::LoadImm64 => "lddw",
        }
    }
}
