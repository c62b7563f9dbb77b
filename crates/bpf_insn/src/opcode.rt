//! Opcodes: what the first byte of an instruction says.

ghost use Rattle.std.specs.Prelude.{◌≡◌, ◌<◌, ◌≤◌};
ghost use Rattle.bpf_insn.specs.Opcodes.{alu_class, jump_class, alu_number, source_bit, cond_number, size_bits};
ghost use Rattle.bpf_insn.specs.Opcodes.{sx_size_bits, order_byte, opcode_byte, offset_use, is_stray};
ghost use Rattle.bpf_insn.specs.inner.Opcodes.{allowing};
ghost use Rattle.bpf_insn.specs.Arithmetic.{movsx_width};
ghost use Rattle.bpf_insn.specs.Encoding.{code_of, source_of};

use crate::forms::{AluOp, Cond, MovsxKind, Operand, Order, Size, SxSize, Width};
use crate::opcode_table::OPCODES;

/// The code of an operation of two operands.
#[derive(Clone, Copy, Debug, PartialEq, Eq)]
pub enum AluCode {
    Add,
    Sub,
    Mul,
    Div,
    Or,
    And,
    Lsh,
    Rsh,
    Mod,
    Xor,
    Mov,
    Arsh,
}

/// Where the second operand is.
#[derive(Clone, Copy, Debug, PartialEq, Eq)]
pub enum Source {
    Imm,
    Reg,
}

/// The first byte of an instruction.
#[derive(Clone, Copy, Debug, PartialEq, Eq)]
pub enum Opcode {
    Alu {
        code: AluCode,
        width: Width,
        source: Source,
    },
    Neg {
        width: Width,
    },
    Swap {
        order: Order,
    },
    Ja,
    JaLong,
    Branch {
        cond: Cond,
        width: Width,
        source: Source,
    },
    Call,
    Exit,
    LoadImm64,
    Load {
        size: Size,
    },
    LoadSx {
        size: SxSize,
    },
    StoreImm {
        size: Size,
    },
    StoreReg {
        size: Size,
    },
}

/// What a field may hold.
#[derive(Clone, Copy, Debug, PartialEq, Eq)]
pub enum FieldUse {
    Zero,
    ZeroOrOne,
    Any,
}

/// What the fields of a slot may hold.
#[derive(Clone, Copy, Debug, PartialEq, Eq)]
pub struct Uses {
    pub dst: FieldUse,
    pub src: FieldUse,
    pub offset: FieldUse,
    pub imm: FieldUse,
}

/// What the fields of a slot may hold, in their order.
#[inline(always)]
pub(crate) fn allowing(dst: FieldUse, src: FieldUse, offset: FieldUse, imm: FieldUse) -> Uses
    ensures { result ≡ allowing dst src offset imm }
{
    Uses {
        dst,
        src,
        offset,
        imm,
    }
}

impl FieldUse {
    /// Whether a field may not hold these bits. Most fields that are looked at hold none.
    #[tactic(auto, using(crate::proofs::OpcodeLaws::none_is_stray))]
    #[inline(always)]
    pub(crate) fn is_stray(self, bits: u32) -> bool
        ensures { result ≡ is_stray self bits }
    {
        if bits == 0 {
            return false;
        }
        match self {
            FieldUse::Zero => true,
            FieldUse::ZeroOrOne => bits > 1,
            FieldUse::Any => false,
        }
    }
}

impl AluCode {
    /// The code of an operation: the signed division and modulo share those of the unsigned ones.
    pub(crate) fn of(op: AluOp) -> AluCode
        ensures { result ≡ code_of op }
    {
        match op {
            AluOp::Add => AluCode::Add,
            AluOp::Sub => AluCode::Sub,
            AluOp::Mul => AluCode::Mul,
            AluOp::Div | AluOp::Sdiv => AluCode::Div,
            AluOp::Or => AluCode::Or,
            AluOp::And => AluCode::And,
            AluOp::Lsh => AluCode::Lsh,
            AluOp::Rsh => AluCode::Rsh,
            AluOp::Mod | AluOp::Smod => AluCode::Mod,
            AluOp::Xor => AluCode::Xor,
            AluOp::Mov => AluCode::Mov,
            AluOp::Arsh => AluCode::Arsh,
        }
    }

    fn number(self) -> u8
        ensures value { result ≡ alu_number self }
        ensures in_range { result < 16 }
    {
        match self {
            AluCode::Add => 0,
            AluCode::Sub => 1,
            AluCode::Mul => 2,
            AluCode::Div => 3,
            AluCode::Or => 4,
            AluCode::And => 5,
            AluCode::Lsh => 6,
            AluCode::Rsh => 7,
            AluCode::Mod => 9,
            AluCode::Xor => 0xa,
            AluCode::Mov => 0xb,
            AluCode::Arsh => 0xc,
        }
    }

    /// What the offset may hold.
    pub(crate) fn offset_use(self, source: Source) -> FieldUse
        ensures { result ≡ offset_use self source }
    {
        match self {
            AluCode::Div | AluCode::Mod => FieldUse::ZeroOrOne,
            AluCode::Mov => match source {
                Source::Imm => FieldUse::Zero,
                Source::Reg => FieldUse::Any,
            },
            AluCode::Add
            | AluCode::Sub
            | AluCode::Mul
            | AluCode::Or
            | AluCode::And
            | AluCode::Lsh
            | AluCode::Rsh
            | AluCode::Xor
            | AluCode::Arsh => FieldUse::Zero,
        }
    }
}

impl Source {
    /// Where an operand is.
    pub(crate) fn of(operand: Operand) -> Source
        ensures { result ≡ source_of operand }
    {
        match operand {
            Operand::Imm(_) => Source::Imm,
            Operand::Reg(_) => Source::Reg,
        }
    }

    fn bit(self) -> u8
        ensures value { result ≡ source_bit self }
        ensures in_range { result ≤ 8 }
    {
        match self {
            Source::Imm => 0,
            Source::Reg => 8,
        }
    }
}

fn cond_code(cond: Cond) -> u8
    ensures value { result ≡ cond_number cond }
    ensures in_range { result < 16 }
{
    match cond {
        Cond::Eq => 1,
        Cond::Gt => 2,
        Cond::Ge => 3,
        Cond::Set => 4,
        Cond::Ne => 5,
        Cond::Sgt => 6,
        Cond::Sge => 7,
        Cond::Lt => 0xa,
        Cond::Le => 0xb,
        Cond::Slt => 0xc,
        Cond::Sle => 0xd,
    }
}

fn size_code(size: Size) -> u8
    ensures value { result ≡ size_bits size }
    ensures in_range { result ≤ 24 }
{
    match size {
        Size::W => 0,
        Size::H => 8,
        Size::B => 16,
        Size::Dw => 24,
    }
}

fn sx_size_code(size: SxSize) -> u8
    ensures value { result ≡ sx_size_bits size }
    ensures in_range { result ≤ 16 }
{
    match size {
        SxSize::W => 0,
        SxSize::H => 8,
        SxSize::B => 16,
    }
}

fn alu_class_of(width: Width) -> u8
    ensures value { result ≡ alu_class width }
    ensures in_range { result < 8 }
{
    match width {
        Width::W32 => 4,
        Width::W64 => 7,
    }
}

fn jump_class_of(width: Width) -> u8
    ensures value { result ≡ jump_class width }
    ensures in_range { result < 8 }
{
    match width {
        Width::W32 => 6,
        Width::W64 => 5,
    }
}

/// The width that a move extends to.
pub(crate) fn extension_width(kind: MovsxKind) -> Width
    ensures { result ≡ movsx_width kind }
{
    match kind {
        MovsxKind::From8To32 | MovsxKind::From16To32 => Width::W32,
        MovsxKind::From8To64 | MovsxKind::From16To64 | MovsxKind::From32To64 => Width::W64,
    }
}

fn order_code(order: Order) -> u8
    ensures { result ≡ order_byte order }
{
    match order {
        Order::Le => 0xd4,
        Order::Be => 0xdc,
        Order::Always => 0xd7,
    }
}

impl Opcode {
    ghost use Rattle.std.specs.Prelude.{◌≡◌, ◌≢◌, IfSome, IfNone};
    ghost use Rattle.bpf_insn.specs.declared.opcode.Opcode.{Opcode};
    ghost use Rattle.bpf_insn.specs.Opcodes.{opcode_byte};

    /// The opcode that a byte represents, and none if no opcode has that byte.
    pub(crate) fn of(byte: u8) -> Option<Opcode>
        ensures some { IfSome result (λ opcode. opcode_byte opcode ≡ byte) }
        ensures none { IfNone result ((opcode : Opcode) → opcode_byte opcode ≢ byte) }
    {
        OPCODES[usize::from(byte)]
    }

    /// The byte that represents it.
    pub(crate) fn byte(self) -> u8
        ensures { result ≡ opcode_byte self }
    {
        match self {
            Opcode::Alu {
                code,
                width,
                source,
            } => alu_class_of(width) + source.bit() + 16 * code.number(),
            Opcode::Neg { width } => alu_class_of(width) + 0x80,
            Opcode::Swap { order } => order_code(order),
            Opcode::Ja => 0x05,
            Opcode::JaLong => 0x06,
            Opcode::Branch {
                cond,
                width,
                source,
            } => jump_class_of(width) + source.bit() + 16 * cond_code(cond),
            Opcode::Call => 0x85,
            Opcode::Exit => 0x95,
            Opcode::LoadImm64 => 0x18,
            Opcode::Load { size } => 0x61 + size_code(size),
            Opcode::LoadSx { size } => 0x81 + sx_size_code(size),
            Opcode::StoreImm { size } => 0x62 + size_code(size),
            Opcode::StoreReg { size } => 0x63 + size_code(size),
        }
    }
}
