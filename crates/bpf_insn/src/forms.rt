//! Instructions: the forms of RFC 9669, sections 4 and 5, that a program may hold.

ghost use Rattle.std.specs.Prelude.{◌≡◌, ◌<◌, ◌≤◌, ℕ, IfSome, IfNone};
ghost use Rattle.bpf_insn.specs.Registers.{register_number};

/// A register. R10 is the frame pointer.
#[derive(Clone, Copy, Debug, PartialEq, Eq)]
pub enum Reg {
    R0,
    R1,
    R2,
    R3,
    R4,
    R5,
    R6,
    R7,
    R8,
    R9,
    R10,
}

impl Reg {
    /// Returns the register of a number from 0 to 10.
    pub fn of(number: u8) -> Option<Reg>
        ensures some { IfSome result (λ r. register_number r ≡ number) }
        ensures none { IfNone result (10 < number) }
    {
        match number {
            0 => Some(Reg::R0),
            1 => Some(Reg::R1),
            2 => Some(Reg::R2),
            3 => Some(Reg::R3),
            4 => Some(Reg::R4),
            5 => Some(Reg::R5),
            6 => Some(Reg::R6),
            7 => Some(Reg::R7),
            8 => Some(Reg::R8),
            9 => Some(Reg::R9),
            10 => Some(Reg::R10),
            _ => None,
        }
    }

    /// Its number.
    pub fn number(self) -> u8
        ensures value { result ≡ register_number self }
        ensures in_range { result ≤ 10 }
    {
        self as u8
    }
}

/// The bits that an operation works on: 32 (classes ALU and JMP32) or 64 (ALU64 and JMP).
#[derive(Clone, Copy, Debug, PartialEq, Eq)]
pub enum Width {
    W32,
    W64,
}

/// The second operand: an immediate, whose sign is extended, or a register.
#[derive(Clone, Copy, Debug, PartialEq, Eq)]
pub enum Operand {
    Imm(i32),
    Reg(Reg),
}

/// The bytes of a load or a store: 1, 2, 4 or 8 (RFC 9669, section 5.1).
#[derive(Clone, Copy, Debug, PartialEq, Eq)]
pub enum Size {
    B,
    H,
    W,
    Dw,
}

/// The bytes of a load that extends the sign: 1, 2 or 4 (RFC 9669, section 5.2).
#[derive(Clone, Copy, Debug, PartialEq, Eq)]
pub enum SxSize {
    B,
    H,
    W,
}

impl Size {
    ghost use Rattle.std.specs.Prelude.{◌≡◌, ◌≤◌};
    ghost use Rattle.bpf_insn.specs.Operands.{access_bytes};

    /// Returns the bytes that an access takes.
    #[inline(always)]
    pub fn bytes(self) -> u32
        ensures count { result ≡ access_bytes self }
        ensures few { result ≤ 8 }
    {
        match self {
            Size::B => 1,
            Size::H => 2,
            Size::W => 4,
            Size::Dw => 8,
        }
    }
}

impl SxSize {
    ghost use Rattle.std.specs.Prelude.{◌≡◌, ◌≤◌};
    ghost use Rattle.bpf_insn.specs.Operands.{sx_access_bytes};

    /// Returns the bytes that a load takes.
    #[inline(always)]
    pub fn bytes(self) -> u32
        ensures count { result ≡ sx_access_bytes self }
        ensures few { result ≤ 8 }
    {
        match self {
            SxSize::B => 1,
            SxSize::H => 2,
            SxSize::W => 4,
        }
    }
}

/// The condition of a branch (RFC 9669, section 4.3): `Set` is that the operands have a bit in common, and `S` is
/// for signed.
#[derive(Clone, Copy, Debug, PartialEq, Eq)]
pub enum Cond {
    Eq,
    Gt,
    Ge,
    Set,
    Ne,
    Sgt,
    Sge,
    Lt,
    Le,
    Slt,
    Sle,
}

/// An arithmetic operation of two operands (RFC 9669, section 4.1): `S` represents signed.
#[derive(Clone, Copy, Debug, PartialEq, Eq)]
pub enum AluOp {
    Add,
    Sub,
    Mul,
    Div,
    Sdiv,
    Or,
    And,
    Lsh,
    Rsh,
    Mod,
    Smod,
    Xor,
    Mov,
    Arsh,
}

/// How many low bits of the source a move extends by their sign, and to how many (RFC 9669, section 4.1).
#[derive(Clone, Copy, Debug, PartialEq, Eq)]
pub enum MovsxKind {
    From8To32,
    From16To32,
    From8To64,
    From16To64,
    From32To64,
}

/// The order that bytes are put in (RFC 9669, section 4.2): little-endian, big-endian, or always the reverse.
#[derive(Clone, Copy, Debug, PartialEq, Eq)]
pub enum Order {
    Le,
    Be,
    Always,
}

/// The low bits whose bytes are put in order.
#[derive(Clone, Copy, Debug, PartialEq, Eq)]
pub enum SwapBits {
    Bits16,
    Bits32,
    Bits64,
}

/// An instruction (RFC 9669, sections 4 and 5). Each value has one spelling (docs/INSTRUCTIONS.md); distances count
/// slots from the slot after the jump, and offsets of memory count bytes from `base`.
#[derive(Clone, Copy, Debug, PartialEq, Eq)]
pub enum Insn {
    /// `dst` becomes the result of `dst` and `src`; of a move, `src`.
    Alu {
        op: AluOp,
        width: Width,
        dst: Reg,
        src: Operand,
    },
    /// `dst` becomes its negation.
    Neg {
        width: Width,
        dst: Reg,
    },
    /// `dst` becomes the low bits of `src`, their sign extended.
    Movsx {
        kind: MovsxKind,
        dst: Reg,
        src: Reg,
    },
    /// The bytes of the low bits of `dst` are put in order.
    Swap {
        order: Order,
        bits: SwapBits,
        dst: Reg,
    },
    /// A jump (class JMP).
    Ja {
        off: i16,
    },
    /// A jump with a distance of 32 bits (class JMP32).
    JaLong {
        off: i32,
    },
    /// A jump if the condition of `dst` and `src` holds.
    Branch {
        cond: Cond,
        width: Width,
        dst: Reg,
        src: Operand,
        off: i16,
    },
    /// The call of a helper by its number.
    Call {
        id: i32,
    },
    /// The end of the program.
    Exit,
    /// `dst` becomes what is at `base + off`, with zeros above it.
    Load {
        size: Size,
        dst: Reg,
        base: Reg,
        off: i16,
    },
    /// `dst` becomes what is at `base + off`, its sign extended.
    LoadSx {
        size: SxSize,
        dst: Reg,
        base: Reg,
        off: i16,
    },
    /// The low bytes of `src` are put at `base + off`.
    StoreReg {
        size: Size,
        base: Reg,
        off: i16,
        src: Reg,
    },
    /// The low bytes of the immediate, its sign extended, are put at `base + off`.
    StoreImm {
        size: Size,
        base: Reg,
        off: i16,
        imm: i32,
    },
    /// `dst` becomes a number of 64 bits. This form alone takes two slots.
    LoadImm64 {
        dst: Reg,
        value: u64,
    },
}

impl Insn {
    ghost use Rattle.std.specs.Prelude.{◌≡◌};
    ghost use Rattle.bpf_insn.specs.Encoding.{slots_taken, InRange};

    /// Returns the slots that it takes.
    pub fn slots(self) -> usize
        ensures count { result ≡ slots_taken self }
        ensures in_range { InRange self }
    {
        match self {
            Insn::LoadImm64 { .. } => 2,
            Insn::Alu { .. }
            | Insn::Neg { .. }
            | Insn::Movsx { .. }
            | Insn::Swap { .. }
            | Insn::Ja { .. }
            | Insn::JaLong { .. }
            | Insn::Branch { .. }
            | Insn::Call { .. }
            | Insn::Exit
            | Insn::Load { .. }
            | Insn::LoadSx { .. }
            | Insn::StoreReg { .. }
            | Insn::StoreImm { .. } => 1,
        }
    }
}
