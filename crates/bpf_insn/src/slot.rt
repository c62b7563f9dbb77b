//! Slots: the eight bytes at the front of an instruction.

ghost use Rattle.std.specs.Prelude.{◌≡◌, ◌<◌, ◌≤◌, length, Ok, IfOk, IfErr, true, false};
ghost use Rattle.bpf_insn.specs.inner.Opcodes.{is_wide};
ghost use Rattle.bpf_insn.specs.inner.Registers.{register_at};
ghost use Rattle.bpf_insn.specs.inner.Reading.{found, unless, slot_at, high_at, unsigned_op, op_at, operand_at, kind_at, move_at};
ghost use Rattle.bpf_insn.specs.inner.Reading.{alu_insn_at, swap_bits_at, swap_by, form_at, after_opcode};
ghost use Rattle.bpf_insn.specs.inner.Encoding.{slot_with};
ghost use Rattle.bpf_insn.specs.declared.forms.Reg.TheVariants.{R0};
ghost use Rattle.bpf_insn.specs.Images.{IsFaultAt};
ghost use Rattle.bpf_insn.specs.inner.Images.{IsFirst};
ghost use Rattle.bpf_insn.specs.Encoding.{has_stray_field, slot_of, register_in, immediate_in, offset_of};
ghost use Rattle.bpf_insn.specs.Encoding.{extended_bits, swapped_bits};

use crate::forms::{
    AluOp, Cond, Insn, MovsxKind, Operand, Order, Reg, Size, SwapBits, SxSize, Width,
};
use crate::opcode::FieldUse::{Any, Zero};
use crate::opcode::{AluCode, Opcode, Source, Uses, allowing, extension_width};

/// The fields of a slot.
#[derive(Clone, Copy, Debug, PartialEq, Eq)]
pub struct Slot {
    pub opcode: Opcode,
    pub dst: Reg,
    pub src: Reg,
    pub offset: i16,
    pub imm: i32,
}

/// What is wrong where an instruction is to begin.
#[derive(Clone, Copy, Debug, PartialEq, Eq)]
pub enum SlotFault {
    Truncated,
    UnknownOpcode,
    BadRegister,
    NonZeroField,
    BadWidth,
}

impl Slot {
    ghost use Rattle.std.specs.Prelude.{◌≡◌, IfOk, IfErr, true, false};
    ghost use Rattle.bpf_insn.specs.declared.slot.SlotFault.TheVariants as SlotFault;
    ghost use Rattle.bpf_insn.specs.Opcodes.{uses_of};
    ghost use Rattle.bpf_insn.specs.Encoding.{slot_bytes, has_stray_field, slot_of};

    /// The slot as bytes.
    pub(crate) fn bytes(self) -> [u8; 8]
        ensures { result ≡ slot_bytes self }
    {
        let [low_offset, high_offset] = self.offset.to_le_bytes();
        let [first, second, third, fourth] = self.imm.to_le_bytes();
        let registers = self.dst.number() + 16 * self.src.number();
        [
            self.opcode.byte(),
            registers,
            low_offset,
            high_offset,
            first,
            second,
            third,
            fourth,
        ]
    }

    /// Whether some field holds what it may not.
    #[inline(always)]
    fn has_stray_field(self, uses: Uses) -> bool
        requires { uses ≡ uses_of self.opcode }
        ensures { result ≡ has_stray_field self }
    {
        uses.dst.is_stray(u32::from(self.dst.number()))
            || uses.src.is_stray(u32::from(self.src.number()))
            || uses.offset.is_stray(u32::from(self.offset.cast_unsigned()))
            || uses.imm.is_stray(self.imm.cast_unsigned())
    }

    /// Itself, if no field holds what it may not. Each form says what its own fields may hold: to ask the opcode
    /// would be a second match.
    #[inline(always)]
    fn clean(self, uses: Uses) -> Result<Slot, SlotFault>
        requires { uses ≡ uses_of self.opcode }
        ensures same { IfOk result (λ slot. (slot ≡ self) × (has_stray_field self ≡ false)) }
        ensures stray { IfErr result (λ fault. (has_stray_field self ≡ true) × (fault ≡ SlotFault.NonZeroField)) }
    {
        if self.has_stray_field(uses) {
            return Err(SlotFault::NonZeroField);
        }
        Ok(self)
    }

    /// The first slot of an instruction.
    #[inline(always)]
    pub(crate) fn of(insn: Insn) -> Slot
        ensures { result ≡ slot_of insn }
    {
        match insn {
            Insn::Alu {
                op,
                width,
                dst,
                src,
            } => alu_slot(op, width, dst, src),
            Insn::Neg { width, dst } => slot_with(Opcode::Neg { width }, dst, Reg::R0, 0, 0),
            Insn::Movsx { kind, dst, src } => movsx_slot(kind, dst, src),
            Insn::Swap { order, bits, dst } => slot_with(
                Opcode::Swap { order },
                dst,
                Reg::R0,
                0,
                swap_field(bits),
            ),
            Insn::Ja { off } => slot_with(Opcode::Ja, Reg::R0, Reg::R0, off, 0),
            Insn::JaLong { off } => slot_with(Opcode::JaLong, Reg::R0, Reg::R0, 0, off),
            Insn::Branch {
                cond,
                width,
                dst,
                src,
                off,
            } => branch_slot(cond, width, dst, src, off),
            Insn::Call { id } => slot_with(Opcode::Call, Reg::R0, Reg::R0, 0, id),
            Insn::Exit => slot_with(Opcode::Exit, Reg::R0, Reg::R0, 0, 0),
            Insn::Load {
                size,
                dst,
                base,
                off,
            } => slot_with(Opcode::Load { size }, dst, base, off, 0),
            Insn::LoadSx {
                size,
                dst,
                base,
                off,
            } => slot_with(Opcode::LoadSx { size }, dst, base, off, 0),
            Insn::StoreReg {
                size,
                base,
                off,
                src,
            } => slot_with(Opcode::StoreReg { size }, base, src, off, 0),
            Insn::StoreImm {
                size,
                base,
                off,
                imm,
            } => slot_with(Opcode::StoreImm { size }, base, Reg::R0, off, imm),
            Insn::LoadImm64 { dst, value } => slot_with(
                Opcode::LoadImm64,
                dst,
                Reg::R0,
                0,
                low_half(value),
            ),
        }
    }
}

#[inline(always)]
fn slot_with(opcode: Opcode, dst: Reg, src: Reg, offset: i16, imm: i32) -> Slot
    ensures { result ≡ slot_with opcode dst src offset imm }
{
    Slot {
        opcode,
        dst,
        src,
        offset,
        imm,
    }
}

#[inline(always)]
fn alu_slot(op: AluOp, width: Width, dst: Reg, src: Operand) -> Slot
    ensures { result ≡ slot_of (Insn.Alu op width dst src) }
{
    let opcode = Opcode::Alu {
        code: AluCode::of(op),
        width,
        source: Source::of(src),
    };
    slot_with(
        opcode,
        dst,
        register_field(src),
        operation_field(op),
        immediate_field(src),
    )
}

#[inline(always)]
fn movsx_slot(kind: MovsxKind, dst: Reg, src: Reg) -> Slot
    ensures { result ≡ slot_of (Insn.Movsx kind dst src) }
{
    let opcode = Opcode::Alu {
        code: AluCode::Mov,
        width: extension_width(kind),
        source: Source::Reg,
    };
    slot_with(opcode, dst, src, extension_field(kind), 0)
}

#[inline(always)]
fn branch_slot(cond: Cond, width: Width, dst: Reg, src: Operand, off: i16) -> Slot
    ensures { result ≡ slot_of (Insn.Branch cond width dst src off) }
{
    let opcode = Opcode::Branch {
        cond,
        width,
        source: Source::of(src),
    };
    slot_with(opcode, dst, register_field(src), off, immediate_field(src))
}

fn low_half(value: u64) -> i32
    ensures { result ≡ (slot_of (Insn.LoadImm64 R0 value)).imm }
{
    ((value & 0xffff_ffff) as u32).cast_signed()
}

fn register_field(operand: Operand) -> Reg
    ensures { result ≡ register_in operand }
{
    match operand {
        Operand::Imm(_) => Reg::R0,
        Operand::Reg(register) => register,
    }
}

fn immediate_field(operand: Operand) -> i32
    ensures { result ≡ immediate_in operand }
{
    match operand {
        Operand::Imm(value) => value,
        Operand::Reg(_) => 0,
    }
}

fn operation_field(op: AluOp) -> i16
    ensures { result ≡ offset_of op }
{
    match op {
        AluOp::Sdiv | AluOp::Smod => 1,
        AluOp::Add
        | AluOp::Sub
        | AluOp::Mul
        | AluOp::Div
        | AluOp::Or
        | AluOp::And
        | AluOp::Lsh
        | AluOp::Rsh
        | AluOp::Mod
        | AluOp::Xor
        | AluOp::Mov
        | AluOp::Arsh => 0,
    }
}

fn extension_field(kind: MovsxKind) -> i16
    ensures { result ≡ extended_bits kind }
{
    match kind {
        MovsxKind::From8To32 | MovsxKind::From8To64 => 8,
        MovsxKind::From16To32 | MovsxKind::From16To64 => 16,
        MovsxKind::From32To64 => 32,
    }
}

fn swap_field(bits: SwapBits) -> i32
    ensures { result ≡ swapped_bits bits }
{
    match bits {
        SwapBits::Bits16 => 16,
        SwapBits::Bits32 => 32,
        SwapBits::Bits64 => 64,
    }
}

#[inline(always)]
fn register(number: u8) -> Result<Reg, SlotFault>
    ensures { result ≡ found SlotFault.BadRegister (register_at number) }
{
    Reg::of(number).ok_or(SlotFault::BadRegister)
}

/// The fields after the opcode.
#[tactic(auto, unfolding(crate::specs::inner::Reading::slot_at))]
#[inline(always)]
fn slot_of_bytes(opcode: Opcode, bytes: &[u8]) -> Result<Slot, SlotFault>
    requires { 8 ≤ length bytes.now }
    ensures slot { result ≡ slot_at opcode bytes.now }
    ensures opcode { IfOk result (λ slot. slot.opcode ≡ opcode) }
{
    let dst = register(bytes[1] & 15)?;
    let src = register(bytes[1] >> 4)?;
    Ok(Slot {
        opcode,
        dst,
        src,
        offset: i16::from_le_bytes([bytes[2], bytes[3]]),
        imm: i32::from_le_bytes([bytes[4], bytes[5], bytes[6], bytes[7]]),
    })
}

/// The high half of a wide instruction.
#[inline(always)]
fn high_half(bytes: &[u8]) -> Result<u32, SlotFault>
    requires { 16 ≤ length bytes.now }
    ensures { result ≡ high_at true bytes.now }
{
    if u32::from_le_bytes([bytes[8], bytes[9], bytes[10], bytes[11]]) != 0 {
        return Err(SlotFault::NonZeroField);
    }
    Ok(u32::from_le_bytes([bytes[12], bytes[13], bytes[14], bytes[15]]))
}

/// The operation of a code where the offset is 0.
#[inline(always)]
fn unsigned_op(code: AluCode) -> AluOp
    ensures { result ≡ unsigned_op code }
{
    match code {
        AluCode::Add => AluOp::Add,
        AluCode::Sub => AluOp::Sub,
        AluCode::Mul => AluOp::Mul,
        AluCode::Div => AluOp::Div,
        AluCode::Or => AluOp::Or,
        AluCode::And => AluOp::And,
        AluCode::Lsh => AluOp::Lsh,
        AluCode::Rsh => AluOp::Rsh,
        AluCode::Mod => AluOp::Mod,
        AluCode::Xor => AluOp::Xor,
        AluCode::Mov => AluOp::Mov,
        AluCode::Arsh => AluOp::Arsh,
    }
}

#[tactic(auto, using(crate::proofs::FormLaws::unsigned_is))]
#[inline(always)]
fn alu_op(code: AluCode, offset: i16) -> AluOp
    ensures { result ≡ op_at code offset }
{
    if offset == 0 {
        return unsigned_op(code);
    }
    match code {
        AluCode::Div => AluOp::Sdiv,
        AluCode::Mod => AluOp::Smod,
        AluCode::Add
        | AluCode::Sub
        | AluCode::Mul
        | AluCode::Or
        | AluCode::And
        | AluCode::Lsh
        | AluCode::Rsh
        | AluCode::Xor
        | AluCode::Mov
        | AluCode::Arsh => unsigned_op(code),
    }
}

#[inline(always)]
fn extension(width: Width, offset: i16) -> Option<MovsxKind>
    ensures { result ≡ kind_at width offset }
{
    match (width, offset) {
        (Width::W32, 8) => Some(MovsxKind::From8To32),
        (Width::W32, 16) => Some(MovsxKind::From16To32),
        (Width::W64, 8) => Some(MovsxKind::From8To64),
        (Width::W64, 16) => Some(MovsxKind::From16To64),
        (Width::W64, 32) => Some(MovsxKind::From32To64),
        _ => None,
    }
}

/// A move from a register, of all bits or of the low ones.
#[inline(always)]
fn move_of(width: Width, slot: Slot) -> Result<Insn, SlotFault>
    ensures { result ≡ move_at width slot }
{
    if slot.offset == 0 {
        return Ok(Insn::Alu {
            op: AluOp::Mov,
            width,
            dst: slot.dst,
            src: Operand::Reg(slot.src),
        });
    }
    match extension(width, slot.offset) {
        Some(kind) => Ok(Insn::Movsx {
            kind,
            dst: slot.dst,
            src: slot.src,
        }),
        None => Err(SlotFault::BadWidth),
    }
}

/// An operation with an immediate.
#[inline(always)]
fn alu_by_imm(code: AluCode, width: Width, slot: Slot) -> Result<Insn, SlotFault>
    requires { slot.opcode ≡ Opcode.Alu code width Source.Imm }
    ensures { result ≡ unless (has_stray_field slot) SlotFault.NonZeroField (alu_insn_at code width Source.Imm slot) }
{
    let Slot {
        dst,
        offset,
        imm,
        ..
    } = slot.clean(allowing(Any, Zero, code.offset_use(Source::Imm), Any))?;
    Ok(Insn::Alu {
        op: alu_op(code, offset),
        width,
        dst,
        src: Operand::Imm(imm),
    })
}

/// An operation with a register.
#[inline(always)]
fn alu_by_reg(code: AluCode, width: Width, slot: Slot) -> Result<Insn, SlotFault>
    requires { slot.opcode ≡ Opcode.Alu code width Source.Reg }
    ensures { result ≡ unless (has_stray_field slot) SlotFault.NonZeroField (alu_insn_at code width Source.Reg slot) }
{
    let slot = slot.clean(allowing(Any, Any, code.offset_use(Source::Reg), Zero))?;
    if let AluCode::Mov = code {
        return move_of(width, slot);
    }
    Ok(Insn::Alu {
        op: alu_op(code, slot.offset),
        width,
        dst: slot.dst,
        src: Operand::Reg(slot.src),
    })
}

#[inline(always)]
fn alu_insn(code: AluCode, width: Width, source: Source, slot: Slot) -> Result<Insn, SlotFault>
    requires { slot.opcode ≡ Opcode.Alu code width source }
    ensures { result ≡ unless (has_stray_field slot) SlotFault.NonZeroField (alu_insn_at code width source slot) }
{
    match source {
        Source::Imm => alu_by_imm(code, width, slot),
        Source::Reg => alu_by_reg(code, width, slot),
    }
}

#[inline(always)]
fn swap_bits(imm: i32) -> Option<SwapBits>
    ensures { result ≡ swap_bits_at imm }
{
    match imm {
        16 => Some(SwapBits::Bits16),
        32 => Some(SwapBits::Bits32),
        64 => Some(SwapBits::Bits64),
        _ => None,
    }
}

#[inline(always)]
fn swap_insn(order: Order, slot: Slot) -> Result<Insn, SlotFault>
    ensures { result ≡ swap_by order slot (swap_bits_at slot.imm) }
{
    match swap_bits(slot.imm) {
        Some(bits) => Ok(Insn::Swap {
            order,
            bits,
            dst: slot.dst,
        }),
        None => Err(SlotFault::BadWidth),
    }
}

#[inline(always)]
fn branch_insn(cond: Cond, width: Width, source: Source, slot: Slot) -> Result<Insn, SlotFault>
    requires { slot.opcode ≡ Opcode.Branch cond width source }
    ensures { result ≡ unless (has_stray_field slot) SlotFault.NonZeroField
        (Ok (Insn.Branch cond width slot.dst (operand_at source slot) slot.offset)) }
{
    let (slot, src) = match source {
        Source::Imm => (
            slot.clean(allowing(Any, Zero, Any, Any))?,
            Operand::Imm(slot.imm),
        ),
        Source::Reg => (
            slot.clean(allowing(Any, Any, Any, Zero))?,
            Operand::Reg(slot.src),
        ),
    };
    Ok(Insn::Branch {
        cond,
        width,
        dst: slot.dst,
        src,
        off: slot.offset,
    })
}

#[inline(always)]
fn load_insn(size: Size, slot: Slot) -> Result<Insn, SlotFault>
    requires { slot.opcode ≡ Opcode.Load size }
    ensures { result ≡ unless (has_stray_field slot) SlotFault.NonZeroField
        (Ok (Insn.Load size slot.dst slot.src slot.offset)) }
{
    let slot = slot.clean(allowing(Any, Any, Any, Zero))?;
    Ok(Insn::Load {
        size,
        dst: slot.dst,
        base: slot.src,
        off: slot.offset,
    })
}

#[inline(always)]
fn load_sx_insn(size: SxSize, slot: Slot) -> Result<Insn, SlotFault>
    requires { slot.opcode ≡ Opcode.LoadSx size }
    ensures { result ≡ unless (has_stray_field slot) SlotFault.NonZeroField
        (Ok (Insn.LoadSx size slot.dst slot.src slot.offset)) }
{
    let slot = slot.clean(allowing(Any, Any, Any, Zero))?;
    Ok(Insn::LoadSx {
        size,
        dst: slot.dst,
        base: slot.src,
        off: slot.offset,
    })
}

#[inline(always)]
fn store_imm_insn(size: Size, slot: Slot) -> Result<Insn, SlotFault>
    requires { slot.opcode ≡ Opcode.StoreImm size }
    ensures { result ≡ unless (has_stray_field slot) SlotFault.NonZeroField
        (Ok (Insn.StoreImm size slot.dst slot.offset slot.imm)) }
{
    let slot = slot.clean(allowing(Any, Zero, Any, Any))?;
    Ok(Insn::StoreImm {
        size,
        base: slot.dst,
        off: slot.offset,
        imm: slot.imm,
    })
}

#[inline(always)]
fn store_reg_insn(size: Size, slot: Slot) -> Result<Insn, SlotFault>
    requires { slot.opcode ≡ Opcode.StoreReg size }
    ensures { result ≡ unless (has_stray_field slot) SlotFault.NonZeroField
        (Ok (Insn.StoreReg size slot.dst slot.offset slot.src)) }
{
    let slot = slot.clean(allowing(Any, Any, Any, Zero))?;
    Ok(Insn::StoreReg {
        size,
        base: slot.dst,
        off: slot.offset,
        src: slot.src,
    })
}

/// The instruction of a slot that is one by itself.
#[inline(always)]
fn insn_of(slot: Slot) -> Result<Insn, SlotFault>
    requires { is_wide slot.opcode ≡ false }
    ensures { result ≡ unless (has_stray_field slot) SlotFault.NonZeroField (form_at slot.opcode slot 0) }
{
    match slot.opcode {
        Opcode::Alu {
            code,
            width,
            source,
        } => alu_insn(code, width, source, slot),
        Opcode::Neg { width } => Ok(Insn::Neg {
            width,
            dst: slot.clean(allowing(Any, Zero, Zero, Zero))?.dst,
        }),
        Opcode::Swap { order } => swap_insn(order, slot.clean(allowing(Any, Zero, Zero, Any))?),
        Opcode::Ja => Ok(Insn::Ja {
            off: slot.clean(allowing(Zero, Zero, Any, Zero))?.offset,
        }),
        Opcode::JaLong => Ok(Insn::JaLong {
            off: slot.clean(allowing(Zero, Zero, Zero, Any))?.imm,
        }),
        Opcode::Branch {
            cond,
            width,
            source,
        } => branch_insn(cond, width, source, slot),
        Opcode::Call => Ok(Insn::Call {
            id: slot.clean(allowing(Zero, Zero, Zero, Any))?.imm,
        }),
        Opcode::Exit => slot
            .clean(allowing(Zero, Zero, Zero, Zero))
            .map(|_| Insn::Exit),
        Opcode::LoadImm64 => unreachable!(),
        Opcode::Load { size } => load_insn(size, slot),
        Opcode::LoadSx { size } => load_sx_insn(size, slot),
        Opcode::StoreImm { size } => store_imm_insn(size, slot),
        Opcode::StoreReg { size } => store_reg_insn(size, slot),
    }
}

/// The instruction of two slots.
#[tactic(auto, unfolding(crate::specs::inner::Reading::slot_at))]
fn wide_insn(bytes: &[u8]) -> Result<Insn, SlotFault>
    requires { 8 ≤ length bytes.now }
    ensures { result ≡ after_opcode Opcode.LoadImm64 bytes.now }
{
    if bytes.len() < 16 {
        return Err(SlotFault::Truncated);
    }
    let slot = slot_of_bytes(Opcode::LoadImm64, bytes)?;
    let high = high_half(bytes)?;
    let Slot { dst, imm, .. } = slot.clean(allowing(Any, Zero, Zero, Any))?;
    Ok(Insn::LoadImm64 {
        dst,
        value: (u64::from(high) << 32) + u64::from(imm.cast_unsigned()),
    })
}

/// The instruction of an opcode that takes one slot.
#[inline(always)]
fn narrow_insn(opcode: Opcode, bytes: &[u8]) -> Result<Insn, SlotFault>
    requires narrow { is_wide opcode ≡ false }
    requires whole { 8 ≤ length bytes.now }
    ensures { result ≡ after_opcode opcode bytes.now }
{
    insn_of(slot_of_bytes(opcode, bytes)?)
}

/// The instruction whose spelling begins the bytes, or the lowest fault that holds there.
#[inline(always)]
pub(crate) fn front(bytes: &[u8]) -> Result<Insn, SlotFault>
    requires { 0 < length bytes.now }
    ensures insn { IfOk result (λ insn. IsFirst bytes.now insn) }
    ensures fault { IfErr result (λ fault. IsFaultAt fault bytes.now) }
{
    if bytes.len() < 8 {
        return Err(SlotFault::Truncated);
    }
    let opcode = Opcode::of(bytes[0]).ok_or(SlotFault::UnknownOpcode)?;
    match opcode {
        Opcode::LoadImm64 => wide_insn(bytes),
        _ => narrow_insn(opcode, bytes),
    }
}
