//! Arithmetic, byte swaps and conditions on the values of registers.

ghost use Rattle.std.specs.Prelude.{◌≡◌, ◌<◌, ◌%◌, ◌^◌};
ghost use Rattle.bpf_insn.specs.Arithmetic.{plain_result, alu_result, neg_result, movsx_result};
ghost use Rattle.bpf_insn.specs.Arithmetic.{swap_result, compares, holds};
ghost use Rattle.bpf_insn.specs.declared.forms.Width.TheVariants.{W32, W64};
ghost use Rattle.bpf_insn.specs.declared.forms.AluOp.TheVariants.{Sdiv, Smod, Arsh};

use crate::forms::{AluOp, Cond, MovsxKind, Order, SwapBits, Width};

fn low32(value: u64) -> u32
    ensures { result ≡ value % 2 ^ 32 }
{
    (value & 0xffff_ffff) as u32
}

#[inline(always)]
fn alu32(op: AluOp, a: u32, b: u32) -> u32
    ensures { result ≡ plain_result op W32 a b % 2 ^ 32 }
{
    match op {
        AluOp::Add => a.wrapping_add(b),
        AluOp::Sub => a.wrapping_sub(b),
        AluOp::Mul => a.wrapping_mul(b),
        AluOp::Div => a.checked_div(b).unwrap_or(0),
        AluOp::Sdiv => sdiv32(a, b),
        AluOp::Or => a | b,
        AluOp::And => a & b,
        AluOp::Lsh => a.wrapping_shl(b),
        AluOp::Rsh => a.wrapping_shr(b),
        AluOp::Mod => a.checked_rem(b).unwrap_or(a),
        AluOp::Smod => smod32(a, b),
        AluOp::Xor => a ^ b,
        AluOp::Mov => b,
        AluOp::Arsh => arsh32(a, b),
    }
}

fn sdiv32(a: u32, b: u32) -> u32
    ensures { result ≡ plain_result Sdiv W32 a b % 2 ^ 32 }
{
    if b == 0 {
        return 0;
    }
    a.cast_signed()
        .wrapping_div(b.cast_signed())
        .cast_unsigned()
}

fn smod32(a: u32, b: u32) -> u32
    ensures { result ≡ plain_result Smod W32 a b % 2 ^ 32 }
{
    if b == 0 {
        return a;
    }
    a.cast_signed()
        .wrapping_rem(b.cast_signed())
        .cast_unsigned()
}

fn arsh32(a: u32, b: u32) -> u32
    ensures { result ≡ plain_result Arsh W32 a b % 2 ^ 32 }
{
    (a.cast_signed() >> (b % 32)).cast_unsigned()
}

fn sdiv64(a: u64, b: u64) -> u64
    ensures { result ≡ plain_result Sdiv W64 a b % 2 ^ 64 }
{
    if b == 0 {
        return 0;
    }
    a.cast_signed()
        .wrapping_div(b.cast_signed())
        .cast_unsigned()
}

fn smod64(a: u64, b: u64) -> u64
    ensures { result ≡ plain_result Smod W64 a b % 2 ^ 64 }
{
    if b == 0 {
        return a;
    }
    a.cast_signed()
        .wrapping_rem(b.cast_signed())
        .cast_unsigned()
}

fn arsh64(a: u64, b: u64) -> u64
    ensures { result ≡ plain_result Arsh W64 a b % 2 ^ 64 }
{
    (a.cast_signed() >> (b % 64)).cast_unsigned()
}

#[inline(always)]
fn alu64(op: AluOp, a: u64, b: u64) -> u64
    ensures { result ≡ plain_result op W64 a b % 2 ^ 64 }
{
    match op {
        AluOp::Add => a.wrapping_add(b),
        AluOp::Sub => a.wrapping_sub(b),
        AluOp::Mul => a.wrapping_mul(b),
        AluOp::Div => a.checked_div(b).unwrap_or(0),
        AluOp::Sdiv => sdiv64(a, b),
        AluOp::Or => a | b,
        AluOp::And => a & b,
        AluOp::Lsh => a << (b % 64),
        AluOp::Rsh => a >> (b % 64),
        AluOp::Mod => a.checked_rem(b).unwrap_or(a),
        AluOp::Smod => smod64(a, b),
        AluOp::Xor => a ^ b,
        AluOp::Mov => b,
        AluOp::Arsh => arsh64(a, b),
    }
}

/// Returns the result of an operation (RFC 9669, section 4.1). In 32 bits it looks at the low halves, and the upper
/// half of the result is 0. Each division is defined, also by 0.
#[inline(always)]
pub fn alu(op: AluOp, width: Width, a: u64, b: u64) -> u64
    ensures { result ≡ alu_result op width a b }
{
    match width {
        Width::W32 => u64::from(alu32(op, low32(a), low32(b))),
        Width::W64 => alu64(op, a, b),
    }
}

/// Returns `0 - a` at the width.
pub fn neg(width: Width, a: u64) -> u64
    ensures { result ≡ neg_result width a }
{
    match width {
        Width::W32 => u64::from(low32(a).wrapping_neg()),
        Width::W64 => a.wrapping_neg(),
    }
}

fn holds32(cond: Cond, a: u32, b: u32) -> bool
    ensures { result ≡ compares cond 32 a b }
{
    let (x, y) = (a.cast_signed(), b.cast_signed());
    match cond {
        Cond::Eq => a == b,
        Cond::Gt => a > b,
        Cond::Ge => a >= b,
        Cond::Set => a & b != 0,
        Cond::Ne => a != b,
        Cond::Sgt => x > y,
        Cond::Sge => x >= y,
        Cond::Lt => a < b,
        Cond::Le => a <= b,
        Cond::Slt => x < y,
        Cond::Sle => x <= y,
    }
}

fn holds64(cond: Cond, a: u64, b: u64) -> bool
    ensures { result ≡ compares cond 64 a b }
{
    let (x, y) = (a.cast_signed(), b.cast_signed());
    match cond {
        Cond::Eq => a == b,
        Cond::Gt => a > b,
        Cond::Ge => a >= b,
        Cond::Set => a & b != 0,
        Cond::Ne => a != b,
        Cond::Sgt => x > y,
        Cond::Sge => x >= y,
        Cond::Lt => a < b,
        Cond::Le => a <= b,
        Cond::Slt => x < y,
        Cond::Sle => x <= y,
    }
}

/// Returns whether a condition holds of two values, in 32 bits of their low halves (RFC 9669, section 4.3).
pub fn holds(cond: Cond, width: Width, a: u64, b: u64) -> bool
    ensures { result ≡ holds cond width a b }
{
    match width {
        Width::W32 => holds32(cond, low32(a), low32(b)),
        Width::W64 => holds64(cond, a, b),
    }
}

/// Returns the low bits, read as signed, at the width of the result (RFC 9669, section 4.1, MOVSX).
pub fn movsx(kind: MovsxKind, value: u64) -> u64
    ensures { result ≡ movsx_result kind value }
{
    match kind {
        MovsxKind::From8To32 => {
            u64::from(i32::from(((value & 0xff) as u8).cast_signed()).cast_unsigned())
        }
        MovsxKind::From16To32 => {
            u64::from(i32::from(((value & 0xffff) as u16).cast_signed()).cast_unsigned())
        }
        MovsxKind::From8To64 => i64::from(((value & 0xff) as u8).cast_signed()).cast_unsigned(),
        MovsxKind::From16To64 => i64::from(((value & 0xffff) as u16).cast_signed()).cast_unsigned(),
        MovsxKind::From32To64 => i64::from(low32(value).cast_signed()).cast_unsigned(),
    }
}

/// Returns the low bits with their bytes in an order; the bits above are 0 (RFC 9669, section 4.2). The machine's own
/// order is little-endian.
pub fn swap(order: Order, bits: SwapBits, value: u64) -> u64
    ensures { result ≡ swap_result order bits value }
{
    match (order, bits) {
        (Order::Le, SwapBits::Bits16) => value & 0xffff,
        (Order::Le, SwapBits::Bits32) => value & 0xffff_ffff,
        (Order::Le, SwapBits::Bits64) => value,
        (Order::Be | Order::Always, SwapBits::Bits16) => u64::from(
            ((value & 0xffff) as u16).swap_bytes(),
        ),
        (Order::Be | Order::Always, SwapBits::Bits32) => u64::from(low32(value).swap_bytes()),
        (Order::Be | Order::Always, SwapBits::Bits64) => value.swap_bytes(),
    }
}
