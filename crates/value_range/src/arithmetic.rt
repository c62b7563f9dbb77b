//! The ranges that hold the results of arithmetic and byte swaps.

ghost use Rattle.std.specs.Prelude.{◌≡◌, ℕ, ◌-◌, ◌*◌, ◌^◌, ◌<◌, ◌≤◌};
ghost use Rattle.bpf_insn.specs.Arithmetic.{bits_of, alu_result, neg_result, movsx_result, movsx_width, swap_result, swap_bit_count};
ghost use Rattle.bpf_insn.specs.declared.forms.AluOp.TheVariants.{Sub, Div, Mod, Lsh, Arsh};
ghost use Rattle.value_range.specs.Span.{Contains, span, full_of};
ghost use Rattle.value_range.specs.Results.{fitting, ones_of, shifted_right, table, narrowed, alu_of, neg_of, movsx_of, swap_of};

use crate::range::{Range, count, is_single_range};
use bpf_insn::{AluOp, MovsxKind, Order, SwapBits, Width};

fn bits(width: Width) -> u64
    ensures value { result ≡ bits_of width }
    ensures positive { 0 < result }
    ensures small { result ≤ 64 }
{
    match width {
        Width::W32 => 32,
        Width::W64 => 64,
    }
}

/// From `lo` to `hi`, or every number of the width where `hi` is past it.
fn fitting_range(width: Width, lo: u128, hi: u128) -> Range
    requires { lo ≤ hi }
    ensures { result ≡ fitting (bits_of width) lo hi }
{
    if hi < count(width) {
        Range {
            lo: lo as u64,
            hi: hi as u64,
        }
    } else {
        Range::full(width)
    }
}

/// The all-ones number of `n`'s length in bits.
fn ones(n: u64) -> u64
    ensures value { result ≡ ones_of n }
    ensures covers { n ≤ result }
{
    ((1u128 << (64 - n.leading_zeros())) - 1) as u64
}

/// A range with numbers past the width becomes every number of the width.
fn narrow(width: Width, a: Range) -> Range
    ensures value { result ≡ narrowed width a }
    ensures below { result.hi < 2 ^ bits_of width }
{
    if u128::from(a.hi) < count(width) {
        a
    } else {
        Range::full(width)
    }
}

fn up_to(hi: u64) -> Range
    ensures { result ≡ span 0 hi }
{
    Range { lo: 0, hi }
}

fn difference(width: Width, a: Range, b: Range) -> Range
    ensures { result ≡ table Sub (bits_of width) a b }
{
    if b.hi <= a.lo {
        Range {
            lo: a.lo - b.hi,
            hi: a.hi - b.lo,
        }
    } else {
        Range::full(width)
    }
}

fn quotient(width: Width, a: Range, b: Range) -> Range
    ensures { result ≡ table Div (bits_of width) a b }
{
    if b.lo >= 1 {
        Range {
            lo: a.lo / b.hi,
            hi: a.hi / b.lo,
        }
    } else {
        up_to(a.hi)
    }
}

fn remainder(width: Width, a: Range, b: Range) -> Range
    ensures { result ≡ table Mod (bits_of width) a b }
{
    if b.lo == 0 {
        up_to(a.hi)
    } else {
        up_to(a.hi.min(b.hi - 1))
    }
}

fn shifted(value: u64, amount: u64) -> u128
    requires { amount < 64 }
    ensures { result ≡ value * 2 ^ amount }
{
    u128::from(value) << amount
}

fn shift_left(width: Width, a: Range, b: Range) -> Range
    ensures { result ≡ table Lsh (bits_of width) a b }
{
    if b.lo == b.hi {
        let amount = b.lo % bits(width);
        fitting_range(width, shifted(a.lo, amount), shifted(a.hi, amount))
    } else {
        Range::full(width)
    }
}

fn shift_right(width: Width, a: Range, b: Range) -> Range
    ensures { result ≡ shifted_right (bits_of width) a b }
{
    if b.lo == b.hi {
        let amount = b.lo % bits(width);
        Range {
            lo: a.lo >> amount,
            hi: a.hi >> amount,
        }
    } else {
        up_to(a.hi)
    }
}

/// The least number with the sign bit.
pub(crate) fn half(width: Width) -> u64
    ensures { result ≡ 2 ^ (bits_of width - 1) }
{
    match width {
        Width::W32 => 1 << 31,
        Width::W64 => 1 << 63,
    }
}

fn shift_right_signed(width: Width, a: Range, b: Range) -> Range
    ensures { result ≡ table Arsh (bits_of width) a b }
{
    if a.hi < half(width) {
        shift_right(width, a, b)
    } else {
        Range::full(width)
    }
}

/// The row of the table, of ranges of numbers of the width.
fn table_at(op: AluOp, width: Width, a: Range, b: Range) -> Range
    ensures { result ≡ table op (bits_of width) a b }
{
    match op {
        AluOp::Add => fitting_range(
            width,
            u128::from(a.lo) + u128::from(b.lo),
            u128::from(a.hi) + u128::from(b.hi),
        ),
        AluOp::Sub => difference(width, a, b),
        AluOp::Mul => fitting_range(
            width,
            u128::from(a.lo) * u128::from(b.lo),
            u128::from(a.hi) * u128::from(b.hi),
        ),
        AluOp::Div => quotient(width, a, b),
        AluOp::Mod => remainder(width, a, b),
        AluOp::And => up_to(a.hi.min(b.hi)),
        AluOp::Or => Range {
            lo: a.lo.max(b.lo),
            hi: ones(a.hi.max(b.hi)),
        },
        AluOp::Xor => up_to(ones(a.hi.max(b.hi))),
        AluOp::Lsh => shift_left(width, a, b),
        AluOp::Rsh => shift_right(width, a, b),
        AluOp::Arsh => shift_right_signed(width, a, b),
        AluOp::Mov => b,
        AluOp::Sdiv | AluOp::Smod => Range::full(width),
    }
}

fn alu_range(op: AluOp, width: Width, a: Range, b: Range) -> Range
    ensures { result ≡ alu_of op width a b }
{
    if is_single_range(a) && is_single_range(b) {
        Range::single(bpf_insn::alu(op, width, a.lo, b.lo))
    } else {
        table_at(op, width, narrow(width, a), narrow(width, b))
    }
}

/// Returns a range that holds the operation's results (docs/VERIFIER.md, "Arithmetic on ranges"). In 32 bits an operand
/// with numbers of more bits counts as every number of 32 bits, unless both operands are single.
pub fn alu(op: AluOp, width: Width, a: Range, b: Range) -> Range
    ensures exact { result ≡ alu_of op width a b }
    ensures contains { (x y : ℕ) → Contains a x → Contains b y →
        Contains result (alu_result op width x y) }
{
    alu_range(op, width, a, b)
}

fn neg_range(width: Width, a: Range) -> Range
    ensures { result ≡ neg_of width a }
{
    if a.lo == a.hi {
        Range::single(bpf_insn::neg(width, a.lo))
    } else {
        Range::full(width)
    }
}

/// Returns a range that holds `0 - x` of each number x: that of a single number, otherwise every number.
pub fn neg(width: Width, a: Range) -> Range
    ensures exact { result ≡ neg_of width a }
    ensures contains { (x : ℕ) → Contains a x → Contains result (neg_result width x) }
{
    neg_range(width, a)
}

fn movsx_full(kind: MovsxKind) -> Range
    ensures { result ≡ full_of (bits_of (movsx_width kind)) }
{
    match kind {
        MovsxKind::From8To32 | MovsxKind::From16To32 => Range::full(Width::W32),
        MovsxKind::From8To64 | MovsxKind::From16To64 | MovsxKind::From32To64 => {
            Range::full(Width::W64)
        }
    }
}

fn movsx_range(kind: MovsxKind, a: Range) -> Range
    ensures { result ≡ movsx_of kind a }
{
    if a.lo == a.hi {
        Range::single(bpf_insn::movsx(kind, a.lo))
    } else {
        movsx_full(kind)
    }
}

/// Returns a range that holds the sign extension of each number: that of a single number, otherwise every number of the
/// result's width.
pub fn movsx(kind: MovsxKind, a: Range) -> Range
    ensures exact { result ≡ movsx_of kind a }
    ensures contains { (x : ℕ) → Contains a x → Contains result (movsx_result kind x) }
{
    movsx_range(kind, a)
}

fn swap_full(bits: SwapBits) -> Range
    ensures { result ≡ full_of (swap_bit_count bits) }
{
    match bits {
        SwapBits::Bits16 => up_to(u64::from(u16::MAX)),
        SwapBits::Bits32 => up_to(u64::from(u32::MAX)),
        SwapBits::Bits64 => up_to(u64::MAX),
    }
}

fn swap_range(order: Order, bits: SwapBits, a: Range) -> Range
    ensures { result ≡ swap_of order bits a }
{
    if a.lo == a.hi {
        Range::single(bpf_insn::swap(order, bits, a.lo))
    } else {
        swap_full(bits)
    }
}

/// Returns a range that holds each number with its bytes in the order: that of a single number, otherwise every number
/// of as many bits.
pub fn swap(order: Order, bits: SwapBits, a: Range) -> Range
    ensures exact { result ≡ swap_of order bits a }
    ensures contains { (x : ℕ) → Contains a x → Contains result (swap_result order bits x) }
{
    swap_range(order, bits, a)
}
