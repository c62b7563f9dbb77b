//! What is known after an instruction (docs/VERIFIER.md, "Outcomes").

ghost use Rattle.std.specs.Prelude.{◌≡◌, ℕ, ◌+◌, ◌-◌, ◌*◌, ◌^◌, ◌<◌, ◌≤◌, Bool, false, true, Some, None, IsTrue, IfSome, IfOk, OnOk};
ghost use Rattle.value_range.specs.Span.{full_of, just, meet_of};
ghost use Rattle.bpf_insn.specs.Edges.{moved};
ghost use Rattle.bpf_insn.specs.Operands.{access_bytes};
ghost use Rattle.bpf_verify.specs.States.{kind_of};
ghost use Rattle.bpf_verify.specs.inner.Rows.{abstract_of};
ghost use Rattle.bpf_verify.specs.Rules.{may_leave_region, may_leave_regions, operand_kind};
ghost use Rattle.bpf_verify.specs.Outcomes as outcomes;
ghost use Rattle.value_range.specs.Results.{alu_of, neg_of, movsx_of, swap_of};
ghost use Rattle.bpf_verify.specs.inner.Parts.{Becomes};
ghost use Rattle.bpf_insn.specs.declared.forms.Operand.TheVariants as operand;
ghost use Rattle.bpf_insn.specs.declared.forms.Width.TheVariants.{W64};
ghost use Rattle.node_env.specs.declared.region.Region.TheVariants.{Stack};

use crate::abstract_state::{AbstractState, below, up_to};
use crate::abstract_value::AbstractValue;
use crate::rules::{bytes_taken, is_whole, operand_kind, takes_dword};
use bpf_insn::{AluOp, Cond, Insn, MovsxKind, Operand, Order, Reg, Size, SwapBits, Way, Width};
use node_env::{Helper, Region, STACK_BYTES, Shape};
use std::alloc::{AllocError, Global};
use value_range::{Range, alu, branch, meet, movsx, neg, swap};

fn sum(a: AbstractValue, b: AbstractValue) -> AbstractValue
    ensures { result ≡ outcomes.sum_kind a b }
{
    match a {
        AbstractValue::Unset => AbstractValue::Unset,
        AbstractValue::Number(x) => match b {
            AbstractValue::Unset => AbstractValue::Unset,
            AbstractValue::Number(y) => AbstractValue::Number(alu(AluOp::Add, Width::W64, x, y)),
            AbstractValue::Pointer(region, y) => AbstractValue::Pointer(
                region,
                alu(AluOp::Add, Width::W64, x, y),
            ),
        },
        AbstractValue::Pointer(region, x) => match b {
            AbstractValue::Unset | AbstractValue::Pointer(..) => AbstractValue::Unset,
            AbstractValue::Number(y) => AbstractValue::Pointer(
                region,
                alu(AluOp::Add, Width::W64, x, y),
            ),
        },
    }
}

fn difference(a: AbstractValue, b: AbstractValue) -> AbstractValue
    ensures { result ≡ outcomes.difference_kind a b }
{
    match b {
        AbstractValue::Unset | AbstractValue::Pointer(..) => AbstractValue::Unset,
        AbstractValue::Number(y) => match a {
            AbstractValue::Unset => AbstractValue::Unset,
            AbstractValue::Number(x) => AbstractValue::Number(alu(AluOp::Sub, Width::W64, x, y)),
            AbstractValue::Pointer(region, x) => AbstractValue::Pointer(
                region,
                alu(AluOp::Sub, Width::W64, x, y),
            ),
        },
    }
}

fn of_numbers(op: AluOp, width: Width, a: AbstractValue, b: AbstractValue) -> AbstractValue
    ensures { result ≡ outcomes.of_number_kinds (alu_of op width) a b }
{
    match a {
        AbstractValue::Unset | AbstractValue::Pointer(..) => AbstractValue::Unset,
        AbstractValue::Number(x) => match b {
            AbstractValue::Unset | AbstractValue::Pointer(..) => AbstractValue::Unset,
            AbstractValue::Number(y) => AbstractValue::Number(alu(op, width, x, y)),
        },
    }
}

/// What a move copies.
fn moved_kind(width: Width, b: AbstractValue) -> AbstractValue
    ensures { (a : AbstractValue) → result ≡ outcomes.alu_kind AluOp.Mov width a b }
{
    match width {
        Width::W64 => b,
        Width::W32 => match b {
            AbstractValue::Unset | AbstractValue::Pointer(..) => AbstractValue::Unset,
            AbstractValue::Number(y) => AbstractValue::Number(alu(AluOp::Mov, Width::W32, y, y)),
        },
    }
}

/// Returns what is known of the result of an operation.
pub fn alu_kind(op: AluOp, width: Width, a: AbstractValue, b: AbstractValue) -> AbstractValue
    ensures { result ≡ outcomes.alu_kind op width a b }
{
    match op {
        AluOp::Mov => moved_kind(width, b),
        AluOp::Add => match width {
            Width::W64 => sum(a, b),
            Width::W32 => of_numbers(op, width, a, b),
        },
        AluOp::Sub => match width {
            Width::W64 => difference(a, b),
            Width::W32 => of_numbers(op, width, a, b),
        },
        AluOp::Mul
        | AluOp::Div
        | AluOp::Sdiv
        | AluOp::Or
        | AluOp::And
        | AluOp::Lsh
        | AluOp::Rsh
        | AluOp::Mod
        | AluOp::Smod
        | AluOp::Xor
        | AluOp::Arsh => of_numbers(op, width, a, b),
    }
}

/// The numbers that a load can give.
fn loaded(size: Size) -> Range
    ensures { result ≡ full_of (8 * access_bytes size) }
{
    match size {
        Size::B => up_to(u64::from(u8::MAX)),
        Size::H => up_to(u64::from(u16::MAX)),
        Size::W => Range::full(Width::W32),
        Size::Dw => Range::full(Width::W64),
    }
}

/// What eight bytes hold, by what is known of their double word.
fn or_full(kind: AbstractValue) -> AbstractValue
    ensures { result ≡ outcomes.or_full kind 8 }
{
    match kind {
        AbstractValue::Unset => AbstractValue::Number(Range::full(Width::W64)),
        AbstractValue::Number(a) => {
            let (_least, _greatest) = (a.lo(), a.hi());
            AbstractValue::Number(a)
        }
        AbstractValue::Pointer(region, a) => AbstractValue::Pointer(region, a),
    }
}

/// What a load by a pointer gives.
#[inline(always)]
#[tactic(auto, using(crate::proofs::RuleLaws::nothing_held))]
fn loaded_kind(
    shape: Shape,
    known: &AbstractState,
    base: Reg,
    off: i16,
    size: Size,
) -> AbstractValue
    requires { may_leave_region shape (kind_of (abstract_of known.now) base) off (access_bytes size) ≡ false }
    ensures { result ≡ outcomes.loaded_kind (abstract_of known.now) (kind_of (abstract_of known.now) base) off
        (access_bytes size) }
{
    if known.holds_none() || !takes_dword(known.kind(base), off, size.bytes()) {
        return AbstractValue::Number(loaded(size));
    }
    match known.kind(base) {
        AbstractValue::Unset | AbstractValue::Number(_) => AbstractValue::Number(loaded(size)),
        AbstractValue::Pointer(region, a) => match bytes_taken(
            shape,
            region,
            a,
            off,
            size.bytes(),
        ) {
            Some((first, _end)) => or_full(known.entry_of(first)),
            None => unreachable!(),
        },
    }
}

fn answer(shape: Shape, helper: Option<Helper>) -> AbstractValue
    ensures { result ≡ outcomes.answer_kind shape helper }
{
    match helper {
        None => AbstractValue::Unset,
        Some(called) => match called {
            Helper::Id => AbstractValue::Number(below(shape.nodes())),
            Helper::Recv => AbstractValue::Number(Range::full(Width::W32)),
            Helper::Send => AbstractValue::Number(Range::single(0)),
            Helper::Coin => AbstractValue::Number(up_to(1)),
        },
    }
}

fn call(shape: Shape, helper: Option<Helper>, known: &mut AbstractState)
    ensures { abstract_of known.new ≡ outcomes.call_outcome shape helper (abstract_of known.old) }
{
    let answer = answer(shape, helper);
    known.set_kind(Reg::R0, answer);
    known.set_kind(Reg::R1, AbstractValue::Unset);
    known.set_kind(Reg::R2, AbstractValue::Unset);
    known.set_kind(Reg::R3, AbstractValue::Unset);
    known.set_kind(Reg::R4, AbstractValue::Unset);
    known.set_kind(Reg::R5, AbstractValue::Unset);
}

/// What is known after a store of an operand by a pointer into the stack, of bytes from a first on, before an end.
#[inline(always)]
fn store_there(
    alloc: Global,
    a: Range,
    off: i16,
    count: u32,
    bytes: (u32, u32),
    src: Operand,
    known: &mut AbstractState,
) -> Result<(), AllocError>
    requires first { moved a.lo off ≡ Some bytes.0 }
    requires last { moved a.hi off ≡ Some (bytes.1 - count) }
    requires inside { (count ≤ bytes.1) × (bytes.0 + count ≤ bytes.1) × (bytes.1 ≤ STACK_BYTES) }
    ensures { OnOk result (abstract_of known.new ≡ outcomes.stored_at (abstract_of known.old) (AbstractValue.Pointer Stack a) off
        count (operand_kind W64 src (abstract_of known.old))) }
{
    let (first, end) = bytes;
    if is_whole(a, off, count) {
        return known.hold(alloc, first, operand_kind(Width::W64, src, known));
    }
    known.forget(first, end);
    if a.lo() == a.hi() {
        known.write(first, count);
    }
    Ok(())
}

#[inline(always)]
fn store(
    alloc: Global,
    shape: Shape,
    base: Reg,
    off: i16,
    count: u32,
    src: Operand,
    known: &mut AbstractState,
) -> Result<(), AllocError>
    requires few { count ≤ 8 }
    requires inside { may_leave_region shape (kind_of (abstract_of known.old) base) off count ≡ false }
    ensures { OnOk result (abstract_of known.new ≡ outcomes.stored_at (abstract_of known.old)
        (kind_of (abstract_of known.old) base) off count (operand_kind W64 src (abstract_of known.old))) }
{
    if let AbstractValue::Pointer(region, a) = known.kind(base) {
        if region == Region::Stack {
            if let Some(bytes) = bytes_taken(shape, region, a, off, count) {
                return store_there(alloc, a, off, count, bytes, src, known);
            }
        }
    }
    Ok(())
}

/// One register on both sides has what the condition leaves of both.
fn set_meet(known: &mut AbstractState, register: Reg, a: Range, b: Range) -> bool
    ensures { Becomes (outcomes.with_meet (abstract_of known.old) register (meet_of a b))
        (abstract_of known.new) result }
{
    match meet(a, b) {
        None => false,
        Some(common) => {
            known.set_kind(register, AbstractValue::Number(common));
            true
        }
    }
}

fn refine(known: &mut AbstractState, dst: Reg, src: Operand, pair: Option<(Range, Range)>) -> bool
    ensures { Becomes (outcomes.refined_by (abstract_of known.old) dst src pair) (abstract_of known.new) result }
{
    match pair {
        None => false,
        Some((a, b)) => match src {
            Operand::Imm(_imm) => {
                known.set_kind(dst, AbstractValue::Number(a));
                true
            }
            Operand::Reg(register) => refine_both(known, dst, register, a, b),
        },
    }
}

fn refine_both(known: &mut AbstractState, dst: Reg, src: Reg, a: Range, b: Range) -> bool
    ensures { Becomes (outcomes.refined_by (abstract_of known.old) dst (operand.Reg src) (Some (a, b)))
        (abstract_of known.new) result }
{
    if src.number() == dst.number() {
        return set_meet(known, dst, a, b);
    }
    known.set_kind(dst, AbstractValue::Number(a));
    known.set_kind(src, AbstractValue::Number(b));
    true
}

fn is_taken(way: Way) -> bool
    ensures { result ≡ outcomes.is_taken way }
{
    match way {
        Way::Onward => false,
        Way::Jumping => true,
    }
}

fn take(
    known: &mut AbstractState,
    cond: Cond,
    width: Width,
    dst: Reg,
    src: Operand,
    taken: bool,
) -> bool
    ensures { Becomes (outcomes.way_outcome (abstract_of known.old) cond width dst src taken)
        (abstract_of known.new) result }
{
    match known.kind(dst) {
        AbstractValue::Unset | AbstractValue::Pointer(..) => false,
        AbstractValue::Number(a) => match operand_kind(width, src, known) {
            AbstractValue::Unset | AbstractValue::Pointer(..) => false,
            AbstractValue::Number(b) => {
                let pair = branch(cond, width, a, b, taken);
                refine(known, dst, src, pair)
            }
        },
    }
}

fn apply_alu(known: &mut AbstractState, op: AluOp, width: Width, dst: Reg, src: Operand)
    ensures { abstract_of known.new ≡ outcomes.alu_outcome (abstract_of known.old) op width dst src }
{
    let kind = alu_kind(op, width, known.kind(dst), operand_kind(width, src, known));
    known.set_kind(dst, kind);
}

fn negated(width: Width, kind: AbstractValue) -> AbstractValue
    ensures { result ≡ outcomes.of_number_kind (neg_of width) kind }
{
    match kind {
        AbstractValue::Unset | AbstractValue::Pointer(..) => AbstractValue::Unset,
        AbstractValue::Number(a) => AbstractValue::Number(neg(width, a)),
    }
}

fn extended(kind: MovsxKind, value: AbstractValue) -> AbstractValue
    ensures { result ≡ outcomes.of_number_kind (movsx_of kind) value }
{
    match value {
        AbstractValue::Unset | AbstractValue::Pointer(..) => AbstractValue::Unset,
        AbstractValue::Number(a) => AbstractValue::Number(movsx(kind, a)),
    }
}

fn swapped(order: Order, bits: SwapBits, kind: AbstractValue) -> AbstractValue
    ensures { result ≡ outcomes.of_number_kind (swap_of order bits) kind }
{
    match kind {
        AbstractValue::Unset | AbstractValue::Pointer(..) => AbstractValue::Unset,
        AbstractValue::Number(a) => AbstractValue::Number(swap(order, bits, a)),
    }
}

/// Makes what is known before an instruction what is known after it on a way. `false` where the way isn't taken.
pub(crate) fn apply(
    alloc: Global,
    shape: Shape,
    insn: &Insn,
    known: &mut AbstractState,
    way: Way,
) -> Result<bool, AllocError>
    requires { may_leave_regions shape insn.now (abstract_of known.old) ≡ false }
    ensures { IfOk result (Becomes (outcomes.outcome shape insn.now (abstract_of known.old) way)
        (abstract_of known.new)) }
{
    match *insn {
        Insn::Branch {
            cond,
            width,
            dst,
            src,
            ..
        } => return Ok(take(known, cond, width, dst, src, is_taken(way))),
        Insn::Exit => return Ok(false),
        Insn::Ja { .. } | Insn::JaLong { .. } => {}
        Insn::Alu {
            op,
            width,
            dst,
            src,
        } => apply_alu(known, op, width, dst, src),
        Insn::Neg { width, dst } => known.set_kind(dst, negated(width, known.kind(dst))),
        Insn::Movsx { kind, dst, src } => known.set_kind(dst, extended(kind, known.kind(src))),
        Insn::Swap { order, bits, dst } => {
            known.set_kind(dst, swapped(order, bits, known.kind(dst)));
        }
        Insn::Call { id } => call(shape, Helper::of(id), known),
        Insn::Load {
            size,
            dst,
            base,
            off,
        } => {
            let kind = loaded_kind(shape, known, base, off, size);
            known.set_kind(dst, kind);
        }
        Insn::LoadSx { dst, .. } => known.set_kind(
            dst,
            AbstractValue::Number(Range::full(Width::W64)),
        ),
        Insn::StoreReg {
            size,
            base,
            off,
            src,
        } => store(
            alloc,
            shape,
            base,
            off,
            size.bytes(),
            Operand::Reg(src),
            known,
        )?,
        Insn::StoreImm {
            size,
            base,
            off,
            imm,
        } => store(
            alloc,
            shape,
            base,
            off,
            size.bytes(),
            Operand::Imm(imm),
            known,
        )?,
        Insn::LoadImm64 { dst, value } => known.set_kind(
            dst,
            AbstractValue::Number(Range::single(value)),
        ),
    }
    Ok(true)
}
