//! The rules, asked of an instruction at a slot and of what is known there (docs/VERIFIER.md, "Rules").

ghost use Rattle.std.specs.Prelude.{◌≡◌, ℕ, ◌+◌, ◌-◌, ◌%◌, ◌^◌, ◌<◌, ◌≤◌, Bool, false, true, Some, None, is_none, is_some, IsTrue, IsNone, IfSome, ◌↔◌};
ghost use Rattle.std.specs.Int.{w64, cast_unsigned};
ghost use Rattle.bpf_insn.specs.Programs.{insn_at, slots_of};
ghost use Rattle.bpf_insn.specs.Edges.{moved, target};
ghost use Rattle.bpf_insn.specs.declared.edges.Way.TheVariants.{Onward};
ghost use Rattle.bpf_insn.specs.Arithmetic.{bits_of};
ghost use Rattle.bpf_verify.specs.inner.Rows.{abstract_of};
ghost use Rattle.bpf_verify.specs.Rules as rules;
ghost use Rattle.bpf_verify.specs.States.{kind_of};
ghost use Rattle.node_env.specs.Helpers.{arguments_of};
ghost use Rattle.node_env.specs.Env.{region_size};
ghost use Rattle.bpf_insn.specs.Operands.{alu_reads, argument_registers, call_of, is_frame_pointer, operand_reads, reads, registers_in};

use crate::abstract_state::AbstractState;
use crate::abstract_value::AbstractValue;
use crate::rule::Rule;
use bpf_insn::{
    Access, AluOp, Insn, MAX_ARGUMENTS, Operand, Program, Reads, Reg, Way, Width, access_of,
    call_of, distance, is_exit, load_of, registers_read, target, written_by,
};
use node_env::{Helper, Region, STACK_BYTES, Shape, arguments_of};
use value_range::{Range, alu};

/// Returns whether nothing is known.
pub fn is_unset(kind: AbstractValue) -> bool
    ensures { result ≡ rules.is_unset_kind kind }
{
    match kind {
        AbstractValue::Unset => true,
        AbstractValue::Number(_) | AbstractValue::Pointer(..) => false,
    }
}

/// Returns whether it is a pointer.
pub fn is_pointer(kind: AbstractValue) -> bool
    ensures { result ≡ rules.is_pointer_kind kind }
{
    match kind {
        AbstractValue::Pointer(..) => true,
        AbstractValue::Unset | AbstractValue::Number(_) => false,
    }
}

fn is_number(kind: AbstractValue) -> bool
    ensures { result ≡ rules.is_number_kind kind }
{
    match kind {
        AbstractValue::Number(_) => true,
        AbstractValue::Unset | AbstractValue::Pointer(..) => false,
    }
}

fn immediate(width: Width, imm: i32) -> u64
    ensures { result ≡ cast_unsigned w64 imm % 2 ^ bits_of width }
{
    let extended = i64::from(imm).cast_unsigned();
    match width {
        Width::W32 => extended & u64::from(u32::MAX),
        Width::W64 => extended,
    }
}

/// Returns what is known of a second operand.
pub fn operand_kind(width: Width, src: Operand, known: &AbstractState) -> AbstractValue
    ensures { result ≡ rules.operand_kind width src (abstract_of known.now) }
{
    match src {
        Operand::Imm(imm) => AbstractValue::Number(Range::single(immediate(width, imm))),
        Operand::Reg(register) => known.kind(register),
    }
}

fn goes_back(insn: &Insn) -> bool
    ensures { result ≡ rules.goes_back insn.now }
{
    match distance(insn) {
        Some(off) => off < 0,
        None => false,
    }
}

/// Returns whether no instruction begins where an edge leads.
pub fn is_astray(program: &Program, to: Option<u64>) -> bool
    ensures { result ≡ rules.is_astray program.now to }
{
    match to {
        None => false,
        Some(slot) => {
            if slot >= u64::from(program.slot_count()) {
                return true;
            }
            program.insn_at(slot as u32).is_none()
        }
    }
}

/// Whether the way onward leads past the program's end. Else an instruction begins there.
fn ends_program(program: &Program, slot: u32, insn: &Insn) -> bool
    requires { insn_at program.now slot ≡ Some insn.now }
    ensures { result ≡ rules.is_astray program.now (target insn.now slot Onward) }
{
    match target(insn, slot, Way::Onward) {
        None => false,
        Some(next) => next >= u64::from(program.slot_count()),
    }
}

fn leads_astray(program: &Program, slot: u32, insn: &Insn) -> bool
    requires { insn_at program.now slot ≡ Some insn.now }
    ensures { result ≡ rules.leads_astray program.now slot insn.now }
{
    ends_program(program, slot, insn) || is_astray(program, target(insn, slot, Way::Jumping))
}

fn calls_unknown(insn: &Insn) -> bool
    ensures { result ≡ rules.calls_unknown insn.now }
{
    match call_of(insn) {
        Some(id) => Helper::of(id).is_none(),
        None => false,
    }
}

fn holds_nothing(known: &AbstractState, register: Reg) -> bool
    ensures { result ≡ rules.is_unset_kind (kind_of (abstract_of known.now) register) }
{
    is_unset(known.kind(register))
}

/// How many arguments the instruction's call takes, none if it is no call.
fn arguments(insn: &Insn) -> u32
    ensures count { IfSome (call_of insn.now) (λ id. arguments_of id ≡ result) }
    ensures few { result ≤ MAX_ARGUMENTS }
{
    match call_of(insn) {
        Some(id) => arguments_of(id),
        None => 0,
    }
}

/// Returns the registers that an instruction reads, in order; of a call, those of its helper's arguments.
pub fn registers_of(insn: &Insn) -> Reads
    ensures { registers_in result ≡ reads arguments_of insn.now }
{
    registers_read(insn, arguments(insn))
}

fn operand_unset(known: &AbstractState, src: Operand) -> bool
    ensures { result ≡ rules.some_unset (abstract_of known.now) (operand_reads src) }
{
    match src {
        Operand::Imm(_) => false,
        Operand::Reg(register) => holds_nothing(known, register),
    }
}

fn alu_reads_unset(known: &AbstractState, op: AluOp, dst: Reg, src: Operand) -> bool
    ensures { result ≡ rules.some_unset (abstract_of known.now) (alu_reads op dst src) }
{
    match op {
        AluOp::Mov => operand_unset(known, src),
        AluOp::Add
        | AluOp::Sub
        | AluOp::Mul
        | AluOp::Div
        | AluOp::Sdiv
        | AluOp::Or
        | AluOp::And
        | AluOp::Lsh
        | AluOp::Rsh
        | AluOp::Mod
        | AluOp::Smod
        | AluOp::Xor
        | AluOp::Arsh => holds_nothing(known, dst) || operand_unset(known, src),
    }
}

fn call_reads_unset(known: &AbstractState, id: i32) -> bool
    ensures { result ≡ rules.some_unset (abstract_of known.now) (argument_registers (arguments_of id)) }
{
    match Helper::of(id) {
        None => false,
        Some(helper) => match helper {
            Helper::Id | Helper::Coin => false,
            Helper::Recv => holds_nothing(known, Reg::R1),
            Helper::Send => holds_nothing(known, Reg::R1) || holds_nothing(known, Reg::R2),
        },
    }
}

fn reads_unset(insn: &Insn, known: &AbstractState) -> bool
    ensures { result ≡ rules.reads_unset insn.now (abstract_of known.now) }
{
    match *insn {
        Insn::Alu { op, dst, src, .. } => alu_reads_unset(known, op, dst, src),
        Insn::Neg { dst, .. } => holds_nothing(known, dst),
        Insn::Swap { dst, .. } => holds_nothing(known, dst),
        Insn::Movsx { src, .. } => holds_nothing(known, src),
        Insn::Branch { dst, src, .. } => holds_nothing(known, dst) || operand_unset(known, src),
        Insn::Call { id } => call_reads_unset(known, id),
        Insn::Exit => holds_nothing(known, Reg::R0),
        Insn::Load { base, .. } => holds_nothing(known, base),
        Insn::LoadSx { base, .. } => holds_nothing(known, base),
        Insn::StoreReg { base, src, .. } => holds_nothing(known, base) || holds_nothing(known, src),
        Insn::StoreImm { base, .. } => holds_nothing(known, base),
        Insn::Ja { .. } | Insn::JaLong { .. } | Insn::LoadImm64 { .. } => false,
    }
}

fn is_frame_pointer(register: Reg) -> bool
    ensures { result ≡ is_frame_pointer (Some register) }
{
    register.number() == 10
}

fn writes_frame(insn: &Insn) -> bool
    ensures { result ≡ rules.writes_frame insn.now }
{
    match written_by(insn) {
        Some(register) => is_frame_pointer(register),
        None => false,
    }
}

fn passes(shape: Shape, region: Region, a: Range) -> bool
    ensures { result ≡ rules.passes shape region a }
{
    a.hi() > u64::from(shape.region_size(region))
}

fn misuses_sum(shape: Shape, a: AbstractValue, b: AbstractValue) -> bool
    ensures { result ≡ rules.misuses_sum shape a b }
{
    match a {
        AbstractValue::Unset => false,
        AbstractValue::Number(x) => match b {
            AbstractValue::Unset | AbstractValue::Number(_) => false,
            AbstractValue::Pointer(region, y) => passes(
                shape,
                region,
                alu(AluOp::Add, Width::W64, x, y),
            ),
        },
        AbstractValue::Pointer(region, x) => match b {
            AbstractValue::Unset => false,
            AbstractValue::Number(y) => passes(shape, region, alu(AluOp::Add, Width::W64, x, y)),
            AbstractValue::Pointer(..) => true,
        },
    }
}

fn misuses_difference(shape: Shape, a: AbstractValue, b: AbstractValue) -> bool
    ensures { result ≡ rules.misuses_difference shape a b }
{
    match b {
        AbstractValue::Unset => false,
        AbstractValue::Pointer(..) => true,
        AbstractValue::Number(y) => match a {
            AbstractValue::Unset | AbstractValue::Number(_) => false,
            AbstractValue::Pointer(region, x) => passes(
                shape,
                region,
                alu(AluOp::Sub, Width::W64, x, y),
            ),
        },
    }
}

fn is_move(op: AluOp) -> bool
    ensures { IsTrue result ↔ (op ≡ AluOp.Mov) }
{
    op == AluOp::Mov
}

fn misuses_operands(
    shape: Shape,
    op: AluOp,
    width: Width,
    a: AbstractValue,
    b: AbstractValue,
) -> bool
    ensures { result ≡ rules.misuses_operands shape op width a b }
{
    match width {
        Width::W64 => match op {
            AluOp::Mov => false,
            AluOp::Add => misuses_sum(shape, a, b),
            AluOp::Sub => misuses_difference(shape, a, b),
            AluOp::Mul
            | AluOp::Div
            | AluOp::Sdiv
            | AluOp::Or
            | AluOp::And
            | AluOp::Lsh
            | AluOp::Rsh
            | AluOp::Mod
            | AluOp::Smod
            | AluOp::Xor
            | AluOp::Arsh => is_pointer(a) || is_pointer(b),
        },
        Width::W32 => (!is_move(op) && is_pointer(a)) || is_pointer(b),
    }
}

/// Whether an access takes one double word whole, whichever pointer of the range it uses.
pub(crate) fn is_whole(a: Range, off: i16, count: u32) -> bool
    ensures { result ≡ rules.is_whole a off count }
{
    if count != 8 || a.lo() != a.hi() {
        return false;
    }
    let first = i128::from(a.lo()) + i128::from(off);
    first.unsigned_abs() % 8 == 0
}

/// Returns whether an access takes one double word of the stack whole, whichever pointer of the kind it uses.
pub fn takes_dword(kind: AbstractValue, off: i16, count: u32) -> bool
    ensures { result ≡ rules.takes_dword kind off count }
{
    match kind {
        AbstractValue::Unset | AbstractValue::Number(_) => false,
        AbstractValue::Pointer(region, a) => match region {
            Region::Mem => false,
            Region::Stack => is_whole(a, off, count),
        },
    }
}

/// Whether one of the stack's bytes from `first` on, before `end`, is of a kept pointer.
fn touches(known: &AbstractState, first: u32, end: u32) -> bool
    requires { end ≤ STACK_BYTES }
    ensures { result ≡ rules.touches_written (abstract_of known.now) first (end - first) }
{
    if known.holds_none() {
        return false;
    }
    for byte in first..end {
        if is_pointer(known.entry_of(byte)) {
            return true;
        }
    }
    false
}

#[inline(always)]
fn touches_byte(
    shape: Shape,
    known: &AbstractState,
    kind: AbstractValue,
    off: i16,
    count: u32,
) -> bool
    requires few { count ≤ 8 }
    requires inside { rules.may_leave_region shape kind off count ≡ false }
    ensures { result ≡ rules.touches_byte (abstract_of known.now) kind off count }
{
    match kind {
        AbstractValue::Unset | AbstractValue::Number(_) => false,
        AbstractValue::Pointer(region, a) => match region {
            Region::Mem => false,
            Region::Stack => match bytes_taken(shape, region, a, off, count) {
                Some((first, end)) => touches(known, first, end),
                None => unreachable!(),
            },
        },
    }
}

/// Whether a load may take a part of a kept pointer.
#[inline(always)]
fn may_take_part(shape: Shape, known: &AbstractState, base: Reg, off: i16, count: u32) -> bool
    requires { count ≤ 8 }
    ensures { result ≡ rules.may_take_part shape (abstract_of known.now) (kind_of (abstract_of known.now) base) off
        count }
{
    if known.holds_none() {
        return false;
    }
    if leaves_region(shape, known.kind(base), off, count) {
        return false;
    }
    touches_byte(shape, known, known.kind(base), off, count)
        && !takes_dword(known.kind(base), off, count)
}

fn misuses_pointer(shape: Shape, insn: &Insn, known: &AbstractState) -> bool
    ensures { result ≡ rules.may_misuse_pointer shape insn.now (abstract_of known.now) }
{
    match *insn {
        Insn::Alu {
            op,
            width,
            dst,
            src,
        } => misuses_operands(
            shape,
            op,
            width,
            known.kind(dst),
            operand_kind(width, src, known),
        ),
        Insn::Neg { dst, .. } => is_pointer(known.kind(dst)),
        Insn::Movsx { src, .. } => is_pointer(known.kind(src)),
        Insn::Swap { dst, .. } => is_pointer(known.kind(dst)),
        Insn::Branch {
            width,
            dst,
            src,
            ..
        } => { is_pointer(known.kind(dst)) || is_pointer(operand_kind(width, src, known)) }
        Insn::Load {
            size,
            base,
            off,
            ..
        } => may_take_part(shape, known, base, off, size.bytes()),
        Insn::LoadSx {
            size,
            base,
            off,
            ..
        } => may_take_part(shape, known, base, off, size.bytes()),
        Insn::StoreReg {
            size,
            base,
            off,
            src,
        } => { is_pointer(known.kind(src)) && !takes_dword(known.kind(base), off, size.bytes()) }
        Insn::Ja { .. }
        | Insn::JaLong { .. }
        | Insn::Call { .. }
        | Insn::Exit
        | Insn::StoreImm { .. }
        | Insn::LoadImm64 { .. } => false,
    }
}

/// Returns an offset in a region, moved by a signed one.
pub fn moved(place: u64, off: i16) -> Option<u128>
    ensures { result ≡ moved place off }
{
    let size = u128::from(off.unsigned_abs());
    if off >= 0 {
        Some(u128::from(place) + size)
    } else {
        u128::from(place).checked_sub(size)
    }
}

fn leave(size: u32, first: Option<u128>, last: Option<u128>, count: u32) -> bool
    requires { IfSome last (λ place. place < 2 ^ 127) }
    ensures { result ≡ rules.may_leave size first last count }
{
    match first {
        None => true,
        Some(_first) => match last {
            None => true,
            Some(place) => place + u128::from(count) > u128::from(size),
        },
    }
}

fn leaves_region(shape: Shape, kind: AbstractValue, off: i16, count: u32) -> bool
    ensures { result ≡ rules.may_leave_region shape kind off count }
{
    match kind {
        AbstractValue::Unset | AbstractValue::Number(_) => false,
        AbstractValue::Pointer(region, a) => leave(
            shape.region_size(region),
            moved(a.lo(), off),
            moved(a.hi(), off),
            count,
        ),
    }
}

fn leaves(shape: Shape, known: &AbstractState, access: Option<Access>) -> bool
    ensures { result ≡ rules.on_base (rules.may_leave_region shape) (abstract_of known.now) access }
{
    match access {
        Some(access) => { leaves_region(shape, known.kind(access.base), access.off, access.count) }
        None => false,
    }
}

#[tactic(auto, using(crate::proofs::RuleLaws::on_access))]
fn leaves_regions(shape: Shape, insn: &Insn, known: &AbstractState) -> bool
    ensures { result ≡ rules.may_leave_regions shape insn.now (abstract_of known.now) }
{
    leaves(shape, known, access_of(insn))
}

/// Whether one of the stack's bytes from `first` on, before `end`, isn't surely written.
fn lacks(known: &AbstractState, first: u32, end: u32) -> bool
    requires { end ≤ STACK_BYTES }
    ensures { result ≡ rules.lacks (abstract_of known.now) first (end - first) }
{
    for byte in first..end {
        if !known.marks.has(byte) {
            return true;
        }
    }
    false
}

/// Returns the first byte of the lowest access and the end of the highest, if all of them stay inside their region.
pub fn bytes_taken(
    shape: Shape,
    region: Region,
    a: Range,
    off: i16,
    count: u32,
) -> Option<(u32, u32)>
    requires { count ≤ 8 }
    ensures none { IsNone result → rules.may_leave_region shape (AbstractValue.Pointer region a) off count ≡ true }
    ensures some { IfSome result (λ p. (moved a.lo off ≡ Some p.0) × (moved a.hi off ≡ Some (p.1 - count))
        × (count ≤ p.1) × (p.0 + count ≤ p.1) × (p.1 ≤ region_size shape region)) }
{
    match moved(a.lo(), off) {
        None => None,
        Some(first) => match moved(a.hi(), off) {
            None => None,
            Some(last) => {
                if last + u128::from(count) > u128::from(shape.region_size(region)) {
                    return None;
                }
                Some((first as u32, last as u32 + count))
            }
        },
    }
}

fn lacks_byte(
    shape: Shape,
    known: &AbstractState,
    kind: AbstractValue,
    off: i16,
    count: u32,
) -> bool
    requires few { count ≤ 8 }
    requires inside { rules.may_leave_region shape kind off count ≡ false }
    ensures { result ≡ rules.lacks_byte (abstract_of known.now) kind off count }
{
    match kind {
        AbstractValue::Unset | AbstractValue::Number(_) => false,
        AbstractValue::Pointer(region, a) => match region {
            Region::Mem => false,
            Region::Stack => match bytes_taken(shape, region, a, off, count) {
                Some((first, end)) => lacks(known, first, end),
                None => unreachable!(),
            },
        },
    }
}

#[inline(always)]
fn misses_byte(shape: Shape, known: &AbstractState, base: Reg, off: i16, count: u32) -> bool
    requires few { count ≤ 8 }
    requires inside { rules.may_leave_region shape (kind_of (abstract_of known.now) base) off count ≡ false }
    ensures { result ≡ rules.misses_byte (abstract_of known.now) (kind_of (abstract_of known.now) base) off count }
{
    lacks_byte(shape, known, known.kind(base), off, count)
        && !touches_byte(shape, known, known.kind(base), off, count)
}

fn loads_unset(shape: Shape, insn: &Insn, known: &AbstractState) -> bool
    requires { rules.may_leave_regions shape insn.now (abstract_of known.now) ≡ false }
    ensures { result ≡ rules.loads_unset insn.now (abstract_of known.now) }
{
    match load_of(insn) {
        Some(access) => misses_byte(shape, known, access.base, access.off, access.count),
        None => false,
    }
}

fn not_below(limit: u64, kind: AbstractValue) -> bool
    ensures { result ≡ rules.may_reach limit kind }
{
    match kind {
        AbstractValue::Unset => false,
        AbstractValue::Number(a) => a.hi() >= limit,
        AbstractValue::Pointer(..) => true,
    }
}

fn misses_argument(shape: Shape, insn: &Insn, known: &AbstractState) -> bool
    ensures { result ≡ rules.misses_argument shape insn.now (abstract_of known.now) }
{
    match call_of(insn) {
        Some(id) => helper_refuses(shape, Helper::of(id), known),
        None => false,
    }
}

fn helper_refuses(shape: Shape, helper: Option<Helper>, known: &AbstractState) -> bool
    ensures { result ≡ rules.helper_may_refuse shape helper (abstract_of known.now) }
{
    let nodes = u64::from(shape.nodes());
    match helper {
        None => false,
        Some(called) => match called {
            Helper::Id | Helper::Coin => false,
            Helper::Recv => not_below(nodes, known.kind(Reg::R1)),
            Helper::Send => not_below(nodes, known.kind(Reg::R1))
                || not_below(1 << 32, known.kind(Reg::R2)),
        },
    }
}

fn exits_with_pointer(insn: &Insn, known: &AbstractState) -> bool
    ensures { result ≡ rules.may_exit_with_pointer insn.now (abstract_of known.now) }
{
    is_exit(insn) && is_pointer(known.kind(Reg::R0))
}

fn has_number_base(known: &AbstractState, access: Option<Access>) -> bool
    ensures { result ≡ rules.on_base rules.is_number_base (abstract_of known.now) access }
{
    match access {
        Some(access) => is_number(known.kind(access.base)),
        None => false,
    }
}

#[tactic(auto, using(crate::proofs::RuleLaws::on_access))]
fn accesses_number(insn: &Insn, known: &AbstractState) -> bool
    ensures { result ≡ rules.accesses_number insn.now (abstract_of known.now) }
{
    has_number_base(known, access_of(insn))
}

/// The lowest rule that an instruction breaks that is never reached.
pub(crate) fn broken_unreached(
    program: &Program,
    shape: Shape,
    slot: u32,
    insn: &Insn,
) -> Option<Rule>
    requires { insn_at program.now slot ≡ Some insn.now }
    ensures { result ≡ rules.lowest_broken program.now shape slot insn.now None }
{
    if goes_back(insn) {
        return Some(Rule::NotForward);
    }
    if leads_astray(program, slot, insn) {
        return Some(Rule::BadTarget);
    }
    if calls_unknown(insn) {
        return Some(Rule::UnknownHelper);
    }
    if writes_frame(insn) {
        return Some(Rule::FrameWrite);
    }
    None
}

/// The lowest rule that an instruction breaks where so much is known.
pub(crate) fn broken_reached(
    program: &Program,
    shape: Shape,
    slot: u32,
    insn: &Insn,
    known: &AbstractState,
) -> Option<Rule>
    requires { insn_at program.now slot ≡ Some insn.now }
    ensures { result ≡ rules.lowest_broken program.now shape slot insn.now (Some (abstract_of known.now)) }
{
    if goes_back(insn) {
        return Some(Rule::NotForward);
    }
    if leads_astray(program, slot, insn) {
        return Some(Rule::BadTarget);
    }
    if calls_unknown(insn) {
        return Some(Rule::UnknownHelper);
    }
    if reads_unset(insn, known) {
        return Some(Rule::UnsetRegister);
    }
    if writes_frame(insn) {
        return Some(Rule::FrameWrite);
    }
    if misuses_pointer(shape, insn, known) {
        return Some(Rule::PointerMisuse);
    }
    if leaves_regions(shape, insn, known) {
        return Some(Rule::OutOfRegion);
    }
    if loads_unset(shape, insn, known) {
        return Some(Rule::UnsetStackByte);
    }
    if misses_argument(shape, insn, known) {
        return Some(Rule::BadArgument);
    }
    if exits_with_pointer(insn, known) {
        return Some(Rule::ExitNotNumber);
    }
    if accesses_number(insn, known) {
        return Some(Rule::NotPointer);
    }
    None
}
