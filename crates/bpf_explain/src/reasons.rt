//! Why a rule is broken: what was known, and what the rule asks.

ghost use Rattle.std.specs.Prelude.{◌≡◌, [], ◌∷◌, ◌++◌, ◌+◌, ◌-◌, ◌^◌, ◌<◌, ◌≤◌, codes, IfOk, IfSome, Some, None, string_bytes};
ghost use Rattle.std.specs.Fmt.{decimal};
ghost use Rattle.node_env.specs.Helpers.{arguments_of};
ghost use Rattle.bpf_insn.specs.Operands.{access_of, call_of, load_of, reads, registers_in};
ghost use Rattle.bpf_insn.specs.Edges.{distance};
ghost use Rattle.bpf_insn.specs.Programs.{insn_at};
ghost use Rattle.bpf_verify.specs.Findings.{AreFindings, abstract_of, table_in};
ghost use Rattle.bpf_verify.specs.Rules.{may_reach};
ghost use Rattle.bpf_verify.specs.States.{is_unset_kind, kind_of};
ghost use Rattle.std.specs.List.{find};
ghost use Rattle.bpf_explain.specs.Reasons as reasons;
ghost use Rattle.bpf_explain.specs.Known.{stack_bytes};

use crate::access::stack_bytes;
use crate::loaded::first_unwritten;
use bpf_insn::{
    Access, Insn, Operand, Program, Reads, Reg, Way, access_of, call_of, distance, load_of, target,
};
use bpf_verify::{
    AbstractState, AbstractValue, Findings, Rule, Verdict, alu_kind, is_astray, is_pointer,
    is_unset, moved, operand_kind, registers_of,
};
use node_env::{Region, Shape};
use std::alloc::{AllocError, Global};
use std::fmt;

fn jump_reason(alloc: Global, insn: &Insn) -> Result<String, AllocError>
    ensures { IfOk result (λ text. string_bytes text ≡ reasons.jump_text (distance insn.now)) }
{
    match distance(insn) {
        None => Ok(String::new(alloc)),
        Some(off) => format!(in alloc; "it jumps by {off}, and a jump goes forward"),
    }
}

/// Of the two ways the first that leads to no instruction.
fn astray_way(program: &Program, slot: u32, insn: &Insn) -> Option<u64>
    ensures { result ≡ reasons.astray_way program.now slot insn.now }
{
    let onward = target(insn, slot, Way::Onward);
    if is_astray(program, onward) {
        onward
    } else {
        target(insn, slot, Way::Jumping)
    }
}

fn target_reason(
    alloc: Global,
    program: &Program,
    slot: u32,
    insn: &Insn,
) -> Result<String, AllocError>
    ensures { IfOk result (λ text. string_bytes text
        ≡ reasons.leads_text (reasons.astray_way program.now slot insn.now)) }
{
    match astray_way(program, slot, insn) {
        None => Ok(String::new(alloc)),
        Some(to) => format!(in alloc; "it leads to slot {to}, where no instruction begins"),
    }
}

fn helper_reason(alloc: Global, insn: &Insn) -> Result<String, AllocError>
    ensures { IfOk result (λ text. string_bytes text ≡ reasons.helper_text (call_of insn.now)) }
{
    match call_of(insn) {
        None => Ok(String::new(alloc)),
        Some(id) => format!(in alloc; "there is no helper {id}"),
    }
}

fn frame_reason(alloc: Global) -> Result<String, AllocError>
    ensures { IfOk result (λ text. string_bytes text ≡ reasons.frame_text) }
{
    String::from_str(alloc, "r10 is written, and it is the end of the stack")
}

fn exit_reason(alloc: Global) -> Result<String, AllocError>
    ensures { IfOk result (λ text. string_bytes text ≡ reasons.exit_text) }
{
    String::from_str(alloc, "r0 is a pointer, and a program ends with a number")
}

/// The register, where it may be unset.
fn unset(known: &AbstractState, register: Reg) -> Option<Reg>
    ensures { result ≡ find (λ register. is_unset_kind (kind_of (abstract_of known.now) register)) (register ∷ []) }
{
    if is_unset(known.kind(register)) {
        Some(register)
    } else {
        None
    }
}

/// The first of the registers that may be unset.
fn first_unset(known: &AbstractState, registers: Reads) -> Option<Reg>
    ensures { result ≡ find (λ register. is_unset_kind (kind_of (abstract_of known.now) register))
        (registers_in registers) }
{
    match registers {
        Reads::Nothing => None,
        Reads::One(first) => unset(known, first),
        Reads::Two(first, second) => {
            if is_unset(known.kind(first)) {
                return Some(first);
            }
            unset(known, second)
        }
    }
}

fn register_reason(alloc: Global, register: Reg) -> Result<String, AllocError>
    ensures { IfOk result (λ text. string_bytes text ≡ reasons.unset_text (Some register)) }
{
    format!(in alloc; "r{} may be unset", register.number())
}

fn unset_reason(alloc: Global, insn: &Insn, known: &AbstractState) -> Result<String, AllocError>
    ensures { IfOk result (λ text. string_bytes text
        ≡ reasons.unset_text (reasons.first_unset (abstract_of known.now) insn.now)) }
{
    match first_unset(known, registers_of(insn)) {
        None => Ok(String::new(alloc)),
        Some(register) => register_reason(alloc, register),
    }
}

/// The second operand if it is a pointer, otherwise the first.
fn pointer_operand(known: &AbstractState, dst: Reg, src: Operand) -> Reg
    ensures { result ≡ reasons.pointer_operand (abstract_of known.now) dst src }
{
    match src {
        Operand::Imm(_) => dst,
        Operand::Reg(src) => {
            if is_pointer(known.kind(src)) {
                src
            } else {
                dst
            }
        }
    }
}

fn pointer_reason(alloc: Global, register: Reg) -> Result<String, AllocError>
    ensures { IfOk result (λ text. string_bytes text ≡ reasons.pointer_text register) }
{
    format!(in alloc;
        "r{} is a pointer, and a number is asked for",
        register.number()
    )
}

/// From this place on a sum of places has wrapped below 0.
const WRAPPED: u64 = 1 << 63;

fn place_reason(
    alloc: Global,
    shape: Shape,
    region: Region,
    place: u64,
) -> Result<String, AllocError>
    ensures { IfOk result (λ text. string_bytes text ≡ reasons.place_text shape region place) }
{
    if place >= WRAPPED {
        return String::from_str(
            alloc,
            "the place may wrap below 0; sub64 moves a range of places back, and add64 of a negative number wraps",
        );
    }
    let size = shape.region_size(region);
    format!(in alloc; "the place may be {place}, and the {region} has {size} bytes")
}

/// Why an operation that gives this misuses a pointer.
fn result_reason(
    alloc: Global,
    shape: Shape,
    register: Reg,
    given: AbstractValue,
) -> Result<String, AllocError>
    ensures { IfOk result (λ text. string_bytes text ≡ reasons.result_text shape register given) }
{
    match given {
        AbstractValue::Unset | AbstractValue::Number(_) => pointer_reason(alloc, register),
        AbstractValue::Pointer(region, range) => place_reason(alloc, shape, region, range.hi()),
    }
}

fn part_reason(alloc: Global) -> Result<String, AllocError>
    ensures { IfOk result (λ text. string_bytes text ≡ reasons.part_text) }
{
    String::from_str(
        alloc,
        "it may take a part of a kept pointer, and one is loaded whole",
    )
}

fn kept_reason(alloc: Global, register: Reg) -> Result<String, AllocError>
    ensures { IfOk result (λ text. string_bytes text ≡ reasons.kept_text register) }
{
    let number = register.number();
    format!(in alloc; "r{number} is a pointer, and one is kept in a double word of the stack alone")
}

fn misuse_reason(
    alloc: Global,
    shape: Shape,
    insn: &Insn,
    known: &AbstractState,
) -> Result<String, AllocError>
    ensures { IfOk result (λ text. string_bytes text
        ≡ reasons.misuse_text shape (abstract_of known.now) insn.now) }
{
    match *insn {
        Insn::Alu {
            op,
            width,
            dst,
            src,
        } => {
            let given = alu_kind(op, width, known.kind(dst), operand_kind(width, src, known));
            result_reason(alloc, shape, pointer_operand(known, dst, src), given)
        }
        Insn::Neg { dst, .. } => pointer_reason(alloc, dst),
        Insn::Movsx { src, .. } => pointer_reason(alloc, src),
        Insn::Swap { dst, .. } => pointer_reason(alloc, dst),
        Insn::Branch { dst, src, .. } => pointer_reason(alloc, pointer_operand(known, dst, src)),
        Insn::Load { .. } => part_reason(alloc),
        Insn::LoadSx { .. } => part_reason(alloc),
        Insn::StoreReg { src, .. } => kept_reason(alloc, src),
        Insn::Ja { .. }
        | Insn::JaLong { .. }
        | Insn::Call { .. }
        | Insn::Exit
        | Insn::StoreImm { .. }
        | Insn::LoadImm64 { .. } => Ok(String::new(alloc)),
    }
}

/// How many bytes a region has.
#[derive(Clone, Copy)]
struct RegionSize {
    region: Region,
    size: u32,
}

impl fmt::Display for RegionSize {
    ghost output = { λ has. Some (reasons.size_text has.region has.size) };

    fn fmt<W: fmt::Write>(&self, f: &mut fmt::Formatter<W>) -> fmt::Result {
        let RegionSize { region, size } = *self;
        write!(f, "the {region} has {size}")
    }
}

/// The bytes that may be taken, and how many the region has.
#[derive(Clone, Copy)]
struct TakenBytes {
    first: u128,
    last: u128,
    region: Region,
    size: u32,
}

impl fmt::Display for TakenBytes {
    ghost output = { λ taken. Some (reasons.bytes_line taken.first taken.last taken.region taken.size) };

    fn fmt<W: fmt::Write>(&self, f: &mut fmt::Formatter<W>) -> fmt::Result {
        let TakenBytes {
            first,
            last,
            region,
            size,
        } = *self;
        write!(
            f,
            "bytes {first}..{last} may be taken, and {}",
            RegionSize { region, size }
        )
    }
}

fn bytes_reason(alloc: Global, taken: TakenBytes) -> Result<String, AllocError>
    ensures { IfOk result (λ text. string_bytes text
        ≡ reasons.bytes_line taken.first taken.last taken.region taken.size) }
{
    format!(in alloc; "{taken}")
}

fn taken_reason(
    alloc: Global,
    first: Option<u128>,
    last: Option<u128>,
    count: u32,
    region: Region,
    size: u32,
) -> Result<String, AllocError>
    requires few { (1 ≤ count) × (count ≤ 8) }
    requires small { IfSome last (λ place. place < 2 ^ 127) }
    ensures { IfOk result (λ text. string_bytes text ≡ reasons.taken_text first last count region size) }
{
    match (first, last) {
        (Some(first), Some(last)) => {
            let last = last + u128::from(count) - 1;
            bytes_reason(
                alloc,
                TakenBytes {
                    first,
                    last,
                    region,
                    size,
                },
            )
        }
        (None, None) | (None, Some(_)) | (Some(_), None) => {
            String::from_str(alloc, "a byte below 0 may be taken")
        }
    }
}

fn region_reason(
    alloc: Global,
    shape: Shape,
    base: AbstractValue,
    off: i16,
    count: u32,
) -> Result<String, AllocError>
    requires { (1 ≤ count) × (count ≤ 8) }
    ensures { IfOk result (λ text. string_bytes text ≡ reasons.region_text shape base off count) }
{
    match base {
        AbstractValue::Unset | AbstractValue::Number(_) => Ok(String::new(alloc)),
        AbstractValue::Pointer(region, range) => {
            let (first, last) = (moved(range.lo(), off), moved(range.hi(), off));
            taken_reason(alloc, first, last, count, region, shape.region_size(region))
        }
    }
}

fn leaves_reason(
    alloc: Global,
    shape: Shape,
    insn: &Insn,
    known: &AbstractState,
) -> Result<String, AllocError>
    ensures { IfOk result (λ text. string_bytes text
        ≡ reasons.leaves_text shape (abstract_of known.now) (access_of insn.now)) }
{
    match access_of(insn) {
        None => Ok(String::new(alloc)),
        Some(Access { base, off, count }) => {
            region_reason(alloc, shape, known.kind(base), off, count)
        }
    }
}

fn byte_reason(alloc: Global, byte: Option<u32>) -> Result<String, AllocError>
    ensures { IfOk result (λ text. string_bytes text ≡ reasons.byte_text byte) }
{
    match byte {
        None => Ok(String::new(alloc)),
        Some(byte) => format!(in alloc; "stack byte {byte} may be unwritten"),
    }
}

fn unwritten_reason(
    alloc: Global,
    shape: Shape,
    insn: &Insn,
    known: &AbstractState,
) -> Result<String, AllocError>
    ensures { IfOk result (λ text. string_bytes text
        ≡ reasons.unwritten_text shape (abstract_of known.now) (load_of insn.now)) }
{
    let Some(Access { base, off, count }) = load_of(insn) else {
        return Ok(String::new(alloc));
    };
    match stack_bytes(shape, known.kind(base), off, count) {
        None => Ok(String::new(alloc)),
        Some((first, end)) => byte_reason(alloc, first_unwritten(known, first, end)),
    }
}

fn base_reason(alloc: Global, insn: &Insn) -> Result<String, AllocError>
    ensures { IfOk result (λ text. string_bytes text ≡ reasons.base_text (access_of insn.now)) }
{
    match access_of(insn) {
        None => Ok(String::new(alloc)),
        Some(Access { base, .. }) => {
            let number = base.number();
            format!(in alloc; "r{number} is a number, and an access goes by a pointer")
        }
    }
}

/// What is known of an argument.
fn argument_text(alloc: Global, register: Reg, kind: AbstractValue) -> Result<String, AllocError>
    ensures { IfOk result (λ text. string_bytes text ≡ reasons.argument_text register kind) }
{
    let number = register.number();
    match kind {
        AbstractValue::Unset => format!(in alloc; "r{number} may be unset"),
        AbstractValue::Number(range) => format!(in alloc; "r{number} may be {}", range.hi()),
        AbstractValue::Pointer(..) => format!(in alloc; "r{number} is a pointer"),
    }
}

/// Whether an argument may be refused as the number of a node.
fn may_reach(limit: u32, kind: AbstractValue) -> bool
    ensures { result ≡ may_reach limit kind }
{
    match kind {
        AbstractValue::Unset => false,
        AbstractValue::Number(range) => range.hi() >= u64::from(limit),
        AbstractValue::Pointer(..) => true,
    }
}

/// What is known of the number of a node, and what is asked of it.
fn limited(alloc: Global, told: &str, nodes: u32) -> Result<String, AllocError>
    ensures { IfOk result (λ text. string_bytes text ≡ reasons.limited_text told.now nodes) }
{
    format!(in alloc; "{told}, and a node's number is below {nodes}")
}

fn node_reason(alloc: Global, shape: Shape, known: &AbstractState) -> Result<String, AllocError>
    ensures { IfOk result (λ text. string_bytes text ≡ reasons.node_text shape (abstract_of known.now)) }
{
    let told = argument_text(alloc, Reg::R1, known.kind(Reg::R1))?;
    limited(alloc, told.as_str(), shape.nodes())
}

fn sent_reason(alloc: Global, known: &AbstractState) -> Result<String, AllocError>
    ensures { IfOk result (λ text. string_bytes text ≡ reasons.sent_text (abstract_of known.now)) }
{
    let told = argument_text(alloc, Reg::R2, known.kind(Reg::R2))?;
    format!(in alloc; "{told}, and a number sent is below 4294967296")
}

fn argument_reason(alloc: Global, shape: Shape, known: &AbstractState) -> Result<String, AllocError>
    ensures { IfOk result (λ text. string_bytes text
        ≡ reasons.arguments_text shape (abstract_of known.now)) }
{
    if may_reach(shape.nodes(), known.kind(Reg::R1)) {
        node_reason(alloc, shape, known)
    } else {
        sent_reason(alloc, known)
    }
}

/// Why an instruction breaks a rule that nothing reaches.
fn unreached_reason(
    alloc: Global,
    program: &Program,
    shape: Shape,
    slot: u32,
    insn: &Insn,
    rule: Rule,
) -> Result<String, AllocError>
    ensures { IfOk result (λ text. string_bytes text
        ≡ reasons.reason_text rule program.now shape slot insn.now None) }
{
    match rule {
        Rule::NotForward => jump_reason(alloc, insn),
        Rule::BadTarget => target_reason(alloc, program, slot, insn),
        Rule::UnknownHelper => helper_reason(alloc, insn),
        Rule::FrameWrite => frame_reason(alloc),
        Rule::ExitNotNumber => exit_reason(alloc),
        Rule::NotPointer => base_reason(alloc, insn),
        Rule::UnsetRegister
        | Rule::PointerMisuse
        | Rule::OutOfRegion
        | Rule::UnsetStackByte
        | Rule::BadArgument => Ok(String::new(alloc)),
    }
}

/// Why an instruction breaks a rule where so much is known.
fn reached_reason(
    alloc: Global,
    program: &Program,
    shape: Shape,
    slot: u32,
    insn: &Insn,
    known: &AbstractState,
    rule: Rule,
) -> Result<String, AllocError>
    ensures { IfOk result (λ text. string_bytes text
        ≡ reasons.reason_text rule program.now shape slot insn.now (Some (abstract_of known.now))) }
{
    match rule {
        Rule::NotForward => jump_reason(alloc, insn),
        Rule::BadTarget => target_reason(alloc, program, slot, insn),
        Rule::UnknownHelper => helper_reason(alloc, insn),
        Rule::UnsetRegister => unset_reason(alloc, insn, known),
        Rule::FrameWrite => frame_reason(alloc),
        Rule::PointerMisuse => misuse_reason(alloc, shape, insn, known),
        Rule::OutOfRegion => leaves_reason(alloc, shape, insn, known),
        Rule::UnsetStackByte => unwritten_reason(alloc, shape, insn, known),
        Rule::BadArgument => argument_reason(alloc, shape, known),
        Rule::ExitNotNumber => exit_reason(alloc),
        Rule::NotPointer => base_reason(alloc, insn),
    }
}

/// Why the instruction at a slot breaks a rule.
fn reason_at(
    alloc: Global,
    program: &Program,
    shape: Shape,
    findings: &Findings,
    slot: u32,
    insn: &Insn,
    rule: Rule,
) -> Result<String, AllocError>
    ensures { IfOk result (λ text. string_bytes text
        ≡ reasons.reason_text rule program.now shape slot insn.now (table_in findings.now slot)) }
{
    match findings.known_at(slot) {
        Some(known) => reached_reason(alloc, program, shape, slot, insn, known, rule),
        None => unreached_reason(alloc, program, shape, slot, insn, rule),
    }
}

/// The line of a refusal by a rule.
fn refusal_line(
    alloc: Global,
    program: &Program,
    shape: Shape,
    findings: &Findings,
    slot: u32,
    rule: Rule,
) -> Result<String, AllocError>
    ensures { IfOk result (λ text. string_bytes text
        ≡ reasons.reason_of rule program.now shape slot (table_in findings.now slot) (insn_at program.now slot)) }
{
    let Some(insn) = program.insn_at(slot) else {
        return Ok(String::new(alloc));
    };
    let reason = reason_at(alloc, program, shape, findings, slot, &insn, rule)?;
    let (number, name) = (rule.number(), rule.name());
    format!(in alloc; "rule {number}, {name}: {reason}\n")
}

/// Returns the line that names the rule of a refusal and says why it is broken; nothing for a program that is accepted.
pub fn reason(
    alloc: Global,
    program: &Program,
    shape: Shape,
    findings: &Findings,
) -> Result<String, AllocError>
    ensures { IfOk result (λ text. string_bytes text
        ≡ reasons.reason_in program.now shape findings.now findings.now.verdict) }
{
    match findings.verdict() {
        Verdict::Accepted { .. } => Ok(String::new(alloc)),
        Verdict::Refused { slot, rule } => {
            refusal_line(alloc, program, shape, findings, slot, rule)
        }
    }
}
