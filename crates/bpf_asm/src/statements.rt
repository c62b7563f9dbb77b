//! What one line says.

ghost use Rattle.std.specs.Prelude.{◌≡◌, ◌≢◌, ◌≤◌, ◌⊎◌, List, ℕ, Ok, Err, IfOk, IfErr};
ghost use Rattle.bpf_insn.specs.declared.forms.Insn.TheVariants as insn;
ghost use Rattle.bpf_asm.specs.declared.words.Form.TheVariants as form;
ghost use Rattle.bpf_asm.specs.declared.numbers.TheConstants.{GREATEST_IMMEDIATE, GREATEST_OFFSET};
ghost use Rattle.bpf_asm.specs.Operands.{two, operand_spelled};
ghost use Rattle.bpf_asm.specs.inner.Operands.{Reads, ReadsTarget, IsTargetWithin, target_in, operands_in};
ghost use Rattle.bpf_asm.specs.Operands.{address_of, immediate_of, wide_number_of, callee_of, target_of};
ghost use Rattle.bpf_asm.specs.Pieces.{without_comment};
ghost use Rattle.bpf_asm.specs.Statements.{single_by, pair_by, nothing_of, compared_in, whole};
ghost use Rattle.bpf_asm.specs.inner.Statements.{ReadsCondition};
ghost use Rattle.bpf_asm.specs.Statements.{jump_to, source_by, ends_word, source_behind};
ghost use Rattle.bpf_asm.specs.inner.Statements.{source_in, ReadsSource};
ghost use Rattle.bpf_asm.specs.Statements.{source_spelled, named, line_by, line_of};
ghost use Rattle.bpf_asm.specs.inner.Statements.{source_written, line_in};
ghost use Rattle.bpf_asm.specs.Words.{register_by_word};

use crate::forms::form_of;
use crate::numbers::{GREATEST_IMMEDIATE, GREATEST_OFFSET};
use crate::operands::{
    Address, Fault, Parts, Target, is_name, read_address, read_helper, read_immediate,
    read_operand, read_parts, read_register, read_target, read_wide_number,
};
use crate::pieces::{Letters, first_piece, split_front};
use crate::words::Form;
use bpf_insn::{AluOp, Cond, Insn, Operand, Reg, Size, SxSize, Width};

/// An instruction as it is written: a jump to a label still has the distance 0.
#[derive(Clone, Copy, Debug)]
pub struct Source<'a> {
    pub insn: Insn,
    pub label: Option<&'a [u8]>,
}

/// A line: its label, and its instruction or what is wrong with it.
#[derive(Clone, Copy, Debug)]
pub struct Line<'a> {
    pub name: Option<&'a [u8]>,
    pub source: Result<Option<Source<'a>>, Fault>,
}

fn nothing(parts: Parts) -> Result<(), Fault>
    ensures { Reads (single_by nothing_of (operands_in parts.entry)) result }
{
    match parts {
        Parts::One([]) => Ok(()),
        _ => Err(Fault::BadOperand),
    }
}

fn one_register(parts: Parts) -> Result<Reg, Fault>
    ensures { Reads (single_by register_by_word (operands_in parts.entry)) result }
{
    match parts {
        Parts::One(a) => read_register(a),
        _ => Err(Fault::BadOperand),
    }
}

fn one_helper(parts: Parts) -> Result<i32, Fault>
    ensures { Reads (single_by callee_of (operands_in parts.entry)) result }
{
    match parts {
        Parts::One(a) => read_helper(a),
        _ => Err(Fault::BadOperand),
    }
}

fn one_target(parts: Parts<'_>, most: u32) -> Result<Target<'_>, Fault>
    requires { most ≤ GREATEST_IMMEDIATE }
    ensures target { ReadsTarget (single_by (target_of most) (operands_in parts.entry)) result }
    ensures within { IfOk result (IsTargetWithin most) }
{
    match parts {
        Parts::One(a) => read_target(a, most),
        _ => Err(Fault::BadOperand),
    }
}

/// Two operands.
fn two(parts: Parts<'_>) -> Result<(&[u8], &[u8]), Fault>
    ensures two { IfOk result (λ x. operands_in parts.entry ≡ two x.0.now x.1.now) }
    ensures other { IfErr result (λ _. (a b : List ℕ) → operands_in parts.entry ≢ two a b) }
{
    match parts {
        Parts::Two(a, b) => Ok((a, b)),
        _ => Err(Fault::BadOperand),
    }
}

/// Two values that are read, or the lower of what is wrong with them.
fn both<A: Copy, B: Copy>(
    first: Result<A, Fault>,
    second: Result<B, Fault>,
) -> Result<(A, B), Fault>
    ensures values { IfOk result (λ x. (first ≡ Ok x.0) × (second ≡ Ok x.1)) }
    ensures fault { IfErr result (λ e. (first ≡ Err e) ⊎ (second ≡ Err e)) }
{
    match (first, second) {
        (Ok(a), Ok(b)) => Ok((a, b)),
        (Err(fault), Err(other)) => Err(fault.min(other)),
        (Err(fault), Ok(_)) | (Ok(_), Err(fault)) => Err(fault),
    }
}

#[tactic(auto, using(crate::proofs::StatementLemmas::pair_read, crate::proofs::StatementLemmas::no_pair))]
fn two_registers(parts: Parts) -> Result<(Reg, Reg), Fault>
    ensures { Reads (pair_by register_by_word register_by_word (operands_in parts.entry)) result }
{
    let (a, b) = two(parts)?;
    both(read_register(a), read_register(b))
}

#[tactic(auto, using(crate::proofs::StatementLemmas::pair_read, crate::proofs::StatementLemmas::no_pair))]
fn register_and_operand(parts: Parts) -> Result<(Reg, Operand), Fault>
    ensures { Reads (pair_by register_by_word operand_spelled (operands_in parts.entry)) result }
{
    let (a, b) = two(parts)?;
    both(read_register(a), read_operand(b))
}

#[tactic(auto, using(crate::proofs::StatementLemmas::pair_read, crate::proofs::StatementLemmas::no_pair))]
fn register_and_address(parts: Parts) -> Result<(Reg, Address), Fault>
    ensures { Reads (pair_by register_by_word address_of (operands_in parts.entry)) result }
{
    let (a, b) = two(parts)?;
    both(read_register(a), read_address(b))
}

#[tactic(auto, using(crate::proofs::StatementLemmas::pair_read, crate::proofs::StatementLemmas::no_pair))]
fn register_and_wide_number(parts: Parts) -> Result<(Reg, u64), Fault>
    ensures { Reads (pair_by register_by_word wide_number_of (operands_in parts.entry)) result }
{
    let (a, b) = two(parts)?;
    both(read_register(a), read_wide_number(b))
}

#[tactic(auto, using(crate::proofs::StatementLemmas::pair_read, crate::proofs::StatementLemmas::no_pair))]
fn address_and_register(parts: Parts) -> Result<(Address, Reg), Fault>
    ensures { Reads (pair_by address_of register_by_word (operands_in parts.entry)) result }
{
    let (a, b) = two(parts)?;
    both(read_address(a), read_register(b))
}

#[tactic(auto, using(crate::proofs::StatementLemmas::pair_read, crate::proofs::StatementLemmas::no_pair))]
fn address_and_immediate(parts: Parts) -> Result<(Address, i32), Fault>
    ensures { Reads (pair_by address_of immediate_of (operands_in parts.entry)) result }
{
    let (a, b) = two(parts)?;
    both(read_address(a), read_immediate(b))
}

/// A register, what it is compared with, and where the jump goes.
fn condition(parts: Parts<'_>) -> Result<(Reg, Operand, Target<'_>), Fault>
    ensures condition { ReadsCondition (compared_in (operands_in parts.entry)) result }
    ensures within { IfOk result (λ x. IsTargetWithin GREATEST_OFFSET x.2) }
{
    let Parts::Three(a, b, c) = parts else {
        return Err(Fault::BadOperand);
    };
    let compared = both(read_operand(b), read_target(c, GREATEST_OFFSET));
    let (dst, (src, target)) = both(read_register(a), compared)?;
    Ok((dst, src, target))
}

fn whole(insn: Insn) -> Source<'static>
    ensures { source_in result ≡ whole insn }
{
    Source { insn, label: None }
}

fn jump(target: Target<'_>) -> Source<'_>
    requires { IsTargetWithin GREATEST_OFFSET target }
    ensures { source_in result ≡ jump_to insn.Ja (target_in target.entry) }
{
    match target {
        Target::Distance(off) => Source {
            insn: Insn::Ja { off: off as i16 },
            label: None,
        },
        Target::Label(name) => Source {
            insn: Insn::Ja { off: 0 },
            label: Some(name),
        },
    }
}

fn long_jump(target: Target<'_>) -> Source<'_>
    ensures { source_in result ≡ jump_to insn.JaLong (target_in target.entry) }
{
    match target {
        Target::Distance(off) => Source {
            insn: Insn::JaLong { off },
            label: None,
        },
        Target::Label(name) => Source {
            insn: Insn::JaLong { off: 0 },
            label: Some(name),
        },
    }
}

fn branch(cond: Cond, width: Width, dst: Reg, src: Operand, target: Target<'_>) -> Source<'_>
    requires { IsTargetWithin GREATEST_OFFSET target }
    ensures { source_in result ≡ jump_to (insn.Branch cond width dst src) (target_in target.entry) }
{
    let (off, label) = match target {
        Target::Distance(off) => (off as i16, None),
        Target::Label(name) => (0, Some(name)),
    };
    Source {
        insn: Insn::Branch {
            cond,
            width,
            dst,
            src,
            off,
        },
        label,
    }
}

fn alu(op: AluOp, width: Width, parts: Parts<'_>) -> Result<Source<'_>, Fault>
    ensures { ReadsSource (source_by (form.Alu op width) (operands_in parts.entry)) result }
{
    let (dst, src) = register_and_operand(parts)?;
    Ok(whole(Insn::Alu {
        op,
        width,
        dst,
        src,
    }))
}

fn load(size: Size, parts: Parts<'_>) -> Result<Source<'_>, Fault>
    ensures { ReadsSource (source_by (form.Load size) (operands_in parts.entry)) result }
{
    let (dst, Address { base, off }) = register_and_address(parts)?;
    Ok(whole(Insn::Load {
        size,
        dst,
        base,
        off,
    }))
}

fn load_sx(size: SxSize, parts: Parts<'_>) -> Result<Source<'_>, Fault>
    ensures { ReadsSource (source_by (form.LoadSx size) (operands_in parts.entry)) result }
{
    let (dst, Address { base, off }) = register_and_address(parts)?;
    Ok(whole(Insn::LoadSx {
        size,
        dst,
        base,
        off,
    }))
}

fn store_reg(size: Size, parts: Parts<'_>) -> Result<Source<'_>, Fault>
    ensures { ReadsSource (source_by (form.StoreReg size) (operands_in parts.entry)) result }
{
    let (Address { base, off }, src) = address_and_register(parts)?;
    Ok(whole(Insn::StoreReg {
        size,
        base,
        off,
        src,
    }))
}

fn store_imm(size: Size, parts: Parts<'_>) -> Result<Source<'_>, Fault>
    ensures { ReadsSource (source_by (form.StoreImm size) (operands_in parts.entry)) result }
{
    let (Address { base, off }, imm) = address_and_immediate(parts)?;
    Ok(whole(Insn::StoreImm {
        size,
        base,
        off,
        imm,
    }))
}

/// The instruction of a form and its operands.
fn read_source(form: Form, parts: Parts<'_>) -> Result<Source<'_>, Fault>
    ensures { ReadsSource (source_by form (operands_in parts.entry)) result }
{
    match form {
        Form::Alu(op, width) => alu(op, width, parts),
        Form::Neg(width) => one_register(parts).map(|dst| whole(Insn::Neg { width, dst })),
        Form::Movsx(kind) => {
            let (dst, src) = two_registers(parts)?;
            Ok(whole(Insn::Movsx { kind, dst, src }))
        }
        Form::Swap(order, bits) => {
            one_register(parts).map(|dst| whole(Insn::Swap { order, bits, dst }))
        }
        Form::Ja => Ok(jump(one_target(parts, GREATEST_OFFSET)?)),
        Form::JaLong => Ok(long_jump(one_target(parts, GREATEST_IMMEDIATE)?)),
        Form::Branch(cond, width) => {
            let (dst, src, target) = condition(parts)?;
            Ok(branch(cond, width, dst, src, target))
        }
        Form::Call => one_helper(parts).map(|id| whole(Insn::Call { id })),
        Form::Exit => nothing(parts).map(|()| whole(Insn::Exit)),
        Form::Load(size) => load(size, parts),
        Form::LoadSx(size) => load_sx(size, parts),
        Form::StoreReg(size) => store_reg(size, parts),
        Form::StoreImm(size) => store_imm(size, parts),
        Form::LoadImm64 => {
            let (dst, value) = register_and_wide_number(parts)?;
            Ok(whole(Insn::LoadImm64 { dst, value }))
        }
    }
}

/// Whether a word ends here: before a blank, the end, or the `[` of an operand.
fn ends_word(rest: &[u8]) -> bool
    ensures { result ≡ ends_word rest.now }
{
    match rest {
        [] => true,
        [byte, ..] => Letters::Blank.has(*byte) || *byte == b'[',
    }
}

/// The instruction of a word and of what is after it.
fn source_behind<'a>(word: &'a [u8], rest: &'a [u8]) -> Result<Option<Source<'a>>, Fault>
    ensures { source_written result ≡ source_behind word.now rest.now }
{
    if word.is_empty() {
        return if rest.is_empty() {
            Ok(None)
        } else {
            Err(Fault::UnknownWord)
        };
    }
    let Some(form) = form_of(word) else {
        return Err(Fault::UnknownWord);
    };
    if !ends_word(rest) {
        return Err(Fault::BadOperand);
    }
    Ok(Some(read_source(form, read_parts(rest))?))
}

/// The instruction of a line without its label.
fn source_of(text: &[u8]) -> Result<Option<Source<'_>>, Fault>
    ensures { source_written result ≡ source_spelled text.now }
{
    let (_, front) = split_front(text, Letters::Blank);
    let (word, rest) = split_front(front, Letters::Word);
    source_behind(word, rest)
}

/// A label, and what is after its colon.
fn named<'a>(name: &'a [u8], rest: &'a [u8]) -> Line<'a>
    ensures { line_in result ≡ named name.now rest.now }
{
    if is_name(name) {
        Line {
            name: Some(name),
            source: source_of(rest),
        }
    } else {
        Line {
            name: None,
            source: Err(Fault::UnknownWord),
        }
    }
}

fn line_by<'a>(word: &'a [u8], rest: &'a [u8]) -> Line<'a>
    ensures { line_in result ≡ line_by word.now rest.now }
{
    match rest {
        [b':', behind @ ..] => named(word, behind),
        _ => Line {
            name: None,
            source: source_behind(word, rest),
        },
    }
}

fn without_comment(line: &[u8]) -> &[u8]
    ensures { result.now ≡ without_comment line.now }
{
    let (code, _) = first_piece(line, b'#');
    code
}

/// Reads a line.
pub fn read_line(text: &[u8]) -> Line<'_>
    ensures { line_in result ≡ line_of text.now }
{
    let (_, front) = split_front(without_comment(text), Letters::Blank);
    let (word, rest) = split_front(front, Letters::Word);
    line_by(word, rest)
}
