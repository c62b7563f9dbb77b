//! The operands of instructions.

ghost use Rattle.std.specs.Prelude.{◌≡◌, ◌==◌, ◌∷◌, ◌≤◌, ◌≤ℤ◌, ◌+◌, pos, neg_ℤ, IfOk, Option};
ghost use Rattle.std.specs.List.{list_all};
ghost use Rattle.std.specs.Option.{option_and_then};
ghost use Rattle.bpf_asm.specs.declared.numbers.TheConstants.{GREATEST_IMMEDIATE};
ghost use Rattle.bpf_asm.specs.Numbers.{Written, in_field, wide_of};
ghost use Rattle.bpf_asm.specs.inner.Numbers.{CountsSigned};
ghost use Rattle.bpf_asm.specs.Pieces.{is_word_letter, pieces_of};
ghost use Rattle.bpf_asm.specs.Operands.{immediate_of, operand_spelled, callee_of};
ghost use Rattle.bpf_asm.specs.inner.Operands.{Reads, ReadsTarget, IsTargetWithin};
ghost use Rattle.bpf_asm.specs.Operands.{wide_number_of, offset_in, address_inside, address_of, address_between};
ghost use Rattle.bpf_asm.specs.Operands.{starts_name, is_name, target_of, operands_of, operands_by, parts_of};
ghost use Rattle.bpf_asm.specs.inner.Operands.{operands_in};
ghost use Rattle.bpf_asm.specs.Words.{register_by_word};

use crate::numbers::{
    GREATEST_IMMEDIATE, GREATEST_OFFSET, Number, signed_decimal, signed_number, whole_number,
};
use crate::pieces::{Letters, begins_name, first_piece, split_front, trimmed};
use crate::registers::register_by_word;
use bpf_insn::{Operand, Reg};
use node_env::Helper;

/// The most letters of a label.
pub const NAME_LETTERS: usize = 32;

/// What is wrong with one line, the lowest first.
#[derive(Clone, Copy, Debug, PartialEq, Eq, PartialOrd, Ord)]
pub enum Fault {
    /// No form and no label is named so.
    UnknownWord,
    /// The operands have another form.
    BadOperand,
    /// A number of right form is outside its range.
    OutOfRange,
}

/// An address: a register and the bytes from there.
#[derive(Clone, Copy, Debug, PartialEq, Eq)]
pub struct Address {
    pub base: Reg,
    pub off: i16,
}

/// Where a jump goes: this many slots on from the next one, or to a label.
#[derive(Clone, Copy, Debug)]
pub enum Target<'a> {
    Distance(i32),
    Label(&'a [u8]),
}

/// Operands between commas, without the blanks around them.
#[derive(Clone, Copy, Debug)]
pub enum Parts<'a> {
    One(&'a [u8]),
    Two(&'a [u8], &'a [u8]),
    Three(&'a [u8], &'a [u8], &'a [u8]),
    More,
}

/// The number that a field of this greatest number holds.
#[tactic(auto, using(crate::proofs::OperandLemmas::field_read))]
fn field_of(number: Option<Number>, most: u32) -> Result<i64, Fault>
    ensures value { (w : Option Written) → CountsSigned w number → Reads (option_and_then (in_field most) w) result }
    ensures least { IfOk result (λ z. neg_ℤ (pos (most + 1)) ≤ℤ z) }
    ensures most { IfOk result (λ z. z ≤ℤ pos most) }
{
    let Some(number) = number else {
        return Err(Fault::BadOperand);
    };
    match number.in_field(most) {
        Some(value) => Ok(value),
        None => Err(Fault::OutOfRange),
    }
}

/// Reads a register by its word.
pub fn read_register(text: &[u8]) -> Result<Reg, Fault>
    ensures { Reads (register_by_word text.now) result }
{
    register_by_word(text).ok_or(Fault::BadOperand)
}

/// Reads a number that an immediate holds.
pub fn read_immediate(text: &[u8]) -> Result<i32, Fault>
    ensures { Reads (immediate_of text.now) result }
{
    let value = field_of(whole_number(text), GREATEST_IMMEDIATE)?;
    Ok(value as i32)
}

/// Reads a register or an immediate.
pub fn read_operand(text: &[u8]) -> Result<Operand, Fault>
    ensures { Reads (operand_spelled text.now) result }
{
    match register_by_word(text) {
        Some(register) => Ok(Operand::Reg(register)),
        None => Ok(Operand::Imm(read_immediate(text)?)),
    }
}

/// Reads a helper's number: its word or a number.
pub fn read_helper(text: &[u8]) -> Result<i32, Fault>
    ensures { Reads (callee_of text.now) result }
{
    match Helper::named(text) {
        Some(helper) => Ok(helper.number()),
        None => read_immediate(text),
    }
}

/// The number as 64 bits.
#[tactic(auto, using(crate::proofs::OperandLemmas::wide_read))]
fn wide_of(number: Option<Number>) -> Result<u64, Fault>
    ensures { (w : Option Written) → CountsSigned w number → Reads (option_and_then wide_of w) result }
{
    let Some(number) = number else {
        return Err(Fault::BadOperand);
    };
    match number.wide() {
        Some(value) => Ok(value),
        None => Err(Fault::OutOfRange),
    }
}

/// Reads a number of 64 bits; one below zero is taken modulo 2^64.
pub fn read_wide_number(text: &[u8]) -> Result<u64, Fault>
    ensures { Reads (wide_number_of text.now) result }
{
    let value = wide_of(whole_number(text))?;
    Ok(value)
}

fn read_offset(text: &[u8]) -> Result<i16, Fault>
    ensures { Reads (offset_in text.now) result }
{
    if text.is_empty() {
        return Ok(0);
    }
    let off = field_of(signed_number(text), GREATEST_OFFSET)?;
    Ok(off as i16)
}

fn read_address_inside(inside: &[u8]) -> Result<Address, Fault>
    ensures { Reads (address_inside inside.now) result }
{
    let (word, rest) = split_front(inside, Letters::Word);
    let base = read_register(word)?;
    let off = read_offset(rest)?;
    Ok(Address { base, off })
}

/// What is after `[`, as far as the `]` at the end.
#[tactic(auto, using(crate::proofs::OperandLemmas::address_closed, crate::proofs::OperandLemmas::address_open))]
fn read_address_behind(text: &[u8]) -> Result<Address, Fault>
    ensures { Reads (address_between (pieces_of (λ d. d == 93) text.now)) result }
{
    match first_piece(text, b']') {
        (inside, Some(after)) => {
            if after.is_empty() {
                read_address_inside(inside)
            } else {
                Err(Fault::BadOperand)
            }
        }
        (_, None) => Err(Fault::BadOperand),
    }
}

/// Reads an address in brackets.
pub fn read_address(text: &[u8]) -> Result<Address, Fault>
    ensures { Reads (address_of text.now) result }
{
    match text {
        [b'[', rest @ ..] => read_address_behind(rest),
        _ => Err(Fault::BadOperand),
    }
}

fn starts_name(text: &[u8]) -> bool
    ensures { result ≡ starts_name text.now }
{
    match text {
        [first, ..] => begins_name(*first),
        [] => false,
    }
}

fn are_word_letters(text: &[u8]) -> bool
    ensures { result ≡ list_all is_word_letter text.now }
{
    text.iter().all(|byte| Letters::Word.has(*byte))
}

/// Returns whether a text is a label: a letter or `_`, then letters, digits and `_`, at most 32 in all.
pub fn is_name(text: &[u8]) -> bool
    ensures { result ≡ is_name text.now }
{
    starts_name(text) && are_word_letters(text) && text.len() <= NAME_LETTERS
}

/// Reads a distance that a field of this greatest number holds, or a label.
pub fn read_target(text: &[u8], most: u32) -> Result<Target<'_>, Fault>
    requires { most ≤ GREATEST_IMMEDIATE }
    ensures target { ReadsTarget (target_of most text.now) result }
    ensures within { IfOk result (IsTargetWithin most) }
{
    match text {
        [b'+' | b'-', ..] => {
            let off = field_of(signed_decimal(text), most)?;
            Ok(Target::Distance(off as i32))
        }
        _ => {
            if is_name(text) {
                Ok(Target::Label(text))
            } else {
                Err(Fault::BadOperand)
            }
        }
    }
}

/// The operands after two.
#[tactic(auto, using(crate::proofs::OperandLemmas::third_part))]
fn parts_behind_two<'a>(a: &'a [u8], b: &'a [u8], text: &'a [u8]) -> Parts<'a>
    ensures { operands_by (a.now ∷ b.now ∷ parts_of text.now) ≡ operands_in result }
{
    match first_piece(text, b',') {
        (c, None) => Parts::Three(a, b, trimmed(c)),
        (_, Some(_)) => Parts::More,
    }
}

/// The operands after one.
#[tactic(auto, using(crate::proofs::OperandLemmas::second_part))]
fn parts_behind<'a>(a: &'a [u8], text: &'a [u8]) -> Parts<'a>
    ensures { operands_by (a.now ∷ parts_of text.now) ≡ operands_in result }
{
    match first_piece(text, b',') {
        (b, None) => Parts::Two(a, trimmed(b)),
        (b, Some(rest)) => parts_behind_two(a, trimmed(b), rest),
    }
}

/// Reads the operands of an instruction.
#[tactic(auto, using(crate::proofs::OperandLemmas::first_part))]
pub fn read_parts(text: &[u8]) -> Parts<'_>
    ensures { operands_of text.now ≡ operands_in result }
{
    match first_piece(text, b',') {
        (a, None) => Parts::One(trimmed(a)),
        (a, Some(rest)) => parts_behind(trimmed(a), rest),
    }
}
