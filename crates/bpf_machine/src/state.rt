//! The part of the machine's state that lives for one run.

ghost use Rattle.std.specs.Prelude.{◌≡◌, ◌<◌, ◌≤◌, ◌+◌, length, IfSome, Ok, Err, if◌then◌else◌};
ghost use Rattle.bpf_machine.specs.declared.word.TrapKind.TheVariants.{NotNumber};
ghost use Rattle.bpf_machine.specs.declared.word.Word.TheVariants.{Num};
ghost use Rattle.bpf_machine.specs.inner.Cells.{are_set, with_marks, without_marks};
ghost use Rattle.std.specs.FinMap as map;
ghost use Rattle.bpf_machine.specs.Machine.{entry_frame};
ghost use Rattle.bpf_machine.specs.Traps.{held};
ghost use Rattle.node_env.specs.declared.region.Region.TheVariants.{Stack};
ghost use Rattle.bpf_machine.specs.Step.{after_call, kept_at, kept_frame, number_at, number_in, operand_of, touches_kept, with_number, with_register, without_bytes, word_of, writable, written_frame};

use crate::bytes::{number_in, put_number};
use crate::word::{TrapKind, Word};
use bpf_insn::{Operand, Reg};
use node_env::{Env, Region, STACK_BYTES, STACK_DWORDS};
use std::marker::Model;

/// How many registers there are.
const REGISTERS: usize = 11;

/// The slot to be run next, what each register holds, and the stack. Memory and outbox are handed to each step.
#[derive(Drop)]
pub struct State {
    slot: u32,
    registers: [Option<Word>; REGISTERS],
    stack: [u8; STACK_BYTES as usize],
    /// Which bytes of the stack are written.
    written: [bool; STACK_BYTES as usize],
    /// The pointer that each double word of the stack keeps.
    kept: [Option<Word>; STACK_DWORDS],
    /// Whether one was kept in this run: else no double word is looked at.
    keeps: bool,
}

impl Model for State {
    ghost use Rattle.node_env.specs.Slots.{map_of};
    ghost use Rattle.bpf_machine.specs.Machine.{Frame};
    ghost use Rattle.std.specs.Prelude.{IsTrue, ◌||◌};
    ghost use Rattle.bpf_machine.specs.inner.Cells.{holds_none, written_bytes};
    ghost use Rattle.bpf_machine.specs.inner.Codes.{frame_code};
    ghost use Rattle.bpf_machine.specs.contracts.word.Word as word;

    ghost Value = { Frame };

    ghost coded = { frame_code word.the_row.coded };

    ghost view = { λ s. record {
      slot = s.slot;
      registers = map_of s.registers;
      stack = written_bytes s.stack s.written;
      kept = map_of s.kept;
    } };

    ghost invariant = { λ s. IsTrue (s.keeps || holds_none s.kept) };
}

impl State {
    /// Returns the state in which a run begins: r1 points at the node's memory, r2 is its number, and r10 is the end of
    /// the stack.
    #[tactic(auto, using(node_env::proofs::Slots::slots))]
    pub fn entry(env: &Env) -> State
        ensures { result ≡ entry_frame env.now }
    {
        let mut registers = [None; REGISTERS];
        registers[1] = Some(Word::Ptr(Region::Mem, 0));
        registers[2] = Some(Word::Num(u64::from(env.id())));
        registers[10] = Some(Word::Ptr(Region::Stack, STACK_BYTES));
        State {
            slot: 0,
            registers,
            stack: [0; STACK_BYTES as usize],
            written: [false; STACK_BYTES as usize],
            kept: [None; STACK_DWORDS],
            keeps: false,
        }
    }

    /// Returns the slot that is to be run next.
    pub fn slot(&self) -> u32
        ensures { result ≡ self.now.slot }
    {
        self.slot
    }

    /// Returns what a register holds, if it is set.
    #[tactic(auto, using(node_env::proofs::Slots::slots))]
    pub fn register(&self, register: Reg) -> Option<Word>
        ensures { result ≡ held self.now register }
    {
        self.registers[register.number() as usize]
    }

    /// What a register holds.
    #[tactic(auto, using(node_env::proofs::Slots::slots))]
    #[inline(always)]
    pub(crate) fn word(&self, register: Reg) -> Result<Word, TrapKind>
        ensures { result ≡ word_of self.now register }
    {
        self.registers[register.number() as usize].ok_or(TrapKind::Unset)
    }

    /// What an operand is.
    #[inline(always)]
    pub(crate) fn operand(&self, operand: Operand) -> Result<Word, TrapKind>
        ensures { result ≡ operand_of self.now operand }
    {
        match operand {
            Operand::Imm(imm) => Ok(Word::Num(i64::from(imm).cast_unsigned())),
            Operand::Reg(register) => self.word(register),
        }
    }

    /// The number that a register holds: `None` of a pointer too.
    #[tactic(auto, using(node_env::proofs::Slots::slots))]
    #[inline(always)]
    pub(crate) fn number_of(&self, register: Reg) -> Option<u64>
        ensures { IfSome result (λ number. word_of self.now register ≡ Ok (Num number)) }
    {
        let held = self.registers[register.number() as usize];
        match held {
            Some(Word::Num(number)) => Some(number),
            Some(Word::Ptr(_, _)) | None => None,
        }
    }

    /// The number that an operand is: `None` of a pointer too.
    #[inline(always)]
    pub(crate) fn operand_number(&self, operand: Operand) -> Option<u64>
        ensures { IfSome result (λ number. operand_of self.now operand ≡ Ok (Num number)) }
    {
        match operand {
            Operand::Imm(imm) => Some(i64::from(imm).cast_unsigned()),
            Operand::Reg(register) => self.number_of(register),
        }
    }

    #[tactic(auto, using(node_env::proofs::Slots::slots))]
    #[inline(always)]
    pub(crate) fn set_register(&mut self, register: Reg, word: Word)
        ensures { self.new ≡ with_register self.old register word }
    {
        self.registers[register.number() as usize] = Some(word);
    }

    #[inline(always)]
    pub(crate) fn go_to(&mut self, slot: u32)
        ensures { self.new ≡ record self.old { slot = slot } }
    {
        self.slot = slot;
    }

    #[tactic(auto, using(node_env::proofs::Slots::slots))]
    fn unset(&mut self, number: usize)
        requires { number < 11 }
        ensures { self.new ≡ record self.old { registers = map.remove self.old.registers number } }
    {
        self.registers[number] = None;
    }

    /// Takes the words of r1 to r5 out, and puts a helper's answer into r0.
    pub(crate) fn end_call(&mut self, answer: u64)
        ensures { self.new ≡ after_call self.old answer }
    {
        self.unset(1);
        self.unset(2);
        self.unset(3);
        self.unset(4);
        self.unset(5);
        self.set_register(Reg::R0, Word::Num(answer));
    }

    #[tactic(auto, using(node_env::proofs::Slots::slots))]
    #[inline(always)]
    fn touches_kept(&self, first: usize, count: usize) -> bool
        requires some { 1 ≤ count }
        requires inside { first + count ≤ STACK_BYTES }
        ensures { result ≡ touches_kept self.now first count }
    {
        if !self.keeps {
            return false;
        }
        self.kept[first / 8].is_some() || self.kept[(first + count - 1) / 8].is_some()
    }

    /// The pointer that is kept in the eight bytes from a place on.
    #[tactic(auto, using(node_env::proofs::Slots::slots))]
    #[inline(always)]
    pub(crate) fn kept_at(&self, first: usize) -> Option<Word>
        requires { first + 8 ≤ STACK_BYTES }
        ensures { result ≡ kept_at self.now Stack first 8 }
    {
        if !self.keeps {
            return None;
        }
        if first % 8 == 0 {
            self.kept[first / 8]
        } else {
            None
        }
    }

    #[tactic(auto, using(crate::proofs::StackCells::stack_cells))]
    #[inline(always)]
    fn written_number(&self, first: usize, count: usize) -> Result<u64, TrapKind>
        requires few { count ≤ 8 }
        requires inside { first + count ≤ STACK_BYTES }
        ensures { result ≡ number_at (map.get self.now.stack) first count }
    {
        if are_set(&self.written, first, count) {
            Ok(number_in(&self.stack, first, count))
        } else {
            Err(TrapKind::UnsetByte)
        }
    }

    /// The number that bytes of the stack spell, if none is of a kept pointer and all are written.
    #[inline(always)]
    pub(crate) fn number_at(&self, first: usize, count: usize) -> Result<u64, TrapKind>
        requires some { 1 ≤ count }
        requires few { count ≤ 8 }
        requires inside { first + count ≤ STACK_BYTES }
        ensures { result ≡ (if touches_kept self.now first count then Err NotNumber
            else number_at (map.get self.now.stack) first count) }
    {
        if self.touches_kept(first, count) {
            return Err(TrapKind::NotNumber);
        }
        self.written_number(first, count)
    }

    #[tactic(auto, using(crate::proofs::StackCells::stack_cells))]
    #[inline(always)]
    fn put(&mut self, first: usize, count: usize, value: u64)
        requires { first + count ≤ STACK_BYTES }
        ensures { self.new ≡ record self.old { stack = with_number map.insert self.old.stack first count value } }
    {
        put_number(&mut self.stack, first, count, value);
        mark(&mut self.written, first, count);
    }

    #[tactic(auto, using(node_env::proofs::Slots::slots))]
    #[inline(always)]
    fn let_go(&mut self, dword: usize)
        requires { dword < STACK_DWORDS }
        ensures { self.new ≡ record self.old { kept = map.remove self.old.kept dword } }
    {
        if self.keeps {
            self.kept[dword] = None;
        }
    }

    /// Puts a number's low bytes into the stack, the lowest first. Each kept pointer that they touch goes.
    #[inline(always)]
    pub(crate) fn store(&mut self, first: usize, count: usize, value: u64)
        requires some { 1 ≤ count }
        requires inside { first + count ≤ STACK_BYTES }
        ensures { self.new ≡ written_frame self.old first count value }
    {
        self.put(first, count, value);
        self.let_go(first / 8);
        self.let_go((first + count - 1) / 8);
    }

    #[tactic(auto, using(crate::proofs::StackCells::stack_cells))]
    #[inline(always)]
    fn unwrite(&mut self, first: usize, count: usize)
        requires { first + count ≤ STACK_BYTES }
        ensures { self.new ≡ record self.old { stack = without_bytes self.old.stack first count } }
    {
        unmark(&mut self.written, first, count);
    }

    #[tactic(auto, using(node_env::proofs::Slots::slots))]
    #[inline(always)]
    fn take_in(&mut self, dword: usize, pointer: Word)
        requires { dword < STACK_DWORDS }
        ensures { self.new ≡ record self.old { kept = map.insert self.old.kept dword pointer } }
    {
        self.keeps = true;
        self.kept[dword] = Some(pointer);
    }

    /// Keeps a pointer in the eight bytes from a place on.
    #[inline(always)]
    pub(crate) fn keep(&mut self, first: usize, pointer: Word)
        requires { first + 8 ≤ STACK_BYTES }
        ensures { self.new ≡ kept_frame self.old first pointer }
    {
        self.unwrite(first, 8);
        self.take_in(first / 8, pointer);
    }
}

/// Whether this many marks are set.
#[tactic(auto, using(crate::proofs::StackCells::stack_marks))]
#[inline(always)]
fn are_set(marks: &[bool], first: usize, count: usize) -> bool
    requires { first + count ≤ length marks.now }
    ensures { result ≡ are_set marks.now first count }
{
    let mut all = true;
    for i in (0..count).rev() {
        all &= marks[first + i];
    }
    all
}

/// Sets this many marks.
#[tactic(auto, using(crate::proofs::StackCells::stack_marks))]
#[inline(always)]
fn mark(marks: &mut [bool], first: usize, count: usize)
    requires { first + count ≤ length marks.old }
    ensures { marks.new ≡ with_marks marks.old first count }
{
    for i in 0..count {
        marks[first + i] = true;
    }
}

/// Takes this many marks away.
#[tactic(auto, using(crate::proofs::StackCells::stack_marks))]
#[inline(always)]
fn unmark(marks: &mut [bool], first: usize, count: usize)
    requires { first + count ≤ length marks.old }
    ensures { marks.new ≡ without_marks marks.old first count }
{
    for i in 0..count {
        marks[first + i] = false;
    }
}

/// The number that a word is, or otherwise the trap.
#[inline(always)]
pub(crate) fn number(word: Word, trap: TrapKind) -> Result<u64, TrapKind>
    ensures { result ≡ number_in trap word }
{
    match word {
        Word::Num(number) => Ok(number),
        Word::Ptr(_, _) => Err(trap),
    }
}

/// The register, where it may be written: all but R10.
#[inline(always)]
pub(crate) fn writable(register: Reg) -> Result<Reg, TrapKind>
    ensures { result ≡ writable register }
{
    if register == Reg::R10 {
        Err(TrapKind::FrameWrite)
    } else {
        Ok(register)
    }
}
