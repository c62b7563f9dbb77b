//! The line of a step.

ghost use Rattle.std.specs.Prelude.{Some};
ghost use Rattle.run_trace.specs.Lines.{held_text, register_change};
ghost use Rattle.run_trace.specs.inner.Parts.{did_in, step_line_in, remark_in};

use bpf_asm::{CanonicalLine, register_word};
use bpf_insn::{Insn, Reg};
use bpf_machine::{Region, Word};
use std::fmt;

/// What a register holds, or that it isn't set.
#[derive(Clone, Copy)]
struct HeldText(Option<Word>);

impl fmt::Display for HeldText {
    ghost output = { λ held. Some (held_text held.0) };

    fn fmt<W: fmt::Write>(&self, f: &mut fmt::Formatter<W>) -> fmt::Result {
        match self.0 {
            None => write!(f, "unset"),
            Some(word) => match word {
                Word::Num(number) => write!(f, "{number}"),
                Word::Ptr(region, offset) => match region {
                    Region::Mem => write!(f, "memory+{offset}"),
                    Region::Stack => write!(f, "stack+{offset}"),
                },
            },
        }
    }
}

/// A register and what it holds.
#[derive(Clone, Copy)]
pub(crate) struct Held {
    pub(crate) register: Reg,
    pub(crate) word: Option<Word>,
}

impl fmt::Display for Held {
    ghost output = { λ held. Some (register_change held.register held.word) };

    fn fmt<W: fmt::Write>(&self, f: &mut fmt::Formatter<W>) -> fmt::Result {
        write!(
            f,
            "{} = {}",
            register_word(self.register),
            HeldText(self.word)
        )
    }
}

/// The registers that an instruction reads, with what they hold before it.
#[derive(Clone, Copy)]
pub(crate) enum Reading {
    Nothing,
    One(Held),
    Two(Held, Held),
}

/// What is told after an instruction: nothing if it reads and writes no register.
#[derive(Clone, Copy)]
struct Remark {
    reading: Reading,
    wrote: Option<Held>,
}

impl fmt::Display for Remark {
    ghost output = { λ told. Some (remark_in told.reading told.wrote) };

    fn fmt<W: fmt::Write>(&self, f: &mut fmt::Formatter<W>) -> fmt::Result {
        match self.wrote {
            None => match self.reading {
                Reading::Nothing => Ok(()),
                Reading::One(first) => write!(f, " # {first}"),
                Reading::Two(first, second) => write!(f, " # {first}, {second}"),
            },
            Some(wrote) => match self.reading {
                Reading::Nothing => write!(f, " # -> {wrote}"),
                Reading::One(first) => write!(f, " # {first} -> {wrote}"),
                Reading::Two(first, second) => write!(f, " # {first}, {second} -> {wrote}"),
            },
        }
    }
}

/// An instruction that was run: what it read, and what it wrote where its step led on.
#[derive(Clone, Copy)]
pub(crate) struct Did {
    pub(crate) insn: Insn,
    pub(crate) reading: Reading,
    pub(crate) wrote: Option<Held>,
}

impl fmt::Display for Did {
    ghost output = { λ did. Some (did_in did) };

    fn fmt<W: fmt::Write>(&self, f: &mut fmt::Formatter<W>) -> fmt::Result {
        let line = CanonicalLine { insn: self.insn };
        let remark = Remark {
            reading: self.reading,
            wrote: self.wrote,
        };
        write!(f, " {line}{remark}")
    }
}

/// The line of a step, without its end. Nothing was run if no instruction begins at the slot.
#[derive(Clone, Copy)]
pub(crate) struct Line {
    /// The first step's is 1.
    pub(crate) number: u64,
    pub(crate) slot: u32,
    pub(crate) did: Option<Did>,
}

impl fmt::Display for Line {
    ghost output = { λ line. Some (step_line_in line) };

    fn fmt<W: fmt::Write>(&self, f: &mut fmt::Formatter<W>) -> fmt::Result {
        let number = self.number;
        let slot = self.slot;
        match self.did {
            None => write!(f, "step {number} slot {slot}"),
            Some(did) => write!(f, "step {number} slot {slot}{did}"),
        }
    }
}
