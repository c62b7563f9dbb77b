//! How the number of a term is found, and where it is kept.

use bpf_insn::Reg;

/// The most numbers in use at once: three in registers, and one in each four bytes of the stack.
pub const PLACES: u32 = 131;

/// Where a number in use is kept: in a register, or in the four bytes of the stack at an offset from r10.
#[derive(Clone, Copy, Debug, PartialEq, Eq)]
pub enum Place {
    InRegister(Reg),
    OnStack(i16),
}

/// What a term is computed for: its number, or a jump of a distance if it holds (true) or if it doesn't (false).
#[derive(Clone, Copy, Debug, PartialEq, Eq)]
pub enum Purpose {
    Value,
    Jump(bool, usize),
}

/// Where the number of a term is found: it is a constant, a local or a word; otherwise it is computed.
#[derive(Clone, Copy, Debug, PartialEq, Eq)]
pub enum Source {
    Constant(u32),
    FromLocal(u32),
    FromWord(u32),
    Computed,
}

/// What is found over the nodes for which a term holds: how many there are, or the least message from one of them.
#[derive(Clone, Copy, Debug, PartialEq, Eq)]
pub enum Tally {
    HowMany,
    LeastMessage,
}
